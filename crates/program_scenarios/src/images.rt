// Images by their names.
use anyhow::{Result, anyhow};
use std::alloc::{AllocError, Global};
use std::fs;

/// The bytes of an image, and its name.
#[derive(Drop)]
struct Image {
    name: String,
    bytes: Vec<u8>,
}

/// Images in memory.
#[derive(Drop)]
pub(crate) struct Images {
    images: Vec<Image>,
}

impl Images {
    pub(crate) fn new(alloc: Global) -> Images {
        Images {
            images: Vec::new(alloc),
        }
    }

    /// The place of the image of this name.
    fn place_of(&self, name: &str) -> Option<usize> {
        self.images
            .iter()
            .position(|image| image.name.as_str() == name)
    }

    /// Takes the image of this name out of memory, or reads it from the file of that name. None, where there is neither.
    pub(crate) fn find(&mut self, rt: &HostRuntime, name: &str) -> Option<Vec<u8>> {
        match self.place_of(name) {
            Some(place) if place < self.images.len() => {
                Some(self.images.swap_remove(place).bytes)
            }
            _ => fs::read(rt, name).ok(),
        }
    }

    /// Takes the image of this name, which has to be there.
    pub(crate) fn take(&mut self, rt: &HostRuntime, name: &str) -> Result<Vec<u8>> {
        match self.find(rt, name) {
            Some(bytes) => Ok(bytes),
            None => Err(anyhow!("there is no image {name}")),
        }
    }

    /// Makes these bytes the image of a name that has none in memory.
    pub(crate) fn put(
        &mut self,
        alloc: Global,
        name: &str,
        bytes: Vec<u8>,
    ) -> Result<(), AllocError> {
        let name = String::from_str(alloc, name)?;
        self.images.push(Image { name, bytes })?;
        Ok(())
    }
}
