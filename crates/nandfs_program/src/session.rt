// The volume of an image: made, mounted and ended.

use crate::fault::ToolFault;
use nand_image::{ImageNand, create_image, open_image};
use nand_model::{Geometry, MemNand, Nand};
use posix_calls::{Reply, Volume, format};
use std::alloc::Global;
use std::fs::OpenFile;
use std::io::{Read, Seek, Write};

/// The data bytes of a page, the pages of a block, the blocks, and of these the spare ones.
#[derive(Clone, Copy)]
pub struct ImageSizes {
    pub data: u32,
    pub pages: u32,
    pub blocks: u32,
    pub reserve: u32,
}

/// Mounts the volume on a device by all tags: an image may come from anywhere.
pub fn mount<N: Nand + Drop>(alloc: Global, device: N) -> Result<Volume<N>, ToolFault> {
    match Volume::mount_scanned(alloc, device) {
        Ok(volume) => Ok(volume),
        Err((_device, fault)) => Err(ToolFault::Mount(fault)),
    }
}

/// A new image in a file that is empty, with an empty volume, mounted.
pub(crate) fn new_volume<F: Read + Write + Seek + Drop>(
    alloc: Global,
    file: F,
    sizes: ImageSizes,
) -> Result<Volume<ImageNand<F>>, ToolFault> {
    let Ok(geometry) = Geometry::new(sizes.data, sizes.pages, sizes.blocks) else {
        return Err(ToolFault::BadGeometry);
    };
    let device = create_image(alloc, file, geometry)?;
    match format(alloc, device, sizes.reserve) {
        Ok(device) => mount(alloc, device),
        Err((_device, fault)) => Err(ToolFault::Format(fault)),
    }
}

/// The device of an image, to be read alone: the file is read and let go.
pub fn device_to_read<F: Read + Drop>(alloc: Global, file: F) -> Result<MemNand, ToolFault> {
    let device = open_image(alloc, file)?;
    Ok(device.into_memory())
}

/// The volume of an image, to be read alone: the file is read and let go.
pub fn volume_to_read<F: Read + Drop>(
    alloc: Global,
    file: F,
) -> Result<Volume<MemNand>, ToolFault> {
    let device = device_to_read(alloc, file)?;
    mount(alloc, device)
}

/// The volume of an image, to be changed: each change is written through to the file.
pub fn volume_to_change<F: Read + Write + Seek + Drop>(
    alloc: Global,
    file: F,
) -> Result<Volume<ImageNand<F>>, ToolFault> {
    let device = open_image(alloc, file)?;
    mount(alloc, device)
}

/// Unmounts the volume of an image, and waits until the file is on the disk.
pub fn end_image<F: Read + Write + Seek + OpenFile + Drop>(
    volume: Volume<ImageNand<F>>,
) -> Result<(), ToolFault> {
    let (device, reply) = volume.unmount();
    match reply {
        Reply::Done => {
            device.into_file().sync_all()?;
            Ok(())
        }
        _ => Err(ToolFault::Unmount),
    }
}
