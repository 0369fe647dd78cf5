// A new image, made beside the one that it replaces.

use crate::fault::ToolFault;
use crate::progress::{Meter, Metered};
use crate::session::{ImageSizes, end_image, new_volume};
use image_tools::{Folder, pack};
use std::alloc::{AllocError, Global};
use std::fs::{self, OpenFile, OpenOptions, Permissions};
use std::io::ErrorKind;
use std::rt::Files;

/// What is added to the path of an image for the file that it is made in.
const BESIDE: &str = ".nandfs-new";

/// The path of the file that an image is made in.
fn path_beside(alloc: Global, image: &str) -> Result<String, AllocError> {
    let mut path = String::from_str(alloc, image)?;
    path.push_str(BESIDE)?;
    Ok(path)
}

/// The permissions of an image that is there. What is there and is no file is not replaced.
fn permissions_of<R: Files>(rt: &R, image: &str) -> Result<Option<Permissions>, ToolFault> {
    match fs::symlink_metadata(rt, image) {
        Ok(metadata) if metadata.is_file() => Ok(Some(metadata.permissions())),
        Ok(_) => Err(ToolFault::NoFile),
        Err(error) if error.kind() == ErrorKind::NotFound => Ok(None),
        Err(_) => Err(ToolFault::Host),
    }
}

/// Makes a file that is not there.
fn open_new<R: Files>(rt: &R, path: &str) -> Result<R::File, ToolFault> {
    let mut options = OpenOptions::new();
    options.read(true).write(true).create_new(true);
    match options.open(rt, path) {
        Ok(file) => Ok(file),
        Err(error) if error.kind() == ErrorKind::AlreadyExists => Err(ToolFault::Beside),
        Err(_) => Err(ToolFault::Host),
    }
}

/// Makes an image in an empty file, with the files of a folder or none, and waits until it is on the disk.
fn fill_image<R: Files + AllocGlobal + Eprint>(
    rt: &R,
    file: R::File,
    sizes: ImageSizes,
    folder: Option<&Folder>,
    meter: &mut Meter,
) -> Result<(), ToolFault> {
    let volume = new_volume(rt.alloc(), file, sizes)?;
    let Some(folder) = folder else {
        return end_image(volume);
    };
    let mut metered = Metered::new(rt, *meter, volume);
    pack(rt.alloc(), folder, &mut metered)?;
    *meter = metered.meter;
    end_image(metered.volume)
}

/// Gives a file these permissions, if there are any.
fn permit<F: OpenFile + Drop>(file: F, permissions: Option<Permissions>) -> Result<F, ToolFault> {
    if let Some(permissions) = permissions {
        file.set_permissions(permissions)?;
    }
    Ok(file)
}

/// Gives a file of the host another path, and replaces what has it.
fn rename<R: Files>(rt: &R, old: &str, new: &str) -> Result<(), ToolFault> {
    fs::rename(rt, old, new)?;
    Ok(())
}

/// Makes an image with the files of a folder, or with none, which replaces a file that is there and has its permissions. It is
/// made in a file beside it, whose path is that of the image and `.nandfs-new`, and which gets the path of the image when all is on
/// the disk. A fault leaves what had the path, and no file beside it. `Beside` where there is a file beside it before, `NoFile`
/// where a folder, a link or a device has the path.
pub fn make_image<R: Files + AllocGlobal + Eprint>(
    rt: &R,
    image: &str,
    sizes: ImageSizes,
    folder: Option<&Folder>,
    meter: &mut Meter,
) -> Result<(), ToolFault> {
    let permissions = permissions_of(rt, image)?;
    let beside = path_beside(rt.alloc(), image)?;
    let file = open_new(rt, beside.as_str())?;
    let filled = match permit(file, permissions) {
        Ok(file) => fill_image(rt, file, sizes, folder, meter),
        Err(fault) => Err(fault),
    };
    let made = match filled {
        Ok(()) => rename(rt, beside.as_str(), image),
        Err(fault) => Err(fault),
    };
    if made.is_err() {
        let _ = fs::remove_file(rt, beside.as_str());
    }
    made
}
