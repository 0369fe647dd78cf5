// Why there is no device in a file.
ghost use Rattle.std.specs.Prelude.{◌≡◌};
ghost use Rattle.nand_image.specs.declared.fault.ImageFault.TheVariants as faults;

use std::alloc::AllocError;
use thiserror::Error;

#[derive(Clone, Copy, Debug, PartialEq, Eq, Error)]
pub enum ImageFault {
    #[error("the image's file could not be read: check the disk, then try again")]
    Read,
    #[error("the image's file could not be written: check its permissions and the room on the disk")]
    Write,
    #[error("the file is shorter or longer than the image in it: take another copy of it")]
    Size,
    #[error("the file is not an image: give one that `format` made")]
    Magic,
    #[error("the image has sizes that no device has: take another copy of it")]
    BadGeometry,
    #[error("memory was refused: free some, then try again")]
    NoMemory,
}

impl From<AllocError> for ImageFault {
    ghost from_gives = { λ _ e. e ≡ faults.NoMemory };

    fn from(_error: AllocError) -> ImageFault {
        ImageFault::NoMemory
    }
}
