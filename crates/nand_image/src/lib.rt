//! A NAND flash device in a file: the flash is in memory, and each change is written through to the file.
#![tactic(auto)]

mod creation;
mod device;
mod fault;
mod layout;
mod reading;
mod writing;

pub use creation::create_image;
pub use device::ImageNand;
pub use fault::ImageFault;
pub use reading::open_image;
pub use writing::WriteAt;
