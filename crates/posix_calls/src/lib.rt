//! A volume on a NAND device: format, mount, commands and unmount; and the same commands over any store of pages.
#![tactic(auto)]

mod answering;
mod closing;
mod ending;
mod joining;
mod law;
mod mount;
mod page_volume;
mod volume;

pub use formatting::{FormatFault, format};
pub use law::a_device_given_back_is_as_honest;
pub use mounting::MountFault;
pub use page_volume::PageVolume;
pub use paged_objects::a_shown_tree_is_on_the_flash;
pub use posix_profile::{
    Access, Answers, Bytes, Command, Errno, FilePath, Info, Kind, NameList, OpenFlags, Reply,
    Request, SpaceInfo, Stamped, StampedRequest, Whence,
};
pub use volume::Volume;
