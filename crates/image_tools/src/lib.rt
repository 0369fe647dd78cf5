//! Trees of files in memory: made in a volume, read out of one, and named on a host. Over anything that answers commands.
#![tactic(auto)]

mod alike;
mod folder;
mod host;
mod law;
mod making;
mod names;
mod packing;
mod refusing;
mod unpacking;

pub use folder::{Folder, FolderEntry, Node};
pub use host::host_path;
pub use law::{one_host_name_has_one_name, one_tree_is_one_folder};
pub use making::make_file;
pub use names::host_name;
pub use packing::pack;
pub use plain_volume::TreeFault;
pub use posix_profile::Answers;
pub use refusing::{Refusal, RefusalCause, refusals};
pub use unpacking::unpack;
