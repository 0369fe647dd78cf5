//! The reference, slow on purpose: the objects and names of the profile as maps and vectors (`state`), the same as a store of
//! objects, and a volume in memory over it, the sixteen commands by the specification with nothing for a caller to show. And a tree, read by
//! commands alone.
#![tactic(auto)]

mod answering;
mod asking;
mod building;
mod fault;
mod list;
mod objects;
mod reading;
pub mod state;
mod tree;
mod volume;

pub use asking::ask;
pub use fault::TreeFault;
pub use list::TreeList;
pub use objects::PlainObjects;
pub use posix_profile::Answers;
pub use reading::{Content, TreeEntry, TreeName, bytes_at, info_at, names_at};
pub use tree::PlainTree;
pub use volume::PlainVolume;
