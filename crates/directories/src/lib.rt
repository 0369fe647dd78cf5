//! Directories as maps from names, over pages that are found by their keys.
#![tactic(auto)]

mod addition;
mod finding;
mod head;
mod leaving;
mod listing;
mod lookup;
mod moving;
mod naming;
mod page;
mod removal;
mod renaming;
mod seeking;
mod taking;
mod writing;

pub use addition::add;
pub use finding::find;
pub use head::{DirectoryHead, head_page, read_head};
pub use leaving::{LeftSlot, left_slot};
pub use listing::{entries, names};
pub use lookup::find_in_slot;
pub use naming::{KeptSlots, hash_change};
pub use renaming::{Route, rename_between, rename_within};
pub use taking::remove;
