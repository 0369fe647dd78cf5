//! Objects over pages: look-ups, and each change of objects as one change of pages; and a store of objects over pages, with the
//! table that reports on them and the index of their names.
#![tactic(auto)]

mod changing;
mod content;
mod creation;
mod dropping;
mod fault;
mod hashing;
mod law;
mod moving;
mod naming;
mod page_law;
mod planning;
mod reading;
mod removal;
mod store;

pub use content::{resize, write};
pub use hashing::hash_names;
pub use law::a_shown_tree_is_on_the_flash;
pub use moving::move_name;
pub use naming::{create, name};
pub use page_law::{
    a_cut_object_is_held_no_more, each_page_is_charged, held_objects_are_a_volume,
    held_objects_are_shown,
};
pub use planning::plan;
pub use reading::{find, names, read_into};
pub use removal::{forget, remove};
pub use store::PagedObjects;
