//! The tree of a volume is gone through over pages that are found by their keys, as a mount does; what it costs, and the table of
//! its objects.
#![tactic(auto)]

mod broken;
mod directory;
mod fault;
mod file;
mod hashes;
mod head;
mod law;
mod object;
mod table_law;
mod table_making;
mod tree;
mod tree_names;
mod tree_objects;
mod units;
mod volume;
mod walking;

pub use broken::{Broken, Rule};
pub use fault::{RootFault, WalkFault};
pub use head::Head;
pub use law::the_headers_report_the_keys;
pub use object::{Visited, visit};
pub use table_law::{
    the_names_of_a_tree_are_those_of_its_objects, the_pages_of_a_tree_are_those_of_its_objects,
};
pub use table_making::table;
pub use tree::{NamedObject, Tree};
pub use units::charge;
pub use volume::{root, spare_of};
pub use walking::walk;
