//! The mount of a device: its newest pages, the tree that they show, and whether a volume can go on with it; and what a mount
//! answers, read off a map of newest pages.
#![tactic(auto)]

mod bounded;
mod candidates;
mod entries;
mod fault;
mod going;
mod going_on;
mod keys;
mod law;
mod making;
mod marks;
mod mounted;
mod naming;
mod opening;
mod prune;
mod reader;
mod reading;
mod reasons;
mod scanned;
mod scanning;
mod summarized;
mod tagged;
mod tree;
mod tree_on;

pub use fault::MountFault;
pub use law::{
    a_map_of_the_newest_pages_answers, a_shown_tree_has_room_or_not, a_volume_has_sizes,
    a_whole_list_shows_a_tree, the_footprint_holds_the_tree, the_tree_looks_up_its_footprint,
    what_the_tree_looks_up_is_committed,
};
pub use mounted::Mounted;
pub use naming::unmounted;
pub use opening::{mount, mount_scanned};
pub use reasons::first_fault;
