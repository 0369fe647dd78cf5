//! The pages that a store has now, as the layers above it see them: no device, no block and no group.
#![tactic(auto)]

mod change;
mod fault;
mod frames;
mod law;
mod loading;
mod memory;
mod page_store;
mod power;
mod store;

pub use change::{Change, Cut, are_sized};
pub use fault::PageFault;
pub use frames::{blank_page, copied_page, filled_page, spare_page};
pub use law::{
    changes_of_two_objects_commute, no_change_keeps_all_pages, other_objects_keep_their_pages,
};
pub use loading::load;
pub use memory::{Lack, MemPages, Refusal};
pub use page_store::PageStore;
pub use power::has_power;
pub use store::{Pages, Presence};
