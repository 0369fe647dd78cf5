//! What can still be read of a volume of which pages are lost: headers, names, bytes, which objects can be reached, and which no
//! directory names.
#![tactic(auto)]

mod fault;
mod header;
mod headers;
mod law;
mod listing;
mod looking;
mod opening;
mod orphans;
mod reaching;
mod reading;
mod reported;
mod salvage;

pub use fault::SalvageFault;
pub use law::{a_listing_has_the_slots_that_read, a_tree_is_salvaged_whole};
pub use reported::{Listing, LostPart, ObjectInfo, Part, SalvagedName};
pub use salvage::Salvage;
pub use surviving_pages::LostPlace;
