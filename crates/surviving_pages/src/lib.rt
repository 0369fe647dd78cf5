//! The pages of a device that survive where others were lost: those of completed groups, the newest of each key, as an index; and the
//! places of the pages that are lost.
#![tactic(auto)]

mod block;
mod law;
mod lost;
mod opening;
mod scan;
mod survivors;

pub use law::{the_surviving_pages_have_data, where_nothing_is_lost_the_newest_pages_survive};
pub use opening::open_surviving;
pub use survivors::{LostPlace, Survivors};
