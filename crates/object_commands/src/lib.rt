//! The commands of the profile over any store of objects.
#![tactic(auto)]

mod answering;
mod naming;
mod opening;
mod rename;
mod reporting;
mod syncing;
mod volume;
mod writing;

pub use volume::Volume;
