//! The formatting of a device as a volume.
#![tactic(auto)]

mod clear;
mod fault;
mod formatting;
mod root;

pub use fault::FormatFault;
pub use formatting::format;
