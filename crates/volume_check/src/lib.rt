//! Where a damaged volume is damaged: the first rule of a tree that a page breaks, with the object, the chunk and the place.
#![tactic(auto)]

mod device;
mod fault;
mod finding;
mod path;
mod root;
mod search;
mod verdict;

pub use device::diagnose;
pub use fault::CheckFault;
pub use finding::{Diagnosis, Finding, Place};
pub use tree_walk::{Broken, Rule};
pub use verdict::Verdict;
