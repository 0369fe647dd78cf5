//! The hashes of the names of each directory, with the numbers of their slots, in memory.
#![tactic(auto)]

mod hash;
mod index;
mod run;
mod set;
mod standing;

pub use hash::name_hash;
pub use index::NameIndex;
