//! A map from names to numbers: the entries of a directory, in the order of the names' bytes.
#![tactic(auto)]

mod map;

pub use map::NameMap;
