//! The objects and names of the profile as maps and vectors, and how they change.

pub mod change;
pub mod charge;
pub mod links;
pub mod object;
pub mod prune;
pub mod same;
pub mod table;
