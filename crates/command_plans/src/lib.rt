//! What a command is planned from: the table of descriptors, where a path leads, what a store knows of an object and of
//! its room, and the plan itself.
#![tactic(auto)]

pub mod facts;
pub mod path;
pub mod place;
pub mod plan;
pub mod room;
pub mod stamp;
pub mod table;
