//! Where a path leads, over any store of objects.

mod parts;
mod walk;

pub use parts::{PathPart, PathPlace};
pub use walk::resolve;
