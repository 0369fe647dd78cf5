//! The exerciser: sessions on a volume in memory, each cut at a random call of the device, and what a mount finds after each.
#![tactic(auto)]

mod cutting;
mod drawing;
mod fault;
mod finding;
mod keeping;
mod looking;
mod reporting;
mod seen;
mod sizes;

pub use cutting::cut;
pub use drawing::draw;
pub use fault::CutFault;
pub use finding::{Finding, mount_fault_name};
pub use keeping::committed;
pub use looking::compare;
pub use reporting::tell;
pub use seen::Seen;
