//! Reads a block summary off a device: the list of the valid pages of another block, which a block may begin with.

mod contents;
mod entries;
mod fault;
mod found_summary;
mod pages;
mod reading;

pub use fault::SummaryFault;
pub use found_summary::FoundSummary;
pub use pages::SUMMARY_CHUNK;
pub use reading::read_summary;
