//! What a mount reads of tags: which pages are valid, which of them is the newest of its key, and the greatest numbers, by all tags
//! or by the summaries of blocks; or the whole checkpoint.
#![tactic(auto)]

mod answer;
mod block;
mod block_summary;
mod bucket;
mod checkpoint_block;
mod checkpoint_candidate;
mod checkpoint_page;
mod checkpoint_part;
mod checkpoint_search;
mod fault;
mod first_page;
mod found_checkpoint;
mod found_pages;
mod group;
mod keeping;
mod law;
mod newest;
mod page_copy;
mod raise;
mod summary_pages;
mod summary_scan;
mod whole;
mod written;

pub use answer::{NewestScan, Scan};
pub use block_summary::{FoundSummary, SUMMARY_CHUNK, SummaryFault, read_summary};
pub use bucket::Bucket;
pub use checkpoint_search::find_checkpoint;
pub use fault::ScanFault;
pub use first_page::{FirstPage, FirstPages};
pub use found_checkpoint::{CheckpointSearch, FoundCheckpoint};
pub use found_pages::{BUCKETS, FoundPages};
pub use law::{a_found_page_has_the_newest_data, a_page_is_found_for_each_key, each_key_is_once};
pub use page_copy::PageCopy;
pub use summary_scan::scan_summaries;
pub use whole::{scan, scan_newest};
