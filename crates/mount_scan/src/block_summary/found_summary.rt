// What is found in a block that begins with a summary.

use page_tags::{CheckEntry, SummaryHead};

/// A whole summary.
#[derive(Drop)]
pub struct FoundSummary {
    /// The block that it lies in, from its page 0 on.
    pub block: u32,
    /// How many pages it takes.
    pub size: u32,
    /// The number of its group, which is the version of its pages too.
    pub number: u64,
    /// The number that its block got when it was allocated.
    pub seq: u64,
    /// The block that is summarized, the number of entries, and the number that that block got when it was allocated.
    pub head: SummaryHead,
    /// The valid pages that are listed, by their places in that block.
    pub entries: Vec<CheckEntry>,
}
