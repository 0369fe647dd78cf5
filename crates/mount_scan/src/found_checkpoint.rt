// What a search for a checkpoint finds.

use crate::first_page::FirstPages;
use page_tags::CheckEntry;

/// A whole checkpoint.
#[derive(Drop)]
pub struct FoundCheckpoint {
    /// The block that it lies in, from its page 0 on.
    pub block: u32,
    /// How many pages it takes.
    pub size: u32,
    /// The number of its group, which is the version of its pages too.
    pub number: u64,
    /// The number that its block got when it was taken.
    pub seq: u64,
    /// A key each with its committed page, in the order of objects and chunks.
    pub entries: Vec<CheckEntry>,
}

/// What was found.
#[derive(Drop)]
pub struct CheckpointSearch {
    /// The first pages of all blocks.
    pub firsts: FirstPages,
    /// The checkpoint, if one is whole.
    pub checkpoint: Option<FoundCheckpoint>,
}
