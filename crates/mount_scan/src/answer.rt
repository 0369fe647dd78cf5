// What a scan returns.

use crate::FoundPages;
use flash_tree::{Found, TagNumbers};
use std::collections::BTreeMap;

/// What is on a flash.
#[derive(Drop)]
pub struct Scan {
    /// The pages that count, in the order of blocks and pages.
    pub valid_pages: Vec<Found>,
    /// The newest page of each key: of an object and a chunk.
    pub newest: BTreeMap<(u64, u64), Found>,
    /// The greatest numbers of all valid tags of good blocks, of pages that count and of those that don't.
    pub numbers: TagNumbers,
}

/// What a mount needs of it.
#[derive(Drop)]
pub struct NewestScan {
    /// The newest page of each key whose chunk a tree may look up.
    pub newest: FoundPages,
    /// The greatest numbers of all valid tags of good blocks, of pages that count and of those that don't.
    pub numbers: TagNumbers,
}
