// What is found of a device that lost pages.

use chunk_index::Index;

/// The place of a page that is lost.
#[derive(Clone, Copy, Debug, PartialEq, Eq)]
pub struct LostPlace {
    pub block: u32,
    pub page: u32,
}

/// The newest pages that survive, and the places of the pages that are lost, by block and then by page.
#[derive(Drop)]
pub struct Survivors {
    pub index: Index,
    pub lost: Vec<LostPlace>,
}
