// What is reported of a key.
use flash_tree::Key;

/// A place of a page on the flash.
#[derive(Clone, Copy, Debug, PartialEq, Eq)]
pub struct PagePlace {
    pub block: u32,
    pub page: u32,
}

/// Where the page of a key is committed on the flash, and the version that it has there.
#[derive(Clone, Copy, Debug, PartialEq, Eq)]
pub struct CommittedPage {
    pub block: u32,
    pub page: u32,
    pub version: u64,
}

/// A key with its committed page.
#[derive(Clone, Copy, Debug, PartialEq, Eq)]
pub struct CommittedKey {
    pub key: Key,
    pub at: CommittedPage,
}

/// What becomes present of a key.
#[derive(Clone, Copy, Debug, PartialEq, Eq)]
pub enum Form {
    /// The page of this number in the buffer.
    Buffered(u32),
    /// Nothing.
    Dropped,
}

/// The present page of a key.
#[derive(Clone, Copy, Debug, PartialEq, Eq)]
pub enum Present {
    Absent,
    OnFlash(CommittedPage),
    InBuffer(u32),
}

/// Where the pages of the buffer were written as one group: the page of number i at page `first + i` of the block, in the
/// version that is the group's number.
#[derive(Clone, Copy, Debug, PartialEq, Eq)]
pub struct WrittenGroup {
    pub block: u32,
    pub first: u32,
    pub number: u64,
}
