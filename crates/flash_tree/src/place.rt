// Keys and places, as programs have them.

use page_tags::Tag;

/// Which page of the store is meant: a chunk of an object. Chunk 0 is its header, the chunks from 1 up its content.
#[derive(Clone, Copy, Debug, PartialEq, Eq)]
pub struct Key {
    pub object: u64,
    pub chunk: u64,
}

/// A place of a page, with the tag that is there.
#[derive(Clone, Copy, Debug, PartialEq, Eq)]
pub struct Found {
    pub block: u32,
    pub page: u32,
    pub tag: Tag,
}

/// The numbers of tags, each 0 where there is none.
#[derive(Clone, Copy, Debug, PartialEq, Eq)]
pub struct TagNumbers {
    pub version: u64,
    pub group: u64,
    pub seq: u64,
}

/// A page of a key, as it is to be.
#[derive(Drop)]
pub struct FreshPage {
    pub key: Key,
    pub bytes: Vec<u8>,
}
