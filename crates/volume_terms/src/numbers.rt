// The numbers that are the same for all volumes.

/// The number of the root directory.
pub const ROOT: u64 = 1;

/// Numbers of groups and of a block's openings are handed out below this one.
pub const NUMBER_END: u64 = 1 << 62;

/// Full buffers that fill a block: a store's buffer, and a group that it commits, has at most this part of a block's pages.
pub const BUFFERS_IN_BLOCK: u32 = 4;

/// Bytes of an entry of a directory in its page.
pub const SLOT_BYTES: usize = 272;

/// Most bytes of a name.
pub const NAME_LIMIT: usize = 255;

/// Most bytes of a path.
pub const PATH_LIMIT: usize = 4095;

/// How many descriptors there are, from 0 up.
pub const DESCRIPTORS: u32 = 64;
