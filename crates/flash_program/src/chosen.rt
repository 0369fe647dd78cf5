// What the program may do.

/// What the program is to do.
#[derive(Debug, Drop)]
pub enum Chosen {
    /// A shell over a new volume in memory, which is gone at the end.
    Memory,
    /// A new volume in an image file: `size` bytes in a page, `pages` pages in a block, `blocks` blocks, of which
    /// `spare` are spare.
    Format {
        image: String,
        size: u32,
        pages: u32,
        blocks: u32,
        spare: u32,
    },
    /// A shell over the volume in an image file.
    Run {
        image: String,
    },
    /// The space of the volume in an image file, which is not changed.
    Check {
        image: String,
    },
    /// Sessions on a copy of an image, each cut at a random place by the seed.
    Cut {
        image: String,
        seed: u64,
        sessions: u32,
    },
}
