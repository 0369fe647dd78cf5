// The sizes of a volume.
ghost use Rattle.std.specs.Prelude.{◌≡◌, ◌≤◌, ◌+◌};
ghost use Rattle.volume_terms.specs.Sizes.{IsSizes, buffer_pages, capacity, most_file_bytes, most_written, greatest_length, page_slots};

use crate::numbers::{BUFFERS_IN_BLOCK, SLOT_BYTES};

/// The data bytes of a page, the pages of a block, the blocks, and of these the spare ones.
#[derive(Clone, Copy, Debug)]
pub struct VolumeSizes {
    page_bytes: u64,
    block_pages: u64,
    blocks: u64,
    spare_blocks: u64,
    ghost least_page: { 512 ≤ page_bytes },
    ghost greatest_page: { page_bytes ≤ 4096 },
    ghost least_block: { 32 ≤ block_pages },
    ghost greatest_block: { block_pages ≤ 256 },
    ghost few_blocks: { blocks ≤ 4096 },
    ghost spares: { spare_blocks + 4 ≤ blocks },
}

impl VolumeSizes {
    ghost use Rattle.volume_terms.specs.VolumeSizes.{sizes_of};

    pub fn new(page_bytes: u64, block_pages: u64, blocks: u64, spare_blocks: u64) -> VolumeSizes
        requires { IsSizes (record { page_bytes = page_bytes; block_pages = block_pages; blocks = blocks; spare_blocks = spare_blocks }) }
        ensures { sizes_of result ≡ record { page_bytes = page_bytes; block_pages = block_pages; blocks = blocks; spare_blocks = spare_blocks } }
    {
        VolumeSizes {
            page_bytes,
            block_pages,
            blocks,
            spare_blocks,
        }
    }

    /// The bytes of a page, which are a unit of the charge.
    pub fn page_bytes(&self) -> u64
        ensures { result ≡ (sizes_of self.now).page_bytes }
    {
        self.page_bytes
    }

    /// Entries of a directory in one page.
    pub fn page_slots(&self) -> u64
        ensures { result ≡ page_slots (sizes_of self.now) }
    {
        self.page_bytes / SLOT_BYTES as u64
    }

    /// Most pages of the buffer and of a committed group.
    fn buffer_pages(&self) -> u64
        ensures { result ≡ buffer_pages (sizes_of self.now) }
    {
        self.block_pages / u64::from(BUFFERS_IN_BLOCK)
    }

    /// Units that a state may cost.
    pub fn capacity(&self) -> u64
        ensures { result ≡ capacity (sizes_of self.now) }
    {
        (self.blocks - self.spare_blocks - 1) * (self.block_pages - self.buffer_pages())
    }

    /// Most bytes that one write writes.
    pub fn most_written(&self) -> u64
        ensures value { result ≡ most_written (sizes_of self.now) }
        ensures small { result ≤ 1048576 }
    {
        (self.buffer_pages() - 3) * self.page_bytes
    }

    /// Most bytes of a file.
    pub fn greatest_length(&self) -> u64
        ensures value { result ≡ greatest_length (sizes_of self.now) }
        ensures small { result ≤ 134217728 }
    {
        most_file_bytes(self.page_bytes)
    }
}

/// Most bytes of a file over pages of so many bytes.
pub fn most_file_bytes(page_bytes: u64) -> u64
    requires least { 32 ≤ page_bytes }
    requires most { page_bytes ≤ 4096 }
    ensures value { result ≡ most_file_bytes page_bytes }
    ensures small { result ≤ 134217728 }
{
    8 * (page_bytes - 32) * page_bytes
}
