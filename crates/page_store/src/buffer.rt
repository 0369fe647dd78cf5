// The buffer.
ghost use Rattle.std.specs.Prelude.{◌≡◌, ◌≤◌, ◌<◌, ◌+◌, ◌++◌, length, vec_capacity, [], IfOk, is_some, option_to_list, false};
ghost use Rattle.block_state.specs.TableOf.{table};
ghost use Rattle.chunk_index.specs.Maps.{CountsAgree, Settles, count_committed_in};
ghost use Rattle.chunk_index.specs.Counts.{Recounts};
ghost use Rattle.pages.specs.Changes.{AreSized};
ghost use Rattle.page_store.specs.Buffering.{Buffers, IsUnbuffered};

use block_state::Blocks;
use chunk_index::{Index, WrittenGroup};
use flash_tree::FreshPage;
use std::alloc::{AllocError, Global};
use std::mem;

/// Pages that are present and not written yet, each of a key of its own. The index reports which key has which.
#[derive(Drop)]
pub struct Buffer {
    pub(crate) pages: Vec<FreshPage>,
    // Pages that were written last, until they are taken or more are written.
    written: Vec<FreshPage>,
    most: u32,
    page_bytes: u32,
    ghost small: { most ≤ 64 },
    ghost within_limit: { length pages.items ≤ most },
    ghost room: { most ≤ vec_capacity pages },
    ghost next_room: { most ≤ vec_capacity written },
    ghost sized: { AreSized pages.items page_bytes },
    ghost written_sized: { AreSized written.items page_bytes },
}

impl Buffer {
    ghost use Rattle.page_store.specs.BufferOf.{contents, last_written, most_pages, bytes_of_page, HasSettled};

    /// An empty buffer, with room for so many pages of so many bytes: at most a quarter of the pages of the largest block.
    pub fn new(alloc: Global, most: u32, page_bytes: u32) -> Result<Buffer, AllocError>
        requires { most ≤ 64 }
        ensures empty { IfOk result (λ it. contents it ≡ []) }
        ensures most { IfOk result (λ it. most_pages it ≡ most) }
        ensures bytes { IfOk result (λ it. bytes_of_page it ≡ page_bytes) }
    {
        Ok(Buffer {
            pages: Vec::with_capacity(alloc, most as usize)?,
            written: Vec::with_capacity(alloc, most as usize)?,
            most,
            page_bytes,
        })
    }

    /// How many pages it holds at most.
    pub fn most(&self) -> u32
        ensures { result ≡ most_pages self.now }
    {
        self.most
    }

    /// The pages, each at the place that the index has for its key.
    pub fn pages(&self) -> &[FreshPage]
        ensures { result.now ≡ contents self.now }
    {
        &self.pages
    }

    /// Settles all keys: the pages were written as this group. They are to be taken one by one then.
    pub fn settle(&mut self, index: &mut Index, group: WrittenGroup, blocks: &mut Blocks)
        requires buffers { Buffers index.old (contents self.old) }
        requires block { group.block < (table blocks.old).geometry.blocks }
        requires fits { group.first + length (contents self.old) ≤ (table blocks.old).geometry.pages }
        requires agree { CountsAgree (table blocks.old) index.old }
        ensures settles { Settles group index.old index.new }
        ensures agree { CountsAgree (table blocks.new) index.new }
        ensures counts { Recounts (count_committed_in index.old) (count_committed_in index.new) (table blocks.old) (table blocks.new) }
        ensures none { IsUnbuffered index.new }
        ensures moved { HasSettled self.old self.new }
        ensures sizes { (most_pages self.new ≡ most_pages self.old) × (bytes_of_page self.new ≡ bytes_of_page self.old) }
    {
        index.settle_group(group, blocks);
        self.written.clear();
        mem::swap(&mut self.pages, &mut self.written);
    }

    /// One of the pages that were written last, which leaves them.
    pub fn take_written(&mut self) -> Option<FreshPage>
        ensures written { last_written self.old ≡ last_written self.new ++ option_to_list result }
        ensures all { is_some result ≡ false → last_written self.new ≡ [] }
        ensures pages { contents self.new ≡ contents self.old }
        ensures sizes { (most_pages self.new ≡ most_pages self.old) × (bytes_of_page self.new ≡ bytes_of_page self.old) }
    {
        self.written.pop()
    }
}
