// Room for the move of a block's committed pages.
ghost use Rattle.std.specs.Prelude.{◌≡◌, ◌≤◌, ℕ, length, map, vec_capacity, IfOk};
ghost use Rattle.nand_model.specs.declared.geometry.Geometry.{Geometry};
ghost use Rattle.chunk_index.specs.Maps.{count_committed_in, committed_pages};
ghost use Rattle.flash_log.specs.Lists.{ListsCommitted};
ghost use Rattle.flash_log.specs.SummaryMaking.{ListsEntries, entry_of_key};

use chunk_index::{
    CommittedKey, Index, the_list_of_a_block_is_whole, the_sorted_list_of_a_block_is_whole,
};
use nand_model::Geometry;
use page_tags::CheckEntry;
use std::alloc::{AllocError, Global};

/// Room for the move of a block's committed pages: for the lists of them, and for one page. It is made once, so that no move
/// takes memory.
#[derive(Drop)]
pub struct MoveRoom {
    /// The pages of the open block, as far as they were noted; and then those of a summary.
    pub(crate) entries: Vec<CheckEntry>,
    /// The committed pages of a block, to be copied.
    pub(crate) copies: Vec<CommittedKey>,
    /// One page, by way of which groups are written.
    pub scratch: Vec<u8>,
}

impl MoveRoom {
    ghost use Rattle.flash_log.specs.Room.{IsRoomFor, SameRoom};

    /// Room for the blocks of a device of these sizes.
    pub fn new(alloc: Global, geometry: Geometry) -> Result<MoveRoom, AllocError>
        ensures { IfOk result (IsRoomFor geometry) }
    {
        let pages = geometry.pages() as usize;
        Ok(MoveRoom {
            entries: Vec::with_capacity(alloc, pages)?,
            copies: Vec::with_capacity(alloc, pages)?,
            scratch: vec![in alloc; 0; geometry.bytes() as usize]?,
        })
    }

    /// Lists the pages that are committed in a block, for their copy.
    pub(crate) fn list(&mut self, index: &Index, block: u32)
        requires { count_committed_in index.now block ≤ vec_capacity self.old.copies }
        ensures lists { ListsCommitted block (committed_pages index.now) self.new.copies.items }
        ensures count { length self.new.copies.items ≡ count_committed_in index.now block }
        ensures same { SameRoom self.old self.new }
    {
        the_list_of_a_block_is_whole();
        self.copies.clear();
        index.committed_in_block(block, &mut self.copies);
    }

    /// Lists the pages that are committed in a block, so many of them, as entries of a summary: those that were noted, where these are
    /// all, and else by a pass over the index.
    pub(crate) fn list_entries(&mut self, index: &Index, block: u32, count: u32)
        requires totaled { count ≡ count_committed_in index.now block }
        requires copies { count_committed_in index.now block ≤ vec_capacity self.old.copies }
        requires entries { count_committed_in index.now block ≤ vec_capacity self.old.entries }
        ensures lists { ListsEntries block (committed_pages index.now) self.new.entries.items }
        ensures count { length self.new.entries.items ≡ count_committed_in index.now block }
        ensures same { SameRoom self.old self.new }
    {
        if self.keep_noted(index, block, count) {
            return;
        }
        the_sorted_list_of_a_block_is_whole();
        index.committed_by_page(block, &mut self.copies);
        enter_all(&self.copies, &mut self.entries);
    }
}

/// Lists entries of committed pages.
fn enter_all(keys: &[CommittedKey], entries: &mut Vec<CheckEntry>)
    requires { length keys.now ≤ vec_capacity entries.old }
    ensures entries { entries.new.items ≡ map entry_of_key keys.now }
    ensures capacity { vec_capacity entries.old ≤ vec_capacity entries.new }
{
    entries.clear();
    for listed in keys {
        let _ = entries.push(CheckEntry {
            object: listed.key.object,
            chunk: listed.key.chunk,
            version: listed.at.version,
            block: listed.at.block,
            page: listed.at.page,
        });
    }
}
