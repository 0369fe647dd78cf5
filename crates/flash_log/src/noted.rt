// The pages that were written into the open block, as far as they were noted: so a summary of it is made without a pass over the index.
ghost use Rattle.std.specs.Prelude.{◌≡◌, ◌↔◌, ◌<◌, ◌≤◌, ◌+◌, ℕ, IsTrue, length, vec_capacity};
ghost use Rattle.chunk_index.specs.Maps.{count_committed_in, committed_pages};
ghost use Rattle.flash_log.specs.Noted.{AreRising, IsCommittedIn, LiesBehind};
ghost use Rattle.flash_log.specs.SummaryMaking.{ListsEntries};

use crate::room::MoveRoom;
use block_state::Blocks;
use chunk_index::{Index, a_list_as_long_as_the_count_is_whole};
use flash_tree::{FreshPage, Key};
use page_tags::CheckEntry;

/// Whether the page of an entry is committed in a block, by the index.
fn is_committed(index: &Index, block: u32, entry: &CheckEntry) -> bool
    ensures { IsTrue result ↔ IsCommittedIn block (committed_pages index.now) entry.now }
{
    let key = Key {
        object: entry.object,
        chunk: entry.chunk,
    };
    match index.committed(key) {
        Some(at) => {
            entry.block == block
                && at.block == block
                && at.page == entry.page
                && at.version == entry.version
        }
        None => false,
    }
}

/// Whether a page lies behind those of the first entries, of which the last lies behind all others.
fn lies_behind(entries: &[CheckEntry], committed: usize, page: u32) -> bool
    requires { committed ≤ length entries.now }
    ensures { IsTrue result ↔ LiesBehind entries.now committed page }
{
    if committed == 0 {
        return true;
    }
    entries[committed - 1].page < page
}

/// Moves an entry behind the first ones, so many as are committed, if its page is committed in the block and lies behind theirs, and returns
/// how many are committed then.
fn keep_entry(
    index: &Index,
    block: u32,
    entries: &mut Vec<CheckEntry>,
    at: usize,
    committed: usize,
) -> usize
    requires at { at < length entries.old.items }
    requires committed { committed ≤ at }
    ensures most { result ≤ at + 1 }
    ensures len { length entries.new.items ≡ length entries.old.items }
    ensures capacity { vec_capacity entries.old ≤ vec_capacity entries.new }
    ensures rising { AreRising block (committed_pages index.now) entries.old.items committed → AreRising block (committed_pages index.now) entries.new.items result }
{
    let entry = entries[at];
    if is_committed(index, block, &entry) && lies_behind(entries, committed, entry.page) {
        entries[committed] = entry;
        return committed + 1;
    }
    committed
}

/// Keeps of entries in the order of their pages those whose page is committed in a block.
fn keep_committed(index: &Index, block: u32, entries: &mut Vec<CheckEntry>)
    ensures rising { AreRising block (committed_pages index.now) entries.new.items (length entries.new.items) }
    ensures capacity { vec_capacity entries.old ≤ vec_capacity entries.new }
{
    let mut committed = 0;
    for at in 0..entries.len() {
        committed = keep_entry(index, block, entries, at, committed);
    }
    entries.truncate(committed);
}

impl MoveRoom {
    ghost use Rattle.flash_log.specs.Room.{SameRoom};

    /// Notes a page that is about to be written into a block. The pages that were noted of another block are forgotten; and where there is
    /// no room the page is not noted.
    fn note(&mut self, entry: CheckEntry)
        ensures copies { self.new.copies ≡ self.old.copies }
        ensures same { SameRoom self.old self.new }
    {
        if let Some(first) = self.entries.first() {
            if first.block != entry.block {
                self.entries.clear();
            }
        }
        if self.entries.len() < self.entries.capacity() {
            let _ = self.entries.push(entry);
        }
    }

    /// Notes pages that are about to be written as the next group.
    pub fn note_pages(&mut self, blocks: &Blocks, pages: &[FreshPage])
        ensures same { SameRoom self.old self.new }
    {
        let Some(block) = blocks.open_block() else {
            return;
        };
        let mut page = blocks.geometry().pages().saturating_sub(blocks.open_room());
        let version = blocks.next_group();
        for fresh in pages {
            self.note(CheckEntry {
                object: fresh.key.object,
                chunk: fresh.key.chunk,
                version,
                block,
                page,
            });
            page = page.saturating_add(1);
        }
    }

    /// Notes the copies that are about to be written as the next group.
    pub(crate) fn note_copies(&mut self, blocks: &Blocks)
        ensures copies { self.new.copies ≡ self.old.copies }
        ensures same { SameRoom self.old self.new }
    {
        let Some(block) = blocks.open_block() else {
            return;
        };
        let mut page = blocks.geometry().pages().saturating_sub(blocks.open_room());
        for i in 0..self.copies.len() {
            let copied = self.copies[i];
            self.note(CheckEntry {
                object: copied.key.object,
                chunk: copied.key.chunk,
                version: copied.at.version,
                block,
                page,
            });
            page = page.saturating_add(1);
        }
    }

    /// Keeps the pages that were noted and are committed in a block as entries of a summary, and returns whether these are all that are: so
    /// many are committed there.
    pub(crate) fn keep_noted(&mut self, index: &Index, block: u32, count: u32) -> bool
        requires { count ≡ count_committed_in index.now block }
        ensures lists { IsTrue result → ListsEntries block (committed_pages index.now) self.new.entries.items }
        ensures all { IsTrue result → length self.new.entries.items ≡ count_committed_in index.now block }
        ensures same { SameRoom self.old self.new }
    {
        a_list_as_long_as_the_count_is_whole();
        keep_committed(index, block, &mut self.entries);
        self.entries.len() == count as usize
    }
}
