// The keys that stay, and the end of all others.
ghost use Rattle.std.specs.Prelude.{◌≡◌, ◌<◌, ◌≤◌, ◌+◌, ℕ, length, get_or, IfSome};
ghost use Rattle.block_state.specs.TableOf.{table};
ghost use Rattle.chunk_index.specs.Entries.{chunk, committed_of, one_at, counted_at, weigh, IsSmall};
ghost use Rattle.chunk_index.specs.declared.entry.KeyEntry.{KeyEntry};
ghost use Rattle.chunk_index.specs.Shelves.{look, IsNextObject};
ghost use Rattle.chunk_index.specs.Counts.{Recounts, RecountsEntries, RecountsObjects, HasCounted, Tallies};
ghost use Rattle.chunk_index.specs.Retained.{retained, retained_reported, retained_of, RetainsObject};
ghost use Rattle.chunk_index.specs.Maps.{count_committed_in, CountsAgree, Retains};

use crate::change;
use crate::entry::{KeyEntry, State};
use crate::filter::KeyFilter;
use crate::index::Index;
use crate::object::ObjectEntries;
use crate::packed::PackedEntry;
use crate::shelf::Shelf;
use block_state::Blocks;
use flash_tree::Key;

impl Index {
    /// Forgets all keys but those that a filter keeps: they are neither committed nor present any more. It takes no memory,
    /// asks of each key once, and goes over the index once.
    pub fn retain<F: KeyFilter>(&mut self, filter: &F, blocks: &mut Blocks)
        requires agree { CountsAgree (table blocks.old) self.old }
        ensures retains { Retains (F.keeps filter.now) self.old self.new }
        ensures agree { CountsAgree (table blocks.new) self.new }
        ensures counts { Recounts (count_committed_in self.old) (count_committed_in self.new) (table blocks.old) (table blocks.new) }
    {
        self.shelf.retain(filter, blocks);
    }
}

impl Shelf {
    /// Keeps of each object the entries that a filter keeps. A key whose present page was not the committed one may have an
    /// entry still, which holds nothing.
    fn retain<F: KeyFilter>(&mut self, filter: &F, blocks: &mut Blocks)
        requires tallies { Tallies (table blocks.old) self.old.objects }
        ensures looks { (o c : ℕ) → look self.new.objects o c ≡ retained_reported (F.keeps filter.now o c) (look self.old.objects o c) }
        ensures tallies { Tallies (table blocks.new) self.new.objects }
        ensures counts { RecountsObjects self.old.objects self.new.objects (table blocks.old) (table blocks.new) }
    {
        let mut done = None;
        while let Some(object) = self.next_object(done) {
            self.retain_object(object, filter, blocks);
            done = Some(object);
        }
    }

    /// Keeps of one object the entries that a filter keeps, and the object where one is left.
    fn retain_object<F: KeyFilter>(&mut self, object: u64, filter: &F, blocks: &mut Blocks)
        requires tallies { Tallies (table blocks.old) self.old.objects }
        ensures retains { RetainsObject object (F.keeps filter.now object) self.old.objects self.new.objects }
        ensures tallies { Tallies (table blocks.new) self.new.objects }
        ensures counts { RecountsObjects self.old.objects self.new.objects (table blocks.old) (table blocks.new) }
    {
        self.retain_entries(object, filter, blocks);
        self.drop_empty(object);
    }

    /// Keeps of one object the entries that a filter keeps.
    fn retain_entries<F: KeyFilter>(&mut self, object: u64, filter: &F, blocks: &mut Blocks)
        requires tallies { Tallies (table blocks.old) self.old.objects }
        ensures retains { RetainsObject object (F.keeps filter.now object) self.old.objects self.new.objects }
        ensures tallies { Tallies (table blocks.new) self.new.objects }
        ensures counts { RecountsObjects self.old.objects self.new.objects (table blocks.old) (table blocks.new) }
    {
        match self.objects.get_mut(&object) {
            Some(entries) => {
                let gone = entries.retain(object, filter, blocks);
                self.size -= gone;
            }
            None => {}
        }
    }
}

impl ObjectEntries {
    /// Keeps the entries of this object that a filter keeps, and returns how many went. Where all stay, none is looked at.
    fn retain<F: KeyFilter>(&mut self, object: u64, filter: &F, blocks: &mut Blocks) -> usize
        requires totaled { HasCounted (table blocks.old) (λ b. weigh (counted_at b) self.old.entries.items) }
        ensures items { self.new.entries.items ≡ retained_of (F.keeps filter.now object) self.old.entries.items }
        ensures gone { length self.new.entries.items + result ≡ length self.old.entries.items }
        ensures counts { RecountsEntries self.old.entries.items self.new.entries.items (table blocks.old) (table blocks.new) }
    {
        if filter.keeps_all_below(object, self.end()) {
            return 0;
        }
        let before = self.entries.len();
        gather(&mut self.entries, object, filter, blocks);
        before - self.entries.len()
    }

    /// The first chunk behind those of all entries.
    fn end(&self) -> u64
        ensures { (i : ℕ) (d : KeyEntry) → i < length self.now.entries.items → chunk (get_or self.now.entries.items i d) < result }
    {
        match self.entries.last() {
            Some(entry) => entry.chunk() + 1,
            None => 0,
        }
    }
}

/// Keeps the entries of an object that a filter keeps, in their order, and counts the pages of all others no longer.
fn gather<F: KeyFilter>(
    entries: &mut Vec<PackedEntry>,
    object: u64,
    filter: &F,
    blocks: &mut Blocks,
)
    requires totaled { HasCounted (table blocks.old) (λ b. weigh (counted_at b) entries.old.items) }
    ensures items { entries.new.items ≡ retained_of (F.keeps filter.now object) entries.old.items }
    ensures counts { RecountsEntries entries.old.items entries.new.items (table blocks.old) (table blocks.new) }
{
    let mut committed = 0;
    for at in 0..entries.len() {
        let entry = entries[at].unpack();
        let chunk = entry.chunk;
        let stays = filter.keeps(Key { object, chunk });
        if let Some(left) = entry.retained(stays, blocks) {
            entries[committed] = PackedEntry::pack(left);
            committed += 1;
        }
    }
    entries.truncate(committed);
}

impl KeyEntry {
    /// What is left of the entry, whose key stays or is forgotten. One whose present page is not the committed one stays until the changes
    /// are settled, and holds nothing.
    fn retained(self, stays: bool, blocks: &mut Blocks) -> Option<KeyEntry>
        requires totaled { HasCounted (table blocks.old) (one_at self.committed) }
        requires small { IsSmall self }
        ensures result { result ≡ retained stays self }
        ensures small { IfSome result IsSmall }
        ensures counts { Recounts (one_at self.committed) (one_at (committed_of result)) (table blocks.old) (table blocks.new) }
    {
        if stays {
            return Some(self);
        }
        change::release(self.committed, blocks);
        if self.is_same() {
            return None;
        }
        Some(KeyEntry {
            chunk: self.chunk,
            committed: None,
            state: State::Dropped,
        })
    }
}
