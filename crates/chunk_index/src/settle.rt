// What becomes of the entries once the buffer was written.
ghost use Rattle.std.specs.Prelude.{◌≡◌, ◌<◌, ◌≤◌, ◌+◌, ℕ, false, Some, IfSome, length, get_or};
ghost use Rattle.block_state.specs.TableOf.{table};
ghost use Rattle.flash_tree.specs.declared.place.Key.{Key};
ghost use Rattle.chunk_index.specs.Entries.{chunk, settled, same_of, Alters};
ghost use Rattle.chunk_index.specs.InPlace.{goes, goes_of, left, left_of};
ghost use Rattle.chunk_index.specs.Lists.{find_by, IsEndFor};
ghost use Rattle.chunk_index.specs.Shelves.{look, IsListed};
ghost use Rattle.chunk_index.specs.Counts.{RecountsEntries, RecountsObjects, Tallies};
ghost use Rattle.chunk_index.specs.Settled.{MaySettle, MaySettleEntry, MaySettleEntries, SettlesWhere, SettlesChunks, settled_entries, RecountsSettled, IsFrom, IsAny, IsListedIn, IsChunkIn, AreOfObject};
ghost use Rattle.chunk_index.specs.Noted.{IsNoted, IsCut};

use crate::change;
use crate::changes::ChangeList;
use crate::entry::State;
use crate::form::{CommittedPage, WrittenGroup};
use crate::object::ObjectEntries;
use crate::packed::PackedEntry;
use crate::shelf::Shelf;
use block_state::Blocks;
use flash_tree::Key;

impl PackedEntry {
    /// Settles the entry in its place, and counts the page that is committed then in place of the one that was. Returns whether it is to
    /// go: its page is counted no longer.
    fn settle(&mut self, group: WrittenGroup, blocks: &mut Blocks) -> bool
        requires may { MaySettleEntry group self.old (table blocks.old) }
        ensures entry { self.new ≡ left group self.old }
        ensures goes { result ≡ goes group self.old }
        ensures counts { RecountsSettled group (Some self.old) (table blocks.old) (table blocks.new) }
    {
        match self.state() {
            State::Same => false,
            State::Buffered(i) => {
                let page = CommittedPage {
                    block: group.block,
                    page: group.first + i,
                    version: group.number,
                };
                change::recount(self.committed(), Some(page), blocks);
                self.commit(Some(page));
                false
            }
            State::Dropped => {
                change::release(self.committed(), blocks);
                true
            }
            State::Vacant => {
                change::release(self.committed(), blocks);
                self.commit(None);
                false
            }
        }
    }
}

impl Shelf {
    /// Settles each key that is noted, among which is each whose present page is not the committed one. Others are not touched.
    pub fn settle(&mut self, changes: &ChangeList, group: WrittenGroup, blocks: &mut Blocks)
        requires may { MaySettle group self.old.objects (table blocks.old) }
        requires noted { (o c : ℕ) → same_of (look self.old.objects o c) ≡ false → ∥ IsNoted changes.now o c ∥₁ }
        ensures looks { (o c : ℕ) → look self.new.objects o c ≡ settled group (look self.old.objects o c) }
        ensures tallies { Tallies (table blocks.new) self.new.objects }
        ensures counts { RecountsObjects self.old.objects self.new.objects (table blocks.old) (table blocks.new) }
    {
        if changes.has_all {
            self.settle_all(group, blocks);
            return;
        }
        self.settle_keys(&changes.keys, group, blocks);
        self.settle_cuts(&changes.cuts, group, blocks);
    }

    /// Settles each key of a list. An object is looked up once for those of its keys that follow each other there.
    fn settle_keys(&mut self, keys: &[Key], group: WrittenGroup, blocks: &mut Blocks)
        requires { MaySettle group self.old.objects (table blocks.old) }
        ensures { SettlesWhere group (IsListed keys.now) self.old.objects self.new.objects (table blocks.old) (table blocks.new) }
    {
        let mut done = 0;
        while done < keys.len() {
            done = self.settle_run(keys, done, group, blocks);
        }
    }

    /// Settles the keys of one object that follow each other in a list from a place on, and drops the object where none of its entries is
    /// left. Returns the place behind them.
    fn settle_run(
        &mut self,
        keys: &[Key],
        from: usize,
        group: WrittenGroup,
        blocks: &mut Blocks,
    ) -> usize
        requires may { MaySettle group self.old.objects (table blocks.old) }
        requires from { from < length keys.now }
        ensures settles { SettlesWhere group (IsListedIn keys.now from result) self.old.objects self.new.objects (table blocks.old) (table blocks.new) }
        ensures end { (from < result) × (result ≤ length keys.now) }
    {
        let size = self.size;
        let end = self.settle_listed(keys, from, group, blocks);
        if self.size < size {
            self.drop_empty(keys[from].object);
        }
        end
    }

    /// Settles the keys of one object that follow each other in a list from a place on. Returns the place behind them.
    fn settle_listed(
        &mut self,
        keys: &[Key],
        from: usize,
        group: WrittenGroup,
        blocks: &mut Blocks,
    ) -> usize
        requires may { MaySettle group self.old.objects (table blocks.old) }
        requires from { from < length keys.now }
        ensures settles { SettlesWhere group (IsListedIn keys.now from result) self.old.objects self.new.objects (table blocks.old) (table blocks.new) }
        ensures end { (from < result) × (result ≤ length keys.now) }
    {
        let object = keys[from].object;
        match self.objects.get_mut(&object) {
            Some(entries) => {
                let before = entries.entries.len();
                let end = entries.settle_run(object, keys, from, group, blocks);
                self.size -= before - entries.entries.len();
                end
            }
            None => from + 1,
        }
    }

    /// Settles the keys of each object of a list, from a chunk on.
    fn settle_cuts(&mut self, cuts: &[Key], group: WrittenGroup, blocks: &mut Blocks)
        requires { MaySettle group self.old.objects (table blocks.old) }
        ensures { SettlesWhere group (IsCut cuts.now) self.old.objects self.new.objects (table blocks.old) (table blocks.new) }
    {
        for from in cuts {
            self.settle_from(*from, group, blocks);
        }
    }

    /// Settles all keys.
    fn settle_all(&mut self, group: WrittenGroup, blocks: &mut Blocks)
        requires { MaySettle group self.old.objects (table blocks.old) }
        ensures { SettlesWhere group IsAny self.old.objects self.new.objects (table blocks.old) (table blocks.new) }
    {
        let mut done = None;
        while let Some(object) = self.next_object(done) {
            let from = Key { object, chunk: 0 };
            self.settle_from(from, group, blocks);
            done = Some(object);
        }
    }

    /// Settles the keys of an object from a chunk on, and drops the object where none of its entries is left.
    fn settle_from(&mut self, from: Key, group: WrittenGroup, blocks: &mut Blocks)
        requires { MaySettle group self.old.objects (table blocks.old) }
        ensures { SettlesWhere group (IsFrom from) self.old.objects self.new.objects (table blocks.old) (table blocks.new) }
    {
        if self.settle_entries(from, group, blocks) > 0 {
            self.drop_empty(from.object);
        }
    }

    /// Settles the entries of an object from a chunk on. Returns how many go.
    fn settle_entries(&mut self, from: Key, group: WrittenGroup, blocks: &mut Blocks) -> usize
        requires { MaySettle group self.old.objects (table blocks.old) }
        ensures settles { SettlesWhere group (IsFrom from) self.old.objects self.new.objects (table blocks.old) (table blocks.new) }
        ensures gone { self.new.size + result ≡ self.old.size }
    {
        match self.objects.get_mut(&from.object) {
            Some(entries) => {
                let gone = entries.settle_from(from.chunk, group, blocks);
                self.size -= gone;
                gone
            }
            None => 0,
        }
    }
}

impl ObjectEntries {
    /// Settles the entry of a chunk in its place, if there is one, and counts its page. Returns whether it is to go.
    fn settle(&mut self, number: u64, group: WrittenGroup, blocks: &mut Blocks) -> bool
        requires may { IfSome (find_by chunk self.old.entries.items number) (λ e. MaySettleEntry group e (table blocks.old)) }
        ensures alters { Alters number (left_of group (find_by chunk self.old.entries.items number)) self.old.entries.items self.new.entries.items }
        ensures goes { result ≡ goes_of group (find_by chunk self.old.entries.items number) }
        ensures counts { RecountsSettled group (find_by chunk self.old.entries.items number) (table blocks.old) (table blocks.new) }
    {
        match self.search(number) {
            Ok(at) => self.entries[at].settle(group, blocks),
            Err(_) => false,
        }
    }

    /// Settles the entry of a chunk, if there is one, and counts its page.
    fn settle_chunk(&mut self, number: u64, group: WrittenGroup, blocks: &mut Blocks)
        requires may { IfSome (find_by chunk self.old.entries.items number) (λ e. MaySettleEntry group e (table blocks.old)) }
        ensures alters { Alters number (settled group (find_by chunk self.old.entries.items number)) self.old.entries.items self.new.entries.items }
        ensures counts { RecountsSettled group (find_by chunk self.old.entries.items number) (table blocks.old) (table blocks.new) }
    {
        if self.settle(number, group, blocks) {
            self.remove(number);
        }
    }

    /// Settles the keys of this object that follow each other in a list from a place on, and counts their pages. Returns the place behind
    /// them.
    fn settle_run(
        &mut self,
        object: u64,
        keys: &[Key],
        from: usize,
        group: WrittenGroup,
        blocks: &mut Blocks,
    ) -> usize
        requires may { MaySettleEntries group self.old.entries.items (table blocks.old) }
        requires from { from < length keys.now }
        requires object { (d : Key) → (get_or keys.now from d).object ≡ object }
        ensures settles { SettlesChunks group (IsChunkIn keys.now from result) self.old.entries.items self.new.entries.items (table blocks.old) (table blocks.new) }
        ensures object { AreOfObject keys.now from result object }
        ensures end { (from < result) × (result ≤ length keys.now) }
    {
        for at in from..keys.len() {
            if keys[at].object != object {
                return at;
            }
            self.settle_chunk(keys[at].chunk, group, blocks);
        }
        keys.len()
    }

    /// Settles the entries from a chunk on, and gives back the room of those that go. Returns how many go.
    fn settle_from(&mut self, from: u64, group: WrittenGroup, blocks: &mut Blocks) -> usize
        requires may { MaySettleEntries group self.old.entries.items (table blocks.old) }
        ensures items { self.new.entries.items ≡ settled_entries from group self.old.entries.items }
        ensures gone { length self.new.entries.items + result ≡ length self.old.entries.items }
        ensures counts { RecountsEntries self.old.entries.items self.new.entries.items (table blocks.old) (table blocks.new) }
    {
        let before = self.entries.len();
        let first = self.count_below(from);
        settle_behind(&mut self.entries, first, group, blocks);
        self.shrink();
        before - self.entries.len()
    }
}

/// Settles the entries from a place on. Those that stay keep their order, and are moved to the places of those that go.
fn settle_behind(
    entries: &mut Vec<PackedEntry>,
    first: usize,
    group: WrittenGroup,
    blocks: &mut Blocks,
)
    requires may { MaySettleEntries group entries.old.items (table blocks.old) }
    requires first { first ≤ length entries.old.items }
    ensures items { (n : ℕ) → IsEndFor chunk entries.old.items n first → entries.new.items ≡ settled_entries n group entries.old.items }
    ensures counts { RecountsEntries entries.old.items entries.new.items (table blocks.old) (table blocks.new) }
{
    let mut kept = first;
    for at in first..entries.len() {
        if !entries[at].settle(group, blocks) {
            if kept != at {
                entries.swap(kept, at);
            }
            kept += 1;
        }
    }
    entries.truncate(kept);
}
