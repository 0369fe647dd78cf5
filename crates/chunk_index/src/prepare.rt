// Room for present pages that are to come.
ghost use Rattle.std.specs.Prelude.{◌≡◌, ◌<◌, ◌≤◌, ◌+◌, ◌^◌, ℕ, length, None, IsSome, IsOk, IfOk, OnOk, OnErr};
ghost use Rattle.chunk_index.specs.Entries.{chunk};
ghost use Rattle.chunk_index.specs.Lists.{find_by};
ghost use Rattle.chunk_index.specs.Prepared.{PreparesChunk, PreparesKey};
ghost use Rattle.chunk_index.specs.Shelves.{look, SameEntries};
ghost use Rattle.chunk_index.specs.Maps.{IsPrepared, IsReadyKey, StaysPrepared, SameCommitted, SamePresent};

use crate::entry::KeyEntry;
use crate::index::Index;
use crate::object::ObjectEntries;
use crate::shelf::Shelf;
use flash_tree::Key;
use std::alloc::AllocError;

impl Index {
    /// Sees that there is room for the present page of a key, also once the changes are settled, so that `place` and
    /// `settle_group` take no memory. No committed and no present page changes, also where memory is refused, which it never is
    /// for a key that is committed or present. The chunk is one that a tree may look up.
    pub fn prepare(&mut self, key: Key) -> Result<(), AllocError>
        requires { key.chunk < 2 ^ 32 }
        ensures committed { SameCommitted self.old self.new }
        ensures present { SamePresent self.old self.new }
        ensures has_room { OnOk result (IsReadyKey self.new key.object key.chunk) }
        ensures stays { (o c : ℕ) → IsReadyKey self.old o c → IsReadyKey self.new o c }
        ensures prepared { StaysPrepared self.old self.new }
        ensures succeeds { IsPrepared self.old key.object key.chunk → IsOk result }
    {
        let has_room = self.changes.reserve().is_ok();
        self.shelf.prepare(key, has_room)
    }
}

impl Shelf {
    /// Sees that a key has an entry, which stays once the changes are settled. Where it has none, one that holds nothing is put, if it is
    /// allowed to add any.
    pub fn prepare(&mut self, key: Key, may_add: bool) -> Result<(), AllocError>
        requires low { key.chunk < 2 ^ 32 }
        ensures ok { OnOk result (PreparesKey key.object key.chunk self.old.objects self.new.objects) }
        ensures err { OnErr result (SameEntries self.old.objects self.new.objects) }
        ensures succeeds { IsSome (look self.old.objects key.object key.chunk) → IsOk result }
    {
        let room = self.room(may_add);
        match self.objects.get_mut(&key.object) {
            Some(entries) => match entries.prepare(key.chunk, room) {
                Ok(put) => {
                    self.size += put;
                    Ok(())
                }
                Err(error) => Err(error),
            },
            None => self.prepare_first(key, room),
        }
    }

    /// Puts the first entry of an object that is not here, one that holds nothing, if there may be one entry more.
    fn prepare_first(&mut self, key: Key, room: usize) -> Result<(), AllocError>
        requires absent { look self.old.objects key.object key.chunk ≡ None }
        requires room { self.old.size + room < 2 ^ 32 }
        requires low { key.chunk < 2 ^ 32 }
        ensures ok { OnOk result (PreparesKey key.object key.chunk self.old.objects self.new.objects) }
        ensures err { OnErr result (SameEntries self.old.objects self.new.objects) }
    {
        if room == 0 {
            return Err(AllocError);
        }
        self.insert_first(key.object, KeyEntry::bare(key.chunk))
    }
}

impl ObjectEntries {
    /// Sees that a chunk has an entry, which stays once the changes are settled. Where it has none, one that holds nothing is put, if
    /// there may be one entry more. Returns how many were put.
    pub fn prepare(&mut self, number: u64, room: usize) -> Result<usize, AllocError>
        requires low { number < 2 ^ 32 }
        ensures ok { OnOk result (PreparesChunk number self.old.entries.items self.new.entries.items) }
        ensures put { IfOk result (λ n. (length self.new.entries.items ≡ length self.old.entries.items + n) × (n ≤ room)) }
        ensures err { OnErr result (self.new.entries.items ≡ self.old.entries.items) }
        ensures succeeds { IsSome (find_by chunk self.old.entries.items number) → IsOk result }
    {
        match self.search(number) {
            Ok(at) => {
                self.entries[at].keep();
                Ok(0)
            }
            Err(at) => {
                if room == 0 {
                    return Err(AllocError);
                }
                self.insert_at(at, KeyEntry::bare(number))?;
                Ok(1)
            }
        }
    }
}
