// The committed keys from a place on.
ghost use Rattle.std.specs.Prelude.{◌≡◌, ℕ, List, length, drop, slice_get};
ghost use Rattle.chunk_index.specs.declared.form.CommittedKey.{CommittedKey};
ghost use Rattle.chunk_index.specs.Committed.{IsListOf};
ghost use Rattle.chunk_index.specs.Following.{SplitsFirst, TakesFirstKey, all_keys, keys_left, object_keys};
ghost use Rattle.chunk_index.specs.Maps.{committed_pages};

use crate::form::CommittedKey;
use crate::index::Index;
use crate::object::ObjectEntries;
use crate::packed::PackedEntry;
use crate::shelf::Shelf;
use flash_tree::Key;
use std::collections::btree_map;

/// Committed keys of an index that are still to come, one after another: by the object, then by the chunk. It holds the entries that
/// are left of the object that it is in, so that the next key is found without a search.
#[derive(Drop)]
pub struct CommittedKeys<'a> {
    object: u64,
    entries: &'a [PackedEntry],
    objects: btree_map::Iter<'a, u64, ObjectEntries>,
}

impl Index {
    /// All committed keys but the first `count`. The entries of those are only counted.
    pub fn committed_from(&self, count: u32) -> CommittedKeys<'_>
        ensures { (ks : List CommittedKey) → IsListOf (committed_pages self.now) ks → keys_left result ≡ drop count ks }
    {
        self.shelf.committed_from(count as usize)
    }
}

impl CommittedKeys<'_> {
    /// The next committed key, with its page.
    pub fn next(&mut self) -> Option<CommittedKey>
        ensures first { result ≡ slice_get (keys_left self.old) 0 }
        ensures left { keys_left self.new ≡ drop 1 (keys_left self.old) }
    {
        if let Some((found, entries)) = split_first(self.object, self.entries) {
            self.entries = entries;
            return Some(found);
        }
        self.next_beyond()
    }

    /// The first committed key of the objects after the one that it is in.
    fn next_beyond(&mut self) -> Option<CommittedKey>
        ensures { TakesFirstKey (all_keys self.old.objects) result (keys_left self.new) }
    {
        while let Some((object, entries)) = self.objects.next() {
            if let Some((found, entries)) = split_first(*object, &entries.entries) {
                self.object = *object;
                self.entries = entries;
                return Some(found);
            }
        }
        self.entries = &[];
        None
    }
}

/// The first committed key of some entries of an object, with the entries after its own.
fn split_first(object: u64, entries: &[PackedEntry]) -> Option<(CommittedKey, &[PackedEntry])>
    ensures { SplitsFirst object entries.now result }
{
    for at in 0..entries.len() {
        let entry = entries[at].unpack();
        if let Some(page) = entry.committed {
            let chunk = entry.chunk;
            let key = Key { object, chunk };
            return Some((CommittedKey { key, at: page }, &entries[at + 1..]));
        }
    }
    None
}

impl Shelf {
    /// All committed keys but the first `count`.
    fn committed_from(&self, count: usize) -> CommittedKeys<'_>
        ensures { keys_left result ≡ drop count (all_keys self.now.objects.entries) }
    {
        let mut left = count;
        let mut objects = self.objects.iter();
        while let Some((object, entries)) = objects.next() {
            let here = entries.count_committed();
            if left < here {
                let object = *object;
                let entries = entries.after_committed(left);
                return CommittedKeys {
                    object,
                    entries,
                    objects,
                };
            }
            left -= here;
        }
        CommittedKeys {
            object: 0,
            entries: &[],
            objects,
        }
    }
}

impl ObjectEntries {
    /// How many of them are committed.
    fn count_committed(&self) -> usize
        ensures { (o : ℕ) → length (object_keys o self.now.entries.items) ≡ result }
    {
        let mut count = 0;
        for entry in &self.entries {
            if entry.is_committed() {
                count += 1;
            }
        }
        count
    }

    /// The entries after the first `count` committed ones.
    fn after_committed(&self, count: usize) -> &[PackedEntry]
        ensures { (o : ℕ) → object_keys o result.now ≡ drop count (object_keys o self.now.entries.items) }
    {
        let mut left = count;
        for at in 0..self.entries.len() {
            if left == 0 {
                return &self.entries[at..];
            }
            if self.entries[at].is_committed() {
                left -= 1;
            }
        }
        &self.entries[self.entries.len()..]
    }
}
