// Keys that are no longer present, whole objects and ends of objects.
ghost use Rattle.std.specs.Prelude.{◌≡◌, ◌⊎◌, ◌≢◌, ◌<◌, ◌≤◌, ◌↔◌, ℕ, false, None, length, map};
ghost use Rattle.chunk_index.specs.Dropped.{dropped_from, DropsFrom};
ghost use Rattle.chunk_index.specs.Entries.{chunk};
ghost use Rattle.chunk_index.specs.Lists.{find_by, IsEndFor};
ghost use Rattle.chunk_index.specs.Shelves.{look};
ghost use Rattle.chunk_index.specs.Maps.{IsReadyKey, StaysPrepared, SameCommitted, Cuts};

use crate::index::Index;
use crate::object::ObjectEntries;
use crate::packed::PackedEntry;
use crate::shelf::Shelf;
use flash_tree::Key;

impl Index {
    /// Nothing of an object is present any more. It takes no memory, and touches the entries of the object alone.
    pub fn forget(&mut self, object: u64)
        ensures cuts { Cuts object 0 self.old self.new }
        ensures committed { SameCommitted self.old self.new }
        ensures prepared { StaysPrepared self.old self.new }
        ensures has_room { (k l : ℕ) → k ≢ object → IsReadyKey self.old k l → IsReadyKey self.new k l }
    {
        self.cut(object, 0);
    }

    /// Nothing of an object is present from a chunk on. It takes no memory, and touches these entries alone.
    pub fn cut(&mut self, object: u64, from: u64)
        ensures cuts { Cuts object from self.old self.new }
        ensures committed { SameCommitted self.old self.new }
        ensures prepared { StaysPrepared self.old self.new }
        ensures has_room { (k l : ℕ) → (k ≢ object) ⊎ (l < from) → IsReadyKey self.old k l → IsReadyKey self.new k l }
    {
        if self.shelf.drop_from(object, from) {
            self.changes.note_from(Key {
                object,
                chunk: from,
            });
        }
    }
}

impl Shelf {
    /// Nothing of an object is present any more from a chunk on. Returns whether it has entries there.
    fn drop_from(&mut self, object: u64, from: u64) -> bool
        ensures drops { DropsFrom object from self.old.objects self.new.objects }
        ensures none { (result ≡ false) ↔ ((c : ℕ) → from ≤ c → look self.old.objects object c ≡ None) }
        ensures size { self.new.size ≡ self.old.size }
    {
        match self.objects.get_mut(&object) {
            Some(entries) => entries.drop_from(from),
            None => false,
        }
    }
}

impl ObjectEntries {
    /// Nothing is present any more from a chunk on. Returns whether there are entries.
    fn drop_from(&mut self, from: u64) -> bool
        ensures items { self.new.entries.items ≡ map (dropped_from from) self.old.entries.items }
        ensures none { (result ≡ false) ↔ ((c : ℕ) → from ≤ c → find_by chunk self.old.entries.items c ≡ None) }
    {
        let first = self.count_below(from);
        drop_behind(&mut self.entries, first);
        first < self.entries.len()
    }
}

/// Nothing is present any more of the entries from a place on.
fn drop_behind(entries: &mut Vec<PackedEntry>, first: usize)
    requires { first ≤ length entries.old.items }
    ensures { (n : ℕ) → IsEndFor chunk entries.old.items n first → entries.new.items ≡ map (dropped_from n) entries.old.items }
{
    for at in first..entries.len() {
        entries[at].drop_present();
    }
}
