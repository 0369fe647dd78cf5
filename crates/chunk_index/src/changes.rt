// The keys whose present page may not be the committed one.
ghost use Rattle.std.specs.Prelude.{◌≡◌, ◌≤◌, ℕ, OnOk};
ghost use Rattle.chunk_index.specs.Noted.{IsNoted, KeepsNotes, NotesNone, HasRoomFor};

use flash_tree::Key;
use std::alloc::{AllocError, Global};

/// The notes of a kind that there is room for after a call of `prepare`. A buffer has no more pages: a quarter of a
/// block's, which are at most 256.
const SPARE_NOTES: usize = 64;

/// Notes of single keys, and of all chunks of an object from one on. A note takes no memory: where there is no room for
/// it, all keys are noted.
#[derive(Drop)]
pub struct ChangeList {
    pub(crate) keys: Vec<Key>,
    pub(crate) cuts: Vec<Key>,
    pub(crate) has_all: bool,
}

impl ChangeList {
    /// No key is noted.
    pub fn new(alloc: Global) -> ChangeList
        ensures { NotesNone result }
    {
        ChangeList {
            keys: Vec::new(alloc),
            cuts: Vec::new(alloc),
            has_all: false,
        }
    }

    /// Sees that there is room for more notes of each kind.
    pub fn reserve(&mut self) -> Result<(), AllocError>
        ensures notes { KeepsNotes self.old self.new }
        ensures room { OnOk result (HasRoomFor 64 self.new) }
    {
        self.keys.reserve(SPARE_NOTES)?;
        self.cuts.reserve(SPARE_NOTES)
    }

    /// Notes a key.
    pub fn note(&mut self, key: Key)
        ensures notes { KeepsNotes self.old self.new }
        ensures alone { HasRoomFor 1 self.old → self.new.has_all ≡ self.old.has_all }
        ensures noted { ∥ IsNoted self.new key.object key.chunk ∥₁ }
    {
        if self.keys.len() >= self.keys.capacity() {
            self.has_all = true;
            return;
        }
        let _ = self.keys.push(key);
    }

    /// Notes all chunks of an object from one on.
    pub fn note_from(&mut self, from: Key)
        ensures notes { KeepsNotes self.old self.new }
        ensures alone { HasRoomFor 1 self.old → self.new.has_all ≡ self.old.has_all }
        ensures noted { (c : ℕ) → from.chunk ≤ c → ∥ IsNoted self.new from.object c ∥₁ }
    {
        if self.cuts.len() >= self.cuts.capacity() {
            self.has_all = true;
            return;
        }
        let _ = self.cuts.push(from);
    }

    /// Notes no key any more.
    pub fn clear(&mut self)
        ensures { NotesNone self.new }
    {
        self.keys.clear();
        self.cuts.clear();
        self.has_all = false;
    }
}
