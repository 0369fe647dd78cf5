// The entries of one object.
ghost use Rattle.std.specs.Prelude.{◌≡◌, ◌<◌, [], None, Some, IfOk, IfErr, OnOk, OnErr, IsSome};
ghost use Rattle.chunk_index.specs.Lists.{Rises, IsAt, IsGapFor, IsEndFor, find_by, is_nil};
ghost use Rattle.chunk_index.specs.Entries.{chunk, committed_of, present_of, same_of, Alters, IsSmall, IsSmallState};
ghost use Rattle.chunk_index.specs.InPlace.{placed, buffered, state_in};

use crate::entry::{KeyEntry, State};
use crate::form::{CommittedPage, Present};
use crate::packed::PackedEntry;
use std::alloc::{AllocError, Global};

/// The entries of one object, in the order of their chunks.
#[derive(Drop)]
pub struct ObjectEntries {
    pub(crate) entries: Vec<PackedEntry>,
    ghost rises: { Rises chunk entries.items },
}

impl ObjectEntries {
    /// None as yet.
    pub fn new(alloc: Global) -> ObjectEntries
        ensures { result.entries.items ≡ [] }
    {
        ObjectEntries {
            entries: Vec::new(alloc),
        }
    }

    /// Where the entry of a chunk is, or where it would go. The first places that are looked at are those of an object
    /// without holes: a chunk lies at the place of its number there, and the next one goes behind the last.
    pub(crate) fn search(&self, number: u64) -> Result<usize, usize>
        ensures found { IfOk result (IsAt chunk self.now.entries.items number) }
        ensures absent { IfErr result (IsGapFor chunk self.now.entries.items number) }
    {
        let place = number as usize;
        match self.entries.get(place) {
            Some(entry) if entry.chunk() == number => Ok(place),
            Some(_) => self.search_halves(number),
            None => self.search_end(number),
        }
    }

    /// Where the entry of a chunk is, or where it would go, looked for from the end.
    fn search_end(&self, number: u64) -> Result<usize, usize>
        ensures found { IfOk result (IsAt chunk self.now.entries.items number) }
        ensures absent { IfErr result (IsGapFor chunk self.now.entries.items number) }
    {
        let count = self.entries.len();
        if count == 0 || self.entries[count - 1].chunk() < number {
            return Err(count);
        }
        self.search_halves(number)
    }

    /// Where the entry of a chunk is, or where it would go, looked for by halves.
    fn search_halves(&self, number: u64) -> Result<usize, usize>
        ensures found { IfOk result (IsAt chunk self.now.entries.items number) }
        ensures absent { IfErr result (IsGapFor chunk self.now.entries.items number) }
    {
        self.entries
            .binary_search_by_key(&number, |entry| entry.chunk())
    }

    /// The committed page of a chunk.
    pub fn committed(&self, number: u64) -> Option<CommittedPage>
        ensures { result ≡ committed_of (find_by chunk self.now.entries.items number) }
    {
        match self.search(number) {
            Ok(at) => self.entries[at].committed(),
            Err(_) => None,
        }
    }

    /// The present page of a chunk.
    pub fn present(&self, number: u64) -> Present
        ensures { result ≡ present_of (find_by chunk self.now.entries.items number) }
    {
        match self.search(number) {
            Ok(at) => self.entries[at].present(),
            Err(_) => Present::Absent,
        }
    }

    /// Puts an entry of a chunk that has none.
    pub fn insert(&mut self, entry: KeyEntry) -> Result<(), AllocError>
        requires absent { find_by chunk self.old.entries.items entry.chunk ≡ None }
        requires small { IsSmall entry }
        ensures ok { OnOk result (Alters entry.chunk (Some entry) self.old.entries.items self.new.entries.items) }
        ensures err { OnErr result (self.new.entries.items ≡ self.old.entries.items) }
    {
        match self.search(entry.chunk) {
            Ok(_) => Ok(()),
            Err(at) => self.insert_at(at, entry),
        }
    }

    /// Puts an entry at the place where it goes.
    pub(crate) fn insert_at(&mut self, at: usize, entry: KeyEntry) -> Result<(), AllocError>
        requires gap { IsGapFor chunk self.old.entries.items entry.chunk at }
        requires small { IsSmall entry }
        ensures ok { OnOk result (Alters entry.chunk (Some entry) self.old.entries.items self.new.entries.items) }
        ensures err { OnErr result (self.new.entries.items ≡ self.old.entries.items) }
    {
        reserve_one(&mut self.entries)?;
        self.entries.insert(at, PackedEntry::pack(entry))?;
        Ok(())
    }

    /// Sees that there is room for so many entries more, and for no others.
    pub fn reserve(&mut self, count: usize) -> Result<(), AllocError>
        ensures { self.new.entries.items ≡ self.old.entries.items }
    {
        self.entries.reserve_exact(count)
    }

    /// Gives room back, where less than a quarter of it is taken.
    pub fn shrink(&mut self)
        ensures { self.new.entries.items ≡ self.old.entries.items }
    {
        if self.entries.len() < self.entries.capacity() / 4 {
            self.entries.shrink_to_fit();
        }
    }

    /// Gives the entry of a chunk another state, and returns whether what was present is what is committed.
    pub fn place(&mut self, number: u64, state: State) -> bool
        requires here { IsSome (find_by chunk self.old.entries.items number) }
        requires small { IsSmallState state }
        ensures alters { Alters number (placed state (find_by chunk self.old.entries.items number)) self.old.entries.items self.new.entries.items }
        ensures same { result ≡ same_of (find_by chunk self.old.entries.items number) }
    {
        match self.search(number) {
            Ok(at) => {
                let same = self.entries[at].is_same();
                self.entries[at].set_state(state);
                same
            }
            Err(_) => true,
        }
    }

    /// Gives the entry of a chunk the page of this number in the buffer, unless it has one there, and returns the state that it had.
    pub fn place_in_buffer(&mut self, number: u64, page: u32) -> State
        requires here { IsSome (find_by chunk self.old.entries.items number) }
        requires page { page < 253 }
        ensures alters { Alters number (buffered page (find_by chunk self.old.entries.items number)) self.old.entries.items self.new.entries.items }
        ensures state { result ≡ state_in (find_by chunk self.old.entries.items number) }
    {
        match self.search(number) {
            Ok(at) => self.entries[at].put_in_buffer(page),
            Err(_) => State::Same,
        }
    }

    /// Takes the entry of a chunk out. Those after it are moved.
    pub fn remove(&mut self, number: u64)
        requires { IsSome (find_by chunk self.old.entries.items number) }
        ensures { Alters number None self.old.entries.items self.new.entries.items }
    {
        match self.search(number) {
            Ok(at) => {
                let _ = self.entries.remove(at);
            }
            Err(_) => {}
        }
    }

    /// Whether there are none.
    pub fn is_empty(&self) -> bool
        ensures { result ≡ is_nil self.now.entries.items }
    {
        self.entries.is_empty()
    }

    /// How many entries lie before a chunk.
    pub(crate) fn count_below(&self, number: u64) -> usize
        ensures { IsEndFor chunk self.now.entries.items number result }
    {
        match self.search(number) {
            Ok(at) => at,
            Err(at) => at,
        }
    }
}

/// Sees that there is room for one entry more. The first is given room for itself, and then the room grows by an eighth,
/// and by 4 entries at the least.
fn reserve_one(entries: &mut Vec<PackedEntry>) -> Result<(), AllocError>
    ensures { entries.new.items ≡ entries.old.items }
{
    let count = entries.len();
    if count < entries.capacity() {
        return Ok(());
    }
    if count == 0 {
        return entries.reserve_exact(1);
    }
    entries.reserve_exact((count / 8).max(4))
}
