// An entry as it is held in memory.
ghost use Rattle.std.specs.Prelude.{◌≡◌, ◌<◌, ◌^◌, is_some};
ghost use Rattle.chunk_index.specs.Entries.{committed_at, is_same, present_by, with_state, IsSmall, IsSmallPage, IsSmallState};
ghost use Rattle.chunk_index.specs.Dropped.{dropped};
ghost use Rattle.chunk_index.specs.InPlace.{with_buffered};
ghost use Rattle.chunk_index.specs.Prepared.{kept};
ghost use Rattle.chunk_index.specs.Packed.{committed_from, state_from};

use crate::entry::{KeyEntry, State};
use crate::form::{CommittedPage, Present};
use std::marker::Model;

/// The block of an entry without a committed page. A device has at most 4,096 blocks.
const NO_BLOCK: u16 = 65_535;

/// The number of an entry whose present page is the committed one.
const SAME: u8 = 255;

/// The number of an entry of which nothing is present, and that goes.
const DROPPED: u8 = 254;

/// The number of an entry of which nothing is present, and that stays.
const VACANT: u8 = 253;

/// One entry in 16 bytes, where a `KeyEntry` takes 40: no tree looks up a page of a chunk of more than 32 bits. A page of
/// the buffer is given by its number, and each other state by a number that no buffer reaches: it has at most a quarter of
/// a block's 256 pages.
#[derive(Drop)]
pub struct PackedEntry {
    version: u64,
    chunk: u32,
    block: u16,
    page: u8,
    number: u8,
}

const _: () = prove!(size_of::<PackedEntry>() == 16);

impl Model for PackedEntry {
    ghost use Rattle.chunk_index.specs.declared.entry.KeyEntry.{KeyEntry};

    ghost Value = { KeyEntry };

    ghost use Rattle.chunk_index.specs.Packed.{unpacked};

    ghost view = { unpacked };
}

impl PackedEntry {
    /// Packs an entry.
    pub fn pack(entry: KeyEntry) -> PackedEntry
        requires { IsSmall entry }
        ensures { result ≡ entry }
    {
        let at = page_or_none(entry.committed);
        PackedEntry {
            version: at.version,
            chunk: entry.chunk as u32,
            block: at.block as u16,
            page: at.page as u8,
            number: numbered(entry.state),
        }
    }

    /// The entry.
    pub fn unpack(&self) -> KeyEntry
        ensures entry { result ≡ self.now }
        ensures small { IsSmall result }
    {
        KeyEntry {
            chunk: self.chunk(),
            committed: self.committed(),
            state: self.state(),
        }
    }

    /// The chunk that the entry is of.
    pub fn chunk(&self) -> u64
        ensures chunk { result ≡ self.now.chunk }
        ensures low { result < 2 ^ 32 }
    {
        self.chunk as u64
    }

    /// Whether a page is committed.
    pub fn is_committed(&self) -> bool
        ensures { result ≡ is_some self.now.committed }
    {
        self.committed().is_some()
    }

    /// Whether what is present is what is committed.
    pub fn is_same(&self) -> bool
        ensures { result ≡ is_same self.now }
    {
        self.number == SAME
    }

    /// The present page.
    pub fn present(&self) -> Present
        ensures { result ≡ present_by self.now.committed self.now.state }
    {
        match self.state() {
            State::Same => match self.committed() {
                Some(page) => Present::OnFlash(page),
                None => Present::Absent,
            },
            State::Buffered(i) => Present::InBuffer(i),
            State::Dropped => Present::Absent,
            State::Vacant => Present::Absent,
        }
    }

    /// Gives it another state.
    pub fn set_state(&mut self, state: State)
        requires { IsSmallState state }
        ensures { self.new ≡ with_state state self.old }
    {
        self.number = numbered(state);
    }

    /// Makes the page of this number in the buffer present, unless one there is, and returns the state that it had.
    pub fn put_in_buffer(&mut self, page: u32) -> State
        requires { page < 253 }
        ensures entry { self.new ≡ with_buffered page self.old }
        ensures state { result ≡ self.old.state }
    {
        let state = self.state();
        if self.number >= VACANT {
            self.number = page as u8;
        }
        state
    }

    /// Commits a page, or none, and what is present is the same.
    pub fn commit(&mut self, page: Option<CommittedPage>)
        requires { IsSmallPage page }
        ensures { self.new ≡ committed_at self.old.chunk page }
    {
        let at = page_or_none(page);
        self.version = at.version;
        self.block = at.block as u16;
        self.page = at.page as u8;
        self.number = SAME;
    }

    /// Nothing of its chunk is present any more.
    pub fn drop_present(&mut self)
        ensures { self.new ≡ dropped self.old }
    {
        if self.number == VACANT || (self.number == SAME && self.block == NO_BLOCK) {
            return;
        }
        self.number = DROPPED;
    }

    /// It stays once the changes are settled.
    pub fn keep(&mut self)
        ensures { self.new ≡ kept self.old }
    {
        if self.number == DROPPED {
            self.number = VACANT;
        }
    }

    /// Where the page is committed, and its version.
    pub fn committed(&self) -> Option<CommittedPage>
        ensures committed { result ≡ self.now.committed }
        ensures small { IsSmallPage result }
    {
        if self.block == NO_BLOCK {
            return None;
        }
        Some(CommittedPage {
            block: u32::from(self.block),
            page: u32::from(self.page),
            version: self.version,
        })
    }

    /// How what is present differs from what is committed.
    pub fn state(&self) -> State
        ensures state { result ≡ self.now.state }
        ensures small { IsSmallState result }
    {
        if self.number == SAME {
            return State::Same;
        }
        if self.number == DROPPED {
            return State::Dropped;
        }
        if self.number == VACANT {
            return State::Vacant;
        }
        State::Buffered(u32::from(self.number))
    }
}

/// A committed page; where there is none, one in no block.
fn page_or_none(committed: Option<CommittedPage>) -> CommittedPage
    requires { IsSmallPage committed }
    ensures committed { committed_from result ≡ committed }
    ensures block { result.block < 65536 }
    ensures page { result.page < 256 }
{
    let none = CommittedPage {
        block: u32::from(NO_BLOCK),
        page: 0,
        version: 0,
    };
    match committed {
        Some(page) => page,
        None => none,
    }
}

/// The number of a state.
fn numbered(state: State) -> u8
    requires { IsSmallState state }
    ensures { state_from result ≡ state }
{
    match state {
        State::Same => SAME,
        State::Buffered(number) => number as u8,
        State::Dropped => DROPPED,
        State::Vacant => VACANT,
    }
}
