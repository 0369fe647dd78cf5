// What the index has of one chunk.
ghost use Rattle.std.specs.Prelude.{◌≡◌, ◌<◌, ◌^◌, None};

use crate::form::{CommittedPage, Form};

/// How what is present of a chunk differs from what is committed.
#[derive(Clone, Copy, Debug, PartialEq, Eq)]
pub enum State {
    /// It is the same.
    Same,
    /// The page of this number in the buffer is present.
    Buffered(u32),
    /// Nothing is present, and the entry goes once the changes are settled.
    Dropped,
    /// Nothing is present, and the entry stays, for a page that it was prepared for.
    Vacant,
}

#[derive(Clone, Copy, Debug, PartialEq, Eq)]
pub struct KeyEntry {
    pub chunk: u64,
    pub committed: Option<CommittedPage>,
    pub state: State,
}

impl KeyEntry {
    ghost use Rattle.chunk_index.specs.Entries.{committed_at, is_same, IsSmall};

    /// The entry of a chunk of which nothing is committed or present.
    pub fn bare(chunk: u64) -> KeyEntry
        requires { chunk < 2 ^ 32 }
        ensures entry { result ≡ committed_at chunk None }
        ensures small { IsSmall result }
    {
        KeyEntry {
            chunk,
            committed: None,
            state: State::Same,
        }
    }

    /// Whether what is present is what is committed.
    pub fn is_same(&self) -> bool
        ensures { result ≡ is_same self.now }
    {
        match self.state {
            State::Same => true,
            State::Buffered(_) => false,
            State::Dropped => false,
            State::Vacant => false,
        }
    }
}

impl Form {
    ghost use Rattle.chunk_index.specs.Entries.{state_of};

    /// The state of an entry that was given this form.
    pub(crate) fn state(self) -> State
        ensures { result ≡ state_of self }
    {
        match self {
            Form::Buffered(i) => State::Buffered(i),
            Form::Dropped => State::Dropped,
        }
    }
}
