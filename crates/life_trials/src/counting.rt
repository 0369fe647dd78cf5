// What was lived through.
use crate::judging::Judged;
use std::alloc::{AllocError, Global};

/// How many sessions there were, how many of them were cut, and how many commands survived.
#[derive(Clone, Copy)]
pub(crate) struct Count {
    sessions: u64,
    cut: u64,
    committed: u64,
}

impl Count {
    pub(crate) fn new() -> Count {
        Count {
            sessions: 0,
            cut: 0,
            committed: 0,
        }
    }

    /// Counts one session more.
    pub(crate) fn add(&mut self, judged: &Judged) {
        self.sessions = self.sessions.saturating_add(1);
        self.committed = self.committed.saturating_add(judged.committed);
        if judged.cut {
            self.cut = self.cut.saturating_add(1);
        }
    }

    /// Counts one more session that was cut, of which so many commands survived.
    pub(crate) fn add_cut(&mut self, committed: u64) {
        self.sessions = self.sessions.saturating_add(1);
        self.cut = self.cut.saturating_add(1);
        self.committed = self.committed.saturating_add(committed);
    }

    /// How many sessions there were, none of which was none of a life.
    pub(crate) fn text(self, alloc: Global) -> Result<String, AllocError> {
        format!(in alloc; "{} sessions, each one of a life", self.sessions)
    }

    /// How many were cut, and what survived.
    pub(crate) fn details(self, alloc: Global) -> Result<String, AllocError> {
        format!(in alloc; "{} cut, {} commands durable", self.cut, self.committed)
    }
}
