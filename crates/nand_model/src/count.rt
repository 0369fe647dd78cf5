// A number for contracts alone.
ghost use Rattle.std.specs.Prelude.{◌≡◌, ◌+◌, ℕ};
ghost use base.Fml.{ftrue};

use std::marker::Model;

/// A count for contracts alone: it takes no memory, has no greatest value, and no program reads it.
#[derive(Drop)]
pub struct Count {
    pub ghost total: { ℕ },
}

impl Model for Count {
    ghost also_owns = { λ _. ftrue };
}

impl Count {
    /// every count is 0.
    pub fn new() -> Count
        ensures { result.total ≡ 0 }
    {
        Count {}
    }

    /// One more.
    pub fn next(&self) -> Count
        ensures { result.total ≡ self.now.total + 1 }
    {
        Count {}
    }

    /// Counts one more.
    pub fn rise(&mut self)
        ensures { self.new.total ≡ self.old.total + 1 }
    {
        *self = self.next();
    }

    pub(crate) fn copy(&self) -> Count
        ensures { result ≡ self.now }
    {
        Count {}
    }
}
