// Which programs were refused, for contracts alone.
ghost use Rattle.std.specs.Prelude.{◌≡◌, ℕ, List};
ghost use base.Fml.{ftrue};

use std::marker::Model;

/// The blocks that are closed until they are erased, since a tag did not fit there, and how many programs were refused for
/// that. It takes no memory.
#[derive(Drop)]
pub struct Refusals {
    pub ghost closed: { List ℕ },
    pub ghost count: { ℕ },
}

impl Model for Refusals {
    ghost also_owns = { λ _. ftrue };
}

impl Refusals {
    ghost use Rattle.port_nand.specs.Refused.{none_refused, refused_in, opened};

    /// Nothing was refused.
    pub(crate) fn new() -> Refusals
        ensures { result ≡ none_refused }
    {
        Refusals {}
    }

    /// One more, in this block.
    pub(crate) fn refuse(&self, _block: &u32) -> Refusals
        ensures { result ≡ refused_in _block.now self.now }
    {
        Refusals {}
    }

    /// The block is open again.
    pub(crate) fn open(&self, _block: &u32) -> Refusals
        ensures { result ≡ opened _block.now self.now }
    {
        Refusals {}
    }
}
