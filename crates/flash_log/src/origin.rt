// The flash from which something began, for contracts alone.
ghost use Rattle.std.specs.Prelude.{◌≡◌, Option};
ghost use Rattle.flash_log.specs.Snapshots.{Snapshot};
ghost use base.Fml.{ftrue};

use std::marker::Model;

/// The flash from which something began, if that is known. It takes no memory.
#[derive(Drop)]
pub struct Origin {
    pub ghost first: { Option Snapshot },
}

impl Model for Origin {
    ghost also_owns = { λ _. ftrue };
}

impl Origin {
    /// The flash that a proof chooses at the call, or none.
    pub fn as_chosen() -> Origin
        ghost first: { Option Snapshot }
        ensures { result.first ≡ first }
    {
        Origin {}
    }
}
