// Whether something is trusted, for contracts alone.
ghost use Rattle.std.specs.Prelude.{◌≡◌, Bool};
ghost use base.Fml.{ftrue};

use std::marker::Model;

/// Whether something is trusted. It takes no memory.
#[derive(Drop)]
pub struct Trust {
    pub ghost reported: { Bool },
}

impl Model for Trust {
    ghost also_owns = { λ _. ftrue };
}

impl Trust {
    /// Trust, or none, as a proof chooses at the call.
    pub fn as_reported() -> Trust
        ghost reported: { Bool }
        ensures { result.reported ≡ reported }
    {
        Trust {}
    }
}
