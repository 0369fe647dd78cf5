// What a device begins a session with, for contracts alone.
ghost use Rattle.std.specs.Prelude.{◌≡◌, ℕ};
ghost use base.Fml.{ftrue};

use std::marker::Model;

/// The counts of a device at a power-up, and the number of its flash. It takes no memory.
#[derive(Drop)]
pub(crate) struct Start {
    pub ghost reported: { ℕ × ℕ × ℕ × ℕ × ℕ },
}

impl Model for Start {
    ghost also_owns = { λ _. ftrue };
}

impl Start {
    /// Numbers, as a proof chooses at the call.
    pub(crate) fn as_reported() -> Start
        ghost reported: { ℕ × ℕ × ℕ × ℕ × ℕ }
        ensures { result.reported ≡ reported }
    {
        Start {}
    }
}
