// Memory of the caller's for a salvage.
ghost use Rattle.std.specs.Prelude.{◌≡◌, true, false};
ghost use Rattle.std.specs.Borrow.{sem};
ghost use Rattle.flash_c.specs.SalvageHeld.{held};
ghost use Rattle.flash_c.specs.contracts.salvage_session.SalvageSession.{the_row as session_row};
ghost use Rattle.flash_c.specs.declared.salvage_session.SalvageSession.{SalvageSession};

use crate::salvage_session::SalvageSession;
use std::marker::Model;

/// Memory of `flash_salvage_slot_bytes` bytes that C hands in, and whether a salvage is there. C writes nothing of it but an
/// empty slot.
#[repr(C)]
pub struct SalvageSlot {
    at: *mut u8,
    full: bool,
    ghost session: { SalvageSession } by { session_row.coded },
}

impl Model for SalvageSlot {
    ghost also_owns = { λ s. held s.full s.at s.session };
}

impl SalvageSlot {
    ghost use Rattle.flash_c.specs.SalvageLending.{LendsSalvage};

    /// Whether a salvage is there.
    pub(crate) fn is_full(&mut self) -> bool
        ensures full { result ≡ self.old.full }
        ensures same { self.new ≡ self.old }
    {
        self.full
    }

    /// Lends the salvage where it lies.
    pub(crate) fn session(&mut self) -> &mut SalvageSession
        requires { self.old.full ≡ true }
        ensures* writes_back { sem 𝓛 (LendsSalvage self.entry result) }
        ensures session { result.now ≡ self.old.session }
    {
        let at = self.at as *mut SalvageSession;
        unsafe { &mut *at }
    }

    /// Takes the salvage out.
    pub(crate) fn take(&mut self) -> SalvageSession
        requires { self.old.full ≡ true }
        ensures session { result ≡ self.old.session }
        ensures full { self.new.full ≡ false }
    {
        let at = self.at as *mut SalvageSession;
        let session = unsafe { at.read() };
        self.full = false;
        session
    }

    /// Puts a salvage in.
    pub(crate) fn put(&mut self, session: SalvageSession)
        requires { self.old.full ≡ false }
        ensures session { self.new.session ≡ session }
        ensures full { self.new.full ≡ true }
    {
        let at = self.at as *mut SalvageSession;
        unsafe { at.write(session) };
        self.full = true;
    }
}
