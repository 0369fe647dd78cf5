// Why nothing is read.
ghost use Rattle.std.specs.Prelude.{◌≡◌};
ghost use Rattle.salvage.specs.declared.fault.SalvageFault.TheVariants as faults;

use std::alloc::{AllocError, AllocFailed};

/// Why nothing is read. A page that is lost is no fault.
#[derive(Clone, Copy, Debug, PartialEq, Eq)]
pub enum SalvageFault {
    /// A growth was refused. The call can be made again.
    NoMemory,
    /// The power is gone.
    Gone,
}

impl From<AllocError> for SalvageFault {
    ghost from_gives = { λ _ e. e ≡ faults.NoMemory };

    fn from(_error: AllocError) -> SalvageFault {
        SalvageFault::NoMemory
    }
}

impl<T: Drop> From<AllocFailed<T>> for SalvageFault {
    ghost from_gives = { λ _ e. e ≡ faults.NoMemory };

    fn from(_error: AllocFailed<T>) -> SalvageFault {
        SalvageFault::NoMemory
    }
}
