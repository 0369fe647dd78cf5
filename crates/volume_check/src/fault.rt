// Why a check was not made.
ghost use Rattle.std.specs.Prelude.{◌≡◌};
ghost use Rattle.volume_check.specs.Faults.{of_open};
ghost use Rattle.volume_check.specs.declared.fault.CheckFault.TheVariants as faults;

use page_store::OpenFault;
use std::alloc::{AllocError, AllocFailed};

/// Why a check was not made.
#[derive(Clone, Copy, Debug, PartialEq, Eq)]
pub enum CheckFault {
    NoMemory,
    /// The power is gone.
    Gone,
    /// The device did not return what was written.
    Lost,
}

impl From<OpenFault> for CheckFault {
    ghost from_gives = { λ fault e. e ≡ of_open fault };

    fn from(fault: OpenFault) -> CheckFault {
        match fault {
            OpenFault::NoMemory => CheckFault::NoMemory,
            OpenFault::Gone => CheckFault::Gone,
            OpenFault::Lost => CheckFault::Lost,
        }
    }
}

impl From<AllocError> for CheckFault {
    ghost from_gives = { λ _ e. e ≡ faults.NoMemory };

    fn from(_error: AllocError) -> CheckFault {
        CheckFault::NoMemory
    }
}

impl<T: Drop> From<AllocFailed<T>> for CheckFault {
    ghost from_gives = { λ _ e. e ≡ faults.NoMemory };

    fn from(_error: AllocFailed<T>) -> CheckFault {
        CheckFault::NoMemory
    }
}
