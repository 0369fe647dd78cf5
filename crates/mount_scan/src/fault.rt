// Why a scan ends.
ghost use Rattle.std.specs.Prelude.{◌≡◌};
ghost use Rattle.mount_scan.specs.Faults.{of_summary};
ghost use Rattle.mount_scan.specs.declared.fault.ScanFault.TheVariants as faults;

use crate::block_summary::SummaryFault;
use nand_model::Gone;
use std::alloc::{AllocError, AllocFailed};

/// Why there is no scan.
#[derive(Clone, Copy, Debug, PartialEq, Eq)]
pub enum ScanFault {
    NoMemory,
    /// The power is gone.
    Gone,
}

impl From<AllocError> for ScanFault {
    ghost from_gives = { λ _ e. e ≡ faults.NoMemory };

    fn from(_e: AllocError) -> ScanFault {
        ScanFault::NoMemory
    }
}

impl<T: Drop> From<AllocFailed<T>> for ScanFault {
    ghost from_gives = { λ _ e. e ≡ faults.NoMemory };

    fn from(_e: AllocFailed<T>) -> ScanFault {
        ScanFault::NoMemory
    }
}

impl From<Gone> for ScanFault {
    ghost from_gives = { λ _ e. e ≡ faults.Gone };

    fn from(_e: Gone) -> ScanFault {
        ScanFault::Gone
    }
}

impl From<SummaryFault> for ScanFault {
    ghost from_gives = { λ fault e. e ≡ of_summary fault };

    fn from(fault: SummaryFault) -> ScanFault {
        match fault {
            SummaryFault::NoMemory => ScanFault::NoMemory,
            SummaryFault::Gone => ScanFault::Gone,
        }
    }
}
