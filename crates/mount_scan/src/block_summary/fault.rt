// Why a summary was not read.
ghost use Rattle.std.specs.Prelude.{◌≡◌};
ghost use Rattle.mount_scan.specs.declared.block_summary.fault.SummaryFault.TheVariants as faults;

use nand_model::Gone;
use std::alloc::{AllocError, AllocFailed};

/// Why a summary was not read.
#[derive(Clone, Copy, Debug, PartialEq, Eq)]
pub enum SummaryFault {
    NoMemory,
    /// The power is gone.
    Gone,
}

impl From<AllocError> for SummaryFault {
    ghost from_gives = { λ _ e. e ≡ faults.NoMemory };

    fn from(_e: AllocError) -> SummaryFault {
        SummaryFault::NoMemory
    }
}

impl<T: Drop> From<AllocFailed<T>> for SummaryFault {
    ghost from_gives = { λ _ e. e ≡ faults.NoMemory };

    fn from(_e: AllocFailed<T>) -> SummaryFault {
        SummaryFault::NoMemory
    }
}

impl From<Gone> for SummaryFault {
    ghost from_gives = { λ _ e. e ≡ faults.Gone };

    fn from(_e: Gone) -> SummaryFault {
        SummaryFault::Gone
    }
}
