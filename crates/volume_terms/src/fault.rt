// Why a store did not do what it is for.
ghost use Rattle.std.specs.Prelude.{◌≡◌};
ghost use Rattle.volume_terms.specs.declared.fault.StoreFault.TheVariants as faults;

use std::alloc::{AllocError, AllocFailed};

/// Why a store of pages, or of objects, did not answer or did not change.
#[derive(Clone, Copy, Debug, PartialEq, Eq)]
pub enum StoreFault {
    /// A growth was refused. The call can be made again.
    NoMemory,
    /// The device failed or is gone, or did not give back what was written.
    Device,
    /// There are no more blocks, or no more numbers, to write with.
    Worn,
}

impl From<AllocError> for StoreFault {
    ghost from_gives = { λ _ e. e ≡ faults.NoMemory };

    fn from(_error: AllocError) -> StoreFault {
        StoreFault::NoMemory
    }
}

impl<T: Drop> From<AllocFailed<T>> for StoreFault {
    ghost from_gives = { λ _ e. e ≡ faults.NoMemory };

    fn from(_error: AllocFailed<T>) -> StoreFault {
        StoreFault::NoMemory
    }
}
