// Why a map or a dump was not written.
ghost use Rattle.std.specs.Prelude.{◌≡◌};
ghost use Rattle.chip_map.specs.declared.fault.MapFault.TheVariants as faults;

use nand_model::Gone;
use std::alloc::{AllocError, AllocFailed};

/// Why a map or a dump was not written.
#[derive(Clone, Copy, Debug, PartialEq, Eq)]
pub enum MapFault {
    NoMemory,
    /// The output could not be written.
    Output,
    /// The device has no such block or page.
    NoPage,
    /// The power is gone.
    Gone,
}

impl From<AllocError> for MapFault {
    ghost from_gives = { λ _ e. e ≡ faults.NoMemory };

    fn from(_error: AllocError) -> MapFault {
        MapFault::NoMemory
    }
}

impl<T: Drop> From<AllocFailed<T>> for MapFault {
    ghost from_gives = { λ _ e. e ≡ faults.NoMemory };

    fn from(_error: AllocFailed<T>) -> MapFault {
        MapFault::NoMemory
    }
}

impl From<Gone> for MapFault {
    ghost from_gives = { λ _ e. e ≡ faults.Gone };

    fn from(_gone: Gone) -> MapFault {
        MapFault::Gone
    }
}
