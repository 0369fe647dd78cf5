// Why no volume or no tree is there.
ghost use Rattle.std.specs.Prelude.{◌≡◌};
ghost use Rattle.tree_walk.specs.declared.fault.WalkFault.TheVariants as faults;
ghost use Rattle.tree_walk.specs.Faults.{of_store};

use crate::broken::Broken;
use std::alloc::{AllocError, AllocFailed};
use volume_terms::StoreFault;

/// Why the root's header gives no volume.
#[derive(Clone, Copy, Debug, PartialEq, Eq)]
pub enum RootFault {
    /// A growth was refused. The call can be made again.
    NoMemory,
    /// The device failed or is gone.
    Device,
    /// There is no header of a root.
    NotAVolume,
    /// The header is of this newer format.
    Newer(u8),
    /// The header is there, but not as that of a root has to be.
    Damaged,
}

/// Why the objects of a volume are not gone through.
#[derive(Clone, Copy, Debug, PartialEq, Eq)]
pub enum WalkFault {
    /// A growth was refused. The call can be made again.
    NoMemory,
    /// The device failed or is gone.
    Device,
    /// This rule is broken by an object that is named: it is missing or not whole, or it is a directory that two names lead to.
    Broken(Broken),
}

impl From<StoreFault> for WalkFault {
    ghost from_gives = { λ fault e. e ≡ of_store fault };

    fn from(fault: StoreFault) -> WalkFault {
        match fault {
            StoreFault::NoMemory => WalkFault::NoMemory,
            StoreFault::Device => WalkFault::Device,
            StoreFault::Worn => WalkFault::Device,
        }
    }
}

impl From<AllocError> for WalkFault {
    ghost from_gives = { λ _ e. e ≡ faults.NoMemory };

    fn from(_e: AllocError) -> WalkFault {
        WalkFault::NoMemory
    }
}

impl<T: Drop> From<AllocFailed<T>> for WalkFault {
    ghost from_gives = { λ _ e. e ≡ faults.NoMemory };

    fn from(_e: AllocFailed<T>) -> WalkFault {
        WalkFault::NoMemory
    }
}
