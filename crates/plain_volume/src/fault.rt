// Why a tree cannot be read, or made again.
ghost use Rattle.std.specs.Prelude.{◌≡◌};
ghost use Rattle.plain_volume.specs.declared.fault.TreeFault.TheVariants as faults;

use posix_profile::Errno;
use std::alloc::{AllocError, AllocFailed};

/// Why a tree was not read, or not made again.
#[derive(Clone, Copy, Debug, PartialEq, Eq)]
pub enum TreeFault {
    /// A growth was refused.
    NoMemory,
    /// A command that reads the tree, or makes it again, was refused: the volume is stopped, its descriptors are all open,
    /// a path is too long, or there is no room for the names that objects are made under.
    Refused(Errno),
    /// The commands did not tell, or did not make, a tree.
    Unlike,
}

impl From<AllocError> for TreeFault {
    ghost from_gives = { λ _ e. e ≡ faults.NoMemory };

    fn from(_error: AllocError) -> TreeFault {
        TreeFault::NoMemory
    }
}

impl<T: Drop> From<AllocFailed<T>> for TreeFault {
    ghost from_gives = { λ _ e. e ≡ faults.NoMemory };

    fn from(_error: AllocFailed<T>) -> TreeFault {
        TreeFault::NoMemory
    }
}
