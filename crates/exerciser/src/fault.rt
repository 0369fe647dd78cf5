// Why sessions were not gone through to the end.
ghost use Rattle.std.specs.Prelude.{◌≡◌};
ghost use Rattle.exerciser.specs.Faults.{of_tree, of_mount};
ghost use Rattle.exerciser.specs.declared.fault.CutFault.TheVariants as faults;

use plain_volume::TreeFault;
use posix_calls::MountFault;
use std::alloc::AllocError;
use thiserror::Error;

/// Why sessions were not gone through to the end.
#[derive(Clone, Copy, Debug, PartialEq, Eq, Error)]
pub enum CutFault {
    /// Memory was refused, outside the commands of a session.
    #[error("memory was refused: free some, then run the sessions again")]
    NoMemory,
    /// A mount of the first device answers this, where memory was not refused.
    #[error(transparent)]
    Mount(MountFault),
    /// A session that was not cut was not mounted, or its unmount was not done.
    #[error("a session that was not cut could not be mounted and unmounted")]
    Unmount,
    /// The tree before a session could not be read by commands: a path in it is longer than a path may be, or there is too little
    /// room to make its objects again.
    #[error("a tree could not be read by commands: a path is too long, or there is no room to build it again")]
    Unread,
    /// After a session that was cut a mount found no tree that the session may leave.
    #[error("a power loss left a tree that it must not: report it, with the device, the seed and the commands")]
    Torn,
    /// The writer failed.
    #[error("the lines of the sessions could not be written")]
    Write,
}

impl From<AllocError> for CutFault {
    ghost from_gives = { λ _ e. e ≡ faults.NoMemory };

    fn from(_error: AllocError) -> CutFault {
        CutFault::NoMemory
    }
}

impl From<MountFault> for CutFault {
    ghost from_gives = { λ fault e. e ≡ of_mount fault };

    fn from(fault: MountFault) -> CutFault {
        match fault {
            MountFault::NoMemory => CutFault::NoMemory,
            _ => CutFault::Mount(fault),
        }
    }
}

impl From<TreeFault> for CutFault {
    ghost from_gives = { λ fault e. e ≡ of_tree fault };

    fn from(fault: TreeFault) -> CutFault {
        match fault {
            TreeFault::NoMemory => CutFault::NoMemory,
            _ => CutFault::Unread,
        }
    }
}
