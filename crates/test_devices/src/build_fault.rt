// Why no store is on a device.
use page_store::OpenFault;
use std::alloc::AllocError;

/// Why no store is on a device.
#[derive(Clone, Copy, Debug, PartialEq, Eq)]
pub enum BuildFault {
    NoMemory,
    /// The device did not return what was written.
    Lost,
    Gone,
    /// No number is left, more blocks are bad than there are to spare, or too few are free.
    Worn,
}

impl From<OpenFault> for BuildFault {
    fn from(fault: OpenFault) -> BuildFault {
        match fault {
            OpenFault::NoMemory => BuildFault::NoMemory,
            OpenFault::Lost => BuildFault::Lost,
            OpenFault::Gone => BuildFault::Gone,
        }
    }
}

impl From<AllocError> for BuildFault {
    fn from(_refused: AllocError) -> BuildFault {
        BuildFault::NoMemory
    }
}
