// Why there is no log.
use mount_scan::ScanFault;
use std::alloc::AllocError;

/// Why there is no log.
#[derive(Clone, Copy, Debug, PartialEq, Eq)]
pub enum LogFault {
    NoMemory,
    Gone,
    /// No number is left, more blocks are bad than there are to spare, or too few are without a committed page.
    Worn,
    /// The block that was said to have a checkpoint is not on the device, bad, or has a committed page.
    NotFree,
}

impl From<ScanFault> for LogFault {
    fn from(fault: ScanFault) -> LogFault {
        match fault {
            ScanFault::NoMemory => LogFault::NoMemory,
            ScanFault::Gone => LogFault::Gone,
        }
    }
}

impl From<AllocError> for LogFault {
    fn from(_fault: AllocError) -> LogFault {
        LogFault::NoMemory
    }
}
