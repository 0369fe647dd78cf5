// Why a call that reads what pages hold failed.
ghost use Rattle.std.specs.Prelude.{◌≡◌};
ghost use Rattle.pages.specs.declared.fault.PageFault.TheVariants as faults;
ghost use Rattle.pages.specs.Faults.{of_store};

use std::alloc::{AllocError, AllocFailed};
use volume_terms::StoreFault;

/// Why a directory or a file was not read, or a change of it not made.
#[derive(Clone, Copy, Debug, PartialEq, Eq)]
pub enum PageFault {
    /// A growth was refused. The call can be made again.
    NoMemory,
    /// The device failed or is gone, or did not give back what was written.
    Device,
    /// There are no more blocks, or no more numbers, to write with.
    Worn,
    /// What is there is not such an object, or a page of it is missing or is none of its pages.
    Damaged,
    /// The object is as large as its header can say.
    Full,
}

impl From<StoreFault> for PageFault {
    ghost from_gives = { λ fault e. e ≡ of_store fault };

    fn from(fault: StoreFault) -> PageFault {
        match fault {
            StoreFault::NoMemory => PageFault::NoMemory,
            StoreFault::Device => PageFault::Device,
            StoreFault::Worn => PageFault::Worn,
        }
    }
}

impl From<AllocError> for PageFault {
    ghost from_gives = { λ _ e. e ≡ faults.NoMemory };

    fn from(_e: AllocError) -> PageFault {
        PageFault::NoMemory
    }
}

impl<T: Drop> From<AllocFailed<T>> for PageFault {
    ghost from_gives = { λ _ e. e ≡ faults.NoMemory };

    fn from(_e: AllocFailed<T>) -> PageFault {
        PageFault::NoMemory
    }
}
