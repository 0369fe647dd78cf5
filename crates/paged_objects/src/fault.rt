// Faults of pages, as the store's own.
ghost use Rattle.std.specs.Prelude.{◌≡◌};
ghost use Rattle.paged_objects.specs.Faults.{fault_of};

use pages::PageFault;
use volume_terms::StoreFault;

/// A fault of pages as one of the store. Where the store holds objects nothing is damaged, and nothing is full.
pub(crate) fn fault_of(fault: PageFault) -> StoreFault
    ensures { result ≡ fault_of fault }
{
    match fault {
        PageFault::NoMemory => StoreFault::NoMemory,
        PageFault::Device => StoreFault::Device,
        PageFault::Worn => StoreFault::Worn,
        PageFault::Damaged => StoreFault::Device,
        PageFault::Full => StoreFault::Device,
    }
}
