// Why a device was not scanned, or its tree not read, as a reason why it is not mounted.
ghost use Rattle.std.specs.Prelude.{◌≡◌, false};
ghost use Rattle.nand_model.specs.Changes.{OnlyReads};
ghost use Rattle.mounting.specs.Faults.{IsReason, WhyNotMounted, of_found, of_open, of_root, of_search};

use crate::fault::MountFault;
use mount_scan::ScanFault;
use nand_model::Nand;
use page_store::OpenFault;
use pages::has_power;
use tree_walk::RootFault;

/// A fault of the search for a checkpoint in the words of a mount.
pub(crate) fn search_fault(fault: ScanFault) -> MountFault
    ensures { result ≡ of_search fault }
{
    match fault {
        ScanFault::NoMemory => MountFault::NoMemory,
        ScanFault::Gone => MountFault::Gone,
    }
}

/// A fault of a scan in the words of a mount. A page that was not given back is damage.
pub(crate) fn scan_fault(fault: OpenFault) -> MountFault
    ensures { result ≡ of_open fault }
{
    match fault {
        OpenFault::NoMemory => MountFault::NoMemory,
        OpenFault::Lost => MountFault::Damaged,
        OpenFault::Gone => MountFault::Gone,
    }
}

/// A fault of an opening by summaries, as one of a tree that was not read.
pub(crate) fn found_fault(fault: OpenFault) -> RootFault
    ensures { result ≡ of_found fault }
{
    match fault {
        OpenFault::NoMemory => RootFault::NoMemory,
        OpenFault::Lost => RootFault::Damaged,
        OpenFault::Gone => RootFault::Device,
    }
}

/// A fault of a tree that was not read, in the words of a mount. A page that was not given back is damage.
pub(crate) fn tree_fault(fault: RootFault) -> MountFault
    ensures { result ≡ of_root fault }
{
    match fault {
        RootFault::NoMemory => MountFault::NoMemory,
        RootFault::Device => MountFault::Damaged,
        RootFault::NotAVolume => MountFault::NotAVolume,
        RootFault::Newer(format) => MountFault::Newer(format),
        RootFault::Damaged => MountFault::Damaged,
    }
}

/// The reason why a device is not mounted: this fault, if it has power. One tag is read.
fn reason<N: Nand>(device: &mut N, fault: MountFault) -> MountFault
    requires { (N.state device.old).gone ≡ false → IsReason (N.state device.old) fault }
    ensures reads { OnlyReads (N.state device.old) (N.state device.new) }
    ensures why { WhyNotMounted (N.state device.new) result }
{
    if has_power(device) {
        fault
    } else {
        MountFault::Gone
    }
}

/// A device that is not mounted, and why: for this fault, if it has power. One tag is read.
pub fn unmounted<N: Nand>(device: N, fault: MountFault) -> (N, MountFault)
    requires { (N.state device).gone ≡ false → IsReason (N.state device) fault }
    ensures reads { OnlyReads (N.state device) (N.state result.0) }
    ensures why { WhyNotMounted (N.state result.0) result.1 }
{
    let mut device = device;
    let why = reason(&mut device, fault);
    (device, why)
}
