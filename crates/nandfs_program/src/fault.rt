// Why a subcommand ended otherwise than well.
ghost use Rattle.std.specs.Prelude.{◌≡◌};
ghost use Rattle.nandfs_program.specs.Statuses.{mount_status, status_of};
ghost use Rattle.nandfs_program.specs.declared.fault.ToolFault.TheVariants as faults;

use chip_map::MapFault;
use mount_scan::ScanFault;
use nand_image::ImageFault;
use plain_volume::TreeFault;
use posix_calls::{Errno, FormatFault, MountFault};
use salvage::SalvageFault;
use std::alloc::{AllocError, AllocFailed};
use std::io;
use thiserror::Error;
use volume_bench::BenchFault;
use volume_check::CheckFault;

/// Why a subcommand ended otherwise than well.
#[derive(Clone, Copy, Debug, PartialEq, Eq, Error)]
pub enum ToolFault {
    #[error("memory was refused: free some, then run the program again")]
    NoMemory,
    #[error("no device has these sizes: `--help` has the limits of a page, a block and a device")]
    BadGeometry,
    /// Not even the greatest number of blocks has the room.
    #[error("no image is large enough for the folder: take larger blocks or pages")]
    TooMuch,
    /// The image could not be opened or made.
    #[error(transparent)]
    Image(ImageFault),
    /// The device of a new volume could not be formatted.
    #[error(transparent)]
    Format(FormatFault),
    /// The volume could not be mounted.
    #[error(transparent)]
    Mount(MountFault),
    #[error("the volume could not be unmounted: what was changed may be missing")]
    Unmount,
    /// A command was refused.
    #[error("the volume refused it: {0:?}")]
    Refused(Errno),
    /// The volume does not have what was put into it.
    #[error("the volume does not have what was put into it")]
    Unlike,
    #[error("the folder has what no volume can have: see above; `--skip-others` leaves it out")]
    Others,
    #[error("the folder is not empty")]
    NotEmpty,
    /// An image is made in a file beside it, which is there already.
    #[error("the file of the image's name and `.nandfs-new` is there: remove it, where no other run is at work")]
    Beside,
    #[error("the image's path leads to a folder, a link or a device, which no image replaces")]
    NoFile,
    #[error("the device has no such block or page")]
    NoPage,
    #[error("a time is a number of microseconds, as 26.6, with at most three places after the point")]
    BadTime,
    /// Lines could not be measured.
    #[error(transparent)]
    Bench(BenchFault),
    /// Of a volume not all could be salvaged.
    #[error("not all could be read: see above")]
    Losses,
    #[error("a file or a folder of the host could not be read or written")]
    Host,
    #[error("standard output could not be written: check where it goes")]
    Output,
}

/// The exit status after a mount that failed: 3 where the image has no volume that this program reads.
fn mount_status(fault: MountFault) -> u8
    ensures { result ≡ mount_status fault }
{
    match fault {
        MountFault::NotAVolume | MountFault::Newer(_) | MountFault::Damaged => 3,
        MountFault::Gone | MountFault::NoMemory => 2,
    }
}

impl ToolFault {
    /// The exit status: 3 for an image that has no volume that this program reads, or not all of one, 1 for a word that is not taken,
    /// else 2.
    pub fn status(self) -> u8
        ensures { result ≡ status_of self }
    {
        match self {
            ToolFault::Mount(fault) => mount_status(fault),
            ToolFault::Losses => 3,
            ToolFault::BadTime => 1,
            _ => 2,
        }
    }
}

impl From<AllocError> for ToolFault {
    fn from(_error: AllocError) -> ToolFault {
        ToolFault::NoMemory
    }
}

impl<T: Drop> From<AllocFailed<T>> for ToolFault {
    fn from(_error: AllocFailed<T>) -> ToolFault {
        ToolFault::NoMemory
    }
}

impl From<ImageFault> for ToolFault {
    fn from(fault: ImageFault) -> ToolFault {
        ToolFault::Image(fault)
    }
}

impl From<ScanFault> for ToolFault {
    fn from(fault: ScanFault) -> ToolFault {
        match fault {
            ScanFault::NoMemory => ToolFault::NoMemory,
            ScanFault::Gone => ToolFault::Mount(MountFault::Gone),
        }
    }
}

impl From<MapFault> for ToolFault {
    fn from(fault: MapFault) -> ToolFault {
        match fault {
            MapFault::NoMemory => ToolFault::NoMemory,
            MapFault::Output => ToolFault::Output,
            MapFault::NoPage => ToolFault::NoPage,
            MapFault::Gone => ToolFault::Mount(MountFault::Gone),
        }
    }
}

impl From<BenchFault> for ToolFault {
    fn from(fault: BenchFault) -> ToolFault {
        match fault {
            BenchFault::NoMemory => ToolFault::NoMemory,
            BenchFault::Output => ToolFault::Output,
            _ => ToolFault::Bench(fault),
        }
    }
}

impl From<CheckFault> for ToolFault {
    fn from(fault: CheckFault) -> ToolFault {
        match fault {
            CheckFault::NoMemory => ToolFault::NoMemory,
            CheckFault::Gone | CheckFault::Lost => ToolFault::Mount(MountFault::Gone),
        }
    }
}

impl From<SalvageFault> for ToolFault {
    fn from(fault: SalvageFault) -> ToolFault {
        match fault {
            SalvageFault::NoMemory => ToolFault::NoMemory,
            SalvageFault::Gone => ToolFault::Mount(MountFault::Gone),
        }
    }
}

impl From<TreeFault> for ToolFault {
    fn from(fault: TreeFault) -> ToolFault {
        match fault {
            TreeFault::NoMemory => ToolFault::NoMemory,
            TreeFault::Refused(error) => ToolFault::Refused(error),
            TreeFault::Unlike => ToolFault::Unlike,
        }
    }
}

impl From<io::Error> for ToolFault {
    fn from(_error: io::Error) -> ToolFault {
        ToolFault::Host
    }
}
