// The numbers that the exports return.
ghost use Rattle.std.specs.Prelude.{◌≡◌, ◌<ℤ◌, pos};
ghost use Rattle.flash_c.specs.Numbers.{error_number, open_number, mount_number, format_number, salvage_number, signed, done_number, count_number};
ghost use Rattle.flash_c.specs.Refreshing.{result_number};

use port_nand::OpenFault;
use posix_calls::{Errno, FormatFault, MountFault, Reply};
use salvage::SalvageFault;

/// ERANGE: the buffer has no room for all names.
pub(crate) const NO_ROOM: i64 = -34;

/// ENODATA: a page of a file is lost.
pub(crate) const LOST_PAGE: i64 = -61;

/// The number of an error, by Linux.
pub(crate) fn error_number(error: Errno) -> i32
    ensures number { result ≡ error_number error }
    ensures negative { result <ℤ pos 0 }
{
    match error {
        Errno::EPERM => -1,
        Errno::ENOENT => -2,
        Errno::EIO => -5,
        Errno::EBADF => -9,
        Errno::ENOMEM => -12,
        Errno::EBUSY => -16,
        Errno::EEXIST => -17,
        Errno::ENOTDIR => -20,
        Errno::EISDIR => -21,
        Errno::EINVAL => -22,
        Errno::EMFILE => -24,
        Errno::EFBIG => -27,
        Errno::ENOSPC => -28,
        Errno::EROFS => -30,
        Errno::ENAMETOOLONG => -36,
        Errno::ENOTEMPTY => -39,
        Errno::EOVERFLOW => -75,
    }
}

/// Why a device was not opened.
pub(crate) fn open_number(fault: OpenFault) -> i32
    ensures number { result ≡ open_number fault }
    ensures negative { result <ℤ pos 0 }
{
    match fault {
        OpenFault::Gone => error_number(Errno::EIO),
        OpenFault::NoMemory => error_number(Errno::ENOMEM),
        OpenFault::BadGeometry => error_number(Errno::EINVAL),
    }
}

/// Why a device was not mounted: ENODEV where there is no volume, EOPNOTSUPP where its format is newer, EILSEQ where its tree
/// is none that a volume can go on with.
pub(crate) fn mount_number(fault: MountFault) -> i32
    ensures number { result ≡ mount_number fault }
    ensures negative { result <ℤ pos 0 }
{
    match fault {
        MountFault::Gone => error_number(Errno::EIO),
        MountFault::NoMemory => error_number(Errno::ENOMEM),
        MountFault::NotAVolume => -19,
        MountFault::Newer(_) => -95,
        MountFault::Damaged => -84,
    }
}

/// Why a device was not formatted.
pub(crate) fn format_number(fault: FormatFault) -> i32
    ensures number { result ≡ format_number fault }
    ensures negative { result <ℤ pos 0 }
{
    match fault {
        FormatFault::Spare => error_number(Errno::EINVAL),
        FormatFault::NoMemory => error_number(Errno::ENOMEM),
        FormatFault::Worn => error_number(Errno::ENOSPC),
        FormatFault::Gone => error_number(Errno::EIO),
    }
}

/// Why a salvage returned nothing.
pub(crate) fn salvage_number(fault: SalvageFault) -> i32
    ensures number { result ≡ salvage_number fault }
    ensures negative { result <ℤ pos 0 }
{
    match fault {
        SalvageFault::NoMemory => error_number(Errno::ENOMEM),
        SalvageFault::Gone => error_number(Errno::EIO),
    }
}

/// A count as a number of 64 bits. EOVERFLOW: it has no place there.
pub(crate) fn signed(count: u64) -> i64
    ensures { result ≡ signed count }
{
    if count < 1 << 63 {
        count as i64
    } else {
        i64::from(error_number(Errno::EOVERFLOW))
    }
}

/// 0, or the error.
pub(crate) fn done_number(reply: &Reply) -> i32
    ensures { result ≡ done_number reply.now }
{
    match reply {
        Reply::Done => 0,
        Reply::Error(error) => error_number(*error),
        _ => error_number(Errno::EIO),
    }
}

/// The descriptor, the bytes written or the offset, or the error.
pub(crate) fn count_number(reply: &Reply) -> i64
    ensures { result ≡ count_number reply.now }
{
    match reply {
        Reply::Fd(fd) => i64::from(*fd),
        Reply::Wrote(count) => i64::from(*count),
        Reply::At(offset) => signed(*offset),
        Reply::Error(error) => i64::from(error_number(*error)),
        _ => i64::from(error_number(Errno::EIO)),
    }
}

/// The number of a call that only succeeds or fails.
pub(crate) fn result_number(done: Result<(), Errno>) -> i32
    ensures { result ≡ result_number done }
{
    match done {
        Ok(()) => 0,
        Err(error) => error_number(error),
    }
}
