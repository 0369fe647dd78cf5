// The commands that only succeed or fail, or that count.
ghost use Rattle.posix_profile.specs.Requests.{command_of};
ghost use Rattle.posix_profile.specs.declared.command.Command.TheVariants as commands;
ghost use Rattle.flash_c.specs.Flags.{open_flags, whence};
ghost use Rattle.flash_c.specs.Serving.{serves};
ghost use Rattle.flash_c.specs.Sessions.{at};
ghost use Rattle.flash_c.specs.Slots.{IsDone, IsCounted, WritesIn};

use crate::flags::{open_flags, whence};
use crate::numbers::error_number;
use crate::session::{Session, count, done};
use crate::slot::Slot;
use crate::writing::write;
use posix_calls::{Errno, Request, StampedRequest};

/// Does a command that only succeeds or fails in the session of a slot.
fn done_in(slot: &mut Slot, moment: u64, request: Request<'_>) -> i32
    ensures { IsDone serves slot.old (at moment (command_of request.entry)) result slot.new }
{
    if !slot.is_full() {
        return error_number(Errno::EINVAL);
    }
    done(slot.session(), &StampedRequest { moment, request })
}

/// Does a command that counts in the session of a slot.
fn count_in(slot: &mut Slot, moment: u64, request: Request<'_>) -> i64
    ensures { IsCounted serves slot.old (at moment (command_of request.entry)) result slot.new }
{
    if !slot.is_full() {
        return i64::from(error_number(Errno::EINVAL));
    }
    count(slot.session(), &StampedRequest { moment, request })
}

/// Opens a path and returns the descriptor. The flags are a sum: 1 to read, 2 to write, 4 to create, 8 for a new file alone,
/// 16 to cut it to nothing, 32 to append.
#[unsafe(no_mangle)]
pub extern "C" fn flash_open(slot: &mut Slot, path: &[u8], flags: u32, moment: u64) -> i64
    ensures { IsCounted serves slot.old (at moment (commands.Open path.now (open_flags flags))) result slot.new }
{
    let flags = open_flags(flags);
    count_in(slot, moment, Request::Open { path, flags })
}

/// Closes a descriptor.
#[unsafe(no_mangle)]
pub extern "C" fn flash_close(slot: &mut Slot, fd: u32) -> i32
    ensures { IsDone serves slot.old (at 0 (commands.Close fd)) result slot.new }
{
    done_in(slot, 0, Request::Close { fd })
}

/// Writes bytes at the descriptor's offset and returns how many. It goes on until all are written, or there is an error; where
/// some were written before the error, their count is returned.
#[unsafe(no_mangle)]
pub extern "C" fn flash_write(slot: &mut Slot, fd: u32, bytes: &[u8], moment: u64) -> i64
    ensures { WritesIn serves slot.old (record { moment = moment; fd = fd; bytes = bytes.now }) result slot.new }
{
    if !slot.is_full() {
        return i64::from(error_number(Errno::EINVAL));
    }
    write(slot.session(), moment, fd, bytes)
}

/// Sets the descriptor's offset, from the start of the file (0), from the offset (1) or from the end (2 and above), and
/// returns it.
#[unsafe(no_mangle)]
pub extern "C" fn flash_seek(slot: &mut Slot, fd: u32, offset: i64, from: u32) -> i64
    ensures { IsCounted serves slot.old (at 0 (commands.Seek fd offset (whence from))) result slot.new }
{
    let whence = whence(from);
    count_in(slot, 0, Request::Seek { fd, offset, whence })
}

/// Sets the length of the descriptor's file.
#[unsafe(no_mangle)]
pub extern "C" fn flash_truncate(slot: &mut Slot, fd: u32, length: i64, moment: u64) -> i32
    ensures { IsDone serves slot.old (at moment (commands.Truncate fd length)) result slot.new }
{
    done_in(slot, moment, Request::Truncate { fd, length })
}

/// Commits what was accepted, for a descriptor that is open.
#[unsafe(no_mangle)]
pub extern "C" fn flash_fsync(slot: &mut Slot, fd: u32) -> i32
    ensures { IsDone serves slot.old (at 0 (commands.Fsync fd)) result slot.new }
{
    done_in(slot, 0, Request::Fsync { fd })
}

/// Commits what was accepted.
#[unsafe(no_mangle)]
pub extern "C" fn flash_sync(slot: &mut Slot) -> i32
    ensures { IsDone serves slot.old (at 0 commands.Sync) result slot.new }
{
    done_in(slot, 0, Request::Sync)
}

/// Makes a directory.
#[unsafe(no_mangle)]
pub extern "C" fn flash_mkdir(slot: &mut Slot, path: &[u8], moment: u64) -> i32
    ensures { IsDone serves slot.old (at moment (commands.Mkdir path.now)) result slot.new }
{
    done_in(slot, moment, Request::Mkdir { path })
}

/// Removes an empty directory.
#[unsafe(no_mangle)]
pub extern "C" fn flash_rmdir(slot: &mut Slot, path: &[u8], moment: u64) -> i32
    ensures { IsDone serves slot.old (at moment (commands.Rmdir path.now)) result slot.new }
{
    done_in(slot, moment, Request::Rmdir { path })
}

/// Removes a name of a file.
#[unsafe(no_mangle)]
pub extern "C" fn flash_unlink(slot: &mut Slot, path: &[u8], moment: u64) -> i32
    ensures { IsDone serves slot.old (at moment (commands.Unlink path.now)) result slot.new }
{
    done_in(slot, moment, Request::Unlink { path })
}

/// Gives a file another name.
#[unsafe(no_mangle)]
pub extern "C" fn flash_link(slot: &mut Slot, old: &[u8], new: &[u8], moment: u64) -> i32
    ensures { IsDone serves slot.old (at moment (commands.Link old.now new.now)) result slot.new }
{
    done_in(slot, moment, Request::Link { old, new })
}

/// Renames a file or a directory. What has the new name before is replaced.
#[unsafe(no_mangle)]
pub extern "C" fn flash_rename(slot: &mut Slot, old: &[u8], new: &[u8], moment: u64) -> i32
    ensures { IsDone serves slot.old (at moment (commands.Rename old.now new.now)) result slot.new }
{
    done_in(slot, moment, Request::Rename { old, new })
}
