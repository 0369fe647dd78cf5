// Reads and writes at an offset of their own: the descriptor's offset is set, and set back.
ghost use Rattle.std.specs.Prelude.{◌≡◌};
ghost use Rattle.flash_c.specs.Serving.{serves};
ghost use Rattle.flash_c.specs.Placed.{Seeks, GoesTo, GoesBack, IsReadAt, IsWrittenAt, ReadsAtIn, WritesAtIn, placed_read, placed_write};

use crate::numbers::error_number;
use crate::session::{Session, count, read};
use crate::slot::Slot;
use crate::writing::write;
use posix_calls::{Errno, Request, StampedRequest, Whence};

/// Moves the offset of a descriptor and returns it.
fn seek(session: &mut Session, fd: u32, offset: i64, whence: Whence) -> i64
    ensures { Seeks serves session.old ((record { fd = fd; offset = offset }), whence) result session.new }
{
    let request = Request::Seek { fd, offset, whence };
    count(session, &StampedRequest { moment: 0, request })
}

/// Sets the offset of a descriptor, and returns what it was.
fn go_to(session: &mut Session, fd: u32, offset: i64) -> Result<i64, i64>
    ensures { GoesTo serves session.old (record { fd = fd; offset = offset }) result session.new }
{
    let was = seek(session, fd, 0, Whence::Cur);
    if was < 0 {
        return Err(was);
    }
    let now = seek(session, fd, offset, Whence::Set);
    if now < 0 {
        return Err(now);
    }
    Ok(was)
}

/// Sets the offset of a descriptor back, and returns the number of what was done meanwhile.
fn go_back(session: &mut Session, fd: u32, was: i64, number: i64) -> i64
    ensures { GoesBack serves session.old (record { fd = fd; was = was; number = number }) result session.new }
{
    let back = seek(session, fd, was, Whence::Set);
    if back < 0 { back } else { number }
}

/// Reads into the buffer at an offset. A read of no bytes goes before, so that the errors of a read come before those of a seek.
pub(crate) fn read_at(session: &mut Session, fd: u32, buffer: &mut [u8], offset: i64) -> i64
    ensures { IsReadAt serves session.old (placed_read fd offset buffer.old result buffer.new) session.new }
{
    let none = read(session, fd, &mut []);
    if none < 0 {
        return none;
    }
    match go_to(session, fd, offset) {
        Ok(was) => {
            let number = read(session, fd, buffer);
            go_back(session, fd, was, number)
        }
        Err(number) => number,
    }
}

/// Writes bytes at an offset. A write of no bytes goes before, so that the errors of a write come before those of a seek.
pub(crate) fn write_at(
    session: &mut Session,
    moment: u64,
    fd: u32,
    bytes: &[u8],
    offset: i64,
) -> i64
    ensures { IsWrittenAt serves session.old (placed_write moment fd offset bytes.now) result session.new }
{
    let none = write(session, moment, fd, &[]);
    if none < 0 {
        return none;
    }
    match go_to(session, fd, offset) {
        Ok(was) => {
            let number = write(session, moment, fd, bytes);
            go_back(session, fd, was, number)
        }
        Err(number) => number,
    }
}

/// Reads at an offset: puts the bytes at the front of the buffer and returns how many. The descriptor's offset stays.
#[unsafe(no_mangle)]
pub extern "C" fn flash_pread(slot: &mut Slot, fd: u32, buffer: &mut [u8], offset: i64) -> i64
    ensures { ReadsAtIn serves slot.old
        (placed_read fd offset buffer.old result buffer.new) slot.new }
{
    if !slot.is_full() {
        return i64::from(error_number(Errno::EINVAL));
    }
    read_at(slot.session(), fd, buffer, offset)
}

/// Writes bytes at an offset and returns how many, as `flash_write`. The descriptor's offset stays.
#[unsafe(no_mangle)]
pub extern "C" fn flash_pwrite(
    slot: &mut Slot,
    fd: u32,
    bytes: &[u8],
    offset: i64,
    moment: u64,
) -> i64
    ensures { WritesAtIn serves slot.old
        (placed_write moment fd offset bytes.now) result slot.new }
{
    if !slot.is_full() {
        return i64::from(error_number(Errno::EINVAL));
    }
    write_at(slot.session(), moment, fd, bytes, offset)
}
