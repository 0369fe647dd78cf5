// The commands that fill the caller's memory: read, stat, list and the room of the volume.
ghost use Rattle.flash_c.specs.Describing.{DescribesIn};
ghost use Rattle.flash_c.specs.Questions.{IsRead, IsStat, IsListed, IsRoom, listing_of};
ghost use Rattle.flash_c.specs.Serving.{describes, serves};
ghost use Rattle.flash_c.specs.Slots.{Replied};

use crate::filling::{FlashInfo, FlashSpace};
use crate::numbers::error_number;
use crate::session::{Session, fstat, list, read, space, stat};
use crate::slot::Slot;
use posix_calls::Errno;

/// Reads at the descriptor's offset: puts the bytes at the front of the buffer and returns how many.
#[unsafe(no_mangle)]
pub extern "C" fn flash_read(slot: &mut Slot, fd: u32, buffer: &mut [u8]) -> i64
    ensures { IsRead (Replied serves) slot.old (record { fd = fd; before = buffer.old; number = result; after = buffer.new }) slot.new }
{
    if !slot.is_full() {
        return i64::from(error_number(Errno::EINVAL));
    }
    read(slot.session(), fd, buffer)
}

/// Reports what a path leads to.
#[unsafe(no_mangle)]
pub extern "C" fn flash_stat(slot: &mut Slot, path: &[u8], info: &mut FlashInfo) -> i32
    ensures { IsStat (Replied serves) slot.old (record { path = path.now; before = info.old; number = result; after = info.new }) slot.new }
{
    if !slot.is_full() {
        return error_number(Errno::EINVAL);
    }
    stat(slot.session(), path, info)
}

/// Reports what a descriptor refers to.
#[unsafe(no_mangle)]
pub extern "C" fn flash_fstat(slot: &mut Slot, fd: u32, info: &mut FlashInfo) -> i32
    ensures { DescribesIn describes slot.old (record { fd = fd; before = info.old; number = result; after = info.new }) slot.new }
{
    if !slot.is_full() {
        return error_number(Errno::EINVAL);
    }
    fstat(slot.session(), fd, info)
}

/// Puts the names of a directory in the buffer, each with a zero after it, and returns how many bytes they take. ERANGE: the
/// buffer has no room for them, and stays.
#[unsafe(no_mangle)]
pub extern "C" fn flash_list(slot: &mut Slot, path: &[u8], buffer: &mut [u8]) -> i64
    ensures { IsListed (Replied serves) slot.old (listing_of path.now buffer.old result buffer.new) slot.new }
{
    if !slot.is_full() {
        return i64::from(error_number(Errno::EINVAL));
    }
    list(slot.session(), path, buffer)
}

/// Reports the room of the volume.
#[unsafe(no_mangle)]
pub extern "C" fn flash_space(slot: &mut Slot, room: &mut FlashSpace) -> i32
    ensures { IsRoom (Replied serves) slot.old (record { before = room.old; number = result; after = room.new }) slot.new }
{
    if !slot.is_full() {
        return error_number(Errno::EINVAL);
    }
    space(slot.session(), room)
}
