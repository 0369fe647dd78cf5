// What is left of a damaged volume whose device is at the other end of a port.
ghost use Rattle.std.specs.Prelude.{◌≡◌, false};
ghost use Rattle.flash_c.specs.SalvageSlots.{ListsIn, LostIn, OpensAt, OpensSlot, OrphansIn, ReadsIn, StatsIn};
ghost use Rattle.flash_c.specs.Salvaging.{list_of, read_of};

use crate::asking::{list_left, lost_left, open_left, orphans_left, read_left, stat_left};
use crate::numbers::{error_number, open_number};
use crate::port::Port;
use crate::salvage_session::SalvageSession;
use crate::salvage_slot::SalvageSlot;
use crate::salvaged::{FlashPlace, FlashSalvaged};
use port_nand::{FilePort, open};
use posix_calls::Errno;
use std::alloc::Global;

/// How many bytes a salvage takes in the memory of a slot, at a multiple of 16.
#[unsafe(no_mangle)]
pub extern "C" fn flash_salvage_slot_bytes() -> usize {
    size_of::<SalvageSession>()
}

/// Opens a device and what is left of its volume in an empty slot. The device is only read.
#[unsafe(no_mangle)]
pub extern "C" fn flash_salvage_open(alloc: Global, slot: &mut SalvageSlot, port: Port) -> i32
    ensures fills { OpensSlot slot.old result slot.new }
    ensures opens { slot.old.full ≡ false → OpensAt result slot.new.session.salvage }
{
    let file = port.into_file();
    if slot.is_full() {
        return error_number(Errno::EBUSY);
    }
    let device = match open(alloc, FilePort::new(file)) {
        Ok(device) => device,
        Err(fault) => return open_number(fault),
    };
    match open_left(alloc, device) {
        Ok(salvage) => {
            slot.put(SalvageSession { salvage });
            0
        }
        Err((_device, number)) => number,
    }
}

/// Empties the slot.
#[unsafe(no_mangle)]
pub extern "C" fn flash_salvage_close(slot: &mut SalvageSlot)
    ensures { slot.new.full ≡ false }
{
    if slot.is_full() {
        let _session = slot.take();
    }
}

/// Reports what the header of an object says.
#[unsafe(no_mangle)]
pub extern "C" fn flash_salvage_stat(
    slot: &mut SalvageSlot,
    object: u64,
    info: &mut FlashSalvaged,
) -> i32
    ensures { StatsIn slot.old (record { object = object; before = info.old; number = result; after = info.new }) slot.new }
{
    if !slot.is_full() {
        return error_number(Errno::EINVAL);
    }
    stat_left(&mut slot.session().salvage, object, info)
}

/// Puts the names of a directory whose slots read in the buffer, in the order of the slots: the object of each in eight bytes, the
/// lowest first, the name, and a zero. Returns how many bytes they take, and sets `lost` to how many slots do not read. ERANGE: the
/// buffer has no room for them, and stays.
#[unsafe(no_mangle)]
pub extern "C" fn flash_salvage_list(
    alloc: Global,
    slot: &mut SalvageSlot,
    directory: u64,
    buffer: &mut [u8],
    lost: &mut u64,
) -> i64
    ensures { ListsIn slot.old (list_of directory (buffer.old, lost.old) result (buffer.new, lost.new)) slot.new }
{
    if !slot.is_full() {
        return i64::from(error_number(Errno::EINVAL));
    }
    list_left(alloc, &mut slot.session().salvage, directory, buffer, lost)
}

/// Reads bytes of a file at an offset, up to the end of the page that has the first: puts them at the front of the buffer and
/// returns how many. ENODATA: that page is lost.
#[unsafe(no_mangle)]
pub extern "C" fn flash_salvage_read(
    slot: &mut SalvageSlot,
    file: u64,
    offset: u64,
    buffer: &mut [u8],
) -> i64
    ensures { ReadsIn slot.old (read_of file offset buffer.old result buffer.new) slot.new }
{
    if !slot.is_full() {
        return i64::from(error_number(Errno::EINVAL));
    }
    read_left(&mut slot.session().salvage, file, offset, buffer)
}

/// Puts the objects whose header reads and that no directory names in the slice, as many as it has room for, and returns how many
/// there are.
#[unsafe(no_mangle)]
pub extern "C" fn flash_salvage_orphans(
    alloc: Global,
    slot: &mut SalvageSlot,
    objects: &mut [u64],
) -> i64
    ensures { OrphansIn slot.old (record { before = objects.old; number = result; after = objects.new }) slot.new }
{
    if !slot.is_full() {
        return i64::from(error_number(Errno::EINVAL));
    }
    orphans_left(alloc, &mut slot.session().salvage, objects)
}

/// Puts the places of the pages that were found lost in the slice, as many as it has room for, and returns how many there are.
#[unsafe(no_mangle)]
pub extern "C" fn flash_salvage_lost(slot: &mut SalvageSlot, places: &mut [FlashPlace]) -> i64
    ensures { LostIn slot.old (record { before = places.old; number = result; after = places.new }) slot.new }
{
    if !slot.is_full() {
        return i64::from(error_number(Errno::EINVAL));
    }
    lost_left(&slot.session().salvage, places)
}
