// Format, mount and unmount of a volume whose device is at the other end of a port.
ghost use Rattle.std.specs.Prelude.{◌≡◌, ◌≤ℤ◌, ◌<ℤ◌, false, true, pos};
ghost use Rattle.posix_calls.specs.PageVolumes.{is_read_only, is_stopped};
ghost use Rattle.posix_calls.specs.Volumes.{over_pages};
ghost use Rattle.posix_profile.specs.declared.reply.Errno.TheVariants as errors;
ghost use Rattle.flash_c.specs.Numbers.{error_number};
ghost use Rattle.flash_c.specs.Slots.{FillsSlot, IsAsked};
ghost use Rattle.flash_c.specs.Volumes.{EndsAt, FormatsAt, MountsBy};
ghost use Rattle.flash_c.specs.declared.way.Way.TheVariants as ways;

use crate::devices::{abandon, end, format_device, mount_device};
use crate::numbers::{error_number, open_number};
use crate::port::Port;
use crate::session::{FileNand, FilePages, Session};
use crate::slot::Slot;
use crate::way::Way;
use nand_model::Nand;
use pages::Pages;
use port_nand::{FilePort, open};
use posix_calls::Errno;
use std::alloc::Global;
use std::fs::File;

/// The pages that the cache of `flash_mount` keeps.
const CACHE_PAGES: u32 = 16;

/// How many bytes a session takes in the memory of a slot, at a multiple of 16.
#[unsafe(no_mangle)]
pub extern "C" fn flash_slot_bytes() -> usize {
    size_of::<Session>()
}

/// How many bytes the number of a file takes.
#[unsafe(no_mangle)]
pub extern "C" fn flash_port_bytes() -> usize {
    size_of::<File>()
}

/// Makes a device a volume with so many spare blocks, whose root is empty. All that it held is lost.
#[unsafe(no_mangle)]
pub extern "C" fn flash_format(alloc: Global, port: Port, spare: u32) -> i32
    ensures formats { FormatsAt ⟦<FileNand as Nand>⟧.state spare result }
    ensures at_most_0 { result ≤ℤ pos 0 }
{
    match open(alloc, FilePort::new(port.into_file())) {
        Ok(device) => format_device(alloc, device, spare).1,
        Err(fault) => open_number(fault),
    }
}

/// Opens a device and mounts its volume in this way in an empty slot.
fn mount_in(alloc: Global, slot: &mut Slot, port: Port, cache_pages: u32, way: Way) -> i32
    ensures fills { FillsSlot slot.old result slot.new }
    ensures mounts { slot.old.full ≡ false → MountsBy way ⟦<FileNand as Nand>⟧.state ⟦<FilePages as Pages>⟧.state result (over_pages slot.new.session.volume) }
{
    let file = port.into_file();
    if slot.is_full() {
        return error_number(Errno::EBUSY);
    }
    let device = match open(alloc, FilePort::new(file)) {
        Ok(device) => device,
        Err(fault) => return open_number(fault),
    };
    match mount_device(alloc, device, cache_pages, way) {
        Ok(volume) => {
            slot.put(Session { volume });
            0
        }
        Err((_device, number)) => number,
    }
}

/// Mounts the volume of a device in an empty slot, with a cache of 16 pages.
#[unsafe(no_mangle)]
pub extern "C" fn flash_mount(alloc: Global, slot: &mut Slot, port: Port) -> i32
    ensures fills { FillsSlot slot.old result slot.new }
    ensures mounts { slot.old.full ≡ false → MountsBy ways.Shortest ⟦<FileNand as Nand>⟧.state ⟦<FilePages as Pages>⟧.state result (over_pages slot.new.session.volume) }
{
    mount_in(alloc, slot, port, CACHE_PAGES, Way::Shortest)
}

/// Mounts the volume of a device in an empty slot, with a cache of so many pages, of one at least.
#[unsafe(no_mangle)]
pub extern "C" fn flash_mount_with(
    alloc: Global,
    slot: &mut Slot,
    port: Port,
    cache_pages: u32,
) -> i32
    ensures fills { FillsSlot slot.old result slot.new }
    ensures mounts { slot.old.full ≡ false → MountsBy ways.Shortest ⟦<FileNand as Nand>⟧.state ⟦<FilePages as Pages>⟧.state result (over_pages slot.new.session.volume) }
{
    mount_in(alloc, slot, port, cache_pages, Way::Shortest)
}

/// Mounts the volume of a device as `flash_mount_with` does, but by the tags of all pages: for a device that another program than this
/// file system may have written.
#[unsafe(no_mangle)]
pub extern "C" fn flash_mount_scanned(
    alloc: Global,
    slot: &mut Slot,
    port: Port,
    cache_pages: u32,
) -> i32
    ensures fills { FillsSlot slot.old result slot.new }
    ensures mounts { slot.old.full ≡ false → MountsBy ways.AllTags ⟦<FileNand as Nand>⟧.state ⟦<FilePages as Pages>⟧.state result (over_pages slot.new.session.volume) }
{
    mount_in(alloc, slot, port, cache_pages, Way::AllTags)
}

/// Commits what was accepted, and empties the slot.
#[unsafe(no_mangle)]
pub extern "C" fn flash_unmount(slot: &mut Slot) -> i32
    ensures empties { slot.new.full ≡ false }
    ensures ended { slot.old.full ≡ true → EndsAt ⟦<FileNand as Nand>⟧.state ⟦<FilePages as Pages>⟧.state (over_pages slot.old.session.volume) result }
    ensures empty { slot.old.full ≡ false → result ≡ error_number errors.EINVAL }
{
    if !slot.is_full() {
        return error_number(Errno::EINVAL);
    }
    end(slot.take().volume).1
}

/// Empties the slot and commits nothing, as if power were lost.
#[unsafe(no_mangle)]
pub extern "C" fn flash_abandon(slot: &mut Slot)
    ensures { slot.new.full ≡ false }
{
    if slot.is_full() {
        let _device = abandon(slot.take().volume);
    }
}

/// Whether commands that would change the volume are refused: 1 is yes, 0 no.
#[unsafe(no_mangle)]
pub extern "C" fn flash_read_only(slot: &mut Slot) -> i32
    ensures { IsAsked slot.old (is_read_only (over_pages slot.old.session.volume)) result slot.new }
{
    if !slot.is_full() {
        return error_number(Errno::EINVAL);
    }
    i32::from(slot.session().volume.read_only())
}

/// Whether the volume is stopped, and answers EIO to each command: 1 is yes, 0 no.
#[unsafe(no_mangle)]
pub extern "C" fn flash_stopped(slot: &mut Slot) -> i32
    ensures { IsAsked slot.old (is_stopped (over_pages slot.old.session.volume)) result slot.new }
{
    if !slot.is_full() {
        return error_number(Errno::EINVAL);
    }
    i32::from(slot.session().volume.stopped())
}
