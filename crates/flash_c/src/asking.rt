// What is left of a volume, over any device: what each question to a salvage returns.
ghost use Rattle.std.specs.Prelude.{◌≡◌, IfOk, IfErr};
ghost use Rattle.salvage.specs.StateOf.{lost_in, state};
ghost use Rattle.flash_c.specs.Numbers.{error_number};
ghost use Rattle.flash_c.specs.SalvageSlots.{IsOpened, NotOpened};
ghost use Rattle.flash_c.specs.Salvaging.{IsLostList, IsMissing, IsObjectList, IsObjectRead, IsObjectStat, IsOrphanList, list_of, read_of};

use crate::listing::put_listing;
use crate::numbers::{LOST_PAGE, error_number, salvage_number, signed};
use crate::salvaged::{FlashPlace, FlashSalvaged, put_object, put_objects, put_places};
use nand_model::Nand;
use posix_calls::Errno;
use salvage::{Part, Salvage};
use std::alloc::Global;

/// Opens what is left on a device. After a fault the device is given back with the fault's number.
pub(crate) fn open_left<N: Nand>(alloc: Global, device: N) -> Result<Salvage<N>, (N, i32)>
    ensures opened { IfOk result (λ s. IsOpened (N.state device) s) }
    ensures fault { IfErr result (λ back. NotOpened (N.state device) (N.state back.0) back.1) }
{
    match Salvage::open(alloc, device) {
        Ok(left) => Ok(left),
        Err((device, fault)) => Err((device, salvage_number(fault))),
    }
}

/// Reports what the header of an object says in the struct. ENOENT: no header of it reads.
pub(crate) fn stat_left<N: Nand>(
    left: &mut Salvage<N>,
    object: u64,
    info: &mut FlashSalvaged,
) -> i32
    ensures { IsObjectStat (record { object = object; before = info.old; number = result; after = info.new }) (state left.old) (state left.new) }
{
    put_object(info, left.stat(object))
}

/// Why an object is not listed or not read: ENOENT where no header of it reads, and the other error where it is of the other kind.
fn missing<N: Nand>(left: &mut Salvage<N>, object: u64, other: Errno) -> i32
    ensures { IsMissing object other (state left.old) result (state left.new) }
{
    match left.stat(object) {
        Ok(Some(_)) => error_number(other),
        Ok(None) => error_number(Errno::ENOENT),
        Err(fault) => salvage_number(fault),
    }
}

/// Puts the names of a directory whose slots read in the buffer, each with its object before it and a zero after it, and how many
/// slots do not read in `lost`.
pub(crate) fn list_left<N: Nand>(
    alloc: Global,
    left: &mut Salvage<N>,
    directory: u64,
    buffer: &mut [u8],
    lost: &mut u64,
) -> i64
    ensures { IsObjectList (list_of directory (buffer.old, lost.old) result (buffer.new, lost.new)) (state left.old) (state left.new) }
{
    match left.list(alloc, directory) {
        Ok(Some(listing)) => {
            *lost = listing.lost;
            put_listing(buffer, &listing.names)
        }
        Ok(None) => i64::from(missing(left, directory, Errno::ENOTDIR)),
        Err(fault) => i64::from(salvage_number(fault)),
    }
}

/// Reads bytes of a file from an offset on into the buffer, up to the end of the page that has the first. ENODATA: that page is lost.
pub(crate) fn read_left<N: Nand>(
    left: &mut Salvage<N>,
    file: u64,
    offset: u64,
    buffer: &mut [u8],
) -> i64
    ensures { IsObjectRead (read_of file offset buffer.old result buffer.new) (state left.old) (state left.new) }
{
    match left.read_at(file, offset, buffer) {
        Ok(Some(Part::Bytes(count))) => signed(count as u64),
        Ok(Some(Part::Lost(_))) => LOST_PAGE,
        Ok(None) => i64::from(missing(left, file, Errno::EISDIR)),
        Err(fault) => i64::from(salvage_number(fault)),
    }
}

/// Puts the objects whose header reads and that no directory names in the slice, as many as it has room for, and returns how many
/// there are.
pub(crate) fn orphans_left<N: Nand>(
    alloc: Global,
    left: &mut Salvage<N>,
    objects: &mut [u64],
) -> i64
    ensures { IsOrphanList (record { before = objects.old; number = result; after = objects.new }) (state left.old) (state left.new) }
{
    match left.orphans(alloc) {
        Ok(list) => {
            put_objects(objects, &list);
            signed(list.len() as u64)
        }
        Err(fault) => i64::from(salvage_number(fault)),
    }
}

/// Puts the places of the pages that were found lost in the slice, as many as it has room for, and returns how many there are.
pub(crate) fn lost_left<N: Nand>(left: &Salvage<N>, places: &mut [FlashPlace]) -> i64
    ensures { IsLostList (lost_in left.now) (record { before = places.old; number = result; after = places.new }) }
{
    let lost = left.lost();
    put_places(places, lost);
    signed(lost.len() as u64)
}
