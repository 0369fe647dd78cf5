// What a salvage puts in the caller's structs and slices.
ghost use Rattle.std.specs.Prelude.{◌≡◌};
ghost use Rattle.flash_c.specs.Salvaged.{front_filled, info_filled, info_number, object_kind_number, places_of};

use crate::numbers::{error_number, salvage_number};
use page_tags::ObjectKind;
use posix_calls::Errno;
use salvage::{LostPlace, ObjectInfo, SalvageFault};

/// What the header of an object says: `kind` is 1 for a file and 2 for a directory, `size` counts the bytes of a file or the
/// slots of a directory, `moment` is that of the last change.
#[repr(C)]
#[derive(Clone, Copy)]
pub struct FlashSalvaged {
    pub kind: u64,
    pub size: u64,
    pub moment: u64,
}

/// The place of a page: its block, and the page in the block.
#[repr(C)]
#[derive(Clone, Copy)]
pub struct FlashPlace {
    pub block: u32,
    pub page: u32,
}

fn object_kind_number(kind: ObjectKind) -> u64
    ensures { result ≡ object_kind_number kind }
{
    match kind {
        ObjectKind::File => 1,
        ObjectKind::Directory => 2,
    }
}

/// Puts what the header of an object says in the struct.
pub(crate) fn put_object(
    info: &mut FlashSalvaged,
    reported: Result<Option<ObjectInfo>, SalvageFault>,
) -> i32
    ensures number { result ≡ info_number reported }
    ensures info { info.new ≡ info_filled info.old reported }
{
    match reported {
        Ok(Some(said)) => {
            *info = FlashSalvaged {
                kind: object_kind_number(said.kind),
                size: said.length,
                moment: said.moment,
            };
            0
        }
        Ok(None) => error_number(Errno::ENOENT),
        Err(fault) => salvage_number(fault),
    }
}

/// Puts as many of the numbers of a list as there is room for at the front of the slice.
pub(crate) fn put_objects(objects: &mut [u64], list: &[u64])
    ensures { objects.new ≡ front_filled objects.old list.now }
{
    let count = objects.len().min(list.len());
    objects[..count].copy_from_slice(&list[..count]);
}

/// Puts as many of the places as there is room for at the front of the slice.
pub(crate) fn put_places(places: &mut [FlashPlace], lost: &[LostPlace])
    ensures { places.new ≡ front_filled places.old (places_of lost.now) }
{
    let count = places.len().min(lost.len());
    for i in 0..count {
        let LostPlace { block, page } = lost[i];
        places[i] = FlashPlace { block, page };
    }
}
