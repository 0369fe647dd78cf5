// What replies put in the caller's structs.
ghost use Rattle.std.specs.Prelude.{◌≡◌};
ghost use Rattle.flash_c.specs.Filling.{kind_number};
ghost use Rattle.flash_c.specs.Filling.{info_number, info_filled, space_number, space_filled};

use crate::numbers::error_number;
use posix_calls::{Errno, Kind, Reply};

/// What is reported of an object: `kind` is 1 for a file and 2 for a directory, `size` counts the bytes of a file.
#[repr(C)]
#[derive(Clone, Copy)]
pub struct FlashInfo {
    pub kind: u64,
    pub object: u64,
    pub links: u64,
    pub size: u64,
    pub moment: u64,
}

/// The room of a volume: `total` and `free` count units of `unit` bytes.
#[repr(C)]
#[derive(Clone, Copy)]
pub struct FlashSpace {
    pub unit: u64,
    pub total: u64,
    pub free: u64,
}

fn kind_number(kind: Kind) -> u64
    ensures { result ≡ kind_number kind }
{
    match kind {
        Kind::File => 1,
        Kind::Directory => 2,
    }
}

/// Puts what is reported of an object in the struct.
pub(crate) fn put_info(info: &mut FlashInfo, reply: &Reply) -> i32
    ensures number { result ≡ info_number reply.now }
    ensures info { info.new ≡ info_filled info.old reply.now }
{
    match reply {
        Reply::Info(reported) => {
            *info = FlashInfo {
                kind: kind_number(reported.kind),
                object: reported.object,
                links: reported.links,
                size: reported.size,
                moment: reported.moment,
            };
            0
        }
        Reply::Error(error) => error_number(*error),
        _ => error_number(Errno::EIO),
    }
}

/// Puts the room of the volume in the struct.
pub(crate) fn put_space(space: &mut FlashSpace, reply: &Reply) -> i32
    ensures number { result ≡ space_number reply.now }
    ensures space { space.new ≡ space_filled space.old reply.now }
{
    match reply {
        Reply::SpaceInfo(reported) => {
            *space = FlashSpace {
                unit: reported.unit,
                total: reported.total,
                free: reported.free,
            };
            0
        }
        Reply::Error(error) => error_number(*error),
        _ => error_number(Errno::EIO),
    }
}
