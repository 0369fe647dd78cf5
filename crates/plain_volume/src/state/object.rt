// What the maps hold.
ghost use Rattle.std.specs.Prelude.{◌≡◌};

use crate::state::table::{copy_bytes, copy_entries};
use std::alloc::AllocError;
use std::collections::BTreeMap;

/// The bytes of a name. Names are in the order of their bytes.
pub type EntryName = Vec<u8>;

/// From names to the numbers of objects.
pub type EntryMap = BTreeMap<EntryName, u64>;

/// From numbers to objects.
pub type ObjectMap = BTreeMap<u64, PlainObject>;

/// A file or a directory, with the moment of its last change.
#[derive(Drop, Debug)]
pub enum PlainObject {
    File { moment: u64, bytes: Vec<u8> },
    Directory { moment: u64, entries: EntryMap },
}

impl Clone for PlainObject {
    ghost use Rattle.plain_volume.specs.PlainState.{object_of};

    ghost is_clone = { λ x y. object_of y ≡ object_of x };

    fn clone(&self) -> Result<PlainObject, AllocError> {
        Ok(match self {
            PlainObject::File { moment, bytes } => PlainObject::File {
                moment: *moment,
                bytes: copy_bytes(bytes)?,
            },
            PlainObject::Directory { moment, entries } => PlainObject::Directory {
                moment: *moment,
                entries: copy_entries(entries)?,
            },
        })
    }
}
