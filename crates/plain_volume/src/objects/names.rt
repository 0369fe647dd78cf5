// The names of a directory.
ghost use Rattle.std.specs.Prelude.{◌≡◌, IfOk};
ghost use Rattle.std.specs.FinMap as map;
ghost use Rattle.posix_profile.specs.State.{entries_of};
ghost use Rattle.name_map.specs.NameEntries.{entries_in};
ghost use Rattle.plain_volume.specs.PlainState.{objects_in};

use crate::state::change::copy_name;
use crate::state::object::{EntryMap, ObjectMap, PlainObject};
use crate::state::table::object_at;
use posix_profile::Bytes;
use std::alloc::{AllocError, Global};

/// The names of the entries, in the order of their bytes.
fn names_of(alloc: Global, entries: &EntryMap) -> Result<Vec<Bytes>, AllocError>
    ensures { IfOk result (λ names. names.items ≡ map.keys (entries_in entries.now)) }
{
    let mut names = Vec::new(alloc);
    for name in entries.keys() {
        let name = copy_name(alloc, name)?;
        names.push(Bytes::new(name))?;
    }
    Ok(names)
}

/// The names of a directory at this number; nothing else has any.
pub(crate) fn names_at(
    alloc: Global,
    objects: &ObjectMap,
    number: u64,
) -> Result<Vec<Bytes>, AllocError>
    ensures { IfOk result (λ names. names.items ≡ map.keys (entries_of (map.get (objects_in objects.now) number))) }
{
    match object_at(objects, number) {
        Some(PlainObject::Directory { entries, .. }) => names_of(alloc, entries),
        Some(PlainObject::File { .. }) => Ok(Vec::new(alloc)),
        None => Ok(Vec::new(alloc)),
    }
}
