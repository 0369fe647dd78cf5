// Whether maps hold the same.
ghost use Rattle.std.specs.Prelude.{◌≡◌, ◌↔◌, IsTrue};
ghost use Rattle.name_map.specs.NameEntries.{entries_in};
ghost use Rattle.plain_volume.specs.PlainState.{object_of, objects_in};

use crate::state::object::{EntryMap, ObjectMap, PlainObject};

/// Whether both lead the same names to the same numbers.
fn same_entries(entries: &EntryMap, others: &EntryMap) -> bool
    ensures { IsTrue result ↔ (entries_in entries.now ≡ entries_in others.now) }
{
    entries.len() == others.len() && entries == others
}

/// Whether both are the same object.
fn same_object(object: &PlainObject, other: &PlainObject) -> bool
    ensures { IsTrue result ↔ (object_of object.now ≡ object_of other.now) }
{
    match (object, other) {
        (
            PlainObject::File { moment, bytes },
            PlainObject::File {
                moment: other_moment,
                bytes: other_bytes,
            },
        ) => moment == other_moment && bytes.as_slice() == other_bytes.as_slice(),
        (
            PlainObject::Directory { moment, entries },
            PlainObject::Directory {
                moment: other_moment,
                entries: other_entries,
            },
        ) => moment == other_moment && same_entries(entries, other_entries),
        _ => false,
    }
}

/// Whether both have the same objects at the same numbers.
pub fn same_objects(objects: &ObjectMap, others: &ObjectMap) -> bool
    ensures { IsTrue result ↔ (objects_in objects.now ≡ objects_in others.now) }
{
    let mut rest = others.iter();
    for (number, object) in objects.iter() {
        match rest.next() {
            Some((other_number, other)) => {
                if number != other_number || !same_object(object, other) {
                    return false;
                }
            }
            None => return false,
        }
    }
    rest.next().is_none()
}
