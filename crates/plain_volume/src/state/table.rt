// Objects and entries by key.
ghost use Rattle.std.specs.Prelude.{◌≡◌, not, OnOk, IfOk};
ghost use Rattle.std.specs.Option.{option_map};
ghost use Rattle.std.specs.FinMap as map;
ghost use Rattle.name_map.specs.NameEntries.{entries_in};
ghost use Rattle.plain_volume.specs.PlainState.{object_of, objects_in};

use crate::state::object::{EntryMap, ObjectMap, PlainObject};
use std::alloc::AllocError;

/// The object of this number.
pub fn object_at(objects: &ObjectMap, number: u64) -> Option<&PlainObject>
    ensures { option_map (λ x. object_of x.now) result ≡ map.get (objects_in objects.now) number }
{
    objects.get(&number)
}

/// Whether no object has this number.
pub(crate) fn is_free(objects: &ObjectMap, number: u64) -> bool
    ensures { result ≡ not (map.contains_key (objects_in objects.now) number) }
{
    !objects.contains_key(&number)
}

/// Puts an object at a number.
pub fn put_object(
    objects: &mut ObjectMap,
    number: u64,
    object: PlainObject,
) -> Result<(), AllocError>
    ensures { OnOk result (objects_in objects.new ≡ map.insert (objects_in objects.old) number (object_of object)) }
{
    objects.insert(number, object)?;
    Ok(())
}

/// A copy of the objects.
pub fn copy_objects(objects: &ObjectMap) -> Result<ObjectMap, AllocError>
    ensures { IfOk result (λ copy. objects_in copy ≡ objects_in objects.now) }
{
    objects.clone()
}

/// A copy of the bytes.
pub fn copy_bytes(bytes: &Vec<u8>) -> Result<Vec<u8>, AllocError>
    ensures { IfOk result (λ copy. copy.items ≡ bytes.now.items) }
{
    bytes.clone()
}

/// A copy of the entries.
pub(crate) fn copy_entries(entries: &EntryMap) -> Result<EntryMap, AllocError>
    ensures { IfOk result (λ copy. entries_in copy ≡ entries_in entries.now) }
{
    entries.clone()
}
