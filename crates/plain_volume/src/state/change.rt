// How commands change objects.
ghost use Rattle.std.specs.Prelude.{◌≡◌, ◌<◌, ◌+◌, ◌^◌, length, Some, IfOk, OnOk};
ghost use Rattle.std.specs.FinMap as map;
ghost use Rattle.posix_profile.specs.State.{entries_of};
ghost use Rattle.posix_profile.specs.Changes.{new_number, with_name, without_name, with_object, written, resized};
ghost use Rattle.name_map.specs.NameEntries.{entries_in};
ghost use Rattle.plain_volume.specs.PlainState.{object_of, objects_in};

use crate::state::object::{EntryMap, ObjectMap, PlainObject};
use crate::state::table::{copy_entries, is_free, object_at, put_object};
use std::alloc::{AllocError, Global};

/// The least number from 2 up that no object has.
pub fn new_number(objects: &ObjectMap) -> u64
    ensures { result ≡ new_number (objects_in objects.now) }
{
    let end = objects.len() as u64 + 3;
    for number in 2..end {
        if is_free(objects, number) {
            return number;
        }
    }
    0
}

/// A copy of the entries of a directory; a file has none.
fn entries_of(alloc: Global, object: &PlainObject) -> Result<EntryMap, AllocError>
    ensures { IfOk result (λ entries. entries_in entries ≡ entries_of (Some (object_of object.now))) }
{
    match object {
        PlainObject::File { .. } => Ok(EntryMap::new(alloc)),
        PlainObject::Directory { entries, .. } => copy_entries(entries),
    }
}

/// A copy of the entries of a directory at this number; nothing else has any.
fn entries_at(alloc: Global, objects: &ObjectMap, directory: u64) -> Result<EntryMap, AllocError>
    ensures { IfOk result (λ entries. entries_in entries ≡ entries_of (map.get (objects_in objects.now) directory)) }
{
    match object_at(objects, directory) {
        Some(object) => entries_of(alloc, object),
        None => Ok(EntryMap::new(alloc)),
    }
}

/// A copy of the bytes.
pub fn copy_name(alloc: Global, bytes: &[u8]) -> Result<Vec<u8>, AllocError>
    ensures { IfOk result (λ copy. copy.items ≡ bytes.now) }
{
    Vec::from_slice(alloc, bytes)
}

/// Names an object, in place of what had the name.
pub fn put_name(
    alloc: Global,
    objects: &mut ObjectMap,
    moment: u64,
    directory: u64,
    name: &[u8],
    number: u64,
) -> Result<(), AllocError>
    ensures { OnOk result (objects_in objects.new ≡ with_name (objects_in objects.old) moment directory name.now number) }
{
    let mut entries = entries_at(alloc, objects, directory)?;
    let name = copy_name(alloc, name)?;
    entries.insert(name, number)?;
    put_object(
        objects,
        directory,
        PlainObject::Directory { moment, entries },
    )
}

/// Takes a name away.
pub fn remove_name(
    alloc: Global,
    objects: &mut ObjectMap,
    moment: u64,
    directory: u64,
    name: &[u8],
) -> Result<(), AllocError>
    ensures { OnOk result (objects_in objects.new ≡ without_name (objects_in objects.old) moment directory name.now) }
{
    let mut entries = entries_at(alloc, objects, directory)?;
    let _count = entries.len();
    let _ = entries.remove(name);
    put_object(
        objects,
        directory,
        PlainObject::Directory { moment, entries },
    )
}

/// Adds an object under the least number that is free, and its name.
pub fn add_object(
    alloc: Global,
    objects: &mut ObjectMap,
    moment: u64,
    directory: u64,
    name: &[u8],
    object: PlainObject,
) -> Result<(), AllocError>
    ensures { OnOk result (objects_in objects.new ≡ with_object (objects_in objects.old) moment directory name.now (object_of object)) }
{
    let number = new_number(objects);
    put_object(objects, number, object)?;
    put_name(alloc, objects, moment, directory, name, number)
}

/// The bytes cut to the length, or grown to it with zeros.
pub fn resized(alloc: Global, bytes: &[u8], length: usize) -> Result<Vec<u8>, AllocError>
    ensures { IfOk result (λ new. new.items ≡ resized bytes.now length) }
{
    let committed = bytes.len().min(length);
    let mut new = bytes[..committed].to_vec(alloc)?;
    new.resize(length, 0)?;
    Ok(new)
}

/// The bytes with others written at the offset.
pub fn written(
    alloc: Global,
    bytes: &[u8],
    offset: usize,
    added: &[u8],
) -> Result<Vec<u8>, AllocError>
    requires { offset + length added.now < 2 ^ 63 }
    ensures { IfOk result (λ new. new.items ≡ written bytes.now offset added.now) }
{
    let mut new = resized(alloc, bytes, offset)?;
    new.extend_from_slice(added)?;
    let end = (offset + added.len()).min(bytes.len());
    new.extend_from_slice(&bytes[end..])?;
    Ok(new)
}
