// Changes of maps: each makes a copy of the objects, changed.
ghost use Rattle.std.specs.Prelude.{◌≡◌, Some, IfOk, OnOk};
ghost use Rattle.std.specs.FinMap as map;
ghost use Rattle.posix_profile.specs.Changes.{without_name, written};
ghost use Rattle.object_store.specs.Changes.{empty_object, made, with_moved, without};
ghost use Rattle.object_store.specs.Facts.{bytes_of};
ghost use Rattle.object_store.specs.declared.change.ObjectChange.TheVariants as changes;
ghost use Rattle.plain_volume.specs.PlainState.{object_of, objects_in};

use crate::state::change::{add_object, put_name, remove_name, resized, written};
use crate::state::object::{EntryMap, ObjectMap, PlainObject};
use crate::state::table::{copy_bytes, copy_objects, object_at, put_object};
use object_store::{DirectoryEntry, ObjectChange};
use posix_profile::Kind;
use std::alloc::{AllocError, Global};

/// Offsets and lengths past this are not tried.
const LIMIT: u64 = 1 << 61;

/// A new object.
fn empty_object(alloc: Global, kind: Kind, moment: u64) -> PlainObject
    ensures { object_of result ≡ empty_object kind moment }
{
    match kind {
        Kind::File => PlainObject::File {
            moment,
            bytes: Vec::new(alloc),
        },
        Kind::Directory => PlainObject::Directory {
            moment,
            entries: EntryMap::new(alloc),
        },
    }
}

/// Takes an object away.
pub(crate) fn forget(objects: &mut ObjectMap, number: u64)
    ensures { objects_in objects.new ≡ map.remove (objects_in objects.old) number }
{
    let _count = objects.len();
    let _ = objects.remove(&number);
}

/// Takes the object away that is reported.
fn drop_reported(objects: &mut ObjectMap, dropped: Option<u64>)
    ensures { objects_in objects.new ≡ without dropped (objects_in objects.old) }
{
    if let Some(number) = dropped {
        forget(objects, number);
    }
}

/// A copy of the bytes of an object; nothing but a file has any.
fn bytes_in(alloc: Global, object: &PlainObject) -> Result<Vec<u8>, AllocError>
    ensures { IfOk result (λ copy. copy.items ≡ bytes_of (Some (object_of object.now))) }
{
    match object {
        PlainObject::File { bytes, .. } => copy_bytes(bytes),
        PlainObject::Directory { .. } => Ok(Vec::new(alloc)),
    }
}

/// A copy of the bytes at a number.
pub(crate) fn bytes_at(
    alloc: Global,
    objects: &ObjectMap,
    number: u64,
) -> Result<Vec<u8>, AllocError>
    ensures { IfOk result (λ copy. copy.items ≡ bytes_of (map.get (objects_in objects.now) number)) }
{
    match object_at(objects, number) {
        Some(object) => bytes_in(alloc, object),
        None => Ok(Vec::new(alloc)),
    }
}

/// The bytes with others written at the offset; past the limit memory is refused.
fn spliced(alloc: Global, bytes: &[u8], offset: u64, added: &[u8]) -> Result<Vec<u8>, AllocError>
    ensures { IfOk result (λ new. new.items ≡ written bytes.now offset added.now) }
{
    if offset > LIMIT {
        return Err(AllocError);
    }
    if added.len() as u64 > LIMIT {
        return Err(AllocError);
    }
    written(alloc, bytes, offset as usize, added)
}

/// Writes bytes of a file.
fn write(
    alloc: Global,
    objects: &mut ObjectMap,
    number: u64,
    offset: u64,
    added: &[u8],
    moment: u64,
) -> Result<(), AllocError>
    ensures { OnOk result (objects_in objects.new ≡ made (objects_in objects.old) (changes.Write number offset added.entry moment)) }
{
    let before = bytes_at(alloc, objects, number)?;
    let bytes = spliced(alloc, &before, offset, added)?;
    put_object(objects, number, PlainObject::File { moment, bytes })
}

/// Cuts or grows a file.
fn resize(
    alloc: Global,
    objects: &mut ObjectMap,
    number: u64,
    length: u64,
    moment: u64,
) -> Result<(), AllocError>
    ensures { OnOk result (objects_in objects.new ≡ made (objects_in objects.old) (changes.Resize number length moment)) }
{
    let before = bytes_at(alloc, objects, number)?;
    let bytes = resized(alloc, &before, length as usize)?;
    put_object(objects, number, PlainObject::File { moment, bytes })
}

/// Gives an object another name, and takes the object away that is reported.
fn move_name(
    alloc: Global,
    objects: &mut ObjectMap,
    from: DirectoryEntry<'_>,
    to: DirectoryEntry<'_>,
    number: u64,
    dropped: Option<u64>,
    moment: u64,
) -> Result<(), AllocError>
    ensures { OnOk result (objects_in objects.new ≡ without dropped (with_moved (objects_in objects.old) moment from.entry to.entry number)) }
{
    remove_name(alloc, objects, moment, from.directory, from.name)?;
    put_name(alloc, objects, moment, to.directory, to.name, number)?;
    drop_reported(objects, dropped);
    Ok(())
}

/// Makes an object without content, and its name.
fn create(
    alloc: Global,
    objects: &mut ObjectMap,
    entry: DirectoryEntry<'_>,
    kind: Kind,
    moment: u64,
) -> Result<(), AllocError>
    ensures { OnOk result (objects_in objects.new ≡ made (objects_in objects.old) (changes.Create entry.entry kind moment)) }
{
    let object = empty_object(alloc, kind, moment);
    add_object(alloc, objects, moment, entry.directory, entry.name, object)
}

/// Gives an object a further name.
fn name(
    alloc: Global,
    objects: &mut ObjectMap,
    entry: DirectoryEntry<'_>,
    number: u64,
    moment: u64,
) -> Result<(), AllocError>
    ensures { OnOk result (objects_in objects.new ≡ made (objects_in objects.old) (changes.Name entry.entry number moment)) }
{
    put_name(alloc, objects, moment, entry.directory, entry.name, number)
}

/// Takes a name away, and the object that is returned.
fn remove(
    alloc: Global,
    objects: &mut ObjectMap,
    entry: DirectoryEntry<'_>,
    dropped: Option<u64>,
    moment: u64,
) -> Result<(), AllocError>
    ensures { OnOk result (objects_in objects.new ≡ without dropped (without_name (objects_in objects.old) moment entry.entry.directory entry.entry.name.now)) }
{
    remove_name(alloc, objects, moment, entry.directory, entry.name)?;
    drop_reported(objects, dropped);
    Ok(())
}

/// Changes the objects. An `Err` leaves some of the change.
fn change(
    alloc: Global,
    objects: &mut ObjectMap,
    change: &ObjectChange<'_>,
) -> Result<(), AllocError>
    ensures { OnOk result (objects_in objects.new ≡ made (objects_in objects.old) change.now) }
{
    match change {
        ObjectChange::Create {
            entry,
            kind,
            moment,
        } => create(alloc, objects, *entry, *kind, *moment),
        ObjectChange::Name {
            entry,
            number,
            moment,
        } => name(alloc, objects, *entry, *number, *moment),
        ObjectChange::Remove {
            entry,
            dropped,
            moment,
            ..
        } => remove(alloc, objects, *entry, *dropped, *moment),
        ObjectChange::Move {
            from,
            to,
            number,
            dropped,
            moment,
            ..
        } => move_name(alloc, objects, *from, *to, *number, *dropped, *moment),
        ObjectChange::Write {
            number,
            offset,
            bytes,
            moment,
        } => write(alloc, objects, *number, *offset, bytes, *moment),
        ObjectChange::Resize {
            number,
            length,
            moment,
        } => resize(alloc, objects, *number, *length, *moment),
        ObjectChange::Forget { number } => {
            forget(objects, *number);
            Ok(())
        }
    }
}

/// A copy of the objects, changed.
pub(crate) fn after_change(
    alloc: Global,
    old: &ObjectMap,
    issued: &ObjectChange<'_>,
) -> Result<ObjectMap, AllocError>
    ensures { IfOk result (λ new. objects_in new ≡ made (objects_in old.now) issued.now) }
{
    let mut objects = copy_objects(old)?;
    change(alloc, &mut objects, issued)?;
    Ok(objects)
}
