// Which objects name which.
ghost use Rattle.std.specs.Prelude.{◌≡◌, ◌<◌, ◌^◌, length, Some, true, count_by};
ghost use Rattle.std.specs.FinMap as map;
ghost use Rattle.posix_profile.specs.State.{is_directory, entries_of};
ghost use Rattle.posix_profile.specs.Names.{has_entry_to, names_to, link_pairs, parent, is_named};
ghost use Rattle.posix_profile.specs.NameSteps.{info};
ghost use Rattle.posix_profile.specs.Charge.{fits};
ghost use Rattle.name_map.specs.NameEntries.{entries_in};
ghost use Rattle.plain_volume.specs.PlainState.{object_of, objects_in};
ghost use Rattle.volume_terms.specs.VolumeSizes.{sizes_of};

use crate::state::object::{EntryMap, ObjectMap, PlainObject};
use crate::state::table::object_at;
use posix_profile::{Info, Kind};
use volume_terms::{ROOT, VolumeSizes};

/// Whether a directory is at this number.
fn is_directory_at(objects: &ObjectMap, number: u64) -> bool
    ensures { result ≡ is_directory (map.get (objects_in objects.now) number) }
{
    match object_at(objects, number) {
        Some(object) => match object {
            PlainObject::File { .. } => false,
            PlainObject::Directory { .. } => true,
        },
        None => false,
    }
}

/// How many entries a directory has.
fn entry_count(object: &PlainObject) -> u64
    ensures { result ≡ map.len (entries_of (Some (object_of object.now))) }
{
    match object {
        PlainObject::File { .. } => 0,
        PlainObject::Directory { entries, .. } => entries.len() as u64,
    }
}

/// How many entries a directory at this number has.
pub fn entry_count_at(objects: &ObjectMap, number: u64) -> u64
    ensures { result ≡ map.len (entries_of (map.get (objects_in objects.now) number)) }
{
    match object_at(objects, number) {
        Some(object) => entry_count(object),
        None => 0,
    }
}

/// The object that a name of a directory leads to.
fn entry_of(object: &PlainObject, name: &[u8]) -> Option<u64>
    ensures { result ≡ map.get (entries_of (Some (object_of object.now))) name.now }
{
    match object {
        PlainObject::File { .. } => None,
        PlainObject::Directory { entries, .. } => entries.get(name).copied(),
    }
}

/// The object that a name leads to from a directory at this number.
pub fn entry_at(objects: &ObjectMap, directory: u64, name: &[u8]) -> Option<u64>
    ensures { result ≡ map.get (entries_of (map.get (objects_in objects.now) directory)) name.now }
{
    match object_at(objects, directory) {
        Some(object) => entry_of(object, name),
        None => None,
    }
}

/// Whether the object is a directory that names the number.
pub(crate) fn has_entry_to(object: &PlainObject, number: u64) -> bool
    ensures { result ≡ has_entry_to number (object_of object.now) }
{
    match object {
        PlainObject::File { .. } => false,
        PlainObject::Directory { entries, .. } => {
            for child in entries.values() {
                if number == *child {
                    return true;
                }
            }
            false
        }
    }
}

/// The directory that names the object, and the root where none does.
pub fn parent(objects: &ObjectMap, number: u64) -> u64
    ensures { result ≡ parent (objects_in objects.now) number }
{
    for (directory, object) in objects.iter() {
        if has_entry_to(object, number) {
            return *directory;
        }
    }
    ROOT
}

/// Whether some directory names the object.
pub fn is_named(objects: &ObjectMap, number: u64) -> bool
    ensures { result ≡ is_named (objects_in objects.now) number }
{
    for object in objects.values() {
        if has_entry_to(object, number) {
            return true;
        }
    }
    false
}

/// How many names of the object lead to the number, at most the greatest number of 64 bits.
fn names_to(object: &PlainObject, number: u64) -> u64
    ensures { result ≡ length (names_to number (object_of object.now)) }
{
    match object {
        PlainObject::File { .. } => 0,
        PlainObject::Directory { entries, .. } => {
            let mut count: u64 = 0;
            for child in entries.values() {
                if number == *child {
                    count += 1;
                }
            }
            count
        }
    }
}

/// The links of a file: the names that lead to it.
fn file_links(sizes: VolumeSizes, objects: &ObjectMap, number: u64) -> u64
    requires { fits (sizes_of sizes) (objects_in objects.now) ≡ true }
    ensures { result ≡ length (link_pairs (objects_in objects.now) number) }
{
    let mut count: u64 = 0;
    for object in objects.values() {
        count += names_to(object, number);
    }
    count
}

/// The subdirectories among the entries.
fn subdirectories(objects: &ObjectMap, entries: &EntryMap) -> u64
    ensures exact { result ≡ count_by (λ child. is_directory (map.get (objects_in objects.now) child)) (map.values (entries_in entries.now)) }
    ensures within_limit { result < 2 ^ 63 }
{
    let mut count: u64 = 0;
    for child in entries.values() {
        if is_directory_at(objects, *child) {
            count += 1;
        }
    }
    count
}

/// What is reported of an object.
pub fn info(sizes: VolumeSizes, objects: &ObjectMap, number: u64, object: &PlainObject) -> Info
    requires { fits (sizes_of sizes) (objects_in objects.now) ≡ true }
    ensures { result ≡ info (objects_in objects.now) number (object_of object.now) }
{
    match object {
        PlainObject::File { moment, bytes } => Info {
            kind: Kind::File,
            object: number,
            links: file_links(sizes, objects, number),
            size: bytes.len() as u64,
            moment: *moment,
        },
        PlainObject::Directory { moment, entries } => Info {
            kind: Kind::Directory,
            object: number,
            links: 2 + subdirectories(objects, entries),
            size: 0,
            moment: *moment,
        },
    }
}
