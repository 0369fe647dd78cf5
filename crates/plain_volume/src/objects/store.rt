// Maps as a store.
ghost use Rattle.std.specs.Prelude.{◌≡◌, ◌<◌, ◌≤◌, ◌^◌, ◌↔◌, Some, IfOk, IsTrue, true, length, take, drop};
ghost use Rattle.std.specs.FinMap as map;
ghost use Rattle.volume_terms.specs.Sizes.{IsSizes};
ghost use Rattle.volume_terms.specs.VolumeSizes.{sizes_of};
ghost use Rattle.posix_profile.specs.Charge.{charge, fits};
ghost use Rattle.posix_profile.specs.laws.Fresh.{fresh};
ghost use Rattle.object_store.specs.Facts.{bytes_from, bytes_of};
ghost use Rattle.object_store.specs.Stores.{settled};
ghost use Rattle.plain_volume.specs.PlainState.{object_of, objects_in};

use crate::objects::changes::{after_change, forget};
use crate::objects::names::names_at;
use crate::state::change::new_number;
use crate::state::charge::{charge, fits};
use crate::state::links::{entry_at, entry_count_at, info, is_named, parent};
use crate::state::object::{EntryMap, ObjectMap, PlainObject};
use crate::state::prune::settled;
use crate::state::same::same_objects;
use crate::state::table::{copy_objects, object_at, put_object};
use object_store::{ObjectChange, ObjectStore};
use posix_profile::{Info, NameList};
use std::alloc::{AllocError, Global};
use volume_terms::{ROOT, StoreFault, VolumeSizes};

/// Objects in maps, for which there is room.
#[derive(Drop)]
pub struct PlainObjects {
    alloc: Global,
    sizes: VolumeSizes,
    objects: ObjectMap,
    ghost fit: { fits (sizes_of sizes) (objects_in objects) ≡ true },
}

impl PlainObjects {
    ghost use Rattle.plain_volume.specs.PlainMeaning.{objects_of, numbers_of};

    /// An empty root, at moment 0.
    pub fn new(alloc: Global, sizes: VolumeSizes) -> Result<PlainObjects, AllocError>
        requires { IsSizes (sizes_of sizes) }
        ensures objects { IfOk result (λ store. objects_of store ≡ fresh.objects) }
        ensures sizes { IfOk result (λ store. numbers_of store ≡ sizes_of sizes) }
    {
        let root = PlainObject::Directory {
            moment: 0,
            entries: EntryMap::new(alloc),
        };
        let mut objects = ObjectMap::new(alloc);
        put_object(&mut objects, ROOT, root)?;
        Ok(PlainObjects {
            alloc,
            sizes,
            objects,
        })
    }

    /// The same objects once more.
    pub fn copy(&self) -> Result<PlainObjects, AllocError>
        ensures objects { IfOk result (λ copy. objects_of copy ≡ objects_of self.now) }
        ensures sizes { IfOk result (λ copy. numbers_of copy ≡ numbers_of self.now) }
    {
        let objects = copy_objects(&self.objects)?;
        Ok(PlainObjects {
            alloc: self.alloc,
            sizes: self.sizes,
            objects,
        })
    }

    /// Those that names keep, which a mount would show.
    pub fn settled(&self) -> Result<PlainObjects, AllocError>
        ensures objects { IfOk result (λ committed. objects_of committed ≡ settled (objects_of self.now)) }
        ensures sizes { IfOk result (λ committed. numbers_of committed ≡ numbers_of self.now) }
    {
        let objects = settled(&self.objects)?;
        Ok(PlainObjects {
            alloc: self.alloc,
            sizes: self.sizes,
            objects,
        })
    }

    /// Whether both have the same objects at the same numbers.
    pub fn same(&self, other: &PlainObjects) -> bool
        ensures { IsTrue result ↔ (objects_of self.now ≡ objects_of other.now) }
    {
        same_objects(&self.objects, &other.objects)
    }
}

/// The units that the objects cost.
fn charge_of(sizes: VolumeSizes, objects: &ObjectMap) -> u64
    requires { fits (sizes_of sizes) (objects_in objects.now) ≡ true }
    ensures { result ≡ charge (sizes_of sizes) (objects_in objects.now) }
{
    let _capacity = sizes.capacity();
    charge(sizes, objects)
}

/// The bytes from the offset, at most so many.
fn window(bytes: &[u8], offset: u64, count: usize) -> &[u8]
    ensures { result.now ≡ take count (drop offset bytes.now) }
{
    let start = offset.min(bytes.len() as u64) as usize;
    let (_before, rest) = bytes.split_at(start);
    let end = rest.len().min(count);
    let (there, _after) = rest.split_at(end);
    there
}

/// Puts the bytes from the offset at the front of a buffer, as many as it has room for, and returns how many.
fn put_window(bytes: &[u8], offset: u64, buffer: &mut [u8]) -> usize
    ensures size { length buffer.new ≡ length buffer.old }
    ensures count { result ≤ length buffer.old }
    ensures rest { drop result buffer.new ≡ drop result buffer.old }
    ensures bytes { take result buffer.new ≡ take (length buffer.old) (drop offset bytes.now) }
{
    let there = window(bytes, offset, buffer.len());
    buffer[..there.len()].copy_from_slice(there);
    there.len()
}

/// Puts the bytes of an object from the offset at the front of a buffer, as many as it has room for, and returns how many.
fn put_bytes(object: &PlainObject, offset: u64, buffer: &mut [u8]) -> usize
    ensures size { length buffer.new ≡ length buffer.old }
    ensures count { result ≤ length buffer.old }
    ensures rest { drop result buffer.new ≡ drop result buffer.old }
    ensures bytes { take result buffer.new ≡ take (length buffer.old) (drop offset (bytes_of (Some (object_of object.now)))) }
{
    match object {
        PlainObject::File { bytes, .. } => put_window(bytes, offset, buffer),
        PlainObject::Directory { .. } => put_window(&[], offset, buffer),
    }
}

/// Puts the bytes of a file from the offset at the front of a buffer, as many as it has room for, and returns how many.
fn read_into(objects: &ObjectMap, file: u64, offset: u64, buffer: &mut [u8]) -> usize
    ensures size { length buffer.new ≡ length buffer.old }
    ensures count { result ≤ length buffer.old }
    ensures rest { drop result buffer.new ≡ drop result buffer.old }
    ensures bytes { take result buffer.new ≡ bytes_from (objects_in objects.now) file offset (length buffer.old) }
{
    match object_at(objects, file) {
        Some(object) => put_bytes(object, offset, buffer),
        None => put_window(&[], offset, buffer),
    }
}

impl ObjectStore for PlainObjects {
    ghost use Rattle.plain_volume.specs.PlainMeaning.{plain_meaning};
    ghost use Rattle.plain_volume.specs.laws.PlainMeaning.{plain_lawful};

    ghost meaning = { plain_meaning };

    fn sizes(&self) -> VolumeSizes {
        self.sizes
    }

    fn info(&self, number: u64) -> Option<Info> {
        match object_at(&self.objects, number) {
            Some(object) => Some(info(self.sizes, &self.objects, number, object)),
            None => None,
        }
    }

    fn parent(&self, directory: u64) -> Option<u64> {
        if is_named(&self.objects, directory) {
            Some(parent(&self.objects, directory))
        } else {
            None
        }
    }

    fn entry_count(&self, directory: u64) -> u64 {
        entry_count_at(&self.objects, directory)
    }

    fn charge(&self) -> u64 {
        charge_of(self.sizes, &self.objects)
    }

    fn new_number(&self) -> u64 {
        new_number(&self.objects)
    }

    fn has_power(&mut self) -> bool {
        true
    }

    fn find(&mut self, directory: u64, name: &[u8]) -> Result<Option<u64>, StoreFault> {
        Ok(entry_at(&self.objects, directory, name))
    }

    fn names(&mut self, alloc: Global, directory: u64) -> Result<NameList, StoreFault> {
        match names_at(alloc, &self.objects, directory) {
            Ok(names) => Ok(NameList::new(names)),
            Err(_) => Err(StoreFault::NoMemory),
        }
    }

    fn read_into(
        &mut self,
        file: u64,
        offset: u64,
        buffer: &mut [u8],
    ) -> Result<usize, StoreFault> {
        Ok(read_into(&self.objects, file, offset, buffer))
    }

    fn apply(&mut self, change: &ObjectChange<'_>) -> Result<(), StoreFault> {
        if let ObjectChange::Forget { number } = change {
            forget(&mut self.objects, *number);
            return Ok(());
        }
        match after_change(self.alloc, &self.objects, change) {
            Ok(objects) => {
                if !fits(self.sizes, &objects) {
                    return Err(StoreFault::NoMemory);
                }
                self.objects = objects;
                Ok(())
            }
            Err(_) => Err(StoreFault::NoMemory),
        }
    }

    fn commit(&mut self) -> Result<(), StoreFault> {
        Ok(())
    }

    ghost lawful = { plain_lawful };
}
