// The entries of all objects.
ghost use Rattle.std.specs.Prelude.{◌≡◌, ◌<◌, ◌≤◌, ◌+◌, ◌-◌, ◌^◌, ◌↔◌, [], None, IsSome, IfSome, Some, IsTrue, OnOk, OnErr, option_map};
ghost use Rattle.std.specs.Ordering.{nat_cmp};
ghost use Rattle.std.proofs.Props.{props};
ghost use Rattle.std.specs.BTreeMap.{get, IsEmpty, IsOrdered};
ghost use Rattle.chunk_index.specs.Shelves.{look, total, AltersKey, SameEntries, IsNextObject};
ghost use Rattle.chunk_index.specs.Entries.{committed_of, present_of, same_of, IsSmall, IsSmallState};
ghost use Rattle.chunk_index.specs.InPlace.{placed, buffered, state_in};

use crate::entry::{KeyEntry, State};
use crate::form::{CommittedPage, Present};
use crate::object::ObjectEntries;
use flash_tree::Key;
use std::alloc::{AllocError, Global};
use std::collections::BTreeMap;
use std::ops::Bound;

/// No more than a committed count can tell.
const MOST_ENTRIES: usize = 4_294_967_295;

/// As many as a node of the map has room for, and one more: so a node is split at its end only while it has each second one
/// of the objects between its first and its last, and the half that stays has room for those between.
const OBJECTS_AHEAD: u64 = 16;

/// The entries of all objects, in an ordered map by their numbers. An object without entries and one that is not here
/// mean the same.
#[derive(Drop)]
pub struct Shelf {
    alloc: Global,
    pub(crate) objects: BTreeMap<u64, ObjectEntries>,
    pub(crate) size: usize,
    ghost ordered: { IsOrdered nat_cmp objects } by { Prim.hlevel props },
    ghost totaled: { total (λ e. 1) objects ≡ size },
    ghost bounded: { size < 2 ^ 32 },
}

impl Shelf {
    /// There are none.
    pub fn new(alloc: Global) -> Shelf
        ensures empty { IsEmpty result.objects }
        ensures size { result.size ≡ 0 }
    {
        Shelf {
            alloc,
            objects: BTreeMap::new(alloc),
            size: 0,
        }
    }

    /// How many entries there are.
    pub fn size(&self) -> usize
        ensures { result ≡ self.now.size }
    {
        self.size
    }

    /// The committed page of a key.
    pub fn committed(&self, key: Key) -> Option<CommittedPage>
        ensures { result ≡ committed_of (look self.now.objects key.object key.chunk) }
    {
        match self.objects.get(&key.object) {
            Some(entries) => entries.committed(key.chunk),
            None => None,
        }
    }

    /// The present page of a key.
    pub fn present(&self, key: Key) -> Present
        ensures { result ≡ present_of (look self.now.objects key.object key.chunk) }
    {
        match self.objects.get(&key.object) {
            Some(entries) => entries.present(key.chunk),
            None => Present::Absent,
        }
    }

    /// Gives the entry of a key another state, and returns whether its present page was the committed one.
    pub fn place(&mut self, key: Key, state: State) -> bool
        requires here { IsSome (look self.old.objects key.object key.chunk) }
        requires small { IsSmallState state }
        ensures alters { AltersKey key.object key.chunk (placed state (look self.old.objects key.object key.chunk)) self.old.objects self.new.objects }
        ensures same { result ≡ same_of (look self.old.objects key.object key.chunk) }
        ensures size { self.new.size ≡ self.old.size }
    {
        match self.objects.get_mut(&key.object) {
            Some(entries) => entries.place(key.chunk, state),
            None => true,
        }
    }

    /// Gives the entry of a key the page of this number in the buffer, unless it has one there, and returns the state that it had.
    pub fn place_in_buffer(&mut self, key: Key, page: u32) -> State
        requires here { IsSome (look self.old.objects key.object key.chunk) }
        requires page { page < 253 }
        ensures alters { AltersKey key.object key.chunk (buffered page (look self.old.objects key.object key.chunk)) self.old.objects self.new.objects }
        ensures state { result ≡ state_in (look self.old.objects key.object key.chunk) }
        ensures size { self.new.size ≡ self.old.size }
    {
        match self.objects.get_mut(&key.object) {
            Some(entries) => entries.place_in_buffer(key.chunk, page),
            None => State::Same,
        }
    }

    /// How many entries more there may be, if it is allowed to add any.
    pub(crate) fn room(&self, may_add: bool) -> usize
        ensures { self.now.size + result < 2 ^ 32 }
    {
        if may_add {
            return MOST_ENTRIES - self.size;
        }
        0
    }

    /// Puts the first entry of an object that is not here.
    pub(crate) fn insert_first(&mut self, object: u64, entry: KeyEntry) -> Result<(), AllocError>
        requires absent { look self.old.objects object entry.chunk ≡ None }
        requires room { self.old.size < 2 ^ 32 - 1 }
        requires small { IsSmall entry }
        ensures ok { OnOk result (AltersKey object entry.chunk (Some entry) self.old.objects self.new.objects) }
        ensures grown { OnOk result (self.new.size ≡ self.old.size + 1) }
        ensures err { OnErr result (SameEntries self.old.objects self.new.objects) }
        ensures same_size { OnErr result (self.new.size ≡ self.old.size) }
    {
        self.prepare_in_order(object)?;
        self.put(object, entry)
    }

    /// Sees that an object is here and has room for so many entries more. No key gets or loses an entry.
    pub fn reserve(&mut self, object: u64, count: usize) -> Result<(), AllocError>
        ensures { SameEntries self.old.objects self.new.objects }
    {
        self.prepare_object(object)?;
        self.reserve_entries(object, count)
    }

    /// Sees that an object, if it is here, has room for so many entries more.
    fn reserve_entries(&mut self, object: u64, count: usize) -> Result<(), AllocError>
        ensures { SameEntries self.old.objects self.new.objects }
    {
        match self.objects.get_mut(&object) {
            Some(entries) => entries.reserve(count),
            None => Ok(()),
        }
    }

    /// Brings in an object that is not here. Where objects are made in the order of their numbers, every other one of those to
    /// come is here before, without entries, and those between fill the nodes of the map. No key gets or loses an entry.
    fn prepare_in_order(&mut self, object: u64) -> Result<(), AllocError>
        ensures same { SameEntries self.old.objects self.new.objects }
        ensures here { OnOk result (IsSome (get nat_cmp self.new.objects object)) }
        ensures size { self.new.size ≡ self.old.size }
    {
        self.prepare_ahead(object)?;
        self.prepare_object(object)
    }

    /// Sees that every other one of the objects after one that is not here is, as far as they are past all others.
    fn prepare_ahead(&mut self, object: u64) -> Result<(), AllocError>
        ensures same { SameEntries self.old.objects self.new.objects }
        ensures size { self.new.size ≡ self.old.size }
    {
        if self.next_object(Some(object)).is_none() {
            return self.prepare_others(object);
        }
        let last = object.saturating_add(2 * OBJECTS_AHEAD + 1);
        if self.next_object(Some(last)).is_none() {
            return self.prepare_object(last);
        }
        Ok(())
    }

    /// Sees that every other one of the objects after one is here, so many of them.
    fn prepare_others(&mut self, object: u64) -> Result<(), AllocError>
        ensures same { SameEntries self.old.objects self.new.objects }
        ensures size { self.new.size ≡ self.old.size }
    {
        for step in 1..=OBJECTS_AHEAD {
            self.prepare_object(object.saturating_add(2 * step))?;
        }
        Ok(())
    }

    /// Sees that an object is here. No key gets or loses an entry.
    fn prepare_object(&mut self, object: u64) -> Result<(), AllocError>
        ensures same { SameEntries self.old.objects self.new.objects }
        ensures here { OnOk result (IsSome (get nat_cmp self.new.objects object)) }
        ensures size { self.new.size ≡ self.old.size }
    {
        if self.objects.contains_key(&object) {
            return Ok(());
        }
        let entries = ObjectEntries::new(self.alloc);
        let _ = self.objects.insert(object, entries)?;
        Ok(())
    }

    /// Puts an entry of a key that has none, of an object that is here.
    fn put(&mut self, object: u64, entry: KeyEntry) -> Result<(), AllocError>
        requires absent { look self.old.objects object entry.chunk ≡ None }
        requires here { IsSome (get nat_cmp self.old.objects object) }
        requires room { self.old.size < 2 ^ 32 - 1 }
        requires small { IsSmall entry }
        ensures ok { OnOk result (AltersKey object entry.chunk (Some entry) self.old.objects self.new.objects) }
        ensures grown { OnOk result (self.new.size ≡ self.old.size + 1) }
        ensures err { OnErr result (SameEntries self.old.objects self.new.objects) }
        ensures same_size { OnErr result (self.new.size ≡ self.old.size) }
    {
        match self.objects.get_mut(&object) {
            Some(entries) => match entries.insert(entry) {
                Ok(()) => {
                    self.size += 1;
                    Ok(())
                }
                Err(error) => Err(error),
            },
            None => Ok(()),
        }
    }

    /// Drops an object that has no entries.
    pub fn drop_empty(&mut self, object: u64)
        ensures same { SameEntries self.old.objects self.new.objects }
        ensures size { self.new.size ≡ self.old.size }
    {
        if self.is_bare(object) {
            let _ = self.objects.remove(&object);
        }
    }

    /// Whether an object is here and has no entries.
    fn is_bare(&self, object: u64) -> bool
        ensures { IsTrue result → IfSome (get nat_cmp self.now.objects object) (λ x. x.entries.items ≡ []) }
    {
        match self.objects.get(&object) {
            Some(entries) => entries.is_empty(),
            None => false,
        }
    }

    /// The first object after a number, or of all.
    pub fn next_object(&self, after: Option<u64>) -> Option<u64>
        ensures { IsNextObject self.now.objects after result }
    {
        let (object, _) = self.next_entries(after)?;
        Some(object)
    }

    /// The first object after a number, or of all, with its entries.
    pub(crate) fn next_entries(&self, after: Option<u64>) -> Option<(u64, &ObjectEntries)>
        ensures next { IsNextObject self.now.objects after (option_map (λ found. found.0) result) }
        ensures entries { IfSome result (λ found. get nat_cmp self.now.objects found.0 ≡ Some found.1.now) }
    {
        match after {
            Some(number) => {
                let range = (Bound::Excluded(number), Bound::Unbounded);
                let (object, entries) = self.objects.range(range).next()?;
                Some((*object, entries))
            }
            None => {
                let (object, entries) = self.objects.first_key_value()?;
                Some((*object, entries))
            }
        }
    }
}
