// The index.
ghost use Rattle.std.specs.Prelude.{◌≡◌, ℕ, None, OnOk, OnErr};
ghost use Rattle.std.specs.Ordering.{nat_cmp};
ghost use Rattle.std.specs.BTreeMap.{get};
ghost use Rattle.name_index.specs.Packing.{packed, IsSlotUnder};

use crate::set::NumberSet;
use std::alloc::{AllocError, Global};
use std::collections::BTreeMap;

/// A hash and a slot lie in one number, in which the hash comes first.
const SLOTS: u64 = 4_294_967_296;

/// For each directory the hashes of names with the numbers of their slots, in memory. Only `add` takes memory.
#[derive(Drop)]
pub struct NameIndex {
    alloc: Global,
    pub(crate) directories: BTreeMap<u64, NumberSet>,
}

impl NameIndex {
    ghost use Rattle.name_index.specs.Names.{Holds, HoldsSame, AddsName, DropsName, DropsDirectory, IsNextSlot};

    /// No hash.
    pub fn new(alloc: Global) -> NameIndex
        ensures { (directory hash slot : ℕ) → Holds result directory hash slot → ⊥ }
    {
        NameIndex {
            alloc,
            directories: BTreeMap::new(alloc),
        }
    }

    /// Adds a hash of a directory with its slot.
    pub fn add(&mut self, directory: u64, hash: u32, slot: u32) -> Result<(), AllocError>
        ensures ok { OnOk result (AddsName directory hash slot self.old self.new) }
        ensures err { OnErr result (HoldsSame self.old self.new) }
    {
        match self.directories.get_mut(&directory) {
            Some(numbers) => numbers.insert(pack(hash, slot)),
            None => self.add_first(directory, hash, slot),
        }
    }

    /// Adds the first hash of a directory that is not here yet.
    fn add_first(&mut self, directory: u64, hash: u32, slot: u32) -> Result<(), AllocError>
        requires { get nat_cmp self.old.directories directory ≡ None }
        ensures ok { OnOk result (AddsName directory hash slot self.old self.new) }
        ensures err { OnErr result (HoldsSame self.old self.new) }
    {
        let mut numbers = NumberSet::new(self.alloc);
        numbers.insert(pack(hash, slot))?;
        let _ = self.directories.insert(directory, numbers)?;
        Ok(())
    }

    /// Drops a hash of a directory with its slot, if it is here. It takes no memory.
    pub fn remove(&mut self, directory: u64, hash: u32, slot: u32)
        ensures { DropsName directory hash slot self.old self.new }
    {
        match self.directories.get_mut(&directory) {
            Some(numbers) => numbers.remove(pack(hash, slot)),
            None => {}
        }
    }

    /// Drops all hashes of a directory. It takes no memory.
    pub fn drop_directory(&mut self, directory: u64)
        ensures { DropsDirectory directory self.old self.new }
    {
        let _ = self.directories.remove(&directory);
    }

    /// The first slot from a number on that is held under a hash of a directory.
    pub fn next_slot(&self, directory: u64, hash: u32, from: u32) -> Option<u32>
        ensures { IsNextSlot self.now directory hash from result }
    {
        let numbers = self.directories.get(&directory)?;
        let found = numbers.next_from(pack(hash, from))?;
        slot_under(hash, found)
    }
}

/// A hash and a slot in one number.
fn pack(hash: u32, slot: u32) -> u64
    ensures { result ≡ packed hash slot }
{
    u64::from(hash) * SLOTS + u64::from(slot)
}

/// The slot of a number that has this hash.
fn slot_under(hash: u32, number: u64) -> Option<u32>
    ensures { IsSlotUnder hash number result }
{
    if number / SLOTS == u64::from(hash) {
        Some((number % SLOTS) as u32)
    } else {
        None
    }
}
