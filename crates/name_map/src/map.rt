// Names and the numbers that they lead to.
ghost use Rattle.std.specs.Prelude.{◌≡◌, IfOk, OnOk, OnErr};
ghost use Rattle.std.specs.FinMap as map;
ghost use Rattle.std.specs.FinMap.{code as map_code};
ghost use Rattle.std.specs.Coded.{coded_ℕ, coded_list};
ghost use Rattle.posix_profile.specs.State.{Entries};
ghost use Rattle.name_map.specs.NameEntries.{entries_in};

use posix_profile::{Bytes, NameList};
use std::alloc::{AllocError, Global};
use std::collections::BTreeMap;
use std::marker::Model;

/// From names to the numbers of objects. Names are in the order of their bytes.
#[derive(Drop)]
pub struct NameMap {
    map: BTreeMap<Vec<u8>, u64>,
}

impl Model for NameMap {
    ghost Value = { Entries };

    ghost coded = { map_code (coded_list coded_ℕ) coded_ℕ };

    ghost view = { λ m. entries_in m.map };
}

impl NameMap {
    pub fn new(alloc: Global) -> NameMap
        ensures { result ≡ map.empty }
    {
        NameMap {
            map: BTreeMap::new(alloc),
        }
    }

    /// How many names there are.
    pub fn len(&self) -> usize
        ensures { result ≡ map.len self.now }
    {
        self.map.len()
    }

    /// The number that the name leads to.
    pub fn get(&self, name: &[u8]) -> Option<u64>
        ensures { result ≡ map.get self.now name.now }
    {
        self.map.get(name).copied()
    }

    /// Leads the name to the number, and answers the one that it led to.
    pub fn insert(&mut self, name: Vec<u8>, number: u64) -> Result<Option<u64>, AllocError>
        ensures inserted { OnOk result (self.new ≡ map.insert self.old name.items number) }
        ensures led { IfOk result (λ led. led ≡ map.get self.old name.items) }
        ensures err { OnErr result (self.new ≡ self.old) }
    {
        let led = self.map.insert(name, number)?;
        Ok(led)
    }

    /// The names in the order of their bytes, none of them copied.
    pub fn into_names(self, alloc: Global) -> Result<NameList, AllocError>
        ensures { IfOk result (λ names. names ≡ map.keys self) }
    {
        let mut names = Vec::new(alloc);
        for name in self.map.into_keys() {
            names.push(Bytes::new(name))?;
        }
        Ok(NameList::new(names))
    }

    /// The numbers that the names lead to, in the order of the names.
    pub fn numbers(&self, alloc: Global) -> Result<Vec<u64>, AllocError>
        ensures { IfOk result (λ numbers. numbers.items ≡ map.values self.now) }
    {
        self.map.values().copied().collect(alloc)
    }
}
