// A table that is made object by object.
ghost use Rattle.std.specs.Prelude.{◌≡◌, IfOk, OnOk, OnErr};
ghost use Rattle.std.specs.FinMap as map;
ghost use Rattle.volume_terms.specs.VolumeSizes as volume;
ghost use Rattle.posix_profile.specs.State.{Objects};
ghost use Rattle.object_store.specs.Reported.{table_sizes, Reports};

use crate::counted_facts::CountedFacts;
use crate::table::ObjectTable;
use crate::table_facts::ObjectFacts;
use posix_profile::Kind;
use std::alloc::{AllocError, Global};
use volume_terms::VolumeSizes;

/// A table of objects that come one by one, each before its names, as a mount reads a tree.
#[derive(Drop)]
pub struct TableBuilder {
    totaled: CountedFacts,
}

impl TableBuilder {
    ghost use Rattle.object_store.specs.Built.{sizes_built, Builds, BuildsNamed, IsBare, CanCome, OfBuilt};

    /// No objects so far.
    pub fn new(alloc: Global, sizes: VolumeSizes) -> TableBuilder
        ensures size { sizes_built result ≡ volume.sizes_of sizes }
        ensures builds { Builds result map.empty }
    {
        TableBuilder {
            totaled: CountedFacts::new(alloc, sizes),
        }
    }

    /// Makes room for an object that is to come. A call that fails leaves the objects that came.
    pub fn make_room(&mut self, number: u64) -> Result<(), AllocError>
        ensures size { sizes_built self.new ≡ sizes_built self.old }
        ensures same { (objects : Objects) → Builds self.old objects → Builds self.new objects }
    {
        self.totaled.make_room(number)
    }

    /// An object comes: a file of so many bytes, or a directory, whose entries come later as names.
    pub fn insert(
        &mut self,
        number: u64,
        kind: Kind,
        moment: u64,
        length: u64,
    ) -> Result<(), AllocError>
        ensures size { sizes_built self.new ≡ sizes_built self.old }
        ensures inserts { OfBuilt self.old (λ objects x. IsBare kind moment length x → CanCome (sizes_built self.old) objects number x
            → OnOk result (Builds self.new (map.insert objects number x))) }
        ensures same { (objects : Objects) → Builds self.old objects → OnErr result (Builds self.new objects) }
    {
        self.totaled.make_room(number)?;
        self.totaled
            .add(number, ObjectFacts::bare(kind, moment, length));
        Ok(())
    }

    /// A name of a directory of this moment leads to an object.
    pub fn name(&mut self, directory: u64, number: u64, moment: u64)
        ensures size { sizes_built self.new ≡ sizes_built self.old }
        ensures names { BuildsNamed self.old self.new moment directory number }
    {
        self.totaled.add_name(directory, number, moment);
    }

    /// The table of the objects that came.
    pub fn finish(self, alloc: Global) -> Result<ObjectTable, AllocError>
        ensures size { IfOk result (λ table. table_sizes table ≡ sizes_built self) }
        ensures reports { (objects : Objects) → Builds self objects → IfOk result (λ table. Reports table objects) }
    {
        ObjectTable::of(alloc, self.totaled)
    }
}
