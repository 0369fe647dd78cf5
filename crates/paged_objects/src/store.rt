// Objects over pages, as a store.
ghost use Rattle.std.specs.Prelude.{◌≡◌, Err, length};
ghost use Rattle.std.specs.FinMap as map;
ghost use Rattle.volume_terms.specs.declared.fault.StoreFault.TheVariants as faults;
ghost use Rattle.posix_profile.specs.State.{Objects};
ghost use Rattle.posix_profile.specs.WellFormed.{IsForest};
ghost use Rattle.object_store.specs.Facts.{bytes_of};
ghost use Rattle.object_store.specs.Reported.{table_sizes, Reports};
ghost use Rattle.pages.specs.Refreshing.{Refreshes};

use crate::changing::{forget, make};
use crate::fault::fault_of;
use name_index::NameIndex;
use object_store::{ObjectChange, ObjectStore, ObjectTable};
use pages::PageStore;
use posix_profile::{Info, NameList};
use std::alloc::Global;
use volume_terms::{StoreFault, VolumeSizes};

/// The length of a file in bytes, as the table reports it; 0 of what is no file.
fn length_of(table: &ObjectTable, file: u64) -> u64
    ensures { (objects : Objects) → Reports table.now objects → IsForest (table_sizes table.now) objects → result ≡ length (bytes_of (map.get objects file)) }
{
    match table.info(file) {
        Some(info) => info.size,
        None => 0,
    }
}

/// Objects in pages. A table returns what it can without reading one, and an index which slots may have a name.
#[derive(Drop)]
pub struct PagedObjects<P: PageStore> {
    alloc: Global,
    pages: P,
    table: ObjectTable,
    names: NameIndex,
}

impl<P: PageStore> PagedObjects<P> {
    ghost use Rattle.paged_objects.specs.Parts.{pages_of, table_of, names_of};

    /// The objects that the pages hold, the table reports and the index names.
    pub fn new(alloc: Global, pages: P, table: ObjectTable, names: NameIndex) -> PagedObjects<P>
        ensures pages { pages_of result ≡ pages }
        ensures table { table_of result ≡ table }
        ensures names { names_of result ≡ names }
    {
        PagedObjects {
            alloc,
            pages,
            table,
            names,
        }
    }

    /// The pages, as they are.
    pub fn pages(&self) -> &P
        ensures { P.state result.now ≡ P.state (pages_of self.now) }
    {
        &self.pages
    }

    /// Moves the pages that are committed in a block into another, so that the old ones are not needed any more. The objects stay.
    pub fn refresh(&mut self, block: u32) -> Result<(), StoreFault>
        ensures pages { Refreshes block (P.state (pages_of self.old)) (P.state (pages_of self.new)) result }
        ensures table { table_of self.new ≡ table_of self.old }
        ensures names { names_of self.new ≡ names_of self.old }
    {
        self.pages.refresh(block)
    }

    /// The pages alone. What was not committed is not on their device.
    pub fn into_pages(self) -> P
        ensures { result ≡ pages_of self }
    {
        self.pages
    }
}

impl<P: PageStore> ObjectStore for PagedObjects<P> {
    ghost use Rattle.paged_objects.specs.Meaning.{paged_meaning};
    ghost use Rattle.paged_objects.specs.Parts.{state_of};
    ghost use Rattle.paged_objects.specs.laws.Lawful.{paged_lawful};

    ghost meaning = { paged_meaning (state_of P.state) };

    fn sizes(&self) -> VolumeSizes {
        self.table.sizes()
    }

    fn info(&self, number: u64) -> Option<Info> {
        self.table.info(number)
    }

    fn parent(&self, directory: u64) -> Option<u64> {
        self.table.parent(directory)
    }

    fn entry_count(&self, directory: u64) -> u64 {
        self.table.entry_count(directory)
    }

    fn charge(&self) -> u64 {
        self.table.charge()
    }

    fn new_number(&self) -> u64 {
        self.table.new_number()
    }

    fn has_power(&mut self) -> bool {
        self.pages.has_power()
    }

    fn find(&mut self, directory: u64, name: &[u8]) -> Result<Option<u64>, StoreFault> {
        let count = self.table.entry_count(directory);
        match crate::find(&self.names, &mut self.pages, directory, count, name) {
            Ok(found) => Ok(found),
            Err(fault) => Err(fault_of(fault)),
        }
    }

    fn names(&mut self, alloc: Global, directory: u64) -> Result<NameList, StoreFault> {
        match crate::names(&mut self.pages, alloc, directory) {
            Ok(names) => Ok(names),
            Err(fault) => Err(fault_of(fault)),
        }
    }

    fn read_into(
        &mut self,
        file: u64,
        offset: u64,
        buffer: &mut [u8],
    ) -> Result<usize, StoreFault> {
        let len = length_of(&self.table, file);
        match crate::read_into(&mut self.pages, file, len, offset, buffer) {
            Ok(count) => Ok(count),
            Err(fault) => Err(fault_of(fault)),
        }
    }

    fn apply(&mut self, change: &ObjectChange<'_>) -> Result<(), StoreFault> {
        match change {
            ObjectChange::Forget { number } => {
                forget(&mut self.pages, &mut self.table, &mut self.names, *number)
            }
            _ => make(
                &mut self.pages,
                &mut self.table,
                &mut self.names,
                self.alloc,
                change,
            ),
        }
    }

    fn commit(&mut self) -> Result<(), StoreFault> {
        self.pages.commit()
    }

    ghost lawful = { paged_lawful (state_of P.state) };
}
