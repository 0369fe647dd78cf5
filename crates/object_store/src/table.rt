// The table of objects.
ghost use Rattle.std.specs.Prelude.{◌≡◌, None, OnOk, IfOk};
ghost use Rattle.std.specs.FinMap as map;
ghost use Rattle.volume_terms.specs.VolumeSizes as volume;
ghost use Rattle.posix_profile.specs.State.{Objects, IsDirectory, entries_of};
ghost use Rattle.posix_profile.specs.Charge.{charge};
ghost use Rattle.posix_profile.specs.Changes.{new_number};
ghost use Rattle.posix_profile.specs.WellFormed.{IsForest};
ghost use Rattle.object_store.specs.Facts.{info_of, NamedBy};
ghost use Rattle.object_store.specs.Changes.{without, empty_object};
ghost use Rattle.object_store.specs.Numbers.{KnowsFree};
ghost use Rattle.object_store.specs.Taken.{taken_in};
ghost use Rattle.object_store.specs.Totaled.{sizes_in, Counts};

use crate::ObjectChange;
use crate::counted_facts::CountedFacts;
use crate::free_numbers::FreeNumbers;
use crate::table_facts::ObjectFacts;
use crate::table_parts::{add_object, drop_object};
use posix_profile::{Info, Kind};
use std::alloc::{AllocError, Global};
use volume_terms::VolumeSizes;

/// What is reported of each object without reading a page. It knows no names and no bytes.
///
/// A new object needs room, which `prepare` makes; no other change takes memory.
#[derive(Drop)]
pub struct ObjectTable {
    totaled: CountedFacts,
    numbers: FreeNumbers,
    ghost free: { KnowsFree numbers (taken_in totaled.facts) },
}

impl ObjectTable {
    ghost use Rattle.object_store.specs.Reported.{table_sizes, next_of, HasRoomAt, IsReadyFor, CanDrop, Reports, ReportsTheSame, OfReported, ReportsChanged, ReportsCreated, ReportsNamed, ReportsResized, ReportsUnnamed, ReportsWritten};

    /// A table that reports no objects.
    pub fn new(alloc: Global, sizes: VolumeSizes) -> ObjectTable
        ensures size { table_sizes result ≡ volume.sizes_of sizes }
        ensures reports { Reports result map.empty }
    {
        let totaled = CountedFacts::new(alloc, sizes);
        let numbers = FreeNumbers::new(alloc, &totaled.facts);
        ObjectTable { totaled, numbers }
    }

    /// A table of these facts.
    pub(crate) fn of(alloc: Global, totaled: CountedFacts) -> Result<ObjectTable, AllocError>
        ensures size { IfOk result (λ table. table_sizes table ≡ sizes_in totaled) }
        ensures reports { (objects : Objects) → Counts totaled objects → IfOk result (λ table. Reports table objects) }
    {
        let mut numbers = FreeNumbers::new(alloc, &totaled.facts);
        numbers.make_list()?;
        Ok(ObjectTable { totaled, numbers })
    }

    /// The numbers of the volume.
    pub fn sizes(&self) -> VolumeSizes
        ensures { volume.sizes_of result ≡ table_sizes self.now }
    {
        self.totaled.sizes
    }

    /// What is reported of the object at this number, if there is one.
    pub fn info(&self, number: u64) -> Option<Info>
        ensures { (objects : Objects) → Reports self.now objects → IsForest (table_sizes self.now) objects → result ≡ info_of objects number (map.get objects number) }
    {
        match self.totaled.at(number) {
            Some(facts) => Some(facts.info(number)),
            None => None,
        }
    }

    /// The directory that names a directory, if one does.
    pub fn parent(&self, directory: u64) -> Option<u64>
        ensures { (objects : Objects) → Reports self.now objects → IsDirectory objects directory → NamedBy objects directory result }
    {
        self.totaled.parent_at(directory)
    }

    /// How many entries a directory has.
    pub fn entry_count(&self, directory: u64) -> u64
        ensures { (objects : Objects) → Reports self.now objects → IsDirectory objects directory → result ≡ map.len (entries_of (map.get objects directory)) }
    {
        self.totaled.size_at(directory).unwrap_or(0)
    }

    /// The units that the objects cost.
    pub fn charge(&self) -> u64
        ensures { (objects : Objects) → Reports self.now objects → result ≡ charge (table_sizes self.now) objects }
    {
        self.totaled.charge
    }

    /// The number that the next new object gets.
    pub fn new_number(&self) -> u64
        ensures { (objects : Objects) → Reports self.now objects → result ≡ new_number objects }
    {
        self.numbers.next()
    }

    /// Makes room for the next new object.
    pub fn prepare(&mut self) -> Result<(), AllocError>
        ensures same { ReportsTheSame self.old self.new }
        ensures room { OnOk result (HasRoomAt self.new (next_of self.new)) }
    {
        self.totaled.make_room_ahead(self.numbers.next())
    }

    /// Makes a change, in the room that was made.
    pub fn apply(&mut self, change: &ObjectChange<'_>)
        requires { IsReadyFor self.old change.now }
        ensures size { table_sizes self.new ≡ table_sizes self.old }
        ensures reports { ReportsChanged self.old self.new change.now }
    {
        match *change {
            ObjectChange::Create {
                entry,
                kind,
                moment,
            } => self.create(entry.directory, kind, moment),
            ObjectChange::Name {
                entry,
                number,
                moment,
            } => self.add_name(entry.directory, number, moment),
            ObjectChange::Remove {
                entry,
                removed,
                dropped,
                moment,
            } => {
                self.remove_name(entry.directory, Some(removed), moment);
                self.forget(dropped);
            }
            ObjectChange::Move {
                from,
                to,
                number,
                replaced,
                dropped,
                moment,
            } => {
                self.remove_name(from.directory, Some(number), moment);
                self.remove_name(to.directory, replaced, moment);
                self.add_name(to.directory, number, moment);
                self.forget(dropped);
            }
            ObjectChange::Write {
                number,
                offset,
                bytes,
                moment,
            } => self.write(number, offset, bytes.len() as u64, moment),
            ObjectChange::Resize {
                number,
                length,
                moment,
            } => self.set_length(number, length, moment),
            ObjectChange::Forget { number } => self.forget(Some(number)),
        }
    }

    /// A new object, without content, gets a name in a directory.
    fn create(&mut self, directory: u64, kind: Kind, moment: u64)
        requires { HasRoomAt self.old (next_of self.old) }
        ensures size { table_sizes self.new ≡ table_sizes self.old }
        ensures reports { ReportsCreated self.old self.new moment directory (empty_object kind moment) }
    {
        let facts = ObjectFacts::fresh(kind, moment);
        let number = add_object(&mut self.totaled, &mut self.numbers, facts);
        self.add_name(directory, number, moment);
    }

    /// A name of a directory leads to an object.
    fn add_name(&mut self, directory: u64, number: u64, moment: u64)
        ensures size { table_sizes self.new ≡ table_sizes self.old }
        ensures reports { ReportsNamed self.old self.new moment directory number }
    {
        self.totaled.add_name(directory, number, moment);
    }

    /// A name of a directory goes, if it led anywhere.
    fn remove_name(&mut self, directory: u64, number: Option<u64>, moment: u64)
        ensures size { table_sizes self.new ≡ table_sizes self.old }
        ensures unnamed { ReportsUnnamed self.old self.new moment directory number }
        ensures none { (objects : Objects) → number ≡ None → Reports self.old objects → Reports self.new objects }
    {
        match number {
            Some(number) => self.totaled.remove_name(directory, number, moment),
            None => {}
        }
    }

    /// An object goes, if there is one to go.
    fn forget(&mut self, dropped: Option<u64>)
        ensures size { table_sizes self.new ≡ table_sizes self.old }
        ensures reports { OfReported self.old (λ objects. CanDrop (table_sizes self.old) objects dropped → Reports self.new (without dropped objects)) }
    {
        match dropped {
            Some(number) => drop_object(&mut self.totaled, &mut self.numbers, number),
            None => {}
        }
    }

    /// So many bytes of a file are written at an offset.
    fn write(&mut self, number: u64, offset: u64, count: u64, moment: u64)
        ensures size { table_sizes self.new ≡ table_sizes self.old }
        ensures reports { ReportsWritten self.old self.new moment number offset count }
    {
        let end = offset.saturating_add(count);
        self.totaled.lengthen(number, end, moment);
    }

    /// A file has so many bytes now.
    fn set_length(&mut self, number: u64, size: u64, moment: u64)
        ensures size { table_sizes self.new ≡ table_sizes self.old }
        ensures reports { ReportsResized self.old self.new moment number size }
    {
        self.totaled.set_length(number, size, moment);
    }
}
