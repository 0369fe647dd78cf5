// A store of objects.
ghost use Rattle.std.specs.Prelude.{◌≡◌, ◌≤◌, true, Err, IfOk, OnOk, length, drop};
ghost use Rattle.std.specs.FinMap as map;
ghost use Rattle.posix_profile.specs.State.{Objects, entries_of};
ghost use Rattle.posix_profile.specs.Charge.{charge};
ghost use Rattle.posix_profile.specs.Changes.{new_number};
ghost use Rattle.volume_terms.specs.VolumeSizes.{sizes_of};
ghost use Rattle.object_store.specs.Stores.{Meaning, IsLawful, Finds, Makes, Commits, OfDirectory, OfFile, OfTree};
ghost use Rattle.object_store.specs.Changes.{CanMake, takes_none};
ghost use Rattle.object_store.specs.Facts.{info_of, entry_of, names_of, bytes_from, front, NamedBy};
ghost use Rattle.volume_terms.specs.declared.fault.StoreFault.TheVariants as faults;

use crate::change::ObjectChange;
use posix_profile::{Info, NameList};
use std::alloc::Global;
use volume_terms::{StoreFault, VolumeSizes};

/// Objects, which are looked up and changed. What a `&self` call returns it knows without reading.
///
/// A fault other than `NoMemory` ends the use of the store: then its objects are known no longer, and only the tree that
/// a mount would show is.
pub trait ObjectStore {
    /// What it represents, and what its calls leave.
    ghost meaning: { Meaning Self };

    /// The numbers of its volume.
    fn sizes(&self) -> VolumeSizes
        ensures { sizes_of result ≡ meaning.sizes self.now };

    /// What is reported of the object at this number, if there is one.
    fn info(&self, number: u64) -> Option<Info>
        ensures { OfTree meaning self.now (λ z objects. result ≡ info_of objects number (map.get objects number)) };

    /// The directory that names a directory. The root has none, nor has one that was removed while it was open.
    fn parent(&self, directory: u64) -> Option<u64>
        ensures { OfDirectory meaning self.now directory (λ z objects. NamedBy objects directory result) };

    /// How many entries a directory has.
    fn entry_count(&self, directory: u64) -> u64
        ensures { OfDirectory meaning self.now directory (λ z objects. result ≡ map.len (entries_of (map.get objects directory))) };

    /// The units that the objects cost.
    fn charge(&self) -> u64
        ensures { OfTree meaning self.now (λ z objects. result ≡ charge z objects) };

    /// The number that the next new object gets.
    fn new_number(&self) -> u64
        ensures { OfTree meaning self.now (λ z objects. result ≡ new_number objects) };

    /// Whether the device has power still. It may ask the device.
    fn has_power(&mut self) -> bool
        ensures reads { meaning.reads self.old self.new }
        ensures power { result ≡ meaning.has_power self.new };

    /// The object that a name of a directory leads to.
    fn find(&mut self, directory: u64, name: &[u8]) -> Result<Option<u64>, StoreFault>
        ensures reads { meaning.reads self.old self.new }
        ensures power { OnOk result (meaning.has_power self.new ≡ meaning.has_power self.old) }
        ensures lookups { OfDirectory meaning self.old directory (λ z objects. Finds meaning (entry_of objects directory name.now) self.old self.new result) };

    /// The names of a directory, in the order of their bytes.
    fn names(&mut self, alloc: Global, directory: u64) -> Result<NameList, StoreFault>
        ensures reads { meaning.reads self.old self.new }
        ensures power { OnOk result (meaning.has_power self.new ≡ meaning.has_power self.old) }
        ensures lookups { OfDirectory meaning self.old directory (λ z objects. Finds meaning (names_of objects directory) self.old self.new result) };

    /// Reads the bytes of a file from the offset into a buffer, as many as there are and the buffer has room for, and returns how
    /// many. What lies past them in the buffer stays; after a fault it may hold anything.
    fn read_into(&mut self, file: u64, offset: u64, buffer: &mut [u8]) -> Result<usize, StoreFault>
        ensures reads { meaning.reads self.old self.new }
        ensures power { OnOk result (meaning.has_power self.new ≡ meaning.has_power self.old) }
        ensures size { length buffer.new ≡ length buffer.old }
        ensures count { IfOk result (λ count. count ≤ length buffer.old) }
        ensures rest { IfOk result (λ count. drop count buffer.new ≡ drop count buffer.old) }
        ensures lookups { OfFile meaning self.old file (λ z objects. Finds meaning (bytes_from objects file offset (length buffer.old)) self.old self.new (front result buffer.new)) };

    /// Makes a change. One that only forgets an object takes no memory and leaves the device as it is.
    fn apply(&mut self, change: &ObjectChange<'_>) -> Result<(), StoreFault>
        ensures lasts { meaning.lasts self.old self.new }
        ensures power { OnOk result (meaning.has_power self.new ≡ meaning.has_power self.old) }
        ensures leaves { takes_none change.now ≡ true → meaning.leaves self.old self.new }
        ensures applies { OfTree meaning self.old (λ z objects. CanMake z objects change.now → Makes meaning objects change.now self.old self.new result) }
        // A change that is refused memory is none, of any store.
        ensures refused { result ≡ Err faults.NoMemory → meaning.reads self.old self.new }
        ensures memory { takes_none change.now ≡ true → result ≡ Err faults.NoMemory → ⊥ };

    /// Makes the objects, without those that only descriptors keep, the tree that a mount shows.
    fn commit(&mut self) -> Result<(), StoreFault>
        ensures lasts { meaning.lasts self.old self.new }
        ensures power { OnOk result (meaning.has_power self.new ≡ meaning.has_power self.old) }
        ensures commits { OfTree meaning self.old (λ z objects. Commits meaning objects self.old self.new result) }
        ensures memory { result ≡ Err faults.NoMemory → ⊥ };

    /// Its words fit together.
    ghost lawful: { IsLawful meaning };
}
