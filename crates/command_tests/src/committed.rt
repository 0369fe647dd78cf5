// Maps that keep a copy of what was committed.
use object_store::{ObjectChange, ObjectStore};
use plain_volume::PlainObjects;
use posix_profile::{Info, NameList};
use std::alloc::{AllocError, Global};
use volume_terms::{StoreFault, VolumeSizes};

/// Objects in maps, and those that a mount would show.
#[derive(Drop)]
pub struct CommittedObjects {
    pub objects: PlainObjects,
    pub shown: PlainObjects,
}

impl CommittedObjects {
    /// A mount would show these.
    pub fn new(objects: PlainObjects) -> Result<CommittedObjects, AllocError> {
        let shown = objects.settled()?;
        Ok(CommittedObjects { objects, shown })
    }
}

impl ObjectStore for CommittedObjects {
    ghost use Rattle.command_tests.specs.Committed.{committed_meaning};
    ghost use Rattle.command_tests.specs.laws.Committed.{committed_lawful};

    ghost meaning = { committed_meaning (λ a. a.objects) (λ a. a.shown) };

    fn sizes(&self) -> VolumeSizes {
        self.objects.sizes()
    }

    fn info(&self, number: u64) -> Option<Info> {
        self.objects.info(number)
    }

    fn parent(&self, directory: u64) -> Option<u64> {
        self.objects.parent(directory)
    }

    fn entry_count(&self, directory: u64) -> u64 {
        self.objects.entry_count(directory)
    }

    fn charge(&self) -> u64 {
        self.objects.charge()
    }

    fn new_number(&self) -> u64 {
        self.objects.new_number()
    }

    fn has_power(&mut self) -> bool {
        self.objects.has_power()
    }

    fn find(&mut self, directory: u64, name: &[u8]) -> Result<Option<u64>, StoreFault> {
        self.objects.find(directory, name)
    }

    fn names(&mut self, alloc: Global, directory: u64) -> Result<NameList, StoreFault> {
        self.objects.names(alloc, directory)
    }

    fn read_into(
        &mut self,
        file: u64,
        offset: u64,
        buffer: &mut [u8],
    ) -> Result<usize, StoreFault> {
        self.objects.read_into(file, offset, buffer)
    }

    fn apply(&mut self, change: &ObjectChange<'_>) -> Result<(), StoreFault> {
        self.objects.apply(change)
    }

    fn commit(&mut self) -> Result<(), StoreFault> {
        match self.objects.settled() {
            Ok(shown) => {
                self.shown = shown;
                Ok(())
            }
            Err(_) => Err(StoreFault::Device),
        }
    }

    ghost lawful = { committed_lawful (λ a. a.objects) (λ a. a.shown) };
}
