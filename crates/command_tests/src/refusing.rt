// A store that refuses memory.
ghost use Rattle.std.specs.Prelude.{◌≡◌, ℕ, suc, true, false, Some, None};
ghost use Rattle.command_tests.specs.Refusals.{refusing_meaning};
ghost use Rattle.command_tests.specs.laws.Refusals.{refusing_lawful};

use object_store::{ObjectChange, ObjectStore};
use posix_profile::{Info, NameList};
use std::alloc::Global;
use volume_terms::{StoreFault, VolumeSizes};

/// A store that answers `NoMemory` once: after so many calls that may take memory, where a number stands. Such calls find,
/// list, read, and make any change but `Forget`.
#[derive(Drop)]
pub struct RefusingStore<S> {
    pub inner: S,
    pub calls: Option<u64>,
}

impl<S: ObjectStore> RefusingStore<S> {
    /// Counts a call that may take memory, and returns whether it is the one that is refused: none after it is.
    fn refuses(&mut self) -> bool
        ensures inner { self.new.inner ≡ self.old.inner }
        ensures refuses { self.old.calls ≡ Some 0 → (result ≡ true) × (self.new.calls ≡ None) }
        ensures counts { (left : ℕ) → self.old.calls ≡ Some (suc left) → (result ≡ false) × (self.new.calls ≡ Some left) }
        ensures goes_on { self.old.calls ≡ None → (result ≡ false) × (self.new.calls ≡ None) }
    {
        match self.calls {
            None => false,
            Some(0) => {
                self.calls = None;
                true
            }
            Some(calls) => {
                self.calls = Some(calls - 1);
                false
            }
        }
    }
}

impl<S: ObjectStore> ObjectStore for RefusingStore<S> {
    ghost meaning = { refusing_meaning S.meaning (λ a. a.inner) };

    fn sizes(&self) -> VolumeSizes {
        self.inner.sizes()
    }

    fn info(&self, number: u64) -> Option<Info> {
        self.inner.info(number)
    }

    fn parent(&self, directory: u64) -> Option<u64> {
        self.inner.parent(directory)
    }

    fn entry_count(&self, directory: u64) -> u64 {
        self.inner.entry_count(directory)
    }

    fn charge(&self) -> u64 {
        self.inner.charge()
    }

    fn new_number(&self) -> u64 {
        self.inner.new_number()
    }

    fn has_power(&mut self) -> bool {
        self.inner.has_power()
    }

    fn find(&mut self, directory: u64, name: &[u8]) -> Result<Option<u64>, StoreFault> {
        if self.refuses() {
            return Err(StoreFault::NoMemory);
        }
        self.inner.find(directory, name)
    }

    fn names(&mut self, alloc: Global, directory: u64) -> Result<NameList, StoreFault> {
        if self.refuses() {
            return Err(StoreFault::NoMemory);
        }
        self.inner.names(alloc, directory)
    }

    fn read_into(
        &mut self,
        file: u64,
        offset: u64,
        buffer: &mut [u8],
    ) -> Result<usize, StoreFault> {
        if self.refuses() {
            return Err(StoreFault::NoMemory);
        }
        self.inner.read_into(file, offset, buffer)
    }

    fn apply(&mut self, change: &ObjectChange<'_>) -> Result<(), StoreFault> {
        if let ObjectChange::Forget { .. } = change {
            return self.inner.apply(change);
        }
        if self.refuses() {
            return Err(StoreFault::NoMemory);
        }
        self.inner.apply(change)
    }

    fn commit(&mut self) -> Result<(), StoreFault> {
        self.inner.commit()
    }

    ghost lawful = { refusing_lawful S.meaning S.lawful (λ a. a.inner) };
}
