// A store with a fuse.
ghost use Rattle.std.specs.Prelude.{◌≡◌, ◌+◌};
ghost use Rattle.command_tests.specs.Fuses.{fused_meaning};
ghost use Rattle.command_tests.specs.laws.Fuses.{fused_lawful};
ghost use Rattle.command_tests.specs.declared.fuse.CallEnd.TheVariants as ends;
ghost use Rattle.command_tests.specs.declared.fuse.LastCall.TheVariants as fates;

use object_store::{ObjectChange, ObjectStore};
use posix_profile::{Info, NameList};
use std::alloc::Global;
use volume_terms::{StoreFault, VolumeSizes};

/// What becomes of the call at which the device is lost.
#[derive(Clone, Copy, Debug, PartialEq, Eq)]
pub enum LastCall {
    Done,
    NotDone,
}

/// A store whose device is lost after so many calls that reach it.
#[derive(Drop)]
pub struct FusedStore<S> {
    pub inner: S,
    pub calls: u64,
    pub last: LastCall,
}

/// What becomes of a call.
#[derive(Clone, Copy, Debug, PartialEq, Eq)]
enum CallEnd {
    Goes,
    DoneAndLost,
    NotDone,
}

impl<S> FusedStore<S> {
    /// What becomes of the next call: it takes one of those that are left, or is the last one.
    fn next_call(&mut self) -> CallEnd
        ensures same { (self.new.inner ≡ self.old.inner) × (self.new.last ≡ self.old.last) }
        ensures goes { result ≡ ends.Goes → self.old.calls ≡ self.new.calls + 1 }
        ensures done { result ≡ ends.DoneAndLost → (self.new.calls ≡ 0) × (self.old.calls ≡ 0) × (self.old.last ≡ fates.Done) }
        ensures not_done { result ≡ ends.NotDone → (self.new.calls ≡ 0) × (self.old.calls ≡ 0) × (self.old.last ≡ fates.NotDone) }
    {
        if self.calls > 0 {
            self.calls -= 1;
            return CallEnd::Goes;
        }
        match self.last {
            LastCall::Done => CallEnd::DoneAndLost,
            LastCall::NotDone => CallEnd::NotDone,
        }
    }
}

impl<S: ObjectStore> ObjectStore for FusedStore<S> {
    ghost meaning = { fused_meaning S.meaning (λ a. a.inner) (λ a. a.calls) (λ a. a.last) (λ fate. fate ≡ fates.Done) };

    fn sizes(&self) -> VolumeSizes {
        self.inner.sizes()
    }

    fn info(&self, number: u64) -> Option<Info> {
        self.inner.info(number)
    }

    fn parent(&self, directory: u64) -> Option<u64> {
        self.inner.parent(directory)
    }

    fn entry_count(&self, directory: u64) -> u64 {
        self.inner.entry_count(directory)
    }

    fn charge(&self) -> u64 {
        self.inner.charge()
    }

    fn new_number(&self) -> u64 {
        self.inner.new_number()
    }

    fn has_power(&mut self) -> bool {
        self.inner.has_power()
    }

    fn find(&mut self, directory: u64, name: &[u8]) -> Result<Option<u64>, StoreFault> {
        match self.next_call() {
            CallEnd::Goes => self.inner.find(directory, name),
            CallEnd::DoneAndLost => Err(StoreFault::Device),
            CallEnd::NotDone => Err(StoreFault::Device),
        }
    }

    fn names(&mut self, alloc: Global, directory: u64) -> Result<NameList, StoreFault> {
        match self.next_call() {
            CallEnd::Goes => self.inner.names(alloc, directory),
            CallEnd::DoneAndLost => Err(StoreFault::Device),
            CallEnd::NotDone => Err(StoreFault::Device),
        }
    }

    fn read_into(
        &mut self,
        file: u64,
        offset: u64,
        buffer: &mut [u8],
    ) -> Result<usize, StoreFault> {
        match self.next_call() {
            CallEnd::Goes => self.inner.read_into(file, offset, buffer),
            CallEnd::DoneAndLost => Err(StoreFault::Device),
            CallEnd::NotDone => Err(StoreFault::Device),
        }
    }

    fn apply(&mut self, change: &ObjectChange<'_>) -> Result<(), StoreFault> {
        match self.next_call() {
            CallEnd::Goes => self.inner.apply(change),
            CallEnd::DoneAndLost => {
                self.inner.apply(change)?;
                Err(StoreFault::Device)
            }
            CallEnd::NotDone => Err(StoreFault::Device),
        }
    }

    fn commit(&mut self) -> Result<(), StoreFault> {
        match self.next_call() {
            CallEnd::Goes => self.inner.commit(),
            CallEnd::DoneAndLost => {
                self.inner.commit()?;
                Err(StoreFault::Device)
            }
            CallEnd::NotDone => Err(StoreFault::Device),
        }
    }

    ghost lawful = { fused_lawful S.meaning S.lawful (λ a. a.inner) (λ a. a.calls) (λ a. a.last) (λ fate. fate ≡ fates.Done) };
}
