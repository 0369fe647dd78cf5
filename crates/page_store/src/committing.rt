// The commit of a store's pages.
ghost use Rattle.std.specs.Prelude.{◌≡◌, [], false, IsOk};
ghost use Rattle.page_store.specs.BufferOf.{contents};
ghost use Rattle.page_store.specs.Committing.{PaysCommit};
ghost use Rattle.page_store.specs.Changing.{CommitKeeps, HasNoHindrance, StaysCarried, WriteOutEnds, fault_of};
ghost use Rattle.page_store.specs.StoreState.{waiting};
ghost use Rattle.page_store.specs.StateOf.{state_of};

use crate::caching::keep_written;
use crate::log_commit::commit;
use crate::store::{Found, Store};
use chunk_index::the_counts_are_of_the_keys;
use flash_log::RoomFault;
use nand_model::Nand;
use volume_terms::StoreFault;

/// What a fault of a commit is to those above: a lack of blocks or of numbers, or a device that failed.
fn store_fault(fault: RoomFault) -> StoreFault
    ensures { result ≡ fault_of fault }
{
    match fault {
        RoomFault::Full => StoreFault::Worn,
        RoomFault::Worn => StoreFault::Worn,
        RoomFault::Lost => StoreFault::Device,
        RoomFault::Gone => StoreFault::Device,
    }
}

impl<N: Nand> Store<N> {
    /// Writes what is buffered to the device as one group, so that what is committed is what is present. It takes no memory, and
    /// makes no call of the device where nothing is buffered.
    ///
    /// After a fault nothing is known of the pages of the store any more. The device has those that were committed, or those that
    /// were present.
    pub fn write_out(&mut self, spares: usize) -> Result<(), StoreFault>
        ensures keeps { CommitKeeps (state_of self.old) (state_of self.new) }
        // What is buffered is written without a read.
        ensures pays { PaysCommit (waiting (state_of self.old)) self.old.log.spare (state_of self.old).log (state_of self.new).log result }
        ensures carried { StaysCarried (state_of self.old) (state_of self.new) }
        // A commit of nothing is done, and so is one that nothing hinders.
        ensures unhindered { self.old.broken ≡ false → HasNoHindrance (state_of self.old) (state_of self.new) → IsOk result }
        ensures nothing { contents self.old.buffer ≡ [] → N.state self.new.log.device ≡ N.state self.old.log.device }
        ensures ends { WriteOutEnds (state_of self.old) (state_of self.new) result }
    {
        if self.broken {
            return Err(StoreFault::Device);
        }
        the_counts_are_of_the_keys();
        self.found = Found::Nowhere;
        self.counts.begin(self.buffer.pages().len());
        match commit(&mut self.log, &mut self.buffer) {
            Ok(()) => {
                keep_written(&mut self.buffer, &mut self.cache, spares);
                Ok(())
            }
            Err(fault) => {
                self.broken = true;
                Err(store_fault(fault))
            }
        }
    }
}
