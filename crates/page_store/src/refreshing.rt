// The refresh of a block of a store.
ghost use Rattle.std.specs.Prelude.{◌≡◌};
ghost use Rattle.chunk_index.specs.Committed.{HoldsNone};
ghost use Rattle.chunk_index.specs.Maps.{committed_pages};
ghost use Rattle.page_store.specs.Refreshing.{CarriesStill, PaysRefresh, RefreshEnds, RefreshKeeps, moved_fault};
ghost use Rattle.page_store.specs.StateOf.{lent_by, state_of};

use crate::store::Store;
use chunk_index::the_counts_are_of_the_keys;
use flash_log::MoveFault;
use nand_model::Nand;
use volume_terms::StoreFault;

/// What a fault of a move is to those above: a lack of blocks or of numbers, or a device that failed.
fn store_fault(fault: MoveFault) -> StoreFault
    ensures { result ≡ moved_fault fault }
{
    match fault {
        MoveFault::Worn => StoreFault::Worn,
        MoveFault::Lost => StoreFault::Device,
        MoveFault::Gone => StoreFault::Device,
    }
}

impl<N: Nand> Store<N> {
    /// Moves what is committed in a block into a freshly erased free block. What is buffered, the cache and the page that was found
    /// last stay. Of a block in which nothing is committed, or that the device does not have, it makes no call of the device.
    ///
    /// After a fault nothing is known of the pages of the store any more. The device has those that were committed.
    pub fn refresh_block(&mut self, block: u32) -> Result<(), StoreFault>
        ensures keeps { RefreshKeeps (state_of self.old) (state_of self.new) }
        ensures lent { lent_by self.new ≡ lent_by self.old }
        ensures pays { PaysRefresh (state_of self.old).log (state_of self.new).log result }
        ensures carried { CarriesStill (state_of self.old) (state_of self.new) }
        ensures nothing { HoldsNone (committed_pages self.old.log.index) block → N.state self.new.log.device ≡ N.state self.old.log.device }
        ensures ends { RefreshEnds block (state_of self.old) (state_of self.new) result }
    {
        if self.broken {
            return Err(StoreFault::Device);
        }
        the_counts_are_of_the_keys();
        if block >= self.log.device.geometry().blocks() {
            return Ok(());
        }
        match self.log.refresh(block) {
            Ok(()) => Ok(()),
            Err(fault) => {
                self.broken = true;
                Err(store_fault(fault))
            }
        }
    }
}
