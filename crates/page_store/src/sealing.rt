// The end of a store with a checkpoint.
ghost use Rattle.std.specs.Prelude.{◌≡◌, ◌≤◌, ◌+◌};
ghost use Rattle.block_state.specs.TableOf.{table};
ghost use Rattle.flash_log.specs.CheckpointDue.{IsDue, check_pages};
ghost use Rattle.nand_model.specs.Counts.{Costs};
ghost use Rattle.page_store.specs.Sealing.{IsSealed, seal_fault_of};
ghost use Rattle.page_store.specs.PagesOf.{store_pages};

use crate::store::Store;
use chunk_index::the_counts_are_of_the_keys;
use flash_log::SealFault;
use nand_model::Nand;
use volume_terms::StoreFault;

/// What a fault of the writing of a checkpoint is to those above: a lack of blocks, or a device that failed.
fn store_fault(fault: SealFault) -> StoreFault
    ensures { result ≡ seal_fault_of fault }
{
    match fault {
        SealFault::Worn => StoreFault::Worn,
        SealFault::Lost => StoreFault::Device,
        SealFault::Gone => StoreFault::Device,
    }
}

impl<N: Nand> Store<N> {
    /// Writes a checkpoint of the pages that are committed, where one is due, and gives the device back. What is buffered is not
    /// written.
    pub fn seal(self) -> (N, Result<(), StoreFault>)
        ensures seals { IsSealed (IsDue self.log.spare (table self.log.blocks)) (store_pages self) (N.state result.0) result.1 }
        // The erase of a block and the pages of the checkpoint, and for each failure an erase or a mark, and what failed.
        ensures costs { Costs (check_pages (table self.log.blocks) + 1) 2 0 (N.state self.log.device) (N.state result.0) }
        // No page is read but one whose program is said to have failed.
        ensures reads { (N.state result.0).reads + (N.state self.log.device).failures ≤ (N.state self.log.device).reads + (N.state result.0).failures }
    {
        if self.broken {
            return (self.log.device, Err(StoreFault::Device));
        }
        the_counts_are_of_the_keys();
        let Store { mut log, .. } = self;
        match log.seal() {
            Ok(()) => (log.device, Ok(())),
            Err(fault) => (log.device, Err(store_fault(fault))),
        }
    }
}
