// The writing of a checkpoint of a log that is unmounted.
ghost use Rattle.std.specs.Prelude.{◌≡◌, ◌+◌, OnOk};
ghost use Rattle.block_state.specs.TableOf.{table};
ghost use Rattle.flash_log.specs.LogOf.{HasReserve, SameTerms, log_state, terms_of};
ghost use Rattle.flash_log.specs.Moving.{AnswersFailures, MarksFailures};
ghost use Rattle.flash_log.specs.CheckpointKeeping.{Seals};
ghost use Rattle.flash_log.specs.CheckpointDue.{check_pages};
ghost use Rattle.flash_log.specs.Sealing.{SealEnds};
ghost use Rattle.flash_log.specs.CheckpointWriting.{ReadsSuspects};
ghost use Rattle.nand_model.specs.Counts.{Costs};

use crate::checkpoint_due::due;
use crate::checkpoint_source::Checks;
use crate::checkpoint_writing::write_into;
use crate::log::Log;
use crate::seal_fault::SealFault;
use chunk_index::{the_counts_add_up_to_the_committed_keys, the_counts_are_of_the_keys};
use nand_model::Nand;

impl<N: Nand> Log<N> {
    /// Writes a checkpoint that lists where the page of each key of the tree is, into a block that is allocated for it, and notes
    /// the block. Nothing is done where a block may have one already, where it has no room in a block, where too few blocks are free, and
    /// where no number is left. A block in which a program fails is marked, and no other is tried.
    pub fn seal(&mut self) -> Result<(), SealFault>
        ensures terms { SameTerms (terms_of self.old) (terms_of self.new) }
        ensures index { self.new.index ≡ self.old.index }
        ensures seals { Seals self.old.spare self.old.index (log_state self.old) (log_state self.new) }
        // Each mark answers a failure, and after Ok each failure has its mark.
        ensures marks { MarksFailures 0 0 (N.state self.old.device) (N.state self.new.device) (table self.old.blocks) (table self.new.blocks) }
        ensures answers { OnOk result (AnswersFailures 0 0 (N.state self.old.device) (N.state self.new.device) (table self.old.blocks) (table self.new.blocks)) }
        // It is done only with no more bad blocks than there are to spare.
        ensures within_limit { HasReserve self.old → OnOk result (HasReserve self.new) }
        // The erase and the pages of the checkpoint, and for each failure an erase or a mark, and what failed.
        ensures costs { Costs (check_pages (table self.old.blocks) + 1) 2 0 (N.state self.old.device) (N.state self.new.device) }
        ensures reads { ReadsSuspects (N.state self.old.device) (N.state self.new.device) }
        ensures ends { SealEnds self.old.spare self.old.index (log_state self.old) (log_state self.new) result }
    {
        the_counts_are_of_the_keys();
        the_counts_add_up_to_the_committed_keys();
        let spare = self.spare;
        let Some(extent) = due(&self.blocks, spare) else {
            return Ok(());
        };
        let block = self.allocate_block()?;
        let checks = Checks {
            index: &self.index,
            entries: extent.entries,
            geometry: self.blocks.geometry(),
            pages: extent.pages,
        };
        write_into(
            &mut self.device,
            &mut self.blocks,
            &checks,
            &mut self.room.scratch,
            block,
            spare,
        )
    }
}
