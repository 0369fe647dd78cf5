// The next block of a log, which may begin with a summary of the one before.
ghost use Rattle.std.specs.Prelude.{◌≡◌, ◌≤◌, ℕ, false, OnOk};
ghost use Rattle.block_state.specs.TableOf.{table};
ghost use Rattle.flash_log.specs.Bills.{Pays, bill_of};
ghost use Rattle.flash_log.specs.LogOf.{HasReserve, Moves, SameTerms, log_state, terms_of};
ghost use Rattle.flash_log.specs.SummaryMaking.{BeginsNext, KeepsHeld, NextEnds, PaysNext};

use crate::fault::MoveFault;
use crate::log::Log;
use crate::summary_writing::Summarized;
use chunk_index::the_counts_are_of_the_keys;
use nand_model::Nand;

impl<N: Nand> Log<N> {
    /// Allocates a free block, the one that may have a checkpoint before all others, and begins it with a summary of the block that was
    /// open, where that is worth it and leaves room for `count` pages. Where a program of the summary fails its block is marked, and
    /// the next begins with none.
    pub(crate) fn open_next(&mut self, count: u32) -> Result<(), MoveFault>
        requires within_limit { HasReserve self.old }
        requires count { count ≤ (table self.old.blocks).geometry.pages }
        ensures terms { SameTerms (terms_of self.old) (terms_of self.new) }
        ensures index { self.new.index ≡ self.old.index }
        ensures step { Moves self.old self.new }
        ensures pays { PaysNext count (log_state self.old) (log_state self.new) result }
        ensures holds { KeepsHeld (table self.old.blocks) (table self.new.blocks) }
        ensures within_limit { OnOk result (HasReserve self.new) }
        ensures begins { BeginsNext count (log_state self.old) (log_state self.new) result }
        ensures ends { NextEnds count self.old.spare (log_state self.old) (log_state self.new) result }
    {
        the_counts_are_of_the_keys();
        let written = self.written_block();
        let block = self.allocate_block()?;
        let Some(written) = written else {
            return Ok(());
        };
        match self.summarize(written, block, count)? {
            Summarized::Written => Ok(()),
            Summarized::Marked => self.open_plain(),
        }
    }

    /// Allocates a free block, unless more blocks are bad than there are to spare.
    fn open_plain(&mut self) -> Result<(), MoveFault>
        requires power { (N.state self.old.device).gone ≡ false }
        ensures terms { SameTerms (terms_of self.old) (terms_of self.new) }
        ensures index { self.new.index ≡ self.old.index }
        ensures step { Moves self.old self.new }
        ensures pays { Pays (bill_of (log_state self.old) 1 0 0) (log_state self.old) (log_state self.new) result }
        ensures holds { KeepsHeld (table self.old.blocks) (table self.new.blocks) }
        ensures within_limit { OnOk result (HasReserve self.new) }
        ensures ends { (count : ℕ) → count ≤ (table self.old.blocks).geometry.pages
            → NextEnds count self.old.spare (log_state self.old) (log_state self.new) result }
    {
        if self.blocks.bad_count() > self.spare {
            return Err(MoveFault::Worn);
        }
        self.allocate_block()?;
        Ok(())
    }
}
