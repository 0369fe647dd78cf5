// The collection of a block into the next one, which may begin with a summary.
ghost use Rattle.std.specs.Prelude.{◌≡◌, ◌<◌, ◌≤◌, ◌+◌, false};
ghost use Rattle.block_state.specs.TableOf.{table};
ghost use Rattle.flash_log.specs.Gathering.{GatherEnds, PaysGathering};
ghost use Rattle.flash_log.specs.LogOf.{HasReserve, Moves, SameTerms, log_state, terms_of};
ghost use Rattle.flash_log.specs.Moving.{MovesOut};

use crate::fault::MoveFault;
use crate::log::Log;
use crate::moving::Moved;
use chunk_index::the_counts_are_of_the_keys;
use nand_model::Nand;
use volume_terms::NUMBER_END;

impl<N: Nand> Log<N> {
    /// Allocates the next block, which may begin with a summary of the one that was open, and moves what is committed in a block into
    /// it, so that it has room for `count` pages more. Where the copy is suspect its block is retired; where a program of it fails its
    /// block is marked, and the pages are moved into another, which begins with them.
    pub(crate) fn gather(&mut self, block: u32, count: u32) -> Result<(), MoveFault>
        requires within_limit { HasReserve self.old }
        requires block { block < (N.state self.old.device).geometry.blocks }
        requires good { ((table self.old.blocks).entry block).bad ≡ false }
        requires has_committed { 1 ≤ ((table self.old.blocks).entry block).committed }
        requires fits { ((table self.old.blocks).entry block).committed + count ≤ (table self.old.blocks).geometry.pages }
        ensures terms { SameTerms (terms_of self.old) (terms_of self.new) }
        ensures step { Moves self.old self.new }
        ensures out { MovesOut block self.old.index self.new.index }
        ensures pays { PaysGathering ((table self.old.blocks).entry block).committed count (log_state self.old) (log_state self.new) result }
        ensures ends { GatherEnds count self.old.spare (log_state self.new) result }
    {
        the_counts_are_of_the_keys();
        if self.blocks.next_group() >= NUMBER_END {
            return Err(MoveFault::Worn);
        }
        let committed = self.blocks.entry(block).committed;
        self.open_next(committed + count)?;
        match self.move_behind(block)? {
            Some(Moved::Trusted) => Ok(()),
            Some(Moved::Suspect(copies)) => self.retire(copies),
            None => self.collect(block),
        }
    }
}
