// The collection of a block.
ghost use Rattle.std.specs.Prelude.{◌≡◌, ◌<◌, ◌≤◌, false, OnOk};
ghost use Rattle.block_state.specs.TableOf.{table};
ghost use Rattle.flash_log.specs.Bills.{PaysCollection};
ghost use Rattle.flash_log.specs.LogOf.{HasReserve, Moves, SameTerms, log_state, terms_of};
ghost use Rattle.flash_log.specs.Moving.{MovesOut};
ghost use Rattle.flash_log.specs.Refreshing.{IsWrittenAnew};
ghost use Rattle.flash_log.specs.RoomMaking.{CollectEnds};

use crate::fault::MoveFault;
use crate::log::Log;
use crate::moving::Moved;
use chunk_index::the_counts_are_of_the_keys;
use nand_model::Nand;

impl<N: Nand> Log<N> {
    /// Moves what is committed in a block into a freshly erased free block, which becomes the open one. Where the copy is suspect
    /// its block is retired.
    pub(crate) fn collect(&mut self, block: u32) -> Result<(), MoveFault>
        requires within_limit { HasReserve self.old }
        requires block { block < (N.state self.old.device).geometry.blocks }
        requires good { ((table self.old.blocks).entry block).bad ≡ false }
        requires has_committed { 1 ≤ ((table self.old.blocks).entry block).committed }
        ensures terms { SameTerms (terms_of self.old) (terms_of self.new) }
        ensures step { Moves self.old self.new }
        ensures out { MovesOut block self.old.index self.new.index }
        ensures pays { PaysCollection block (log_state self.old) (log_state self.new) result }
        ensures anew { OnOk result (IsWrittenAnew block (log_state self.old) (log_state self.new) self.new.index) }
        ensures ends { CollectEnds block self.old.spare (N.state self.new.device) (table self.old.blocks) (table self.new.blocks) result }
    {
        the_counts_are_of_the_keys();
        match self.move_committed(block)? {
            Moved::Trusted => Ok(()),
            Moved::Suspect(copies) => self.retire(copies),
        }
    }
}
