// The refresh of a block.
ghost use Rattle.std.specs.Prelude.{◌≡◌, ◌<◌, Ok, OnOk};
ghost use Rattle.block_state.specs.TableOf.{table};
ghost use Rattle.flash_log.specs.Bills.{PaysCollection};
ghost use Rattle.flash_log.specs.LogOf.{HasReserve, Moves, SameTerms, log_state, terms_of};
ghost use Rattle.flash_log.specs.Moving.{MovesOut};
ghost use Rattle.flash_log.specs.Refreshing.{IsWrittenAnew, MovesNothing, RefreshEnds};
ghost use Rattle.flash_log.specs.RoomMaking.{StaysWhole};

use crate::fault::MoveFault;
use crate::log::Log;
use chunk_index::the_counts_are_of_the_keys;
use nand_model::Nand;

impl<N: Nand> Log<N> {
    /// Moves what is committed in a block into a freshly erased free block, as a garbage collection does. Of a block in which nothing
    /// is committed, or that is marked bad, it makes no call of the device.
    pub fn refresh(&mut self, block: u32) -> Result<(), MoveFault>
        requires within_limit { HasReserve self.old }
        requires block { block < (N.state self.old.device).geometry.blocks }
        ensures terms { SameTerms (terms_of self.old) (terms_of self.new) }
        ensures step { Moves self.old self.new }
        ensures out { MovesOut block self.old.index self.new.index }
        ensures pays { PaysCollection block (log_state self.old) (log_state self.new) result }
        ensures nothing { MovesNothing block (table self.old.blocks) → StaysWhole self.old self.new × (result ≡ Ok tt) }
        // What is committed in the block afterwards was written in this call.
        ensures anew { OnOk result (IsWrittenAnew block (log_state self.old) (log_state self.new) self.new.index) }
        ensures ends { RefreshEnds block self.old.spare (log_state self.old) (log_state self.new) result }
    {
        the_counts_are_of_the_keys();
        let entry = self.blocks.entry(block);
        if entry.bad || entry.committed == 0 {
            return Ok(());
        }
        self.collect(block)
    }
}
