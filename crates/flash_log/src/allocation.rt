// The allocation of a block of a log.
ghost use Rattle.std.specs.Prelude.{◌≡◌, IfOk, OnOk};
ghost use Rattle.block_state.specs.TableOf.{table};
ghost use Rattle.flash_log.specs.Bills.{PaysAllocation};
ghost use Rattle.flash_log.specs.Passing.{Passes};
ghost use Rattle.flash_log.specs.Taking.{IsItsTurn, TakeEnds};

use crate::log::Log;
use crate::take::{TakeFault, take_block};
use chunk_index::the_counts_are_of_the_keys;
use nand_model::Nand;

impl<N: Nand> Log<N> {
    ghost use Rattle.flash_log.specs.LogOf.{HasReserve, Moves, SameTerms, log_state, terms_of};

    /// Allocates a free block, the one that may have a checkpoint before all others: erases it, and makes it the open one. The
    /// block that was open is so no longer. A block whose erase fails is marked, and the next is tried, while there are blocks
    /// to spare.
    pub fn allocate_block(&mut self) -> Result<u32, TakeFault>
        requires within_limit { HasReserve self.old }
        ensures terms { SameTerms (terms_of self.old) (terms_of self.new) }
        ensures index { self.new.index ≡ self.old.index }
        ensures step { Moves self.old self.new }
        ensures passes { Passes (N.state self.old.device) (N.state self.new.device) (table self.old.blocks) (table self.new.blocks) }
        ensures pays { PaysAllocation (log_state self.old) (log_state self.new) result }
        ensures within_limit { OnOk result (HasReserve self.new) }
        ensures turn { IfOk result (λ block. IsItsTurn block (table self.old.blocks) (table self.new.blocks)) }
        ensures ends { TakeEnds self.old.spare (N.state self.new.device) (table self.old.blocks) (table self.new.blocks) result }
    {
        the_counts_are_of_the_keys();
        take_block(&mut self.device, &mut self.blocks, self.spare)
    }
}
