// The making of room.
ghost use Rattle.std.specs.Prelude.{IsOk};
ghost use Rattle.block_state.specs.TableOf.{table};
ghost use Rattle.flash_log.specs.LogOf.{HasReserve, Moves, SameTerms, log_state, terms_of};
ghost use Rattle.flash_log.specs.SummaryMaking.{BeginsWhereNeeded};
ghost use Rattle.flash_log.specs.RoomMaking.{FitsOpen, MovesFewest, PaysRoom, RoomEnds, StaysWhole, StaysWhereFull};

use crate::choice::{has_uncommitted, victim};
use crate::log::Log;
use crate::room_fault::RoomFault;
use chunk_index::the_counts_are_of_the_keys;
use nand_model::Nand;

impl<N: Nand> Log<N> {
    /// Makes room for `count` pages in the open block, if it has not got it. While more blocks are without a committed page than
    /// may be needed for retirements and for one collection, one of them is allocated, and may begin with a summary of the block that
    /// was open. Else the block with the fewest committed pages is collected, of equals the one that was allocated longest ago:
    /// these are moved into a freshly erased block, which becomes the open one and may begin with a summary too. A block whose erase
    /// or copy fails is marked, while there are blocks to spare.
    pub fn make_room(&mut self, count: u32) -> Result<(), RoomFault>
        requires within_limit { HasReserve self.old }
        ensures terms { SameTerms (terms_of self.old) (terms_of self.new) }
        ensures step { Moves self.old self.new }
        ensures fewest { MovesFewest self.old.spare (table self.old.blocks) self.old.index self.new.index }
        ensures pays { PaysRoom self.old.spare (log_state self.old) (log_state self.new) result }
        ensures ends { RoomEnds count self.old.spare (log_state self.old) (log_state self.new) result }
        // While blocks can be allocated each begins with a summary of the one that was open, where that is worth it.
        ensures begins { BeginsWhereNeeded count self.old.spare (log_state self.old) (log_state self.new) result }
        ensures succeeds { FitsOpen count (table self.old.blocks) → IsOk result }
        ensures sufficient { FitsOpen count (table self.old.blocks) → StaysWhole self.old self.new }
        ensures full { StaysWhereFull self.old self.new result }
    {
        if count <= self.blocks.open_room() {
            return Ok(());
        }
        if count > self.blocks.geometry().pages() {
            return Err(RoomFault::Full);
        }
        the_counts_are_of_the_keys();
        if has_uncommitted(&self.blocks, self.spare) {
            self.open_next(count)?;
            return Ok(());
        }
        let Some(block) = victim(&self.blocks, count) else {
            return Err(RoomFault::Full);
        };
        self.gather(block, count)?;
        Ok(())
    }
}
