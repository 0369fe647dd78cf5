// The writing of the buffered pages, in as many turns as it takes.
ghost use Rattle.std.specs.Prelude.{◌<◌, ◌≤◌, length};
ghost use Rattle.volume_terms.specs.Sizes.{number_end};
ghost use Rattle.block_state.specs.TableOf.{table};
ghost use Rattle.page_store.specs.BufferOf.{contents};
ghost use Rattle.page_store.specs.Buffering.{Buffers};
ghost use Rattle.flash_log.specs.LogOf.{HasReserve, SameTerms, log_state, terms_of};
ghost use Rattle.flash_log.specs.Consistency.{HasFreeBlocks};
ghost use Rattle.flash_log.specs.RoomMaking.{FitsOpen};
ghost use Rattle.page_store.specs.Buffered.{held};
ghost use Rattle.page_store.specs.Carrying.{AreWritable};
ghost use Rattle.page_store.specs.Committing.{PaysCommit};
ghost use Rattle.page_store.specs.CommitKeeping.{Leaves, SameSizes};
ghost use Rattle.page_store.specs.GroupWriting.{GoesWell, PaysTurn, PaysWriting, TurnEnds, WholeEnds};

use crate::Buffer;
use crate::group_writing::{Attempt, write_buffered};
use flash_log::{Log, RoomFault};
use nand_model::Nand;
use volume_terms::NUMBER_END;

/// What became of a turn.
#[derive(Clone, Copy, Debug, PartialEq, Eq)]
pub(crate) enum Turn {
    /// The buffered pages are valid.
    Written,
    /// The device reported a failure, and its block is retired.
    Again,
}

/// Writes the buffered pages as one group into the open block, which has room for them, and retires it where a program failed.
fn write_in_room<N: Nand>(log: &mut Log<N>, buffer: &mut Buffer) -> Result<Turn, RoomFault>
    requires within_limit { HasReserve log.old }
    requires free { HasFreeBlocks (table log.old.blocks) log.old.spare }
    requires buffers { Buffers log.old.index (contents buffer.old) }
    requires not_empty { 1 ≤ length (contents buffer.old) }
    requires pages { AreWritable (N.state log.old.device) (contents buffer.old) }
    requires fits { FitsOpen (length (contents buffer.old)) (table log.old.blocks) }
    requires number { (table log.old.blocks).next_group < number_end }
    ensures terms { SameTerms (terms_of log.old) (terms_of log.new) }
    ensures leaves { Leaves log.old.spare (held log.old buffer.old) (held log.new buffer.new) }
    ensures pays { PaysWriting (length (contents buffer.old)) (log_state log.old) (log_state log.new) result }
    ensures well { GoesWell (length (contents buffer.old)) (log_state log.old) (log_state log.new) result }
    ensures sizes { SameSizes buffer.old buffer.new }
    ensures ends { TurnEnds log.old.spare (held log.old buffer.old) (held log.new buffer.new) result }
{
    match write_buffered(
        &mut log.device,
        &mut log.blocks,
        &mut log.index,
        buffer,
        &mut log.room.scratch,
    )? {
        Attempt::Trusted => Ok(Turn::Written),
        Attempt::Suspect(block) => {
            log.retire(block)?;
            Ok(Turn::Written)
        }
        Attempt::Failed(block) => {
            log.retire(block)?;
            Ok(Turn::Again)
        }
    }
}

/// Makes room in the open block, writes the buffered pages into it as one group, and retires it where a program failed.
fn take_turn<N: Nand>(log: &mut Log<N>, buffer: &mut Buffer) -> Result<Turn, RoomFault>
    requires within_limit { HasReserve log.old }
    requires free { HasFreeBlocks (table log.old.blocks) log.old.spare }
    requires buffers { Buffers log.old.index (contents buffer.old) }
    requires not_empty { 1 ≤ length (contents buffer.old) }
    requires pages { AreWritable (N.state log.old.device) (contents buffer.old) }
    ensures terms { SameTerms (terms_of log.old) (terms_of log.new) }
    ensures leaves { Leaves log.old.spare (held log.old buffer.old) (held log.new buffer.new) }
    ensures pays { PaysTurn (length (contents buffer.old)) log.old.spare (log_state log.old) (log_state log.new) result }
    ensures well { GoesWell (length (contents buffer.old)) (log_state log.old) (log_state log.new) result }
    ensures sizes { SameSizes buffer.old buffer.new }
    ensures ends { TurnEnds log.old.spare (held log.old buffer.old) (held log.new buffer.new) result }
{
    let count = buffer.pages().len() as u32;
    log.make_room(count)?;
    if log.blocks.next_group() >= NUMBER_END {
        return Err(RoomFault::Worn);
    }
    log.room.note_pages(&log.blocks, buffer.pages());
    write_in_room(log, buffer)
}

/// Writes the buffered pages, of which there are some, as one group. A block where that fails is retired, and they are
/// written again, while there are blocks to spare.
pub(crate) fn write_whole<N: Nand>(log: &mut Log<N>, buffer: &mut Buffer) -> Result<(), RoomFault>
    requires within_limit { HasReserve log.old }
    requires free { HasFreeBlocks (table log.old.blocks) log.old.spare }
    requires buffers { Buffers log.old.index (contents buffer.old) }
    requires not_empty { 1 ≤ length (contents buffer.old) }
    requires pages { AreWritable (N.state log.old.device) (contents buffer.old) }
    ensures terms { SameTerms (terms_of log.old) (terms_of log.new) }
    ensures leaves { Leaves log.old.spare (held log.old buffer.old) (held log.new buffer.new) }
    ensures pays { PaysCommit (length (contents buffer.old)) log.old.spare (log_state log.old) (log_state log.new) result }
    ensures well { GoesWell (length (contents buffer.old)) (log_state log.old) (log_state log.new) result }
    ensures sizes { SameSizes buffer.old buffer.new }
    ensures ends { WholeEnds log.old.spare (held log.old buffer.old) (held log.new buffer.new) result }
{
    loop {
        match take_turn(log, buffer)? {
            Turn::Written => return Ok(()),
            Turn::Again => {}
        }
    }
}
