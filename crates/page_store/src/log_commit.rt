// The commit.
ghost use Rattle.std.specs.Prelude.{◌≡◌, [], length, true};
ghost use Rattle.block_state.specs.TableOf.{table};
ghost use Rattle.chunk_index.specs.declared.form.WrittenGroup.{WrittenGroup};
ghost use Rattle.chunk_index.specs.Counts.{Recounts};
ghost use Rattle.chunk_index.specs.Maps.{CountsAgree, Settles, count_committed_in};
ghost use Rattle.page_store.specs.BufferOf.{contents, last_written};
ghost use Rattle.page_store.specs.Buffering.{Buffers, IsUnbuffered};
ghost use Rattle.flash_log.specs.LogOf.{HasReserve, SameTerms, log_state, terms_of};
ghost use Rattle.flash_log.specs.Consistency.{HasFreeBlocks};
ghost use Rattle.page_store.specs.Buffered.{held};
ghost use Rattle.page_store.specs.Carrying.{CanWriteBuffer, CarriesOrShows};
ghost use Rattle.page_store.specs.Committing.{CommitEnds, CommitsNothing, PaysCommit};
ghost use Rattle.page_store.specs.CommitKeeping.{KeepsBuffer, KeepsLog, SameSizes};
ghost use Rattle.page_store.specs.GroupWriting.{GoesWell};

use crate::Buffer;
use crate::turn::write_whole;
use block_state::Blocks;
use chunk_index::{Index, WrittenGroup, the_list_of_a_block_is_whole};
use flash_log::{Log, RoomFault};
use nand_model::Nand;

/// Settles the index, where no page is buffered: what was dropped is not committed any more.
fn settle_empty(index: &mut Index, buffer: &mut Buffer, blocks: &mut Blocks)
    requires buffers { Buffers index.old (contents buffer.old) }
    requires none { contents buffer.old ≡ [] }
    requires agree { CountsAgree (table blocks.old) index.old }
    ensures settles { (g : WrittenGroup) × Settles g index.old index.new }
    ensures agree { CountsAgree (table blocks.new) index.new }
    ensures counts { Recounts (count_committed_in index.old) (count_committed_in index.new) (table blocks.old) (table blocks.new) }
    ensures unbuffered { IsUnbuffered index.new }
    ensures empty { contents buffer.new ≡ [] }
    ensures last { last_written buffer.new ≡ contents buffer.old }
    ensures sizes { SameSizes buffer.old buffer.new }
{
    let group = WrittenGroup {
        block: 0,
        first: 0,
        number: 0,
    };
    buffer.settle(index, group, blocks);
}

/// Writes the pages of the buffer to the flash as one group, so that all are valid or none is, and settles the index: what is
/// current is committed then, and what was dropped is not. Where a program fails, its block is retired and the group is written
/// again, while there are blocks to spare. It takes no memory. With no page in the buffer there is no call of the device.
pub fn commit<N: Nand>(log: &mut Log<N>, buffer: &mut Buffer) -> Result<(), RoomFault>
    requires reserve { HasReserve log.old × HasFreeBlocks (table log.old.blocks) log.old.spare }
    requires buffers { CanWriteBuffer (held log.old buffer.old) }
    ensures log { KeepsLog log.old.spare (held log.old buffer.old) (held log.new buffer.new) }
    ensures terms { SameTerms (terms_of log.old) (terms_of log.new) }
    ensures pays { PaysCommit (length (contents buffer.old)) log.old.spare (log_state log.old) (log_state log.new) result }
    // The open block is closed only where it lacks the pages, or a program failed; and what nothing hinders is done.
    ensures well { GoesWell (length (contents buffer.old)) (log_state log.old) (log_state log.new) result }
    ensures buffer { SameSizes buffer.old buffer.new × KeepsBuffer (held log.old buffer.old) (held log.new buffer.new) }
    // Wherever it ends, the device carries what was committed, or all that was current, with blocks enough free of it.
    ensures carries { (N.state log.old.device).honest ≡ true → CarriesOrShows log.old.spare (held log.old buffer.old) (N.state log.new.device) }
    ensures nothing { CommitsNothing (held log.old buffer.old) (held log.new buffer.new) result }
    ensures ends { CommitEnds log.old.spare (held log.old buffer.old) (held log.new buffer.new) result }
{
    if buffer.pages().is_empty() {
        the_list_of_a_block_is_whole();
        settle_empty(&mut log.index, buffer, &mut log.blocks);
        return Ok(());
    }
    write_whole(log, buffer)
}
