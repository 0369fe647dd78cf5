// The writing of the buffered pages as one group.
ghost use Rattle.std.specs.Prelude.{◌≡◌, ◌<◌, ◌≤◌, ℕ, length};
ghost use Rattle.volume_terms.specs.Sizes.{number_end};
ghost use Rattle.nand_model.specs.Calls.{Lasts};
ghost use Rattle.block_state.specs.Committed.{bad_count};
ghost use Rattle.block_state.specs.TableOf.{table};
ghost use Rattle.page_store.specs.BufferOf.{contents};
ghost use Rattle.page_store.specs.Buffering.{Buffers};
ghost use Rattle.transactions.specs.Ready.{IsReady};
ghost use Rattle.flash_log.specs.Consistency.{IsConsistentLog};
ghost use Rattle.flash_log.specs.RoomMaking.{FitsOpen};
ghost use Rattle.flash_log.specs.Mountable.{KeepsMountable};
ghost use Rattle.page_store.specs.Buffered.{in_parts, log_in};
ghost use Rattle.page_store.specs.Carrying.{AreWritable};
ghost use Rattle.page_store.specs.CommitKeeping.{SameSizes};
ghost use Rattle.page_store.specs.GroupWriting.{Attempts, PaysAttempt, TrustsOpen};

use crate::Buffer;
use crate::key_ranges::have_ranges;
use block_state::Blocks;
use chunk_index::{Index, WrittenGroup, the_list_of_a_block_is_whole};
use flash_log::RoomFault;
use nand_model::Nand;
use transactions::{Fresh, GroupFault, write_group};

/// What became of the group of the buffered pages.
#[derive(Clone, Copy, Debug, PartialEq, Eq)]
pub(crate) enum Attempt {
    /// It is valid.
    Trusted,
    /// It is valid, and the device said that its last page, in this block, failed.
    Suspect(u32),
    /// The device reported a failure of this block, and the group is not valid.
    Failed(u32),
}

/// Writes the buffered pages as one group into the open block, which has room for them, and settles the index where the
/// group is valid.
pub(crate) fn write_buffered<N: Nand>(
    device: &mut N,
    blocks: &mut Blocks,
    index: &mut Index,
    buffer: &mut Buffer,
    scratch: &mut [u8],
) -> Result<Attempt, RoomFault>
    requires can_write { IsReady (N.state device.old) (table blocks.old) }
    requires number { (table blocks.old).next_group < number_end }
    requires consistent { (spare : ℕ) × IsConsistentLog spare (N.state device.old) (table blocks.old) index.old }
    requires buffers { Buffers index.old (contents buffer.old) }
    requires not_empty { 1 ≤ length (contents buffer.old) }
    requires pages { AreWritable (N.state device.old) (contents buffer.old) }
    requires fits { FitsOpen (length (contents buffer.old)) (table blocks.old) }
    requires size { length scratch.old ≡ (N.state device.old).geometry.bytes }
    ensures lasts { Lasts (N.state device.old) (N.state device.new) }
    ensures can_write { IsReady (N.state device.new) (table blocks.new) }
    ensures bad { bad_count (table blocks.new) ≡ bad_count (table blocks.old) }
    ensures pays { PaysAttempt (length (contents buffer.old)) (log_in N.state device.old blocks.old) (log_in N.state device.new blocks.new) result }
    ensures keeps_open { TrustsOpen (length (contents buffer.old)) (log_in N.state device.old blocks.old) (log_in N.state device.new blocks.new) result }
    ensures attempts { Attempts (in_parts N.state device.old blocks.old index.old buffer.old) (in_parts N.state device.new blocks.new index.new buffer.new) result }
    // Wherever power is lost, the next mount may go by summaries, if it might before.
    ensures mountable { KeepsMountable (log_in N.state device.old blocks.old) (log_in N.state device.new blocks.new) index.old index.new }
    ensures sizes { SameSizes buffer.old buffer.new }
{
    have_ranges(buffer.pages());
    the_list_of_a_block_is_whole();
    let Some(block) = blocks.open_block() else {
        unreachable!()
    };
    let pages = buffer.pages();
    match write_group(device, blocks, &Fresh { pages }, scratch) {
        Ok(placed) => {
            let group = WrittenGroup {
                block: placed.block,
                first: placed.first,
                number: placed.group,
            };
            buffer.settle(index, group, blocks);
            if placed.suspect {
                return Ok(Attempt::Suspect(block));
            }
            Ok(Attempt::Trusted)
        }
        Err(GroupFault::Failed) => Ok(Attempt::Failed(block)),
        Err(GroupFault::NoRoom) => unreachable!(),
        Err(GroupFault::Lost) => Err(RoomFault::Lost),
        Err(GroupFault::Gone) => Err(RoomFault::Gone),
    }
}
