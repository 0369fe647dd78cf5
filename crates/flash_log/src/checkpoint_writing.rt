// The writing of the pages of a checkpoint, and the mark of its block where a program failed.
ghost use Rattle.std.specs.Prelude.{◌≡◌, ◌<◌, ◌≤◌, ◌+◌, ◌*◌, ℕ, false, None, Some, length, OnOk};
ghost use Rattle.volume_terms.specs.Sizes.{number_end};
ghost use Rattle.block_state.specs.Committed.{bad_count};
ghost use Rattle.block_state.specs.TableOf.{table};
ghost use Rattle.transactions.specs.Checking.{log_of};
ghost use Rattle.nand_model.specs.Counts.{Costs};
ghost use Rattle.transactions.specs.Ready.{IsReady};
ghost use Rattle.flash_log.specs.Moving.{AnswersFailures, MarksFailures};
ghost use Rattle.flash_log.specs.Sealing.{IntoEnds};
ghost use Rattle.flash_log.specs.CheckpointSource.{CanList};
ghost use Rattle.flash_log.specs.CheckpointWriting.{ChangesAtMost, Leaves, LeavesListed, MarkEnds, MayMark, MayTake, WriteEnds, unanswered};

use crate::checkpoint_source::Checks;
use crate::seal_fault::SealFault;
use block_state::Blocks;
use nand_model::Nand;
use transactions::{GroupFault, mark_block, write_checkpoint};

/// What became of the group of a checkpoint.
#[derive(Clone, Copy, Debug, PartialEq, Eq)]
pub(crate) enum Written {
    /// It counts.
    Trusted,
    /// It counts, and the device said that its last page failed.
    Suspect,
    /// The device reported a failure, and the group does not count.
    Failed,
}

/// Closes a block, of which no page is committed, and notes that it may have a whole checkpoint.
fn note(blocks: &mut Blocks, block: u32)
    requires block { block < (table blocks.old).geometry.blocks }
    requires good { ((table blocks.old).entry block).bad ≡ false }
    requires uncommitted { ((table blocks.old).entry block).committed ≡ 0 }
    ensures { table blocks.new ≡ record (table blocks.old) { open_block = None; checkpoint = Some block } }
{
    blocks.close();
    blocks.note_checkpoint(block);
}

/// Writes the pages of a checkpoint into the open block, in which nothing is written, and notes the block where they may
/// count.
fn write_checks<N: Nand>(
    device: &mut N,
    blocks: &mut Blocks,
    checks: &Checks<'_>,
    scratch: &mut [u8],
    block: u32,
) -> Result<Written, SealFault>
    requires can_write { IsReady (N.state device.old) (table blocks.old) }
    requires number { (table blocks.old).next_group < number_end }
    requires size { length scratch.old ≡ (N.state device.old).geometry.bytes }
    requires list { CanList checks.now (N.state device.old).geometry (table blocks.old).next_group }
    requires take { MayTake block checks.now.index.now (N.state device.old) (table blocks.old) }
    ensures leaves { LeavesListed checks.now.index.now block (log_of (N.state device.old) (table blocks.old)) (log_of (N.state device.new) (table blocks.new)) }
    ensures block { MayMark block (table blocks.new) }
    ensures counts { (bad_count (table blocks.new) ≡ bad_count (table blocks.old)) × ChangesAtMost checks.now.pages (N.state device.old) (N.state device.new) }
    ensures answers { OnOk result ((N.state device.new).failures ≡ (N.state device.old).failures + unanswered result) }
    ensures ends { WriteEnds checks.now.index.now (log_of (N.state device.new) (table blocks.new)) result }
{
    match write_checkpoint(device, blocks, checks, scratch) {
        Ok(placed) => {
            note(blocks, block);
            if placed.suspect {
                return Ok(Written::Suspect);
            }
            Ok(Written::Trusted)
        }
        Err(GroupFault::Failed) => Ok(Written::Failed),
        Err(GroupFault::NoRoom) => unreachable!(),
        Err(GroupFault::Lost) => Err(SealFault::Lost),
        Err(GroupFault::Gone) => {
            note(blocks, block);
            Err(SealFault::Gone)
        }
    }
}

/// Marks the block of a checkpoint in which a program failed. More bad blocks than there are to spare are the end.
fn mark_failed<N: Nand>(
    device: &mut N,
    blocks: &mut Blocks,
    block: u32,
    spare: u32,
) -> Result<(), SealFault>
    requires can_write { IsReady (N.state device.old) (table blocks.old) }
    requires block { MayMark block (table blocks.old) }
    ensures leaves { Leaves (Unit {0}) block (log_of (N.state device.old) (table blocks.old)) (log_of (N.state device.new) (table blocks.new)) }
    ensures marks { bad_count (table blocks.new) ≤ bad_count (table blocks.old) + 1 }
    ensures failures { (N.state device.new).failures ≡ (N.state device.old).failures }
    ensures within_limit { OnOk result (bad_count (table blocks.new) ≤ spare) }
    ensures costs { ChangesAtMost 1 (N.state device.old) (N.state device.new) }
    ensures ends { MarkEnds spare (log_of (N.state device.old) (table blocks.old)) (log_of (N.state device.new) (table blocks.new)) result }
{
    match mark_block(device, blocks, block) {
        Ok(()) => {
            if blocks.bad_count() > spare {
                return Err(SealFault::Worn);
            }
            Ok(())
        }
        Err(_) => Err(SealFault::Gone),
    }
}

/// Writes a checkpoint into the open block, in which nothing is written, and marks the block where a program fails.
pub(crate) fn write_into<N: Nand>(
    device: &mut N,
    blocks: &mut Blocks,
    checks: &Checks<'_>,
    scratch: &mut [u8],
    block: u32,
    spare: u32,
) -> Result<(), SealFault>
    requires can_write { IsReady (N.state device.old) (table blocks.old) }
    requires number { (table blocks.old).next_group < number_end }
    requires size { length scratch.old ≡ (N.state device.old).geometry.bytes }
    requires list { CanList checks.now (N.state device.old).geometry (table blocks.old).next_group }
    requires take { MayTake block checks.now.index.now (N.state device.old) (table blocks.old) }
    ensures leaves { LeavesListed checks.now.index.now block (log_of (N.state device.old) (table blocks.old)) (log_of (N.state device.new) (table blocks.new)) }
    ensures marks { MarksFailures 0 0 (N.state device.old) (N.state device.new) (table blocks.old) (table blocks.new) }
    ensures answers { OnOk result (AnswersFailures 0 0 (N.state device.old) (N.state device.new) (table blocks.old) (table blocks.new)) }
    ensures within_limit { bad_count (table blocks.old) ≤ spare → OnOk result (bad_count (table blocks.new) ≤ spare) }
    ensures costs { Costs checks.now.pages 1 0 (N.state device.old) (N.state device.new) }
    ensures ends { IntoEnds spare checks.now.index.now (log_of (N.state device.old) (table blocks.old)) (log_of (N.state device.new) (table blocks.new)) result }
{
    match write_checks(device, blocks, checks, scratch, block)? {
        Written::Trusted => Ok(()),
        Written::Suspect => mark_failed(device, blocks, block, spare),
        Written::Failed => mark_failed(device, blocks, block, spare),
    }
}
