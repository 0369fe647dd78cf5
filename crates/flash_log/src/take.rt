// The taking of a block.
ghost use Rattle.std.specs.Prelude.{◌≡◌, ◌<◌, ◌≤◌, ◌^◌, ℕ, None, IfOk, OnOk};
ghost use Rattle.volume_terms.specs.Sizes.{number_end};
ghost use Rattle.nand_model.specs.Calls.{Lasts};
ghost use Rattle.block_state.specs.Committed.{bad_count};
ghost use Rattle.block_state.specs.TableOf.{table};
ghost use Rattle.transactions.specs.Handing.{HandsOut};
ghost use Rattle.transactions.specs.Ready.{IsReady};
ghost use Rattle.flash_log.specs.Moving.{AnswersFailures};
ghost use Rattle.flash_log.specs.Passing.{Passes};
ghost use Rattle.flash_log.specs.Taking.{HasUncommitted, IsItsTurn, TakesTurn, TriesOne, AsManyBad, TakeEnds, CostsATry, CostsATake, IsTaken, PaysTake};

use block_state::Blocks;
use nand_model::{EraseFault, Gone, Nand};
use transactions::{erase_and_open, mark_block};
use volume_terms::NUMBER_END;

/// Why no block was taken.
#[derive(Clone, Copy, Debug, PartialEq, Eq)]
pub enum TakeFault {
    /// More blocks are bad than there are to spare, or no number is left.
    Worn,
    Gone,
}

/// What became of a block that was to be taken.
#[derive(Clone, Copy, Debug, PartialEq, Eq)]
enum Tried {
    Taken(u32),
    /// Its erase failed.
    Marked,
}

/// Erases the block that may have a checkpoint, else the free block whose turn it is, and makes it the open one, or marks it where that fails.
fn try_block<N: Nand>(device: &mut N, blocks: &mut Blocks) -> Result<Tried, Gone>
    requires can_write { IsReady (N.state device.old) (table blocks.old) }
    requires closed { (table blocks.old).open_block ≡ None }
    requires uncommitted { (spare : ℕ) × HasUncommitted (table blocks.old) spare }
    requires seq { (table blocks.old).next_seq < number_end }
    ensures lasts { Lasts (N.state device.old) (N.state device.new) }
    ensures can_write { IsReady (N.state device.new) (table blocks.new) }
    ensures numbers { HandsOut (N.state device.old) (N.state device.new) (table blocks.old) (table blocks.new) }
    ensures passes { Passes (N.state device.old) (N.state device.new) (table blocks.old) (table blocks.new) }
    ensures answers { OnOk result (AnswersFailures 0 0 (N.state device.old) (N.state device.new) (table blocks.old) (table blocks.new)) }
    ensures costs { CostsATry (N.state device.old) (N.state device.new) result }
    ensures reads { (N.state device.new).reads ≡ (N.state device.old).reads }
    ensures within_limit { AsManyBad (table blocks.old) (table blocks.new) result }
    ensures turn { TakesTurn (table blocks.old) (table blocks.new) result }
    ensures ends { TriesOne (N.state device.new) (table blocks.old) (table blocks.new) result }
{
    let Some(block) = blocks.next_taken() else {
        unreachable!()
    };
    match erase_and_open(device, blocks, block) {
        Ok(()) => Ok(Tried::Taken(block)),
        Err(EraseFault::Failed) => {
            mark_block(device, blocks, block)?;
            Ok(Tried::Marked)
        }
        Err(EraseFault::Gone) => Err(Gone),
    }
}

/// Takes a free block: erases it and makes it the open one. The block that was open is so no longer. A block whose erase
/// fails is marked, and the next is tried, as long as no more than `spare` blocks are bad.
pub fn take_block<N: Nand>(
    device: &mut N,
    blocks: &mut Blocks,
    spare: u32,
) -> Result<u32, TakeFault>
    requires can_write { IsReady (N.state device.old) (table blocks.old) }
    requires uncommitted { HasUncommitted (table blocks.old) spare }
    ensures lasts { Lasts (N.state device.old) (N.state device.new) }
    ensures can_write { IsReady (N.state device.new) (table blocks.new) }
    ensures numbers { HandsOut (N.state device.old) (N.state device.new) (table blocks.old) (table blocks.new) }
    ensures passes { Passes (N.state device.old) (N.state device.new) (table blocks.old) (table blocks.new) }
    // Where a block is taken, each failure before has its mark.
    ensures answers { OnOk result (AnswersFailures 0 0 (N.state device.old) (N.state device.new) (table blocks.old) (table blocks.new)) }
    ensures costs { PaysTake (N.state device.old) (N.state device.new) }
    ensures turn { IfOk result (λ block. IsTaken block spare (table blocks.old) (table blocks.new)) }
    ensures ends { TakeEnds spare (N.state device.new) (table blocks.old) (table blocks.new) result }
{
    blocks.close();
    if blocks.next_seq() >= NUMBER_END {
        return Err(TakeFault::Worn);
    }
    loop {
        match try_block(device, blocks) {
            Ok(Tried::Taken(block)) => return Ok(block),
            Ok(Tried::Marked) => {
                if blocks.bad_count() > spare {
                    return Err(TakeFault::Worn);
                }
            }
            Err(_) => return Err(TakeFault::Gone),
        }
    }
}
