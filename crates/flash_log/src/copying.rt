// The copying of listed pages into a block that is taken.
ghost use Rattle.std.specs.Prelude.{◌≡◌, ◌<◌, ◌≤◌, ◌+◌, ℕ, length, None, OnOk};
ghost use Rattle.volume_terms.specs.Sizes.{number_end};
ghost use Rattle.block_state.specs.Committed.{bad_count};
ghost use Rattle.block_state.specs.TableOf.{table};
ghost use Rattle.transactions.specs.Checking.{log_of};
ghost use Rattle.transactions.specs.Ready.{IsReady};
ghost use Rattle.flash_log.specs.Bills.{PaysWriting, PaysOneBlock, PaysTarget};
ghost use Rattle.flash_log.specs.Copying.{MayBeCopied, CopiesPages, CopiesEnd, FewBad, IsClear, StartsAt, as_copied};
ghost use Rattle.flash_log.specs.Taking.{HasUncommitted};

use crate::copies::Copies;
use crate::fault::MoveFault;
use crate::take::take_block;
use block_state::Blocks;
use chunk_index::CommittedKey;
use nand_model::Nand;
use transactions::{GroupFault, mark_block, write_group};
use volume_terms::NUMBER_END;

/// Where copies were made.
#[derive(Clone, Copy, Debug, PartialEq, Eq)]
pub struct Target {
    pub block: u32,
    /// The page of the first copy.
    pub first: u32,
    /// The device said that the last page failed, and it reads whole.
    pub suspect: bool,
}

/// What became of copies.
#[derive(Clone, Copy, Debug, PartialEq, Eq)]
pub enum Copied {
    Into(Target),
    /// A program failed, and the block is marked.
    Marked,
}

/// Writes copies as one group into the open block, which has room for them and in which no page is committed, and marks it where that fails.
pub(crate) fn write_copies<N: Nand>(
    device: &mut N,
    blocks: &mut Blocks,
    block: u32,
    copies: &[CommittedKey],
    scratch: &mut [u8],
) -> Result<Copied, MoveFault>
    requires can_write { IsReady (N.state device.old) (table blocks.old) }
    requires clear { IsClear block (N.state device.old) (table blocks.old) }
    requires fits { ((table blocks.old).entry block).next + length copies.now ≤ (table blocks.old).geometry.pages }
    requires group { (table blocks.old).next_group < number_end }
    requires size { length scratch.old ≡ (N.state device.old).geometry.bytes }
    requires copies { MayBeCopied (N.state device.old) (table blocks.old) copies.now }
    ensures pages { CopiesPages copies.now (log_of (N.state device.old) (table blocks.old)) (log_of (N.state device.new) (table blocks.new)) result }
    ensures pays { PaysWriting (length copies.now) (log_of (N.state device.old) (table blocks.old)) (log_of (N.state device.new) (table blocks.new)) result }
    ensures first { StartsAt ((table blocks.old).entry block).next result }
    ensures within_limit { (spare : ℕ) → bad_count (table blocks.old) ≤ spare → FewBad spare (table blocks.new) result }
    ensures ends { (spare : ℕ) → CopiesEnd (length copies.now) spare (N.state device.new) (table blocks.old) (table blocks.new) result }
{
    match write_group(device, blocks, &Copies { places: copies }, scratch) {
        Ok(placed) => Ok(Copied::Into(Target {
            block: placed.block,
            first: placed.first,
            suspect: placed.suspect,
        })),
        Err(GroupFault::Failed) => match mark_block(device, blocks, block) {
            Ok(()) => Ok(Copied::Marked),
            Err(_) => Err(MoveFault::Gone),
        },
        Err(GroupFault::NoRoom) => unreachable!(),
        Err(GroupFault::Lost) => Err(MoveFault::Lost),
        Err(GroupFault::Gone) => Err(MoveFault::Gone),
    }
}

/// Takes a block and copies pages into it, or marks it where that fails.
fn copy_once<N: Nand>(
    device: &mut N,
    blocks: &mut Blocks,
    copies: &[CommittedKey],
    scratch: &mut [u8],
    spare: u32,
) -> Result<Copied, MoveFault>
    requires can_write { IsReady (N.state device.old) (table blocks.old) }
    requires closed { (table blocks.old).open_block ≡ None }
    requires uncommitted { HasUncommitted (table blocks.old) spare }
    requires size { length scratch.old ≡ (N.state device.old).geometry.bytes }
    requires copies { MayBeCopied (N.state device.old) (table blocks.old) copies.now }
    ensures pages { CopiesPages copies.now (log_of (N.state device.old) (table blocks.old)) (log_of (N.state device.new) (table blocks.new)) result }
    ensures pays { PaysOneBlock (length copies.now) (log_of (N.state device.old) (table blocks.old)) (log_of (N.state device.new) (table blocks.new)) result }
    ensures first { StartsAt 0 result }
    ensures within_limit { FewBad spare (table blocks.new) result }
    ensures ends { CopiesEnd (length copies.now) spare (N.state device.new) (table blocks.old) (table blocks.new) result }
{
    if blocks.next_group() >= NUMBER_END {
        return Err(MoveFault::Worn);
    }
    let block = take_block(device, blocks, spare)?;
    write_copies(device, blocks, block, copies, scratch)
}

/// Copies pages as one group into a freshly erased free block. A block in which that fails is marked, and they are copied
/// into the next, as long as no more than `spare` blocks are bad.
pub(crate) fn copy_listed<N: Nand>(
    device: &mut N,
    blocks: &mut Blocks,
    copies: &[CommittedKey],
    scratch: &mut [u8],
    spare: u32,
) -> Result<Target, MoveFault>
    requires can_write { IsReady (N.state device.old) (table blocks.old) }
    requires uncommitted { HasUncommitted (table blocks.old) spare }
    requires size { length scratch.old ≡ (N.state device.old).geometry.bytes }
    requires copies { MayBeCopied (N.state device.old) (table blocks.old) copies.now }
    ensures pages { CopiesPages copies.now (log_of (N.state device.old) (table blocks.old)) (log_of (N.state device.new) (table blocks.new)) (as_copied result) }
    ensures pays { PaysTarget (length copies.now) (log_of (N.state device.old) (table blocks.old)) (log_of (N.state device.new) (table blocks.new)) result }
    ensures first { StartsAt 0 (as_copied result) }
    ensures within_limit { OnOk result (bad_count (table blocks.new) ≤ spare) }
    ensures ends { CopiesEnd (length copies.now) spare (N.state device.new) (table blocks.old) (table blocks.new) (as_copied result) }
{
    blocks.close();
    loop {
        match copy_once(device, blocks, copies, scratch, spare)? {
            Copied::Into(target) => return Ok(target),
            Copied::Marked => {
                if blocks.bad_count() > spare {
                    return Err(MoveFault::Worn);
                }
            }
        }
    }
}
