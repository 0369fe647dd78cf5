// The table of a device.
ghost use Rattle.std.specs.Prelude.{◌≡◌, ◌<◌, ◌+◌, ◌-◌, ◌^◌, ℕ, true, false, None, IfOk};
ghost use Rattle.flash_tree.specs.Newest.{AreAbove};
ghost use Rattle.flash_tree.specs.Places.{numbers_of};
ghost use Rattle.block_state.specs.TableOf.{table};
ghost use Rattle.transactions.specs.Marking.{IsMarked, MarksNoted};
ghost use Rattle.transactions.specs.Ready.{IsReady};

use block_state::{Blocks, NextNumbers};
use flash_tree::TagNumbers;
use nand_model::Nand;
use std::alloc::{AllocError, Global};

/// Notes the marks of a device in a table without any.
fn note_marks<N: Nand>(device: &N, blocks: &mut Blocks)
    requires geometry { (table blocks.old).geometry ≡ (N.state device.now).geometry }
    requires good { (b : ℕ) → ((table blocks.old).entry b).bad ≡ false }
    requires closed { (table blocks.old).open_block ≡ None }
    requires checkpoint { (table blocks.old).checkpoint ≡ None }
    ensures { MarksNoted (N.state device.now) (N.state device.now).geometry.blocks (table blocks.old) (table blocks.new) }
{
    for block in 0..device.geometry().blocks() {
        if device.is_bad(block) {
            blocks.mark_bad(block);
        }
    }
}

/// A table of the device: it has the device's marks, and the next numbers are one above these. No block is open, none may
/// have a checkpoint, and none has a committed page.
pub fn marked_table<N: Nand>(
    alloc: Global,
    device: &N,
    greatest: TagNumbers,
) -> Result<Blocks, AllocError>
    requires group { greatest.group < 2 ^ 64 - 1 }
    requires seq { greatest.seq < 2 ^ 64 - 1 }
    ensures { IfOk result (λ blocks. IsMarked (N.state device.now) (numbers_of greatest) (table blocks)) }
{
    let mut blocks = Blocks::new(alloc, device.geometry())?;
    note_marks(device, &mut blocks);
    blocks.raise(NextNumbers {
        seq: greatest.seq + 1,
        group: greatest.group + 1,
    });
    Ok(blocks)
}

/// The table of a device whose valid tags in good blocks have no numbers above these: the next ones are one above them.
/// No block is open, none may have a checkpoint, and none has a committed page.
pub fn table_of<N: Nand>(
    alloc: Global,
    device: &N,
    greatest: TagNumbers,
) -> Result<Blocks, AllocError>
    requires group { greatest.group < 2 ^ 64 - 1 }
    requires seq { greatest.seq < 2 ^ 64 - 1 }
    requires above { (N.state device.now).honest ≡ true → AreAbove (N.state device.now).flash (numbers_of greatest) }
    ensures can_write { IfOk result (λ blocks. IsReady (N.state device.now) (table blocks)) }
    ensures open { IfOk result (λ blocks. (table blocks).open_block ≡ None) }
    ensures checkpoint { IfOk result (λ blocks. (table blocks).checkpoint ≡ None) }
    ensures committed { IfOk result (λ blocks. (b : ℕ) → ((table blocks).entry b).committed ≡ 0) }
    ensures seqs { IfOk result (λ blocks. (b : ℕ) → ((table blocks).entry b).seq ≡ 0) }
    ensures group { IfOk result (λ blocks. (table blocks).next_group ≡ greatest.group + 1) }
    ensures seq { IfOk result (λ blocks. (table blocks).next_seq ≡ greatest.seq + 1) }
{
    marked_table(alloc, device, greatest)
}
