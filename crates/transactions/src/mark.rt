// The marking of a block.
ghost use Rattle.std.specs.Prelude.{◌≡◌, ◌≢◌, ◌<◌, true, Some};
ghost use Rattle.nand_model.specs.Calls.{Marks};
ghost use Rattle.flash_tree.specs.Keeping.{KeepsElsewhere};
ghost use Rattle.block_state.specs.TableOf.{table};
ghost use Rattle.transactions.specs.Handing.{HandsOut};
ghost use Rattle.transactions.specs.Marking.{NotesMark};
ghost use Rattle.transactions.specs.Opening.{MayLose};
ghost use Rattle.transactions.specs.Ready.{IsReady};

use block_state::Blocks;
use nand_model::{Gone, Nand};

/// Marks a block bad that is not open, and notes what became of it, also where the power was lost in it.
pub fn mark_block<N: Nand>(device: &mut N, blocks: &mut Blocks, block: u32) -> Result<(), Gone>
    requires can_write { IsReady (N.state device.old) (table blocks.old) }
    requires block { block < (N.state device.old).geometry.blocks }
    requires closed { (table blocks.old).open_block ≢ Some block }
    requires first { MayLose block (table blocks.old) }
    ensures marks { Marks block (N.state device.old) (N.state device.new) result }
    ensures can_write { IsReady (N.state device.new) (table blocks.new) }
    ensures notes { NotesMark block (N.state device.new).flash (table blocks.old) (table blocks.new) }
    ensures newest { (N.state device.old).honest ≡ true → KeepsElsewhere block (N.state device.old).flash (N.state device.new).flash }
    ensures numbers { HandsOut (N.state device.old) (N.state device.new) (table blocks.old) (table blocks.new) }
{
    let marked = device.mark_bad(block);
    if device.is_bad(block) {
        blocks.mark_bad(block);
    }
    marked
}
