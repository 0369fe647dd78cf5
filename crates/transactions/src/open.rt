// The taking of a block.
ghost use Rattle.std.specs.Prelude.{◌≡◌, ◌<◌, true, OnOk, OnErr};
ghost use Rattle.nand_model.specs.Calls.{Erases};
ghost use Rattle.flash_tree.specs.Keeping.{KeepsElsewhere};
ghost use Rattle.block_state.specs.TableOf.{table};
ghost use Rattle.transactions.specs.Handing.{AreBelowNext, HandsOut};
ghost use Rattle.transactions.specs.Opening.{Opens, CanOpen};
ghost use Rattle.transactions.specs.Ready.{IsReady};

use block_state::Blocks;
use nand_model::{EraseFault, Nand};

/// Erases a good block and makes it the open one, with the next number. After a fault the table is as it was.
pub fn erase_and_open<N: Nand>(
    device: &mut N,
    blocks: &mut Blocks,
    block: u32,
) -> Result<(), EraseFault>
    requires can_write { IsReady (N.state device.old) (table blocks.old) }
    requires block { CanOpen block (N.state device.old) (table blocks.old) }
    ensures erases { Erases block (N.state device.old) (N.state device.new) result }
    ensures can_write { IsReady (N.state device.new) (table blocks.new) }
    ensures opens { OnOk result (Opens block (table blocks.old) (table blocks.new)) }
    // The tags of all pages are below the number that the block got.
    ensures below { (N.state device.old).honest ≡ true → OnOk result (AreBelowNext (N.state device.new).flash (table blocks.old)) }
    ensures unchanged { OnErr result (table blocks.new ≡ table blocks.old) }
    ensures newest { (N.state device.old).honest ≡ true → KeepsElsewhere block (N.state device.old).flash (N.state device.new).flash }
    ensures numbers { HandsOut (N.state device.old) (N.state device.new) (table blocks.old) (table blocks.new) }
{
    device.erase(block)?;
    blocks.open(block);
    Ok(())
}
