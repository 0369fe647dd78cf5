// The writing of a checkpoint.
ghost use Rattle.std.specs.Prelude.{◌≡◌, ◌<◌, ℕ, true};
ghost use Rattle.nand_model.specs.Calls.{Lasts};
ghost use Rattle.block_state.specs.TableOf.{table};
ghost use Rattle.transactions.specs.Ready.{IsReady, CanWrite};
ghost use Rattle.transactions.specs.Checking.{log_of, ChecksTree, WritesGroup, LeavesChecked};

use crate::group::{GroupFault, Placed, write_any};
use crate::source::PageSource;
use block_state::Blocks;
use nand_model::Nand;

/// Writes the pages of a checkpoint as one group into the open block, in which nothing is written yet.
///
/// After a fault other than `NoRoom`, and after a suspect group, the block is open no longer.
pub fn write_checkpoint<N: Nand, S: PageSource>(
    device: &mut N,
    blocks: &mut Blocks,
    source: &S,
    scratch: &mut [u8],
) -> Result<Placed, GroupFault>
    requires can_write { IsReady (N.state device.old) (table blocks.old) }
    requires number { CanWrite scratch.old (N.state device.old) (table blocks.old) }
    requires source { S.can_write source.now (N.state device.old).geometry (table blocks.old).next_group }
    requires has { (N.state device.old).honest ≡ true → (i : ℕ) → i < S.count source.now → S.has source.now (N.state device.old).flash i }
    ensures lasts { Lasts (N.state device.old) (N.state device.new) }
    ensures can_write { IsReady (N.state device.new) (table blocks.new) }
    ensures group { WritesGroup S.PageSource source.now (log_of (N.state device.old) (table blocks.old)) (log_of (N.state device.new) (table blocks.new)) result }
    // Where no checkpoint was whole, and this one lists the device's tree, each that is whole now is right, and in this block.
    ensures checked { ChecksTree S.PageSource source.now (N.state device.old) (table blocks.old)
        → LeavesChecked (N.state device.old) (N.state device.new) (table blocks.old).open_block result }
{
    write_any(device, blocks, source, scratch)
}
