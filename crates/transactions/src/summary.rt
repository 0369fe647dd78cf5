// The writing of a block summary.
ghost use Rattle.std.specs.Prelude.{◌≡◌, ◌<◌, ℕ, true};
ghost use Rattle.nand_model.specs.Calls.{Lasts};
ghost use Rattle.block_state.specs.TableOf.{table};
ghost use Rattle.transactions.specs.Ready.{IsReady, CanWrite};
ghost use Rattle.transactions.specs.Checking.{log_of, WritesGroup};
ghost use Rattle.transactions.specs.Handing.{HandsOut};
ghost use Rattle.transactions.specs.SummaryWriting.{AddsItsSummary, WritesSummary};

use crate::group::{GroupFault, Placed, write_any};
use crate::source::PageSource;
use block_state::Blocks;
use nand_model::Nand;

/// Writes the pages of a block summary as one group, with which the open block begins.
///
/// After a fault other than `NoRoom`, and after a suspect group, the block is open no longer.
pub fn write_summary<N: Nand, S: PageSource>(
    device: &mut N,
    blocks: &mut Blocks,
    source: &S,
    scratch: &mut [u8],
) -> Result<Placed, GroupFault>
    requires can_write { IsReady (N.state device.old) (table blocks.old) }
    requires number { CanWrite scratch.old (N.state device.old) (table blocks.old) }
    requires source { S.can_write source.now (N.state device.old).geometry (table blocks.old).next_group }
    requires has { (N.state device.old).honest ≡ true → (i : ℕ) → i < S.count source.now → S.has source.now (N.state device.old).flash i }
    requires summary { (N.state device.old).honest ≡ true → WritesSummary S.PageSource source.now (N.state device.old) (table blocks.old) }
    ensures lasts { Lasts (N.state device.old) (N.state device.new) }
    ensures can_write { IsReady (N.state device.new) (table blocks.new) }
    ensures group { WritesGroup S.PageSource source.now (log_of (N.state device.old) (table blocks.old)) (log_of (N.state device.new) (table blocks.new)) result }
    // Each whole checkpoint stays right, and so does each summary, the new one too.
    ensures numbers { HandsOut (N.state device.old) (N.state device.new) (table blocks.old) (table blocks.new) }
    // The group that is added, if one is, is that summary.
    ensures adds { AddsItsSummary S.PageSource source.now (N.state device.old) (table blocks.old) (N.state device.new) }
{
    write_any(device, blocks, source, scratch)
}
