// The writing of a group: whole, or not at all.
ghost use Rattle.std.specs.Prelude.{◌≡◌, ◌<◌, ◌≤◌, ℕ, length, true};
ghost use Rattle.volume_terms.specs.Sizes.{number_end};
ghost use Rattle.nand_model.specs.Calls.{Lasts};
ghost use Rattle.block_state.specs.TableOf.{table};
ghost use Rattle.transactions.specs.Ready.{IsReady, CanWrite};
ghost use Rattle.transactions.specs.Handing.{HandsOut};
ghost use Rattle.transactions.specs.Naming.{AreOrdinary};
ghost use Rattle.transactions.specs.Groups.{LeavesBelow};
ghost use Rattle.transactions.specs.Checking.{WritesGroup, log_of};

use crate::page::write_pages;
use crate::place::{note_end, take_place};
use crate::source::PageSource;
use block_state::Blocks;
use nand_model::Nand;

/// Why a group was not written.
#[derive(Clone, Copy, Debug, PartialEq, Eq)]
pub enum GroupFault {
    /// The open block lacks the pages.
    NoRoom,
    /// The device reported a failure.
    Failed,
    /// A page that was to be copied did not read back under its name.
    Lost,
    Gone,
}

/// Where a group was written.
#[derive(Clone, Copy, Debug, PartialEq, Eq)]
pub struct Placed {
    pub block: u32,
    pub first: u32,
    pub count: u32,
    pub group: u64,
    /// The device said that the last page failed, and it reads whole.
    pub suspect: bool,
}

/// Writes the pages of the source as one group into the open block, by way of a scratch page.
///
/// After a fault other than `NoRoom`, and after a suspect group, the block is open no longer.
pub fn write_group<N: Nand, S: PageSource>(
    device: &mut N,
    blocks: &mut Blocks,
    source: &S,
    scratch: &mut [u8],
) -> Result<Placed, GroupFault>
    requires can_write { IsReady (N.state device.old) (table blocks.old) }
    requires number { CanWrite scratch.old (N.state device.old) (table blocks.old) }
    requires source { S.can_write source.now (N.state device.old).geometry (table blocks.old).next_group }
    requires ordinary { (N.state device.old).honest ≡ true → AreOrdinary (S.count source.now) (S.name source.now (table blocks.old).next_group) }
    requires has { (N.state device.old).honest ≡ true → (i : ℕ) → i < S.count source.now → S.has source.now (N.state device.old).flash i }
    ensures lasts { Lasts (N.state device.old) (N.state device.new) }
    ensures can_write { IsReady (N.state device.new) (table blocks.new) }
    ensures group { WritesGroup S.PageSource source.now (log_of (N.state device.old) (table blocks.old)) (log_of (N.state device.new) (table blocks.new)) result }
    ensures numbers { HandsOut (N.state device.old) (N.state device.new) (table blocks.old) (table blocks.new) }
{
    write_any(device, blocks, source, scratch)
}

/// The same of any pages, those of a checkpoint too.
pub(crate) fn write_any<N: Nand, S: PageSource>(
    device: &mut N,
    blocks: &mut Blocks,
    source: &S,
    scratch: &mut [u8],
) -> Result<Placed, GroupFault>
    requires can_write { IsReady (N.state device.old) (table blocks.old) }
    requires number { (table blocks.old).next_group < number_end }
    requires size { length scratch.old ≡ (N.state device.old).geometry.bytes }
    requires source { S.can_write source.now (N.state device.old).geometry (table blocks.old).next_group }
    requires has { (N.state device.old).honest ≡ true → (i : ℕ) → i < S.count source.now → S.has source.now (N.state device.old).flash i }
    ensures lasts { Lasts (N.state device.old) (N.state device.new) }
    ensures can_write { IsReady (N.state device.new) (table blocks.new) }
    ensures group { WritesGroup S.PageSource source.now (log_of (N.state device.old) (table blocks.old)) (log_of (N.state device.new) (table blocks.new)) result }
    ensures not_empty { 1 ≤ S.count source.now }
    ensures below { LeavesBelow (table blocks.old) (N.state device.old) (N.state device.new) }
{
    let count = source.count();
    let Some(place) = take_place(blocks, count) else {
        return Err(GroupFault::NoRoom);
    };
    let written = write_pages(device, source, scratch, &place);
    note_end(blocks, &place, &written);
    let last = written?;
    Ok(Placed {
        block: place.block,
        first: place.first,
        count: place.count,
        group: place.group,
        suspect: last.is_suspect(),
    })
}
