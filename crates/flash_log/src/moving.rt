// The move of the committed pages of a block.
ghost use Rattle.std.specs.Prelude.{◌≡◌, ◌<◌, ◌≤◌, ℕ, length, false, None, Ok, OnOk};
ghost use Rattle.block_state.specs.Committed.{bad_count};
ghost use Rattle.block_state.specs.TableOf.{table};
ghost use Rattle.transactions.specs.Checking.{log_of};
ghost use Rattle.volume_terms.specs.Sizes.{number_end};
ghost use Rattle.flash_log.specs.Bills.{PaysCopies, PaysMove};
ghost use Rattle.flash_log.specs.Lists.{IsListed};
ghost use Rattle.flash_log.specs.Moving.{MoveEnds, MovesOut};
ghost use Rattle.flash_log.specs.Refreshing.{FillsAnew};
ghost use Rattle.flash_log.specs.Gathering.{OpenEndsBehind, PaysOpen};
ghost use Rattle.flash_log.specs.Steps.{CanWrite, Step};
ghost use Rattle.flash_log.specs.SummaryMaking.{HasClear};

use crate::copying::{Copied, copy_listed, write_copies};
use crate::fault::MoveFault;
use crate::log::Log;
use crate::reporting::report_copies;
use block_state::Blocks;
use chunk_index::{CommittedKey, Index, PagePlace, the_counts_are_of_the_keys};
use nand_model::Nand;

/// Where the committed pages of a block were moved.
#[derive(Clone, Copy, Debug, PartialEq, Eq)]
pub enum Moved {
    /// Into the block that is open now.
    Trusted,
    /// Into this block, where the device said that the last page failed, and it reads whole.
    Suspect(u32),
}

/// Moves the pages that are committed in a good block, which are listed, as one group.
fn move_listed<N: Nand>(
    device: &mut N,
    blocks: &mut Blocks,
    index: &mut Index,
    copies: &[CommittedKey],
    scratch: &mut [u8],
    spare: u32,
) -> Result<Moved, MoveFault>
    requires can { CanWrite spare (log_of (N.state device.old) (table blocks.old)) index.old }
    requires size { length scratch.old ≡ (N.state device.old).geometry.bytes }
    requires listed { (v : ℕ) × IsListed v (table blocks.old) index.old copies.now }
    ensures step { Step spare (log_of (N.state device.old) (table blocks.old)) (log_of (N.state device.new) (table blocks.new)) index.old index.new }
    ensures out { (v : ℕ) → IsListed v (table blocks.old) index.old copies.now → MovesOut v index.old index.new }
    ensures pays { PaysCopies (length copies.now) (log_of (N.state device.old) (table blocks.old)) (log_of (N.state device.new) (table blocks.new)) result }
    ensures within_limit { OnOk result (bad_count (table blocks.new) ≤ spare) }
    // What is committed now in a block that had nothing was written in this call.
    ensures anew { OnOk result (FillsAnew (log_of (N.state device.old) (table blocks.old)) (log_of (N.state device.new) (table blocks.new)) index.new) }
    ensures ends { (v : ℕ) → IsListed v (table blocks.old) index.old copies.now
        → MoveEnds v spare (N.state device.new) (table blocks.old) (table blocks.new) result }
{
    the_counts_are_of_the_keys();
    let target = copy_listed(device, blocks, copies, scratch, spare)?;
    let place = PagePlace {
        block: target.block,
        page: target.first,
    };
    report_copies(index, blocks, copies, place);
    let suspect = target.suspect;
    if suspect {
        return Ok(Moved::Suspect(target.block));
    }
    Ok(Moved::Trusted)
}

/// Moves the pages that are committed in a good block, which are listed, into the open block, which has room for them and in which none
/// is. Where a program fails the open block is marked, and none is moved.
fn move_open<N: Nand>(
    device: &mut N,
    blocks: &mut Blocks,
    index: &mut Index,
    copies: &[CommittedKey],
    scratch: &mut [u8],
    spare: u32,
) -> Result<Option<Moved>, MoveFault>
    requires can { CanWrite spare (log_of (N.state device.old) (table blocks.old)) index.old }
    requires clear { HasClear (length copies.now) (N.state device.old) (table blocks.old) }
    requires group { (table blocks.old).next_group < number_end }
    requires size { length scratch.old ≡ (N.state device.old).geometry.bytes }
    requires listed { (v : ℕ) × IsListed v (table blocks.old) index.old copies.now }
    ensures step { Step spare (log_of (N.state device.old) (table blocks.old)) (log_of (N.state device.new) (table blocks.new)) index.old index.new }
    ensures out { (v : ℕ) → IsListed v (table blocks.old) index.old copies.now → MovesOut v index.old index.new }
    ensures pays { PaysOpen (length copies.now) (log_of (N.state device.old) (table blocks.old)) (log_of (N.state device.new) (table blocks.new)) result }
    ensures within_limit { OnOk result (bad_count (table blocks.new) ≤ spare) }
    ensures none { result ≡ Ok None → index.new ≡ index.old }
    ensures ends { (v : ℕ) → IsListed v (table blocks.old) index.old copies.now
        → OpenEndsBehind v spare (log_of (N.state device.old) (table blocks.old)) (log_of (N.state device.new) (table blocks.new)) result }
{
    the_counts_are_of_the_keys();
    let Some(block) = blocks.open_block() else {
        unreachable!()
    };
    match write_copies(device, blocks, block, copies, scratch)? {
        Copied::Into(target) => {
            let place = PagePlace {
                block: target.block,
                page: target.first,
            };
            report_copies(index, blocks, copies, place);
            if target.suspect {
                return Ok(Some(Moved::Suspect(target.block)));
            }
            Ok(Some(Moved::Trusted))
        }
        Copied::Marked => {
            if blocks.bad_count() > spare {
                return Err(MoveFault::Worn);
            }
            Ok(None)
        }
    }
}

impl<N: Nand> Log<N> {
    ghost use Rattle.flash_log.specs.LogOf.{HasReserve, Moves, SameTerms, log_state, terms_of, IsGoodBlock};

    /// Moves all pages that are committed in a good block into a freshly erased free block, as one group. A block in which
    /// that fails is marked, and they are written again into the next, while there are blocks to spare.
    pub fn move_committed(&mut self, block: u32) -> Result<Moved, MoveFault>
        requires within_limit { HasReserve self.old }
        requires block { IsGoodBlock block (log_state self.old) }
        requires has_committed { 1 ≤ ((table self.old.blocks).entry block).committed }
        ensures terms { SameTerms (terms_of self.old) (terms_of self.new) }
        ensures step { Moves self.old self.new }
        ensures out { MovesOut block self.old.index self.new.index }
        ensures pays { PaysMove block (log_state self.old) (log_state self.new) result }
        ensures within_limit { OnOk result (HasReserve self.new) }
        // What is committed now in a block that had nothing was written in this call.
        ensures anew { OnOk result (FillsAnew (log_state self.old) (log_state self.new) self.new.index) }
        ensures ends { MoveEnds block self.old.spare (N.state self.new.device) (table self.old.blocks) (table self.new.blocks) result }
    {
        self.room.list(&self.index, block);
        move_listed(
            &mut self.device,
            &mut self.blocks,
            &mut self.index,
            &self.room.copies,
            &mut self.room.scratch,
            self.spare,
        )
    }

    /// Moves all pages that are committed in a good block into the open one, which has room for them and in which none is. Where a
    /// program fails the open block is marked, and none is moved.
    pub(crate) fn move_behind(&mut self, block: u32) -> Result<Option<Moved>, MoveFault>
        requires within_limit { HasReserve self.old }
        requires block { block < (N.state self.old.device).geometry.blocks }
        requires good { ((table self.old.blocks).entry block).bad ≡ false }
        requires has_committed { 1 ≤ ((table self.old.blocks).entry block).committed }
        requires clear { HasClear ((table self.old.blocks).entry block).committed (N.state self.old.device) (table self.old.blocks) }
        requires group { (table self.old.blocks).next_group < number_end }
        ensures terms { SameTerms (terms_of self.old) (terms_of self.new) }
        ensures step { Moves self.old self.new }
        ensures out { MovesOut block self.old.index self.new.index }
        ensures pays { PaysOpen ((table self.old.blocks).entry block).committed (log_state self.old) (log_state self.new) result }
        ensures within_limit { OnOk result (HasReserve self.new) }
        ensures none { result ≡ Ok None → self.new.index ≡ self.old.index }
        ensures ends { OpenEndsBehind block self.old.spare (log_state self.old) (log_state self.new) result }
    {
        self.room.list(&self.index, block);
        self.room.note_copies(&self.blocks);
        move_open(
            &mut self.device,
            &mut self.blocks,
            &mut self.index,
            &self.room.copies,
            &mut self.room.scratch,
            self.spare,
        )
    }
}
