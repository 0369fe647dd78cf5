// The writing of a summary of the block that was open, with which the next begins.
ghost use Rattle.std.specs.Prelude.{◌≡◌, ◌<◌, ◌≤◌, ◌+◌, ℕ, length, true, None, Ok, IfSome, IfNone};
ghost use Rattle.volume_terms.specs.Sizes.{number_end};
ghost use Rattle.flash_tree.specs.Keeping.{KeepsElsewhere};
ghost use Rattle.block_state.specs.Table.{IsEmptyBlock};
ghost use Rattle.block_state.specs.TableOf.{table};
ghost use Rattle.transactions.specs.Checking.{log_of};
ghost use Rattle.transactions.specs.Ready.{IsReady};
ghost use Rattle.flash_log.specs.Copying.{IsFresh, KeepsCounts};
ghost use Rattle.flash_log.specs.Passing.{KeepsFound};
ghost use Rattle.flash_log.specs.SummaryMaking.{CostsAMark, IsListOf, IsOpenWith, HasSummary, IsWorthIt, IsWritten, KeepsHeld, MarkingEnds, PaysSummary, PaysWithin, SummarizesBy, SummaryEnds, SummaryEndsWithin, WasWritten, summary_of};
ghost use Rattle.flash_log.specs.SummarySource.{CanSummarize, summary_size};

use crate::fault::MoveFault;
use crate::log::Log;
use crate::summary_source::SummarySource;
use block_state::Blocks;
use chunk_index::the_counts_are_of_the_keys;
use nand_model::Nand;
use transactions::{GroupFault, mark_block, write_summary};
use volume_terms::NUMBER_END;

/// A block in which pages were written, and the number with which it was allocated.
#[derive(Clone, Copy, Debug, PartialEq, Eq)]
pub struct WrittenBlock {
    pub block: u32,
    pub seq: u64,
}

/// What became of a summary.
#[derive(Clone, Copy, Debug, PartialEq, Eq)]
pub enum Summarized {
    /// It is whole, or none was to be written.
    Written,
    /// A program failed, the last one perhaps, and the block is marked.
    Marked,
}

/// Marks a block in which a summary was to be written, and a program failed.
fn mark_written<N: Nand>(
    device: &mut N,
    blocks: &mut Blocks,
    block: u32,
) -> Result<Summarized, MoveFault>
    requires can_write { IsReady (N.state device.old) (table blocks.old) }
    requires empty { IsEmptyBlock block (table blocks.old) }
    requires closed { (table blocks.old).open_block ≡ None }
    requires none { (table blocks.old).checkpoint ≡ None }
    ensures keeps { KeepsCounts (N.state device.old) (N.state device.new) (table blocks.old) (table blocks.new) }
    ensures newest { (N.state device.old).honest ≡ true → KeepsElsewhere block (N.state device.old).flash (N.state device.new).flash }
    ensures found { (N.state device.old).honest ≡ true → KeepsFound (table blocks.old) (N.state device.old) (N.state device.new) }
    ensures closed { (table blocks.new).open_block ≡ None }
    ensures costs { CostsAMark (N.state device.old) (N.state device.new) }
    ensures ends { MarkingEnds (N.state device.new) (table blocks.old) (table blocks.new) result }
{
    match mark_block(device, blocks, block) {
        Ok(()) => Ok(Summarized::Marked),
        Err(_) => Err(MoveFault::Gone),
    }
}

/// Writes a summary as the group with which the open block begins, and marks the block where a program fails, the last one too.
fn write_listed<N: Nand>(
    device: &mut N,
    blocks: &mut Blocks,
    block: u32,
    source: &SummarySource<'_>,
    scratch: &mut [u8],
) -> Result<Summarized, MoveFault>
    requires can_write { IsReady (N.state device.old) (table blocks.old) }
    requires fresh { IsFresh block (N.state device.old) (table blocks.old) }
    requires number { (table blocks.old).next_group + 1 < number_end }
    requires size { length scratch.old ≡ (N.state device.old).geometry.bytes }
    requires source { CanSummarize source.now (N.state device.old).geometry (table blocks.old).next_group }
    requires most { source.now.pages ≤ summary_size (N.state device.old).geometry }
    requires lists { (N.state device.old).honest ≡ true → IsListOf (summary_of source.now (table blocks.old) block) (N.state device.old) }
    ensures does { SummarizesBy source.now block (log_of (N.state device.old) (table blocks.old)) (log_of (N.state device.new) (table blocks.new)) }
    ensures pays { PaysWithin source.now.pages (log_of (N.state device.old) (table blocks.old)) (log_of (N.state device.new) (table blocks.new)) result }
    // On an honest device it is whole then.
    ensures whole { (N.state device.old).honest ≡ true → result ≡ Ok Summarized.Written → HasSummary source.now block (table blocks.old) (N.state device.new) }
    ensures ends { SummaryEndsWithin source.now.pages (log_of (N.state device.old) (table blocks.old)) (log_of (N.state device.new) (table blocks.new)) result }
{
    match write_summary(device, blocks, source, scratch) {
        Ok(placed) => {
            if placed.suspect {
                return mark_written(device, blocks, block);
            }
            Ok(Summarized::Written)
        }
        Err(GroupFault::Failed) => mark_written(device, blocks, block),
        Err(GroupFault::NoRoom) => unreachable!(),
        Err(GroupFault::Lost) => Err(MoveFault::Lost),
        Err(GroupFault::Gone) => Err(MoveFault::Gone),
    }
}

impl<N: Nand> Log<N> {
    ghost use Rattle.flash_log.specs.LogOf.{Moves, SameTerms, log_state, terms_of};

    /// The block that is open, where a summary of it is worth its pages: a fourth of it is written, and pages are committed in it.
    pub(crate) fn written_block(&self) -> Option<WrittenBlock>
        ensures opened { IfSome result (λ w. IsOpenWith w (table self.now.blocks)) }
        ensures none { IfNone result ((b : ℕ) → IsWorthIt b (table self.now.blocks) → ⊥) }
    {
        let block = self.blocks.open_block()?;
        let entry = self.blocks.entry(block);
        if entry.committed == 0 || entry.next < self.blocks.geometry().pages() / 4 {
            return None;
        }
        Some(WrittenBlock {
            block,
            seq: entry.seq,
        })
    }

    /// Writes a summary of a block into the open one, in which nothing is written, where it leaves room for `count` pages there, and a
    /// number for their group. Where a program fails the block is marked.
    pub(crate) fn summarize(
        &mut self,
        written: WrittenBlock,
        block: u32,
        count: u32,
    ) -> Result<Summarized, MoveFault>
        requires fresh { IsFresh block (N.state self.old.device) (table self.old.blocks) }
        requires written { WasWritten written (N.state self.old.device) (table self.old.blocks) }
        requires count { count ≤ (table self.old.blocks).geometry.pages }
        ensures terms { SameTerms (terms_of self.old) (terms_of self.new) }
        ensures index { self.new.index ≡ self.old.index }
        ensures step { Moves self.old self.new }
        ensures holds { KeepsHeld (table self.old.blocks) (table self.new.blocks) }
        ensures pays { PaysSummary count (log_state self.old) (log_state self.new) result }
        ensures writes { IsWritten written count (log_state self.old) (log_state self.new) result }
        ensures ends { SummaryEnds count self.old.spare (log_state self.old) (log_state self.new) result }
    {
        if self.blocks.next_group() >= NUMBER_END - 1 {
            return Ok(Summarized::Written);
        }
        let geometry = self.blocks.geometry();
        the_counts_are_of_the_keys();
        let committed = self.blocks.entry(written.block).committed;
        self.room
            .list_entries(&self.index, written.block, committed);
        let Some(source) = SummarySource::new(
            written.block,
            written.seq,
            &self.room.entries,
            geometry,
        ) else {
            return Ok(Summarized::Written);
        };
        if source.pages > geometry.pages() - count {
            return Ok(Summarized::Written);
        }
        write_listed(
            &mut self.device,
            &mut self.blocks,
            block,
            &source,
            &mut self.room.scratch,
        )
    }
}
