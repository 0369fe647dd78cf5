// The pages that summaries list.
ghost use Rattle.std.specs.Prelude.{◌≡◌, ◌<◌, ◌≤◌, ◌+◌, ◌*◌, ℕ, IfOk, OnOk, length};
ghost use Rattle.nand_model.specs.Calls.{Device};
ghost use Rattle.mount_scan.specs.FoundSummary.{summary_of};
ghost use Rattle.mount_scan.specs.FoundCheckpoint.{ReadsAtMost};
ghost use Rattle.mount_scan.specs.FirstPages.{HasSeqAt, AreAllNoted, AreGoodFirsts, KeepsNoted};
ghost use Rattle.mount_scan.specs.FewReads.{AreDoneBelow, IsNoted, sum_below, summary_size};
ghost use Rattle.mount_scan.specs.Steps.{Extends, Keeps};
ghost use Rattle.mount_scan.specs.SummaryScan.{AreSummaryPages, MayBeAdded};

use crate::block_summary::{FoundSummary, read_summary};
use crate::first_page::{FirstPage, has_seq, tag_of_summary};
use crate::{FoundPages, ScanFault};
use nand_model::Nand;
use std::alloc::{AllocError, Global};

/// What summaries list.
#[derive(Drop)]
pub(crate) struct SummaryPages {
    /// For each block whether the pages of a summary of it were added.
    pub done: Vec<bool>,
    /// The pages.
    pub newest: FoundPages,
}

impl SummaryPages {
    /// No summary was read.
    fn new(alloc: Global, blocks: u32) -> Result<SummaryPages, AllocError>
        ensures len { IfOk result (λ summarized. length summarized.done.items ≡ blocks) }
        ensures summarized { (d : Device) → d.geometry.blocks ≡ blocks → IfOk result (AreSummaryPages d) }
    {
        let done = vec![in alloc; false; blocks as usize]?;
        let newest = FoundPages::new(alloc)?;
        Ok(SummaryPages { done, newest })
    }

    /// Adds the pages of a summary, if it is of its block as that was allocated last.
    fn add(&mut self, pages: &[FirstPage], summary: &FoundSummary) -> Result<(), AllocError>
        requires { length self.old.done.items ≡ length pages.now }
        ensures len { length self.new.done.items ≡ length self.old.done.items }
        ensures keeps { (k : ℕ) → IsNoted self.old k → OnOk result (IsNoted self.new k) }
        ensures notes { HasSeqAt pages.now summary.now.head.block summary.now.head.seq → OnOk result (IsNoted self.new summary.now.head.block) }
        ensures summarized { (d : Device) → AreAllNoted d pages.now → MayBeAdded d (summary_of summary.now)
            → Keeps (AreSummaryPages d) self.old self.new result }
    {
        let head = summary.head;
        if !has_seq(pages, head.block, head.seq) {
            return Ok(());
        }
        self.newest.add_named(&summary.entries, head.seq)?;
        self.done[head.block as usize] = true;
        Ok(())
    }
}

/// Adds the pages of the summary that a block begins with, if it begins with one.
fn add_summary<N: Nand>(
    alloc: Global,
    device: &mut N,
    block: u32,
    pages: &[FirstPage],
    summarized: &mut SummaryPages,
) -> Result<(), ScanFault>
    requires block { block < (N.state device.old).geometry.blocks }
    requires good { AreGoodFirsts (N.state device.old) pages.now }
    requires pages { length pages.now ≡ (N.state device.old).geometry.blocks }
    requires len { length summarized.old.done.items ≡ length pages.now }
    ensures reads { ReadsAtMost (N.state device.old).geometry.pages (N.state device.old) (N.state device.new) result }
    ensures len { length summarized.new.done.items ≡ length summarized.old.done.items }
    ensures reads_bounded { (N.state device.new).reads ≤ (N.state device.old).reads + summary_size pages.now block }
    ensures done { (d : Device) → KeepsNoted d (N.state device.old) pages.now → Extends (AreDoneBelow d) block summarized.old summarized.new result }
    ensures summarized { (d : Device) → KeepsNoted d (N.state device.old) pages.now → Keeps (AreSummaryPages d) summarized.old summarized.new result }
{
    let Some(first) = tag_of_summary(pages[block as usize]) else {
        return Ok(());
    };
    if first.count > device.geometry().pages() {
        return Ok(());
    }
    if let Some(summary) = read_summary(alloc, device, block, &first)? {
        summarized.add(pages, &summary)?;
    }
    Ok(())
}

/// The pages of all summaries, among which others may be.
pub(crate) fn read_summaries<N: Nand>(
    alloc: Global,
    device: &mut N,
    pages: &[FirstPage],
) -> Result<SummaryPages, ScanFault>
    requires good { AreGoodFirsts (N.state device.old) pages.now }
    requires len { length pages.now ≡ (N.state device.old).geometry.blocks }
    ensures reads { ReadsAtMost ((N.state device.old).geometry.pages * (N.state device.old).geometry.blocks) (N.state device.old) (N.state device.new) result }
    ensures len { IfOk result (λ summarized. length summarized.done.items ≡ (N.state device.old).geometry.blocks) }
    ensures reads_bounded { (N.state device.new).reads ≤ (N.state device.old).reads + sum_below (summary_size pages.now) (N.state device.old).geometry.blocks }
    ensures done { (d : Device) → KeepsNoted d (N.state device.old) pages.now → IfOk result (AreDoneBelow d d.geometry.blocks) }
    ensures summarized { (d : Device) → KeepsNoted d (N.state device.old) pages.now → IfOk result (AreSummaryPages d) }
{
    let blocks = device.geometry().blocks();
    let mut summarized = SummaryPages::new(alloc, blocks)?;
    for block in 0..blocks {
        add_summary(alloc, device, block, pages, &mut summarized)?;
    }
    Ok(summarized)
}
