// A scan by the summaries of blocks.
ghost use Rattle.std.specs.Prelude.{◌≡◌, ◌⊎◌, ◌↔◌, ◌<◌, ◌≤◌, ◌+◌, ◌*◌, ℕ, Bool, true, List, IsTrue, IfOk, OnOk, length};
ghost use Rattle.nand_model.specs.Calls.{Device};
ghost use Rattle.nand_model.specs.Changes.{OnlyReads};
ghost use Rattle.flash_tree.specs.Newest.{AreGreatest};
ghost use Rattle.flash_tree.specs.Places.{numbers_of};
ghost use Rattle.mount_scan.specs.FoundCheckpoint.{ReadsAtMost};
ghost use Rattle.mount_scan.specs.FewReads.{IsOther, NotesSummaries, ReadsTwice, ReadsByCost, ReadsByNeed, reads_ahead};
ghost use Rattle.mount_scan.specs.FirstPages.{AreFirstsOf, AreNoneAbove};
ghost use Rattle.mount_scan.specs.Listed.{listed};
ghost use Rattle.mount_scan.specs.Steps.{Extends};
ghost use Rattle.mount_scan.specs.Summarized.{HasSummarizedFlash, FindsNeeded};
ghost use Rattle.mount_scan.specs.SummaryScan.{AreSummaryPages, IsLeft, IsNextBlock, IsRestBelow, IsScannedAll};
ghost use Rattle.mount_scan.specs.declared.first_page.FirstPage.TheVariants as firsts;

use crate::FoundPages;
use crate::answer::NewestScan;
use crate::fault::ScanFault;
use crate::first_page::{FirstPage, FirstPages, is_older};
use crate::summary_pages::{SummaryPages, read_summaries};
use crate::whole::{Seen, find_block};
use crate::written::find_written;
use nand_model::Nand;
use page_tags::Tag;
use std::alloc::Global;

/// What is found of the blocks that have no summary.
#[derive(Drop)]
struct Rest {
    tags: Vec<Option<Tag>>,
    seen: Seen,
    newest: FoundPages,
    /// Whether the tags of a block were read that begins with an erased page.
    erased: bool,
    /// Of the blocks whose first page has a lower seq the tags are read up to the first erased page alone.
    renewed: u64,
}

/// Whether the tags of a block are read.
fn is_left(first: FirstPage, summarized: bool, erased: bool) -> bool
    ensures { IsTrue result ↔ IsLeft first summarized erased }
{
    match first {
        FirstPage::Bad => false,
        FirstPage::Erased => !summarized && !erased,
        FirstPage::Untagged => !summarized,
        FirstPage::Tagged { .. } => !summarized,
        FirstPage::Summary { .. } => !summarized,
    }
}

/// Whether the tags of a block were read that begins with an erased page, once those of one more block were.
fn is_erased_read(erased: bool, first: FirstPage) -> bool
    ensures { IsTrue result ↔ ((erased ≡ true) ⊎ (first ≡ firsts.Erased)) }
{
    match first {
        FirstPage::Bad => erased,
        FirstPage::Erased => true,
        FirstPage::Untagged => erased,
        FirstPage::Tagged { .. } => erased,
        FirstPage::Summary { .. } => erased,
    }
}

/// Adds what a block has, unless its summary was added.
fn find_left<N: Nand>(
    device: &mut N,
    block: u32,
    first: FirstPage,
    summarized: bool,
    rest: &mut Rest,
) -> Result<(), ScanFault>
    requires { block < (N.state device.old).geometry.blocks }
    ensures reads { ReadsAtMost (N.state device.old).geometry.pages (N.state device.old) (N.state device.new) result }
    ensures scans { (d : Device) (done : List Bool) → OnlyReads d (N.state device.old) → IsNextBlock d block done first summarized
        → Extends (IsRestBelow d done) block rest.old rest.new result }
    ensures renewed { rest.new.renewed ≡ rest.old.renewed }
    ensures reads_bounded { (cost : ℕ) → IsOther (N.state device.old) block first summarized rest.old.renewed cost
        → (N.state device.new).reads ≤ reads_ahead (N.state device.old) rest.old + cost }
    ensures left { (cost : ℕ) → IsOther (N.state device.old) block first summarized rest.old.renewed cost
        → OnOk result (reads_ahead (N.state device.new) rest.new ≤ reads_ahead (N.state device.old) rest.old + cost) }
{
    if !is_left(first, summarized, rest.erased) {
        return Ok(());
    }
    if is_older(first, rest.renewed) {
        find_written(
            device,
            block,
            &mut rest.tags,
            &mut rest.seen,
            &mut rest.newest,
        )?;
        return Ok(());
    }
    find_block(
        device,
        block,
        &mut rest.tags,
        &mut rest.seen,
        &mut rest.newest,
    )?;
    rest.erased = is_erased_read(rest.erased, first);
    Ok(())
}

/// Adds what the blocks have that no summary was added of.
fn find_rest<N: Nand>(
    alloc: Global,
    device: &mut N,
    firsts: &FirstPages,
    summarized: SummaryPages,
) -> Result<NewestScan, ScanFault>
    requires pages { length firsts.now.pages.items ≡ (N.state device.old).geometry.blocks }
    requires done { length summarized.done.items ≡ (N.state device.old).geometry.blocks }
    ensures reads { ReadsAtMost ((N.state device.old).geometry.pages * (N.state device.old).geometry.blocks) (N.state device.old) (N.state device.new) result }
    ensures reads_bounded { (d : Device) → NotesSummaries d (N.state device.old) firsts.now summarized
        → ReadsByCost d (N.state device.old) (N.state device.new) }
    ensures scanned { (d : Device) → OnlyReads d (N.state device.old) → AreFirstsOf d firsts.now → AreSummaryPages d summarized
        → IfOk result (IsScannedAll d) }
{
    let SummaryPages { done, newest } = summarized;
    let mut rest = Rest {
        tags: Vec::new(alloc),
        seen: Seen::with(alloc, firsts.numbers),
        newest,
        erased: false,
        renewed: firsts.renewed,
    };
    for block in 0..device.geometry().blocks() {
        let at = block as usize;
        find_left(device, block, firsts.pages[at], done[at], &mut rest)?;
    }
    Ok(NewestScan {
        newest: rest.newest,
        numbers: rest.seen.numbers,
    })
}

/// The newest pages of the keys that a tree may look up, and the greatest numbers, by the summaries of blocks: of a block that has one
/// its tags are not read, nor of those that begin with an erased page but of the first of them. The first pages were read.
///
/// On a flash that is not summarized, or of a device that is not honest, pages may be missing, and any keys be found for places.
pub fn scan_summaries<N: Nand>(
    alloc: Global,
    device: &mut N,
    firsts: &FirstPages,
) -> Result<NewestScan, ScanFault>
    requires { AreFirstsOf (N.state device.old) firsts.now }
    ensures reads { ReadsTwice (N.state device.old) (N.state device.new) result }
    ensures reads_bounded { ReadsByNeed (N.state device.old) (N.state device.new) }
    ensures newest { IfOk result (λ scan. FindsNeeded (N.state device.old) (listed scan.newest)) }
    ensures numbers { HasSummarizedFlash (N.state device.old) → IfOk result (λ scan. AreGreatest (N.state device.old).flash (numbers_of scan.numbers)) }
    ensures least { (N.state device.old).honest ≡ true → IfOk result (λ scan. AreNoneAbove (N.state device.old).flash (numbers_of scan.numbers)) }
{
    let summarized = read_summaries(alloc, device, &firsts.pages)?;
    let mut scan = find_rest(alloc, device, firsts, summarized)?;
    scan.newest.keep_newest();
    Ok(scan)
}
