// A scan of all blocks.
ghost use Rattle.std.specs.Prelude.{◌≡◌, ◌<◌, [], true, IfOk, OnOk};
ghost use Rattle.flash_tree.specs.Newest.{AreGreatest};
ghost use Rattle.flash_tree.specs.Places.{numbers_of};
ghost use Rattle.mount_scan.specs.Scanned.{ReportsCounted, ListsNewest, ReadsBlock, ReadsBlocks};
ghost use Rattle.mount_scan.specs.Steps.{Extends};
ghost use Rattle.mount_scan.specs.Blocks.{ReportsBelow, KeepsGreatest, RaisesNumbers};
ghost use Rattle.mount_scan.specs.Latest.{ReportsBlock, AddsBlock, HasLatestBelow};
ghost use Rattle.mount_scan.specs.NewestMap.{ReportsNewest};
ghost use Rattle.mount_scan.specs.Listed.{listed};

use crate::FoundPages;
use crate::answer::{NewestScan, Scan};
use crate::block::read_tags;
use crate::fault::ScanFault;
use crate::group::add_counted;
use crate::newest::newest_of;
use crate::raise::raised_by;
use flash_tree::{Found, TagNumbers};
use nand_model::Nand;
use page_tags::Tag;
use std::alloc::Global;

/// What is in the blocks that were read.
#[derive(Drop)]
pub(crate) struct Seen {
    pub valid_pages: Vec<Found>,
    pub numbers: TagNumbers,
}

impl Seen {
    /// No block was read.
    fn new(alloc: Global) -> Seen
        ensures valid_pages { result.valid_pages.items ≡ [] }
        ensures numbers { numbers_of result.numbers ≡ record { version = 0; group = 0; seq = 0 } }
    {
        Seen::with(
            alloc,
            TagNumbers {
                version: 0,
                group: 0,
                seq: 0,
            },
        )
    }

    /// Tags with these greatest numbers were read.
    pub(crate) fn with(alloc: Global, numbers: TagNumbers) -> Seen
        ensures valid_pages { result.valid_pages.items ≡ [] }
        ensures numbers { result.numbers ≡ numbers }
    {
        Seen {
            valid_pages: Vec::new(alloc),
            numbers,
        }
    }
}

/// Adds what is in a block. Its tags are read into `tags`.
fn scan_block<N: Nand>(
    device: &mut N,
    block: u32,
    tags: &mut Vec<Option<Tag>>,
    seen: &mut Seen,
) -> Result<(), ScanFault>
    requires { block < (N.state device.old).geometry.blocks }
    ensures reads { ReadsBlock block (N.state device.old) (N.state device.new) result }
    ensures valid_pages { Extends (ReportsBelow (N.state device.old)) block seen.old.valid_pages.items seen.new.valid_pages.items result }
    ensures alone { seen.old.valid_pages.items ≡ [] → OnOk result (ReportsBlock (N.state device.old) block seen.new.valid_pages.items) }
    ensures numbers { KeepsGreatest (N.state device.old) block (numbers_of seen.old.numbers) (numbers_of seen.new.numbers) result }
    ensures raised { RaisesNumbers (N.state device.old) block (numbers_of seen.old.numbers) (numbers_of seen.new.numbers) result }
{
    if device.is_bad(block) {
        return Ok(());
    }
    read_tags(device, block, tags)?;
    seen.numbers = raised_by(seen.numbers, tags);
    add_counted(block, tags, &mut seen.valid_pages)?;
    Ok(())
}

/// What is in all blocks.
fn scan_blocks<N: Nand>(alloc: Global, device: &mut N) -> Result<Seen, ScanFault>
    ensures reads { ReadsBlocks (N.state device.old) (N.state device.new) result }
    ensures valid_pages { IfOk result (λ seen. ReportsCounted (N.state device.old) seen.valid_pages.items) }
    ensures numbers { (N.state device.old).honest ≡ true → IfOk result (λ seen. AreGreatest (N.state device.old).flash (numbers_of seen.numbers)) }
{
    let mut tags = Vec::new(alloc);
    let mut seen = Seen::new(alloc);
    for block in 0..device.geometry().blocks() {
        scan_block(device, block, &mut tags, &mut seen)?;
    }
    Ok(seen)
}

/// Adds the pages of a block to those that were found. Its tags are read into `tags`, and its pages into `seen`.
pub(crate) fn find_block<N: Nand>(
    device: &mut N,
    block: u32,
    tags: &mut Vec<Option<Tag>>,
    seen: &mut Seen,
    found: &mut FoundPages,
) -> Result<(), ScanFault>
    requires { block < (N.state device.old).geometry.blocks }
    ensures reads { ReadsBlock block (N.state device.old) (N.state device.new) result }
    ensures found { Extends (HasLatestBelow (N.state device.old)) block (listed found.old) (listed found.new) result }
    ensures numbers { KeepsGreatest (N.state device.old) block (numbers_of seen.old.numbers) (numbers_of seen.new.numbers) result }
    ensures adds { OnOk result (AddsBlock (N.state device.old) block (listed found.old) (listed found.new)) }
    ensures raised { RaisesNumbers (N.state device.old) block (numbers_of seen.old.numbers) (numbers_of seen.new.numbers) result }
{
    seen.valid_pages.clear();
    scan_block(device, block, tags, seen)?;
    found.add_all(&seen.valid_pages)?;
    Ok(())
}

/// The newest pages of all blocks, among which others may be, and the greatest numbers.
fn find_blocks<N: Nand>(alloc: Global, device: &mut N) -> Result<NewestScan, ScanFault>
    ensures reads { ReadsBlocks (N.state device.old) (N.state device.new) result }
    ensures found { IfOk result (λ scan. HasLatestBelow (N.state device.old) (N.state device.old).geometry.blocks (listed scan.newest)) }
    ensures numbers { (N.state device.old).honest ≡ true → IfOk result (λ scan. AreGreatest (N.state device.old).flash (numbers_of scan.numbers)) }
{
    let mut tags = Vec::new(alloc);
    let mut seen = Seen::new(alloc);
    let mut newest = FoundPages::new(alloc)?;
    for block in 0..device.geometry().blocks() {
        find_block(device, block, &mut tags, &mut seen, &mut newest)?;
    }
    let numbers = seen.numbers;
    Ok(NewestScan { newest, numbers })
}

/// Finds the pages that count, the newest of each key and the greatest numbers. Each tag of a good block is read once,
/// and no page's data.
///
/// A device that is not honest may have any of its places reported, each once, and any keys for them.
pub fn scan<N: Nand>(alloc: Global, device: &mut N) -> Result<Scan, ScanFault>
    ensures reads { ReadsBlocks (N.state device.old) (N.state device.new) result }
    ensures valid_pages { IfOk result (λ scan. ReportsCounted (N.state device.old) scan.valid_pages.items) }
    ensures newest { IfOk result (λ scan. ReportsNewest (N.state device.old) scan.newest) }
    ensures numbers { (N.state device.old).honest ≡ true → IfOk result (λ scan. AreGreatest (N.state device.old).flash (numbers_of scan.numbers)) }
{
    let seen = scan_blocks(alloc, device)?;
    let newest = newest_of(alloc, &seen.valid_pages)?;
    Ok(Scan {
        valid_pages: seen.valid_pages,
        newest,
        numbers: seen.numbers,
    })
}

/// The newest pages of the keys that a tree may look up, those of chunks below 2^32, and the greatest numbers, in less memory than
/// `scan` takes: while it goes on, pages are given up that are not the newest of their keys. A mount needs no more.
pub fn scan_newest<N: Nand>(alloc: Global, device: &mut N) -> Result<NewestScan, ScanFault>
    ensures reads { ReadsBlocks (N.state device.old) (N.state device.new) result }
    ensures newest { IfOk result (λ scan. ListsNewest (N.state device.old) (listed scan.newest)) }
    ensures numbers { (N.state device.old).honest ≡ true → IfOk result (λ scan. AreGreatest (N.state device.old).flash (numbers_of scan.numbers)) }
{
    let mut scan = find_blocks(alloc, device)?;
    scan.newest.keep_newest();
    Ok(scan)
}
