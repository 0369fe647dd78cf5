//! A block summary that is put together by hand: a scan by it, and the same page as it is written.

use crate::laid::{Laid, empty, write};
use crate::same::assert_same;
use crate::scans::pages_of;
use crate::volumes::Volume;
use crate::worked::tag;
use flash_tree::{CHECK_OBJECT, FreshPage, Key, TagNumbers};
use mount_scan::{NewestScan, PageCopy, ScanFault, find_checkpoint, scan_newest, scan_summaries};
use nand_model::{MemNand, Nand, PageKind};
use page_tags::CheckEntry;
use std::alloc::Global;
use std::process::Abort;

/// The head of a summary of two pages of block 2, which was allocated with number 1: `NLFB`, version 1, and zeros.
const HEAD: [u8; 32] = [
    0x4e, 0x4c, 0x46, 0x42, 1, 0, 0, 0, 2, 0, 0, 0, 2, 0, 0, 0, 1, 0, 0, 0, 0, 0, 0, 0, 0, 0, 0, 0,
    0, 0, 0, 0,
];

/// A block of two pages: chunks 0 and 1 of object 1, in versions 1 and 2.
fn listed_block() -> Laid {
    Laid {
        first: [7; 512],
        second: [8; 512],
        first_tag: tag((0, 1), (1, 0), (1, 1, 1)),
        second_tag: tag((0, 1), (1, 1), (2, 2, 1)),
    }
}

/// The page of the summary: the head, the two entries, and zeros.
fn summary() -> [u8; 512] {
    let mut page = [0; 512];
    page[..32].copy_from_slice(&HEAD);
    for k in 0..2u8 {
        let at = 32 * (k as usize + 1);
        page[at] = 1;
        page[at + 8] = k;
        page[at + 16] = k + 1;
        page[at + 24] = 2;
        page[at + 28] = k;
    }
    page
}

/// A block that begins with this page as a summary, and has chunk 0 of object 1 in version 4 behind it.
fn next_block(page: [u8; 512]) -> Laid {
    Laid {
        first: page,
        second: [9; 512],
        first_tag: tag((0, 1), (CHECK_OBJECT, 2_147_483_648), (3, 3, 2)),
        second_tag: tag((0, 1), (1, 0), (4, 4, 2)),
    }
}

/// A flash of 8 blocks of 32 pages: block 2 is listed by the page that block 5 begins with, and the others are erased.
fn flash(rt: &impl Abort, alloc: Global, page: [u8; 512]) -> MemNand {
    let mut nand = empty(rt, alloc);
    write(rt, &mut nand, 2, &listed_block(), true);
    write(rt, &mut nand, 5, &next_block(page), true);
    nand.power_up();
    nand
}

/// The newest page of each key: chunk 0 of object 1 in block 5, chunk 1 in block 2, and the summary.
const NEWEST: [PageCopy; 3] = [
    PageCopy {
        object: 1,
        version: 4,
        seq: 2,
        chunk: 0,
        block: 5,
        page: 1,
    },
    PageCopy {
        object: 1,
        version: 2,
        seq: 1,
        chunk: 1,
        block: 2,
        page: 1,
    },
    PageCopy {
        object: u64::MAX,
        version: 3,
        seq: 2,
        chunk: 2_147_483_648,
        block: 5,
        page: 0,
    },
];

/// Asserts that a scan found these pages and numbers.
fn found_all(rt: &impl Abort, alloc: Global, found: &NewestScan, what: &str) {
    let pages = pages_of(rt, alloc, &found.newest);
    assert_same!(rt; pages.len(), 3usize, what);
    for page in &NEWEST {
        assert!(rt; pages.contains(page), "{what}: {page:?}");
    }
    let numbers = TagNumbers {
        version: 4,
        group: 4,
        seq: 2,
    };
    assert_same!(rt; found.numbers, numbers, what);
}

/// What is found by the first pages and the summaries of blocks.
fn scan_by(alloc: Global, nand: &mut MemNand) -> Result<NewestScan, ScanFault> {
    let search = find_checkpoint(alloc, nand)?;
    scan_summaries(alloc, nand, &search.firsts)
}

/// How many pages a scan by summaries reads of the flash on which block 5 begins with this page.
fn reads_of(rt: &impl Abort, alloc: Global, page: [u8; 512], what: &str) -> u64 {
    reads_on(rt, alloc, flash(rt, alloc, page), what)
}

/// How many pages a scan by summaries reads of a flash. It finds what a scan of all tags does.
fn reads_on(rt: &impl Abort, alloc: Global, mut nand: MemNand, what: &str) -> u64 {
    let before = nand.calls();
    let found = scan_by(alloc, &mut nand).expect(rt, "a scan");
    let reads = nand.calls().saturating_sub(before);
    found_all(rt, alloc, &found, what);
    let all = scan_newest(alloc, &mut nand).expect(rt, "a scan");
    found_all(rt, alloc, &all, what);
    reads
}

/// The first page of each of 8 blocks, the summary, and all 32 pages of block 0, the first that begins erased, and of block 5.
#[test]
fn a_block_that_is_listed_is_not_read(rt: HostRuntime) {
    assert_same!(rt; reads_of(&rt, rt.alloc(), summary(), "whole"), 73);
}

/// The two pages of block 2, and the erased one behind them, are read too where the head names another number of it, and where the summary
/// is not whole.
#[test]
fn a_block_is_read_whose_summary_is_of_no_use(rt: HostRuntime) {
    let mut page = summary();
    page[16] = 2;
    assert_same!(rt; reads_of(&rt, rt.alloc(), page, "of another number"), 76);
    let mut page = summary();
    page[511] = 1;
    assert_same!(rt; reads_of(&rt, rt.alloc(), page, "not whole"), 76);
}

#[test]
fn a_cut_scan_reports_gone_and_changes_nothing(rt: HostRuntime) {
    let alloc = rt.alloc();
    for call in 0..73u64 {
        let mut cut = flash(&rt, alloc, summary()).with_fuse(call + 1, Vec::new(alloc));
        let fault = scan_by(alloc, &mut cut).err();
        assert_same!(rt; fault, Some(ScanFault::Gone), call);
        assert_same!(rt; cut.changes(), 0, call);
    }
}

/// Entry k of the summary: of chunk k of object 1.
fn entry(k: u32) -> CheckEntry {
    CheckEntry {
        object: 1,
        chunk: u64::from(k),
        version: 1 + u64::from(k),
        block: 2,
        page: k,
    }
}

/// Commits a page of a chunk of object 1, all bytes the same.
fn commit(rt: &impl Abort, alloc: Global, volume: &mut Volume, chunk: u64, fill: u8) {
    let page = FreshPage {
        key: Key { object: 1, chunk },
        bytes: vec![in alloc; fill; 512].expect(rt, "memory"),
    };
    let pages = vec![in alloc; page].expect(rt, "memory");
    volume.commit(rt, &pages).expect(rt, "a commit");
}

/// The flash of the summary, written by groups.
fn written(rt: &impl Abort, alloc: Global) -> MemNand {
    let mut volume = Volume::new(rt, alloc);
    volume.take(rt, 2).expect(rt, "a block");
    commit(rt, alloc, &mut volume, 0, 7);
    commit(rt, alloc, &mut volume, 1, 8);
    volume.take(rt, 5).expect(rt, "a block");
    let entries = [entry(0), entry(1)];
    volume.summarize(rt, 2, 1, &entries).expect(rt, "a summary");
    commit(rt, alloc, &mut volume, 0, 9);
    let mut nand = volume.into_nand();
    nand.power_up();
    nand
}

/// The page that was put together by hand, with its tag; and a scan reads as few pages.
#[test]
fn a_summary_is_written_as_it_is_read(rt: HostRuntime) {
    let mut nand = written(&rt, rt.alloc());
    let geometry = nand.geometry();
    assert!(rt; geometry.blocks() == 8 && geometry.pages() == 32 && geometry.bytes() == 512);
    let (mut page, mut tag) = ([0; 512], [0; 48]);
    let kind = nand
        .read_page(5, 0, &mut page, &mut tag)
        .expect(&rt, "a read");
    assert_same!(rt; kind, PageKind::Written);
    assert_same!(rt; page, summary());
    assert_same!(rt; tag, next_block(page).first_tag.encode());
    assert_same!(rt; reads_on(&rt, rt.alloc(), nand, "written"), 73);
}
