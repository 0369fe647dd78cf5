// A block that begins with a summary of the one before.

use crate::edits::{apply, change_of};
use crate::opening::{Trouble, erased, open_store, scanned, troubled};
use crate::plain::read_all;
use mount_scan::{NewestScan, ScanFault, find_checkpoint, scan_summaries};
use nand_model::{Fate, MemNand, Nand, PageKind};
use page_store::Store;
use page_tags::Tag;
use pages::PageStore;
use std::alloc::Global;
use std::process::Abort;

/// The numbers of the keys that are written in turn: chunk 0 of objects 1 to 4.
const KEYS: u32 = 4;

/// Commits pages one by one, so many in all: page `i` is of key `i mod 4`.
fn write_pages(rt: &impl Abort, alloc: Global, store: &mut Store<MemNand>, count: u32) {
    for number in 0..count {
        let change = change_of(rt, alloc, &[(number % KEYS) as usize], number + 1);
        assert_eq!(rt; apply(rt, store, change), Ok(()), "{number}");
        assert_eq!(rt; store.commit(), Ok(()), "{number}");
    }
}

/// A store on an erased device of 8 blocks of 32 pages, of which one may go bad.
fn fresh_store(rt: &impl Abort, alloc: Global, trouble: Trouble) -> Store<MemNand> {
    let nand = troubled(rt, alloc, erased(rt, alloc, 8), trouble);
    open_store(rt, alloc, nand, 1, 16)
}

/// The head of a summary of four pages of block 0, which was allocated with number 1; and their entries: pages 28 to 31, of
/// objects 1 to 4, in versions 29 to 32.
fn summary_of_first() -> [u8; 512] {
    let mut page = [0; 512];
    page[..5].copy_from_slice(&[0x4e, 0x4c, 0x46, 0x42, 1]);
    page[12] = 4;
    page[16] = 1;
    for k in 0..4u8 {
        let at = 32 * (k as usize + 1);
        page[at] = 1 + k;
        page[at + 16] = 29 + k;
        page[at + 28] = 28 + k;
    }
    page
}

/// The first page of a block, which is written, with its tag.
fn first_page_of(rt: &impl Abort, nand: &mut MemNand, block: u32) -> ([u8; 512], [u8; 48]) {
    let geometry = nand.geometry();
    if geometry.bytes() != 512 || block >= geometry.blocks() {
        panic!(rt; "no such page");
    }
    let (mut page, mut tag) = ([0; 512], [0; 48]);
    let kind = nand
        .read_page(block, 0, &mut page, &mut tag)
        .expect(rt, "a read");
    assert_eq!(rt; kind, PageKind::Written);
    (page, tag)
}

/// What is found by the first pages and the summaries of blocks.
fn scan_by(alloc: Global, nand: &mut MemNand) -> Result<NewestScan, ScanFault> {
    let search = find_checkpoint(alloc, nand)?;
    scan_summaries(alloc, nand, &search.firsts)
}

#[test]
fn the_next_block_begins_with_a_summary(rt: HostRuntime) {
    let alloc = rt.alloc();
    let mut store = fresh_store(&rt, alloc, Trouble::Nothing);
    write_pages(&rt, alloc, &mut store, 33);
    let mut nand = store.into_device();
    // Two erases, 33 pages and the summary.
    assert_eq!(rt; nand.changes(), 36);
    let (page, tag) = first_page_of(&rt, &mut nand, 1);
    assert_eq!(rt; page, summary_of_first());
    let named = Tag {
        index: 0,
        count: 1,
        object: u64::MAX,
        chunk: 2_147_483_648,
        version: 33,
        group: 33,
        seq: 2,
    };
    assert_eq!(rt; tag, named.encode());
    // A scan by summaries reads the first page of each block, the summary, and the pages of block 2, the first that begins erased,
    // and of block 1, which has none.
    nand.power_up();
    let before = nand.calls();
    let _found = scan_by(alloc, &mut nand).expect(&rt, "a scan");
    assert_eq!(rt; nand.calls().saturating_sub(before), 73);
}

/// A block in which fewer pages than a fourth of it are written has none: here one page after a power-up.
#[test]
fn a_block_with_few_pages_is_not_listed(rt: HostRuntime) {
    let alloc = rt.alloc();
    let mut store = fresh_store(&rt, alloc, Trouble::Nothing);
    write_pages(&rt, alloc, &mut store, 1);
    let mut nand = store.into_device();
    nand.power_up();
    let mut store = open_store(&rt, alloc, nand, 1, 16);
    write_pages(&rt, alloc, &mut store, 1);
    // Since the power-up an erase and a page.
    assert_eq!(rt; store.into_device().changes(), 2);
}

/// A summary whose program fails, or reads whole though it is said to fail: its block is marked, and the next begins with none.
#[test]
fn a_summary_that_fails_costs_its_block(rt: HostRuntime) {
    let alloc = rt.alloc();
    let mut opened = fresh_store(&rt, alloc, Trouble::Nothing);
    write_pages(&rt, alloc, &mut opened, 32);
    // The call after the erase for the page that comes then.
    let call = opened.into_device().calls().saturating_add(2);
    for fate in [Fate::Old, Fate::New, Fate::Erased, Fate::Uncorrectable] {
        let mut store = fresh_store(&rt, alloc, Trouble::Failure(call, fate));
        write_pages(&rt, alloc, &mut store, 33);
        let written = read_all(&rt, &mut store);
        let mut nand = store.into_device();
        assert!(rt; nand.is_bad(1) && !nand.is_bad(2), "{fate:?}");
        // An erase more, and a mark.
        assert_eq!(rt; nand.changes(), 38, "{fate:?}");
        nand.power_up();
        assert_eq!(rt;
            read_all(&rt, &mut scanned(&rt, alloc, nand)),
            written,
            "{fate:?}"
        );
    }
}
