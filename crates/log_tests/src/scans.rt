// Scans of a device in memory, beside a plain search of it.

use crate::same::assert_same;
use crate::worked::{WorkedFlash, broken_off, flashes, powered_up, small, tag, written};
use flash_tree::{Found, Key};
use mount_scan::{BUCKETS, FoundPages, PageCopy, ScanFault, scan, scan_newest};
use nand_model::{Fate, MemNand};
use rand_core::utils::NextWord;
use rand_pcg::Pcg32;
use std::alloc::Global;
use std::collections::BTreeMap;
use std::process::Abort;
use test_devices::{TestFlash, greatest, newest};

/// The pages of all buckets.
pub(crate) fn pages_of(rt: &impl Abort, alloc: Global, found: &FoundPages) -> Vec<PageCopy> {
    let mut pages = Vec::new(alloc);
    for at in 0..BUCKETS {
        for page in found.bucket(at) {
            pages.push(*page).expect(rt, "memory");
        }
    }
    pages
}

/// The places of pages that count.
fn valid_at(rt: &impl Abort, alloc: Global, list: &[Found]) -> Vec<(u32, u32)> {
    let mut places = Vec::new(alloc);
    for found in list {
        places.push((found.block, found.page)).expect(rt, "memory");
    }
    places
}

/// The places of pages that were found.
fn places_of(rt: &impl Abort, alloc: Global, listed: &[PageCopy]) -> Vec<(u32, u32)> {
    let mut places = Vec::new(alloc);
    for page in listed {
        places
            .push((u32::from(page.block), u32::from(page.page)))
            .expect(rt, "memory");
    }
    places
}

/// The entry of a key.
fn entry(list: &[PageCopy], key: Key) -> Option<PageCopy> {
    let mut entry = None;
    for page in list {
        if page.object == key.object && u64::from(page.chunk) == key.chunk {
            entry = Some(*page);
        }
    }
    entry
}

/// The copy of a page, if there is one.
fn copy_of(found: Option<Found>) -> Option<PageCopy> {
    match found {
        Some(found) => PageCopy::of(&found),
        None => None,
    }
}

/// The scan of the newest pages finds what the plain search finds, of keys of objects up to 7 and chunks up to 9.
fn finds_as_plainly(
    rt: &impl Abort,
    alloc: Global,
    nand: &mut MemNand,
    what: &str,
) -> Vec<PageCopy> {
    let found = scan_newest(alloc, nand).expect(rt, "a scan");
    let listed = pages_of(rt, alloc, &found.newest);
    let mut keys = 0usize;
    for object in 0..8u64 {
        for chunk in 0..10u64 {
            let key = Key { object, chunk };
            let plain = copy_of(newest(nand, key).expect(rt, "a search"));
            assert_same!(rt; entry(&listed, key), plain, (what, key));
            keys = keys.saturating_add(plain.is_some() as usize);
        }
    }
    assert_same!(rt; listed.len(), keys, what);
    assert_same!(rt; found.numbers, greatest(nand).expect(rt, "a search"), what);
    listed
}

/// Asserts that a scan of a worked flash finds what is to be found, and changes nothing.
fn finds_as_worked(rt: &impl Abort, alloc: Global, flash: &WorkedFlash) {
    let mut nand = written(rt, alloc, flash);
    let found = scan(alloc, &mut nand).expect(rt, "a scan");
    let valid = valid_at(rt, alloc, &found.valid_pages);
    assert_same!(rt; valid, flash.valid, flash.what);
    assert_same!(rt; found.numbers, flash.numbers, flash.what);
    let listed = finds_newest(rt, alloc, &mut nand, &found.newest, flash.what);
    assert_same!(rt; places_of(rt, alloc, &listed), flash.newest, flash.what);
    assert_same!(rt; nand.changes(), 0);
}

/// The scan of the newest pages, which finds what the plain search finds, finds these, and no others.
fn finds_newest(
    rt: &impl Abort,
    alloc: Global,
    nand: &mut MemNand,
    newest: &BTreeMap<(u64, u64), Found>,
    what: &str,
) -> Vec<PageCopy> {
    let listed = finds_as_plainly(rt, alloc, nand, what);
    assert_same!(rt; newest.len(), listed.len(), what);
    for page in &listed {
        let key = (page.object, u64::from(page.chunk));
        let here = copy_of(newest.get(&key).copied());
        assert_same!(rt; here, Some(*page), what);
    }
    listed
}

#[test]
fn finds_what_counts_and_the_newest_of_each_key(rt: HostRuntime) {
    let alloc = rt.alloc();
    for flash in flashes(&rt, alloc) {
        finds_as_worked(&rt, alloc, &flash);
    }
}

/// How many pages count on a device and how many of them are the newest, of one page and the first ones of a group of four.
fn counts_of_group(rt: &impl Abort, alloc: Global, pages: u32) -> (usize, usize) {
    let mut flash = small(rt, alloc);
    flash
        .write(4, &tag((0, 1), (1, 0), (1, 1, 1)), 7)
        .expect(rt, "a write");
    for i in 0..pages {
        flash
            .write(4, &tag((i, 4), (1, i as u64), (2, 2, 1)), 7)
            .expect(rt, "a write");
    }
    let found = scan(alloc, &mut powered_up(flash)).expect(rt, "a scan");
    (found.valid_pages.len(), found.newest.len())
}

#[test]
fn a_group_counts_with_its_last_page(rt: HostRuntime) {
    for pages in 0..5u32 {
        let wanted = if pages == 4 { (5, 4) } else { (1, 1) };
        assert_same!(rt; counts_of_group(&rt, rt.alloc(), pages), wanted, pages);
    }
}

/// What the scans find on a device with a page of chunk 7, and two of this chunk, of versions 2 and 3: how many pages are the newest of
/// the keys that a tree may look up, the greatest version, how many are the newest of all keys, and the version of that of this chunk.
fn newest_beside(rt: &impl Abort, alloc: Global, chunk: u64) -> (usize, u64, usize, Option<u64>) {
    let mut flash = small(rt, alloc);
    flash
        .write(4, &tag((0, 2), (1, 7), (1, 3, 1)), 7)
        .expect(rt, "a write");
    flash
        .write(4, &tag((1, 2), (1, chunk), (3, 3, 1)), 7)
        .expect(rt, "a write");
    flash
        .write(4, &tag((0, 1), (1, chunk), (2, 4, 1)), 7)
        .expect(rt, "a write");
    let mut nand = powered_up(flash);
    let looked_up = scan_newest(alloc, &mut nand).expect(rt, "a scan");
    let pages = pages_of(rt, alloc, &looked_up.newest);
    let all = scan(alloc, &mut nand).expect(rt, "a scan");
    let here = all.newest.get(&(1, chunk)).map(|found| found.tag.version);
    (
        pages.len(),
        looked_up.numbers.version,
        all.newest.len(),
        here,
    )
}

#[test]
fn one_scan_passes_over_chunks_that_no_tree_looks_up(rt: HostRuntime) {
    for (chunk, newest) in [
        (4_294_967_295u64, 2usize),
        (4_294_967_296, 1),
        (u64::MAX, 1),
    ] {
        // The numbers of each page count.
        let wanted = (newest, 3, 2, Some(3));
        assert_same!(rt; newest_beside(&rt, rt.alloc(), chunk), wanted, chunk);
    }
}

/// The calls of one scan.
fn calls_of_scan(rt: &impl Abort, alloc: Global, nand: &MemNand) -> u64 {
    let mut copy = nand.copy().expect(rt, "memory");
    let _found = scan(alloc, &mut copy).expect(rt, "a scan");
    copy.calls()
}

/// Cuts both scans at a call. They say so and change nothing, and after a power-up the newest pages are found.
fn cut_at(rt: &impl Abort, alloc: Global, nand: &MemNand, call: u64, newest: &Vec<(u32, u32)>) {
    let mut cut = nand
        .copy()
        .expect(rt, "memory")
        .with_fuse(call.saturating_add(1), Vec::new(alloc));
    let gone = Some(ScanFault::Gone);
    assert_same!(rt; scan(alloc, &mut cut).err(), gone, call);
    assert_same!(rt; scan_newest(alloc, &mut cut).err(), gone, call);
    assert_same!(rt; cut.changes(), 0, call);
    cut.power_up();
    let found = scan_newest(alloc, &mut cut).expect(rt, "a scan");
    let places = places_of(rt, alloc, &pages_of(rt, alloc, &found.newest));
    assert_same!(rt; places, *newest, call);
}

#[test]
fn a_cut_scan_says_gone_and_changes_nothing(rt: HostRuntime) {
    let alloc = rt.alloc();
    let flash = broken_off(&rt, alloc);
    let nand = written(&rt, alloc, &flash);
    let calls = calls_of_scan(&rt, alloc, &nand);
    assert_same!(rt; calls, 160);
    for call in 0..calls {
        cut_at(&rt, alloc, &nand, call, &flash.newest);
    }
}

/// Writes the pages of a group whose numbers are random, some of them left out.
fn write_group(random: &mut Pcg32, flash: &mut TestFlash) {
    let block = random.next_word() % 5;
    let count = 1 + random.next_word() % 4;
    let version = 1 + (random.next_word() % 6) as u64;
    let group = version + (random.next_word() % 3) as u64;
    let seq = 1 + (random.next_word() % 3) as u64;
    for i in 0..count {
        let key = (
            1 + (random.next_word() % 3) as u64,
            (random.next_word() % 3) as u64,
        );
        if random.next_word() % 10 > 0 {
            // a block that is full, bad or fails takes no page
            let _written = flash.write(block, &tag((i, count), key, (version, group, seq)), 7);
        }
    }
}

/// What a failed call leaves of a block.
fn fates(rt: &impl Abort, alloc: Global, random: &mut Pcg32) -> Vec<Fate> {
    let mut fates = Vec::new(alloc);
    for _page in 0..32u32 {
        let fate = match random.next_word() % 4 {
            0 => Fate::Old,
            1 => Fate::New,
            2 => Fate::Erased,
            _ => Fate::Uncorrectable,
        };
        fates.push(fate).expect(rt, "memory");
    }
    fates
}

/// A flash of pages that were written, lost and erased at random.
fn random_flash(rt: &impl Abort, alloc: Global, random: &mut Pcg32) -> MemNand {
    let mut failures = Vec::new(alloc);
    for _failure in 0..12u32 {
        let call = 1 + (random.next_word() % 200) as u64;
        failures
            .push((call, fates(rt, alloc, random)))
            .expect(rt, "memory");
    }
    let mut flash = small(rt, alloc).with_failures(failures);
    for _turn in 0..80u32 {
        match random.next_word() % 40 {
            0 => {
                let _marked = flash.mark_bad(random.next_word() % 5);
            }
            1 | 2 => {
                let _erased = flash.erase(random.next_word() % 5);
            }
            _ => write_group(random, &mut flash),
        }
    }
    powered_up(flash)
}

/// How many pages of a random flash count. The scans of it find what the plain search finds.
fn counted_of_drawn(rt: &impl Abort, alloc: Global, random: &mut Pcg32) -> u64 {
    let mut nand = random_flash(rt, alloc, random);
    let found = scan(alloc, &mut nand).expect(rt, "a scan");
    let _listed = finds_newest(rt, alloc, &mut nand, &found.newest, "a random flash");
    found.valid_pages.len() as u64
}

#[test]
fn finds_what_a_plain_search_finds(rt: HostRuntime) {
    let mut random = Pcg32::new(42, 54);
    let mut entries = 0u64;
    for _round in 0..100u32 {
        entries = entries.saturating_add(counted_of_drawn(&rt, rt.alloc(), &mut random));
    }
    assert!(rt; entries > 1000);
}
