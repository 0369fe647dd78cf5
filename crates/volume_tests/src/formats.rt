// Devices that are formatted: which blocks have to be there, where the root stands, and calls that fail or are cut.

use crate::devices::{Hit, erased, failing, format_of, formatted_with, marked};
use crate::scenarios::Part::Rows;
use crate::scenarios::tell;
use nand_model::{Fate, MemNand, Nand, PageKind};
use posix_calls::FormatFault;
use std::alloc::Global;
use std::process::Abort;

/// An erased device whose calls from one number to another fail. What they touch stays as it was.
fn failing_from(rt: &impl Abort, alloc: Global, first: u64, last: u64) -> MemNand {
    let mut hits = Vec::new(alloc);
    for call in first..=last {
        hits.push(Hit { call, left: &[] }).expect(rt, "memory");
    }
    failing(rt, alloc, &erased(rt, alloc), &hits)
}

/// A page of a block: what it is, its data and its tag.
fn read(
    rt: &impl Abort,
    nand: &mut MemNand,
    block: u32,
    page: u32,
) -> (PageKind, [u8; 512], [u8; 48]) {
    let geometry = nand.geometry();
    if block >= geometry.blocks() || page >= geometry.pages() || geometry.bytes() != 512 {
        panic!(rt; "no such page");
    }
    let mut bytes = [0; 512];
    let mut tag = [0; 48];
    let kind = nand
        .read_page(block, page, &mut bytes, &mut tag)
        .expect(rt, "a page");
    (kind, bytes, tag)
}

/// That the root with one spare block is in a block, with this number.
fn expect_root(rt: &impl Abort, nand: &mut MemNand, block: u32, number: u8) {
    let (kind, bytes, tag) = read(rt, nand, block, 0);
    let mut header = [0u8; 512];
    header[..7].copy_from_slice(b"NLFS\x02\x02\x01");
    let mut root = [0u8; 48];
    for (at, value) in [
        (4usize, 1u8),
        (8, 1),
        (24, number),
        (32, number),
        (40, number),
    ] {
        root[at] = value;
    }
    assert_eq!(rt; kind, PageKind::Written);
    assert!(rt; bytes == header);
    assert_eq!(rt; tag, root);
}

/// On a fresh device, and on one that was used and whose first block is bad: what is in good blocks is erased.
#[test]
fn the_root_stands_in_the_first_good_block(rt: HostRuntime) {
    let alloc = rt.alloc();
    let (mut nand, fault) = format_of(alloc, erased(&rt, alloc), 1);
    assert_eq!(rt; (fault, marked(&nand), nand.changes()), (None, 0, 9));
    expect_root(&rt, &mut nand, 0, 1);
    assert_eq!(rt; read(&rt, &mut nand, 0, 1).0, PageKind::Erased);
    assert_eq!(rt; read(&rt, &mut nand, 1, 0).0, PageKind::Erased);
    nand.power_up();
    assert!(rt; nand.geometry().blocks() > 0);
    nand.mark_bad(0).expect(&rt, "a mark");
    let (mut nand, fault) = format_of(alloc, nand, 1);
    assert_eq!(rt; (fault, marked(&nand)), (None, 1));
    expect_root(&rt, &mut nand, 0, 1);
    expect_root(&rt, &mut nand, 1, 1);
}

/// A device that has too few blocks is left as it is.
#[test]
fn four_blocks_stand_beside_the_spare_ones(rt: HostRuntime) {
    let alloc = rt.alloc();
    for spare in [5u32, 8, u32::MAX] {
        let (nand, fault) = format_of(alloc, erased(&rt, alloc), spare);
        assert_eq!(rt; fault, Some(FormatFault::Spare), "{spare}");
        assert_eq!(rt; nand.changes(), 0, "{spare}");
    }
    let nand = formatted_with(&rt, alloc, erased(&rt, alloc), 4);
    let _ = tell(&rt, alloc, nand, &[Rows("space -> space 512 72 71")]);
}

/// A block that fails is marked, and the root is in another; more marks than spare blocks are reported.
#[test]
fn what_fails_is_marked_bad(rt: HostRuntime) {
    let alloc = rt.alloc();
    // The first erase, then the mark, seven erases and a program.
    let (mut nand, fault) = format_of(alloc, failing_from(&rt, alloc, 1, 1), 1);
    assert_eq!(rt; (fault, marked(&nand), nand.changes()), (None, 1, 10));
    expect_root(&rt, &mut nand, 1, 1);
    nand.power_up();
    let _ = tell(&rt, alloc, nand, &[Rows("space -> space 512 144 143")]);
    // Eight erases, then the first program, the mark and a program.
    let (mut nand, fault) = format_of(alloc, failing_from(&rt, alloc, 9, 9), 1);
    assert_eq!(rt; (fault, marked(&nand), nand.changes()), (None, 1, 11));
    expect_root(&rt, &mut nand, 1, 2);
    // One bad block and no spare one.
    let (nand, fault) = format_of(alloc, failing_from(&rt, alloc, 1, 1), 0);
    assert_eq!(rt; (fault, marked(&nand)), (Some(FormatFault::Worn), 1));
    // Every erase, and every program.
    let (nand, fault) = format_of(alloc, failing_from(&rt, alloc, 1, 1000), 1);
    assert_eq!(rt;
        (fault, marked(&nand), nand.changes()),
        (Some(FormatFault::Worn), 8, 16)
    );
    let (nand, fault) = format_of(alloc, failing_from(&rt, alloc, 9, 1000), 4);
    assert_eq!(rt;
        (fault, marked(&nand), nand.changes()),
        (Some(FormatFault::Worn), 8, 24)
    );
}

/// A cut is reported at each call of a format whose third erase fails: eight erases, with a mark after the third, and a program.
#[test]
fn each_cut_of_a_format_is_reported(rt: HostRuntime) {
    let alloc = rt.alloc();
    for call in 1..=10u64 {
        for fate in [Fate::Old, Fate::New, Fate::Uncorrectable] {
            let nand = failing_from(&rt, alloc, 3, 3).with_fuse(
                call,
                vec![in alloc; fate; 32].expect(&rt, "memory"),
            );
            let (nand, fault) = format_of(alloc, nand, 1);
            assert_eq!(rt; fault, Some(FormatFault::Gone), "{call} {fate:?}");
            assert_eq!(rt;
                (nand.gone(), nand.changes()),
                (true, call),
                "{call} {fate:?}"
            );
        }
    }
}

// Run it with each allocation of the format refused in turn.
#[test]
fn a_format_that_is_refused_memory_changes_nothing(rt: HostRuntime) {
    let alloc = rt.alloc();
    let (nand, fault) = format_of(alloc, erased(&rt, alloc), 1);
    if fault == Some(FormatFault::NoMemory) {
        assert_eq!(rt; nand.changes(), 0);
    } else {
        assert_eq!(rt; (fault, nand.changes()), (None, 9));
    }
}
