//! What a search finds.

use crate::laid::{Laid, checkpoint, empty, entry, write};
use mount_scan::{FirstPage, ScanFault, find_checkpoint};
use nand_model::{MemNand, Nand};
use std::alloc::Global;
use std::process::Abort;

/// The block of the checkpoint that is found, if one is.
fn found_in(rt: &impl Abort, alloc: Global, nand: &mut MemNand) -> Option<u32> {
    let search = find_checkpoint(alloc, nand).expect(rt, "a search");
    if let Some(found) = &search.checkpoint {
        return Some(found.block);
    }
    None
}

/// All of it is returned, in a read of each block and one of each of its pages.
#[test]
fn a_whole_checkpoint_is_found(rt: HostRuntime) {
    let mut nand = empty(&rt, rt.alloc());
    write(&rt, &mut nand, 3, &checkpoint(5), true);
    nand.power_up();
    let search = find_checkpoint(rt.alloc(), &mut nand).expect(&rt, "a search");
    assert_eq!(rt; nand.calls(), 10);
    for block in 0..8usize {
        let first = match block {
            3 => FirstPage::Tagged { seq: 5 },
            _ => FirstPage::Erased,
        };
        assert!(rt;
            search.firsts.pages.get(block) == Some(&first),
            "block {block}"
        );
    }
    let found = search.checkpoint.expect(&rt, "a checkpoint");
    assert_eq!(rt;
        (found.block, found.size, found.number, found.seq),
        (3, 2, 9, 5)
    );
    assert_eq!(rt; found.entries.len(), 20);
    for k in 0..20u32 {
        assert!(rt;
            found.entries.get(k as usize) == Some(&entry(k)),
            "entry {k}"
        );
    }
}

/// One alteration of each rule.
fn altered(rule: u32) -> Laid {
    let mut laid = checkpoint(5);
    match rule {
        0 => laid.first_tag.object = 2,
        1 => laid.first_tag.index = 1,
        2 => laid.first_tag.chunk = 2,
        3 => laid.first_tag.version = 8,
        4 => laid.first_tag.count = 33,
        5 => laid.second_tag.seq = 4,
        6 => laid.first[4] = 2,
        7 => laid.first[8] = 32,
        8 => laid.second[160] = 1,
        9 => laid.second[8] = 14,
        _ => laid.second[511] = 1,
    }
    laid
}

/// Neither is one of which a rule does not hold, nor one without its last page, nor one in a bad block.
#[test]
fn what_is_altered_is_not_found(rt: HostRuntime) {
    for rule in 0..11 {
        let mut nand = empty(&rt, rt.alloc());
        write(&rt, &mut nand, 3, &altered(rule), true);
        assert_eq!(rt; found_in(&rt, rt.alloc(), &mut nand), None, "rule {rule}");
    }
    let mut nand = empty(&rt, rt.alloc());
    write(&rt, &mut nand, 3, &checkpoint(5), false);
    assert_eq!(rt; found_in(&rt, rt.alloc(), &mut nand), None);
    let mut nand = empty(&rt, rt.alloc());
    write(&rt, &mut nand, 3, &checkpoint(5), true);
    assert!(rt; nand.geometry().blocks() == 8);
    nand.mark_bad(3).expect(&rt, "a mark");
    assert_eq!(rt; found_in(&rt, rt.alloc(), &mut nand), None);
}

/// The candidate with the greatest seq is read, among equals that of the lowest block; where it is not whole no other is.
#[test]
fn the_greatest_seq_is_read(rt: HostRuntime) {
    for (low, high, whole, block) in [
        (5, 6, true, Some(4)),
        (6, 5, true, Some(2)),
        (5, 5, true, Some(2)),
        (5, 6, false, None),
    ] {
        let mut nand = empty(&rt, rt.alloc());
        write(&rt, &mut nand, 2, &checkpoint(low), true);
        write(&rt, &mut nand, 4, &checkpoint(high), whole);
        assert_eq!(rt;
            found_in(&rt, rt.alloc(), &mut nand),
            block,
            "{low} and {high}"
        );
    }
}

/// A cut at each read ends the search.
#[test]
fn a_cut_search_says_gone(rt: HostRuntime) {
    for op in 1..=11 {
        let mut nand = empty(&rt, rt.alloc());
        write(&rt, &mut nand, 3, &checkpoint(5), true);
        nand.power_up();
        let mut nand = nand.with_fuse(op, Vec::new(rt.alloc()));
        match find_checkpoint(rt.alloc(), &mut nand) {
            Ok(search) => assert!(rt; op == 11 && search.checkpoint.is_some()),
            Err(fault) => assert!(rt; op < 11 && fault == ScanFault::Gone),
        }
    }
}
