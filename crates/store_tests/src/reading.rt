// What reads ask of the device.

use crate::edits::{Edit, KEYS};
use crate::opening::{erased, open_store};
use crate::plain::{Plain, Step, read, take_step};
use nand_model::MemNand;
use pages::PageStore;
use std::alloc::Global;
use std::process::Abort;

/// The numbers of the keys of the chunks 1 and 2 of a file.
const FIRST: usize = 4;

const SECOND: usize = 8;

/// A device on which the two pages of a file are committed.
fn file(rt: &impl Abort, alloc: Global) -> MemNand {
    let mut store = open_store(rt, alloc, erased(rt, alloc, 8), 2, 1);
    let mut plain = Plain::new([0; KEYS]);
    for (first, stamp) in [(FIRST, 5), (SECOND, 6)] {
        let edit = Edit {
            cut: None,
            first,
            count: 1,
            stamp,
        };
        assert_eq!(rt;
            take_step(rt, alloc, &mut store, &mut plain, Step::Change(edit)),
            Ok(())
        );
    }
    assert_eq!(rt; store.commit(), Ok(()));
    let mut nand = store.into_device();
    nand.power_up();
    nand
}

/// How many calls of the device there are for these reads, with so many pages in the cache.
fn calls_for(rt: &impl Abort, alloc: Global, capacity: usize, numbers: &[usize]) -> u64 {
    let nand = file(rt, alloc);
    let copy = nand.copy().expect(rt, "memory");
    let opened = open_store(rt, alloc, copy, 2, capacity).into_device();
    let mut store = open_store(rt, alloc, nand, 2, capacity);
    for number in numbers {
        let wanted = if *number == FIRST { 5 } else { 6 };
        assert_eq!(rt; read(&mut store, *number), Ok(wanted));
    }
    store.into_device().calls().saturating_sub(opened.calls())
}

#[test]
fn a_page_in_the_cache_is_not_read_again(rt: HostRuntime) {
    let alloc = rt.alloc();
    for (capacity, third) in [(1, 3), (2, 2)] {
        assert_eq!(rt; calls_for(&rt, alloc, capacity, &[FIRST]), 1);
        assert_eq!(rt; calls_for(&rt, alloc, capacity, &[FIRST, FIRST]), 1);
        assert_eq!(rt; calls_for(&rt, alloc, capacity, &[FIRST, SECOND]), 2);
        let read = calls_for(&rt, alloc, capacity, &[FIRST, SECOND, FIRST]);
        assert_eq!(rt; read, third, "with {capacity}");
    }
}
