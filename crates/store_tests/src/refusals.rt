// Changes for which memory is refused, and which are made again.

use crate::edits::{Edit, KEYS, apply};
use crate::opening::{erased, open_store, scanned};
use crate::plain::{Plain, Stamps, are_found, read, read_all};
use nand_model::MemNand;
use page_store::Store;
use pages::{Cut, PageStore};
use std::alloc::Global;
use std::process::Abort;
use volume_terms::StoreFault;

/// The stamps of all keys. A read for which memory is refused is made again.
fn read_again(rt: &impl Abort, store: &mut Store<MemNand>) -> Stamps {
    let mut stamps = [0; KEYS];
    for number in 0..KEYS {
        stamps[number] = match read(store, number) {
            Ok(stamp) => stamp,
            Err(fault) => {
                assert_eq!(rt; fault, StoreFault::NoMemory, "key {number}");
                read(store, number).expect(rt, "a read")
            }
        };
    }
    stamps
}

/// Makes a change. One for which memory is refused changes nothing, and is made again.
fn change_again(
    rt: &impl Abort,
    alloc: Global,
    store: &mut Store<MemNand>,
    plain: &mut Plain,
    edit: Edit,
) {
    let (change, again) = (edit.change(rt, alloc), edit.change(rt, alloc));
    if let Err(fault) = apply(rt, store, change) {
        assert_eq!(rt; fault, StoreFault::NoMemory, "{edit:?}");
        assert_eq!(rt; read_again(rt, store), plain.present, "{edit:?}");
        assert_eq!(rt; apply(rt, store, again), Ok(()), "{edit:?}");
    }
    plain.change(edit);
    assert_eq!(rt; read_again(rt, store), plain.present, "{edit:?}");
}

// Run it with each allocation refused in turn.
#[test]
fn a_refused_change_changes_nothing(rt: HostRuntime) {
    let alloc = rt.alloc();
    let mut store = open_store(&rt, alloc, erased(&rt, alloc, 5), 1, 4);
    let mut plain = Plain::new([0; KEYS]);
    for number in 0..6u32 {
        let cut = Cut {
            object: 1 + u64::from(number % 4),
            from: 3,
        };
        let edit = Edit {
            cut: (number % 2 == 1).then_some(cut),
            first: number as usize * 11,
            count: 5,
            stamp: 1 + number * 8,
        };
        change_again(&rt, alloc, &mut store, &mut plain, edit);
    }
    assert_eq!(rt; store.commit(), Ok(()));
    let mut nand = store.into_device();
    nand.power_up();
    let newest = read_all(&rt, &mut scanned(&rt, alloc, nand));
    assert!(rt; are_found(&plain.present, &newest));
}
