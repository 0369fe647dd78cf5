// Commits.

use crate::edits::{Edit, KEYS, apply, change_of};
use crate::opening::{calls_when_opened, erased, open_store, scanned};
use crate::plain::{Plain, Stamps, Step, read, read_all, take_step};
use nand_model::MemNand;
use page_store::Store;
use pages::PageStore;
use std::alloc::Global;
use std::process::Abort;

/// A change of so many pages, and its commit.
fn change_and_commit(
    rt: &impl Abort,
    alloc: Global,
    store: &mut Store<MemNand>,
    plain: &mut Plain,
    edit: Edit,
) {
    for next in [Step::Change(edit), Step::Commit] {
        let taken = take_step(rt, alloc, store, plain, next);
        assert_eq!(rt; taken, Ok(()), "{next:?}");
    }
}

#[test]
fn a_commit_after_each_change_collects_and_loses_nothing(rt: HostRuntime) {
    let alloc = rt.alloc();
    let mut store = open_store(&rt, alloc, erased(&rt, alloc, 5), 1, 2);
    let mut plain = Plain::new([0; KEYS]);
    for number in 0..40u32 {
        let edit = Edit {
            cut: None,
            first: number as usize * 5,
            count: 8,
            stamp: 1 + number * 8,
        };
        change_and_commit(&rt, alloc, &mut store, &mut plain, edit);
        assert_eq!(rt; read_all(&rt, &mut store), plain.present, "{number}");
    }
    let mut nand = store.into_device();
    // Of 320 pages that are written and none that is copied, there are no more than the erases of ten blocks.
    assert!(rt; nand.changes() > 330, "{}", nand.changes());
    nand.power_up();
    let mut store = open_store(&rt, alloc, nand, 1, 2);
    assert_eq!(rt; read_all(&rt, &mut store), plain.present);
}

/// How many changes the device had, and what a scan finds of the keys, after so many changes, each of a directory, of one of
/// its pages that is new, and of an object that is new, with no commit at the end.
fn left_after(rt: &impl Abort, alloc: Global, count: usize) -> (u64, Stamps) {
    let mut store = open_store(rt, alloc, erased(rt, alloc, 8), 2, 4);
    for (place, object) in [1, 2, 3, 5].iter().enumerate().take(count) {
        let change = change_of(
            rt,
            alloc,
            &[0, 4 + place % 4 * 4, *object],
            10 + place as u32 % 4,
        );
        assert_eq!(rt; apply(rt, &mut store, change), Ok(()), "{place}");
    }
    let mut nand = store.into_device();
    let changes = nand.changes();
    nand.power_up();
    (changes, read_all(rt, &mut scanned(rt, alloc, nand)))
}

#[test]
fn what_was_not_committed_was_not_written(rt: HostRuntime) {
    let alloc = rt.alloc();
    assert_eq!(rt; left_after(&rt, alloc, 1), (0, [0; KEYS]));
    assert_eq!(rt; left_after(&rt, alloc, 3), (0, [0; KEYS]));
    // There is no room for the fourth beside the seven pages of the first three, which are written first: an erase, and they.
    let mut wanted = [0; KEYS];
    wanted[0] = 12;
    for (number, stamp) in [(4, 10), (1, 10), (8, 11), (2, 11), (12, 12), (3, 12)] {
        wanted[number] = stamp;
    }
    assert_eq!(rt; left_after(&rt, alloc, 4), (8, wanted));
}

// An erase and three programs. The pages that were written are in the cache.
#[test]
fn a_commit_writes_its_pages_and_reads_none_of_them_again(rt: HostRuntime) {
    let alloc = rt.alloc();
    let nand = erased(&rt, alloc, 8);
    let opened = calls_when_opened(&rt, alloc, &nand);
    let mut store = open_store(&rt, alloc, nand, 1, 4);
    let change = change_of(&rt, alloc, &[0, 4, 1], 10);
    assert_eq!(rt; apply(&rt, &mut store, change), Ok(()));
    assert_eq!(rt; store.commit(), Ok(()));
    for number in [0, 4, 1] {
        assert_eq!(rt; read(&mut store, number), Ok(10), "{number}");
    }
    let nand = store.into_device();
    assert_eq!(rt; nand.changes(), 4);
    assert_eq!(rt; nand.calls().saturating_sub(opened), 4);
}
