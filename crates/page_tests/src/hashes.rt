// Names with equal hashes in one directory. Which words have them was found elsewhere.
use crate::store::{ROOT, Store, after_change, empty_volume, entry};
use directories::{LeftSlot, left_slot, read_head};
use name_index::name_hash;
use object_store::ObjectChange;
use paged_objects::{find, plan};
use pages::{Pages, are_sized};
use posix_profile::Kind;
use std::alloc::Global;
use std::process::Abort;

/// Two names with one hash.
type Pair = (&'static [u8], &'static [u8]);

/// Pairs of such names.
fn pairs() -> [Pair; 4] {
    [
        (b"costarring", b"liquid"),
        (b"declinate", b"macallums"),
        (b"altarage", b"zinke"),
        (b"altarages", b"zinkes"),
    ]
}

/// The volume after a name of the root leads to a new file.
fn with_file(rt: &impl Abort, alloc: Global, store: Store, name: &[u8], number: u64) -> Store {
    let file = ObjectChange::Create {
        entry: entry(ROOT, name),
        kind: Kind::File,
        moment: number,
    };
    after_change(rt, alloc, store, file, number)
}

/// A volume in which the names of a pair lead to the files 2 and 3.
fn with_pair(rt: &impl Abort, alloc: Global, (first, second): Pair) -> Store {
    let store = with_file(rt, alloc, empty_volume(rt, alloc), first, 2);
    with_file(rt, alloc, store, second, 3)
}

/// What the names of a pair lead to.
fn found(rt: &impl Abort, store: &mut Store, (first, second): Pair) -> [Option<u64>; 2] {
    let head = read_head(&mut store.pages, ROOT).expect(rt, "a header");
    let count = u64::from(head.length);
    [
        find(&store.names, &mut store.pages, ROOT, count, first).expect(rt, "a search"),
        find(&store.names, &mut store.pages, ROOT, count, second).expect(rt, "a search"),
    ]
}

/// Each leads to its own file; one goes, the other stays and gets the first one's name.
#[test]
fn names_with_equal_hashes_lead_to_their_own_files(rt: HostRuntime) {
    let alloc = rt.alloc();
    for pair in pairs() {
        let (first, second) = pair;
        assert_eq!(rt; name_hash(first), name_hash(second));
        let mut store = with_pair(&rt, alloc, pair);
        assert_eq!(rt; found(&rt, &mut store, pair), [Some(2), Some(3)]);
        let removed = ObjectChange::Remove {
            entry: entry(ROOT, first),
            removed: 2,
            dropped: Some(2),
            moment: 4,
        };
        let mut store = after_change(&rt, alloc, store, removed, 4);
        assert_eq!(rt; found(&rt, &mut store, pair), [None, Some(3)]);
        let moved = ObjectChange::Move {
            from: entry(ROOT, second),
            to: entry(ROOT, first),
            number: 3,
            replaced: None,
            dropped: None,
            moment: 5,
        };
        let mut store = after_change(&rt, alloc, store, moved, 4);
        assert_eq!(rt; found(&rt, &mut store, pair), [Some(3), None]);
    }
}

/// The first name of each pair is given to the second one's file, while both are there.
#[test]
fn a_name_gives_way_to_one_with_its_hash(rt: HostRuntime) {
    let alloc = rt.alloc();
    for pair in pairs() {
        let (first, second) = pair;
        let moved = ObjectChange::Move {
            from: entry(ROOT, second),
            to: entry(ROOT, first),
            number: 3,
            replaced: Some(2),
            dropped: Some(2),
            moment: 4,
        };
        let mut store = after_change(&rt, alloc, with_pair(&rt, alloc, pair), moved, 4);
        assert_eq!(rt; found(&rt, &mut store, pair), [Some(3), None]);
    }
}

/// The slot that a name of the root leaves by a change of objects.
fn left_by(
    rt: &impl Abort,
    alloc: Global,
    store: &mut Store,
    change: &ObjectChange<'_>,
    new: u64,
    name: &[u8],
) -> Option<LeftSlot> {
    let change = plan(&store.names, &mut store.pages, alloc, change, new).expect(rt, "a change");
    let page_bytes = store.pages.page_bytes();
    if !are_sized(&change.pages, page_bytes) {
        panic!(rt; "a page of another size");
    }
    left_slot(&store.names, page_bytes, &change, ROOT, name)
}

/// The slot that a name leaves is returned where a name with another hash is in it then.
#[test]
fn the_slot_of_a_name_that_goes_is_reported(rt: HostRuntime) {
    let alloc = rt.alloc();
    let removed = ObjectChange::Remove {
        entry: entry(ROOT, b"costarring"),
        removed: 2,
        dropped: Some(2),
        moment: 5,
    };
    let mut store = with_pair(&rt, alloc, (b"costarring", b"liquid"));
    assert_eq!(rt;
        left_by(&rt, alloc, &mut store, &removed, 4, b"costarring"),
        None
    );
    let mut store = with_file(&rt, alloc, store, b"last", 4);
    let left = LeftSlot {
        slot: 0,
        hash: name_hash(b"last"),
    };
    assert_eq!(rt;
        left_by(&rt, alloc, &mut store, &removed, 5, b"costarring"),
        Some(left)
    );
}
