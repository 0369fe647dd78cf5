// A small tree over pages in memory: changes of its objects, and what is read after them.
use crate::store::{ROOT, Store, after_change, empty_volume, entry};
use directories::read_head;
use flash_tree::Key;
use object_store::ObjectChange;
use paged_objects::{find, names, read_into};
use pages::{Pages, Presence};
use posix_profile::Kind;
use std::alloc::Global;
use std::process::Abort;

const DOCS: u64 = 2;

const FILE: u64 = 3;

/// A volume with a directory `docs`, and in it a file `a` of some bytes.
fn small_volume(rt: &impl Abort, alloc: Global) -> Store {
    let store = empty_volume(rt, alloc);
    let docs = ObjectChange::Create {
        entry: entry(ROOT, b"docs"),
        kind: Kind::Directory,
        moment: 1,
    };
    let store = after_change(rt, alloc, store, docs, DOCS);
    let file = ObjectChange::Create {
        entry: entry(DOCS, b"a"),
        kind: Kind::File,
        moment: 2,
    };
    let store = after_change(rt, alloc, store, file, FILE);
    let write = ObjectChange::Write {
        number: FILE,
        offset: 510,
        bytes: b"abcd",
        moment: 3,
    };
    after_change(rt, alloc, store, write, 4)
}

/// Names lead to their objects; a gap is read as zeros, and no byte past the end.
#[test]
fn a_file_is_found_and_read(rt: HostRuntime) {
    let alloc = rt.alloc();
    let Store {
        names: index,
        mut pages,
    } = small_volume(&rt, alloc);
    let docs = find(&index, &mut pages, ROOT, 1, b"docs").expect(&rt, "a search");
    assert_eq!(rt; docs, Some(DOCS));
    let file = find(&index, &mut pages, DOCS, 1, b"a").expect(&rt, "a search");
    assert_eq!(rt; file, Some(FILE));
    let absent = find(&index, &mut pages, DOCS, 1, b"b").expect(&rt, "a search");
    assert_eq!(rt; absent, None);
    let mut bytes = [b'x'; 9];
    let read = read_into(&mut pages, FILE, 514, 508, &mut bytes).expect(&rt, "a read");
    assert_eq!(rt; read, 6);
    assert_eq!(rt; bytes.as_slice(), b"\0\0abcdxxx".as_slice());
    let names = names(&mut pages, alloc, ROOT).expect(&rt, "names");
    assert_eq!(rt; names.as_slice().len(), 1);
}

/// A file gets another directory and another name, its first directory goes, and then the file with all its pages.
#[test]
fn an_object_that_is_forgotten_has_no_pages(rt: HostRuntime) {
    let alloc = rt.alloc();
    let store = small_volume(&rt, alloc);
    let moved = ObjectChange::Move {
        from: entry(DOCS, b"a"),
        to: entry(ROOT, b"b"),
        number: FILE,
        replaced: None,
        dropped: None,
        moment: 4,
    };
    let store = after_change(&rt, alloc, store, moved, 4);
    let named = ObjectChange::Name {
        entry: entry(ROOT, b"c"),
        number: FILE,
        moment: 5,
    };
    let store = after_change(&rt, alloc, store, named, 4);
    let removed = ObjectChange::Remove {
        entry: entry(ROOT, b"docs"),
        removed: DOCS,
        dropped: Some(DOCS),
        moment: 6,
    };
    let mut store = after_change(&rt, alloc, store, removed, 4);
    let file = find(&store.names, &mut store.pages, ROOT, 2, b"b").expect(&rt, "a search");
    assert_eq!(rt; file, Some(FILE));
    let docs = find(&store.names, &mut store.pages, ROOT, 2, b"docs").expect(&rt, "a search");
    assert_eq!(rt; docs, None);
    let header = Key {
        object: DOCS,
        chunk: 0,
    };
    let presence = store.pages.find(header).expect(&rt, "a search");
    assert_eq!(rt; presence, Presence::Absent);
    let mut store = after_change(&rt, alloc, store, ObjectChange::Forget { number: FILE }, 2);
    for chunk in 0..3 {
        let key = Key {
            object: FILE,
            chunk,
        };
        let presence = store.pages.find(key).expect(&rt, "a search");
        assert_eq!(rt; presence, Presence::Absent);
    }
    let head = read_head(&mut store.pages, ROOT).expect(&rt, "a header");
    assert_eq!(rt; head.spare, 3);
}
