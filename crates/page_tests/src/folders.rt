// Directories beside maps from names.
use crate::store::{AWAY, HOME, Store, slot_of, taken, taken_from, two_directories};
use directories::{
    Route, add, entries, find, names, read_head, remove, rename_between, rename_within,
};
use rand_core::utils::NextWord;
use rand_pcg::Pcg32;
use std::alloc::Global;
use std::collections::BTreeMap;
use std::process::Abort;

/// The names that a directory should have, and the objects that they should lead to.
type Names = BTreeMap<Vec<u8>, u64>;

/// The object that a name of a directory of so many names leads to.
fn found_at(
    rt: &impl Abort,
    store: &mut Store,
    directory: u64,
    count: u64,
    name: &[u8],
) -> Option<u64> {
    find(&store.names, &mut store.pages, directory, count, name).expect(rt, "a search")
}

/// Whether the directory has these names and no others, and lists them in the order of their bytes. Some of them are
/// looked for one by one.
fn has_names(
    rt: &impl Abort,
    alloc: Global,
    store: &mut Store,
    directory: u64,
    wanted: &Names,
) -> bool {
    let listed = names(alloc, &mut store.pages, directory).expect(rt, "names");
    let found = entries(alloc, &mut store.pages, directory).expect(rt, "entries");
    let head = read_head(&mut store.pages, directory).expect(rt, "a header");
    let length = head.length as usize;
    if [listed.as_slice().len(), found.len(), length] != [wanted.len(); 3] {
        return false;
    }
    for (name, (key, object)) in listed.as_slice().iter().zip(wanted.iter()) {
        let led = found.get(key.as_slice());
        if name.as_slice() != key.as_slice() || led != Some(*object) {
            return false;
        }
        if *object % 16 == 0
            && found_at(rt, store, directory, length as u64, key.as_slice()) != led
        {
            return false;
        }
    }
    found_at(rt, store, directory, length as u64, b"nowhere").is_none()
}

/// Lets a name lead to an object; what it led to before.
fn lead(
    rt: &impl Abort,
    alloc: Global,
    names: &mut Names,
    name: &[u8],
    object: u64,
) -> Option<u64> {
    let key = name.to_vec(alloc).expect(rt, "memory");
    let before: Result<_, _> = names.insert(key, object);
    before.expect(rt, "memory")
}

/// The store after a name leads to an object, whether it is there or not.
fn put(
    rt: &impl Abort,
    alloc: Global,
    mut store: Store,
    directory: u64,
    wanted: &mut Names,
    name: &[u8],
    object: u64,
) -> Store {
    let slot = slot_of(rt, name, object);
    match lead(rt, alloc, wanted, name, object) {
        None => {
            let change = add(alloc, &mut store.pages, directory, &slot, object);
            taken(rt, alloc, store, change.expect(rt, "a change"))
        }
        Some(_) => {
            let Store { names, pages } = &mut store;
            let change = rename_within(alloc, names, pages, directory, name, &slot, object)
                .expect(rt, "a change")
                .expect(rt, "it has no name");
            taken_from(rt, alloc, store, change, directory, name)
        }
    }
}

/// The store after a name is removed where it is there.
fn take_away(
    rt: &impl Abort,
    alloc: Global,
    mut store: Store,
    directory: u64,
    wanted: &mut Names,
    name: &[u8],
) -> Store {
    let change = remove(alloc, &store.names, &mut store.pages, directory, name, 7);
    match (change.expect(rt, "a change"), wanted.remove(name)) {
        (Some(change), Some(_)) => taken_from(rt, alloc, store, change, directory, name),
        (None, None) => store,
        _ => panic!(rt; "a name is there and is not"),
    }
}

/// The store after a name gives way to another of the same directory where it is there.
fn rename(
    rt: &impl Abort,
    alloc: Global,
    mut store: Store,
    directory: u64,
    wanted: &mut Names,
    from: &[u8],
    to: &[u8],
    object: u64,
) -> Store {
    let change = rename_within(
        alloc,
        &store.names,
        &mut store.pages,
        directory,
        from,
        &slot_of(rt, to, object),
        8,
    )
    .expect(rt, "a change");
    match (change, wanted.remove(from)) {
        (Some(change), Some(_)) => {
            lead(rt, alloc, wanted, to, object);
            taken_from(rt, alloc, store, change, directory, from)
        }
        (None, None) => store,
        _ => panic!(rt; "a name is there and is not"),
    }
}

/// The store after a name of one directory gives way to one of another where it is there.
fn carry(
    rt: &impl Abort,
    alloc: Global,
    mut store: Store,
    wanted: &mut Names,
    others: &mut Names,
    from: &[u8],
    to: &[u8],
    object: u64,
) -> Store {
    let route = Route {
        source: HOME,
        target: AWAY,
    };
    let change = rename_between(
        alloc,
        &store.names,
        &mut store.pages,
        route,
        from,
        &slot_of(rt, to, object),
        9,
    )
    .expect(rt, "a change");
    match (change, wanted.remove(from)) {
        (Some(change), Some(_)) => {
            lead(rt, alloc, others, to, object);
            taken_from(rt, alloc, store, change, HOME, from)
        }
        (None, None) => store,
        _ => panic!(rt; "a name is there and is not"),
    }
}

/// The name of a number.
fn name_of(rt: &impl Abort, alloc: Global, number: u32) -> Vec<u8> {
    let text = format!(in alloc; "n{number}").expect(rt, "memory");
    text.as_bytes().to_vec(alloc).expect(rt, "memory")
}

/// The numbers below one, in a random order.
fn shuffled(rt: &impl Abort, alloc: Global, random: &mut Pcg32, count: u32) -> Vec<u32> {
    let mut keyed = Vec::new(alloc);
    for number in 0..count {
        keyed
            .push((random.next_word(), number))
            .expect(rt, "memory");
    }
    keyed.sort().expect(rt, "memory");
    let mut numbers = Vec::new(alloc);
    for (_, number) in keyed {
        numbers.push(number).expect(rt, "memory");
    }
    numbers
}

/// Adds so many names in a random order, and removes them in another.
fn fill_and_empty(
    rt: &impl Abort,
    alloc: Global,
    random: &mut Pcg32,
    page_bytes: u32,
    count: u32,
) -> bool {
    let mut store = two_directories(rt, alloc, page_bytes);
    let mut wanted = BTreeMap::new(alloc);
    for number in shuffled(rt, alloc, random, count) {
        let name = name_of(rt, alloc, number);
        store = put(
            rt,
            alloc,
            store,
            HOME,
            &mut wanted,
            &name,
            2 + u64::from(number),
        );
    }
    if !has_names(rt, alloc, &mut store, HOME, &wanted) {
        return false;
    }
    for number in shuffled(rt, alloc, random, count) {
        let name = name_of(rt, alloc, number);
        store = take_away(rt, alloc, store, HOME, &mut wanted, &name);
        if number % 128 == 0 && !has_names(rt, alloc, &mut store, HOME, &wanted) {
            return false;
        }
    }
    wanted.is_empty()
        && has_names(rt, alloc, &mut store, HOME, &wanted)
        && has_names(rt, alloc, &mut store, AWAY, &wanted)
}

#[test]
fn names_are_added_and_removed_in_any_order(rt: HostRuntime) {
    let alloc = rt.alloc();
    let mut random = Pcg32::new(1, 2);
    for (page_bytes, count) in [
        (512, 0),
        (512, 1),
        (512, 2),
        (1024, 3),
        (1024, 4),
        (2048, 7),
        (2048, 8),
        (4096, 15),
        (4096, 16),
    ] {
        assert!(rt; fill_and_empty(&rt, alloc, &mut random, page_bytes, count));
    }
}

#[test]
fn a_thousand_names_are_added_and_removed(rt: HostRuntime) {
    let alloc = rt.alloc();
    let mut random = Pcg32::new(5, 6);
    assert!(rt; fill_and_empty(&rt, alloc, &mut random, 4096, 1000));
}

/// Changes of two directories at random, with few names, so that many are there already.
fn change_at_random(rt: &impl Abort, alloc: Global, random: &mut Pcg32, page_bytes: u32) -> bool {
    let mut store = two_directories(rt, alloc, page_bytes);
    let mut wanted = BTreeMap::new(alloc);
    let mut others = BTreeMap::new(alloc);
    for object in 2..120u64 {
        let name = name_of(rt, alloc, random.next_word() % 20);
        let to = name_of(rt, alloc, random.next_word() % 20);
        store = match random.next_word() % 6 {
            0 => take_away(rt, alloc, store, HOME, &mut wanted, &name),
            1 => rename(rt, alloc, store, HOME, &mut wanted, &name, &to, object),
            2 => carry(
                rt,
                alloc,
                store,
                &mut wanted,
                &mut others,
                &name,
                &to,
                object,
            ),
            _ => put(rt, alloc, store, HOME, &mut wanted, &name, object),
        };
        if !has_names(rt, alloc, &mut store, HOME, &wanted)
            || !has_names(rt, alloc, &mut store, AWAY, &others)
        {
            return false;
        }
    }
    !wanted.is_empty() && !others.is_empty()
}

#[test]
fn directories_are_as_maps(rt: HostRuntime) {
    let alloc = rt.alloc();
    let mut random = Pcg32::new(3, 4);
    for page_bytes in [512, 1024, 2048, 4096] {
        assert!(rt; change_at_random(&rt, alloc, &mut random, page_bytes));
    }
}
