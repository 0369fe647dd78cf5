// Calls that are refused a page, or memory, and made again.
ghost use Rattle.std.specs.Prelude.{◌≡◌};
ghost use Rattle.page_tags.specs.SlotEntry.{entry_of};
ghost use Rattle.flash_tree.specs.Slots.{IsTreeSlot};

use crate::store::{AWAY, HOME, Store, slot_of, taken, two_directories};
use directories::{
    Route, add, entries, find, names, read_head, remove, rename_between, rename_within,
};
use file_io::{create, read_at, read_info, set_length, write_at};
use page_tags::Slot;
use pages::{Change, Lack, PageFault, Refusal};
use std::alloc::Global;
use std::process::Abort;

const FILE: u64 = 5;

/// A call over the pages of a store.
#[derive(Clone, Copy, Debug)]
enum Call {
    Head,
    Find,
    Names,
    Entries,
    Add,
    Remove,
    RenameWithin,
    RenameBetween,
    Info,
    Read,
    Write,
    SetLength,
}

/// Each call, how many pages it looks up, and how much it returns: names, bytes, or the pages of its change.
const CALLS: [(Call, u64, usize); 12] = [
    (Call::Head, 1, 3),
    (Call::Find, 1, 1),
    (Call::Names, 4, 3),
    (Call::Entries, 4, 3),
    (Call::Add, 1, 2),
    (Call::Remove, 4, 2),
    (Call::RenameWithin, 5, 3),
    (Call::RenameBetween, 5, 4),
    (Call::Info, 1, 700),
    (Call::Read, 2, 401),
    (Call::Write, 3, 3),
    (Call::SetLength, 2, 2),
];

/// How many pages a change has.
fn count_of(change: Option<Change>) -> usize {
    match change {
        Some(change) => change.pages.len(),
        None => 0,
    }
}

/// What a call over a directory returns, as a number.
fn ask_directory(
    alloc: Global,
    store: &mut Store,
    call: Call,
    slot: &Slot,
) -> Result<usize, PageFault>
    requires { IsTreeSlot (entry_of slot.now) }
{
    let route = Route {
        source: HOME,
        target: AWAY,
    };
    Ok(match call {
        Call::Head => read_head(&mut store.pages, HOME)?.length as usize,
        Call::Find => usize::from(find(&store.names, &mut store.pages, HOME, 3, b"c")?.is_some()),
        Call::Names => names(alloc, &mut store.pages, HOME)?.as_slice().len(),
        Call::Entries => entries(alloc, &mut store.pages, HOME)?.len(),
        Call::Add => count_of(Some(add(alloc, &mut store.pages, HOME, slot, 9)?)),
        Call::Remove => count_of(remove(alloc, &store.names, &mut store.pages, HOME, b"a", 9)?),
        Call::RenameWithin => count_of(rename_within(
            alloc,
            &store.names,
            &mut store.pages,
            HOME,
            b"a",
            slot,
            9,
        )?),
        _ => count_of(rename_between(alloc, &store.names, &mut store.pages, route, b"a", slot, 9)?),
    })
}

/// What a call returns, as a number.
fn ask(alloc: Global, store: &mut Store, call: Call, slot: &Slot) -> Result<usize, PageFault>
    requires { IsTreeSlot (entry_of slot.now) }
{
    Ok(match call {
        Call::Info => read_info(&mut store.pages, FILE)?.length as usize,
        Call::Read => read_at(&mut store.pages, FILE, 700, 299, &mut [0; 700])?,
        Call::Write => count_of(Some(write_at(alloc, &mut store.pages, FILE, 300, &[2; 300], 9)?)),
        Call::SetLength => count_of(Some(set_length(alloc, &mut store.pages, FILE, 900, 9)?)),
        _ => ask_directory(alloc, store, call, slot)?,
    })
}

/// A store with three names in the first directory, and a file of 700 bytes in two chunks.
fn three_names(rt: &impl Abort, alloc: Global) -> Store {
    let mut store = two_directories(rt, alloc, 512);
    for (name, object) in [(b"a", 2), (b"b", 3), (b"c", 4)] {
        let slot = slot_of(rt, name, object);
        let change = add(alloc, &mut store.pages, HOME, &slot, 1).expect(rt, "a change");
        store = taken(rt, alloc, store, change);
    }
    let header = create(alloc, &mut store.pages, FILE, 1).expect(rt, "memory");
    let change = Change {
        pages: vec![in alloc; header].expect(rt, "memory"),
        cuts: Vec::new(alloc),
    };
    store = taken(rt, alloc, store, change);
    let change = write_at(alloc, &mut store.pages, FILE, 0, &[1; 700], 1).expect(rt, "a write");
    taken(rt, alloc, store, change)
}

/// Refuses each page of a call in turn: the call says what lacked, and made again it returns what it should.
fn refuse_each(
    rt: &impl Abort,
    alloc: Global,
    store: &mut Store,
    call: Call,
    lookups: u64,
    returned: usize,
) {
    let slot = slot_of(rt, b"new", 6);
    for number in 1..=lookups {
        for (lack, fault) in [
            (Lack::Memory, PageFault::NoMemory),
            (Lack::Device, PageFault::Device),
        ] {
            let number = store.pages.lookups().saturating_add(number);
            store.pages.refuse(Refusal { number, lack });
            assert_eq!(rt;
                ask(alloc, store, call, &slot).err(),
                Some(fault),
                "{call:?}"
            );
            let answer = ask(alloc, store, call, &slot).expect(rt, "an answer");
            assert_eq!(rt; answer, returned, "{call:?}");
        }
    }
    let before = store.pages.lookups();
    let answer = ask(alloc, store, call, &slot).expect(rt, "an answer");
    assert_eq!(rt; answer, returned, "{call:?}");
    assert_eq!(rt;
        store.pages.lookups().saturating_sub(before),
        lookups,
        "{call:?}"
    );
}

#[test]
fn a_refused_page_changes_nothing(rt: HostRuntime) {
    let alloc = rt.alloc();
    let mut store = three_names(&rt, alloc);
    for (call, lookups, returned) in CALLS {
        refuse_each(&rt, alloc, &mut store, call, lookups, returned);
    }
}

/// What a call returns, which is made once more where memory was refused.
fn ask_again(alloc: Global, store: &mut Store, call: Call, slot: &Slot) -> Result<usize, PageFault>
    requires { IsTreeSlot (entry_of slot.now) }
{
    match ask(alloc, store, call, slot) {
        Err(PageFault::NoMemory) => ask(alloc, store, call, slot),
        returned => returned,
    }
}

// Run it with each allocation of the calls refused in turn.
#[test]
fn a_refused_growth_changes_nothing(rt: HostRuntime) {
    let alloc = rt.alloc();
    let mut store = three_names(&rt, alloc);
    let slot = slot_of(&rt, b"new", 6);
    for (call, _, returned) in CALLS {
        let answer = ask_again(alloc, &mut store, call, &slot).expect(&rt, "an answer");
        assert_eq!(rt; answer, returned, "{call:?}");
    }
}
