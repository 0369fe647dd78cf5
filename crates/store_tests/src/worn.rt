// The pages of a worn device in memory.

use flash_tree::Key;
use nand_model::{Geometry, MemNand};
use page_store::{FlashPages, NewestPages, ReadOnlyPages, open, the_opened_pages_are_the_newest};
use page_tags::Tag;
use pages::{Change, Cut, PageStore, Pages, Presence};
use std::alloc::Global;
use std::process::Abort;
use test_devices::TestFlash;
use volume_terms::StoreFault;

/// Numbers from here on are not handed out.
const LIMIT: u64 = 1 << 62;

/// A group of one page, after which there is no number left for another.
const LAST: Tag = Tag {
    index: 0,
    count: 1,
    object: 7,
    chunk: 3,
    version: 2,
    group: LIMIT,
    seq: 5,
};

/// The key of the page that is written.
const KEY: Key = Key {
    object: 7,
    chunk: 3,
};

/// A key that has no page.
const OTHER: Key = Key {
    object: 7,
    chunk: 4,
};

/// Five blocks of 32 pages of 512 bytes, with a page in block 2.
fn worn(rt: &impl Abort, alloc: Global) -> MemNand {
    let geometry = Geometry::new(512, 32, 5).expect(rt, "a geometry");
    let mut flash = TestFlash::new(alloc, geometry).expect(rt, "memory");
    match flash.write(2, &LAST, 9) {
        Ok(()) => flash.into_nand(),
        Err(_) => panic!(rt; "the page is not written"),
    }
}

/// The pages of a device with no number left, of whose blocks one is to spare.
fn read_only(rt: &impl Abort, alloc: Global, mut nand: MemNand) -> ReadOnlyPages<MemNand> {
    the_opened_pages_are_the_newest();
    let opened = open(alloc, &mut nand).expect(rt, "an opening");
    let numbers = opened.numbers;
    if numbers.group < LIMIT {
        panic!(rt; "numbers are left");
    }
    match NewestPages::new(alloc, nand, opened.index) {
        Ok(pages) => ReadOnlyPages::new(pages, numbers, 1, 8, None),
        Err((_nand, refused)) => panic!(rt; "{refused:?}"),
    }
}

/// The first byte of the page of a key.
fn fill<P: Pages>(pages: &mut P, key: Key) -> Result<Option<u8>, StoreFault> {
    match pages.find(key)? {
        Presence::Present => Ok(pages.page().first().copied()),
        Presence::Absent => Ok(None),
    }
}

/// What the store answers to a change that changes nothing.
fn change<P: PageStore>(alloc: Global, pages: &mut P) -> Result<(), StoreFault> {
    pages.apply(Change::none(alloc))
}

/// And to a commit.
fn commit<P: PageStore>(pages: &mut P) -> Result<(), StoreFault> {
    pages.commit()
}

// The page that was written is found, another is not, and the device is left as it is.
#[test]
fn pages_of_a_worn_device_are_read(rt: HostRuntime) {
    let alloc = rt.alloc();
    let pages = read_only(&rt, alloc, worn(&rt, alloc));
    let mut pages = FlashPages::ReadOnly(Box::new(alloc, pages).expect(&rt, "memory"));
    assert_eq!(rt; pages.page_bytes(), 512);
    assert_eq!(rt; fill(&mut pages, KEY), Ok(Some(9)));
    assert_eq!(rt; fill(&mut pages, OTHER), Ok(None));
    let nand = pages.into_device();
    assert_eq!(rt; nand.changes(), 2, "those of the making");
}

// A commit has nothing to do until a change or a cut was refused; what is committed is still read.
#[test]
fn a_change_of_a_worn_device_is_refused(rt: HostRuntime) {
    let alloc = rt.alloc();
    let mut pages = read_only(&rt, alloc, worn(&rt, alloc));
    assert_eq!(rt; pages.most_pages(), 8);
    assert_eq!(rt; commit(&mut pages), Ok(()));
    assert_eq!(rt; change(alloc, &mut pages), Err(StoreFault::Worn));
    assert_eq!(rt; commit(&mut pages), Err(StoreFault::Worn));
    assert_eq!(rt; fill(&mut pages, KEY), Ok(Some(9)));
    let mut again = read_only(&rt, alloc, pages.into_device());
    let cut = Cut { object: 7, from: 0 };
    assert_eq!(rt; again.cut(cut), Err(StoreFault::Worn));
    assert_eq!(rt; commit(&mut again), Err(StoreFault::Worn));
    assert_eq!(rt; again.into_device().changes(), 2);
}
