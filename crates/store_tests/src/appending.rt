// Appends to a file, each of which is committed.

use flash_tree::{FreshPage, Key};
use nand_model::{Geometry, MemNand};
use page_store::Store;
use pages::{PageStore, Pages, Presence};
use std::alloc::Global;
use std::num::NonZeroUsize;
use std::process::Abort;
use test_devices::{Apart, fits, open_each};

/// The bytes of a page, and of an append.
const PAGE: usize = 2048;

const APPEND: usize = 100;

/// The chunk of the file's pages from this byte on. Chunk 0 is the header.
fn chunk_at(place: usize) -> usize {
    place / PAGE + 1
}

/// The page of a chunk of a file with these bytes: the header has the length, the last page zeros after its bytes.
fn page_of(rt: &impl Abort, alloc: Global, text: &[u8], chunk: usize) -> Vec<u8> {
    let mut page = vec![in alloc; 0u8; PAGE].expect(rt, "memory");
    if chunk == 0 {
        for (place, byte) in page.iter_mut().zip((text.len() as u64).to_le_bytes()) {
            *place = byte;
        }
        return page;
    }
    if let Some(bytes) = text.chunks(PAGE).nth(chunk - 1) {
        for (place, byte) in page.iter_mut().zip(bytes) {
            *place = *byte;
        }
    }
    page
}

fn key_of(chunk: usize) -> Key {
    Key {
        object: 2,
        chunk: chunk as u64,
    }
}

/// The present page of a chunk is that of a file with these bytes.
fn assert_page(
    rt: &impl Abort,
    alloc: Global,
    store: &mut Store<MemNand>,
    text: &[u8],
    chunk: usize,
) {
    assert_eq!(rt;
        store.find(key_of(chunk)),
        Ok(Presence::Present),
        "chunk {chunk}"
    );
    let page = page_of(rt, alloc, text, chunk);
    assert!(rt; store.page() == page.as_slice(), "chunk {chunk}");
}

/// Looks the header and the last page up, and appends bytes of this value.
fn append(
    rt: &impl Abort,
    alloc: Global,
    store: &mut Store<MemNand>,
    text: &mut Vec<u8>,
    byte: u8,
) {
    let length = text.len();
    if length > 0 {
        assert_page(rt, alloc, store, text, 0);
    }
    if length % PAGE > 0 {
        assert_page(rt, alloc, store, text, chunk_at(length));
    }
    text.extend_from_slice(&[byte; APPEND]).expect(rt, "memory");
    let mut apart = Apart::new(alloc, None).expect(rt, "memory");
    for chunk in [0, chunk_at(length), chunk_at(text.len().saturating_sub(1))] {
        let bytes = page_of(rt, alloc, text, chunk);
        let key = key_of(chunk);
        apart = apart
            .with(alloc, FreshPage { key, bytes })
            .expect(rt, "memory");
    }
    let Apart { change } = apart;
    assert!(rt; fits(store, &change));
    assert_eq!(rt; store.apply(change), Ok(()));
    assert_eq!(rt; store.commit(), Ok(()));
}

/// How many pages are read for so many appends to a file that was closed after one. Blocks enough are free, so none is
/// collected.
fn reads_for(rt: &impl Abort, alloc: Global, appends: u32) -> u64 {
    let four = NonZeroUsize::new(4).expect(rt, "four");
    let geometry = Geometry::new(PAGE as u32, 256, 20).expect(rt, "a geometry");
    let nand = MemNand::new(alloc, geometry).expect(rt, "memory");
    let mut text = Vec::new(alloc);
    let mut store = open_each(alloc, nand, 1, four).expect(rt, "a store");
    append(rt, alloc, &mut store, &mut text, 255);
    let mut nand = store.into_device();
    nand.power_up();
    let mut store = open_each(alloc, nand, 1, four).expect(rt, "a store");
    for number in 0..appends {
        append(rt, alloc, &mut store, &mut text, (number % 251) as u8);
    }
    let nand = store.into_device();
    // Each page of a good block is read at the opening, and the first one before.
    nand.calls()
        .saturating_sub(nand.changes())
        .saturating_sub((256 + 1) * 20)
}

#[test]
fn nothing_is_read_after_the_first_append(rt: HostRuntime) {
    let alloc = rt.alloc();
    assert_eq!(rt; reads_for(&rt, alloc, 1), 2, "the header and the last page");
    assert_eq!(rt; reads_for(&rt, alloc, 2_000), 2);
}
