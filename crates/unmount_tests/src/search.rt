// The checkpoint of a flash, as a plain search finds it, and its entries beside the newest pages of a plain search.

use flash_tree::{CHECK_OBJECT, Found, Key};
use nand_model::{MemNand, Nand, PageKind};
use page_tags::decode_check_entry;
use std::alloc::Global;
use std::process::Abort;
use test_devices::newest;

/// The place of the first page of the newest checkpoint whose group is whole.
pub(crate) fn checkpoint_of(rt: &impl Abort, nand: &mut MemNand) -> Option<Found> {
    let key = Key {
        object: CHECK_OBJECT,
        chunk: 1,
    };
    newest(nand, key).expect(rt, "a search")
}

/// Adds the bytes of a page of 512 bytes, and gives its tag.
pub(crate) fn read(
    rt: &impl Abort,
    nand: &mut MemNand,
    block: u32,
    page: u32,
    bytes: &mut Vec<u8>,
) -> [u8; 48] {
    let geometry = nand.geometry();
    if block >= geometry.blocks() || page >= geometry.pages() || geometry.bytes() != 512 {
        panic!(rt; "no such page");
    }
    let mut data = [0; 512];
    let mut tag = [0; 48];
    if nand
        .read_page(block, page, &mut data, &mut tag)
        .expect(rt, "a page")
        != PageKind::Written
    {
        panic!(rt; "nothing is written");
    }
    bytes.extend_from_slice(&data).expect(rt, "memory");
    tag
}

/// Puts a page of 512 bytes in place of another, or none where there are no bytes.
pub(crate) fn put(
    rt: &impl Abort,
    nand: &mut MemNand,
    block: u32,
    page: u32,
    bytes: &[u8],
    tag: &[u8; 48],
) {
    let geometry = nand.geometry();
    if block >= geometry.blocks() || page >= geometry.pages() || geometry.bytes() != 512 {
        panic!(rt; "no such page");
    }
    if bytes.len() == 512 {
        nand.put_page(block, page, PageKind::Written, bytes, tag);
    } else {
        nand.put_page(block, page, PageKind::Erased, &[0; 512], tag);
    }
}

/// The bytes of the checkpoint of a flash.
pub(crate) fn checkpoint_bytes(rt: &impl Abort, alloc: Global, nand: &mut MemNand) -> Vec<u8> {
    let found = checkpoint_of(rt, nand).expect(rt, "no checkpoint");
    let mut bytes = Vec::new(alloc);
    for page in 0..found.tag.count {
        let _tag = read(rt, nand, found.block, page, &mut bytes);
    }
    bytes
}

/// That an entry is of a key after the one before, and gives its newest page.
fn expect_newest(
    rt: &impl Abort,
    nand: &mut MemNand,
    part: &[u8],
    before: (u64, u64),
) -> (u64, u64) {
    if part.len() != 32 {
        panic!(rt; "no entry");
    }
    let entry = decode_check_entry(part);
    let key = Key {
        object: entry.object,
        chunk: entry.chunk,
    };
    let found = newest(nand, key)
        .expect(rt, "a search")
        .expect(rt, "no page of the key");
    assert_eq!(rt;
        (entry.block, entry.page, entry.version),
        (found.block, found.page, found.tag.version),
        "{key:?}"
    );
    assert!(rt; before < (entry.object, entry.chunk), "{key:?}");
    (entry.object, entry.chunk)
}

/// That the checkpoint of a flash has this form: a head, so many entries that rise, of newest pages, and zeros.
pub(crate) fn expect_entries(rt: &impl Abort, alloc: Global, nand: &mut MemNand, count: u64) {
    let bytes = checkpoint_bytes(rt, alloc, nand);
    let mut head = [0u8; 32];
    head[..5].copy_from_slice(b"NLFC\x01");
    head[8..16].copy_from_slice(&count.to_le_bytes());
    assert_eq!(rt; bytes.get(..32), Some(head.as_slice()));
    let mut last = (0, 0);
    for (number, part) in bytes.chunks(32).enumerate() {
        if number as u64 > count {
            assert_eq!(rt; part, [0u8; 32].as_slice(), "{number}");
        } else if number > 0 {
            last = expect_newest(rt, nand, part, last);
        }
    }
}
