//! A checkpoint of 20 entries, in two pages of 512 bytes.

use flash_tree::CHECK_OBJECT;
use nand_model::{Geometry, MemNand, Nand};
use page_tags::{CheckEntry, Tag};
use std::alloc::Global;
use std::process::Abort;

/// `NLFC`, version 1, 20 entries, and zeros.
const HEAD: [u8; 32] = [
    0x4e, 0x4c, 0x46, 0x43, 1, 0, 0, 0, 20, 0, 0, 0, 0, 0, 0, 0, 0, 0, 0, 0, 0, 0, 0, 0, 0, 0, 0,
    0, 0, 0, 0, 0,
];

/// Two pages with their tags.
#[derive(Clone, Copy)]
pub(crate) struct Laid {
    pub first: [u8; 512],
    pub second: [u8; 512],
    pub first_tag: Tag,
    pub second_tag: Tag,
}

/// Entry k: of chunk k of object 2 in version 7, which lies in page k of block 4.
pub(crate) fn entry(k: u32) -> CheckEntry {
    CheckEntry {
        object: 2,
        chunk: u64::from(k),
        version: 7,
        block: 4,
        page: k,
    }
}

/// The bytes of entry k.
fn entry_bytes(k: u8) -> [u8; 32] {
    let mut bytes = [0; 32];
    bytes[0] = 2;
    bytes[8] = k;
    bytes[16] = 7;
    bytes[24] = 4;
    bytes[28] = k;
    bytes
}

/// The pages of a checkpoint of group 9: the head and 15 entries, then 5 and zeros.
pub(crate) fn checkpoint(seq: u64) -> Laid {
    let mut first = [0; 512];
    first[..32].copy_from_slice(&HEAD);
    for k in 0..15u8 {
        let at = 32 * (k as usize + 1);
        first[at..at + 32].copy_from_slice(&entry_bytes(k));
    }
    let mut second = [0; 512];
    for k in 0..5u8 {
        let at = 32 * k as usize;
        second[at..at + 32].copy_from_slice(&entry_bytes(15 + k));
    }
    let first_tag = Tag {
        index: 0,
        count: 2,
        object: CHECK_OBJECT,
        chunk: 1,
        version: 9,
        group: 9,
        seq,
    };
    let second_tag = Tag {
        index: 1,
        chunk: 2,
        ..first_tag
    };
    Laid {
        first,
        second,
        first_tag,
        second_tag,
    }
}

/// An erased flash of 8 blocks of 32 pages of 512 bytes.
pub(crate) fn empty(rt: &impl Abort, alloc: Global) -> MemNand {
    let geometry = Geometry::new(512, 32, 8).expect(rt, "a geometry");
    MemNand::new(alloc, geometry).expect(rt, "memory")
}

/// Writes the pages to a block, both or the first alone.
pub(crate) fn write(rt: &impl Abort, nand: &mut MemNand, block: u32, laid: &Laid, both: bool) {
    let geometry = nand.geometry();
    assert!(rt; geometry.bytes() == 512 && block < geometry.blocks());
    nand.erase(block).expect(rt, "an erase");
    assert!(rt; !nand.is_bad(block));
    nand.program(block, 0, &laid.first, &laid.first_tag.encode())
        .expect(rt, "a program");
    if both {
        assert!(rt; !nand.is_bad(block));
        nand.program(block, 1, &laid.second, &laid.second_tag.encode())
            .expect(rt, "a program");
    }
}
