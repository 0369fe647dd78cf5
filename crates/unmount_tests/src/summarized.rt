// Mounts without a checkpoint: by a block summary that is put together by hand, and by all tags.

use crate::devices::formatted;
use crate::lines::{abandon, answers, expect_counts, lost_session, mount_scanned, mounted};
use crate::search::{put, read};
use flash_tree::{CHECK_OBJECT, tag_at};
use nand_model::{MemNand, Nand};
use page_tags::Tag;
use std::alloc::Global;
use std::process::Abort;

/// The head of a summary of three pages of block 1, which was allocated with number 2: `NLFB`, version 1, and zeros.
const HEAD: [u8; 24] = [
    0x4e, 0x4c, 0x46, 0x42, 1, 0, 0, 0, 1, 0, 0, 0, 3, 0, 0, 0, 2, 0, 0, 0, 0, 0, 0, 0,
];

/// The tag of a page of block 1.
fn tag_of(rt: &impl Abort, nand: &mut MemNand, page: u32) -> Tag {
    let geometry = nand.geometry();
    if geometry.blocks() <= 1 || page >= geometry.pages() {
        panic!(rt; "no such page");
    }
    tag_at(nand, 1, page)
        .expect(rt, "a page")
        .expect(rt, "no tag")
}

/// The page of such a summary of the first three pages: the head, their entries, and zeros.
fn summary(rt: &impl Abort, nand: &mut MemNand) -> [u8; 512] {
    let mut bytes = [0; 512];
    bytes[..24].copy_from_slice(&HEAD);
    for page in 0..3u8 {
        let tag = tag_of(rt, nand, u32::from(page));
        let at = 32 * (page as usize + 1);
        bytes[at..at + 8].copy_from_slice(&tag.object.to_le_bytes());
        bytes[at + 8..at + 16].copy_from_slice(&tag.chunk.to_le_bytes());
        bytes[at + 16..at + 24].copy_from_slice(&tag.version.to_le_bytes());
        bytes[at + 24] = 1;
        bytes[at + 28] = page;
    }
    bytes
}

/// A device with a directory, whose header, name and root are the first three pages of block 1, and with a summary of these in block 2.
fn listed(rt: &impl Abort, alloc: Global) -> MemNand {
    let nand = formatted(rt, alloc, 8, 1);
    let mut nand = lost_session(rt, alloc, nand, "mkdir /a\nsync", "ok\nok\n");
    let tag = Tag {
        index: 0,
        count: 1,
        object: CHECK_OBJECT,
        chunk: 1 << 31,
        version: 3,
        group: 3,
        seq: 3,
    };
    let page = summary(rt, &mut nand);
    put(rt, &mut nand, 2, 0, &page, &tag.encode());
    nand
}

/// The device after a mount by all tags and no command.
fn scanned(rt: &impl Abort, alloc: Global, nand: &MemNand) -> MemNand {
    let nand = nand.copy().expect(rt, "memory");
    abandon(mount_scanned(rt, alloc, nand))
}

/// A mount reads a tag of each of eight blocks, the summary, the 32 tags of its block, which is the newest, and of the first that is
/// erased, of the root's block that of the root's header and of the erased page behind it, and three pages of the tree; none of the block
/// that is listed. By all tags it reads those of eight blocks.
#[test]
fn a_mount_reads_no_block_that_is_listed(rt: HostRuntime) {
    let alloc = rt.alloc();
    let nand = listed(&rt, alloc);
    expect_counts(&rt, &scanned(&rt, alloc, &nand), 8 + 8 * 32 + 3, 0);
    let nand = mounted(&rt, alloc, nand);
    expect_counts(&rt, &nand, 8 + 1 + 2 + 2 * 32 + 3, 0);
    let lines = "list /\nmkdir /b\nsync";
    let nand = lost_session(&rt, alloc, nand, lines, "names 1 a\nok\nok\n");
    let _ = lost_session(&rt, alloc, nand, "list /", "names 2 a b\n");
}

/// A hundred sessions, each of which adds a byte to a file and ends as if power were lost. The first writes four pages, the name and the
/// header of the file, its page and the root's header; each other two, of the file. Each allocates a block, of too few pages for a
/// summary. So the next mount reads a tag of each of 128 blocks, 32 of the newest and of the first that is erased, the written ones of
/// the others and the erased one behind them, and three pages of the tree.
#[test]
fn a_mount_after_a_hundred_power_losses_reads_what_was_written(rt: HostRuntime) {
    let alloc = rt.alloc();
    let nand = formatted(&rt, alloc, 128, 1);
    let first = "open /a rwc\nwrite 0 x\nfsync 0";
    let mut nand = lost_session(&rt, alloc, nand, first, "fd 0\nwrote 1\nok\n");
    for _ in 1..100 {
        let lines = "open /a rwa\nwrite 0 x\nfsync 0";
        nand = lost_session(&rt, alloc, nand, lines, "fd 0\nwrote 1\nok\n");
    }
    expect_counts(&rt, &scanned(&rt, alloc, &nand), 128 + 128 * 32 + 3, 0);
    let nand = mounted(&rt, alloc, nand);
    expect_counts(&rt, &nand, 128 + 2 * 32 + 2 + 5 + 98 * 3 + 3, 0);
    let _ = lost_session(&rt, alloc, nand, "list /", "names 1 a\n");
}

/// Makes the byte at a place another one.
fn alter(bytes: &mut [u8], at: usize) {
    if let Some(byte) = bytes.get_mut(at) {
        *byte = !*byte;
    }
}

/// A device whose summary, in page 0 of block 2, has another byte at a place: of the page, or behind it of the tag.
fn altered_at(rt: &impl Abort, alloc: Global, nand: &MemNand, at: usize) -> MemNand {
    let mut nand = nand.copy().expect(rt, "memory");
    let mut bytes = Vec::new(alloc);
    let mut tag = read(rt, &mut nand, 2, 0, &mut bytes);
    if at < 512 {
        alter(&mut bytes, at);
    } else {
        alter(&mut tag, at - 512);
    }
    put(rt, &mut nand, 2, 0, &bytes, &tag);
    nand
}

/// A mount by all tags shows the same, whichever byte of a summary or of its tag is another.
#[test]
fn a_mount_by_all_tags_takes_nothing_from_a_summary(rt: HostRuntime) {
    let alloc = rt.alloc();
    let nand = listed(&rt, alloc);
    for at in 0..512 + 48 {
        let altered = altered_at(&rt, alloc, &nand, at);
        let mut volume = mount_scanned(&rt, alloc, altered);
        let names = answers(&rt, alloc, &mut volume, "list /");
        assert_eq!(&rt;
            str::from_utf8(&names).expect(&rt, "a text"),
            "names 1 a\n",
            "{at}"
        );
    }
}
