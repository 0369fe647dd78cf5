// Unmounts that write no checkpoint, beside those that just write one.

use crate::devices::formatted;
use crate::lines::{
    abandon, answers, expect_counts, lost_session, mount, mounted, session, unmount,
};
use crate::search::{checkpoint_of, put};
use flash_tree::Key;
use nand_model::{MemNand, Nand};
use page_tags::Tag;
use std::alloc::Global;
use std::process::Abort;
use test_devices::newest;

/// Lines that make a file of so many pages.
fn filling(rt: &impl Abort, alloc: Global, pages: usize) -> String {
    let mut lines = String::new(alloc);
    lines.push_str("open /f wc\n").expect(rt, "memory");
    for part in 0..pages.div_ceil(5) {
        let left = pages.saturating_sub(part.saturating_mul(5));
        let bytes = "x"
            .repeat(alloc, left.min(5).saturating_mul(512))
            .expect(rt, "memory");
        lines.push_str("write 0 ").expect(rt, "memory");
        lines.push_str(&bytes).expect(rt, "memory");
        lines.push_str("\n").expect(rt, "memory");
    }
    lines.push_str("sync\n").expect(rt, "memory");
    lines
}

/// A device of so many blocks with a file of so many pages, as if power were lost after a sync.
fn filled(rt: &impl Abort, alloc: Global, blocks: u32, pages: usize) -> MemNand {
    let mut volume = mount(rt, alloc, formatted(rt, alloc, blocks, 1));
    let answers = answers(rt, alloc, &mut volume, &filling(rt, alloc, pages));
    if !answers.ends_with(b"\nok\n") {
        panic!(rt; "the file was not written");
    }
    abandon(volume)
}

/// The changes of an unmount right after a mount, with the device.
fn unmounted(rt: &impl Abort, alloc: Global, nand: MemNand) -> (u64, MemNand) {
    let (nand, is_done) = unmount(mount(rt, alloc, nand));
    assert!(rt; is_done);
    (nand.changes(), nand)
}

/// That an unmount of a device writes a checkpoint of 32 pages, by which a mount goes.
fn expect_whole_block(rt: &impl Abort, alloc: Global, nand: MemNand) {
    let (changes, nand) = unmounted(rt, alloc, nand);
    assert_eq!(rt; changes, 1 + 32);
    expect_counts(rt, &mounted(rt, alloc, nand), 28 + 32 + 3, 0);
}

/// That an unmount of a device writes no checkpoint.
fn expect_none(rt: &impl Abort, alloc: Global, nand: MemNand) -> MemNand {
    let (changes, mut nand) = unmounted(rt, alloc, nand);
    assert_eq!(rt; (changes, checkpoint_of(rt, &mut nand)), (0, None));
    nand
}

/// A file of 508 pages has with its header, its slot and that of the root 511 keys: with the head 512 parts of 32 bytes, which are
/// 32 pages of 512 bytes. A page more does not fit into a block of 32 pages.
#[test]
fn a_checkpoint_fits_into_a_block(rt: HostRuntime) {
    let alloc = rt.alloc();
    expect_whole_block(&rt, alloc, filled(&rt, alloc, 28, 508));
    let nand = expect_none(&rt, alloc, filled(&rt, alloc, 28, 509));
    let _ = lost_session(&rt, alloc, nand, "stat /f", "info file 2 1 260608 0\n");
}

/// Which of eight blocks hold a newest page of the root, its slot, and a file of so many pages.
fn used(rt: &impl Abort, nand: &mut MemNand, pages: u64) -> [bool; 8] {
    let mut blocks = [false; 8];
    for number in 0..pages.saturating_add(3) {
        let (object, chunk) = match number {
            0 | 1 => (1, number),
            _ => (2, number - 2),
        };
        let found = newest(nand, Key { object, chunk })
            .expect(rt, "a search")
            .expect(rt, "no page");
        if let Some(block) = blocks.get_mut(found.block as usize) {
            *block = true;
        }
    }
    blocks
}

/// The number of blocks that are free, and the last of them.
fn free(blocks: &[bool; 8]) -> (u32, u32) {
    let mut free = (0u32, 0);
    for block in 0..8u32 {
        if blocks.get(block as usize) == Some(&false) {
            free = (free.0.saturating_add(1), block);
        }
    }
    free
}

/// A volume of a file of so many pages, after one of them was written once more.
fn rewritten(rt: &impl Abort, alloc: Global, pages: usize) -> MemNand {
    let nand = filled(rt, alloc, 8, pages);
    let lines = "open /f rw\nwrite 0 y\nsync";
    lost_session(rt, alloc, nand, lines, "fd 0\nwrote 1\nok\n")
}

/// That an unmount of it makes so many changes, and loses nothing.
fn expect_changes(rt: &impl Abort, alloc: Global, nand: MemNand, wanted: u64, stat: &str) {
    let (changes, nand) = unmounted(rt, alloc, nand);
    assert_eq!(rt; changes, wanted);
    let _ = lost_session(rt, alloc, nand, "stat /f", stat);
}

/// A copy of the device with a bad block.
fn with_bad(rt: &impl Abort, nand: &MemNand, block: u32) -> MemNand {
    let mut nand = nand.copy().expect(rt, "memory");
    if block >= nand.geometry().blocks() {
        panic!(rt; "no such block");
    }
    nand.put_mark(block);
    nand
}

/// The same where one of the free blocks is bad, too: there are more than two of them, or no changes.
fn expect_changes_twice(
    rt: &impl Abort,
    alloc: Global,
    mut nand: MemNand,
    pages: u64,
    wanted: u64,
    stat: &str,
) {
    let (count, block) = free(&used(rt, &mut nand, pages));
    assert_eq!(rt; count > 2, wanted > 0, "{count}");
    expect_changes(rt, alloc, with_bad(rt, &nand, block), wanted, stat);
    expect_changes(rt, alloc, nand, wanted, stat)
}

/// A file of 100 pages leaves more than two blocks free, and has 103 keys: the checkpoint takes seven pages, and an erase. Of
/// one of 141 pages two blocks are left, and no checkpoint is written. A bad block is one less that has to be free.
#[test]
fn a_checkpoint_leaves_two_blocks_free(rt: HostRuntime) {
    let alloc = rt.alloc();
    let nand = rewritten(&rt, alloc, 100);
    expect_changes_twice(&rt, alloc, nand, 100, 8, "info file 2 1 51200 0\n");
    let nand = rewritten(&rt, alloc, 141);
    expect_changes_twice(&rt, alloc, nand, 141, 0, "info file 2 1 72192 0\n")
}

/// Marks the last two blocks of eight.
fn worn(rt: &impl Abort, mut nand: MemNand) -> MemNand {
    if nand.geometry().blocks() != 8 {
        panic!(rt; "other blocks");
    }
    nand.put_mark(6);
    nand.put_mark(7);
    nand
}

/// That a volume makes so many calls in a mount and none in an unmount, and can only be read.
fn expect_read_only(rt: &impl Abort, alloc: Global, nand: MemNand, calls: u64) {
    let (_changes, nand) = unmounted(rt, alloc, nand);
    expect_counts(rt, &nand, calls, 0);
    let replies = "error EROFS\nnames 1 a\n";
    let nand = session(rt, alloc, nand, "mkdir /b\nlist /", replies);
    assert_eq!(rt; nand.changes(), 0);
}

/// A volume with more bad blocks than there are to spare is only read, with a checkpoint and without: then two tags of the block of the
/// format are read, up to its first erased page, all of the block that was written last, and those of one that begins erased.
#[test]
fn a_read_only_volume_writes_no_checkpoint(rt: HostRuntime) {
    let alloc = rt.alloc();
    let nand = formatted(&rt, alloc, 8, 1);
    let lost = lost_session(&rt, alloc, nand, "mkdir /a\nsync", "ok\nok\n");
    let ended = session(
        &rt,
        alloc,
        lost.copy().expect(&rt, "memory"),
        "list /",
        "names 1 a\n",
    );
    assert_eq!(rt; ended.changes(), 2);
    expect_read_only(&rt, alloc, worn(&rt, ended), 10);
    expect_read_only(&rt, alloc, worn(&rt, lost), 6 + 2 + 2 * 32 + 3)
}

/// The root of a volume without names, whose only page has this number.
fn rooted(rt: &impl Abort, alloc: Global, number: u64) -> MemNand {
    let mut nand = formatted(rt, alloc, 8, 1);
    let mut header = [0; 512];
    header[..7].copy_from_slice(b"NLFS\x02\x02\x01");
    let tag = Tag {
        index: 0,
        count: 1,
        object: 1,
        chunk: 0,
        version: number,
        group: number,
        seq: number,
    };
    put(rt, &mut nand, 0, 0, &header, &tag.encode());
    nand
}

/// A session on a volume of such a number makes so many changes, and a mount after it so many calls.
fn expect_at(rt: &impl Abort, alloc: Global, number: u64, changes: u64, calls: u64) {
    let nand = session(rt, alloc, rooted(rt, alloc, number), "mkdir /a", "ok\n");
    assert_eq!(rt; nand.changes(), changes);
    let nand = mounted(rt, alloc, nand);
    expect_counts(rt, &nand, calls, 0);
    let _ = lost_session(rt, alloc, nand, "list /", "names 1 a\n");
}

/// The last number is 2^62 - 1: it is left for a checkpoint, or not. Without one two tags of the block of the root are read, up to its
/// first erased page, and all of two blocks more.
#[test]
fn a_checkpoint_needs_a_number(rt: HostRuntime) {
    let alloc = rt.alloc();
    expect_at(&rt, alloc, (1 << 62) - 3, 6, 12);
    expect_at(&rt, alloc, (1 << 62) - 2, 4, 8 + 2 + 2 * 32 + 3)
}
