// Checkpoints that were altered, and flashes under them: a mount shows what a scan shows, changes nothing, and the volume goes on.

use crate::devices::formatted;
use crate::lines::{abandon, answered_by, mount, mount_as_it_is, session, step_all, try_mount};
use crate::search::{checkpoint_of, expect_entries, put, read};
use flash_tree::Key;
use nand_model::{MemNand, Nand};
use page_tags::Tag;
use plain_volume::PlainTree;
use posix_calls::MountFault;
use std::alloc::Global;
use std::process::Abort;
use test_devices::newest;
use volume_terms::VolumeSizes;

/// Another byte at a place of a page of the checkpoint, or of its tag.
#[derive(Clone, Copy)]
enum Patch {
    Byte(u32, usize, u8),
    TagByte(u32, usize, u8),
    /// So many bytes of the first page, at these two places, are exchanged.
    Exchanged(usize, usize, usize),
    /// Nothing is written in the page.
    Erased(u32),
}

use Patch::{Byte, Erased, Exchanged, TagByte};

/// Of a checkpoint of 17 entries in two pages: the headers of the root, of `/a`, of the file in it and of `/b` are entries 0, 3, 5
/// and 16; the slots of the root are 1 and 2, that of `/a` is 4; the ten chunks of the file are 6 to 15. Entry 15 is the first of
/// the second page.
const REFUSED: [&[Patch]; 27] = [
    // The tags: a count above the pages of a block, index 1, chunk 2, a version below the group, another object.
    &[TagByte(0, 4, 33), TagByte(1, 4, 33)],
    &[TagByte(0, 0, 1)],
    &[TagByte(0, 16, 2)],
    &[TagByte(0, 24, 1), TagByte(1, 24, 1)],
    &[TagByte(1, 24, 1)],
    &[TagByte(0, 8, 0xfe)],
    &[TagByte(1, 8, 0xfe)],
    // The group lacks a page.
    &[Erased(0)],
    &[Erased(1)],
    // The head: its first byte, its version, zeros, and the number of entries.
    &[Byte(0, 0, b'M')],
    &[Byte(0, 4, 2)],
    &[Byte(0, 5, 1)],
    &[Byte(0, 31, 1)],
    &[Byte(0, 8, 16)],
    &[Byte(0, 8, 18)],
    // A byte after the last entry.
    &[Byte(1, 64, 1)],
    &[Byte(1, 511, 1)],
    // Two entries are exchanged, and the places of two slots.
    &[Exchanged(32, 64, 32)],
    &[Exchanged(88, 120, 8)],
    // The entry of the root's header: a block and a page out of range, the checkpoint's own block, object 0, version 0, the version
    // of the header that the format wrote, and one above the group.
    &[Byte(0, 56, 8)],
    &[Byte(0, 60, 32)],
    &[Byte(0, 56, 3)],
    &[Byte(0, 32, 0)],
    &[Byte(0, 48, 0)],
    &[Byte(0, 48, 1)],
    &[Byte(0, 48, 0xff)],
    // The last chunk of the file is not listed, but one after it.
    &[Byte(1, 8, 11)],
];

/// Nothing, and an entry too many, of an object that nothing names: it is dropped.
const TAKEN: [&[Patch]; 2] = [&[], &[Byte(0, 8, 18), Byte(1, 64, 9), Byte(1, 80, 1)]];

/// A formatted device after a session that makes a directory with a file.
fn with_file(rt: &impl Abort, alloc: Global) -> MemNand {
    let bytes = "x".repeat(alloc, 2560).expect(rt, "memory");
    let lines = format!(in alloc; "mkdir /a\nopen /a/f wc\nwrite 0 {bytes}\nwrite 0 {bytes}");
    let lines = lines.expect(rt, "memory");
    let replies = "ok\nfd 0\nwrote 2560\nwrote 2560\n";
    session(rt, alloc, formatted(rt, alloc, 8, 1), &lines, replies)
}

/// A device with such a checkpoint in block 3. The format took block 0, the first session block 1, and block 2 for a
/// checkpoint, which the second session took for its pages.
fn device(rt: &impl Abort, alloc: Global) -> MemNand {
    let mut nand = session(rt, alloc, with_file(rt, alloc), "mkdir /b", "ok\n");
    expect_entries(rt, alloc, &mut nand, 17);
    let found = checkpoint_of(rt, &mut nand).expect(rt, "no checkpoint");
    assert_eq!(rt; (found.block, found.page, found.tag.count), (3, 0, 2));
    nand
}

fn set(bytes: &mut [u8], at: usize, byte: u8) {
    if let Some(to) = bytes.get_mut(at) {
        *to = byte;
    }
}

/// Exchanges so many bytes at two places.
fn exchange(rt: &impl Abort, bytes: &mut [u8], one: usize, other: usize, count: usize) {
    for number in 0..count {
        let (one, other) = (one.saturating_add(number), other.saturating_add(number));
        let first = bytes.get(one).copied().expect(rt, "no such byte");
        let second = bytes.get(other).copied().expect(rt, "no such byte");
        set(bytes, one, second);
        set(bytes, other, first);
    }
}

/// Alters the checkpoint in block 3.
fn alter(rt: &impl Abort, alloc: Global, nand: &mut MemNand, patch: Patch) {
    let page = match patch {
        Byte(page, _, _) => page,
        TagByte(page, _, _) => page,
        Exchanged(_, _, _) => 0,
        Erased(page) => page,
    };
    let mut bytes = Vec::new(alloc);
    let mut tag = read(rt, nand, 3, page, &mut bytes);
    match patch {
        Byte(_, at, byte) => set(&mut bytes, at, byte),
        TagByte(_, at, byte) => set(&mut tag, at, byte),
        Exchanged(one, other, count) => exchange(rt, &mut bytes, one, other, count),
        Erased(_) => bytes.clear(),
    }
    put(rt, nand, 3, page, &bytes, &tag)
}

/// How a mount goes, of a device with a checkpoint in block 3.
#[derive(Clone, Copy, Debug, PartialEq, Eq)]
enum Way {
    Checkpoint,
    Scan,
}

/// The way of a mount that made so many calls: eight tags, two pages of the checkpoint and seven of the tree; or the tags of seven first
/// pages at the least, and all those of two blocks: that which was written last, and one that begins erased.
fn way_of(calls: u64) -> Option<Way> {
    match calls {
        17 => Some(Way::Checkpoint),
        71.. => Some(Way::Scan),
        _ => None,
    }
}

/// The device after a mount, whether that shows a tree or not.
fn after_mount(alloc: Global, mut nand: MemNand) -> MemNand {
    nand.power_up();
    match try_mount(alloc, nand) {
        Ok(volume) => abandon(volume),
        Err((nand, _fault)) => nand,
    }
}

/// That a mount goes this way and changes nothing.
fn expect_way(rt: &impl Abort, alloc: Global, nand: MemNand, way: Way) -> MemNand {
    let nand = after_mount(alloc, nand);
    assert_eq!(rt; (way_of(nand.calls()), nand.changes()), (Some(way), 0));
    nand
}

/// The device without its checkpoint.
fn bare(rt: &impl Abort, nand: &MemNand) -> MemNand {
    let mut nand = nand.copy().expect(rt, "memory");
    for page in 0..2 {
        put(rt, &mut nand, 3, page, &[], &[0; 48]);
    }
    nand
}

/// That the volume of a device goes on, with this tree.
fn expect_going(rt: &impl Abort, alloc: Global, nand: MemNand, mut tree: PlainTree) {
    step_all(rt, alloc, &mut tree, "mkdir /z");
    let nand = session(rt, alloc, nand, "mkdir /z", "ok\n");
    let mut volume = mount(rt, alloc, nand);
    assert!(rt; tree.same(&mut volume).expect(rt, "a tree"));
}

/// The tree that a mount shows, or its fault.
fn shown(rt: &impl Abort, alloc: Global, nand: MemNand) -> Result<PlainTree, MountFault> {
    match try_mount(alloc, nand) {
        Ok(mut volume) => {
            let sizes = VolumeSizes::new(512, 32, 8, 1);
            Ok(PlainTree::read_from(alloc, sizes, &mut volume).expect(rt, "a tree"))
        }
        Err((_nand, fault)) => Err(fault),
    }
}

/// That a mount shows this tree, and that the volume goes on.
fn expect_tree(rt: &impl Abort, alloc: Global, nand: MemNand, tree: PlainTree) {
    let mut volume = mount_as_it_is(rt, alloc, nand);
    assert!(rt; tree.same(&mut volume).expect(rt, "a tree"));
    expect_going(rt, alloc, abandon(volume), tree)
}

/// That a mount of a device goes this way and shows what a mount does where the checkpoint is not there, and that the volume goes on.
fn expect_same(rt: &impl Abort, alloc: Global, nand: MemNand, way: Way) {
    let nand = expect_way(rt, alloc, nand, way);
    match shown(rt, alloc, bare(rt, &nand)) {
        Ok(tree) => expect_tree(rt, alloc, nand, tree),
        Err(wanted) => assert_eq!(rt; shown(rt, alloc, nand).err(), Some(wanted)),
    }
}

/// A copy of a device whose checkpoint is altered so.
fn altered(rt: &impl Abort, alloc: Global, nand: &MemNand, patches: &[Patch]) -> MemNand {
    let mut nand = nand.copy().expect(rt, "memory");
    for patch in patches {
        alter(rt, alloc, &mut nand, *patch);
    }
    nand
}

#[test]
fn a_mount_by_an_altered_checkpoint_is_that_of_a_scan(rt: HostRuntime) {
    let alloc = rt.alloc();
    let whole = device(&rt, alloc);
    for patches in REFUSED {
        let nand = altered(&rt, alloc, &whole, patches);
        expect_same(&rt, alloc, nand, Way::Scan);
    }
    for patches in TAKEN {
        let nand = altered(&rt, alloc, &whole, patches);
        expect_same(&rt, alloc, nand, Way::Checkpoint);
    }
}

/// Puts a copy of the first page of the checkpoint into block 7, with a number that is so much greater.
fn add_candidate(rt: &impl Abort, alloc: Global, nand: &mut MemNand, more: i8) {
    let mut bytes = Vec::new(alloc);
    let tag = Tag::decode(&read(rt, nand, 3, 0, &mut bytes)).expect(rt, "no tag");
    let seq = tag.seq.saturating_add_signed(i64::from(more));
    put(rt, nand, 7, 0, &bytes, &Tag { seq, ..tag }.encode())
}

fn mark(rt: &impl Abort, nand: &mut MemNand, block: u32) {
    if block >= nand.geometry().blocks() {
        panic!(rt; "no such block");
    }
    nand.put_mark(block);
}

/// A candidate with a greater number is read in place of the checkpoint, and is not whole; one with a lesser number is not read.
#[test]
fn the_candidate_with_the_greatest_number_is_read(rt: HostRuntime) {
    let alloc = rt.alloc();
    let whole = device(&rt, alloc);
    for (more, way) in [(1i8, Way::Scan), (-1, Way::Checkpoint)] {
        let mut nand = whole.copy().expect(&rt, "memory");
        add_candidate(&rt, alloc, &mut nand, more);
        expect_same(&rt, alloc, nand, way);
    }
}

/// A copy of a device with a bad block.
fn marked(rt: &impl Abort, nand: &MemNand, block: u32) -> MemNand {
    let mut nand = nand.copy().expect(rt, "memory");
    mark(rt, &mut nand, block);
    nand
}

/// An entry does not lead into a bad block, be it another than before or the same, nor is a checkpoint in one.
#[test]
fn a_block_of_a_checkpoint_is_bad(rt: HostRuntime) {
    let alloc = rt.alloc();
    let whole = device(&rt, alloc);
    let nand = altered(&rt, alloc, &whole, &[Byte(0, 56, 7)]);
    expect_same(&rt, alloc, marked(&rt, &nand, 7), Way::Scan);
    for block in [1, 2, 3] {
        expect_same(&rt, alloc, marked(&rt, &whole, block), Way::Scan);
    }
}

/// A copy of a device whose newest page of a key is erased.
fn without_newest(rt: &impl Abort, nand: &MemNand, object: u64, chunk: u64) -> MemNand {
    let mut nand = nand.copy().expect(rt, "memory");
    let found = newest(&mut nand, Key { object, chunk })
        .expect(rt, "a search")
        .expect(rt, "no page");
    put(rt, &mut nand, found.block, found.page, &[], &[0; 48]);
    nand
}

/// A committed page of the tree is erased: the header of the root, of a directory and of a file, and entries of a directory. A page of a
/// file is not read by the mount; its loss is reported where it is read.
#[test]
fn a_committed_page_is_erased(rt: HostRuntime) {
    let alloc = rt.alloc();
    let whole = device(&rt, alloc);
    for (object, chunk) in [(1, 0), (1, 1), (1, 2), (2, 0), (2, 1), (3, 0), (4, 0)] {
        let nand = without_newest(&rt, &whole, object, chunk);
        expect_same(&rt, alloc, nand, Way::Scan);
    }
    let nand = without_newest(&rt, &whole, 3, 4);
    let nand = expect_way(&rt, alloc, nand, Way::Checkpoint);
    let lines = "open /a/f r\nread 0 3\nseek 0 1536 set\nread 0 3\nlist /";
    let replies = "fd 0\ndata 3 xxx\nat 1536\nerror EIO\nerror EIO\n";
    let _volume = answered_by(&rt, alloc, nand, lines, replies);
}
