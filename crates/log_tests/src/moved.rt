//! What a move of committed pages leaves of a checkpoint, and of the pages.

use crate::laid::{checkpoint, empty, write};
use crate::left::{READS, assert_left};
use block_state::Blocks;
use flash_log::{MoveFault, Moved};
use flash_tree::{Found, Key};
use nand_model::{Fate, MemNand, Nand, PageKind};
use page_tags::Tag;
use std::alloc::Global;
use std::process::Abort;
use test_devices::{LogFault, mount_log_beside, newest};

/// The tag of page i of group 7, of three pages: it is of chunk 0 of object 2 + i.
fn tag(i: u32) -> Tag {
    Tag {
        index: i,
        count: 3,
        object: 2 + u64::from(i),
        chunk: 0,
        version: 7,
        group: 7,
        seq: 4,
    }
}

/// The tag of the copy of page i. The group and the block have the numbers after those of the checkpoint, 9 and 5.
fn copy_tag(i: u32) -> Tag {
    Tag {
        group: 10,
        seq: 6,
        ..tag(i)
    }
}

/// The byte of which all data of page i are.
fn fill(i: u32) -> u8 {
    match i {
        0 => 20,
        1 => 30,
        _ => 40,
    }
}

/// A flash with group 7 in block 4 and a whole checkpoint in block 3, after a power-up.
fn flash(rt: &impl Abort, alloc: Global) -> MemNand {
    let mut nand = empty(rt, alloc);
    let geometry = nand.geometry();
    assert!(rt; geometry.bytes() == 512 && 4 < geometry.blocks());
    nand.erase(4).expect(rt, "an erase");
    assert!(rt; !nand.is_bad(4));
    nand.program(4, 0, &[fill(0); 512], &tag(0).encode())
        .expect(rt, "a program");
    assert!(rt; !nand.is_bad(4));
    nand.program(4, 1, &[fill(1); 512], &tag(1).encode())
        .expect(rt, "a program");
    assert!(rt; !nand.is_bad(4));
    nand.program(4, 2, &[fill(2); 512], &tag(2).encode())
        .expect(rt, "a program");
    write(rt, &mut nand, 3, &checkpoint(5), true);
    nand.power_up();
    nand
}

/// Moves away what is committed in block 4, with two blocks to spare, while the checkpoint in block 3 is noted. How that ends,
/// with the device and the table afterwards.
fn moved(
    rt: &impl Abort,
    alloc: Global,
    nand: MemNand,
) -> (Result<Moved, MoveFault>, MemNand, Blocks) {
    let mut log = mount_log_beside(alloc, nand, 2, 3).expect(rt, "a log");
    assert_eq!(rt; log.blocks.checkpoint(), Some(3));
    assert_eq!(rt; log.blocks.open_block(), None);
    assert!(rt; 4 < log.device.geometry().blocks());
    assert!(rt; 4 < log.blocks.geometry().blocks());
    assert!(rt; !log.blocks.entry(4).bad);
    assert!(rt; log.blocks.entry(4).committed == 3);
    let result = log.move_committed(4);
    (result, log.device, log.blocks)
}

/// Page i of a block reads with this tag, and its data are those of page i of the group.
fn assert_page(rt: &impl Abort, nand: &mut MemNand, block: u32, i: u32, tag: &Tag) {
    let geometry = nand.geometry();
    assert!(rt; block < geometry.blocks() && i < geometry.pages());
    assert!(rt; geometry.bytes() == 512);
    let mut bytes = [0; 512];
    let mut spare = [0; 48];
    let kind = nand
        .read_page(block, i, &mut bytes, &mut spare)
        .expect(rt, "a read");
    assert_eq!(rt; kind, PageKind::Written);
    assert_eq!(rt; bytes, [fill(i); 512], "page {i}");
    assert_eq!(rt; spare, tag.encode(), "page {i}");
}

/// The newest page of each object is page i of the group in block 4, or its copy, which is page i of block 3.
fn assert_newest(rt: &impl Abort, nand: &mut MemNand, copied: bool) {
    for i in 0..3 {
        let (block, tag) = if copied {
            (3, copy_tag(i))
        } else {
            (4, tag(i))
        };
        let key = Key {
            object: tag.object,
            chunk: 0,
        };
        let found = Found {
            block,
            page: i,
            tag,
        };
        assert_eq!(rt; newest(nand, key).expect(rt, "a search"), Some(found));
        assert_page(rt, nand, block, i, &tag);
    }
}

/// The block of the checkpoint is taken first, so that none is whole once a copy is written.
#[test]
fn pages_are_moved_into_the_block_of_the_checkpoint(rt: HostRuntime) {
    let alloc = rt.alloc();
    let nand = flash(&rt, alloc);
    let (result, mut nand, blocks) = moved(&rt, alloc, nand);
    assert_eq!(rt; result, Ok(Moved::Trusted));
    assert_eq!(rt; nand.calls(), READS + 7);
    assert_eq!(rt; (blocks.open_block(), blocks.open_room()), (Some(3), 29));
    assert_eq!(rt; blocks.checkpoint(), None);
    assert_left(&rt, alloc, &mut nand, false);
    assert_newest(&rt, &mut nand, true)
}

/// What a cut leaves.
#[derive(Clone, Copy, Debug, PartialEq, Eq)]
enum Left {
    /// The checkpoint is whole, and the pages are in block 4.
    Checkpoint,
    /// There is no checkpoint, and the pages are in block 4.
    Pages,
    /// There is no checkpoint, and the newest pages are the copies in block 3.
    Copies,
}

/// Cuts this call of the move, with this fate of each page that it changes.
fn assert_cut(rt: &impl Abort, alloc: Global, call: u64, fate: Fate, left: Left) {
    let fates = vec![in alloc; fate; 32].expect(rt, "memory");
    let nand = flash(rt, alloc).with_fuse(READS.saturating_add(call), fates);
    let (result, mut nand, blocks) = moved(rt, alloc, nand);
    assert_eq!(rt; result, Err(MoveFault::Gone));
    let noted = if call == 1 { Some(3) } else { None };
    assert_eq!(rt; blocks.checkpoint(), noted);
    assert_left(rt, alloc, &mut nand, left == Left::Checkpoint);
    assert_newest(rt, &mut nand, left == Left::Copies)
}

/// The first call erases the block of the checkpoint, which is whole afterwards where each page was left. The calls after it
/// read and program each page, and the copies count once the last one is written.
#[test]
fn a_checkpoint_is_whole_or_gone_wherever_a_move_is_cut(rt: HostRuntime) {
    let pages = [Left::Pages; 4];
    for (call, [old, new, erased, uncorrectable]) in [
        (1, [Left::Checkpoint, Left::Pages, Left::Pages, Left::Pages]),
        (2, pages),
        (3, pages),
        (4, pages),
        (5, pages),
        (6, pages),
        (7, [Left::Pages, Left::Copies, Left::Pages, Left::Pages]),
    ] {
        assert_cut(&rt, rt.alloc(), call, Fate::Old, old);
        assert_cut(&rt, rt.alloc(), call, Fate::New, new);
        assert_cut(&rt, rt.alloc(), call, Fate::Erased, erased);
        assert_cut(&rt, rt.alloc(), call, Fate::Uncorrectable, uncorrectable);
    }
}

/// No block is noted that keeps a page, that is not on the device, or that is bad.
#[test]
fn a_block_that_is_not_free_is_not_noted(rt: HostRuntime) {
    let mut nand = flash(&rt, rt.alloc());
    assert!(rt; 5 < nand.geometry().blocks());
    nand.mark_bad(5).expect(&rt, "a mark");
    for block in [4, 8, 5] {
        let copy = nand.copy().expect(&rt, "memory");
        let fault = mount_log_beside(rt.alloc(), copy, 2, block).err();
        assert_eq!(rt; fault, Some(LogFault::NotFree), "block {block}");
    }
}
