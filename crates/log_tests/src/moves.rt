// Small flashes, and moves of pages on them.

use crate::committed::Run;
use crate::volumes::{Volume, pages_from};
use block_state::Blocks;
use flash_log::{MoveFault, Moved, RoomFault};
use nand_model::{MemNand, Nand};
use std::alloc::Global;
use std::process::Abort;
use test_devices::mount_log;

/// The reads of a mount of eight blocks of 32 pages.
pub(crate) const MOUNT: u64 = 256;

/// The calls of a move of three pages: an erase, and a read and a program for each page. A retirement marks the block
/// besides.
pub(crate) const MOVE: u64 = 7;

/// A group of pages of objects in a row, all with the same data, and the block in which it lies.
#[derive(Clone, Copy)]
struct Laid {
    block: u32,
    first: u64,
    count: u64,
    fill: u8,
}

/// A group in a block: of so many objects from the first one up.
fn group_in(block: u32, first: u64, count: u64, fill: u8) -> Laid {
    Laid {
        block,
        first,
        count,
        fill,
    }
}

/// Eight blocks of 32 pages of 512 bytes, to which these groups were written in turn, with the numbers from 1 up, after a
/// power-up.
fn written(rt: &impl Abort, alloc: Global, groups: &[Laid]) -> MemNand {
    let mut volume = Volume::new(rt, alloc);
    for group in groups {
        if volume.blocks.open_block() != Some(group.block) {
            volume.take(rt, group.block).expect(rt, "an erase");
        }
        let pages = pages_from(rt, alloc, group.first, group.count, group.fill);
        assert!(rt; volume.commit(rt, &pages).is_ok());
    }
    volume.power_up();
    volume.into_nand()
}

/// Block 2 keeps the pages of objects 1, 2 and 3, and older ones of objects 2 and 3.
pub(crate) fn five_pages(rt: &impl Abort, alloc: Global) -> MemNand {
    written(rt, alloc, &[group_in(2, 1, 3, 10), group_in(2, 2, 2, 20)])
}

/// Block 2 keeps the pages of objects 1, 2 and 3, and an older one of object 2; block 5 those of objects 4 and 5.
pub(crate) fn flash(rt: &impl Abort, alloc: Global) -> MemNand {
    written(
        rt,
        alloc,
        &[
            group_in(2, 1, 3, 10),
            group_in(2, 2, 1, 20),
            group_in(5, 4, 2, 30),
        ],
    )
}

/// What is on it.
pub(crate) const COMMITTED: [Run; 4] = [
    Run {
        first: 1,
        count: 1,
        version: 1,
        fill: 10,
    },
    Run {
        first: 2,
        count: 1,
        version: 2,
        fill: 20,
    },
    Run {
        first: 3,
        count: 1,
        version: 1,
        fill: 10,
    },
    Run {
        first: 4,
        count: 2,
        version: 3,
        fill: 30,
    },
];

/// Block 1 keeps the pages of objects 5, 6 and 7, and older ones of them; each of the blocks 0 and 2 to 4 keeps four
/// pages; and 5, 6 and 7 are free.
pub(crate) fn full_flash(rt: &impl Abort, alloc: Global) -> MemNand {
    written(
        rt,
        alloc,
        &[
            group_in(0, 1, 4, 10),
            group_in(1, 5, 3, 20),
            group_in(1, 5, 3, 30),
            group_in(2, 8, 4, 40),
            group_in(3, 12, 4, 50),
            group_in(4, 16, 4, 60),
        ],
    )
}

/// What is on it.
pub(crate) const FULL: [Run; 5] = [
    Run {
        first: 1,
        count: 4,
        version: 1,
        fill: 10,
    },
    Run {
        first: 5,
        count: 3,
        version: 3,
        fill: 30,
    },
    Run {
        first: 8,
        count: 4,
        version: 4,
        fill: 40,
    },
    Run {
        first: 12,
        count: 4,
        version: 5,
        fill: 50,
    },
    Run {
        first: 16,
        count: 4,
        version: 6,
        fill: 60,
    },
];

/// Mounts a device and retires a block. How that ends, with the device and the table afterwards.
pub(crate) fn retired(
    rt: &impl Abort,
    alloc: Global,
    nand: MemNand,
    block: u32,
    spare: u32,
) -> (Result<(), MoveFault>, MemNand, Blocks) {
    let mut log = mount_log(alloc, nand, spare).expect(rt, "a log");
    assert!(rt; block < log.device.geometry().blocks());
    assert!(rt; block < log.blocks.geometry().blocks());
    assert!(rt; !log.blocks.entry(block).bad);
    assert!(rt; log.blocks.checkpoint().is_none());
    let result = log.retire(block);
    (result, log.device, log.blocks)
}

/// Mounts a device and moves away what is committed in a block. How that ends, with the device and the table afterwards.
pub(crate) fn moved(
    rt: &impl Abort,
    alloc: Global,
    nand: MemNand,
    block: u32,
    spare: u32,
) -> (Result<Moved, MoveFault>, MemNand, Blocks) {
    let mut log = mount_log(alloc, nand, spare).expect(rt, "a log");
    assert!(rt; block < log.device.geometry().blocks());
    assert!(rt; block < log.blocks.geometry().blocks());
    assert!(rt; !log.blocks.entry(block).bad);
    assert!(rt; log.blocks.entry(block).committed > 0);
    let result = log.move_committed(block);
    (result, log.device, log.blocks)
}

/// Mounts a device and makes room for so many pages. How that ends, with the device and the table afterwards.
pub(crate) fn room_made(
    rt: &impl Abort,
    alloc: Global,
    nand: MemNand,
    count: u32,
    spare: u32,
) -> (Result<(), RoomFault>, MemNand, Blocks) {
    let mut log = mount_log(alloc, nand, spare).expect(rt, "a log");
    let result = log.make_room(count);
    (result, log.device, log.blocks)
}
