// Room that is made by a collection, by a free block, and not at all.

use crate::committed::{assert_stored, marked};
use crate::moves::{FULL, MOUNT, MOVE, full_flash, room_made};
use crate::same::assert_same;
use block_state::Blocks;
use flash_log::RoomFault;
use nand_model::{MemNand, Nand};
use std::alloc::Global;
use std::process::Abort;

/// How room was made: the result, the calls of the device, and the block that is open then.
type Made = (Result<(), RoomFault>, u64, Option<u32>);

/// Makes room for so many pages on a copy of the full flash, on which all that was stored stays. How that ends, with the
/// table afterwards and the blocks that are marked.
fn made(
    rt: &impl Abort,
    alloc: Global,
    flash: &MemNand,
    count: u32,
    spare: u32,
) -> (Made, Blocks, Vec<u32>) {
    let (result, mut nand, blocks) = room_made(
        rt,
        alloc,
        flash.copy().expect(rt, "memory"),
        count,
        spare,
    );
    let made = (result, nand.calls(), blocks.open_block());
    assert_stored(rt, &mut nand, &FULL, "room was wanted");
    let marked = marked(rt, alloc, &nand, &blocks);
    (made, blocks, marked)
}

#[test]
fn the_block_with_the_fewest_committed_pages_is_collected(rt: HostRuntime) {
    let alloc = rt.alloc();
    let flash = full_flash(&rt, alloc);
    for count in [1, 8, 29u32] {
        let (made, blocks, marked) = made(&rt, alloc, &flash, count, 2);
        assert_same!(rt; made, (Ok(()), MOUNT + MOVE, Some(5)), count);
        // the collected block is free in place of the one that was taken
        assert_same!(rt; [blocks.open_room(), blocks.free_count()], [29, 3], count);
        assert!(rt; marked.is_empty(), "{count} pages");
    }
}

#[test]
fn a_block_is_taken_while_more_are_free(rt: HostRuntime) {
    let alloc = rt.alloc();
    let flash = full_flash(&rt, alloc);
    let (made, blocks, _marked) = made(&rt, alloc, &flash, 32, 1);
    assert_same!(rt; made, (Ok(()), MOUNT + 1, Some(5)));
    assert_same!(rt; blocks.open_room(), 32);
}

#[test]
fn where_too_much_is_committed_nothing_is_written(rt: HostRuntime) {
    let alloc = rt.alloc();
    let flash = full_flash(&rt, alloc);
    for count in [30, 32, 33, u32::MAX] {
        let (made, _blocks, _marked) = made(&rt, alloc, &flash, count, 2);
        assert_same!(rt; made, (Err(RoomFault::Full), MOUNT, None), count);
    }
}
