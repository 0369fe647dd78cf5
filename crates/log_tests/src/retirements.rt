// A block that is retired, and one whose pages are moved away.

use crate::committed::{assert_stored, marked};
use crate::moves::{COMMITTED, MOUNT, MOVE, flash, moved, retired};
use crate::same::assert_same;
use flash_log::Moved;

#[test]
fn a_retired_block_is_marked_and_its_pages_are_committed(rt: HostRuntime) {
    let alloc = rt.alloc();
    let nand = flash(&rt, alloc);
    let (result, mut nand, blocks) = retired(&rt, alloc, nand, 2, 2);
    assert_same!(rt; result, Ok(()));
    assert_same!(rt; nand.calls(), MOUNT + MOVE + 1);
    assert_same!(rt; marked(&rt, alloc, &nand, &blocks), vec![in alloc; 2].expect(&rt, "memory"));
    assert_same!(rt; (blocks.open_block(), blocks.open_room()), (Some(0), 29));
    assert_stored(&rt, &mut nand, &COMMITTED, "no failure");
}

/// The block stays good, and has no committed page any more.
#[test]
fn what_a_block_keeps_is_moved(rt: HostRuntime) {
    let alloc = rt.alloc();
    let nand = flash(&rt, alloc);
    let (result, mut nand, blocks) = moved(&rt, alloc, nand, 2, 2);
    assert_same!(rt; result, Ok(Moved::Trusted));
    assert_same!(rt; nand.calls(), MOUNT + MOVE);
    assert!(rt; marked(&rt, alloc, &nand, &blocks).is_empty());
    assert_same!(rt; (blocks.open_block(), blocks.open_room()), (Some(0), 29));
    assert_stored(&rt, &mut nand, &COMMITTED, "no failure");
}
