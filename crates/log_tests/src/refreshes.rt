// A block that is refreshed.

use crate::moves::{MOUNT, MOVE, five_pages};
use crate::same::assert_same;
use chunk_index::CommittedPage;
use flash_tree::Key;
use nand_model::Nand;
use test_devices::mount_log;

/// Three of five pages are committed, and are copied as one group into the first free block. There is nothing to move then.
#[test]
fn the_committed_pages_of_a_refreshed_block_lie_elsewhere(rt: HostRuntime) {
    let alloc = rt.alloc();
    let mut log = mount_log(alloc, five_pages(&rt, alloc), 2).expect(&rt, "a log");
    for _ in 0..2u32 {
        assert!(rt;
            log.blocks.geometry() == log.device.geometry() && log.device.geometry().blocks() == 8
        );
        assert!(rt; log.blocks.bad_count() <= log.spare);
        assert_same!(rt; log.refresh(2), Ok(()));
        assert_same!(rt; log.device.calls(), MOUNT + MOVE);
        for (object, page, version) in [(1u64, 0u32, 1u64), (2, 1, 2), (3, 2, 2)] {
            let at = CommittedPage {
                block: 0,
                page,
                version,
            };
            assert_same!(rt; log.index.committed(Key { object, chunk: 0 }), Some(at), object);
        }
    }
}
