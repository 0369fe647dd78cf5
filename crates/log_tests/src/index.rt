// The index of what a scan finds.

use crate::same::assert_same;
use crate::scans::pages_of;
use crate::worked::{flashes, written};
use block_state::Blocks;
use chunk_index::{CommittedPage, Index};
use flash_tree::Key;
use mount_scan::{PageCopy, scan_newest};
use nand_model::Nand;
use std::alloc::Global;
use std::process::Abort;

/// The newest pages of any device, which need not be honest, with the index of them and the table of its blocks.
#[derive(Drop)]
struct Mounted {
    newest: Vec<PageCopy>,
    index: Index,
    blocks: Blocks,
}

impl Mounted {
    fn new<N: Nand>(rt: &impl Abort, alloc: Global, device: &mut N) -> Mounted {
        let found = scan_newest(alloc, device).expect(rt, "a scan").newest;
        let newest = pages_of(rt, alloc, &found);
        let blocks = Blocks::new(alloc, device.geometry()).expect(rt, "memory");
        let (index, blocks) = Index::from_newest(alloc, found, blocks).expect(rt, "memory");
        Mounted {
            newest,
            index,
            blocks,
        }
    }
}

/// How many keys are committed in the five blocks.
fn committed_in_all(rt: &impl Abort, blocks: &Blocks) -> u64 {
    let mut committed = 0u64;
    for block in 0..blocks.geometry().blocks() {
        assert!(rt; block < 5);
        committed = committed.saturating_add(blocks.entry(block).committed as u64);
    }
    committed
}

/// Asserts that the index has each of the newest pages.
fn expect_newest(rt: &impl Abort, mounted: &Mounted, what: &str) {
    for found in &mounted.newest {
        let key = Key {
            object: found.object,
            chunk: u64::from(found.chunk),
        };
        let page = CommittedPage {
            block: u32::from(found.block),
            page: u32::from(found.page),
            version: found.version,
        };
        assert_same!(rt; mounted.index.committed(key), Some(page), (what, key));
    }
    let committed = committed_in_all(rt, &mounted.blocks);
    assert_same!(rt; committed, mounted.newest.len() as u64, what);
}

#[test]
fn the_newest_pages_of_a_scan_are_committed(rt: HostRuntime) {
    let alloc = rt.alloc();
    for flash in flashes(&rt, alloc) {
        let mut nand = written(&rt, alloc, &flash);
        let mounted = Mounted::new(&rt, alloc, &mut nand);
        expect_newest(&rt, &mounted, flash.what);
    }
}
