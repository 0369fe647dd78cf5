// What is committed on a flash, found key by key by a plain search.

use crate::same::assert_same;
use block_state::Blocks;
use flash_tree::{Found, Key};
use nand_model::{MemNand, Nand, PageKind};
use std::alloc::Global;
use std::process::Abort;
use test_devices::newest;

/// The version of a page, and the byte of which all its data are.
#[derive(Clone, Copy, Debug, PartialEq, Eq)]
pub(crate) struct Stored {
    pub version: u64,
    pub fill: u8,
}

/// What is at a place under a version.
pub(crate) fn stored_at(
    rt: &impl Abort,
    nand: &mut MemNand,
    block: u32,
    page: u32,
    version: u64,
) -> Stored {
    let geometry = nand.geometry();
    assert!(rt; block < geometry.blocks() && page < geometry.pages());
    assert!(rt; geometry.bytes() == 512);
    let mut bytes = [0; 512];
    let mut tag = [0; 48];
    let kind = nand
        .read_page(block, page, &mut bytes, &mut tag)
        .expect(rt, "a read");
    assert_same!(rt; kind, PageKind::Written);
    let fill = bytes[0];
    assert_same!(rt; bytes, [fill; 512]);
    Stored { version, fill }
}

/// The newest page of chunk 0 of an object.
pub(crate) fn newest_stored(rt: &impl Abort, nand: &mut MemNand, object: u64) -> Option<Stored> {
    let found = newest(nand, Key { object, chunk: 0 }).expect(rt, "a search");
    let Some(Found { block, page, tag }) = found else {
        return None;
    };
    Some(stored_at(rt, nand, block, page, tag.version))
}

/// So many objects from the first one up, whose newest pages are alike.
#[derive(Clone, Copy)]
pub(crate) struct Run {
    pub first: u64,
    pub count: u64,
    pub version: u64,
    pub fill: u8,
}

/// What is to be found of some objects.
fn assert_run(rt: &impl Abort, nand: &mut MemNand, run: &Run, what: &str) {
    let stored = Stored {
        version: run.version,
        fill: run.fill,
    };
    for i in 0..run.count {
        let object = run.first.saturating_add(i);
        let found = newest_stored(rt, nand, object);
        assert_same!(rt; found, Some(stored), (what, object));
    }
}

/// What is to be found of all objects.
pub(crate) fn assert_stored(rt: &impl Abort, nand: &mut MemNand, runs: &[Run], what: &str) {
    for run in runs {
        assert_run(rt, nand, run, what);
    }
}

/// The blocks that are marked on the flash, and in the table too.
pub(crate) fn marked(rt: &impl Abort, alloc: Global, nand: &MemNand, blocks: &Blocks) -> Vec<u32> {
    let mut marked = Vec::new(alloc);
    for block in 0..nand.geometry().blocks() {
        assert!(rt; block < blocks.geometry().blocks());
        assert_same!(rt; blocks.entry(block).bad, nand.is_bad(block), block);
        if nand.is_bad(block) {
            marked.push(block).expect(rt, "memory");
        }
    }
    marked
}
