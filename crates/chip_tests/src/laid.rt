//! A flash of 5 blocks of 32 pages of 512 bytes, put together page by page, with each state of a page.

use flash_tree::CHECK_OBJECT;
use nand_model::{Fate, Geometry, MemNand};
use page_tags::Tag;
use std::alloc::Global;
use std::process::Abort;
use test_devices::{TestFault, TestFlash};

/// The tag of a page of a group whose version, number and seq are these.
pub(crate) fn tag(object: u64, chunk: u64, index: u32, count: u32, group: u64, seq: u64) -> Tag {
    Tag {
        index,
        count,
        object,
        chunk,
        version: group,
        group,
        seq,
    }
}

/// Block 0 has a group of a header and chunk 1 of object 2, a newer chunk 1, the first page of a group of two and a page that was
/// lost. Block 1 is bad. Block 2 has a page of a checkpoint and two chunks of object 3, one of them past 2^32.
pub(crate) fn flash(rt: &impl Abort, alloc: Global) -> MemNand {
    let fates = vec![in alloc; Fate::Uncorrectable].expect(rt, "memory");
    let lost = vec![in alloc; (6u64, fates)].expect(rt, "memory");
    let geometry = Geometry::new(512, 32, 5).expect(rt, "a geometry");
    let mut flash = TestFlash::new(alloc, geometry)
        .expect(rt, "memory")
        .with_failures(lost);
    flash
        .write(0, &tag(2, 0, 0, 2, 1, 1), 1)
        .expect(rt, "a write");
    flash
        .write(0, &tag(2, 1, 1, 2, 1, 1), 2)
        .expect(rt, "a write");
    flash
        .write(0, &tag(2, 1, 0, 1, 2, 1), 3)
        .expect(rt, "a write");
    flash
        .write(0, &tag(3, 1, 0, 2, 3, 1), 4)
        .expect(rt, "a write");
    assert_eq!(rt;
        flash.write(0, &tag(3, 2, 1, 2, 3, 1), 5),
        Err(TestFault::Device)
    );
    flash.mark_bad(1).expect(rt, "a mark");
    flash
        .write(2, &tag(CHECK_OBJECT, 1, 0, 1, 4, 2), 6)
        .expect(rt, "a write");
    flash
        .write(2, &tag(3, 1, 0, 1, 5, 2), 7)
        .expect(rt, "a write");
    flash
        .write(2, &tag(3, 1 << 32, 0, 1, 6, 2), 8)
        .expect(rt, "a write");
    flash.into_nand()
}
