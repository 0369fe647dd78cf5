//! What is left of the checkpoint in block 3.

use crate::laid::entry;
use mount_scan::find_checkpoint;
use nand_model::MemNand;
use std::alloc::Global;
use std::process::Abort;

/// The reads of all tags of eight blocks of 32 pages. The call after them is an erase.
pub(crate) const READS: u64 = 256;

/// After a power-up the checkpoint is whole as it was, or none is.
pub(crate) fn assert_left(rt: &impl Abort, alloc: Global, nand: &mut MemNand, whole: bool) {
    nand.power_up();
    let search = find_checkpoint(alloc, nand).expect(rt, "a search");
    let Some(found) = &search.checkpoint else {
        assert!(rt; !whole);
        return;
    };
    assert!(rt; whole);
    assert_eq!(rt; (found.block, found.size), (3, 2));
    assert_eq!(rt; (found.number, found.seq), (9, 5));
    assert_eq!(rt; found.entries.len(), 20);
    for k in 0..20u32 {
        assert!(rt;
            found.entries.get(k as usize) == Some(&entry(k)),
            "entry {k}"
        );
    }
}
