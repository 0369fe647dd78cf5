// Calls of a device whose sizes a test does not know: the block is looked at first.

use nand_model::{EraseFault, Gone, Nand};
use std::process::Abort;

/// What an erase of a block answers.
pub(crate) fn erase<N: Nand>(rt: &impl Abort, nand: &mut N, block: u32) -> Result<(), EraseFault> {
    assert!(rt; block < nand.geometry().blocks());
    nand.erase(block)
}

/// What is answered where a block is marked bad.
pub(crate) fn mark_bad<N: Nand>(rt: &impl Abort, nand: &mut N, block: u32) -> Result<(), Gone> {
    assert!(rt; block < nand.geometry().blocks());
    nand.mark_bad(block)
}

/// Whether a block is marked bad.
pub(crate) fn is_bad<N: Nand>(rt: &impl Abort, nand: &N, block: u32) -> bool {
    assert!(rt; block < nand.geometry().blocks());
    nand.is_bad(block)
}

/// The device answers that it is gone: to a read, an erase and a mark of block 1.
pub(crate) fn expect_gone<N: Nand>(rt: &impl Abort, nand: &mut N) {
    let geometry = nand.geometry();
    assert!(rt; geometry.blocks() > 1 && geometry.pages() > 0);
    assert_eq!(rt; nand.read_tag(1, 0, &mut [0; 48]), Err(Gone));
    assert_eq!(rt; erase(rt, nand, 1), Err(EraseFault::Gone));
    assert_eq!(rt; mark_bad(rt, nand, 1), Err(Gone));
}
