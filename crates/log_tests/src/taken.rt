//! What the allocation of a block leaves of a checkpoint.

use crate::laid::{checkpoint, empty, write};
use crate::left::{READS, assert_left};
use flash_log::{Log, TakeFault, take_block};
use nand_model::{Fate, MemNand};
use std::alloc::Global;
use std::process::Abort;
use test_devices::mount_log_beside;

/// A flash with a whole checkpoint in block 3, after a power-up.
fn flash(rt: &impl Abort, alloc: Global) -> MemNand {
    let mut nand = empty(rt, alloc);
    write(rt, &mut nand, 3, &checkpoint(5), true);
    nand.power_up();
    nand
}

/// A device that is planned so, and what an allocation of a block leaves on it.
#[derive(Clone, Copy)]
struct Case {
    /// Whether the erase of the checkpoint's block fails.
    fails: bool,
    /// The call that is cut, 0 for none, and what it leaves of the two pages; of a mark the first says whether it is set.
    cut: u64,
    fates: [Fate; 2],
    result: Result<u32, TakeFault>,
    /// The block that may have a checkpoint afterwards.
    noted: Option<u32>,
    /// Whether the checkpoint is whole afterwards.
    whole: bool,
}

/// Allocates a block, with two to spare, on a device that is planned so.
fn assert_case(rt: &impl Abort, alloc: Global, case: &Case) {
    let mut failures = Vec::new(alloc);
    if case.fails {
        failures
            .push((READS + 1, Vec::new(alloc)))
            .expect(rt, "memory");
    }
    let fates = vec![in alloc; case.fates[0], case.fates[1]].expect(rt, "memory");
    let nand = flash(rt, alloc).with_failures(failures);
    let log = mount_log_beside(alloc, nand.with_fuse(case.cut, fates), 2, 3).expect(rt, "a log");
    let Log {
        device: mut nand,
        mut blocks,
        ..
    } = log;
    let result = take_block(&mut nand, &mut blocks, 2);
    assert_eq!(rt; result, case.result);
    assert_eq!(rt; blocks.open_block(), result.ok());
    assert_eq!(rt; blocks.checkpoint(), case.noted);
    assert_left(rt, alloc, &mut nand, case.whole)
}

/// The block of the checkpoint is taken first. Where its erase is cut, the checkpoint is whole if both pages are there
/// still; where it fails, the block is marked and the next one taken; where the mark is cut, it is whole unless that is set.
#[test]
fn a_checkpoint_is_whole_and_noted_or_gone(rt: HostRuntime) {
    let old = [Fate::Old, Fate::Old];
    let gone = Err(TakeFault::Gone);
    for (fails, cut, fates, result, noted, whole) in [
        (false, 0, old, Ok(3), None, false),
        (false, READS + 1, old, gone, Some(3), true),
        (
            false,
            READS + 1,
            [Fate::Old, Fate::New],
            gone,
            Some(3),
            false,
        ),
        (
            false,
            READS + 1,
            [Fate::New, Fate::Old],
            gone,
            Some(3),
            false,
        ),
        (
            false,
            READS + 1,
            [Fate::Old, Fate::Uncorrectable],
            gone,
            Some(3),
            false,
        ),
        (
            false,
            READS + 1,
            [Fate::Uncorrectable, Fate::Old],
            gone,
            Some(3),
            false,
        ),
        (true, 0, old, Ok(0), None, false),
        (true, READS + 2, old, gone, Some(3), true),
        (true, READS + 2, [Fate::New, Fate::Old], gone, None, false),
    ] {
        let case = Case {
            fails,
            cut,
            fates,
            result,
            noted,
            whole,
        };
        assert_case(&rt, rt.alloc(), &case);
    }
}
