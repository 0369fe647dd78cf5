// Devices in memory that are formatted, cut and failing.

use flash_tree::count_bad;
use nand_model::{Fate, Geometry, MemNand};
use posix_calls::{FormatFault, format};
use std::alloc::Global;
use std::process::Abort;

/// An erased device of eight blocks of 32 pages of 512 bytes.
pub(crate) fn erased(rt: &impl Abort, alloc: Global) -> MemNand {
    MemNand::new(alloc, Geometry::new(512, 32, 8).expect(rt, "a geometry")).expect(rt, "memory")
}

/// How a format ends, with the device.
pub(crate) fn format_of(
    alloc: Global,
    nand: MemNand,
    spare: u32,
) -> (MemNand, Option<FormatFault>) {
    match format(alloc, nand, spare) {
        Ok(nand) => (nand, None),
        Err((nand, fault)) => (nand, Some(fault)),
    }
}

/// The device, formatted with so many blocks to spare, after a power-up.
pub(crate) fn formatted_with(rt: &impl Abort, alloc: Global, nand: MemNand, spare: u32) -> MemNand {
    let (mut nand, fault) = format_of(alloc, nand, spare);
    nand.power_up();
    match fault {
        None => nand,
        Some(fault) => panic!(rt; "{fault:?}"),
    }
}

/// An erased device that was formatted with one block to spare, after a power-up.
pub(crate) fn formatted(rt: &impl Abort, alloc: Global) -> MemNand {
    formatted_with(rt, alloc, erased(rt, alloc), 1)
}

/// What is left of the pages of a call that is cut or fails: these fates in turn.
pub(crate) type Left = &'static [Fate];

/// What a cut or a failure may leave.
pub(crate) const ALL_LEFT: [Left; 5] = [
    &[Fate::Old],
    &[Fate::New],
    &[Fate::Erased],
    &[Fate::Uncorrectable],
    &[Fate::Old, Fate::Erased, Fate::Uncorrectable],
];

/// A call that is cut or fails, numbered from the power-up.
#[derive(Clone, Copy)]
pub(crate) struct Hit {
    pub(crate) call: u64,
    pub(crate) left: Left,
}

/// The fates of 32 pages.
fn fates_of(rt: &impl Abort, alloc: Global, left: Left) -> Vec<Fate> {
    let mut fates = Vec::new(alloc);
    for _ in 0..32u32 {
        for fate in left {
            fates.push(*fate).expect(rt, "memory");
        }
    }
    fates
}

/// A copy of the device after a power-up, of which a call is cut.
pub(crate) fn cut(rt: &impl Abort, alloc: Global, nand: &MemNand, hit: Hit) -> MemNand {
    let mut nand = nand.copy().expect(rt, "memory");
    nand.power_up();
    nand.with_fuse(hit.call, fates_of(rt, alloc, hit.left))
}

/// A copy of the device after a power-up, of which these calls fail.
pub(crate) fn failing(rt: &impl Abort, alloc: Global, nand: &MemNand, hits: &[Hit]) -> MemNand {
    let mut failures = Vec::new(alloc);
    for hit in hits {
        failures
            .push((hit.call, fates_of(rt, alloc, hit.left)))
            .expect(rt, "memory");
    }
    let mut nand = nand.copy().expect(rt, "memory");
    nand.power_up();
    nand.with_failures(failures)
}

/// How many blocks are marked.
pub(crate) fn marked(nand: &MemNand) -> u32 {
    count_bad(nand)
}
