// Devices in memory that are formatted, cut and failing.

use nand_model::{Fate, Geometry, MemNand};
use posix_calls::format;
use std::alloc::Global;
use std::process::Abort;

/// A device of so many blocks of 32 pages of 512 bytes that was just formatted, after a power-up.
pub(crate) fn formatted(rt: &impl Abort, alloc: Global, blocks: u32, spare: u32) -> MemNand {
    let geometry = Geometry::new(512, 32, blocks).expect(rt, "a geometry");
    let nand = MemNand::new(alloc, geometry).expect(rt, "memory");
    match format(alloc, nand, spare) {
        Ok(mut nand) => {
            nand.power_up();
            nand
        }
        Err((_nand, fault)) => panic!(rt; "{fault:?}"),
    }
}

/// What a cut or a failure may leave of a page.
pub(crate) const FATES: [Fate; 4] = [Fate::Old, Fate::New, Fate::Erased, Fate::Uncorrectable];

/// The device, of which this call is cut.
pub(crate) fn cut(rt: &impl Abort, alloc: Global, nand: MemNand, call: u64, fate: Fate) -> MemNand {
    nand.with_fuse(call, vec![in alloc; fate; 32].expect(rt, "memory"))
}

/// The device, of which these calls fail.
pub(crate) fn failing(
    rt: &impl Abort,
    alloc: Global,
    nand: MemNand,
    calls: &[u64],
    fate: Fate,
) -> MemNand {
    let mut failures = Vec::new(alloc);
    for call in calls {
        failures
            .push((*call, vec![in alloc; fate; 32].expect(rt, "memory")))
            .expect(rt, "memory");
    }
    nand.with_failures(failures)
}
