// What the mounts after a run cost, by a scan and by a checkpoint.

use crate::cost::Cost;
use crate::counts::Counts;
use crate::device::CountedNand;
use crate::fault::BenchFault;
use crate::running::{mounted, nanoseconds_since, now};
use nand_model::MemNand;
use posix_calls::Reply;
use std::alloc::Global;
use std::time::CpuClock;

/// What three calls in turn cost, of a volume that was not unmounted.
#[derive(Clone, Copy)]
pub(crate) struct Mounts {
    pub(crate) by_scan: Cost,
    pub(crate) unmount: Cost,
    pub(crate) by_checkpoint: Cost,
}

/// What a device was called for since then.
fn cost_since(device: &CountedNand<MemNand>, before: Counts, processor: u64) -> Cost {
    Cost {
        calls: device.counts().since(before),
        written: 0,
        errors: 0,
        processor,
    }
}

/// Mounts a device, and leaves the volume. Returns the device with what the mount cost.
fn measured_mount<R: CpuClock>(
    rt: &R,
    alloc: Global,
    device: CountedNand<MemNand>,
) -> Result<(CountedNand<MemNand>, Cost), BenchFault> {
    let before = device.counts();
    let start = now(rt)?;
    let volume = mounted(alloc, device)?;
    let processor = nanoseconds_since(rt, start)?;
    let device = volume.abandon();
    let cost = cost_since(&device, before, processor);
    Ok((device, cost))
}

/// Mounts a device, which costs `mount`, and unmounts it. Returns the device with what the unmount cost.
fn measured_unmount<R: CpuClock>(
    rt: &R,
    alloc: Global,
    device: CountedNand<MemNand>,
    mount: Cost,
) -> Result<(CountedNand<MemNand>, Cost), BenchFault> {
    let before = device.counts();
    let volume = mounted(alloc, device)?;
    let start = now(rt)?;
    let (device, reply) = volume.unmount();
    let processor = nanoseconds_since(rt, start)?;
    if !matches!(reply, Reply::Done) {
        return Err(BenchFault::Unmount);
    }
    let both = cost_since(&device, before, processor);
    let cost = Cost {
        calls: both.calls.since(mount.calls),
        ..both
    };
    Ok((device, cost))
}

/// Measures the mounts of a device whose volume was not unmounted.
pub(crate) fn measure<R: CpuClock>(
    rt: &R,
    alloc: Global,
    device: CountedNand<MemNand>,
) -> Result<Mounts, BenchFault> {
    let (device, by_scan) = measured_mount(rt, alloc, device)?;
    let (device, unmount) = measured_unmount(rt, alloc, device, by_scan)?;
    let (_device, by_checkpoint) = measured_mount(rt, alloc, device)?;
    Ok(Mounts {
        by_scan,
        unmount,
        by_checkpoint,
    })
}
