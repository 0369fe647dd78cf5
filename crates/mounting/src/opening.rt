// The mount.
ghost use Rattle.std.specs.Prelude.{IfOk, IfErr};
ghost use Rattle.nand_model.specs.Changes.{OnlyReads};
ghost use Rattle.page_store.specs.FlashParts.{device_in};
ghost use Rattle.nand_model.specs.TrustedParts.{inner_of};
ghost use Rattle.mounting.specs.Faults.{WhyNotMounted};
ghost use Rattle.mounting.specs.Given.{IsGiven, IsGivenByScan};
ghost use Rattle.page_store.specs.PagesOf.{mounted_pages};

use crate::fault::MountFault;
use crate::going::{open_scanned, open_volume};
use crate::mounted::{Mounted, make_mounted};
use crate::naming::unmounted;
use nand_model::{Nand, TrustedNand};
use std::alloc::Global;
use std::num::NonZeroUsize;

/// Mounts a device, which is only read, with a cache of at most so many pages: by its checkpoint, where one is whole and its entries
/// do; without one by the summaries of its blocks, where these do; and else by a scan of all tags. What is said of an honest device is said where it is trusted: so where its flash was true. The block
/// that may have a checkpoint is noted. After a fault the device is given back: where that is another than Gone, it has power.
pub fn mount<N: Nand>(
    alloc: Global,
    device: N,
    capacity: NonZeroUsize,
) -> Result<Mounted<TrustedNand<N>>, (N, MountFault)>
    ensures given { IfOk result (λ m. IsGiven mounted_pages (N.state device) (N.state (inner_of (device_in m.pages))) m) }
    ensures back { IfErr result (λ failed. OnlyReads (N.state device) (N.state failed.0)) }
    ensures fault { IfErr result (λ failed. WhyNotMounted (N.state failed.0) failed.1) }
{
    let going = open_volume(alloc, device)?;
    match make_mounted(alloc, going, capacity) {
        Ok(mounted) => Ok(mounted),
        Err(device) => Err(unmounted(device.into_inner(), MountFault::NoMemory)),
    }
}

/// Mounts a device as `mount` does, but always by a scan of all tags: what is said of an honest device is said whatever its flash is.
pub fn mount_scanned<N: Nand>(
    alloc: Global,
    device: N,
    capacity: NonZeroUsize,
) -> Result<Mounted<TrustedNand<N>>, (N, MountFault)>
    ensures given { IfOk result (λ m. IsGivenByScan mounted_pages (N.state device) (N.state (inner_of (device_in m.pages))) m) }
    ensures back { IfErr result (λ failed. OnlyReads (N.state device) (N.state failed.0)) }
    ensures fault { IfErr result (λ failed. WhyNotMounted (N.state failed.0) failed.1) }
{
    let going = open_scanned(alloc, device)?;
    match make_mounted(alloc, going, capacity) {
        Ok(mounted) => Ok(mounted),
        Err(device) => Err(unmounted(device.into_inner(), MountFault::NoMemory)),
    }
}
