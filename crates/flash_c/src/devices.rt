// Mount, format and end of a volume, over any device: what they return, and the device after them.
ghost use Rattle.std.specs.Prelude.{◌≡◌, ◌<ℤ◌, ◌≤ℤ◌, IfOk, IfErr};
ghost use Rattle.flash_c.specs.Volumes.{IsEnded, IsFormatted, IsMountedBy, NotMounted};
ghost use Rattle.mounting.specs.Faults.{WhyNotMounted};
ghost use Rattle.nand_model.specs.Changes.{OnlyReads};
ghost use Rattle.posix_calls.specs.PageVolumes.{pages_of};
ghost use Rattle.posix_calls.specs.Endings.{LiesOn};
ghost use Rattle.posix_calls.specs.Volumes.{over_pages};
ghost use Rattle.page_store.specs.PagesOf.{mounted_pages};

use crate::numbers::{done_number, format_number, mount_number};
use crate::way::Way;
use nand_model::Nand;
use posix_calls::{MountFault, Volume, format};
use std::alloc::Global;

/// Mounts the volume of a device in this way, with a cache of so many pages, of one at least.
fn mount_by<N: Nand + Drop>(
    alloc: Global,
    device: N,
    cache_pages: u32,
    way: Way,
) -> Result<Volume<N>, (N, MountFault)>
    ensures mounted { IfOk result (λ v. IsMountedBy way mounted_pages (N.state device) (over_pages v)) }
    ensures back { IfErr result (λ failed. OnlyReads (N.state device) (N.state failed.0)) }
    ensures fault { IfErr result (λ failed. WhyNotMounted (N.state failed.0) failed.1) }
{
    match way {
        Way::Shortest => Volume::mount_with(alloc, device, cache_pages as usize),
        Way::AllTags => Volume::mount_scanned_with(alloc, device, cache_pages as usize),
    }
}

/// Mounts the volume of a device in this way, with a cache of so many pages, of one at least. After a fault the device is given back
/// with the fault's number.
pub(crate) fn mount_device<N: Nand + Drop>(
    alloc: Global,
    device: N,
    cache_pages: u32,
    way: Way,
) -> Result<Volume<N>, (N, i32)>
    ensures mounted { IfOk result (λ v. IsMountedBy way mounted_pages (N.state device) (over_pages v)) }
    ensures fault { IfErr result (λ back. NotMounted (N.state device) (N.state back.0) back.1) }
{
    match mount_by(alloc, device, cache_pages, way) {
        Ok(volume) => Ok(volume),
        Err((device, fault)) => Err((device, mount_number(fault))),
    }
}

/// Makes a device a volume with so many spare blocks, whose root is empty: gives it back with 0, or with the number of the fault.
pub(crate) fn format_device<N: Nand + Drop>(alloc: Global, device: N, spare: u32) -> (N, i32)
    ensures { IsFormatted spare (N.state device) (N.state result.0) result.1 }
{
    match format(alloc, device, spare) {
        Ok(device) => (device, 0),
        Err((device, fault)) => (device, format_number(fault)),
    }
}

/// Commits what was accepted and gives the device up: with 0, or EIO.
pub(crate) fn end<N: Nand + Drop>(volume: Volume<N>) -> (N, i32)
    ensures { IsEnded mounted_pages (over_pages volume) (N.state result.0) result.1 }
{
    let (device, reply) = volume.unmount();
    let number = done_number(&reply);
    (device, number)
}

/// Gives the device up as it is: no call of it is made.
pub(crate) fn abandon<N: Nand + Drop>(volume: Volume<N>) -> N
    ensures { LiesOn (mounted_pages (pages_of (over_pages volume))) (N.state result) }
{
    volume.abandon()
}
