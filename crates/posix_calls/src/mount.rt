// The mount of a volume.
ghost use Rattle.std.specs.Prelude.{◌≡◌, IfOk, IfErr};
ghost use Rattle.nand_model.specs.Changes.{OnlyReads};
ghost use Rattle.nand_model.specs.TrustedParts.{inner_of};
ghost use Rattle.page_store.specs.FlashParts.{device_in};
ghost use Rattle.mounting.specs.Faults.{WhyNotMounted};
ghost use Rattle.page_store.specs.PagesOf.{mounted_pages};

use crate::joining::join;
use crate::volume::Volume;
use command_plans::table::DescriptorTable;
use mounting::{MountFault, Mounted, unmounted};
use nand_model::{Nand, TrustedNand};
use paged_objects::PagedObjects;
use std::alloc::Global;
use std::num::NonZeroUsize;

impl<N: Nand> Volume<N> {
    ghost use Rattle.posix_calls.specs.Mounts.{IsMounted, IsMountedByScan, IsOver, LieAsScanned};
    ghost use Rattle.posix_calls.specs.Volumes.{over_pages};

    /// Mounts the volume on a device, with a cache of 16 pages: by its checkpoint, where one is whole and its entries lead to a tree;
    /// without one by the summaries of its blocks, where these do; and else by a scan of all pages. It only reads; after a fault the
    /// device is given back.
    pub fn mount(alloc: Global, device: N) -> Result<Volume<N>, (N, MountFault)>
        ensures mounted { IfOk result (λ v. IsMounted mounted_pages (N.state device) (over_pages v)) }
        ensures placed { IfOk result (λ v. LieAsScanned mounted_pages (over_pages v)) }
        ensures back { IfErr result (λ failed. OnlyReads (N.state device) (N.state failed.0)) }
        ensures fault { IfErr result (λ failed. WhyNotMounted (N.state failed.0) failed.1) }
    {
        Volume::mount_with(alloc, device, 16)
    }

    /// Mounts the volume on a device as `mount` does, with a cache of so many pages, of one at least.
    pub fn mount_with(
        alloc: Global,
        device: N,
        capacity: usize,
    ) -> Result<Volume<N>, (N, MountFault)>
        ensures mounted { IfOk result (λ v. IsMounted mounted_pages (N.state device) (over_pages v)) }
        ensures placed { IfOk result (λ v. LieAsScanned mounted_pages (over_pages v)) }
        ensures back { IfErr result (λ failed. OnlyReads (N.state device) (N.state failed.0)) }
        ensures fault { IfErr result (λ failed. WhyNotMounted (N.state failed.0) failed.1) }
    {
        let capacity = NonZeroUsize::new(capacity).unwrap_or(NonZeroUsize::MIN);
        let mounted = mounting::mount(alloc, device, capacity)?;
        Volume::over_mounted(alloc, mounted)
    }

    /// Mounts the volume on a device as `mount` does, but always by a scan of all pages: for a device that another program than this
    /// file system may have written.
    pub fn mount_scanned(alloc: Global, device: N) -> Result<Volume<N>, (N, MountFault)>
        ensures mounted { IfOk result (λ v. IsMountedByScan mounted_pages (N.state device) (over_pages v)) }
        ensures placed { IfOk result (λ v. LieAsScanned mounted_pages (over_pages v)) }
        ensures back { IfErr result (λ failed. OnlyReads (N.state device) (N.state failed.0)) }
        ensures fault { IfErr result (λ failed. WhyNotMounted (N.state failed.0) failed.1) }
    {
        Volume::mount_scanned_with(alloc, device, 16)
    }

    /// Mounts the volume on a device as `mount_scanned` does, with a cache of so many pages, of one at least.
    pub fn mount_scanned_with(
        alloc: Global,
        device: N,
        capacity: usize,
    ) -> Result<Volume<N>, (N, MountFault)>
        ensures mounted { IfOk result (λ v. IsMountedByScan mounted_pages (N.state device) (over_pages v)) }
        ensures placed { IfOk result (λ v. LieAsScanned mounted_pages (over_pages v)) }
        ensures back { IfErr result (λ failed. OnlyReads (N.state device) (N.state failed.0)) }
        ensures fault { IfErr result (λ failed. WhyNotMounted (N.state failed.0) failed.1) }
    {
        let capacity = NonZeroUsize::new(capacity).unwrap_or(NonZeroUsize::MIN);
        let mounted = mounting::mount_scanned(alloc, device, capacity)?;
        Volume::over_mounted(alloc, mounted)
    }

    /// The volume over what a mount gave, with no descriptor open. Where memory is refused the device is given back.
    fn over_mounted(
        alloc: Global,
        mounted: Mounted<TrustedNand<N>>,
    ) -> Result<Volume<N>, (N, MountFault)>
        ensures over { IfOk result (λ v. IsOver mounted_pages mounted (over_pages v)) }
        ensures back { IfErr result (λ failed. OnlyReads (N.state (inner_of (device_in mounted.pages))) (N.state failed.0)) }
        ensures fault { IfErr result (λ failed. WhyNotMounted (N.state failed.0) failed.1) }
    {
        let Mounted {
            pages,
            table,
            names,
            read_only,
        } = mounted;
        match DescriptorTable::new(alloc) {
            Ok(descriptors) => {
                let objects = PagedObjects::new(alloc, pages, table, names);
                let volume = join(alloc, objects, descriptors, read_only);
                Ok(Volume { volume })
            }
            Err(_) => Err(unmounted(pages.into_device().into_inner(), MountFault::NoMemory)),
        }
    }
}
