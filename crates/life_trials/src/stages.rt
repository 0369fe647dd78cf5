// A volume that was just formatted.
use crate::judging::Stage;
use anyhow::{Result, anyhow};
use nand_model::{Geometry, MemNand};
use plain_volume::PlainTree;
use posix_calls::format;
use std::alloc::Global;
use volume_terms::VolumeSizes;

/// Eight blocks of 32 pages of 512 bytes, one of them spare, and the tree of the root alone.
pub(crate) fn new_stage(alloc: Global) -> Result<Stage> {
    let Ok(geometry) = Geometry::new(512, 32, 8) else {
        return Err(anyhow!("the sizes are out of range"));
    };
    match format(alloc, MemNand::new(alloc, geometry)?, 1) {
        Ok(device) => Ok(Stage {
            device,
            tree: PlainTree::new(alloc, VolumeSizes::new(512, 32, 8, 1))?,
        }),
        Err((_device, fault)) => Err(anyhow!("no format: {fault:?}")),
    }
}
