// A flash of which no more blocks are free than are to spare, and one for a collection.

use anyhow::{Result, anyhow};
use nand_model::{Geometry, MemNand};
use page_tags::Tag;
use std::alloc::Global;
use test_devices::TestFlash;

const BYTES: u32 = 2048;

/// The pages of a block, and of a group.
pub(crate) const PAGES: u32 = 64;

const GROUP: u32 = 8;

const BLOCKS: u32 = 64;

/// The blocks to spare. These and one more are free.
pub(crate) const SPARE: u32 = 3;

const WRITTEN: u32 = BLOCKS - SPARE - 1;

/// The tag of a page. Block `b` has the pages of object `b + 1`; but block 1 has newer pages of object 1 from chunk `committed`
/// on, so that block 0 keeps no more than those before.
fn tag(block: u32, page: u32, committed: u32) -> Tag {
    let group = 1 + block as u64 * 8 + (page / GROUP) as u64;
    let object = if block == 1 && page >= committed {
        1
    } else {
        1 + block as u64
    };
    Tag {
        index: page % GROUP,
        count: GROUP,
        object,
        chunk: page as u64,
        version: group,
        group,
        seq: 1 + block as u64,
    }
}

/// A flash whose block 0 keeps so many pages, and all other written blocks all of theirs, after a power-up.
pub(crate) fn full_flash(alloc: Global, committed: u32) -> Result<MemNand> {
    let Ok(geometry) = Geometry::new(BYTES, PAGES, BLOCKS) else {
        return Err(anyhow!("the sizes are out of range"));
    };
    let mut flash = TestFlash::new(alloc, geometry)?;
    for block in 0..WRITTEN {
        for page in 0..PAGES {
            if flash.write(block, &tag(block, page, committed), 7).is_err() {
                return Err(anyhow!("a page was not written"));
            }
        }
    }
    let mut nand = flash.into_nand();
    nand.power_up();
    Ok(nand)
}
