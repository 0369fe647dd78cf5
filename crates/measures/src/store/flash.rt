// Flashes in memory, written in turn, without a store.

use anyhow::{Result, anyhow};
use flash_tree::Key;
use nand_model::{Geometry, MemNand};
use page_tags::Tag;
use rand_core::utils::NextWord;
use rand_pcg::Pcg32;
use std::alloc::Global;
use test_devices::TestFlash;

/// The bytes of a page, the pages of a block, and those of a group.
pub(crate) const BYTES: u32 = 512;

pub(crate) const PAGES: u32 = 64;

pub(crate) const GROUP: u32 = 16;

/// The blocks to spare.
pub(crate) const SPARE: u32 = 3;

/// How many keys there are: half as many as pages.
pub(crate) fn keys_of(blocks: u32) -> u64 {
    blocks as u64 * PAGES as u64 / 2
}

/// The key of a number. An object has 16 chunks.
pub(crate) fn key_of(number: u64) -> Key {
    Key {
        object: 1 + number / 16,
        chunk: number % 16,
    }
}

/// The tag of a page with the key of this number, on a flash that is written in turn.
fn tag(block: u32, page: u32, number: u64) -> Tag {
    let Key { object, chunk } = key_of(number);
    let group = 1 + (block as u64 * PAGES as u64 + page as u64) / GROUP as u64;
    Tag {
        index: page % GROUP,
        count: GROUP,
        object,
        chunk,
        version: group,
        group,
        seq: 1 + block as u64,
    }
}

/// A flash of so many blocks, of which so many are written, after a power-up. In the first half of the blocks each key comes
/// once, and then keys come at random.
pub(crate) fn written(alloc: Global, blocks: u32, count: u32) -> Result<MemNand> {
    let Ok(geometry) = Geometry::new(BYTES, PAGES, blocks) else {
        return Err(anyhow!("the number of blocks is out of range"));
    };
    let keys = keys_of(blocks).max(1);
    let mut random = Pcg32::new(1, 54);
    let mut flash = TestFlash::new(alloc, geometry)?;
    for block in 0..count.min(blocks) {
        for page in 0..PAGES {
            let number = if block < blocks / 2 {
                (block as u64 * PAGES as u64 + page as u64) % keys
            } else {
                u64::from(random.next_word()) % keys
            };
            if flash.write(block, &tag(block, page, number), 7).is_err() {
                return Err(anyhow!("a page was not written"));
            }
        }
    }
    let mut nand = flash.into_nand();
    nand.power_up();
    Ok(nand)
}
