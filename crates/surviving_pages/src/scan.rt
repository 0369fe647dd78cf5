// The newest pages of a device that survive.
ghost use Rattle.std.specs.Prelude.{◌≡◌, ◌+◌, ◌<◌, true, IfOk, OnOk};
ghost use Rattle.mount_scan.specs.Listed.{listed};
ghost use Rattle.mount_scan.specs.Scanned.{ReadsBlock, ReadsBlocks};
ghost use Rattle.surviving_pages.specs.Latest.{LieBelow, MayBeIndexed, AreNewestOf};
ghost use Rattle.surviving_pages.specs.Lost.{ListsLost, AddsLostOfBlock};
ghost use Rattle.surviving_pages.specs.Surviving.{IsSurvivor, KeepsSurvivors};

use crate::block::{list_survivors, read_tags};
use crate::lost::list_lost;
use crate::survivors::LostPlace;
use flash_tree::Found;
use mount_scan::{FoundPages, ScanFault};
use nand_model::Nand;
use page_tags::Tag;
use std::alloc::Global;

/// Adds the pages of a block that survive to those that were found, and the places of those that are lost to `lost`. Its tags are read
/// into `tags`, and the pages that survive are listed in `survivors`.
fn add_block<N: Nand>(
    device: &mut N,
    block: u32,
    tags: &mut Vec<Option<Tag>>,
    survivors: &mut Vec<Found>,
    found: &mut FoundPages,
    lost: &mut Vec<LostPlace>,
) -> Result<(), ScanFault>
    requires { block < (N.state device.old).geometry.blocks }
    ensures reads { ReadsBlock block (N.state device.old) (N.state device.new) result }
    ensures placed { LieBelow (N.state device.old).geometry.pages block (listed found.old)
        → OnOk result (LieBelow (N.state device.old).geometry.pages (block + 1) (listed found.new)) }
    ensures latest { KeepsSurvivors (N.state device.old) block (listed found.old) (listed found.new) result }
    ensures lost { (N.state device.old).honest ≡ true → OnOk result (AddsLostOfBlock (N.state device.old).flash block lost.old.items lost.new.items) }
{
    if device.is_bad(block) {
        return Ok(());
    }
    read_tags(device, block, tags)?;
    list_survivors(block, tags, survivors)?;
    found.add_all(survivors)?;
    list_lost(block, tags, lost)?;
    Ok(())
}

/// The newest page of each key that survives, of chunks that a tree may look up, and the places of the pages that are lost. Each tag of
/// a good block is read once.
pub(crate) fn find_survivors<N: Nand>(
    alloc: Global,
    device: &mut N,
) -> Result<(FoundPages, Vec<LostPlace>), ScanFault>
    ensures reads { ReadsBlocks (N.state device.old) (N.state device.new) result }
    ensures listed { IfOk result (λ found. MayBeIndexed (N.state device.old).geometry (listed found.0)) }
    ensures newest { (N.state device.old).honest ≡ true → IfOk result (λ found. AreNewestOf (IsSurvivor (N.state device.old).flash) (listed found.0)) }
    ensures lost { (N.state device.old).honest ≡ true → IfOk result (λ found. ListsLost (N.state device.old).flash found.1.items) }
{
    let mut tags = Vec::new(alloc);
    let mut survivors = Vec::new(alloc);
    let mut found = FoundPages::new(alloc)?;
    let mut lost = Vec::new(alloc);
    for block in 0..device.geometry().blocks() {
        add_block(
            device,
            block,
            &mut tags,
            &mut survivors,
            &mut found,
            &mut lost,
        )?;
    }
    found.keep_newest();
    Ok((found, lost))
}
