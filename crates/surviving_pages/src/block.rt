// The pages of a block that survive, by its tags.
ghost use Rattle.std.specs.Prelude.{◌≡◌, ◌<◌, ◌≤◌, true, OnOk, length};
ghost use Rattle.flash_tree.specs.Places.{spot_of};
ghost use Rattle.mount_scan.specs.Blocks.{AreTags};
ghost use Rattle.mount_scan.specs.Scanned.{ReadsEach};
ghost use Rattle.surviving_pages.specs.Surviving.{last_page};
ghost use Rattle.surviving_pages.specs.Tagged.{IsEndOfTags, AddsSurvivor, ListsSurvivors};

use flash_tree::{Found, tag_at};
use mount_scan::ScanFault;
use nand_model::Nand;
use page_tags::Tag;
use std::alloc::AllocError;

/// Reads the tags of a block, page by page, into a list that is emptied first.
pub(crate) fn read_tags<N: Nand>(
    device: &mut N,
    block: u32,
    tags: &mut Vec<Option<Tag>>,
) -> Result<(), ScanFault>
    requires { block < (N.state device.old).geometry.blocks }
    ensures reads { ReadsEach (N.state device.old).geometry.pages (N.state device.old) (N.state device.new) result }
    ensures len { OnOk result (length tags.new.items ≡ (N.state device.old).geometry.pages) }
    ensures within_limit { OnOk result (length tags.new.items ≤ 256) }
    ensures tags { (N.state device.old).honest ≡ true → OnOk result (AreTags (N.state device.old).flash block tags.new.items) }
{
    tags.clear();
    for page in 0..device.geometry().pages() {
        let tag = tag_at(device, block, page)?;
        tags.push(tag)?;
    }
    Ok(())
}

/// The end of the pages that are written: behind the last page that has a tag, and 0 where none has.
pub(crate) fn end_of_tags(tags: &[Option<Tag>]) -> usize
    ensures end { IsEndOfTags tags.now result }
    ensures within { result ≤ length tags.now }
{
    let mut end = 0;
    for page in 0..tags.len() {
        if tags[page].is_some() {
            end = page + 1;
        }
    }
    end
}

/// The last page of the group that the tag of a page names.
fn last_page(found: &Found) -> usize
    ensures { result ≡ last_page (spot_of found.now) }
{
    let tag = &found.tag;
    let behind = tag.count.saturating_sub(1).saturating_sub(tag.index);
    found.page as usize + behind as usize
}

/// Adds a page if it survives. `end` is where the pages of the block end that are written.
fn add_survivor(
    block: u32,
    tags: &[Option<Tag>],
    page: usize,
    end: usize,
    survivors: &mut Vec<Found>,
) -> Result<(), AllocError>
    requires within_limit { length tags.now ≤ 256 }
    requires page { page < length tags.now }
    requires end { IsEndOfTags tags.now end }
    ensures { OnOk result (AddsSurvivor block tags.now page survivors.old.items survivors.new.items) }
{
    let Some(tag) = tags[page] else {
        return Ok(());
    };
    let page = page as u32;
    let found = Found { block, page, tag };
    if last_page(&found) < end {
        survivors.push(found)?;
    }
    Ok(())
}

/// Lists the pages of a block that survive, by its tags, in a list that is emptied first.
pub(crate) fn list_survivors(
    block: u32,
    tags: &[Option<Tag>],
    survivors: &mut Vec<Found>,
) -> Result<(), AllocError>
    requires { length tags.now ≤ 256 }
    ensures { OnOk result (ListsSurvivors block tags.now (length tags.now) survivors.new.items) }
{
    survivors.clear();
    let end = end_of_tags(tags);
    for page in 0..tags.len() {
        add_survivor(block, tags, page, end, survivors)?;
    }
    Ok(())
}
