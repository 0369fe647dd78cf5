// Whether a page counts.
ghost use Rattle.std.specs.Prelude.{◌≡◌, ◌≤◌, ◌<◌, ◌↔◌, true, false, IsTrue, IfOk, IfSome, OnErr};
ghost use Rattle.nand_model.specs.Changes.{OnlyReads};
ghost use Rattle.flash_tree.specs.Groups.{IsPart, IsGroup};
ghost use Rattle.flash_tree.specs.Places.{spot_of, group_of};
ghost use Rattle.test_devices.specs.Searching.{IsPartTag, IsHeldAt};

use flash_tree::{Found, Key, tag_at};
use nand_model::{Gone, Nand};
use page_tags::Tag;

/// Whether a tag is the one of page `i` of the group that another tag names.
fn is_part_tag(tag: &Tag, member: &Tag, i: u32) -> bool
    ensures { IsTrue result ↔ IsPartTag tag.now member.now i }
{
    tag.index == i
        && tag.count == member.count
        && tag.group == member.group
        && tag.seq == member.seq
}

/// Whether page `i` of the group that this page names is there.
fn is_part<N: Nand>(device: &mut N, member: &Found, i: u32) -> Result<bool, Gone>
    requires block { member.now.block < (N.state device.old).geometry.blocks }
    requires page { member.now.page < (N.state device.old).geometry.pages }
    requires start { member.now.tag.index ≤ member.now.page }
    ensures reads { OnlyReads (N.state device.old) (N.state device.new) }
    ensures gone { OnErr result ((N.state device.new).gone ≡ true) }
    ensures part { (N.state device.old).honest ≡ true
        → IfOk result (λ there. IsTrue there ↔ IsPart (N.state device.old).flash (group_of (spot_of member.now)) i) }
{
    let start = member.page - member.tag.index;
    if i >= device.geometry().pages() - start {
        return Ok(false);
    }
    match tag_at(device, member.block, start + i)? {
        None => Ok(false),
        Some(tag) => Ok(is_part_tag(&tag, &member.tag, i)),
    }
}

/// Whether the group that this page names is whole.
fn is_whole<N: Nand>(device: &mut N, member: &Found) -> Result<bool, Gone>
    requires block { member.now.block < (N.state device.old).geometry.blocks }
    requires page { member.now.page < (N.state device.old).geometry.pages }
    requires good { (N.state device.old).flash.bad member.now.block ≡ false }
    requires start { member.now.tag.index ≤ member.now.page }
    requires not_empty { 1 ≤ member.now.tag.count }
    ensures reads { OnlyReads (N.state device.old) (N.state device.new) }
    ensures gone { OnErr result ((N.state device.new).gone ≡ true) }
    ensures whole { (N.state device.old).honest ≡ true
        → IfOk result (λ whole. IsTrue whole ↔ IsGroup (N.state device.old).flash (group_of (spot_of member.now))) }
{
    for i in 0..member.tag.count {
        if !is_part(device, member, i)? {
            return Ok(false);
        }
    }
    Ok(true)
}

/// What a page holds of a key, if it counts and is of that key.
pub(crate) fn held_at<N: Nand>(
    device: &mut N,
    key: Key,
    block: u32,
    page: u32,
) -> Result<Option<Found>, Gone>
    requires block { block < (N.state device.old).geometry.blocks }
    requires page { page < (N.state device.old).geometry.pages }
    requires good { (N.state device.old).flash.bad block ≡ false }
    ensures reads { OnlyReads (N.state device.old) (N.state device.new) }
    ensures gone { OnErr result ((N.state device.new).gone ≡ true) }
    ensures place { IfOk result (λ held. IfSome held (λ found. (found.block ≡ block) × (found.page ≡ page))) }
    ensures held { (N.state device.old).honest ≡ true → IfOk result (IsHeldAt (N.state device.old).flash key.object key.chunk block page) }
{
    let Some(tag) = tag_at(device, block, page)? else {
        return Ok(None);
    };
    if tag.object != key.object || tag.chunk != key.chunk || tag.index > page {
        return Ok(None);
    }
    let found = Found { block, page, tag };
    let whole = is_whole(device, &found)?;
    Ok(if whole { Some(found) } else { None })
}
