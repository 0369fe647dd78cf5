// The newest page of a key, and the greatest numbers of a flash.
ghost use Rattle.std.specs.Prelude.{◌≡◌, ◌+◌, ◌<◌, ◌↔◌, true, false, IsTrue, IfOk, IfSome, IfNone, OnErr};
ghost use Rattle.nand_model.specs.Changes.{OnlyReads};
ghost use Rattle.flash_tree.specs.Newest.{Spot, Holds, IsAfter, IsNewest, AreGreatest};
ghost use Rattle.flash_tree.specs.Places.{spot_of, numbers_of};
ghost use Rattle.test_devices.specs.Searching.{IsBest, IsBetter, IsPlaced, AreRaised, AreGreatestBefore};

use crate::group::held_at;
use flash_tree::{Found, Key, TagNumbers, tag_at};
use nand_model::{Gone, Nand};
use page_tags::Tag;

/// Whether one page comes after another: by version, then by seq, page and block.
fn is_after(found: &Found, before: &Found) -> bool
    ensures { IsTrue result ↔ IsAfter (spot_of found.now) (spot_of before.now) }
{
    let (new, old) = (&found.tag, &before.tag);
    if new.version != old.version {
        new.version > old.version
    } else if new.seq != old.seq {
        new.seq > old.seq
    } else if found.page != before.page {
        found.page > before.page
    } else {
        found.block > before.block
    }
}

/// Whether a page takes the place of the best before it.
fn is_better(found: &Found, best: &Option<Found>) -> bool
    ensures { IsTrue result ↔ IsBetter found.now best.now }
{
    match best {
        None => true,
        Some(before) => is_after(found, before),
    }
}

/// The best of the pages up to this one, from the best of those before it.
fn newest_at<N: Nand>(
    device: &mut N,
    key: Key,
    block: u32,
    page: u32,
    best: Option<Found>,
) -> Result<Option<Found>, Gone>
    requires block { block < (N.state device.old).geometry.blocks }
    requires page { page < (N.state device.old).geometry.pages }
    requires good { (N.state device.old).flash.bad block ≡ false }
    requires placed { IsPlaced (N.state device.old).geometry.blocks (N.state device.old).geometry.pages best }
    ensures reads { OnlyReads (N.state device.old) (N.state device.new) }
    ensures gone { OnErr result ((N.state device.new).gone ≡ true) }
    ensures placed { IfOk result (IsPlaced (N.state device.old).geometry.blocks (N.state device.old).geometry.pages) }
    ensures best { (N.state device.old).honest ≡ true → IsBest (N.state device.old).flash key.object key.chunk block page best
        → IfOk result (IsBest (N.state device.old).flash key.object key.chunk block (page + 1)) }
{
    let Some(found) = held_at(device, key, block, page)? else {
        return Ok(best);
    };
    Ok(if is_better(&found, &best) {
        Some(found)
    } else {
        best
    })
}

/// The best of the pages up to the end of this block, from the best of those before it.
fn newest_in<N: Nand>(
    device: &mut N,
    key: Key,
    block: u32,
    best: Option<Found>,
) -> Result<Option<Found>, Gone>
    requires block { block < (N.state device.old).geometry.blocks }
    requires placed { IsPlaced (N.state device.old).geometry.blocks (N.state device.old).geometry.pages best }
    ensures reads { OnlyReads (N.state device.old) (N.state device.new) }
    ensures gone { OnErr result ((N.state device.new).gone ≡ true) }
    ensures placed { IfOk result (IsPlaced (N.state device.old).geometry.blocks (N.state device.old).geometry.pages) }
    ensures best { (N.state device.old).honest ≡ true → IsBest (N.state device.old).flash key.object key.chunk block 0 best
        → IfOk result (IsBest (N.state device.old).flash key.object key.chunk (block + 1) 0) }
{
    let mut best = best;
    if device.is_bad(block) {
        return Ok(best);
    }
    for page in 0..device.geometry().pages() {
        best = newest_at(device, key, block, page, best)?;
    }
    Ok(best)
}

/// The newest page of the key among those that count. It reads tags alone.
///
/// A device that is not honest may answer any place that it has.
pub fn newest<N: Nand>(device: &mut N, key: Key) -> Result<Option<Found>, Gone>
    ensures reads { OnlyReads (N.state device.old) (N.state device.new) }
    ensures gone { OnErr result ((N.state device.new).gone ≡ true) }
    ensures range { IfOk result (λ found. IfSome found (λ found.
        (found.block < (N.state device.old).geometry.blocks) × (found.page < (N.state device.old).geometry.pages))) }
    ensures found { (N.state device.old).honest ≡ true → IfOk result (λ found. IfSome found (λ found.
        IsNewest (N.state device.old).flash key.object key.chunk (spot_of found))) }
    ensures none { (N.state device.old).honest ≡ true → IfOk result (λ found. IfNone found
        ((s : Spot) → Holds (N.state device.old).flash key.object key.chunk s → ⊥)) }
{
    let mut best = None;
    for block in 0..device.geometry().blocks() {
        best = newest_in(device, key, block, best)?;
    }
    Ok(best)
}

/// The numbers, raised to those of a tag.
fn raised(numbers: TagNumbers, tag: &Tag) -> TagNumbers
    ensures { AreRaised (numbers_of numbers) tag.now (numbers_of result) }
{
    TagNumbers {
        version: numbers.version.max(tag.version),
        group: numbers.group.max(tag.group),
        seq: numbers.seq.max(tag.seq),
    }
}

/// The greatest numbers of the pages up to this one, from those of the pages before it.
fn greatest_at<N: Nand>(
    device: &mut N,
    block: u32,
    page: u32,
    numbers: TagNumbers,
) -> Result<TagNumbers, Gone>
    requires block { block < (N.state device.old).geometry.blocks }
    requires page { page < (N.state device.old).geometry.pages }
    requires good { (N.state device.old).flash.bad block ≡ false }
    ensures reads { OnlyReads (N.state device.old) (N.state device.new) }
    ensures gone { OnErr result ((N.state device.new).gone ≡ true) }
    ensures greatest { (N.state device.old).honest ≡ true → AreGreatestBefore (N.state device.old).flash block page (numbers_of numbers)
        → IfOk result (λ numbers. AreGreatestBefore (N.state device.old).flash block (page + 1) (numbers_of numbers)) }
{
    match tag_at(device, block, page)? {
        None => Ok(numbers),
        Some(tag) => Ok(raised(numbers, &tag)),
    }
}

/// The greatest numbers of the pages up to the end of this block, from those of the pages before it.
fn greatest_in<N: Nand>(device: &mut N, block: u32, numbers: TagNumbers) -> Result<TagNumbers, Gone>
    requires block { block < (N.state device.old).geometry.blocks }
    ensures reads { OnlyReads (N.state device.old) (N.state device.new) }
    ensures gone { OnErr result ((N.state device.new).gone ≡ true) }
    ensures greatest { (N.state device.old).honest ≡ true → AreGreatestBefore (N.state device.old).flash block 0 (numbers_of numbers)
        → IfOk result (λ numbers. AreGreatestBefore (N.state device.old).flash (block + 1) 0 (numbers_of numbers)) }
{
    let mut numbers = numbers;
    if device.is_bad(block) {
        return Ok(numbers);
    }
    for page in 0..device.geometry().pages() {
        numbers = greatest_at(device, block, page, numbers)?;
    }
    Ok(numbers)
}

/// The greatest numbers of all valid tags of good blocks, of pages that count and of those that don't. It reads tags
/// alone.
pub fn greatest<N: Nand>(device: &mut N) -> Result<TagNumbers, Gone>
    ensures reads { OnlyReads (N.state device.old) (N.state device.new) }
    ensures gone { OnErr result ((N.state device.new).gone ≡ true) }
    ensures greatest { (N.state device.old).honest ≡ true
        → IfOk result (λ numbers. AreGreatest (N.state device.old).flash (numbers_of numbers)) }
{
    let mut numbers = TagNumbers {
        version: 0,
        group: 0,
        seq: 0,
    };
    for block in 0..device.geometry().blocks() {
        numbers = greatest_in(device, block, numbers)?;
    }
    Ok(numbers)
}
