// The removal of a slot.
ghost use Rattle.std.specs.Prelude.{◌≡◌, ◌<◌, ◌≤◌, ◌+◌, ◌^◌, ℕ, [], OnOk, IfOk, IfErr, length};
ghost use Rattle.volume_terms.specs.Sizes.{Sizes};
ghost use Rattle.pages.specs.Changes.{IsChange, IsOnlyOf};
ghost use Rattle.pages.specs.Faults.{MayLack, SaysWhy, MayLackMemory, SaysWhyMaking, LooksUp};
ghost use Rattle.pages.specs.Maps.{PageMap, after_change};
ghost use Rattle.pages.specs.State.{OnlyFinds, KeepsPower};
ghost use Rattle.directories.specs.Writes.{OnlyWrites, IsSlotBytes, KeepsBehind, LosesSlot, CutsBehind, KeepsKey, WritesHead, Shortens};
ghost use Rattle.directories.specs.Stores.{OfPages, OfSlotted, OfSlotAt};
ghost use Rattle.pages.specs.Sound.{OfSound};

use crate::head::{DirectoryHead, head_page};
use crate::page::slot_of;
use crate::writing::{Writing, Written, write};
use flash_tree::{Key, decode_tree_slot};
use pages::{Change, Cut, PageFault, Pages, load, spare_page};
use std::alloc::{AllocError, Global};
use volume_terms::SLOT_BYTES;

/// Takes a slot from a directory; the header that is given counts one slot less than there are.
pub(crate) fn remove_slot<P: Pages>(
    alloc: Global,
    pages: &mut P,
    directory: u64,
    place: u32,
    shorter: DirectoryHead,
) -> Result<Change, PageFault>
    requires within { place ≤ shorter.length }
    requires fits { shorter.length + 1 < 2 ^ 32 }
    ensures looks { LooksUp SaysWhyMaking (P.state pages.old) (P.state pages.new) result }
    ensures issued { (P.state pages.new).issued ≤ (P.state pages.old).issued + 2 }
    ensures change { IfOk result (λ change. IsChange change (P.state pages.old).page_bytes 2) }
    ensures only { IfOk result (λ change. IsOnlyOf change directory) }
    ensures removes { OfPages (P.state pages.old) (λ z old. IfOk result (λ change. LosesSlot z old change directory shorter place)) }
    ensures besides { Shortens (P.state pages.old) directory (shorter.length + 1) shorter.length result }
    ensures fault { OfSlotted (P.state pages.old) directory (shorter.length + 1) (IfErr result (MayLackMemory (P.state pages.new))) }
{
    let slots = pages.page_bytes() / SLOT_BYTES as u32;
    let change = shorten(alloc, pages, directory, place, shorter)?;
    let cut = cut_behind(change, directory, slots, shorter.length)?;
    Ok(cut)
}

/// Writes the header of a directory that has one slot less, and the last slot over the one at a place.
fn shorten<P: Pages>(
    alloc: Global,
    pages: &mut P,
    directory: u64,
    place: u32,
    shorter: DirectoryHead,
) -> Result<Change, PageFault>
    requires within { place ≤ shorter.length }
    requires fits { shorter.length + 1 < 2 ^ 32 }
    ensures looks { LooksUp SaysWhyMaking (P.state pages.old) (P.state pages.new) result }
    ensures issued { (P.state pages.new).issued ≤ (P.state pages.old).issued + 2 }
    ensures change { IfOk result (OnlyWrites directory (P.state pages.old).page_bytes 2) }
    ensures shortens { OfPages (P.state pages.old) (λ z old. IfOk result (λ change. LosesSlot z old change directory shorter place)) }
    ensures pages { OfSound (P.state pages.old) (λ z. (m : PageMap) → IfOk result (λ change. KeepsBehind z m (after_change change m) directory shorter.length)) }
    ensures fault { OfSlotted (P.state pages.old) directory (shorter.length + 1) (IfErr result (MayLackMemory (P.state pages.new))) }
{
    if place < shorter.length {
        fill(alloc, pages, directory, place, shorter)
    } else {
        let frame = spare_page(alloc, pages)?;
        Ok(head_change(alloc, frame, directory, shorter)?)
    }
}

/// Cuts the pages of a directory behind those that have one of so many slots, where the last slot was alone in its
/// page.
pub(crate) fn cut_behind(
    mut change: Change,
    directory: u64,
    slots: u32,
    length: u32,
) -> Result<Change, AllocError>
    requires not_empty { 1 ≤ slots }
    requires uncut { change.cuts.items ≡ [] }
    ensures pages { IfOk result (λ cut. cut.pages.items ≡ change.pages.items) }
    ensures cuts { IfOk result (CutsBehind directory slots length) }
{
    if length % slots != 0 {
        return Ok(change);
    }
    let cut = Cut {
        object: directory,
        from: 1 + u64::from(length / slots),
    };
    change.cuts.push(cut)?;
    Ok(change)
}

/// Writes the last slot over the one at a place.
fn fill<P: Pages>(
    alloc: Global,
    pages: &mut P,
    directory: u64,
    place: u32,
    shorter: DirectoryHead,
) -> Result<Change, PageFault>
    requires within { place < shorter.length }
    requires fits { shorter.length + 1 < 2 ^ 32 }
    ensures looks { LooksUp SaysWhyMaking (P.state pages.old) (P.state pages.new) result }
    ensures issued { (P.state pages.new).issued ≤ (P.state pages.old).issued + 2 }
    ensures change { IfOk result (OnlyWrites directory (P.state pages.old).page_bytes 2) }
    ensures fills { OfPages (P.state pages.old) (λ z old. IfOk result (λ change. LosesSlot z old change directory shorter place)) }
    ensures pages { OfSound (P.state pages.old) (λ z. (m : PageMap) → IfOk result (λ change. KeepsBehind z m (after_change change m) directory shorter.length)) }
    ensures fault { OfSlotted (P.state pages.old) directory (shorter.length + 1) (IfErr result (MayLackMemory (P.state pages.new))) }
{
    let bytes = slot_bytes(pages, directory, shorter.length)?;
    let Some(last) = decode_tree_slot(&bytes) else {
        return Err(PageFault::Damaged);
    };
    let first = Written {
        number: place,
        slot: last,
    };
    let writing = Writing {
        first,
        second: None,
        before: shorter.length + 1,
        afterwards: shorter.length,
    };
    write(alloc, pages, directory, writing, shorter)
}

/// The bytes of a slot of a directory.
pub(crate) fn slot_bytes<P: Pages>(
    pages: &mut P,
    directory: u64,
    number: u32,
) -> Result<[u8; SLOT_BYTES], PageFault>
    ensures lookups { OnlyFinds (P.state pages.old) (P.state pages.new) }
    ensures issued { (P.state pages.new).issued ≤ (P.state pages.old).issued + 1 }
    ensures power { OnOk result (KeepsPower (P.state pages.old) (P.state pages.new)) }
    ensures reported { OfPages (P.state pages.old) (λ z old. IfOk result (IsSlotBytes z old directory number)) }
    ensures why { IfErr result (SaysWhy (P.state pages.old) (P.state pages.new)) }
    ensures fault { OfSlotAt (P.state pages.old) directory number (IfErr result (MayLack (P.state pages.old) (P.state pages.new))) }
{
    let slots = pages.page_bytes() / SLOT_BYTES as u32;
    let key = Key {
        object: directory,
        chunk: 1 + u64::from(number / slots),
    };
    load(pages, key)?;
    let mut bytes = [0; SLOT_BYTES];
    bytes.copy_from_slice(slot_of(pages.page(), number % slots));
    Ok(bytes)
}

/// The change of a directory's header alone, written over a frame.
fn head_change(
    alloc: Global,
    frame: Vec<u8>,
    directory: u64,
    head: DirectoryHead,
) -> Result<Change, AllocError>
    requires least { 32 ≤ length frame.items }
    requires most { length frame.items ≤ 4096 }
    ensures change { IfOk result (OnlyWrites directory (length frame.items) 2) }
    ensures writes { (z : Sizes) (old : PageMap) → z.page_bytes ≡ length frame.items → IfOk result (WritesHead z old directory head) }
    ensures pages { (m : PageMap) (c : ℕ) → 1 ≤ c → IfOk result (KeepsKey m directory c) }
{
    let pages = vec![in alloc; head_page(frame, directory, head)]?;
    Ok(Change {
        pages,
        cuts: Vec::new(alloc),
    })
}
