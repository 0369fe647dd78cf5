// A name that moves within its directory.
ghost use Rattle.std.specs.Prelude.{◌<◌, ◌≤◌, ◌+◌, IfOk, IfErr, IfSome};
ghost use Rattle.page_tags.specs.SlotEntry.{entry_of};
ghost use Rattle.flash_tree.specs.Slots.{IsTreeSlot};
ghost use Rattle.pages.specs.Changes.{IsChange, IsOnlyOf};
ghost use Rattle.pages.specs.Faults.{MayLackMemory, SaysWhyMaking, LooksUp};
ghost use Rattle.pages.specs.Maps.{PageMap, after_change};
ghost use Rattle.pages.specs.Sound.{OfSound};
ghost use Rattle.directories.specs.Moving.{IsMovedTo, MovesSlot, written_by, header_by, count_by};
ghost use Rattle.directories.specs.Stores.{OfSlotted, OfObject};
ghost use Rattle.directories.specs.Writes.{OnlyWrites, KeepsBehind, Shortens};

use crate::head::DirectoryHead;
use crate::lookup::Located;
use crate::removal::{cut_behind, slot_bytes};
use crate::writing::{Writing, Written, write};
use flash_tree::decode_tree_slot;
use page_tags::Slot;
use pages::{Change, PageFault, Pages};
use std::alloc::Global;
use volume_terms::SLOT_BYTES;

/// A name that moves within its directory: the number of its slot, how many slots there were, and the slot that its new name
/// has once the last one is in its place, if one has it.
#[derive(Clone, Copy)]
pub(crate) struct Moving {
    pub(crate) place: u32,
    pub(crate) before: u32,
    pub(crate) target: Option<u32>,
}

/// Where a slot that was found is once the one at a place is taken, which the last one is in then.
pub(crate) fn moved_to(found: Option<Located>, place: u32, last: u32) -> Option<u32>
    ensures { IsMovedTo found place last result }
{
    let Some(found) = found else {
        return None;
    };
    if found.place == place {
        None
    } else if found.place == last {
        Some(place)
    } else {
        Some(found.place)
    }
}

/// Moves a name: its slot is taken, and the new one is in place of the one with its name, or behind all.
pub(crate) fn move_slot<P: Pages>(
    alloc: Global,
    pages: &mut P,
    directory: u64,
    moving: Moving,
    slot: &Slot,
    head: DirectoryHead,
) -> Result<Change, PageFault>
    requires valid { IsTreeSlot (entry_of slot.now) }
    requires within { moving.place < moving.before }
    requires target { IfSome moving.target (λ number. number + 1 < moving.before) }
    ensures looks { LooksUp SaysWhyMaking (P.state pages.old) (P.state pages.new) result }
    ensures issued { (P.state pages.new).issued ≤ (P.state pages.old).issued + 3 }
    ensures change { IfOk result (λ change. IsChange change (P.state pages.old).page_bytes 3) }
    ensures only { IfOk result (λ change. IsOnlyOf change directory) }
    ensures moves { OfObject (P.state pages.old) directory (λ it. IfOk result (MovesSlot it moving (written_by moving slot.now) (header_by moving head))) }
    ensures besides { Shortens (P.state pages.old) directory moving.before (count_by moving.target moving.before) result }
    ensures fault { OfSlotted (P.state pages.old) directory moving.before (IfErr result (MayLackMemory (P.state pages.new))) }
{
    let last = moving.before - 1;
    let Some(number) = moving.target else {
        let put = Written {
            number: last,
            slot: *slot,
        };
        let counted = DirectoryHead {
            length: moving.before,
            ..head
        };
        let change = put_over(alloc, pages, directory, moving, put, counted)?;
        return Ok(change);
    };
    let slots = pages.page_bytes() / SLOT_BYTES as u32;
    let put = Written {
        number,
        slot: *slot,
    };
    let shorter = DirectoryHead {
        length: last,
        ..head
    };
    let change = put_over(alloc, pages, directory, moving, put, shorter)?;
    let cut = cut_behind(change, directory, slots, last)?;
    Ok(cut)
}

/// Writes a slot, and the last one over the one that is taken, unless this is the last one or where the slot is written.
fn put_over<P: Pages>(
    alloc: Global,
    pages: &mut P,
    directory: u64,
    moving: Moving,
    put: Written,
    head: DirectoryHead,
) -> Result<Change, PageFault>
    requires valid { IsTreeSlot (entry_of put.slot) }
    requires within { moving.place < moving.before }
    requires there { put.number < head.length }
    requires counts { moving.before ≤ head.length + 1 }
    ensures looks { LooksUp SaysWhyMaking (P.state pages.old) (P.state pages.new) result }
    ensures issued { (P.state pages.new).issued ≤ (P.state pages.old).issued + 3 }
    ensures change { IfOk result (OnlyWrites directory (P.state pages.old).page_bytes 3) }
    ensures moves { OfObject (P.state pages.old) directory (λ it. IfOk result (MovesSlot it moving put.entry head)) }
    ensures pages { OfSound (P.state pages.old) (λ z. (m : PageMap) → IfOk result (λ change. KeepsBehind z m (after_change change m) directory head.length)) }
    ensures fault { OfSlotted (P.state pages.old) directory moving.before (IfErr result (MayLackMemory (P.state pages.new))) }
{
    let last = moving.before - 1;
    if moving.place == last || moving.place == put.number {
        let alone = Writing {
            first: put,
            second: None,
            before: moving.before,
            afterwards: head.length,
        };
        return write(alloc, pages, directory, alone, head);
    }
    let bytes = slot_bytes(pages, directory, last)?;
    let Some(slot) = decode_tree_slot(&bytes) else {
        return Err(PageFault::Damaged);
    };
    let first = Written {
        number: moving.place,
        slot,
    };
    let both = Writing {
        first,
        second: Some(put),
        before: moving.before,
        afterwards: head.length,
    };
    write(alloc, pages, directory, both, head)
}
