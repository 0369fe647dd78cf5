// The addition of a name.
ghost use Rattle.std.specs.Prelude.{◌≤◌, ◌+◌, OnOk, IfOk, IfErr};
ghost use Rattle.page_tags.specs.SlotEntry.{entry_of};
ghost use Rattle.flash_tree.specs.Slots.{IsTreeSlot};
ghost use Rattle.pages.specs.Changes.{IsChange, IsOnlyOf};
ghost use Rattle.directories.specs.Directories.{HasBeside, ReportsEnd};
ghost use Rattle.pages.specs.Faults.{SaysWhyChanging, LooksUp};
ghost use Rattle.directories.specs.Faults.{MayLackRoom, MayLackRoomIn};
ghost use Rattle.directories.specs.SlotLists.{IsPushed, Rewrites};
ghost use Rattle.directories.specs.Changing.{with_slot, AddsSlot, IsNew, OfDir, Makes};
ghost use Rattle.directories.specs.Stores.{OfPages, OfSlotted, OfObject};
ghost use Rattle.directories.specs.Writes.{OnlyWrites, WritesIn, WritesPages, pushing, longer};
ghost use Rattle.pages.specs.Sound.{OfSound};

use crate::head::{DirectoryHead, read_head};
use crate::writing::{Writing, Written, write};
use page_tags::Slot;
use pages::{Change, PageFault, Pages};
use std::alloc::Global;

/// The change that adds a name to a directory: the page of its slot, and the directory's header.
///
/// The name must not be there yet. `Full` is answered where the header can count no further entry.
pub fn add<P: Pages>(
    alloc: Global,
    pages: &mut P,
    directory: u64,
    slot: &Slot,
    moment: u64,
) -> Result<Change, PageFault>
    requires { IsTreeSlot (entry_of slot.now) }
    ensures looks { LooksUp SaysWhyChanging (P.state pages.old) (P.state pages.new) result }
    ensures issued { (P.state pages.new).issued ≤ (P.state pages.old).issued + 2 }
    ensures change { IfOk result (λ change. IsChange change (P.state pages.old).page_bytes 2) }
    ensures only { IfOk result (λ change. IsOnlyOf change directory) }
    ensures slot { OfDir (P.state pages.old) directory (λ d. IfOk result (AddsSlot d)) }
    ensures adds { OfDir (P.state pages.old) directory (λ d. IsNew d.entries slot.now → IfOk result (Makes d moment (with_slot d.entries slot.now))) }
    ensures reported { OfSound (P.state pages.old) (λ z. OnOk result (ReportsEnd z (P.state pages.old) directory)) }
    ensures slots { IfOk result (Rewrites (P.state pages.old) directory (IsPushed (entry_of slot.now))) }
    ensures fault { OfDir (P.state pages.old) directory (λ d. IfErr result (MayLackRoomIn d.entries (P.state pages.new))) }
{
    let head = read_head(pages, directory)?;
    push_slot(alloc, pages, directory, head, slot, moment)
}

/// Writes a slot behind those that the header counts.
pub(crate) fn push_slot<P: Pages>(
    alloc: Global,
    pages: &mut P,
    directory: u64,
    head: DirectoryHead,
    slot: &Slot,
    moment: u64,
) -> Result<Change, PageFault>
    requires { IsTreeSlot (entry_of slot.now) }
    ensures looks { LooksUp SaysWhyChanging (P.state pages.old) (P.state pages.new) result }
    ensures issued { (P.state pages.new).issued ≤ (P.state pages.old).issued + 1 }
    ensures change { IfOk result (OnlyWrites directory (P.state pages.old).page_bytes 2) }
    ensures writes { OfObject (P.state pages.old) directory (λ it. IfOk result (WritesIn it (pushing head slot.now) (longer head moment))) }
    ensures pages { OfObject (P.state pages.old) directory (λ it. IfOk result (WritesPages it (pushing head slot.now))) }
    ensures beside { OfPages (P.state pages.old) (λ z old. OnOk result (HasBeside z old directory head.length head.length)) }
    ensures fault { OfSlotted (P.state pages.old) directory head.length (IfErr result (MayLackRoom head.length (P.state pages.new))) }
{
    let Some(length) = head.length.checked_add(1) else {
        return Err(PageFault::Full);
    };
    let first = Written {
        number: head.length,
        slot: *slot,
    };
    let writing = Writing {
        first,
        second: None,
        before: head.length,
        afterwards: length,
    };
    let longer = DirectoryHead {
        length,
        moment,
        ..head
    };
    write(alloc, pages, directory, writing, longer)
}
