// The move of a name.
ghost use Rattle.std.specs.Prelude.{◌<◌, ◌≢◌, ◌≤◌, ◌+◌, ℕ, IfOk, IfErr, IfSome};
ghost use Rattle.std.specs.FinMap as map;
ghost use Rattle.page_tags.specs.SlotEntry.{entry_of};
ghost use Rattle.flash_tree.specs.Slots.{IsTreeSlot};
ghost use Rattle.pages.specs.Changes.{IsChange};
ghost use Rattle.pages.specs.Faults.{SaysWhyChanging, LooksUp};
ghost use Rattle.directories.specs.Directories.{IsNamed};
ghost use Rattle.directories.specs.Faults.{MayLackRoomIn};
ghost use Rattle.directories.specs.Named.{IssuesHeld, IssuesBoth};
ghost use Rattle.directories.specs.Writes.{KeepsKey, OnlyWrites};
ghost use Rattle.directories.specs.Changing.{IfMade, OfNamed, OfPut, OfRoute, MovesName, ChangesBoth, TakesOut, PutsName};

use crate::addition::push_slot;
use crate::head::DirectoryHead;
use crate::moving::{Moving, move_slot, moved_to};
use crate::seeking::{Sought, search_held, seek};
use crate::taking::remove;
use crate::writing::{Writing, Written, write};
use name_index::NameIndex;
use page_tags::Slot;
use pages::{Change, PageFault, Pages};
use std::alloc::Global;

/// The change that gives an entry of a directory another name in it, which then leads to the slot's object, also where
/// it led to another. Both are found through an index of its names. There is none where the directory has no such name.
pub fn rename_within<P: Pages>(
    alloc: Global,
    names: &NameIndex,
    pages: &mut P,
    directory: u64,
    from: &[u8],
    to: &Slot,
    moment: u64,
) -> Result<Option<Change>, PageFault>
    requires { IsTreeSlot (entry_of to.now) }
    ensures looks { LooksUp SaysWhyChanging (P.state pages.old) (P.state pages.new) result }
    ensures issued { IssuesBoth (IssuesHeld names.now directory to.now.name.now) (IssuesHeld names.now directory from.now) (P.state pages.old) (P.state pages.new) }
    ensures change { IfMade result (λ change. IsChange change (P.state pages.old).page_bytes 3) }
    ensures others { (o c : ℕ) → o ≢ directory → IfMade result (KeepsKey (P.state pages.old).present o c) }
    ensures named { OfNamed names.now (P.state pages.old) directory (λ d. IfOk result (IsNamed d.entries from.now)) }
    ensures moves { OfNamed names.now (P.state pages.old) directory (λ d. IfMade result (MovesName d moment from.now to.now)) }
    ensures fault { OfNamed names.now (P.state pages.old) directory (λ d. IfErr result (MayLackRoomIn (map.remove d.entries from.now) (P.state pages.new))) }
{
    let sought = seek(names, pages, directory, to.name)?;
    let before = sought.head.length;
    let Some(found) = search_held(names, pages, directory, before, from)? else {
        return Ok(None);
    };
    let place = found.place;
    let moving = Moving {
        place,
        before,
        target: moved_to(sought.found, place, before - 1),
    };
    let later = DirectoryHead {
        moment,
        ..sought.head
    };
    let change = move_slot(alloc, pages, directory, moving, to, later)?;
    Ok(Some(change))
}

/// The directory that an entry is moved from, and the one that it is moved to.
#[derive(Clone, Copy, Debug, PartialEq, Eq)]
pub struct Route {
    pub source: u64,
    pub target: u64,
}

/// The change that moves an entry of one directory to another, under a name which then leads to the slot's object, also
/// where it led to another. Both are found through an index of their names. There is none where the first has no such
/// name.
pub fn rename_between<P: Pages>(
    alloc: Global,
    names: &NameIndex,
    pages: &mut P,
    route: Route,
    from: &[u8],
    to: &Slot,
    moment: u64,
) -> Result<Option<Change>, PageFault>
    requires apart { route.source ≢ route.target }
    requires valid { IsTreeSlot (entry_of to.now) }
    ensures looks { LooksUp SaysWhyChanging (P.state pages.old) (P.state pages.new) result }
    ensures issued { IssuesBoth (IssuesHeld names.now route.target to.now.name.now) (IssuesHeld names.now route.source from.now) (P.state pages.old) (P.state pages.new) }
    ensures change { IfMade result (ChangesBoth (P.state pages.old) route) }
    ensures named { OfNamed names.now (P.state pages.old) route.source (λ d. IfOk result (IsNamed d.entries from.now)) }
    ensures takes { OfNamed names.now (P.state pages.old) route.source (λ d. IfMade result (TakesOut d moment from.now)) }
    ensures gives { OfNamed names.now (P.state pages.old) route.target (λ d. IfMade result (PutsName d moment to.now)) }
    ensures fault { OfRoute names.now (P.state pages.old) route (λ entries. IfErr result (MayLackRoomIn entries (P.state pages.new))) }
{
    let sought = seek(names, pages, route.target, to.name)?;
    let Some(first) = remove(alloc, names, pages, route.source, from, moment)? else {
        return Ok(None);
    };
    let second = put_at(alloc, pages, route.target, sought, to, moment)?;
    let change = first.then(second)?;
    Ok(Some(change))
}

/// The change that leads a name that was sought in a directory to an object: in its slot where it has one, and else in one
/// behind them.
fn put_at<P: Pages>(
    alloc: Global,
    pages: &mut P,
    directory: u64,
    sought: Sought,
    slot: &Slot,
    moment: u64,
) -> Result<Change, PageFault>
    requires valid { IsTreeSlot (entry_of slot.now) }
    requires within { IfSome sought.found (λ it. it.place < sought.head.length) }
    ensures looks { LooksUp SaysWhyChanging (P.state pages.old) (P.state pages.new) result }
    ensures issued { (P.state pages.new).issued ≤ (P.state pages.old).issued + 1 }
    ensures change { IfOk result (OnlyWrites directory (P.state pages.old).page_bytes 2) }
    ensures puts { OfPut (P.state pages.old) directory slot.now sought (λ d. IfOk result (PutsName d moment slot.now)) }
    ensures fault { OfPut (P.state pages.old) directory slot.now sought (λ d. IfErr result (MayLackRoomIn d.entries (P.state pages.new))) }
{
    let Some(found) = sought.found else {
        return push_slot(alloc, pages, directory, sought.head, slot, moment);
    };
    let first = Written {
        number: found.place,
        slot: *slot,
    };
    let writing = Writing {
        first,
        second: None,
        before: sought.head.length,
        afterwards: sought.head.length,
    };
    let later = DirectoryHead {
        moment,
        ..sought.head
    };
    let change = write(alloc, pages, directory, writing, later)?;
    Ok(change)
}
