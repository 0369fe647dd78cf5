// The move of a name.
ghost use Rattle.std.specs.Prelude.{ℕ, Option, OnOk, IfOk, IfErr, IfSome};
ghost use Rattle.std.specs.FinMap as map;
ghost use Rattle.page_tags.specs.SlotEntry.{entry_of};
ghost use Rattle.flash_tree.specs.Slots.{IsTreeSlot};
ghost use Rattle.posix_profile.specs.State.{IsDirectory};
ghost use Rattle.pages.specs.Faults.{MayLackMemory, SaysWhyChanging};
ghost use Rattle.pages.specs.State.{OnlyFinds, KeepsPower};
ghost use Rattle.file_io.specs.Writes.{IsChangeIn};
ghost use Rattle.paged_objects.specs.Making.{IfMovable, IfRenamable, IsNamedIn, MakesBy, MayMake, MayWrite, OfMoved, OfRenamed, WritesBy, renaming};
ghost use Rattle.paged_objects.specs.Placed.{OfNamed};
ghost use Rattle.object_store.specs.declared.change.ObjectChange.TheVariants as changes;

use crate::naming::slot_for;
use crate::removal::and_forget;
use directories::{Route, rename_between, rename_within};
use name_index::NameIndex;
use object_store::DirectoryEntry;
use page_tags::Slot;
use pages::{Change, PageFault, Pages};
use std::alloc::Global;

/// The change that gives an object a second name in place of the first; the second then leads to it, also where it led to
/// another, and the object that is returned goes. Both are found through an index.
pub fn move_name<P: Pages>(
    names: &NameIndex,
    pages: &mut P,
    alloc: Global,
    from: DirectoryEntry<'_>,
    to: DirectoryEntry<'_>,
    number: u64,
    dropped: Option<u64>,
    moment: u64,
) -> Result<Change, PageFault>
    ensures lookups { OnlyFinds (P.state pages.old) (P.state pages.new) }
    ensures power { OnOk result (KeepsPower (P.state pages.old) (P.state pages.new)) }
    ensures change { IfOk result (IsChangeIn (P.state pages.old) 4) }
    ensures moves { (replaced : Option ℕ) → OfMoved names.now (P.state pages.old) (changes.Move from.entry to.entry number replaced dropped moment) (λ a move.
        IfOk result (MakesBy a move)) }
    ensures slots { (replaced : Option ℕ) → OfMoved names.now (P.state pages.old) (changes.Move from.entry to.entry number replaced dropped moment) (λ a move.
        IfOk result (WritesBy a move)) }
    ensures why { IfErr result (SaysWhyChanging (P.state pages.new)) }
    ensures fault { OfNamed names.now (P.state pages.old) (λ a.
        IfMovable a from.entry to.entry number (IfErr result (MayLackMemory (P.state pages.new)))) }
{
    let slot = slot_for(to.name, number)?;
    let Some(change) = rename(names, pages, alloc, from, to.directory, &slot, moment)? else {
        return Err(PageFault::Damaged);
    };
    Ok(and_forget(alloc, change, dropped)?)
}

/// The change that takes a name from its directory and writes a slot into another, or into the same. There is none where
/// the first has no such name. Both are found through an index.
fn rename<P: Pages>(
    names: &NameIndex,
    pages: &mut P,
    alloc: Global,
    from: DirectoryEntry<'_>,
    directory: u64,
    slot: &Slot,
    moment: u64,
) -> Result<Option<Change>, PageFault>
    requires { IsTreeSlot (entry_of slot.now) }
    ensures lookups { OnlyFinds (P.state pages.old) (P.state pages.new) }
    ensures power { OnOk result (KeepsPower (P.state pages.old) (P.state pages.new)) }
    ensures change { IfOk result (λ made. IfSome made (IsChangeIn (P.state pages.old) 4)) }
    ensures named { OfNamed names.now (P.state pages.old) (λ a. IsDirectory a.objects from.entry.directory → IfOk result (IsNamedIn a from.entry)) }
    ensures moves { OfRenamed names.now (P.state pages.old) (renaming from.entry directory slot.now moment) (λ a move. IfOk result (MayMake a move)) }
    ensures slots { OfRenamed names.now (P.state pages.old) (renaming from.entry directory slot.now moment) (λ a move. IfOk result (MayWrite a move)) }
    ensures why { IfErr result (SaysWhyChanging (P.state pages.new)) }
    ensures fault { OfNamed names.now (P.state pages.old) (λ a.
        IfRenamable a from.entry directory (IfErr result (MayLackMemory (P.state pages.new)))) }
{
    if from.directory == directory {
        return rename_within(alloc, names, pages, directory, from.name, slot, moment);
    }
    let route = Route {
        source: from.directory,
        target: directory,
    };
    rename_between(alloc, names, pages, route, from.name, slot, moment)
}
