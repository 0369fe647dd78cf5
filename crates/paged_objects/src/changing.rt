// Changes of objects, in their pages, in the table and in the index of names.
ghost use Rattle.std.specs.Prelude.{◌≡◌, ◌≤◌, true, OnOk, IfOk, IfErr, IfSome, IsErrOf, Err};
ghost use Rattle.std.specs.FinMap as map;
ghost use Rattle.volume_terms.specs.Sizes.{Sizes};
ghost use Rattle.volume_terms.specs.declared.fault.StoreFault.TheVariants as faults;
ghost use Rattle.posix_profile.specs.State.{IsDirectory, Objects};
ghost use Rattle.posix_profile.specs.Changes.{new_number};
ghost use Rattle.object_store.specs.Changes.{CanMake};
ghost use Rattle.object_store.specs.declared.change.ObjectChange.TheVariants as changes;
ghost use Rattle.object_store.specs.Reported.{table_sizes, IsReadyFor, Reports, ReportsTheSame};
ghost use Rattle.pages.specs.Changes.{AreApart, AreSized, AreOfTrees};
ghost use Rattle.pages.specs.Maps.{after_change};
ghost use Rattle.pages.specs.State.{OnlyFinds, KeepsPower};
ghost use Rattle.pages.specs.Stores.{GoesOn, SamePages};
ghost use Rattle.directories.specs.Hashing.{HoldsMore};
ghost use Rattle.paged_objects.specs.Plans.{most_pages};
ghost use Rattle.paged_objects.specs.Ending.{EndsPages, StaysAs};
ghost use Rattle.paged_objects.specs.Known.{state_with};
ghost use Rattle.paged_objects.specs.Changing.{LeavesBy};
ghost use Rattle.paged_objects.specs.Faults.{ReadFailsBy};
ghost use Rattle.file_io.specs.Writes.{IsChangeIn};
ghost use Rattle.paged_objects.specs.Making.{EndsBy, IfKept, IfPlanned, IsKeptBy, IsKeptIn, LeftMade, Makes, MakesBy, NamesBy, NamesMade, OfTaken, StaysIfRefused, changes_names};
ghost use Rattle.paged_objects.specs.Placed.{OfStored};

use crate::dropping::drop_names;
use crate::fault::fault_of;
use crate::{hash_names, plan};
use directories::{KeptSlots, LeftSlot, left_slot};
use name_index::NameIndex;
use object_store::{ObjectChange, ObjectTable};
use pages::{Change, Cut, PageStore};
use std::alloc::{AllocError, Global};
use volume_terms::StoreFault;

/// Makes room in the table for a new object, where the change makes one.
fn prepare(table: &mut ObjectTable, change: &ObjectChange<'_>) -> Result<(), AllocError>
    ensures same { ReportsTheSame table.old table.new }
    ensures has_room { OnOk result (IsReadyFor table.new change.now) }
{
    match change {
        ObjectChange::Create { .. } => table.prepare(),
        ObjectChange::Name { .. } => Ok(()),
        ObjectChange::Remove { .. } => Ok(()),
        ObjectChange::Move { .. } => Ok(()),
        ObjectChange::Write { .. } => Ok(()),
        ObjectChange::Resize { .. } => Ok(()),
        ObjectChange::Forget { .. } => Ok(()),
    }
}

/// The slots of a directory that stay as they are where a name is added: all that it has, if they can be counted.
fn kept_in(table: &ObjectTable, directory: u64) -> Option<KeptSlots>
    ensures { (objects : Objects) → Reports table.now objects → IsDirectory objects directory → IsKeptIn objects directory result }
{
    let Ok(count) = u32::try_from(table.entry_count(directory)) else {
        return None;
    };
    Some(KeptSlots { directory, count })
}

/// The slots that a change leaves as they are, of the directory to which it adds a name and takes none away.
fn kept_by(table: &ObjectTable, change: &ObjectChange<'_>) -> Option<KeptSlots>
    ensures { (z : Sizes) (objects : Objects) → Reports table.now objects → CanMake z objects change.now → IsKeptBy objects change.now result }
{
    match change {
        ObjectChange::Create { entry, .. } => kept_in(table, entry.directory),
        ObjectChange::Name { entry, .. } => kept_in(table, entry.directory),
        ObjectChange::Remove { .. } => None,
        ObjectChange::Move { .. } => None,
        ObjectChange::Write { .. } => None,
        ObjectChange::Resize { .. } => None,
        ObjectChange::Forget { .. } => None,
    }
}

/// Makes a change of pages, unless it has more of them than the store takes at once.
fn take<P: PageStore>(pages: &mut P, planned: Change) -> Result<(), StoreFault>
    requires apart { AreApart planned.pages.items }
    requires size { AreSized planned.pages.items (P.state pages.old).page_bytes }
    requires trees { AreOfTrees planned.pages.items }
    ensures goes_on { GoesOn (P.state pages.old) (P.state pages.new) }
    ensures power { OnOk result (KeepsPower (P.state pages.old) (P.state pages.new)) }
    ensures present { (P.state pages.old).sound ≡ true → OnOk result (SamePages (P.state pages.new).present (after_change planned (P.state pages.old).present)) }
    ensures makes { OfTaken (P.state pages.old) planned (λ z old new. EndsPages z (P.state pages.old) (P.state pages.new) old new result) }
    ensures refused { IsErrOf result faults.NoMemory → StaysAs (P.state pages.old) (P.state pages.new) }
{
    if planned.pages.len() > pages.most_pages() as usize {
        return Err(StoreFault::Device);
    }
    pages.apply(planned)
}

/// Whether a name may come or go with a change.
fn changes_names(change: &ObjectChange<'_>) -> bool
    ensures { result ≡ changes_names change.now }
{
    match change {
        ObjectChange::Create { .. } => true,
        ObjectChange::Name { .. } => true,
        ObjectChange::Remove { .. } => true,
        ObjectChange::Move { .. } => true,
        ObjectChange::Write { .. } => false,
        ObjectChange::Resize { .. } => false,
        ObjectChange::Forget { .. } => false,
    }
}

/// The change of pages that makes a change of objects. The index gets the hashes of the names that it writes, but for those in
/// slots that are kept.
fn plan_named<P: PageStore>(
    names: &mut NameIndex,
    pages: &mut P,
    alloc: Global,
    change: &ObjectChange<'_>,
    kept: Option<KeptSlots>,
    new: u64,
) -> Result<Change, StoreFault>
    ensures lookups { OnlyFinds (P.state pages.old) (P.state pages.new) }
    ensures power { OnOk result (KeepsPower (P.state pages.old) (P.state pages.new)) }
    ensures committed { HoldsMore names.old names.new }
    ensures change { IfOk result (IsChangeIn (P.state pages.old) (most_pages (P.state pages.old).page_bytes change.now)) }
    ensures numbered { IfOk result (λ it. AreOfTrees it.pages.items) }
    ensures makes { OfStored names.old (P.state pages.old) (λ a. IfPlanned a change.now new (IfOk result (MakesBy a change.now))) }
    ensures names { OfStored names.old (P.state pages.old) (λ a. IfKept a change.now kept new (IfOk result (NamesBy a names.new change.now))) }
    ensures fault { OfStored names.old (P.state pages.old) (λ a. IfPlanned a change.now new (IfErr result (ReadFailsBy (P.state pages.new)))) }
{
    match plan(names, pages, alloc, change, new) {
        Ok(planned) => {
            if !changes_names(change) {
                return Ok(planned);
            }
            hash_names(names, pages, &planned, kept)?;
            Ok(planned)
        }
        Err(fault) => Err(fault_of(fault)),
    }
}

/// The slot that the name which a change takes from its directory leaves by a change of pages.
fn left_by(
    names: &NameIndex,
    page_bytes: u32,
    planned: &Change,
    change: &ObjectChange<'_>,
) -> Option<LeftSlot>
    requires least { 512 ≤ page_bytes }
    requires most { page_bytes ≤ 4096 }
    requires sized { AreSized planned.now.pages.items page_bytes }
    ensures { IfSome result (λ left. (z : Sizes) → z.page_bytes ≡ page_bytes → LeavesBy z planned.now change.now left) }
{
    match change {
        ObjectChange::Create { .. } => None,
        ObjectChange::Name { .. } => None,
        ObjectChange::Remove { entry, .. } => {
            left_slot(names, page_bytes, planned, entry.directory, entry.name)
        }
        ObjectChange::Move { from, .. } => {
            left_slot(names, page_bytes, planned, from.directory, from.name)
        }
        ObjectChange::Write { .. } => None,
        ObjectChange::Resize { .. } => None,
        ObjectChange::Forget { .. } => None,
    }
}

/// Makes a change of objects in their pages. The index has the names of the objects then, and the slot that a name left may
/// be dropped from it.
fn change_pages<P: PageStore>(
    names: &mut NameIndex,
    pages: &mut P,
    alloc: Global,
    change: &ObjectChange<'_>,
    kept: Option<KeptSlots>,
    new: u64,
) -> Result<Option<LeftSlot>, StoreFault>
    ensures goes_on { GoesOn (P.state pages.old) (P.state pages.new) }
    ensures power { OnOk result (KeepsPower (P.state pages.old) (P.state pages.new)) }
    ensures committed { HoldsMore names.old names.new }
    ensures makes { OfStored names.old (P.state pages.old) (λ a. IfPlanned a change.now new (EndsBy a change.now (P.state pages.new) result)) }
    ensures names { OfStored names.old (P.state pages.old) (λ a.
        IfKept a change.now kept new (OnOk result (NamesMade a names.new (P.state pages.new) change.now))) }
    ensures left { OfStored names.old (P.state pages.old) (λ a.
        IfPlanned a change.now new (IfOk result (LeftMade a (P.state pages.new) change.now))) }
    ensures refused { IsErrOf result faults.NoMemory → StaysAs (P.state pages.old) (P.state pages.new) }
{
    let planned = plan_named(names, pages, alloc, change, kept, new)?;
    let left = left_by(names, pages.page_bytes(), &planned, change);
    take(pages, planned)?;
    Ok(left)
}

/// Makes a change of objects in their pages, and then in the table.
pub(crate) fn make<P: PageStore>(
    pages: &mut P,
    table: &mut ObjectTable,
    names: &mut NameIndex,
    alloc: Global,
    change: &ObjectChange<'_>,
) -> Result<(), StoreFault>
    ensures goes_on { GoesOn (P.state pages.old) (P.state pages.new) }
    ensures power { OnOk result (KeepsPower (P.state pages.old) (P.state pages.new)) }
    ensures sizes { table_sizes table.new ≡ table_sizes table.old }
    ensures makes { Makes (state_with (P.state pages.old) table.old names.old) (state_with (P.state pages.new) table.new names.new) change.now result }
    ensures refused { StaysIfRefused (state_with (P.state pages.old) table.old names.old) (state_with (P.state pages.new) table.new names.new) result }
{
    prepare(table, change)?;
    let new = table.new_number();
    let kept = kept_by(table, change);
    let left = change_pages(names, pages, alloc, change, kept, new)?;
    table.apply(change);
    drop_names(names, table, change, left);
    Ok(())
}

/// Takes an object's pages away, and then the object from the table. The device is left as it is.
pub(crate) fn forget<P: PageStore>(
    pages: &mut P,
    table: &mut ObjectTable,
    names: &mut NameIndex,
    number: u64,
) -> Result<(), StoreFault>
    ensures goes_on { GoesOn (P.state pages.old) (P.state pages.new) }
    ensures device { (P.state pages.new).device ≡ (P.state pages.old).device }
    ensures sizes { table_sizes table.new ≡ table_sizes table.old }
    ensures makes { Makes (state_with (P.state pages.old) table.old names.old) (state_with (P.state pages.new) table.new names.new) (changes.Forget number) result }
    ensures memory { result ≡ Err faults.NoMemory → ⊥ }
{
    let whole = Cut {
        object: number,
        from: 0,
    };
    pages.cut(whole)?;
    table.apply(&ObjectChange::Forget { number });
    names.drop_directory(number);
    Ok(())
}
