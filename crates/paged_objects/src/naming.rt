// Names that lead to objects.
ghost use Rattle.std.specs.Prelude.{◌≡◌, OnOk, IfOk, IfErr};
ghost use Rattle.page_tags.specs.SlotEntry.{entry_of};
ghost use Rattle.flash_tree.specs.Slots.{IsSlotNumber, IsTreeSlot};
ghost use Rattle.volume_terms.specs.Names.{IsName};
ghost use Rattle.object_store.specs.Changes.{IsAbsent};
ghost use Rattle.pages.specs.Changes.{IsOnlyOf};
ghost use Rattle.pages.specs.Faults.{MayLackMemory, SaysWhyChanging};
ghost use Rattle.pages.specs.State.{OnlyFinds, KeepsPower};
ghost use Rattle.pages.specs.declared.fault.PageFault.TheVariants as faults;
ghost use Rattle.file_io.specs.Writes.{IsChangeIn};
ghost use Rattle.paged_objects.specs.Making.{IfNameable, IfNew, KeepsBy, MakesBy, WritesBy};
ghost use Rattle.paged_objects.specs.Placed.{AreAllowed, OfHeld};
ghost use Rattle.object_store.specs.declared.change.ObjectChange.TheVariants as changes;

use crate::creation::new_object;
use directories::add;
use flash_tree::CHECK_OBJECT;
use object_store::DirectoryEntry;
use page_tags::Slot;
use pages::{Change, PageFault, Pages};
use posix_profile::Kind;
use std::alloc::Global;
use volume_terms::is_name;

/// The slot of a name that leads to an object.
pub(crate) fn slot_for(name: &[u8], object: u64) -> Result<Slot<'_>, PageFault>
    ensures valid { IfOk result (λ slot. IsTreeSlot (entry_of slot)) }
    ensures object { IfOk result (λ slot. slot.object ≡ object) }
    ensures name { IfOk result (λ slot. slot.name.now ≡ name.now) }
    ensures why { IfErr result (λ e. e ≡ faults.Damaged) }
    ensures fault { IfErr result (λ _. IsName name.now → IsSlotNumber object → ⊥) }
{
    if object < 2 || object == CHECK_OBJECT || !is_name(name) {
        return Err(PageFault::Damaged);
    }
    Ok(Slot { object, name })
}

/// The change that makes a new object without content, under the number that the objects give it, and its name.
pub fn create<P: Pages>(
    pages: &mut P,
    alloc: Global,
    number: u64,
    at: DirectoryEntry<'_>,
    kind: Kind,
    moment: u64,
) -> Result<Change, PageFault>
    ensures lookups { OnlyFinds (P.state pages.old) (P.state pages.new) }
    ensures power { OnOk result (KeepsPower (P.state pages.old) (P.state pages.new)) }
    ensures change { IfOk result (IsChangeIn (P.state pages.old) 3) }
    ensures creates { OfHeld (P.state pages.old) (λ a. IfNew a number at.entry (IfOk result (MakesBy a (changes.Create at.entry kind moment)))) }
    ensures slots { OfHeld (P.state pages.old) (λ a. IsAbsent a.objects at.entry
        → IfOk result (WritesBy a (changes.Create at.entry kind moment))) }
    ensures keeps { OfHeld (P.state pages.old) (λ a. IfNew a number at.entry (IfOk result (KeepsBy a (changes.Create at.entry kind moment)))) }
    ensures why { IfErr result (SaysWhyChanging (P.state pages.new)) }
    ensures fault { OfHeld (P.state pages.old) (λ a.
        AreAllowed a → IfNew a number at.entry (IfErr result (MayLackMemory (P.state pages.new)))) }
{
    let slot = slot_for(at.name, number)?;
    let object = new_object(pages, alloc, number, kind, moment)?;
    let named = add(alloc, pages, at.directory, &slot, moment)?;
    let change = object.then(named)?;
    Ok(change)
}

/// The change that gives an object a further name.
pub fn name<P: Pages>(
    pages: &mut P,
    alloc: Global,
    at: DirectoryEntry<'_>,
    number: u64,
    moment: u64,
) -> Result<Change, PageFault>
    ensures lookups { OnlyFinds (P.state pages.old) (P.state pages.new) }
    ensures power { OnOk result (KeepsPower (P.state pages.old) (P.state pages.new)) }
    ensures change { IfOk result (IsChangeIn (P.state pages.old) 2) }
    ensures only { IfOk result (λ change. IsOnlyOf change at.entry.directory) }
    ensures names { OfHeld (P.state pages.old) (λ a. IsAbsent a.objects at.entry
        → IfOk result (MakesBy a (changes.Name at.entry number moment))) }
    ensures slots { OfHeld (P.state pages.old) (λ a. IsAbsent a.objects at.entry
        → IfOk result (WritesBy a (changes.Name at.entry number moment))) }
    ensures keeps { OfHeld (P.state pages.old) (λ a. IsAbsent a.objects at.entry
        → IfOk result (KeepsBy a (changes.Name at.entry number moment))) }
    ensures why { IfErr result (SaysWhyChanging (P.state pages.new)) }
    ensures fault { OfHeld (P.state pages.old) (λ a.
        IfNameable a at.entry number (IfErr result (MayLackMemory (P.state pages.new)))) }
{
    let slot = slot_for(at.name, number)?;
    add(alloc, pages, at.directory, &slot, moment)
}
