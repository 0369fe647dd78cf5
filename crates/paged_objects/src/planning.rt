// A change of objects as one of pages.
ghost use Rattle.std.specs.Prelude.{◌≡◌, ◌↔◌, ℕ, true, false, IsTrue, OnOk, IfOk, IfErr, Some, slice_get};
ghost use Rattle.flash_tree.specs.declared.place.FreshPage.{FreshPage};
ghost use Rattle.object_store.specs.Changes.{CanMake};
ghost use Rattle.pages.specs.Changes.{IsTreeKey, AreOfTrees};
ghost use Rattle.pages.specs.Faults.{MayLackMemory, SaysWhyChanging};
ghost use Rattle.pages.specs.State.{OnlyFinds, KeepsPower};
ghost use Rattle.paged_objects.specs.Plans.{most_pages};
ghost use Rattle.file_io.specs.Writes.{IsChangeIn};
ghost use Rattle.paged_objects.specs.Making.{IfPlanned, IsOnlyBy, KeepsBy, MakesBy, WritesBy};
ghost use Rattle.paged_objects.specs.Placed.{AreAllowed, OfNamed};

use crate::content::{resize, write};
use crate::moving::move_name;
use crate::naming::{create, name};
use crate::removal::{forget, remove};
use flash_tree::{CHECK_OBJECT, CHUNK_END, FreshPage, Key};
use name_index::NameIndex;
use object_store::ObjectChange;
use pages::{Change, PageFault, Pages};
use std::alloc::Global;

/// Whether a tree may look up the page of a key: its object's number is neither 0 nor that of checkpoints, and its chunk has
/// 32 bits.
fn is_tree_key(key: Key) -> bool
    ensures { IsTrue result ↔ IsTreeKey key }
{
    key.object != 0 && key.object < CHECK_OBJECT && key.chunk < CHUNK_END
}

/// Whether each page is of a key that a tree may look up.
fn are_of_trees(pages: &[FreshPage]) -> bool
    ensures trees { result ≡ true → AreOfTrees pages.now }
    ensures not { result ≡ false → (i : ℕ) × (p : FreshPage) × (slice_get pages.now i ≡ Some p) × (IsTreeKey p.key → ⊥) }
{
    for page in pages {
        if !is_tree_key(page.key) {
            return false;
        }
    }
    true
}

/// The change of pages that makes a change of objects, in which each name is found through an index.
///
/// `new` is the number that a new object gets.
pub fn plan<P: Pages>(
    names: &NameIndex,
    pages: &mut P,
    alloc: Global,
    change: &ObjectChange<'_>,
    new: u64,
) -> Result<Change, PageFault>
    ensures lookups { OnlyFinds (P.state pages.old) (P.state pages.new) }
    ensures power { OnOk result (KeepsPower (P.state pages.old) (P.state pages.new)) }
    ensures change { IfOk result (IsChangeIn (P.state pages.old) (most_pages (P.state pages.old).page_bytes change.now)) }
    ensures trees { IfOk result (λ it. AreOfTrees it.pages.items) }
    ensures makes { OfNamed names.now (P.state pages.old) (λ a. IfPlanned a change.now new (IfOk result (MakesBy a change.now))) }
    ensures slots { OfNamed names.now (P.state pages.old) (λ a.
        CanMake a.sizes a.objects change.now → IfOk result (WritesBy a change.now)) }
    ensures keeps { OfNamed names.now (P.state pages.old) (λ a. IfPlanned a change.now new (IfOk result (KeepsBy a change.now))) }
    ensures only { IfOk result (IsOnlyBy change.now) }
    ensures why { IfErr result (SaysWhyChanging (P.state pages.new)) }
    ensures fault { OfNamed names.now (P.state pages.old) (λ a.
        AreAllowed a → IfPlanned a change.now new (IfErr result (MayLackMemory (P.state pages.new)))) }
{
    let planned = plan_each(names, pages, alloc, change, new)?;
    if are_of_trees(&planned.pages) {
        Ok(planned)
    } else {
        Err(PageFault::Damaged)
    }
}

/// The same for each kind of change; of no number it is said that no page is of it.
fn plan_each<P: Pages>(
    names: &NameIndex,
    pages: &mut P,
    alloc: Global,
    change: &ObjectChange<'_>,
    new: u64,
) -> Result<Change, PageFault>
    ensures lookups { OnlyFinds (P.state pages.old) (P.state pages.new) }
    ensures power { OnOk result (KeepsPower (P.state pages.old) (P.state pages.new)) }
    ensures change { IfOk result (IsChangeIn (P.state pages.old) (most_pages (P.state pages.old).page_bytes change.now)) }
    ensures makes { OfNamed names.now (P.state pages.old) (λ a. IfPlanned a change.now new (IfOk result (MakesBy a change.now))) }
    ensures slots { OfNamed names.now (P.state pages.old) (λ a.
        CanMake a.sizes a.objects change.now → IfOk result (WritesBy a change.now)) }
    ensures keeps { OfNamed names.now (P.state pages.old) (λ a. IfPlanned a change.now new (IfOk result (KeepsBy a change.now))) }
    ensures only { IfOk result (IsOnlyBy change.now) }
    ensures why { IfErr result (SaysWhyChanging (P.state pages.new)) }
    ensures fault { OfNamed names.now (P.state pages.old) (λ a.
        AreAllowed a → IfPlanned a change.now new (IfErr result (MayLackMemory (P.state pages.new)))) }
{
    match change {
        ObjectChange::Create {
            entry,
            kind,
            moment,
        } => create(pages, alloc, new, *entry, *kind, *moment),
        ObjectChange::Name {
            entry,
            number,
            moment,
        } => name(pages, alloc, *entry, *number, *moment),
        ObjectChange::Remove {
            entry,
            dropped,
            moment,
            ..
        } => remove(names, pages, alloc, *entry, *dropped, *moment),
        ObjectChange::Move {
            from,
            to,
            number,
            dropped,
            moment,
            ..
        } => move_name(names, pages, alloc, *from, *to, *number, *dropped, *moment),
        ObjectChange::Write {
            number,
            offset,
            bytes,
            moment,
        } => write(pages, alloc, *number, *offset, bytes, *moment),
        ObjectChange::Resize {
            number,
            length,
            moment,
        } => resize(pages, alloc, *number, *length, *moment),
        ObjectChange::Forget { number } => Ok(forget(alloc, *number)?),
    }
}
