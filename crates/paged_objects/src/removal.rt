// Names and objects that go.
ghost use Rattle.std.specs.Prelude.{◌≡◌, ℕ, [], OnOk, IfOk, IfErr};
ghost use Rattle.std.specs.FinMap as map;
ghost use Rattle.volume_terms.specs.Sizes.{Sizes};
ghost use Rattle.posix_profile.specs.State.{Objects};
ghost use Rattle.object_store.specs.Changes.{without};
ghost use Rattle.pages.specs.Changes.{IsChange, IsOnlyOf};
ghost use Rattle.pages.specs.Faults.{MayLackMemory, SaysWhyChanging};
ghost use Rattle.pages.specs.Maps.{PageMap};
ghost use Rattle.pages.specs.State.{OnlyFinds, KeepsPower};
ghost use Rattle.paged_objects.specs.Holding.{HoldsObjects};
ghost use Rattle.paged_objects.specs.Naming.{WritesNames};
ghost use Rattle.file_io.specs.Writes.{IsChangeIn};
ghost use Rattle.paged_objects.specs.Making.{HoldsAfter, MakesBy};
ghost use Rattle.paged_objects.specs.Placed.{OfLed};
ghost use Rattle.object_store.specs.declared.change.ObjectChange.TheVariants as changes;

use name_index::NameIndex;
use object_store::DirectoryEntry;
use pages::{Change, Cut, PageFault, Pages};
use std::alloc::{AllocError, Global};

/// The change that takes all pages of an object away.
pub fn forget(alloc: Global, number: u64) -> Result<Change, AllocError>
    ensures pages { IfOk result (λ change. change.pages.items ≡ []) }
    ensures only { IfOk result (λ change. IsOnlyOf change number) }
    ensures forgets { (z : Sizes) (m : PageMap) (objects : Objects) → HoldsObjects z m objects
        → IfOk result (HoldsAfter z m (map.remove objects number)) }
{
    let mut cuts = Vec::new(alloc);
    cuts.push(Cut {
        object: number,
        from: 0,
    })?;
    Ok(Change {
        pages: Vec::new(alloc),
        cuts,
    })
}

/// A change, after which the object that is returned has no pages.
pub(crate) fn and_forget(
    alloc: Global,
    change: Change,
    dropped: Option<u64>,
) -> Result<Change, AllocError>
    ensures change { (bytes most : ℕ) → IsChange change bytes most → IfOk result (λ both. IsChange both bytes most) }
    ensures forgets { (z : Sizes) (m : PageMap) (objects : Objects) → HoldsAfter z m objects change
        → IfOk result (HoldsAfter z m (without dropped objects)) }
    ensures slots { (z : Sizes) (old new : Objects) → WritesNames z change old new → IfOk result (λ both. WritesNames z both old (without dropped new)) }
{
    let Some(number) = dropped else {
        return Ok(change);
    };
    let cut = forget(alloc, number)?;
    change.then(cut)
}

/// The change that takes a name from a directory, and the object that is returned. The name is found through an index.
pub fn remove<P: Pages>(
    names: &NameIndex,
    pages: &mut P,
    alloc: Global,
    at: DirectoryEntry<'_>,
    dropped: Option<u64>,
    moment: u64,
) -> Result<Change, PageFault>
    ensures lookups { OnlyFinds (P.state pages.old) (P.state pages.new) }
    ensures power { OnOk result (KeepsPower (P.state pages.old) (P.state pages.new)) }
    ensures change { IfOk result (IsChangeIn (P.state pages.old) 2) }
    ensures removes { (removed : ℕ) → OfLed names.now (P.state pages.old) at.entry (λ a.
        IfOk result (MakesBy a (changes.Remove at.entry removed dropped moment))) }
    ensures why { IfErr result (SaysWhyChanging (P.state pages.new)) }
    ensures fault { OfLed names.now (P.state pages.old) at.entry (λ a. IfErr result (MayLackMemory (P.state pages.new))) }
{
    let made = directories::remove(alloc, names, pages, at.directory, at.name, moment)?;
    let Some(change) = made else {
        return Err(PageFault::Damaged);
    };
    Ok(and_forget(alloc, change, dropped)?)
}
