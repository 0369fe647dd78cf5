// The search of a name through an index.
ghost use Rattle.std.specs.Prelude.{◌<◌, ◌+◌, OnOk, IfOk, IfErr, IfSome};
ghost use Rattle.pages.specs.Faults.{MayLack, SaysWhy};
ghost use Rattle.pages.specs.State.{OnlyFinds, KeepsPower};
ghost use Rattle.directories.specs.Named.{IssuesHeld, FindsHeld, ReportsSought, IsHeld, IsSoughtIn};
ghost use Rattle.directories.specs.Stores.{OfSlots, OfSlotted};
ghost use Rattle.directories.specs.Changing.{OfDir};
ghost use Rattle.pages.specs.Sound.{OfSound};

use crate::head::{DirectoryHead, read_head};
use crate::lookup::{Located, find_in_slot};
use name_index::{NameIndex, name_hash};
use pages::{PageFault, Pages};

/// A name that was looked for: what the header of its directory says, and where it is.
#[derive(Clone, Copy, Debug, PartialEq, Eq)]
pub(crate) struct Sought {
    pub(crate) head: DirectoryHead,
    pub(crate) found: Option<Located>,
}

/// Looks for a name in the first slots of a directory that an index has under its hash. One page is looked up each.
pub(crate) fn search_held<P: Pages>(
    names: &NameIndex,
    pages: &mut P,
    directory: u64,
    length: u32,
    name: &[u8],
) -> Result<Option<Located>, PageFault>
    ensures lookups { OnlyFinds (P.state pages.old) (P.state pages.new) }
    ensures issued { IssuesHeld names.now directory name.now (P.state pages.old).issued (P.state pages.new).issued }
    ensures power { OnOk result (KeepsPower (P.state pages.old) (P.state pages.new)) }
    ensures within { IfOk result (λ found. IfSome found (λ it. it.place < length)) }
    ensures reported { OfSlots (P.state pages.old) directory (λ _ at. IfOk result (FindsHeld (IsHeld names.now directory name.now) at length name.now)) }
    ensures why { IfErr result (SaysWhy (P.state pages.old) (P.state pages.new)) }
    ensures fault { OfSlotted (P.state pages.old) directory length (IfErr result (MayLack (P.state pages.old) (P.state pages.new))) }
{
    let hash = name_hash(name);
    let mut from: u32 = 0;
    while from < length {
        let Some(place) = names.next_slot(directory, hash, from) else {
            return Ok(None);
        };
        if place >= length {
            return Ok(None);
        }
        if let Some(object) = find_in_slot(pages, directory, place, name)? {
            return Ok(Some(Located { place, object }));
        }
        from = place + 1;
    }
    Ok(None)
}

/// Looks for a name of a directory, in the slots that an index has under its hash.
pub(crate) fn seek<P: Pages>(
    names: &NameIndex,
    pages: &mut P,
    directory: u64,
    name: &[u8],
) -> Result<Sought, PageFault>
    ensures lookups { OnlyFinds (P.state pages.old) (P.state pages.new) }
    ensures issued { IssuesHeld names.now directory name.now ((P.state pages.old).issued + 1) (P.state pages.new).issued }
    ensures power { OnOk result (KeepsPower (P.state pages.old) (P.state pages.new)) }
    ensures within { IfOk result (λ sought. IfSome sought.found (λ it. it.place < sought.head.length)) }
    ensures reported { OfSound (P.state pages.old) (λ z. IfOk result (ReportsSought names.now z (P.state pages.old) directory name.now)) }
    ensures sought { IsSoughtIn names.now (P.state pages.old) directory name.now result }
    ensures why { IfErr result (SaysWhy (P.state pages.old) (P.state pages.new)) }
    ensures fault { OfDir (P.state pages.old) directory (λ d. IfErr result (MayLack (P.state pages.old) (P.state pages.new))) }
{
    let head = read_head(pages, directory)?;
    let found = search_held(names, pages, directory, head.length, name)?;
    Ok(Sought { head, found })
}
