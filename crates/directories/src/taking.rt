// The removal of a name.
ghost use Rattle.std.specs.Prelude.{◌+◌, IfOk, IfErr};
ghost use Rattle.pages.specs.Changes.{IsChange, IsOnlyOf};
ghost use Rattle.pages.specs.Faults.{MayLackMemory, SaysWhyMaking, LooksUp};
ghost use Rattle.directories.specs.Directories.{IsNamed};
ghost use Rattle.directories.specs.Named.{IssuesHeld, ReportsHeldChange};
ghost use Rattle.directories.specs.Changing.{IfMade, OfDir, OfNamed, TakesOut};
ghost use Rattle.pages.specs.Sound.{OfSound};

use crate::head::DirectoryHead;
use crate::removal::remove_slot;
use crate::seeking::seek;
use name_index::NameIndex;
use pages::{Change, PageFault, Pages};
use std::alloc::Global;

/// The change that takes a name from a directory, found through an index of its names: the last slot is in its place
/// then, and a page without slots goes. There is none where the directory has no such name.
pub fn remove<P: Pages>(
    alloc: Global,
    names: &NameIndex,
    pages: &mut P,
    directory: u64,
    name: &[u8],
    moment: u64,
) -> Result<Option<Change>, PageFault>
    ensures looks { LooksUp SaysWhyMaking (P.state pages.old) (P.state pages.new) result }
    ensures issued { IssuesHeld names.now directory name.now ((P.state pages.old).issued + 3) (P.state pages.new).issued }
    ensures change { IfMade result (λ change. IsChange change (P.state pages.old).page_bytes 2) }
    ensures only { IfMade result (λ change. IsOnlyOf change directory) }
    ensures named { OfNamed names.now (P.state pages.old) directory (λ d. IfOk result (IsNamed d.entries name.now)) }
    ensures removes { OfNamed names.now (P.state pages.old) directory (λ d. IfMade result (TakesOut d moment name.now)) }
    ensures reported { OfSound (P.state pages.old) (λ z. IfOk result (ReportsHeldChange names.now z (P.state pages.old) directory name.now)) }
    ensures fault { OfDir (P.state pages.old) directory (λ d. IfErr result (MayLackMemory (P.state pages.new))) }
{
    let sought = seek(names, pages, directory, name)?;
    let Some(found) = sought.found else {
        return Ok(None);
    };
    let shorter = DirectoryHead {
        length: sought.head.length - 1,
        moment,
        ..sought.head
    };
    let change = remove_slot(alloc, pages, directory, found.place, shorter)?;
    Ok(Some(change))
}
