// The look-up of a name.
ghost use Rattle.std.specs.Prelude.{◌≡◌, ◌<◌, ◌^◌, OnOk, IfOk, IfErr};
ghost use Rattle.std.specs.FinMap as map;
ghost use Rattle.pages.specs.Faults.{MayLack, SaysWhy};
ghost use Rattle.pages.specs.State.{OnlyFinds, KeepsPower};
ghost use Rattle.directories.specs.Named.{IssuesHeld, LeadsHeld, IsHeld};
ghost use Rattle.directories.specs.Stores.{OfSlots};
ghost use Rattle.directories.specs.Changing.{OfDir, OfNamed};

use crate::seeking::search_held;
use name_index::NameIndex;
use pages::{PageFault, Pages};

/// The object that a name leads to from a directory of so many entries, found through an index of its names: only the pages of
/// slots are looked up that the index has under the name's hash, and not the header.
pub fn find<P: Pages>(
    names: &NameIndex,
    pages: &mut P,
    directory: u64,
    count: u64,
    name: &[u8],
) -> Result<Option<u64>, PageFault>
    ensures lookups { OnlyFinds (P.state pages.old) (P.state pages.new) }
    ensures issued { IssuesHeld names.now directory name.now (P.state pages.old).issued (P.state pages.new).issued }
    ensures power { OnOk result (KeepsPower (P.state pages.old) (P.state pages.new)) }
    ensures found { OfNamed names.now (P.state pages.old) directory (λ d. count ≡ map.len d.entries → IfOk result (λ it. it ≡ map.get d.entries name.now)) }
    ensures reported { count < 2 ^ 32 → OfSlots (P.state pages.old) directory (λ _ s. IfOk result (LeadsHeld (IsHeld names.now directory name.now) s count name.now)) }
    ensures why { IfErr result (SaysWhy (P.state pages.old) (P.state pages.new)) }
    ensures fault { OfDir (P.state pages.old) directory (λ d. count ≡ map.len d.entries → IfErr result (MayLack (P.state pages.old) (P.state pages.new))) }
{
    let found = search_held(names, pages, directory, slots_of(count), name)?;
    match found {
        Some(found) => Ok(Some(found.object)),
        None => Ok(None),
    }
}

/// How many slots a directory of so many entries has, as far as a header can say.
fn slots_of(count: u64) -> u32
    ensures { count < 2 ^ 32 → result ≡ count }
{
    match u32::try_from(count) {
        Ok(slots) => slots,
        Err(_) => u32::MAX,
    }
}
