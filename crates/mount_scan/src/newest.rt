// The newest page of each key among valid pages.
ghost use Rattle.std.specs.Prelude.{◌≡◌, ◌↔◌, ◌++◌, ◌∷◌, [], IsTrue, IfOk, OnOk, List};
ghost use Rattle.flash_tree.specs.Newest.{IsAfter};
ghost use Rattle.flash_tree.specs.Places.{spot_of};
ghost use Rattle.flash_tree.specs.declared.place.Found.{Found};
ghost use Rattle.mount_scan.specs.NewestMap.{AreLatestOf};

use flash_tree::{Found, places_are_in_order};
use std::alloc::{AllocError, Global};
use std::collections::BTreeMap;

/// Whether a page comes after another of its key: by the version, then by seq, page and block.
fn comes_after(found: &Found, other: &Found) -> bool
    ensures { IsTrue result ↔ IsAfter (spot_of found.now) (spot_of other.now) }
{
    if found.tag.version != other.tag.version {
        return found.tag.version > other.tag.version;
    }
    if found.tag.seq != other.tag.seq {
        return found.tag.seq > other.tag.seq;
    }
    if found.page != other.page {
        return found.page > other.page;
    }
    found.block > other.block
}

/// Adds a page, unless the one that its key has comes after it.
fn add_page(newest: &mut BTreeMap<(u64, u64), Found>, found: Found) -> Result<(), AllocError>
    ensures { OnOk result ((list : List Found) → AreLatestOf list newest.old → AreLatestOf (list ++ (found ∷ [])) newest.new) }
{
    places_are_in_order();
    let key = (found.tag.object, found.tag.chunk);
    if let Some(other) = newest.get(&key) {
        if !comes_after(&found, other) {
            return Ok(());
        }
    }
    let _ = newest.insert(key, found)?;
    Ok(())
}

/// The newest page of each key of some pages.
pub(crate) fn newest_of(
    alloc: Global,
    pages: &[Found],
) -> Result<BTreeMap<(u64, u64), Found>, AllocError>
    ensures { IfOk result (AreLatestOf pages.now) }
{
    let mut newest = BTreeMap::new(alloc);
    for page in pages {
        add_page(&mut newest, *page)?;
    }
    Ok(newest)
}
