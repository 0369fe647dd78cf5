// The ranges of keys.
ghost use Rattle.std.specs.Prelude.{ℕ, Some, slice_get};
ghost use Rattle.flash_tree.specs.declared.place.FreshPage.{FreshPage};
ghost use Rattle.page_store.specs.Carrying.{HasRanges, HaveRanges};

use flash_tree::{FreshPage, Key};

/// A key's numbers are of 64 bits.
fn has_ranges(key: Key)
    ensures { HasRanges key }
{
    let _ = (key.object, key.chunk);
}

/// The numbers of each page's key are of 64 bits, as their types say. Nothing is done.
pub(crate) fn have_ranges(pages: &[FreshPage])
    ensures { HaveRanges pages.now }
{
    for page in pages {
        has_ranges(page.key);
    }
}
