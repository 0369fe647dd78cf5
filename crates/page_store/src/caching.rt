// What a change and a commit do to the cache.
ghost use Rattle.std.specs.Prelude.{◌≡◌, ◌≤◌, ◌+◌, None, false, length, OnOk};
ghost use Rattle.pages.specs.Maps.{PageMap};
ghost use Rattle.page_store.specs.BufferOf.{contents, last_written, most_pages, bytes_of_page};
ghost use Rattle.page_store.specs.Cached.{cached, held_count, capacity_of, page_bytes_of};
ghost use Rattle.page_store.specs.Changes.{KeepsSizes};
ghost use Rattle.page_store.specs.Caching.{Shows, HasNoMore, LacksCuts, LacksPages, AreIn, TakesPages, KeepsUncut, KeepsUnwritten, KeepsKeys, HavePlaces};

use crate::{Buffer, PageCache};
use flash_tree::FreshPage;
use pages::Cut;
use std::alloc::AllocError;

/// Makes a place in the cache for each of the pages, so that they can stay there once they are written. What the cache has
/// of their keys goes.
pub(crate) fn make_places(cache: &mut PageCache, pages: &[FreshPage]) -> Result<(), AllocError>
    ensures sizes { KeepsSizes cache.old cache.new }
    ensures fewer { HasNoMore cache.old cache.new }
    ensures no_fewer { held_count cache.old ≤ held_count cache.new }
    // Where there is room for all, each gets its place, and nothing of another key goes.
    ensures places { held_count cache.old + length pages.now ≤ capacity_of cache.old → OnOk result (HavePlaces pages.now cache.new × KeepsUnwritten pages.now cache.old cache.new) }
    ensures lacks { OnOk result (LacksPages pages.now cache.new) }
{
    for page in pages {
        cache.reserve(page.key)?;
    }
    Ok(())
}

/// What the cuts take goes.
pub(crate) fn drop_cuts(cache: &mut PageCache, cuts: &[Cut])
    ensures sizes { KeepsSizes cache.old cache.new }
    ensures fewer { HasNoMore cache.old cache.new }
    ensures lacks { LacksCuts cuts.now cache.new }
    ensures others { KeepsUncut cuts.now cache.old cache.new }
{
    for cut in cuts {
        cache.remove_from(cut.object, cut.from);
    }
}

/// The pages that the cache has of the keys of these pages go. Places for them stay.
fn drop_pages(cache: &mut PageCache, pages: &[FreshPage])
    ensures sizes { KeepsSizes cache.old cache.new }
    ensures fewer { HasNoMore cache.old cache.new }
    ensures lacks { LacksPages pages.now cache.new }
    ensures others { KeepsUnwritten pages.now cache.old cache.new }
    ensures places { KeepsKeys cache.old cache.new }
{
    for page in pages {
        cache.vacate(page.key);
    }
}

/// The same, where the cache may have some of them again after a commit. Else it has none, and nothing is looked for.
pub(crate) fn drop_committed(cache: &mut PageCache, pages: &[FreshPage], is_committed: bool)
    requires { is_committed ≡ false → LacksPages pages.now cache.old }
    ensures sizes { KeepsSizes cache.old cache.new }
    ensures fewer { HasNoMore cache.old cache.new }
    ensures lacks { LacksPages pages.now cache.new }
    ensures places { KeepsKeys cache.old cache.new }
{
    if is_committed {
        drop_pages(cache, pages);
    }
}

/// Moves the pages that were written last into the cache, where there is a place for them. It takes no memory, and leaves at most so
/// many spare frames.
pub(crate) fn keep_written(buffer: &mut Buffer, cache: &mut PageCache, spares: usize)
    requires size { bytes_of_page buffer.old ≡ page_bytes_of cache.old }
    ensures pages { contents buffer.new ≡ contents buffer.old }
    ensures buffer_sizes { (most_pages buffer.new ≡ most_pages buffer.old) × (bytes_of_page buffer.new ≡ bytes_of_page buffer.old) }
    ensures sizes { KeepsSizes cache.old cache.new }
    ensures shows { (m : PageMap) → Shows cache.old m → AreIn (last_written buffer.old) m → Shows cache.new m }
    ensures takes { TakesPages (last_written buffer.old) cache.old cache.new }
    ensures places { KeepsKeys cache.old cache.new }
{
    while let Some(page) = buffer.take_written() {
        cache.fill(page.key, page.bytes);
    }
    cache.keep_spares(spares);
}
