// The pages of a checkpoint, as bytes.
ghost use Rattle.std.specs.Prelude.{◌≡◌, ◌≢◌, ◌↔◌, ◌<◌, ◌≤◌, ◌+◌, ◌*◌, ℕ, [], take, min, IsTrue, IfOk, IfSome, IfNone, length, false};
ghost use Rattle.volume_terms.specs.Rounding.{ceiling};
ghost use Rattle.page_tags.specs.Checks.{check_head_bytes};
ghost use Rattle.mount_scan.specs.CheckpointParts.{AreEntries, Takes, Refuses};
ghost use Rattle.mount_scan.specs.CheckpointPages.{IsPage, IsPageSize, entries_below, TakesFirst, RefusesFirst};

use crate::checkpoint_part::take_parts;
use page_tags::{CheckEntry, decode_check_head};
use std::alloc::AllocError;

/// Whether the head and `n` entries take so many pages of so many bytes.
fn take_pages(n: u64, bytes: usize, count: u32) -> bool
    requires bytes { IsPageSize bytes }
    requires count { count ≤ 256 }
    ensures { IsTrue result ↔ (count ≡ ceiling (32 * (1 + n)) bytes) }
{
    n < 1 << 32 && (32 * (n + 1)).div_ceil(bytes as u64) == count as u64
}

/// The number of entries in the head that page 0 begins with, if it has one and they take so many pages.
fn entries_of(page: &[u8], count: u32) -> Option<u64>
    requires size { IsPageSize (length page.now) }
    requires count { count ≤ 256 }
    ensures head { IfSome result (λ n. take 32 page.now ≡ check_head_bytes n) }
    ensures size { IfSome result (λ n. count ≡ ceiling (32 * (1 + n)) (length page.now)) }
    ensures none { IfNone result ((n : ℕ) → count ≡ ceiling (32 * (1 + n)) (length page.now) → take 32 page.now ≢ check_head_bytes n) }
{
    let n = decode_check_head(&page[..32])?;
    if take_pages(n, page.len(), count) {
        Some(n)
    } else {
        None
    }
}

/// Takes page 0 of a checkpoint of so many pages: its head and the first entries. The result is how many entries the
/// checkpoint has, or none where this is no such page.
pub(crate) fn take_first(
    page: &[u8],
    count: u32,
    entries: &mut Vec<CheckEntry>,
) -> Result<Option<u64>, AllocError>
    requires size { IsPageSize (length page.now) }
    requires count { count ≤ 256 }
    requires empty { entries.old.items ≡ [] }
    ensures found { IfOk result (λ found. IfSome found (λ n. TakesFirst n count page.now entries.new.items)) }
    ensures none { IfOk result (λ found. IfNone found (RefusesFirst count page.now)) }
{
    let Some(n) = entries_of(page, count) else {
        return Ok(None);
    };
    if take_parts(&page[32..], 0, n, entries)? {
        Ok(Some(n))
    } else {
        Ok(None)
    }
}

/// Takes a later page of a checkpoint of `n` entries. The result is whether it is that page.
pub(crate) fn take_next(
    page: &[u8],
    i: u32,
    n: u64,
    entries: &mut Vec<CheckEntry>,
) -> Result<bool, AllocError>
    requires size { IsPageSize (length page.now) }
    requires later { 1 ≤ i }
    requires within_limit { i < 256 }
    requires so_far { AreEntries (min n (entries_below (length page.now) i)) entries.old.items }
    ensures yes { IfOk result (λ taken. IsTrue taken → Takes n (entries_below (length page.now) (i + 1)) (IsPage page.now i) entries.old.items entries.new.items) }
    ensures no { IfOk result (λ taken. taken ≡ false → Refuses n (IsPage page.now i) entries.old.items) }
{
    let first = i as u64 * (page.len() / 32) as u64 - 1;
    take_parts(page, first, n, entries)
}
