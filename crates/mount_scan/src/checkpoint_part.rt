// The parts of 32 bytes of a checkpoint.
ghost use Rattle.std.specs.Prelude.{◌≡◌, ◌↔◌, ◌<◌, ◌+◌, ◌*◌, ◌/◌, ◌^◌, min, IsTrue, IfOk, length, false};
ghost use Rattle.page_tags.specs.Checks.{IsEntryBefore};
ghost use Rattle.page_tags.specs.declared.check.CheckEntry.{CheckEntry};
ghost use Rattle.mount_scan.specs.CheckpointParts.{AreEntries, ArePartsFrom, IsLast, Takes, Refuses, entry_part};

use page_tags::{CheckEntry, decode_check_entry};
use std::alloc::AllocError;

/// Whether one entry comes before another: by the object, then by the chunk.
fn comes_before(entry: &CheckEntry, other: &CheckEntry) -> bool
    ensures { IsTrue result ↔ IsEntryBefore entry.now other.now }
{
    entry.object < other.object || entry.object == other.object && entry.chunk < other.chunk
}

/// Whether an entry comes after the last of a list, if it has one.
fn comes_next(entries: &[CheckEntry], entry: &CheckEntry) -> bool
    ensures { IsTrue result ↔ ((last : CheckEntry) → IsLast entries.now last → IsEntryBefore last entry.now) }
{
    match entries.last() {
        Some(last) => comes_before(last, entry),
        None => true,
    }
}

/// Takes a part of 32 bytes: the entry at this place of `n`, or zeros behind the last. The result is whether it is one.
fn take_part(
    part: &[u8],
    place: u64,
    n: u64,
    entries: &mut Vec<CheckEntry>,
) -> Result<bool, AllocError>
    requires size { length part.now ≡ 32 }
    requires so_far { AreEntries (min n place) entries.old.items }
    ensures yes { IfOk result (λ taken. IsTrue taken → Takes n (place + 1) (λ fs. part.now ≡ entry_part fs place) entries.old.items entries.new.items) }
    ensures no { IfOk result (λ taken. taken ≡ false → Refuses n (λ fs. part.now ≡ entry_part fs place) entries.old.items) }
{
    if place >= n {
        return Ok(part == &[0; 32][..]);
    }
    let entry = decode_check_entry(part);
    if !comes_next(entries, &entry) {
        return Ok(false);
    }
    entries.push(entry)?;
    Ok(true)
}

/// Takes parts of 32 bytes in a row, from this place on: entries, and zeros behind the last. The result is whether they
/// are.
pub(crate) fn take_parts(
    parts: &[u8],
    first: u64,
    n: u64,
    entries: &mut Vec<CheckEntry>,
) -> Result<bool, AllocError>
    requires size { 32 * (length parts.now / 32) ≡ length parts.now }
    requires within_limit { first + length parts.now / 32 < 2 ^ 64 }
    requires so_far { AreEntries (min n first) entries.old.items }
    ensures yes { IfOk result (λ taken. IsTrue taken → Takes n (first + length parts.now / 32) (ArePartsFrom first parts.now) entries.old.items entries.new.items) }
    ensures no { IfOk result (λ taken. taken ≡ false → Refuses n (ArePartsFrom first parts.now) entries.old.items) }
{
    for k in 0..parts.len() / 32 {
        let part = &parts[32 * k..32 * k + 32];
        if !take_part(part, first + k as u64, n, entries)? {
            return Ok(false);
        }
    }
    Ok(true)
}
