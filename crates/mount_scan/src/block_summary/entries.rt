// The entries of a summary.
ghost use Rattle.std.specs.Prelude.{◌≡◌, ◌↔◌, ◌<◌, ◌≤◌, ◌+◌, ◌*◌, [], ◌∷◌, ◌++◌, IsTrue, IfOk, length, false};
ghost use Rattle.page_tags.specs.Checks.{check_entry_in};
ghost use Rattle.page_tags.specs.declared.check.CheckEntry.{CheckEntry};
ghost use Rattle.mount_scan.specs.SummaryContents.{AreListed, IsLast, MayCome, entries_in};

use nand_model::Geometry;
use page_tags::{CheckEntry, SummaryHead, decode_check_entry};
use std::alloc::AllocError;

/// Whether an entry is of a later page than the last of a list, if it has one.
fn comes_after(entries: &[CheckEntry], entry: &CheckEntry) -> bool
    ensures { IsTrue result ↔ ((last : CheckEntry) → IsLast entries.now last → last.page < entry.now.page) }
{
    match entries.last() {
        Some(last) => last.page < entry.page,
        None => true,
    }
}

/// Whether an entry may come after these.
fn may_come(
    geometry: &Geometry,
    head: &SummaryHead,
    entries: &[CheckEntry],
    entry: &CheckEntry,
) -> bool
    ensures { IsTrue result ↔ MayCome geometry.now head.now entries.now entry.now }
{
    entry.block == head.block && entry.page < geometry.pages() && comes_after(entries, entry)
}

/// Takes an entry from its 32 bytes. The result is whether it may come next.
fn take_entry(
    geometry: &Geometry,
    head: &SummaryHead,
    part: &[u8],
    entries: &mut Vec<CheckEntry>,
) -> Result<bool, AllocError>
    requires size { length part.now ≡ 32 }
    requires so_far { AreListed geometry.now head.now entries.old.items }
    ensures is { IfOk result (λ taken. IsTrue taken → entries.new.items ≡ entries.old.items ++ check_entry_in part.now ∷ []) }
    ensures yes { IfOk result (λ taken. IsTrue taken → AreListed geometry.now head.now entries.new.items) }
    ensures no { IfOk result (λ taken. taken ≡ false → AreListed geometry.now head.now (entries.old.items ++ check_entry_in part.now ∷ []) → ⊥) }
{
    let entry = decode_check_entry(part);
    if !may_come(geometry, head, entries, &entry) {
        return Ok(false);
    }
    entries.push(entry)?;
    Ok(true)
}

/// Takes as many entries as the head says from the bytes behind it. The result is whether a summary may have them.
pub(crate) fn take_entries(
    geometry: &Geometry,
    head: &SummaryHead,
    bytes: &[u8],
    entries: &mut Vec<CheckEntry>,
) -> Result<bool, AllocError>
    requires room { 32 * (1 + head.now.entries) ≤ length bytes.now }
    requires empty { entries.old.items ≡ [] }
    ensures is { IfOk result (λ taken. IsTrue taken → entries.new.items ≡ entries_in bytes.now head.now.entries) }
    ensures yes { IfOk result (λ taken. IsTrue taken → AreListed geometry.now head.now entries.new.items) }
    ensures no { IfOk result (λ taken. taken ≡ false → AreListed geometry.now head.now (entries_in bytes.now head.now.entries) → ⊥) }
{
    for k in 0..head.entries as usize {
        let part = &bytes[32 * (1 + k)..32 * (1 + k) + 32];
        if !take_entry(geometry, head, part, entries)? {
            return Ok(false);
        }
    }
    Ok(true)
}
