// The parts of 32 bytes that the pages of a checkpoint are.
ghost use Rattle.std.specs.Prelude.{◌≡◌, ◌<◌, ◌+◌, ◌-◌, ◌*◌, ◌/◌, ◌^◌, ℕ, suc, List, length, drop};
ghost use Rattle.page_tags.specs.Checks.{check_slot};
ghost use Rattle.chunk_index.specs.declared.form.CommittedKey.{CommittedKey};
ghost use Rattle.chunk_index.specs.Following.{keys_left};
ghost use Rattle.flash_log.specs.CheckpointListing.{HasKeys, check_entry, check_entries, parts_from};

use chunk_index::{CommittedKey, CommittedKeys, Index};
use page_tags::{CheckEntry, encode_check_entry, encode_check_head};

/// The entry of a key that is committed.
fn entry_of(committed: CommittedKey) -> CheckEntry
    ensures { result ≡ check_entry committed }
{
    CheckEntry {
        object: committed.key.object,
        chunk: committed.key.chunk,
        version: committed.at.version,
        block: committed.at.block,
        page: committed.at.page,
    }
}

/// Writes the entry of the next committed key, or zeros where there is none.
fn write_entry(keys: &mut CommittedKeys<'_>, part: &mut [u8])
    requires { length part.old ≡ 32 }
    ensures part { (ks : List CommittedKey) (n : ℕ) → keys_left keys.old ≡ drop n ks → part.new ≡ check_slot (check_entries ks) (suc n) }
    ensures keys { (ks : List CommittedKey) (n : ℕ) → keys_left keys.old ≡ drop n ks → keys_left keys.new ≡ drop (suc n) ks }
{
    match keys.next() {
        Some(committed) => encode_check_entry(&entry_of(committed), part),
        None => part.copy_from_slice(&[0; 32]),
    }
}

/// Writes part `k` of a checkpoint of so many entries: the head, or an entry, or zeros. The keys before that of the entry are taken.
fn write_part(count: u64, k: u32, keys: &mut CommittedKeys<'_>, part: &mut [u8])
    requires { length part.old ≡ 32 }
    ensures part { (ks : List CommittedKey) → count ≡ length ks → keys_left keys.old ≡ drop (k - 1) ks → part.new ≡ check_slot (check_entries ks) k }
    ensures keys { (ks : List CommittedKey) → keys_left keys.old ≡ drop (k - 1) ks → keys_left keys.new ≡ drop k ks }
{
    if k == 0 {
        encode_check_head(count, part);
    } else {
        write_entry(keys, part);
    }
}

/// Writes the parts of a page from part `first` on.
pub(crate) fn write_parts(index: &Index, count: u64, first: u32, page: &mut [u8])
    requires size { 32 * (length page.old / 32) ≡ length page.old }
    requires within_limit { first + length page.old / 32 < 2 ^ 32 }
    ensures size { length page.new ≡ length page.old }
    ensures parts { (ks : List CommittedKey) → HasKeys index.now ks → count ≡ length ks → page.new ≡ parts_from (check_entries ks) first (length page.old / 32) }
{
    let mut keys = index.committed_from(first.saturating_sub(1));
    for k in 0..page.len() / 32 {
        let part = &mut page[32 * k..32 * k + 32];
        write_part(count, first + k as u32, &mut keys, part);
    }
}
