// The presence bits of a range of chunks, numbered from 0.
ghost use Rattle.std.specs.Prelude.{◌≡◌, ◌<◌, ◌≤◌, ◌+◌, ◌-◌, ◌*◌, ◌^◌, ◌⊎◌, ℕ, true, false, length, drop};
ghost use Rattle.page_tags.specs.Headers.{is_present};

use page_tags::{is_present, set_present};

/// Whether the chunks from `first` on and before `end` are all present.
pub(crate) fn has_all(bits: &[u8], first: u64, end: u64) -> bool
    requires { end < 2 ^ 64 - 1 }
    ensures all { result ≡ true → (k : ℕ) → first ≤ k → k < end → is_present bits.now (1 + k) ≡ true }
    ensures lacks { result ≡ false → (k : ℕ) × (first ≤ k) × (k < end) × (is_present bits.now (1 + k) ≡ false) }
{
    for index in first..end {
        if !is_present(bits, 1 + index) {
            return false;
        }
    }
    true
}

/// Marks the chunks from `first` on and before `end` as present or not.
fn mark(bits: &mut [u8], first: u64, end: u64, present: bool)
    requires small { end < 2 ^ 64 - 1 }
    requires within { end ≤ 8 * length bits.old }
    ensures here { (k : ℕ) → first ≤ k → k < end → is_present bits.new (1 + k) ≡ present }
    ensures others { (k : ℕ) → (k < first) ⊎ (end ≤ k) → is_present bits.new (1 + k) ≡ is_present bits.old (1 + k) }
{
    for index in first..end {
        set_present(bits, 1 + index, present);
    }
}

/// The same in the page of a header.
pub(crate) fn mark_in(page: &mut [u8], first: u64, end: u64, present: bool)
    requires least { 32 ≤ length page.old }
    requires small { end < 2 ^ 64 - 1 }
    requires within { end ≤ 8 * (length page.old - 32) }
    ensures here { (k : ℕ) → first ≤ k → k < end → is_present (drop 32 page.new) (1 + k) ≡ present }
    ensures others { (k : ℕ) → (k < first) ⊎ (end ≤ k) → is_present (drop 32 page.new) (1 + k) ≡ is_present (drop 32 page.old) (1 + k) }
{
    mark(&mut page[32..], first, end, present);
}
