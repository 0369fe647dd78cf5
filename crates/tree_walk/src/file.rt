// The chunks of a file.
ghost use Rattle.std.specs.Prelude.{◌≡◌, ◌≤◌, ℕ, true, IfNone, IfSome, IsNone, IsSome, length};
ghost use Rattle.page_tags.specs.Headers.{is_present};

use flash_tree::Key;
use page_tags::is_present;
use pages::Pages;

/// The first chunk that a file's presence bits name and that has no page, in pages that are sound.
pub(crate) fn missing_chunk<P: Pages>(pages: &P, file: u64, bits: &[u8]) -> Option<u64>
    requires { length bits.now ≤ 4064 }
    ensures all { (P.state pages.now).sound ≡ true
        → IfNone result ((c : ℕ) → 1 ≤ c → is_present bits.now c ≡ true → IsSome ((P.state pages.now).present file c)) }
    ensures lacks { (P.state pages.now).sound ≡ true
        → IfSome result (λ c. (1 ≤ c) × (is_present bits.now c ≡ true) × IsNone ((P.state pages.now).present file c)) }
{
    for place in 0..8 * bits.len() as u64 {
        let key = Key {
            object: file,
            chunk: 1 + place,
        };
        if is_present(bits, key.chunk) && !pages.has(key) {
            return Some(key.chunk);
        }
    }
    None
}
