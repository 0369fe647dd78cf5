// The parts of 32 bytes that the pages of a block summary are.
ghost use Rattle.std.specs.Prelude.{◌≡◌, ◌<◌, ◌≤◌, ◌+◌, ◌*◌, ◌/◌, ◌^◌, ℕ, length};
ghost use Rattle.flash_log.specs.SummarySource.{part_bytes};

use page_tags::{CheckEntry, SummaryHead, encode_check_entry, encode_summary_head};

/// Writes part `k` of a summary: the head, or an entry, or zeros.
fn write_part(head: &SummaryHead, entries: &[CheckEntry], k: u32, part: &mut [u8])
    requires { length part.old ≡ 32 }
    ensures { (size : ℕ) → 32 * (k + 1) ≤ size → part.new ≡ part_bytes size k 32 head.now entries.now }
{
    if k == 0 {
        encode_summary_head(head, part);
        return;
    }
    match entries.get(k as usize - 1) {
        Some(entry) => encode_check_entry(entry, part),
        None => part.copy_from_slice(&[0; 32]),
    }
}

/// Writes the parts of a page of a summary from part `first` on.
pub(crate) fn write_parts(head: &SummaryHead, entries: &[CheckEntry], first: u32, page: &mut [u8])
    requires size { 32 * (length page.old / 32) ≡ length page.old }
    requires within_limit { first + length page.old / 32 < 2 ^ 32 }
    ensures size { length page.new ≡ length page.old }
    ensures parts { (size : ℕ) → 32 * first + length page.old ≤ size → page.new ≡ part_bytes size first (length page.old) head.now entries.now }
{
    for k in 0..page.len() / 32 {
        let part = &mut page[32 * k..32 * k + 32];
        write_part(head, entries, first + k as u32, part);
    }
}
