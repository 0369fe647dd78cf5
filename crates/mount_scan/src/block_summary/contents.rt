// What the bytes of a summary say.
ghost use Rattle.std.specs.Prelude.{◌≡◌, ◌↔◌, ◌<◌, ◌≤◌, ◌+◌, ◌*◌, IsTrue, IfOk, IfSome, IfNone, length, replicate};
ghost use Rattle.volume_terms.specs.Rounding.{ceiling};
ghost use Rattle.page_tags.specs.declared.summary_head.SummaryHead.{SummaryHead};
ghost use Rattle.mount_scan.specs.SummaryContents.{BeginsWith, Says, SaysNone};

use crate::block_summary::entries::take_entries;
use nand_model::Geometry;
use page_tags::{CheckEntry, SummaryHead, decode_summary_head};
use std::alloc::{AllocError, Global};

/// What a summary says.
#[derive(Drop)]
pub(crate) struct Contents {
    pub(crate) head: SummaryHead,
    pub(crate) entries: Vec<CheckEntry>,
}

/// Whether the head and `n` entries take so many pages.
fn take_pages(geometry: &Geometry, n: u32, count: u32) -> bool
    ensures { IsTrue result ↔ (count ≡ ceiling (32 * (1 + n)) geometry.now.bytes) }
{
    (32 * (1 + n as u64)).div_ceil(geometry.bytes() as u64) == count as u64
}

/// The head that the bytes of so many pages begin with, if a summary may have it.
fn head_of(geometry: &Geometry, count: u32, bytes: &[u8]) -> Option<SummaryHead>
    requires size { length bytes.now ≡ count * geometry.now.bytes }
    requires not_empty { 1 ≤ count }
    ensures found { IfSome result (BeginsWith geometry.now count bytes.now) }
    ensures room { IfSome result (λ head. 32 * (1 + head.entries) ≤ length bytes.now) }
    ensures none { IfNone result ((head : SummaryHead) → BeginsWith geometry.now count bytes.now head → ⊥) }
{
    let head = decode_summary_head(&bytes[..32])?;
    if head.block < geometry.blocks()
        && head.entries <= geometry.pages()
        && take_pages(geometry, head.entries, count)
    {
        Some(head)
    } else {
        None
    }
}

/// Whether all bytes are zero.
fn are_zero(bytes: &[u8]) -> bool
    ensures { IsTrue result ↔ (bytes.now ≡ replicate (length bytes.now) 0) }
{
    for byte in bytes {
        if *byte != 0 {
            return false;
        }
    }
    true
}

/// What the bytes of so many pages say, if they are those of a summary.
pub(crate) fn contents_of(
    alloc: Global,
    geometry: &Geometry,
    count: u32,
    bytes: &[u8],
) -> Result<Option<Contents>, AllocError>
    requires size { length bytes.now ≡ count * geometry.now.bytes }
    requires not_empty { 1 ≤ count }
    ensures found { IfOk result (λ found. IfSome found (λ x. Says geometry.now count bytes.now x.head x.entries.items)) }
    ensures none { IfOk result (λ found. IfNone found (SaysNone geometry.now count bytes.now)) }
{
    let Some(head) = head_of(geometry, count, bytes) else {
        return Ok(None);
    };
    let mut entries = Vec::with_capacity(alloc, head.entries as usize)?;
    if !take_entries(geometry, &head, bytes, &mut entries)? {
        return Ok(None);
    }
    if !are_zero(&bytes[32 * (1 + head.entries as usize)..]) {
        return Ok(None);
    }
    Ok(Some(Contents { head, entries }))
}
