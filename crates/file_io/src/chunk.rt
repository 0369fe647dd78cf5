// The chunks of a file, numbered from 0, as they are before a change.
ghost use Rattle.std.specs.Prelude.{◌≡◌, ◌<◌, ◌≤◌, ◌+◌, ◌-◌, ◌*◌, ◌/◌, ◌^◌, ℕ, true, IfOk, OnOk, IfErr, length, slice_index};
ghost use Rattle.page_tags.specs.Headers.{is_present};
ghost use Rattle.pages.specs.Changes.{AreSized};
ghost use Rattle.file_io.specs.Heads.{bits_in, HasChunkPage, HasTailPage, OfHead};
ghost use Rattle.file_io.specs.Chunks.{AreOf, IsTail, HoldChunksIn, HoldsChunkIn};
ghost use Rattle.pages.specs.Faults.{LooksUp, MayLackMemory, SaysWhyMaking};

use crate::file_head::FileHead;
use flash_tree::{FreshPage, Key};
use page_tags::is_present;
use pages::{PageFault, Pages, blank_page, copied_page, load};
use std::alloc::Global;

/// Writes zeros over the bytes from a place on.
fn clear_from(bytes: &mut [u8], from: usize)
    ensures before { (i : ℕ) → i < from → slice_index bytes.new i ≡ slice_index bytes.old i }
    ensures after { (i : ℕ) → from ≤ i → slice_index bytes.new i ≡ 0 }
{
    for i in from..bytes.len() {
        bytes[i] = 0;
    }
}

/// The bytes of a chunk, with zeros where the file has none.
pub(crate) fn chunk_bytes<P: Pages>(
    alloc: Global,
    pages: &mut P,
    object: u64,
    head: &FileHead,
    index: u64,
) -> Result<Vec<u8>, PageFault>
    requires { index < 2 ^ 32 }
    ensures looks { LooksUp SaysWhyMaking (P.state pages.old) (P.state pages.new) result }
    ensures issued { (P.state pages.new).issued ≤ (P.state pages.old).issued + 1 }
    ensures reported { (P.state pages.old).sound ≡ true → OnOk result (HasChunkPage (P.state pages.old) object head.now index) }
    ensures size { IfOk result (λ bytes. length bytes.items ≡ (P.state pages.old).page_bytes) }
    ensures holds { OfHead (P.state pages.old) object head.now (λ all. IfOk result (HoldsChunkIn (P.state pages.old) all index)) }
    ensures fault { OfHead (P.state pages.old) object head.now (λ all. IfErr result (MayLackMemory (P.state pages.new))) }
{
    let page_bytes = u64::from(pages.page_bytes());
    if !is_present(head.bits(), 1 + index) {
        return Ok(blank_page(alloc, pages)?);
    }
    load(
        pages,
        Key {
            object,
            chunk: 1 + index,
        },
    )?;
    let mut bytes = copied_page(alloc, pages)?;
    let used = head.length.saturating_sub(index * page_bytes);
    clear_from(&mut bytes, used as usize);
    Ok(bytes)
}

/// The page of a file's last chunk with zeros past the end of the file, where that chunk is present, partly used and
/// before chunk `before`; else no page. A file that grows without it would show what the page held past the old end.
pub(crate) fn tail_pages<P: Pages>(
    alloc: Global,
    pages: &mut P,
    object: u64,
    head: &FileHead,
    before: u64,
) -> Result<Vec<FreshPage>, PageFault>
    requires { head.now.length < 2 ^ 32 }
    ensures looks { LooksUp SaysWhyMaking (P.state pages.old) (P.state pages.new) result }
    ensures issued { (P.state pages.new).issued ≤ (P.state pages.old).issued + 1 }
    ensures none_issued { before ≤ head.now.length / (P.state pages.old).page_bytes → (P.state pages.new).issued ≡ (P.state pages.old).issued }
    ensures reported { (P.state pages.old).sound ≡ true → OnOk result (HasTailPage (P.state pages.old) object head.now before) }
    ensures of { IfOk result (λ fresh. AreOf object (IsTail (P.state pages.old).page_bytes head.now.length (bits_in head.now) before) fresh.items) }
    ensures within_limit { IfOk result (λ fresh. length fresh.items ≤ 1) }
    ensures sized { IfOk result (λ fresh. AreSized fresh.items (P.state pages.old).page_bytes) }
    ensures hold { OfHead (P.state pages.old) object head.now (λ all. IfOk result (HoldChunksIn (P.state pages.old) all)) }
    ensures fault { OfHead (P.state pages.old) object head.now (λ all. IfErr result (MayLackMemory (P.state pages.new))) }
{
    let page_bytes = u64::from(pages.page_bytes());
    let index = head.length / page_bytes;
    if head.length % page_bytes == 0 || index >= before || !is_present(head.bits(), 1 + index) {
        return Ok(Vec::new(alloc));
    }
    let bytes = chunk_bytes(alloc, pages, object, head, index)?;
    let key = Key {
        object,
        chunk: 1 + index,
    };
    Ok(vec![in alloc; FreshPage { key, bytes }]?)
}
