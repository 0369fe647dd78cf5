// The writing of a file.
ghost use Rattle.std.specs.Prelude.{◌≡◌, ◌<◌, ◌≤◌, ◌+◌, ◌-◌, ◌*◌, ◌/◌, ◌^◌, ℕ, true, IfOk, IfErr, OnOk, length, min};
ghost use Rattle.page_tags.specs.Headers.{greatest_recorded};
ghost use Rattle.page_tags.specs.declared.header.ObjectKind.TheVariants as kinds;
ghost use Rattle.posix_profile.specs.Changes.{written};
ghost use Rattle.pages.specs.Changes.{AreSized, IsNothing, IsOnlyOf};
ghost use Rattle.file_io.specs.Files.{HasForWrite, OfFile};
ghost use Rattle.file_io.specs.Heads.{HasChunkPage, HasPartPages, OfHead};
ghost use Rattle.file_io.specs.Chunks.{AreOf, HoldChunksIn, HoldsChunkIn, IfNoneStays, IfPartStays};
ghost use Rattle.pages.specs.Faults.{MayLackMemory, SaysWhyMaking, LooksUp};
ghost use Rattle.file_io.specs.Parts.{MeetsChunk};
ghost use Rattle.file_io.specs.Writes.{AreFewOver, IssuesForWrite, HasNoHeader, IfHeaderStays, IsChangeIn, IsSmallWrite, IsWrittenBy, MakesWritten, with_parts};

use crate::bits::{has_all, mark_in};
use crate::chunk::{chunk_bytes, tail_pages};
use crate::file_head::FileHead;
use crate::head::{head_page, read_head};
use crate::overwriting::overwrite;
use flash_tree::{FreshPage, Key};
use pages::{Change, PageFault, Pages, filled_page};
use std::alloc::Global;

/// The bytes of a chunk when `bytes` were written into the file from `offset` on. A chunk that is written whole is not
/// looked up.
fn written_bytes<P: Pages>(
    alloc: Global,
    pages: &mut P,
    object: u64,
    head: &FileHead,
    index: u64,
    offset: u64,
    bytes: &[u8],
) -> Result<Vec<u8>, PageFault>
    requires write { IsSmallWrite offset (length bytes.now) }
    requires meets { MeetsChunk (P.state pages.old).page_bytes index offset (offset + length bytes.now) }
    ensures looks { LooksUp SaysWhyMaking (P.state pages.old) (P.state pages.new) result }
    ensures issued { (P.state pages.new).issued ≤ (P.state pages.old).issued + 1 }
    ensures none_issued { IfNoneStays (P.state pages.old) index offset (length bytes.now) ((P.state pages.new).issued ≡ (P.state pages.old).issued) }
    ensures reported { IfPartStays (P.state pages.old) index offset (length bytes.now) (OnOk result (HasChunkPage (P.state pages.old) object head.now index)) }
    ensures size { IfOk result (λ page. length page.items ≡ (P.state pages.old).page_bytes) }
    ensures holds { OfHead (P.state pages.old) object head.now (λ all.
        IfOk result (HoldsChunkIn (P.state pages.old) (written all offset bytes.now) index)) }
    ensures fault { OfHead (P.state pages.old) object head.now (λ all. IfErr result (MayLackMemory (P.state pages.new))) }
{
    let page_bytes = u64::from(pages.page_bytes());
    let begin = index * page_bytes;
    let end = offset + bytes.len() as u64;
    let from = offset.max(begin);
    let to = end.min(begin + page_bytes);
    let part = &bytes[(from - offset) as usize..(to - offset) as usize];
    if to - from == page_bytes {
        return Ok(filled_page(alloc, pages, part)?);
    }
    let mut page = chunk_bytes(alloc, pages, object, head, index)?;
    overwrite(&mut page, (from - begin) as usize, part);
    Ok(page)
}

/// The pages of the chunks that `bytes` are written into from `offset` on, and of the last chunk where the file grows
/// past it.
fn written_pages<P: Pages>(
    alloc: Global,
    pages: &mut P,
    object: u64,
    head: &FileHead,
    offset: u64,
    bytes: &[u8],
) -> Result<Vec<FreshPage>, PageFault>
    requires write { IsSmallWrite offset (length bytes.now) }
    requires short { head.now.length < 2 ^ 32 }
    ensures looks { LooksUp SaysWhyMaking (P.state pages.old) (P.state pages.new) result }
    ensures issued { (P.state pages.new).issued ≤ with_parts (P.state pages.old).page_bytes head.now.length offset (length bytes.now) (P.state pages.old).issued }
    ensures reported { (P.state pages.old).sound ≡ true → OnOk result (HasPartPages (P.state pages.old) object head.now offset (length bytes.now)) }
    ensures of { IfOk result (λ fresh. AreOf object (IsWrittenBy (P.state pages.old) head.now offset (length bytes.now)) fresh.items) }
    ensures within_limit { IfOk result (λ fresh. AreFewOver (P.state pages.old) offset (length bytes.now) fresh.items) }
    ensures sized { IfOk result (λ fresh. AreSized fresh.items (P.state pages.old).page_bytes) }
    ensures hold { OfHead (P.state pages.old) object head.now (λ all. IfOk result (HoldChunksIn (P.state pages.old) (written all offset bytes.now))) }
    ensures fault { OfHead (P.state pages.old) object head.now (λ all. IfErr result (MayLackMemory (P.state pages.new))) }
{
    let page_bytes = u64::from(pages.page_bytes());
    let first = offset / page_bytes;
    let end = (offset + bytes.len() as u64 - 1) / page_bytes + 1;
    let mut fresh = tail_pages(alloc, pages, object, head, first)?;
    for index in first..end {
        let page = written_bytes(alloc, pages, object, head, index, offset, bytes)?;
        let key = Key {
            object,
            chunk: 1 + index,
        };
        fresh.push(FreshPage { key, bytes: page })?;
    }
    Ok(fresh)
}

/// The change that writes bytes into a file from a place on, at this moment. A gap before them reads as zeros. No bytes
/// change nothing.
///
/// It has the pages of the chunks that are written into, that of the last chunk where the file grows past it, and the
/// header if that says something else than before. Looked up are the header, and of these chunks those of which a part
/// stays.
pub fn write_at<P: Pages>(
    alloc: Global,
    pages: &mut P,
    object: u64,
    offset: u64,
    bytes: &[u8],
    moment: u64,
) -> Result<Change, PageFault>
    requires { offset + length bytes.now ≤ greatest_recorded (P.state pages.old).page_bytes kinds.File }
    ensures looks { LooksUp SaysWhyMaking (P.state pages.old) (P.state pages.new) result }
    ensures writes { OfFile (P.state pages.old) object (λ z before all f. 1 ≤ length bytes.now → IfOk result (MakesWritten f offset bytes.now moment)) }
    ensures same { length bytes.now ≡ 0
        → IfOk result IsNothing }
    ensures only { IfOk result (λ change. IsOnlyOf change object) }
    ensures change { (chunks : ℕ) → length bytes.now ≤ chunks * (P.state pages.old).page_bytes
        → IfOk result (IsChangeIn (P.state pages.old) (chunks + 3)) }
    ensures quiet { OfFile (P.state pages.old) object (λ z before all f.
        IfHeaderStays f moment offset (length bytes.now) (IfOk result (HasNoHeader object))) }
    ensures issued { OfFile (P.state pages.old) object (λ z before all f. IssuesForWrite f (P.state pages.new) offset (length bytes.now)) }
    ensures reported { (P.state pages.old).sound ≡ true → OnOk result (HasForWrite (P.state pages.old) object offset (length bytes.now)) }
    ensures fault { OfFile (P.state pages.old) object (λ z before all f. IfErr result (MayLackMemory (P.state pages.new))) }
{
    let head = read_head(alloc, pages, object)?;
    let size = u64::from(pages.page_bytes());
    let mut change = Change::none(alloc);
    if bytes.is_empty() {
        return Ok(change);
    }
    change.pages = written_pages(alloc, pages, object, &head, offset, bytes)?;
    let to = offset + bytes.len() as u64;
    let first = offset / size;
    let end = (to - 1) / size + 1;
    if head.moment == moment && to <= head.length && has_all(head.bits(), first, end) {
        pages.return_frame(head.page);
        return Ok(change);
    }
    let length = head.length.max(to);
    let mut page = head.page;
    mark_in(&mut page, first, end, true);
    change.pages.push(head_page(object, length, moment, page))?;
    Ok(change)
}
