// The reading of a file.
ghost use Rattle.std.specs.Prelude.{◌≡◌, ◌<◌, ◌≤◌, ◌+◌, ◌-◌, ◌*◌, ◌/◌, true, IfOk, IfErr, OnOk, length, min, drop};
ghost use Rattle.file_io.specs.Files.{OfFileOnly};
ghost use Rattle.pages.specs.Faults.{LooksUp, MayLack};
ghost use Rattle.file_io.specs.Parts.{MeetsChunk};
ghost use Rattle.file_io.specs.Reads.{IssuesForChunks, IssuesForPage, IssuesForPages, HasRead, filled, read_count};

use crate::overwriting::{clear, overwrite};
use flash_tree::Key;
use pages::{PageFault, Pages, Presence};

/// Puts the bytes of a file that lie in one of its chunks, from `offset` on and before `end`, at their place in a buffer that begins
/// with the byte at `offset`.
fn read_part<P: Pages>(
    pages: &mut P,
    object: u64,
    index: u64,
    offset: u64,
    end: u64,
    buffer: &mut [u8],
) -> Result<(), PageFault>
    requires not_empty { offset < end }
    requires room { end ≤ offset + length buffer.old }
    requires meets { MeetsChunk (P.state pages.old).page_bytes index offset end }
    ensures looks { LooksUp (MayLack (P.state pages.old)) (P.state pages.old) (P.state pages.new) result }
    ensures issued { (P.state pages.new).issued ≤ (P.state pages.old).issued + 1 }
    ensures holes { (P.state pages.old).sound ≡ true → IssuesForPage (P.state pages.old) (P.state pages.new) object (1 + index) }
    ensures size { length buffer.new ≡ length buffer.old }
    ensures rest { drop (end - offset) buffer.new ≡ drop (end - offset) buffer.old }
    ensures part { OfFileOnly (P.state pages.old) object (λ z moment all f. end ≤ length all
        → OnOk result (buffer.new ≡ filled f index offset end buffer.old)) }
{
    let page_bytes = u64::from(pages.page_bytes());
    let begin = index * page_bytes;
    let from = offset.saturating_sub(begin);
    let to = page_bytes.min(end - begin);
    let at = begin.saturating_sub(offset);
    let key = Key {
        object,
        chunk: 1 + index,
    };
    match pages.find(key)? {
        Presence::Present => {
            let page = pages.page();
            overwrite(buffer, at as usize, &page[from as usize..to as usize]);
        }
        Presence::Absent => clear(buffer, at as usize, (to - from) as usize),
    }
    Ok(())
}

/// Reads the bytes of a file of this length from a place on into a buffer, as many as there are and the buffer has room for, and
/// returns how many. A chunk without a page reads as zeros. What lies past them in the buffer stays; after a fault the buffer may hold
/// anything.
///
/// Each chunk of the range is looked for, and the header is not. No page is looked up for a hole.
pub fn read_at<P: Pages>(
    pages: &mut P,
    object: u64,
    len: u64,
    offset: u64,
    buffer: &mut [u8],
) -> Result<usize, PageFault>
    ensures looks { LooksUp (MayLack (P.state pages.old)) (P.state pages.old) (P.state pages.new) result }
    ensures size { length buffer.new ≡ length buffer.old }
    ensures count { IfOk result (λ count. count ≡ read_count buffer.old len offset) }
    ensures rest { IfOk result (λ count. drop count buffer.new ≡ drop count buffer.old) }
    ensures read { OfFileOnly (P.state pages.old) object (λ z moment all f. len ≡ length all → IfOk result (HasRead all offset buffer.old buffer.new)) }
    ensures issued { IssuesForChunks (P.state pages.old) (P.state pages.new) offset (read_count buffer.old len offset) }
    ensures holes { (P.state pages.old).sound ≡ true → IssuesForPages (P.state pages.old) (P.state pages.new) object offset (read_count buffer.old len offset) }
{
    let page_bytes = u64::from(pages.page_bytes());
    let end = len.min(offset.saturating_add(buffer.len() as u64));
    if end <= offset {
        return Ok(0);
    }
    for index in offset / page_bytes..(end - 1) / page_bytes + 1 {
        read_part(pages, object, index, offset, end, buffer)?;
    }
    Ok((end - offset) as usize)
}
