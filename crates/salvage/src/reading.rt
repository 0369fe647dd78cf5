// The bytes of a file, a chunk at a time.
ghost use Rattle.std.specs.Prelude.{◌≡◌, ◌≤◌, ◌+◌, ◌++◌, length, min, take, drop, replicate, IfOk, IfErr, OnErr, IfSome, IfNone, ◌≢◌};
ghost use Rattle.page_tags.specs.Headers.{Fields, IsHeaderOf};
ghost use Rattle.page_tags.specs.declared.header.ObjectKind.TheVariants as kinds;
ghost use Rattle.pages.specs.Maps.{has};
ghost use Rattle.pages.specs.State.{OnlyFinds};
ghost use Rattle.volume_terms.specs.Sizes.{Sizes};
ghost use Rattle.tree_walk.specs.Visits.{IsSeen};
ghost use Rattle.salvage.specs.Chunks.{IsChunkOf, SaysChunk};
ghost use Rattle.salvage.specs.SeenBy.{seen_by};
ghost use Rattle.salvage.specs.Reported.{KeepsRest, ReadsPart, LacksPower};

use crate::fault::SalvageFault;
use crate::looking::look;
use crate::reported::{LostPart, Part};
use flash_tree::Key;
use nand_model::Nand;
use page_store::NewestPages;
use page_tags::{ObjectKind, decode_header, is_present};
use pages::{Pages, Presence};

/// What the header of a file says of one of its chunks: how many bytes the file has, and whether the chunk is present.
#[derive(Clone, Copy)]
pub(crate) struct FileChunk {
    length: u64,
    present: bool,
}

/// Reads bytes of a file from an offset on into a buffer, up to the end of the chunk that has the first; none where no header of a
/// file reads.
pub(crate) fn read_part<N: Nand>(
    pages: &mut NewestPages<N>,
    file: u64,
    offset: u64,
    buffer: &mut [u8],
) -> Result<Option<Part>, SalvageFault>
    ensures lookups { OnlyFinds (seen_by pages.old) (seen_by pages.new) }
    ensures size { length buffer.new ≡ length buffer.old }
    ensures reads { (z : Sizes) → IsSeen z (seen_by pages.old)
        → IfOk result (ReadsPart z (has (seen_by pages.old).present) file offset buffer.new) }
    ensures rest { IfOk result (λ reported. KeepsRest reported buffer.old buffer.new) }
    ensures stays { OnErr result (buffer.new ≡ buffer.old) }
    ensures fault { IfErr result (LacksPower (seen_by pages.new)) }
{
    let page_bytes = u64::from(pages.page_bytes());
    let chunk = 1 + offset / page_bytes;
    let Some(reported) = find_chunk(pages, file, chunk)? else {
        return Ok(None);
    };
    let begin = offset % page_bytes;
    let bytes = (page_bytes - begin).min(reported.length.saturating_sub(offset));
    if bytes == 0 {
        return Ok(Some(Part::Bytes(0)));
    }
    if !reported.present {
        let count = clear_front(buffer, bytes as usize);
        return Ok(Some(Part::Bytes(count)));
    }
    let key = Key {
        object: file,
        chunk,
    };
    match look(pages, key)? {
        Presence::Present => {
            let page = pages.page();
            let count = copy_front(buffer, &page[begin as usize..(begin + bytes) as usize]);
            Ok(Some(Part::Bytes(count)))
        }
        Presence::Absent => Ok(Some(Part::Lost(LostPart { chunk, bytes }))),
    }
}

/// What the header of a file says of a chunk; none where no header of a file reads.
fn find_chunk<N: Nand>(
    pages: &mut NewestPages<N>,
    file: u64,
    chunk: u64,
) -> Result<Option<FileChunk>, SalvageFault>
    requires { 1 ≤ chunk }
    ensures lookups { OnlyFinds (seen_by pages.old) (seen_by pages.new) }
    ensures says { (z : Sizes) → IsSeen z (seen_by pages.old)
        → IfOk result (SaysChunk z (has (seen_by pages.old).present) file chunk) }
    ensures fault { IfErr result (LacksPower (seen_by pages.new)) }
{
    let key = Key {
        object: file,
        chunk: 0,
    };
    match look(pages, key)? {
        Presence::Present => Ok(chunk_in(pages.page(), chunk)),
        Presence::Absent => Ok(None),
    }
}

/// What a page says of a chunk as the header of a file, if it is one.
fn chunk_in(page: &[u8], chunk: u64) -> Option<FileChunk>
    requires least { 32 ≤ length page.now }
    requires most { length page.now ≤ 4096 }
    requires from { 1 ≤ chunk }
    ensures reported { IfSome result (λ reported. (f : Fields) × IsHeaderOf page.now f × IsChunkOf reported f chunk) }
    ensures none { IfNone result ((f : Fields) → IsHeaderOf page.now f → f.kind ≢ kinds.File) }
{
    match decode_header(page) {
        Ok(header) => match header.kind {
            ObjectKind::File => Some(FileChunk {
                length: header.length,
                present: is_present(header.bits, chunk),
            }),
            ObjectKind::Directory => None,
        },
        Err(_) => None,
    }
}

/// Copies bytes to the front of a buffer, as many as it has room for, and returns how many.
fn copy_front(buffer: &mut [u8], bytes: &[u8]) -> usize
    ensures count { result ≡ min (length buffer.old) (length bytes.now) }
    ensures size { length buffer.new ≡ length buffer.old }
    ensures bytes { buffer.new ≡ take result bytes.now ++ drop result buffer.old }
{
    let count = buffer.len().min(bytes.len());
    buffer[..count].copy_from_slice(&bytes[..count]);
    count
}

/// Puts zeros at the front of a buffer, so many at most and as many as it has room for, and returns how many.
fn clear_front(buffer: &mut [u8], most: usize) -> usize
    ensures count { result ≡ min (length buffer.old) most }
    ensures size { length buffer.new ≡ length buffer.old }
    ensures zeros { buffer.new ≡ replicate result 0 ++ drop result buffer.old }
{
    let count = buffer.len().min(most);
    buffer[..count].fill(0);
    count
}
