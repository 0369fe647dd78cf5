// The pages of a candidate, one after the other.
ghost use Rattle.std.specs.Prelude.{◌≡◌, ◌<◌, ◌≤◌, ◌+◌, true, false, [], IsTrue, IfOk, IfSome, IfNone, OnOk, OnErr, length};
ghost use Rattle.nand_model.specs.Changes.{OnlyReads};
ghost use Rattle.mount_scan.specs.FoundCheckpoint.{ReadsAtMost, HasForm, IsWholeOn};
ghost use Rattle.mount_scan.specs.CheckpointCandidates.{IsCandidate};
ghost use Rattle.mount_scan.specs.CheckpointBlocks.{page_tag, begun, IsNone, IsBegun, IsTagged, IsUntagged};

use crate::ScanFault;
use crate::checkpoint_candidate::Candidate;
use crate::checkpoint_page::{take_first, take_next};
use flash_tree::CHECK_OBJECT;
use nand_model::{Gone, Nand, PageKind};
use page_tags::{CheckEntry, Tag};

/// The tag of page i of a checkpoint, by that of its first page.
fn tag_of_page(first: &Tag, i: u32) -> Tag
    ensures { result ≡ page_tag first.now i }
{
    Tag {
        index: i,
        count: first.count,
        object: CHECK_OBJECT,
        chunk: 1 + i as u64,
        version: first.group,
        group: first.group,
        seq: first.seq,
    }
}

/// Reads page i of the block. The result is whether it has the tag that page i of the checkpoint has.
fn read_tagged<N: Nand>(
    device: &mut N,
    candidate: &Candidate,
    i: u32,
    page: &mut [u8],
) -> Result<bool, Gone>
    requires block { candidate.now.block < (N.state device.old).geometry.blocks }
    requires page { i < (N.state device.old).geometry.pages }
    requires size { length page.old ≡ (N.state device.old).geometry.bytes }
    ensures reads { OnlyReads (N.state device.old) (N.state device.new) }
    ensures issued { (N.state device.new).reads ≤ (N.state device.old).reads + 1 }
    ensures powered { OnOk result ((N.state device.new).gone ≡ false) }
    ensures gone { OnErr result ((N.state device.new).gone ≡ true) }
    ensures yes { (N.state device.old).honest ≡ true → IfOk result (λ is. IsTrue is → IsTagged (N.state device.old).flash candidate.now i page.new) }
    ensures no { (N.state device.old).honest ≡ true → IfOk result (λ is. is ≡ false → IsUntagged (N.state device.old).flash candidate.now i) }
{
    let mut tag = [0; 48];
    match device.read_page(candidate.block, i, page, &mut tag)? {
        PageKind::Written => Ok(tag == tag_of_page(&candidate.tag, i).encode()),
        PageKind::Erased => Ok(false),
        PageKind::Uncorrectable => Ok(false),
    }
}

/// Reads the first page. The result is how many entries the checkpoint has, or none where it is not whole.
fn begin<N: Nand>(
    device: &mut N,
    candidate: &Candidate,
    page: &mut [u8],
    entries: &mut Vec<CheckEntry>,
) -> Result<Option<u64>, ScanFault>
    requires candidate { IsCandidate (N.state device.old) candidate.now }
    requires size { length page.old ≡ (N.state device.old).geometry.bytes }
    requires empty { entries.old.items ≡ [] }
    ensures reads { ReadsAtMost 1 (N.state device.old) (N.state device.new) result }
    ensures begun { IfOk result (λ found. IfSome found (λ n. IsBegun (N.state device.old) candidate.now n 1 entries.new.items)) }
    ensures none { IfOk result (λ found. IfNone found (IsNone (N.state device.old) candidate.now)) }
{
    if !read_tagged(device, candidate, 0, page)? {
        return Ok(None);
    }
    let found = take_first(page, candidate.tag.count, entries)?;
    Ok(found)
}

/// Reads page i, a later one. The result is whether the checkpoint may still be whole.
fn go_on<N: Nand>(
    device: &mut N,
    candidate: &Candidate,
    i: u32,
    n: u64,
    page: &mut [u8],
    entries: &mut Vec<CheckEntry>,
) -> Result<bool, ScanFault>
    requires candidate { IsCandidate (N.state device.old) candidate.now }
    requires later { 1 ≤ i }
    requires page { i < candidate.now.tag.count }
    requires room { candidate.now.tag.count ≤ (N.state device.old).geometry.pages }
    requires size { length page.old ≡ (N.state device.old).geometry.bytes }
    requires begun { IsBegun (N.state device.old) candidate.now n i entries.old.items }
    ensures reads { ReadsAtMost 1 (N.state device.old) (N.state device.new) result }
    ensures begun { IfOk result (λ taken. IsTrue taken → IsBegun (N.state device.old) candidate.now n (i + 1) entries.new.items) }
    ensures none { IfOk result (λ taken. taken ≡ false → IsNone (N.state device.old) candidate.now) }
{
    if !read_tagged(device, candidate, i, page)? {
        return Ok(false);
    }
    let taken = take_next(page, i, n, entries)?;
    Ok(taken)
}

/// Reads all pages of a candidate. The result is whether it is a whole checkpoint, which then has these entries.
pub(crate) fn read_pages<N: Nand>(
    device: &mut N,
    candidate: &Candidate,
    page: &mut [u8],
    entries: &mut Vec<CheckEntry>,
) -> Result<bool, ScanFault>
    requires candidate { IsCandidate (N.state device.old) candidate.now }
    requires room { candidate.now.tag.count ≤ (N.state device.old).geometry.pages }
    requires size { length page.old ≡ (N.state device.old).geometry.bytes }
    requires empty { entries.old.items ≡ [] }
    ensures reads { ReadsAtMost candidate.now.tag.count (N.state device.old) (N.state device.new) result }
    ensures form { IfOk result (λ whole. IsTrue whole → HasForm (N.state device.old) (begun candidate.now entries.new.items)) }
    ensures found { IfOk result (λ whole. IsTrue whole → IsWholeOn (N.state device.old) (begun candidate.now entries.new.items)) }
    ensures none { IfOk result (λ whole. whole ≡ false → IsNone (N.state device.old) candidate.now) }
{
    let Some(n) = begin(device, candidate, page, entries)? else {
        return Ok(false);
    };
    for i in 1..candidate.tag.count {
        if !go_on(device, candidate, i, n, page, entries)? {
            return Ok(false);
        }
    }
    Ok(true)
}
