// The search for a whole checkpoint.
ghost use Rattle.std.specs.Prelude.{◌≤◌, ◌+◌, Some, IfOk, IfSome, IfNone};
ghost use Rattle.mount_scan.specs.FoundCheckpoint.{ReadsAtMost, ReadsFew, HasForm, IsWholeOn, HasNoneWhole, checkpoint_of};
ghost use Rattle.mount_scan.specs.CheckpointCandidates.{IsCandidate, IsOf, LiesFirst};
ghost use Rattle.mount_scan.specs.CheckpointBlocks.{HasNoneAt, pages_of};
ghost use Rattle.mount_scan.specs.FirstPages.{AreFirstsOf};

use crate::ScanFault;
use crate::checkpoint_block::read_pages;
use crate::checkpoint_candidate::Candidate;
use crate::first_page::{FirstReads, read_first_pages};
use crate::found_checkpoint::{CheckpointSearch, FoundCheckpoint};
use nand_model::Nand;
use std::alloc::Global;

/// Reads a candidate, up to where it is no whole checkpoint.
fn read_candidate<N: Nand>(
    alloc: Global,
    device: &mut N,
    candidate: Candidate,
) -> Result<Option<FoundCheckpoint>, ScanFault>
    requires { IsCandidate (N.state device.old) candidate }
    ensures reads { ReadsAtMost (N.state device.old).geometry.pages (N.state device.old) (N.state device.new) result }
    ensures reads_bounded { (N.state device.new).reads ≤ (N.state device.old).reads + candidate.tag.count }
    ensures form { IfOk result (λ found. IfSome found (λ c. HasForm (N.state device.old) (checkpoint_of c))) }
    ensures found { IfOk result (λ found. IfSome found (λ c. IsWholeOn (N.state device.old) (checkpoint_of c))) }
    ensures none { IfOk result (λ found. IfNone found (HasNoneAt (N.state device.old) candidate)) }
    ensures of { IfOk result (λ found. IfSome found (IsOf (Some candidate))) }
{
    let Candidate { block, tag } = candidate;
    let geometry = device.geometry();
    if tag.version != tag.group || tag.count > geometry.pages() {
        return Ok(None);
    }
    let mut page = vec![in alloc; 0u8; geometry.bytes() as usize]?;
    let mut entries = Vec::new(alloc);
    if !read_pages(device, &candidate, &mut page, &mut entries)? {
        return Ok(None);
    }
    Ok(Some(FoundCheckpoint {
        block,
        size: tag.count,
        number: tag.group,
        seq: tag.seq,
        entries,
    }))
}

/// Reads the best candidate, if there is one.
fn read_best<N: Nand>(
    alloc: Global,
    device: &mut N,
    best: Option<Candidate>,
) -> Result<Option<FoundCheckpoint>, ScanFault>
    requires { IfSome best (IsCandidate (N.state device.old)) }
    ensures reads { ReadsAtMost (N.state device.old).geometry.pages (N.state device.old) (N.state device.new) result }
    ensures reads_bounded { (N.state device.new).reads ≤ (N.state device.old).reads + pages_of best }
    ensures form { IfOk result (λ found. IfSome found (λ c. HasForm (N.state device.old) (checkpoint_of c))) }
    ensures found { IfOk result (λ found. IfSome found (λ c. IsWholeOn (N.state device.old) (checkpoint_of c))) }
    ensures none { IfSome best (λ candidate. IfOk result (λ found. IfNone found (HasNoneAt (N.state device.old) candidate))) }
    ensures of { IfOk result (λ found. IfSome found (IsOf best)) }
{
    match best {
        Some(candidate) => read_candidate(alloc, device, candidate),
        None => Ok(None),
    }
}

/// Finds the whole checkpoint of a flash: it reads the tag of page 0 of each good block, and then the pages of the one
/// whose tag may begin a checkpoint and has the greatest seq, among equals that of the lowest block, until one of them is
/// not that of a checkpoint.
pub fn find_checkpoint<N: Nand>(
    alloc: Global,
    device: &mut N,
) -> Result<CheckpointSearch, ScanFault>
    ensures reads { ReadsAtMost ((N.state device.old).geometry.blocks + (N.state device.old).geometry.pages) (N.state device.old) (N.state device.new) result }
    ensures reads_bounded { ReadsFew (N.state device.old) (N.state device.new) }
    ensures form { IfOk result (λ search. IfSome search.checkpoint (λ c. HasForm (N.state device.old) (checkpoint_of c))) }
    ensures found { IfOk result (λ search. IfSome search.checkpoint (λ c. IsWholeOn (N.state device.old) (checkpoint_of c))) }
    ensures none { IfOk result (λ search. IfNone search.checkpoint (HasNoneWhole (N.state device.old))) }
    ensures first { IfOk result (λ search. IfSome search.checkpoint (λ c. LiesFirst (N.state device.old) (checkpoint_of c))) }
    ensures firsts { IfOk result (λ search. AreFirstsOf (N.state device.old) search.firsts) }
{
    let FirstReads { firsts, best } = read_first_pages(alloc, device)?;
    let checkpoint = read_best(alloc, device, best)?;
    Ok(CheckpointSearch { firsts, checkpoint })
}
