// Which of the first pages of blocks a checkpoint may begin with.
ghost use Rattle.std.specs.Prelude.{◌↔◌, ◌<◌, ◌+◌, Some, IsTrue, IfSome};
ghost use Rattle.nand_model.specs.Flash.{Flash};
ghost use Rattle.nand_model.specs.Calls.{Device};
ghost use Rattle.mount_scan.specs.CheckpointCandidates.{BeginsCheckpoint, FirstIs, IsAbove, IsCandidate, IsGoodTag, IsGreatestBelow};

use flash_tree::CHECK_OBJECT;
use page_tags::Tag;

/// A block whose page 0 has the tag of a checkpoint's first page.
#[derive(Clone, Copy, Debug, PartialEq, Eq)]
pub(crate) struct Candidate {
    pub block: u32,
    pub tag: Tag,
}

/// Whether a checkpoint's first page has such a tag.
fn begins_checkpoint(tag: &Tag) -> bool
    ensures { IsTrue result ↔ BeginsCheckpoint tag.now }
{
    tag.object == CHECK_OBJECT && tag.chunk == 1 && tag.index == 0
}

/// Whether a seq is above that of a candidate, if there is one.
fn is_above(seq: u64, best: Option<Candidate>) -> bool
    ensures { IsTrue result ↔ IsAbove seq best }
{
    match best {
        Some(candidate) => seq > candidate.tag.seq,
        None => true,
    }
}

/// The candidate of the lower blocks, or that of this block where its seq is greater.
fn better(best: Option<Candidate>, block: u32, tag: Tag) -> Option<Candidate>
    ensures candidate { (d : Device) → IsCandidate d (record { block = block; tag = tag }) → IfSome best (IsCandidate d) → IfSome result (IsCandidate d) }
    ensures greatest { (flash : Flash) → FirstIs flash block (Some tag) → IsGreatestBelow flash block best → IsGreatestBelow flash (block + 1) result }
{
    if !begins_checkpoint(&tag) {
        return best;
    }
    if is_above(tag.seq, best) {
        Some(Candidate { block, tag })
    } else {
        best
    }
}

/// The best candidate, with the tag of one more block.
pub(crate) fn best_with(
    best: Option<Candidate>,
    block: u32,
    first: Option<Tag>,
) -> Option<Candidate>
    ensures candidate { (d : Device) → block < d.geometry.blocks → IfSome first (IsGoodTag d block) → IfSome best (IsCandidate d) → IfSome result (IsCandidate d) }
    ensures greatest { (flash : Flash) → FirstIs flash block first → IsGreatestBelow flash block best → IsGreatestBelow flash (block + 1) result }
{
    match first {
        Some(tag) => better(best, block, tag),
        None => best,
    }
}
