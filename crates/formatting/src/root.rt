// The writing of the root.
ghost use Rattle.std.specs.Prelude.{◌≡◌, ◌<◌, ◌+◌, ℕ, true, false, length, Some, IfOk, OnOk, OnErr};
ghost use Rattle.formatting.specs.Formatting.{Keeps, EachFailureMarks, AreClear, OthersStay, single_tag, Takes, WritesFirst};

use flash_tree::FreshPage;
use nand_model::{Gone, Nand, ProgramFault};
use page_tags::Tag;

/// How an attempt to write the first page ended.
#[derive(Clone, Copy, Debug, PartialEq, Eq)]
pub(crate) enum Attempt {
    Written,
    /// The block that was tried failed, or each of them, and is marked bad.
    Failed,
}

/// Writes the page to the start of a block, as a group of its own with this number, and marks the block where that
/// fails.
#[tactic(auto, using(crate::proofs::Keeping::keeps_program, crate::proofs::Keeping::keeps_mark, crate::proofs::Marking::marks_none))]
fn write_at<N: Nand>(
    device: &mut N,
    block: u32,
    page: &FreshPage,
    number: u64,
) -> Result<Attempt, Gone>
    requires block { block < (N.state device.old).geometry.blocks }
    requires good { (N.state device.old).flash.bad block ≡ false }
    requires next { (N.state device.old).flash.next block ≡ Some 0 }
    requires size { length page.now.bytes.items ≡ (N.state device.old).geometry.bytes }
    ensures keeps { Keeps (N.state device.old) (N.state device.new) }
    ensures each_failure_marks { OnOk result (EachFailureMarks (N.state device.old) (N.state device.new)) }
    ensures others { OthersStay block (N.state device.old).flash (N.state device.new).flash }
    ensures takes { IfOk result (Takes (N.state device.old) (N.state device.new) block page.now.bytes.items (single_tag page.now.key number)) }
    ensures gone { OnErr result ((N.state device.new).gone ≡ true) }
{
    let tag = Tag {
        index: 0,
        count: 1,
        object: page.key.object,
        chunk: page.key.chunk,
        version: number,
        group: number,
        seq: number,
    };
    match device.program(block, 0, &page.bytes, &tag.encode()) {
        Ok(()) => Ok(Attempt::Written),
        Err(ProgramFault::Failed) => {
            device.mark_bad(block)?;
            Ok(Attempt::Failed)
        }
        Err(ProgramFault::Gone) => Err(Gone),
    }
}

/// Writes the page to the first good block that takes it. The first block is tried with number 1, and each further one
/// with the next.
pub(crate) fn write_first<N: Nand>(device: &mut N, page: &FreshPage) -> Result<Attempt, Gone>
    requires size { length page.now.bytes.items ≡ (N.state device.old).geometry.bytes }
    requires can_write { AreClear (N.state device.old) 0 }
    ensures keeps { Keeps (N.state device.old) (N.state device.new) }
    ensures each_failure_marks { OnOk result (EachFailureMarks (N.state device.old) (N.state device.new)) }
    ensures written { IfOk result (λ attempt. attempt ≡ Attempt.Written → WritesFirst (N.state device.old) (N.state device.new) page.now) }
    ensures worn { IfOk result (λ attempt. attempt ≡ Attempt.Failed → (b : ℕ) → b < (N.state device.old).geometry.blocks → (N.state device.new).flash.bad b ≡ true) }
    ensures gone { OnErr result ((N.state device.new).gone ≡ true) }
{
    let mut failed = 0;
    for block in 0..device.geometry().blocks() {
        if device.is_bad(block) {
            continue;
        }
        match write_at(device, block, page, failed + 1)? {
            Attempt::Written => return Ok(Attempt::Written),
            Attempt::Failed => failed += 1,
        }
    }
    Ok(Attempt::Failed)
}
