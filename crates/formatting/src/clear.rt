// The erasing of a device.
ghost use Rattle.std.specs.Prelude.{◌≡◌, ◌<◌, true, OnOk, OnErr};
ghost use Rattle.formatting.specs.Formatting.{Keeps, EachFailureMarks, IsClear, AreClear, OthersStay};

use nand_model::{EraseFault, Gone, Nand};

/// Erases a good block, and marks it where that fails. A bad block is left as it is.
#[tactic(auto, using(crate::proofs::Keeping::keeps_here, crate::proofs::Keeping::keeps_erase, crate::proofs::Keeping::keeps_mark, crate::proofs::Marking::marks_none, crate::proofs::Marking::marks_one))]
fn clear<N: Nand>(device: &mut N, block: u32) -> Result<(), Gone>
    requires { block < (N.state device.old).geometry.blocks }
    ensures keeps { Keeps (N.state device.old) (N.state device.new) }
    ensures each_failure_marks { OnOk result (EachFailureMarks (N.state device.old) (N.state device.new)) }
    ensures others { OthersStay block (N.state device.old).flash (N.state device.new).flash }
    ensures can_write { OnOk result (IsClear (N.state device.new).flash block) }
    ensures gone { OnErr result ((N.state device.new).gone ≡ true) }
{
    if device.is_bad(block) {
        return Ok(());
    }
    match device.erase(block) {
        Ok(()) => Ok(()),
        Err(EraseFault::Failed) => device.mark_bad(block),
        Err(EraseFault::Gone) => Err(Gone),
    }
}

/// Erases every good block, and marks those where that fails.
pub(crate) fn clear_all<N: Nand>(device: &mut N) -> Result<(), Gone>
    ensures keeps { Keeps (N.state device.old) (N.state device.new) }
    ensures each_failure_marks { OnOk result (EachFailureMarks (N.state device.old) (N.state device.new)) }
    ensures can_write { OnOk result (AreClear (N.state device.new) 0) }
    ensures gone { OnErr result ((N.state device.new).gone ≡ true) }
{
    for block in 0..device.geometry().blocks() {
        clear(device, block)?;
    }
    Ok(())
}
