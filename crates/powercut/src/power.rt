// The power-up of a session.
ghost use Rattle.std.specs.Prelude.{◌≡◌, ◌<◌, ◌^◌, ℕ, None, IfOk, is_some};
ghost use Rattle.nand_model.specs.MemoryState.{device, plan};
ghost use Rattle.nand_model.specs.Plans.{listed};
ghost use Rattle.powercut.specs.Planning.{fuse_call, call_of};
ghost use Rattle.powercut.specs.Starting.{Starts, fuse_of, plan_of};

use crate::session::Session;
use nand_model::{Fate, MemNand};
use std::alloc::{AllocError, Global};

/// The same fuse once more.
fn copy_fuse(
    alloc: Global,
    fuse: &Option<(u64, Vec<Fate>)>,
) -> Result<Option<(u64, Vec<Fate>)>, AllocError>
    ensures fuse { IfOk result (λ copy. fuse_of copy ≡ fuse_of fuse.now) }
    ensures call { IfOk result (λ copy. call_of (fuse_of copy) < 2 ^ 64) }
{
    match fuse {
        None => Ok(None),
        Some((call, fates)) => Ok(Some((*call, Vec::from_slice(alloc, fates)?))),
    }
}

/// The same failures once more.
fn copy_failures(
    alloc: Global,
    failures: &[(u64, Vec<Fate>)],
) -> Result<Vec<(u64, Vec<Fate>)>, AllocError>
    ensures { IfOk result (λ copy. listed copy.items ≡ listed failures.now) }
{
    let mut copy = Vec::new(alloc);
    for (call, fates) in failures {
        let fates = Vec::from_slice(alloc, fates)?;
        copy.push((*call, fates))?;
    }
    Ok(copy)
}

/// The device with power, and with the fuse and the failures of the session.
pub(crate) fn power_on(
    alloc: Global,
    mut nand: MemNand,
    session: &Session,
) -> Result<MemNand, AllocError>
    ensures starts { IfOk result (λ d. Starts (is_some session.now.fuse) (device nand) (device d)) }
    ensures nexts { IfOk result (λ d. (b : ℕ) → (device d).flash.next b ≡ None) }
    ensures plan { IfOk result (λ d. plan d ≡ plan_of session.now) }
    ensures call { IfOk result (λ d. fuse_call (plan d) < 2 ^ 64) }
{
    let fuse = copy_fuse(alloc, &session.fuse)?;
    let failures = copy_failures(alloc, &session.failures)?;
    nand.power_up();
    let nand = nand.with_failures(failures);
    match fuse {
        None => Ok(nand),
        Some((call, fates)) => Ok(nand.with_fuse(call, fates)),
    }
}
