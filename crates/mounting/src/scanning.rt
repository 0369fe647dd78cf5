// The scan of a device that is mounted.
ghost use Rattle.std.specs.Prelude.{◌≡◌, ◌≤◌, ◌+◌, false, IfOk, IfErr, length};
ghost use Rattle.nand_model.specs.Calls.{Device};
ghost use Rattle.nand_model.specs.Changes.{OnlyReads};
ghost use Rattle.block_state.specs.TableOf.{table};
ghost use Rattle.mount_scan.specs.FirstPages.{AreFirstsOf};
ghost use Rattle.page_store.specs.KnownFirsts.{AreUnwritten};
ghost use Rattle.mounting.specs.Faults.{WhyNotMounted};
ghost use Rattle.mounting.specs.Reads.{all_pages};
ghost use Rattle.mounting.specs.Tables.{IsOpenedIn, KnowsScannedIn};

use crate::fault::MountFault;
use crate::naming::{scan_fault, unmounted};
use mount_scan::FirstPages;
use nand_model::Nand;
use page_store::{Opened, note_firsts, open};
use std::alloc::Global;

/// Notes the first pages of blocks in the table that a scan found.
fn with_firsts(opened: Opened, firsts: &FirstPages) -> Opened
    requires { length firsts.now.pages.items ≡ (table opened.blocks).geometry.blocks }
    ensures opened { (d : Device) → IsOpenedIn d opened
        → IsOpenedIn d result }
    ensures knows { (d : Device) → AreFirstsOf d firsts.now → AreUnwritten (table opened.blocks)
        → IsOpenedIn d opened → KnowsScannedIn d result }
{
    let Opened {
        blocks,
        index,
        numbers,
    } = opened;
    let mut blocks = blocks;
    note_firsts(&firsts.pages, &mut blocks);
    Opened {
        blocks,
        index,
        numbers,
    }
}

/// Scans a device, which is given back with what was found, or with the reason why nothing was. What was read of first pages before is
/// noted.
pub(crate) fn scan<N: Nand>(
    alloc: Global,
    device: N,
    firsts: &FirstPages,
) -> Result<(N, Opened), (N, MountFault)>
    requires { AreFirstsOf (N.state device) firsts.now }
    ensures reads { IfOk result (λ scanned. OnlyReads (N.state device) (N.state scanned.0)) }
    ensures issued { IfOk result (λ scanned. (N.state scanned.0).reads ≤ (N.state device).reads + all_pages (N.state device)) }
    ensures power { (N.state device).gone ≡ false → IfOk result (λ scanned. (N.state scanned.0).gone ≡ false) }
    ensures opened { IfOk result (λ scanned. IsOpenedIn (N.state scanned.0) scanned.1) }
    ensures firsts { IfOk result (λ scanned. KnowsScannedIn (N.state scanned.0) scanned.1) }
    ensures back { IfErr result (λ failed. OnlyReads (N.state device) (N.state failed.0)) }
    ensures fault { IfErr result (λ failed. WhyNotMounted (N.state failed.0) failed.1) }
{
    let mut device = device;
    match open(alloc, &mut device) {
        Ok(opened) => Ok((device, with_firsts(opened, firsts))),
        Err(fault) => Err(unmounted(device, scan_fault(fault))),
    }
}
