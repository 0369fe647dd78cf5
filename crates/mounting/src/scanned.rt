// The tree of a device that is scanned.
ghost use Rattle.std.specs.Prelude.{◌≡◌, true, false, None, IfOk, IfErr};
ghost use Rattle.nand_model.specs.Changes.{OnlyReads};
ghost use Rattle.flash_tree.specs.Places.{numbers_of};
ghost use Rattle.block_state.specs.TableOf.{table};
ghost use Rattle.mount_scan.specs.FirstPages.{AreFirstsOf};
ghost use Rattle.mounting.specs.Faults.{WhyNotMounted};
ghost use Rattle.mounting.specs.Going.{IsGoing};
ghost use Rattle.mounting.specs.Named.{CoversNamed};
ghost use Rattle.mounting.specs.Tables.{KnowsScanned};
ghost use Rattle.mounting.specs.OnDevice.{IsReadOn, ReadsScannedOn};

use crate::fault::MountFault;
use crate::going_on::go_on;
use crate::naming::unmounted;
use crate::prune::prune;
use crate::reading::read_tree;
use crate::scanning::scan;
use crate::tree_on::{Going, NamedTree, TreeOn};
use mount_scan::FirstPages;
use nand_model::Nand;
use page_store::{Opened, the_opened_pages_are_the_newest};
use std::alloc::Global;

/// Scans a device and goes through its tree, whose pages alone are committed then. The first pages of blocks are noted.
fn open_tree<N: Nand>(
    alloc: Global,
    device: N,
    firsts: &FirstPages,
) -> Result<Box<NamedTree<N>>, (N, MountFault)>
    requires { AreFirstsOf (N.state device) firsts.now }
    ensures reads { IfOk result (λ named. OnlyReads (N.state device) (N.state named.value.on.device)) }
    ensures within_limit { (N.state device).honest ≡ true → IfOk result (λ named. ReadsScannedOn N.state (N.state device) named.value.on) }
    ensures power { (N.state device).gone ≡ false → IfOk result (λ named. (N.state named.value.on.device).gone ≡ false) }
    ensures read { IfOk result (λ named. IsReadOn (N.state named.value.on.device) named.value.on) }
    ensures firsts { IfOk result (λ named. KnowsScanned (N.state named.value.on.device) (table named.value.on.blocks) (numbers_of named.value.on.numbers)) }
    ensures none { IfOk result (λ named. (table named.value.on.blocks).checkpoint ≡ None) }
    ensures names { (N.state device).honest ≡ true → IfOk result (λ named. CoversNamed (N.state named.value.on.device) named.value) }
    ensures back { IfErr result (λ failed. OnlyReads (N.state device) (N.state failed.0)) }
    ensures fault { IfErr result (λ failed. WhyNotMounted (N.state failed.0) failed.1) }
{
    the_opened_pages_are_the_newest();
    let (device, opened) = scan(alloc, device, firsts)?;
    let Opened {
        blocks,
        index,
        numbers,
    } = opened;
    let (device, found) = read_tree(alloc, device, &index)?;
    let mut blocks = blocks;
    let mut index = index;
    prune(&found.tree, &mut index, &mut blocks);
    let on = TreeOn {
        device,
        blocks,
        index,
        numbers,
        spare: found.spare,
        tree: found.tree,
    };
    let named = NamedTree {
        on,
        names: found.names,
    };
    match named.boxed(alloc) {
        Ok(named) => Ok(named),
        Err(device) => Err(unmounted(device, MountFault::NoMemory)),
    }
}

/// Scans a device for the tree with which a volume goes on.
pub(crate) fn scan_going<N: Nand>(
    alloc: Global,
    device: N,
    firsts: &FirstPages,
) -> Result<Going<N>, (N, MountFault)>
    requires { AreFirstsOf (N.state device) firsts.now }
    ensures reads { IfOk result (λ going. OnlyReads (N.state device) (N.state going.named.value.on.device)) }
    ensures within_limit { (N.state device).honest ≡ true
        → IfOk result (λ going. ReadsScannedOn N.state (N.state device) going.named.value.on) }
    ensures power { (N.state device).gone ≡ false → IfOk result (λ going. (N.state going.named.value.on.device).gone ≡ false) }
    ensures going { IfOk result (λ going. IsGoing (N.state going.named.value.on.device) going) }
    ensures back { IfErr result (λ failed. OnlyReads (N.state device) (N.state failed.0)) }
    ensures fault { IfErr result (λ failed. WhyNotMounted (N.state failed.0) failed.1) }
{
    let named = open_tree(alloc, device, firsts)?;
    match go_on(&named.on) {
        Some(sizes) => Ok(Going { named, sizes }),
        None => Err(unmounted(Box::into_inner(named).on.device, MountFault::Damaged)),
    }
}
