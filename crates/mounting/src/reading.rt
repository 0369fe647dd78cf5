// The tree of a device whose newest pages an index keeps.
ghost use Rattle.std.specs.Prelude.{◌≡◌, ◌⊎◌, ◌&&◌, Bool, true, false, IfOk, IfErr};
ghost use Rattle.nand_model.specs.Changes.{OnlyReads};
ghost use Rattle.flash_tree.specs.Newest.{Numbers};
ghost use Rattle.block_state.specs.Table.{Table};
ghost use Rattle.page_store.specs.Opened.{IsOpened};
ghost use Rattle.tree_walk.specs.declared.fault.RootFault.TheVariants as roots;
ghost use Rattle.mounting.specs.Candidates.{candidate_pages};
ghost use Rattle.mounting.specs.Faults.{WhyNotMounted};
ghost use Rattle.mounting.specs.Lending.{LieWithin, TrustsCommitted};
ghost use Rattle.mounting.specs.Reads.{ReadsThrough};
ghost use Rattle.mounting.specs.OnDevice.{OfTrusted};
ghost use Rattle.mounting.specs.FoundTrees.{HasNamesIn, IsFoundIn, WhyNoneIn, committed_on};

use crate::a_map_of_the_newest_pages_answers;
use crate::candidates::CandidatePages;
use crate::fault::MountFault;
use crate::naming::{tree_fault, unmounted};
use crate::reader::LentPages;
use crate::tree::{FoundTree, find_tree};
use chunk_index::Index;
use nand_model::Nand;
use page_store::the_opened_pages_are_the_newest;
use std::alloc::Global;
use tree_walk::RootFault;

/// Goes through the tree of the pages that an index keeps on a device. What is found is reported of the device where the index is
/// trusted. The device is given back.
pub(crate) fn go_through<N: Nand>(
    alloc: Global,
    device: N,
    index: &Index,
) -> Result<(N, FoundTree), (N, RootFault)>
    ghost reported: { Bool }
    requires lie { LieWithin (N.state device) index.now }
    requires committed { TrustsCommitted (N.state device) reported index.now }
    ensures reads { IfOk result (λ read. OnlyReads (N.state device) (N.state read.0)) }
    ensures within_limit { OfTrusted (N.state device) reported (IfOk result (λ read. ReadsThrough (N.state device) (N.state read.0) read.1.spare read.1.tree)) }
    ensures power { (N.state device).gone ≡ false → IfOk result (λ read. (N.state read.0).gone ≡ false) }
    ensures tree { OfTrusted (N.state device) reported (IfOk result (λ read. IsFoundIn (N.state device).geometry (committed_on (N.state device) index.now) read.1)) }
    ensures names { OfTrusted (N.state device) reported (IfOk result (λ read. HasNamesIn (N.state device).geometry (committed_on (N.state device) index.now) read.1)) }
    ensures back { IfErr result (λ failed. OnlyReads (N.state device) (N.state failed.0)) }
    ensures fault { OfTrusted (N.state device) reported (IfErr result (λ failed. WhyNoneIn (N.state device).geometry (committed_on (N.state device) index.now) failed.1)) }
    ensures why { IfErr result (λ failed. failed.1 ≡ roots.Device → ((N.state failed.0).gone ≡ true) ⊎ (((N.state device).honest && reported) ≡ false)) }
{
    let geometry = device.geometry();
    let mut pages = match LentPages::new(alloc, device, index) {
        Ok(pages) => pages,
        Err((device, _)) => return Err((device, RootFault::NoMemory)),
    };
    let found = find_tree(alloc, &mut pages, geometry);
    let device = pages.into_device();
    match found {
        Ok(tree) => Ok((device, tree)),
        Err(fault) => Err((device, fault)),
    }
}

/// Goes through the tree of the pages that an index keeps on a device, of which some may be lost. The device is given back.
pub(crate) fn go_through_candidates<N: Nand>(
    alloc: Global,
    device: N,
    index: &Index,
) -> Result<(N, FoundTree), (N, RootFault)>
    requires { LieWithin (N.state device) index.now }
    ensures reads { IfOk result (λ read. OnlyReads (N.state device) (N.state read.0)) }
    ensures within_limit { (N.state device).honest ≡ true → IfOk result (λ read. ReadsThrough (N.state device) (N.state read.0) read.1.spare read.1.tree) }
    ensures power { (N.state device).gone ≡ false → IfOk result (λ read. (N.state read.0).gone ≡ false) }
    ensures tree { (N.state device).honest ≡ true
        → IfOk result (λ read. IsFoundIn (N.state device).geometry (candidate_pages index.now (N.state device)) read.1) }
    ensures names { (N.state device).honest ≡ true
        → IfOk result (λ read. HasNamesIn (N.state device).geometry (candidate_pages index.now (N.state device)) read.1) }
    ensures back { IfErr result (λ failed. OnlyReads (N.state device) (N.state failed.0)) }
    ensures fault { (N.state device).honest ≡ true
        → IfErr result (λ failed. WhyNoneIn (N.state device).geometry (candidate_pages index.now (N.state device)) failed.1) }
    ensures why { IfErr result (λ failed. failed.1 ≡ roots.Device → ((N.state failed.0).gone ≡ true) ⊎ ((N.state device).honest ≡ false)) }
{
    let geometry = device.geometry();
    let mut pages = match CandidatePages::new(alloc, device, index) {
        Ok(pages) => pages,
        Err((device, _)) => return Err((device, RootFault::NoMemory)),
    };
    let found = find_tree(alloc, &mut pages, geometry);
    let device = pages.into_device();
    match found {
        Ok(tree) => Ok((device, tree)),
        Err(fault) => Err((device, fault)),
    }
}

/// Goes through the tree of a device that was scanned. The device is given back with the tree, or with the reason why there is
/// none.
pub(crate) fn read_tree<N: Nand>(
    alloc: Global,
    device: N,
    index: &Index,
) -> Result<(N, FoundTree), (N, MountFault)>
    requires { (t : Table) × (n : Numbers) × IsOpened (N.state device) t index.now n }
    ensures reads { IfOk result (λ read. OnlyReads (N.state device) (N.state read.0)) }
    ensures within_limit { (N.state device).honest ≡ true → IfOk result (λ read. ReadsThrough (N.state device) (N.state read.0) read.1.spare read.1.tree) }
    ensures power { (N.state device).gone ≡ false → IfOk result (λ read. (N.state read.0).gone ≡ false) }
    ensures tree { (N.state device).honest ≡ true
        → IfOk result (λ read. IsFoundIn (N.state device).geometry (committed_on (N.state device) index.now) read.1) }
    ensures names { (N.state device).honest ≡ true
        → IfOk result (λ read. HasNamesIn (N.state device).geometry (committed_on (N.state device) index.now) read.1) }
    ensures back { IfErr result (λ failed. OnlyReads (N.state device) (N.state failed.0)) }
    ensures fault { IfErr result (λ failed. WhyNotMounted (N.state failed.0) failed.1) }
{
    the_opened_pages_are_the_newest();
    a_map_of_the_newest_pages_answers();
    match go_through(alloc, device, index) {
        Ok(read) => Ok(read),
        Err((device, fault)) => Err(unmounted(device, tree_fault(fault))),
    }
}
