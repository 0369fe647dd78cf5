// The tree of a device, by the entries of a checkpoint.
ghost use Rattle.std.specs.Prelude.{◌≡◌, ◌&&◌, Bool, true, Some, IfOk, IfErr};
ghost use Rattle.nand_model.specs.Changes.{OnlyReads};
ghost use Rattle.flash_tree.specs.Places.{numbers_of};
ghost use Rattle.block_state.specs.TableOf.{table};
ghost use Rattle.mount_scan.specs.FoundCheckpoint.{HasForm, IsWholeOn, checkpoint_of};
ghost use Rattle.mount_scan.specs.FirstPages.{AreFirstsOf};
ghost use Rattle.page_store.specs.Checked.{HasTrueFlash};
ghost use Rattle.page_store.specs.Opened.{IsOpenedBy};
ghost use Rattle.nand_model.specs.Trusting.{trusted_as};
ghost use Rattle.mounting.specs.Named.{IsNamedTree};
ghost use Rattle.mounting.specs.Reads.{EndsMount, WhyNotThrough};
ghost use Rattle.mounting.specs.OnDevice.{IsCheckedOn, IsOnAs, IsOnSince, KnowsBlocksOn, KnowsFirstsIn, KnowsFirstsOn, OfTrusted, ReadsOn, seen_on};

use crate::bounded::Bounded;
use crate::prune::prune;
use crate::reading::go_through;
use crate::tree_on::{NamedTree, TreeOn};
use mount_scan::{FirstPages, FoundCheckpoint};
use nand_model::{Nand, TrustedNand};
use page_store::{Opened, open_committed};
use std::alloc::Global;
use tree_walk::{RootFault, the_headers_report_the_keys};

/// Goes through the tree of a device by the tables of a checkpoint, and forgets all pages but the tree's. The device is trusted as
/// is reported.
fn go_by<N: Nand>(
    alloc: Global,
    bounded: Bounded<N>,
    found: &FoundCheckpoint,
    opened: Opened,
) -> Result<Box<NamedTree<TrustedNand<N>>>, (N, RootFault)>
    ghost reported: { Bool }
    requires { IsOpenedBy (Some found.now.block) (trusted_as reported (N.state bounded.device)) (table opened.blocks) opened.index (numbers_of opened.numbers) }
    ensures read { IfOk result (λ named. IsOnAs N.state reported (N.state bounded.device) named.value.on) }
    ensures named { IfOk result (λ named. IsNamedTree (seen_on N.state named.value.on) named.value) }
    ensures noted { IfOk result (λ named. (table named.value.on.blocks).checkpoint ≡ Some found.now.block) }
    ensures firsts { KnowsFirstsIn (trusted_as reported (N.state bounded.device)) opened → IfOk result (λ named. KnowsFirstsOn (seen_on N.state named.value.on) named.value.on) }
    ensures within_limit { OfTrusted (N.state bounded.device) reported (IfOk result (λ named. ReadsOn N.state (N.state bounded.device) named.value.on)) }
    ensures back { IfErr result (λ failed. OnlyReads (N.state bounded.device) (N.state failed.0)) }
    ensures fault { OfTrusted (N.state bounded.device) reported (IfErr result (λ failed. WhyNotThrough opened.index (N.state bounded.device) (N.state failed.0) failed.1)) }
{
    the_headers_report_the_keys();
    let Bounded { device } = bounded;
    let Opened {
        blocks,
        index,
        numbers,
    } = opened;
    let (device, walked) = go_through(alloc, device, &index)?;
    let mut blocks = blocks;
    let mut index = index;
    prune(&walked.tree, &mut index, &mut blocks);
    let on = TreeOn {
        device: TrustedNand::new(device),
        blocks,
        index,
        numbers,
        spare: walked.spare,
        tree: walked.tree,
    };
    let named = NamedTree {
        on,
        names: walked.names,
    };
    match named.boxed(alloc) {
        Ok(named) => Ok(named),
        Err(device) => Err((device.into_inner(), RootFault::NoMemory)),
    }
}

/// Goes through the tree of a device by the entries of a whole checkpoint, whose block is noted. The device is trusted then where
/// its flash is as the checkpoint says: so where it is true. Where an entry cannot be taken, or the tree is not whole, the device
/// is given back.
pub(crate) fn open_entries<N: Nand>(
    alloc: Global,
    device: N,
    found: &FoundCheckpoint,
    firsts: &FirstPages,
) -> Result<Box<NamedTree<TrustedNand<N>>>, (N, RootFault)>
    requires form { HasForm (N.state device) (checkpoint_of found.now) }
    requires whole { IsWholeOn (N.state device) (checkpoint_of found.now) }
    requires firsts { AreFirstsOf (N.state device) firsts.now }
    ensures read { IfOk result (λ named. IsOnSince N.state (N.state device) named.value.on) }
    ensures named { IfOk result (λ named. IsNamedTree (seen_on N.state named.value.on) named.value) }
    ensures blocks { IfOk result (λ named.
        KnowsBlocksOn (seen_on N.state named.value.on) named.value.on) }
    ensures checked { HasTrueFlash (N.state device)
        → IfOk result (λ named. IsCheckedOn (N.state device) named.value.on) }
    ensures within_limit { HasTrueFlash (N.state device)
        → IfOk result (λ named. ReadsOn N.state (N.state device) named.value.on) }
    ensures back { IfErr result (λ failed. OnlyReads (N.state device) (N.state failed.0)) }
    ensures fault { HasTrueFlash (N.state device) → IfErr result (λ failed. EndsMount (N.state failed.0) failed.1) }
{
    match open_committed(alloc, &device, found, firsts) {
        Ok(Some(opened)) => go_by(alloc, Bounded { device }, found, opened),
        Ok(None) => Err((device, RootFault::Damaged)),
        Err(_) => Err((device, RootFault::NoMemory)),
    }
}
