// The tree of a device, by the summaries of its blocks.
ghost use Rattle.std.specs.Prelude.{◌≡◌, ◌&&◌, Bool, true, false, None, IfOk, IfErr};
ghost use Rattle.nand_model.specs.Changes.{OnlyReads};
ghost use Rattle.flash_tree.specs.Places.{numbers_of};
ghost use Rattle.block_state.specs.TableOf.{table};
ghost use Rattle.mount_scan.specs.FirstPages.{AreFirstsOf};
ghost use Rattle.page_store.specs.Checked.{HasTrueFlash};
ghost use Rattle.page_store.specs.FoundTables.{FindsItsTree, KnowsItsFirsts};
ghost use Rattle.page_store.specs.Opened.{IsOpenedBy};
ghost use Rattle.nand_model.specs.TrustedParts.{inner_of};
ghost use Rattle.nand_model.specs.Trusting.{trusted_as};
ghost use Rattle.mounting.specs.Mounted.{CoversNewest, IsTreeRead};
ghost use Rattle.mounting.specs.Named.{IsNamedTree};
ghost use Rattle.mounting.specs.Reads.{EndsMount};
ghost use Rattle.mounting.specs.Tables.{KnowsBlocks};
ghost use Rattle.mounting.specs.OnDevice.{IsOnSince, KnowsBlocksOn, ReadsNeededOn, ReadsOn, seen_on};

use crate::bounded::Bounded;
use crate::naming::found_fault;
use crate::prune::prune;
use crate::reading::go_through_candidates;
use crate::the_tree_looks_up_its_footprint;
use crate::tree::FoundTree;
use crate::tree_on::{NamedTree, TreeOn};
use chunk_index::the_list_of_a_block_is_whole;
use mount_scan::FirstPages;
use nand_model::{Nand, TrustedNand};
use page_store::{Opened, open_summarized};
use std::alloc::Global;
use tree_walk::{RootFault, the_headers_report_the_keys};

/// A tree that was gone through, on its device, which is trusted as is reported, with the tables of its pages.
fn on_trusted<N: Nand>(
    bounded: Bounded<N>,
    pruned: Opened,
    found: FoundTree,
) -> NamedTree<TrustedNand<N>>
    ghost reported: { Bool }
    requires tree { IsTreeRead (trusted_as reported (N.state bounded.device)) (table pruned.blocks) pruned.index (numbers_of pruned.numbers) found.spare found.tree }
    requires names { ((N.state bounded.device).honest && reported) ≡ true
        → CoversNewest found.names (trusted_as reported (N.state bounded.device)) found.spare found.tree }
    requires blocks { KnowsBlocks (trusted_as reported (N.state bounded.device)) (table pruned.blocks) (numbers_of pruned.numbers) }
    ensures inner { N.state (inner_of result.on.device) ≡ N.state bounded.device }
    ensures seen { ⟦<TrustedNand<N> as Nand>⟧.state result.on.device ≡ trusted_as reported (N.state bounded.device) }
    ensures named { IsNamedTree (⟦<TrustedNand<N> as Nand>⟧.state result.on.device) result }
    ensures blocks { KnowsBlocks (⟦<TrustedNand<N> as Nand>⟧.state result.on.device) (table result.on.blocks) (numbers_of result.on.numbers) }
    ensures noted { (table result.on.blocks).checkpoint ≡ (table pruned.blocks).checkpoint }
    ensures spare { result.on.spare ≡ found.spare }
    ensures same { result.on.tree ≡ found.tree }
{
    let Bounded { device } = bounded;
    let Opened {
        blocks,
        index,
        numbers,
    } = pruned;
    let on = TreeOn {
        device: TrustedNand::new(device),
        blocks,
        index,
        numbers,
        spare: found.spare,
        tree: found.tree,
    };
    NamedTree {
        on,
        names: found.names,
    }
}

/// Goes through the tree of a device by what the summaries of its blocks say, and forgets all pages but the tree's. The device is trusted
/// where these are the newest of their keys and no tag has a greater number than was found: so where its flash is true.
fn go_by_summaries<N: Nand>(
    alloc: Global,
    device: N,
    opened: Opened,
) -> Result<Box<NamedTree<TrustedNand<N>>>, (N, RootFault)>
    requires opened { IsOpenedBy None (trusted_as false (N.state device)) (table opened.blocks) opened.index (numbers_of opened.numbers) }
    requires tree { HasTrueFlash (N.state device) → FindsItsTree (N.state device) opened }
    requires knows { (N.state device).honest ≡ true → KnowsItsFirsts (N.state device) opened }
    ensures read { IfOk result (λ named. IsOnSince N.state (N.state device) named.value.on) }
    ensures named { IfOk result (λ named. IsNamedTree (seen_on N.state named.value.on) named.value) }
    ensures blocks { IfOk result (λ named.
        KnowsBlocksOn (seen_on N.state named.value.on) named.value.on) }
    ensures none { IfOk result (λ named. (table named.value.on.blocks).checkpoint ≡ None) }
    ensures within_limit { (N.state device).honest ≡ true
        → IfOk result (λ named. ReadsOn N.state (N.state device) named.value.on) }
    ensures back { IfErr result (λ failed. OnlyReads (N.state device) (N.state failed.0)) }
    ensures fault { HasTrueFlash (N.state device) → IfErr result (λ failed. EndsMount (N.state failed.0) failed.1) }
{
    the_headers_report_the_keys();
    the_list_of_a_block_is_whole();
    the_tree_looks_up_its_footprint();
    let Opened {
        blocks,
        index,
        numbers,
    } = opened;
    let (device, found) = go_through_candidates(alloc, device, &index)?;
    let mut blocks = blocks;
    let mut index = index;
    prune(&found.tree, &mut index, &mut blocks);
    let pruned = Opened {
        blocks,
        index,
        numbers,
    };
    match on_trusted(Bounded { device }, pruned, found).boxed(alloc) {
        Ok(named) => Ok(named),
        Err(device) => Err((device.into_inner(), RootFault::NoMemory)),
    }
}

/// Goes through the tree of a device by the summaries of its blocks; no block is noted that may have a checkpoint. The device is
/// trusted then where what was found is right: so where its flash is true. Where a page cannot be read, or the tree is not whole, the
/// device is given back.
pub(crate) fn open_by_summaries<N: Nand>(
    alloc: Global,
    device: N,
    firsts: &FirstPages,
) -> Result<Box<NamedTree<TrustedNand<N>>>, (N, RootFault)>
    requires { AreFirstsOf (N.state device) firsts.now }
    ensures read { IfOk result (λ named. IsOnSince N.state (N.state device) named.value.on) }
    ensures named { IfOk result (λ named. IsNamedTree (seen_on N.state named.value.on) named.value) }
    ensures blocks { IfOk result (λ named.
        KnowsBlocksOn (seen_on N.state named.value.on) named.value.on) }
    ensures none { IfOk result (λ named. (table named.value.on.blocks).checkpoint ≡ None) }
    ensures within_limit { HasTrueFlash (N.state device)
        → IfOk result (λ named. ReadsNeededOn N.state (N.state device) named.value.on) }
    ensures back { IfErr result (λ failed. OnlyReads (N.state device) (N.state failed.0)) }
    ensures fault { HasTrueFlash (N.state device) → IfErr result (λ failed. EndsMount (N.state failed.0) failed.1) }
{
    let mut device = device;
    match open_summarized(alloc, &mut device, firsts) {
        Ok(opened) => go_by_summaries(alloc, device, opened),
        Err(fault) => Err((device, found_fault(fault))),
    }
}
