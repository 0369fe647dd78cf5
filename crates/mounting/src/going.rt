// The tree with which a volume goes on: by a checkpoint, by the summaries of blocks, or by a scan.
ghost use Rattle.std.specs.Prelude.{◌≡◌, ◌<◌, ℕ, true, false, Some, None, IfOk, IfErr};
ghost use Rattle.nand_model.specs.Changes.{OnlyReads};
ghost use Rattle.flash_tree.specs.Checkpoints.{LiesOnlyIn};
ghost use Rattle.block_state.specs.TableOf.{table};
ghost use Rattle.mount_scan.specs.FoundCheckpoint.{HasForm, IsWholeOn, checkpoint_of};
ghost use Rattle.mount_scan.specs.FirstPages.{AreFirstsOf};
ghost use Rattle.page_store.specs.Checked.{HasTrueFlash};
ghost use Rattle.mounting.specs.Faults.{WhyNotMounted};
ghost use Rattle.mounting.specs.Going.{IsGoing, MayBeNoted, NotesFree};
ghost use Rattle.mounting.specs.Reads.{EndsMount, ReadsAll, ReadsAllTags, ReadsByCheckpoint, ReadsBySummaries, ReadsTree, ReadsWithoutCheckpoint, OfSoundFlash};
ghost use Rattle.mounting.specs.OnDevice.{IsCheckedOn, IsOnAs, IsOnSince, OfTrueFlash, own_on, seen_on};

use crate::entries::open_entries;
use crate::fault::MountFault;
use crate::going_on::go_on;
use crate::naming::{search_fault, unmounted};
use crate::scanned::scan_going;
use crate::summarized::open_by_summaries;
use crate::tree_on::{Going, NamedTree, TreeOn};
use crate::{a_volume_has_sizes, the_tree_looks_up_its_footprint};
use block_state::Blocks;
use chunk_index::the_counts_are_of_the_keys;
use flash_tree::a_flash_has_one_answer_at_most;
use mount_scan::{CheckpointSearch, FirstPages, FoundCheckpoint, find_checkpoint};
use nand_model::{Nand, TrustedNand};
use pages::has_power;
use std::alloc::Global;
use tree_walk::{
    RootFault, the_headers_report_the_keys, the_pages_of_a_tree_are_those_of_its_objects,
};

/// Notes the block that may have a checkpoint, unless it is bad or holds a committed page.
fn note_free(blocks: &mut Blocks, noted: Option<u32>)
    requires block { (b : ℕ) → noted ≡ Some b → b < (table blocks.old).geometry.blocks }
    requires closed { (table blocks.old).open_block ≡ None }
    ensures { NotesFree noted (table blocks.old) (table blocks.new) }
{
    if let Some(block) = noted {
        let entry = blocks.entry(block);
        if !entry.bad && entry.committed == 0 {
            blocks.note_checkpoint(block);
        }
    }
}

/// Goes on by the entries of a whole checkpoint. Where that cannot be, the device is given back.
fn by_entries<N: Nand>(
    alloc: Global,
    device: N,
    found: &FoundCheckpoint,
    firsts: &FirstPages,
) -> Result<Going<TrustedNand<N>>, (N, RootFault)>
    requires form { HasForm (N.state device) (checkpoint_of found.now) }
    requires whole { IsWholeOn (N.state device) (checkpoint_of found.now) }
    requires firsts { AreFirstsOf (N.state device) firsts.now }
    ensures read { IfOk result (λ going. IsOnSince N.state (N.state device) going.named.value.on) }
    ensures going { IfOk result (λ going. IsGoing (seen_on N.state going.named.value.on) going) }
    ensures checked { HasTrueFlash (N.state device)
        → IfOk result (λ going. IsCheckedOn (N.state device) going.named.value.on) }
    ensures within_limit { HasTrueFlash (N.state device) → IfOk result (λ going. ReadsTree (N.state device) (own_on N.state going.named.value.on)) }
    ensures back { IfErr result (λ failed. OnlyReads (N.state device) (N.state failed.0)) }
    ensures fault { HasTrueFlash (N.state device) → OfSoundFlash (N.state device) (IfErr result (λ failed. EndsMount (N.state failed.0) failed.1)) }
{
    a_flash_has_one_answer_at_most();
    a_volume_has_sizes();
    the_pages_of_a_tree_are_those_of_its_objects();
    let named = open_entries(alloc, device, found, firsts)?;
    match go_on(&named.on) {
        Some(sizes) => Ok(Going { named, sizes }),
        None => Err((
            Box::into_inner(named).on.device.into_inner(),
            RootFault::Damaged,
        )),
    }
}

/// Goes on by the summaries of blocks, where no checkpoint is whole. Where that cannot be, the device is given back.
fn by_summaries<N: Nand>(
    alloc: Global,
    device: N,
    firsts: &FirstPages,
) -> Result<Going<TrustedNand<N>>, (N, RootFault)>
    requires firsts { AreFirstsOf (N.state device) firsts.now }
    requires none { HasTrueFlash (N.state device) → LiesOnlyIn (N.state device).geometry (N.state device).flash None }
    ensures read { IfOk result (λ going. IsOnSince N.state (N.state device) going.named.value.on) }
    ensures going { IfOk result (λ going. IsGoing (seen_on N.state going.named.value.on) going) }
    ensures checked { HasTrueFlash (N.state device)
        → IfOk result (λ going. IsCheckedOn (N.state device) going.named.value.on) }
    ensures within_limit { HasTrueFlash (N.state device) → IfOk result (λ going. ReadsBySummaries (N.state device) (own_on N.state going.named.value.on)) }
    ensures back { IfErr result (λ failed. OnlyReads (N.state device) (N.state failed.0)) }
    ensures fault { HasTrueFlash (N.state device) → OfSoundFlash (N.state device) (IfErr result (λ failed. EndsMount (N.state failed.0) failed.1)) }
{
    a_flash_has_one_answer_at_most();
    a_volume_has_sizes();
    the_pages_of_a_tree_are_those_of_its_objects();
    let named = open_by_summaries(alloc, device, firsts)?;
    match go_on(&named.on) {
        Some(sizes) => Ok(Going { named, sizes }),
        None => Err((
            Box::into_inner(named).on.device.into_inner(),
            RootFault::Damaged,
        )),
    }
}

/// Goes on by a scan of all tags; the device is trusted. The first pages of blocks are noted, and the block that may have a checkpoint, unless committed pages lie in it.
fn by_scan<N: Nand>(
    alloc: Global,
    device: N,
    noted: Option<u32>,
    firsts: &FirstPages,
) -> Result<Going<TrustedNand<N>>, (N, MountFault)>
    requires noted { MayBeNoted (N.state device) noted }
    requires firsts { AreFirstsOf (N.state device) firsts.now }
    ensures read { IfOk result (λ going. IsOnAs N.state true (N.state device) going.named.value.on) }
    ensures going { IfOk result (λ going. IsGoing (seen_on N.state going.named.value.on) going) }
    ensures checked { OfTrueFlash (N.state device) (IfOk result (λ going. IsCheckedOn (N.state device) going.named.value.on)) }
    ensures scans { (N.state device).honest ≡ true → IfOk result (λ going. ReadsAll (N.state device) (own_on N.state going.named.value.on)) }
    ensures back { IfErr result (λ failed. OnlyReads (N.state device) (N.state failed.0)) }
    ensures fault { IfErr result (λ failed. WhyNotMounted (N.state failed.0) failed.1) }
{
    a_flash_has_one_answer_at_most();
    a_volume_has_sizes();
    the_pages_of_a_tree_are_those_of_its_objects();
    the_headers_report_the_keys();
    the_counts_are_of_the_keys();
    the_tree_looks_up_its_footprint();
    let going = scan_going(alloc, device, firsts)?;
    let Going { named, sizes } = going;
    let NamedTree { on, names } = Box::into_inner(named);
    let TreeOn {
        device,
        blocks,
        index,
        numbers,
        spare,
        tree,
    } = on;
    let mut blocks = blocks;
    note_free(&mut blocks, noted);
    let on = TreeOn {
        device: TrustedNand::new(device),
        blocks,
        index,
        numbers,
        spare,
        tree,
    };
    match (NamedTree { on, names }).boxed(alloc) {
        Ok(named) => Ok(Going { named, sizes }),
        Err(device) => Err(unmounted(device.into_inner(), MountFault::NoMemory)),
    }
}

/// Goes on by a scan after a checkpoint's entries or the summaries of blocks did not do, unless power was lost or memory was refused. This
/// block is noted, unless committed pages lie in it.
fn scan_after<N: Nand>(
    alloc: Global,
    device: N,
    noted: Option<u32>,
    fault: RootFault,
    firsts: &FirstPages,
) -> Result<Going<TrustedNand<N>>, (N, MountFault)>
    requires noted { MayBeNoted (N.state device) noted }
    requires firsts { AreFirstsOf (N.state device) firsts.now }
    ensures read { IfOk result (λ going. IsOnSince N.state (N.state device) going.named.value.on) }
    ensures power { IfOk result (λ going. (own_on N.state going.named.value.on).gone ≡ false) }
    ensures going { IfOk result (λ going. IsGoing (seen_on N.state going.named.value.on) going) }
    ensures checked { HasTrueFlash (N.state device)
        → IfOk result (λ going. IsCheckedOn (N.state device) going.named.value.on) }
    ensures back { IfErr result (λ failed. OnlyReads (N.state device) (N.state failed.0)) }
    ensures fault { IfErr result (λ failed. WhyNotMounted (N.state failed.0) failed.1) }
    ensures ends { EndsMount (N.state device) fault → IfOk result (λ going. ⊥) }
{
    let mut device = device;
    if !has_power(&mut device) {
        return Err((device, MountFault::Gone));
    }
    if fault == RootFault::NoMemory {
        return Err((device, MountFault::NoMemory));
    }
    by_scan(alloc, device, noted, firsts)
}

/// Goes on without a checkpoint: by the summaries of blocks, and where they do not do by a scan.
fn without_checkpoint<N: Nand>(
    alloc: Global,
    device: N,
    firsts: &FirstPages,
) -> Result<Going<TrustedNand<N>>, (N, MountFault)>
    requires noted { MayBeNoted (N.state device) None }
    requires firsts { AreFirstsOf (N.state device) firsts.now }
    ensures read { IfOk result (λ going. IsOnSince N.state (N.state device) going.named.value.on) }
    ensures going { IfOk result (λ going. IsGoing (seen_on N.state going.named.value.on) going) }
    ensures checked { HasTrueFlash (N.state device)
        → IfOk result (λ going. IsCheckedOn (N.state device) going.named.value.on) }
    ensures within_limit { HasTrueFlash (N.state device) → IfOk result (λ going. ReadsBySummaries (N.state device) (own_on N.state going.named.value.on)) }
    ensures back { IfErr result (λ failed. OnlyReads (N.state device) (N.state failed.0)) }
    ensures fault { IfErr result (λ failed. WhyNotMounted (N.state failed.0) failed.1) }
{
    match by_summaries(alloc, device, firsts) {
        Ok(going) => Ok(going),
        Err((device, fault)) => scan_after(alloc, device, None, fault, firsts),
    }
}

/// Finds the tree with which a volume goes on: by the entries of the checkpoint, where one is whole, else by the summaries of blocks,
/// and where these do not do, by a scan.
pub(crate) fn open_volume<N: Nand>(
    alloc: Global,
    device: N,
) -> Result<Going<TrustedNand<N>>, (N, MountFault)>
    ensures read { IfOk result (λ going. IsOnSince N.state (N.state device) going.named.value.on) }
    ensures going { IfOk result (λ going. IsGoing (seen_on N.state going.named.value.on) going) }
    ensures checked { HasTrueFlash (N.state device)
        → IfOk result (λ going. IsCheckedOn (N.state device) going.named.value.on) }
    ensures within_limit { IfOk result (λ going. ReadsByCheckpoint (N.state device) (own_on N.state going.named.value.on)) }
    ensures without { IfOk result (λ going. ReadsWithoutCheckpoint (N.state device) (own_on N.state going.named.value.on)) }
    ensures back { IfErr result (λ failed. OnlyReads (N.state device) (N.state failed.0)) }
    ensures fault { IfErr result (λ failed. WhyNotMounted (N.state failed.0) failed.1) }
{
    let mut device = device;
    let search = match find_checkpoint(alloc, &mut device) {
        Ok(search) => search,
        Err(fault) => return Err(unmounted(device, search_fault(fault))),
    };
    let CheckpointSearch { firsts, checkpoint } = search;
    let found = match checkpoint {
        Some(found) => found,
        None => return without_checkpoint(alloc, device, &firsts),
    };
    match by_entries(alloc, device, &found, &firsts) {
        Ok(going) => Ok(going),
        Err((device, fault)) => scan_after(alloc, device, Some(found.block), fault, &firsts),
    }
}

/// Finds the tree with which a volume goes on by a scan of all tags, whatever a checkpoint or summaries say. The block of a whole
/// checkpoint is noted, unless committed pages lie in it.
pub(crate) fn open_scanned<N: Nand>(
    alloc: Global,
    device: N,
) -> Result<Going<TrustedNand<N>>, (N, MountFault)>
    ensures read { IfOk result (λ going. IsOnAs N.state true (N.state device) going.named.value.on) }
    ensures going { IfOk result (λ going. IsGoing (seen_on N.state going.named.value.on) going) }
    ensures checked { OfTrueFlash (N.state device) (IfOk result (λ going. IsCheckedOn (N.state device) going.named.value.on)) }
    ensures within_limit { IfOk result (λ going. ReadsAllTags (N.state device) (own_on N.state going.named.value.on)) }
    ensures back { IfErr result (λ failed. OnlyReads (N.state device) (N.state failed.0)) }
    ensures fault { IfErr result (λ failed. WhyNotMounted (N.state failed.0) failed.1) }
{
    let mut device = device;
    let search = match find_checkpoint(alloc, &mut device) {
        Ok(search) => search,
        Err(fault) => return Err(unmounted(device, search_fault(fault))),
    };
    let CheckpointSearch { firsts, checkpoint } = search;
    match checkpoint {
        Some(found) => by_scan(alloc, device, Some(found.block), &firsts),
        None => by_scan(alloc, device, None, &firsts),
    }
}
