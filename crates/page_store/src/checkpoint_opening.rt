// The tables of a device, by the entries of a checkpoint.
ghost use Rattle.std.specs.Prelude.{◌↔◌, IsSome, IsTrue, IfOk, IfSome};
ghost use Rattle.mount_scan.specs.FoundCheckpoint.{HasForm, IsWholeOn, checkpoint_of};
ghost use Rattle.mount_scan.specs.FirstPages.{AreFirstsOf};
ghost use Rattle.page_store.specs.Checked.{HasTrueFlash, IsOpenedFor, KeepsItsTree, KnowsFirstsBy, MayAllBeCommitted, MayBeCommitted};

use crate::first_pages::note_firsts;
use crate::opening::{Opened, table_above};
use chunk_index::{Index, PlacedPages, the_counts_are_of_the_keys};
use flash_tree::{CHECK_OBJECT, CHUNK_END, TagNumbers};
use mount_scan::{FirstPages, FoundCheckpoint};
use nand_model::Nand;
use page_tags::CheckEntry;
use std::alloc::{AllocError, Global};

/// Whether an entry of a checkpoint may list a committed page.
fn may_be_committed<N: Nand>(device: &N, found: &FoundCheckpoint, entry: &CheckEntry) -> bool
    ensures { IsTrue result ↔ MayBeCommitted (N.state device.now) (checkpoint_of found.now) entry.now }
{
    let geometry = device.geometry();
    if entry.block >= geometry.blocks() || entry.page >= geometry.pages() {
        return false;
    }
    if device.is_bad(entry.block) || entry.block == found.block {
        return false;
    }
    if entry.object < 1 || entry.object >= CHECK_OBJECT || entry.chunk >= CHUNK_END {
        return false;
    }
    entry.version >= 1 && entry.version <= found.number
}

/// Whether each entry of a checkpoint may.
fn may_all_be_committed<N: Nand>(device: &N, found: &FoundCheckpoint) -> bool
    ensures { IsTrue result ↔ MayAllBeCommitted (N.state device.now) (checkpoint_of found.now) }
{
    for entry in &found.entries {
        if !may_be_committed(device, found, entry) {
            return false;
        }
    }
    true
}

/// The tables of a device by the entries of a checkpoint that is whole, and by the first pages of its blocks: exactly what
/// the entries list is committed, and the checkpoint's block is noted. There are none where an entry cannot list a committed page.
pub fn open_committed<N: Nand>(
    alloc: Global,
    device: &N,
    found: &FoundCheckpoint,
    firsts: &FirstPages,
) -> Result<Option<Opened>, AllocError>
    requires form { HasForm (N.state device.now) (checkpoint_of found.now) }
    requires whole { IsWholeOn (N.state device.now) (checkpoint_of found.now) }
    requires firsts { AreFirstsOf (N.state device.now) firsts.now }
    ensures opened { IfOk result (λ made. IfSome made (IsOpenedFor (N.state device.now) (checkpoint_of found.now))) }
    ensures tree { HasTrueFlash (N.state device.now) → IfOk result (λ made. IfSome made (KeepsItsTree (N.state device.now))) }
    ensures firsts { IfOk result (λ made. IfSome made (KnowsFirstsBy (N.state device.now) (checkpoint_of found.now))) }
    ensures made { HasTrueFlash (N.state device.now) → IfOk result (λ made. IsSome made) }
{
    the_counts_are_of_the_keys();
    if !may_all_be_committed(device, found) {
        return Ok(None);
    }
    let numbers = TagNumbers {
        version: found.number,
        group: found.number,
        seq: found.seq,
    };
    let mut blocks = table_above(alloc, device, numbers)?;
    note_firsts(&firsts.pages, &mut blocks);
    let (index, blocks) = Index::from_committed(
        alloc,
        PlacedPages::Entries(&found.entries),
        blocks,
    )?;
    let mut blocks = blocks;
    blocks.note_checkpoint(found.block);
    Ok(Some(Opened {
        blocks,
        index,
        numbers,
    }))
}
