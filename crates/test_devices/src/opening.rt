// A store on a device, as a scan finds it.
ghost use Rattle.std.specs.Prelude.{◌<◌, ◌≤◌, ℕ, IfOk, IsTrue, true};
ghost use Rattle.nand_model.specs.Calls.{Device};
ghost use Rattle.flash_tree.specs.Places.{numbers_of};
ghost use Rattle.block_state.specs.Committed.{bad_count};
ghost use Rattle.block_state.specs.TableOf.{table};
ghost use Rattle.chunk_index.specs.Maps.{CountsAgree};
ghost use Rattle.transactions.specs.Ready.{IsReady};
ghost use Rattle.flash_log.specs.Consistency.{KeepsOrdinary, IsConsistentLog, HasFreeBlocks};
ghost use Rattle.page_store.specs.Opened.{IsOpened};
ghost use Rattle.test_devices.specs.Keeping.{KeepsNewest};

use crate::build_fault::BuildFault;
use crate::keys::OrdinaryKeys;
use block_state::Blocks;
use chunk_index::{Index, KeyFilter};
use flash_log::Log;
use flash_tree::{CHECK_OBJECT, Key};
use mount_scan::find_checkpoint;
use nand_model::Nand;
use page_store::{OpenFault, Opened, Store, note_firsts, open};
use std::alloc::Global;
use std::num::NonZeroUsize;
use volume_terms::NUMBER_END;

/// What a scan finds of a device. The first pages of its blocks are read before, and noted, as a mount does.
pub fn open_noted<N: Nand>(alloc: Global, device: &mut N) -> Result<Opened, OpenFault>
    ensures opened { IfOk result (λ opened. IsOpened (N.state device.new) (table opened.blocks) opened.index (numbers_of opened.numbers)) }
{
    let search = find_checkpoint(alloc, device)?;
    let opened = open(alloc, device)?;
    let Opened {
        blocks,
        index,
        numbers,
    } = opened;
    let mut blocks = blocks;
    note_firsts(&search.firsts.pages, &mut blocks);
    Ok(Opened {
        blocks,
        index,
        numbers,
    })
}

/// Forgets all keys but those that a filter keeps.
fn forget<F: KeyFilter>(opened: &mut Opened, filter: &F)
    requires { CountsAgree (table opened.old.blocks) opened.old.index }
    ensures { (d : Device) → IsOpened d (table opened.old.blocks) opened.old.index (numbers_of opened.old.numbers)
        → KeepsNewest d (table opened.new.blocks) opened.new.index (numbers_of opened.new.numbers) }
{
    opened.index.retain(filter, &mut opened.blocks);
}

/// Whether no block has more committed pages than it has pages.
fn fit(blocks: &Blocks) -> bool
    ensures { IsTrue result → (b : ℕ) → b < (table blocks.now).geometry.blocks → ((table blocks.now).entry b).committed ≤ (table blocks.now).geometry.pages }
{
    for block in 0..blocks.geometry().blocks() {
        if blocks.entry(block).committed > blocks.geometry().pages() {
            return false;
        }
    }
    true
}

/// Whether no more blocks are bad than these, and blocks enough are free.
fn has_free(blocks: &Blocks, spare: u32) -> bool
    ensures within_limit { IsTrue result → bad_count (table blocks.now) ≤ spare }
    ensures free { IsTrue result → HasFreeBlocks (table blocks.now) spare }
{
    let (free, bad) = (blocks.free_count(), blocks.bad_count());
    bad <= spare && u64::from(free) + u64::from(bad) > u64::from(spare)
}

/// Whether no page of the object of checkpoints is committed.
fn keeps_ordinary(index: &Index) -> bool
    ensures { IsTrue result → KeepsOrdinary index.now }
{
    let last = Key {
        object: CHECK_OBJECT - 1,
        chunk: u64::MAX,
    };
    index.next_committed(Some(last)).is_none()
}

/// Whether there is what a store with so many blocks to spare needs: numbers are left, no block has too many committed pages, no
/// more blocks are bad than are to spare, blocks enough are free, and no page of a checkpoint is committed.
fn may_be_consistent(opened: &Opened, spare: u32) -> bool
    ensures can_write { IsTrue result → (d : Device) → KeepsNewest d (table opened.now.blocks) opened.now.index (numbers_of opened.now.numbers)
        → IsReady d (table opened.now.blocks) }
    ensures consistent { IsTrue result → (d : Device) → KeepsNewest d (table opened.now.blocks) opened.now.index (numbers_of opened.now.numbers)
        → IsConsistentLog spare d (table opened.now.blocks) opened.now.index }
    ensures within_limit { IsTrue result → bad_count (table opened.now.blocks) ≤ spare }
    ensures free { IsTrue result → HasFreeBlocks (table opened.now.blocks) spare }
{
    if opened.numbers.group >= NUMBER_END || opened.numbers.seq >= NUMBER_END {
        return false;
    }
    if opened.blocks.next_group() > NUMBER_END || opened.blocks.next_seq() > NUMBER_END {
        return false;
    }
    if !fit(&opened.blocks) || !has_free(&opened.blocks, spare) {
        return false;
    }
    keeps_ordinary(&opened.index)
}

/// A store of the newest pages of a device, of the keys that a filter keeps, with so many blocks to spare and so many pages
/// in the cache.
pub fn open_committed<N: Nand + Drop, F: KeyFilter>(
    alloc: Global,
    mut device: N,
    filter: &F,
    spare: u32,
    capacity: NonZeroUsize,
) -> Result<Store<N>, BuildFault> {
    let mut opened = open_noted(alloc, &mut device)?;
    forget(&mut opened, filter);
    if !may_be_consistent(&opened, spare) {
        return Err(BuildFault::Worn);
    }
    let Opened { blocks, index, .. } = opened;
    let log = match Log::new(alloc, device, blocks, index, spare) {
        Ok(log) => log,
        Err((_, refused)) => return Err(refused.into()),
    };
    match Store::new(alloc, log, capacity) {
        Ok(store) => Ok(store),
        Err((_, refused)) => Err(refused.into()),
    }
}

/// A store of the newest pages of a device but for those of checkpoints and block summaries, with so many blocks to spare and so many pages in the cache.
pub fn open_each<N: Nand + Drop>(
    alloc: Global,
    device: N,
    spare: u32,
    capacity: NonZeroUsize,
) -> Result<Store<N>, BuildFault> {
    open_committed(alloc, device, &OrdinaryKeys, spare, capacity)
}
