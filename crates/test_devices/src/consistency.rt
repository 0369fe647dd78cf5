// Whether a log may be used.
ghost use Rattle.std.specs.Prelude.{◌≡◌, ◌<◌, ◌≤◌, ℕ, IsTrue};
ghost use Rattle.nand_model.specs.Calls.{Device};
ghost use Rattle.block_state.specs.Committed.{bad_count};
ghost use Rattle.block_state.specs.TableOf.{table};
ghost use Rattle.flash_log.specs.Taking.{HasUncommitted};
ghost use Rattle.flash_log.specs.Consistency.{KeepsOrdinary, IsConsistentLog};
ghost use Rattle.test_devices.specs.Scanned.{IsScanned};

use block_state::Blocks;
use chunk_index::Index;
use flash_tree::{CHECK_OBJECT, Key};

/// Whether no block has more committed pages than it has pages.
fn fit(blocks: &Blocks) -> bool
    ensures { IsTrue result → (b : ℕ) → b < (table blocks.now).geometry.blocks → ((table blocks.now).entry b).committed ≤ (table blocks.now).geometry.pages }
{
    for block in 0..blocks.geometry().blocks() {
        if blocks.entry(block).committed > blocks.geometry().pages() {
            return false;
        }
    }
    true
}

/// Whether no block is open, none may have a checkpoint, no more are bad than these, and blocks enough are free.
pub fn has_uncommitted(blocks: &Blocks, spare: u32) -> bool
    ensures { IsTrue result → HasUncommitted (table blocks.now) spare }
{
    if blocks.open_block().is_some() {
        return false;
    }
    if blocks.checkpoint().is_some() {
        return false;
    }
    let (free, bad) = (blocks.free_count(), blocks.bad_count());
    bad <= spare && u64::from(free) + u64::from(bad) > u64::from(spare)
}

/// Whether no page of the object of checkpoints is committed.
fn keeps_ordinary(index: &Index) -> bool
    ensures { IsTrue result → KeepsOrdinary index.now }
{
    let last = Key {
        object: CHECK_OBJECT - 1,
        chunk: u64::MAX,
    };
    index.next_committed(Some(last)).is_none()
}

/// Whether what a scan found may be used with so many blocks to spare: no block has too many committed pages, no more are bad
/// than are to spare, blocks enough are free, and no page of a checkpoint is committed.
pub(crate) fn may_be_consistent(blocks: &Blocks, index: &Index, spare: u32) -> bool
    ensures consistent { IsTrue result → (d : Device) → IsScanned d (table blocks.now) index.now → IsConsistentLog spare d (table blocks.now) index.now }
    ensures within_limit { IsTrue result → bad_count (table blocks.now) ≤ spare }
{
    fit(blocks) && has_uncommitted(blocks, spare) && keeps_ordinary(index)
}
