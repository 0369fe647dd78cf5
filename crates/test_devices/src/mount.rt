// The log of what a scan finds.
ghost use Rattle.std.specs.Prelude.{◌≡◌, ◌<◌, ◌^◌, ℕ, Some, IfOk, IsSome};
ghost use Rattle.nand_model.specs.MemoryState.{device};
ghost use Rattle.nand_model.specs.Changes.{OnlyReads};
ghost use Rattle.block_state.specs.TableOf.{table};
ghost use Rattle.flash_tree.specs.Newest.{Spot, IsNewest};
ghost use Rattle.chunk_index.specs.Maps.{committed_pages};
ghost use Rattle.flash_log.specs.LogOf.{HasReserve};
ghost use Rattle.flash_log.specs.Room.{IsRoomFor};
ghost use Rattle.test_devices.specs.Scanned.{IsScanned};

use crate::consistency::may_be_consistent;
use crate::fault::LogFault;
use crate::keys::OrdinaryKeys;
use block_state::Blocks;
use chunk_index::Index;
use flash_log::{Log, MoveRoom, Origin};
use mount_scan::scan_newest;
use nand_model::{MemNand, Nand};
use std::alloc::Global;
use transactions::table_of;
use volume_terms::NUMBER_END;

/// The table of blocks and the index of pages that a scan finds, and room for moves.
#[derive(Drop)]
struct Scanned {
    blocks: Blocks,
    index: Index,
    room: MoveRoom,
}

/// What a scan of a device finds: the newest page of each key of a chunk that a tree may look up is committed. Each tag of a
/// good block is read once. No block is open.
fn scan_log(alloc: Global, nand: &mut MemNand) -> Result<Scanned, LogFault>
    ensures reads { OnlyReads (device nand.old) (device nand.new) }
    ensures scanned { IfOk result (λ log. IsScanned (device nand.new) (table log.blocks) log.index) }
    ensures all { IfOk result (λ log. (o c : ℕ) (s : Spot) → c < 2 ^ 32 → IsNewest (device nand.new).flash o c s → IsSome (committed_pages log.index o c)) }
    ensures room { IfOk result (λ log. IsRoomFor (device nand.new).geometry log.room) }
{
    let found = scan_newest(alloc, nand)?;
    if found.numbers.group >= NUMBER_END || found.numbers.seq >= NUMBER_END {
        return Err(LogFault::Worn);
    }
    let blocks = table_of(alloc, nand, found.numbers)?;
    let (index, blocks) = Index::from_newest(alloc, found.newest, blocks)?;
    let room = MoveRoom::new(alloc, nand.geometry())?;
    Ok(Scanned {
        blocks,
        index,
        room,
    })
}

/// The log on a device with so many blocks to spare. Each tag of a good block is read once. No block is open.
pub fn mount_log(alloc: Global, nand: MemNand, spare: u32) -> Result<Log<MemNand>, LogFault>
    ensures reads { IfOk result (λ log. OnlyReads (device nand) (device log.device)) }
    ensures reserve { IfOk result HasReserve }
    ensures spare { IfOk result (λ log. log.spare ≡ spare) }
    ensures all { IfOk result (λ log. (o c : ℕ) (s : Spot) → c < 2 ^ 32 → IsNewest (device log.device).flash o c s → IsSome (committed_pages log.index o c)) }
{
    let mut nand = nand;
    let found = scan_log(alloc, &mut nand)?;
    if !may_be_consistent(&found.blocks, &found.index, spare) {
        return Err(LogFault::Worn);
    }
    Ok(Log {
        device: nand,
        blocks: found.blocks,
        index: found.index,
        room: found.room,
        spare,
        origin: Origin::as_chosen(),
    })
}

/// The log on a device with so many blocks to spare, while this block may have a whole checkpoint: it is noted, and no page
/// of the object of checkpoints is committed. Each tag of a good block is read once. No block is open.
pub fn mount_log_beside(
    alloc: Global,
    nand: MemNand,
    spare: u32,
    checkpoint: u32,
) -> Result<Log<MemNand>, LogFault>
    ensures reads { IfOk result (λ log. OnlyReads (device nand) (device log.device)) }
    ensures reserve { IfOk result HasReserve }
    ensures spare { IfOk result (λ log. log.spare ≡ spare) }
    ensures noted { IfOk result (λ log. (table log.blocks).checkpoint ≡ Some checkpoint) }
{
    let mut nand = nand;
    let mut found = scan_log(alloc, &mut nand)?;
    found.index.retain(&OrdinaryKeys, &mut found.blocks);
    if !may_be_consistent(&found.blocks, &found.index, spare) {
        return Err(LogFault::Worn);
    }
    if checkpoint >= found.blocks.geometry().blocks() || !found.blocks.is_free(checkpoint) {
        return Err(LogFault::NotFree);
    }
    found.blocks.note_checkpoint(checkpoint);
    Ok(Log {
        device: nand,
        blocks: found.blocks,
        index: found.index,
        room: found.room,
        spare,
        origin: Origin::as_chosen(),
    })
}
