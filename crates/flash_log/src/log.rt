// The log: a device, and what memory holds of its blocks and of its pages.
ghost use Rattle.std.specs.Prelude.{◌≡◌, Option, IfOk, IfErr};
ghost use Rattle.block_state.specs.TableOf.{table};
ghost use Rattle.transactions.specs.Checking.{log_of};
ghost use Rattle.transactions.specs.Ready.{IsReady};
ghost use Rattle.flash_log.specs.Mountable.{IsMountableSince};
ghost use Rattle.flash_log.specs.Room.{IsRoomFor};
ghost use Rattle.flash_log.specs.Snapshots.{Snapshot};
ghost use Rattle.flash_log.specs.Consistency.{IsConsistentLog};
ghost use Rattle.flash_log.specs.laws.OneProof.{consistent_prop};

use crate::origin::Origin;
use crate::room::MoveRoom;
use block_state::Blocks;
use chunk_index::Index;
use nand_model::Nand;
use std::alloc::{AllocError, Global};

/// A device, the table of its blocks and the index of its pages, which agree with it and with each other.
#[derive(Drop)]
pub struct Log<N: Nand> {
    pub device: N,
    pub blocks: Blocks,
    pub index: Index,
    pub room: MoveRoom,
    /// How many blocks may be bad.
    pub spare: u32,
    /// The flash with which the log began, for contracts alone. It takes no memory.
    pub origin: Origin,
    ghost can_write: { IsReady (N.state device) (table blocks) },
    ghost consistent: { IsConsistentLog spare (N.state device) (table blocks) index } by { consistent_prop spare (N.state device) (table blocks) index },
    ghost room_size: { IsRoomFor (N.state device).geometry room },
    ghost mountable: { IsMountableSince origin.first (log_of (N.state device) (table blocks)) index },
}

impl<N: Nand> Log<N> {
    /// A log of these parts, which agree, with room for moves. Which flash is remembered, or none, a proof chooses at the call. Where
    /// memory is refused the device is returned as it is.
    pub fn new(
        alloc: Global,
        device: N,
        blocks: Blocks,
        index: Index,
        spare: u32,
    ) -> Result<Log<N>, (N, AllocError)>
        ghost first: { Option Snapshot }
        requires can_write { IsReady (N.state device) (table blocks) }
        requires consistent { IsConsistentLog spare (N.state device) (table blocks) index }
        requires mountable { IsMountableSince first (log_of (N.state device) (table blocks)) index }
        ensures device { IfOk result (λ log. log.device ≡ device) }
        ensures tables { IfOk result (λ log. (log.blocks ≡ blocks) × (log.index ≡ index)) }
        ensures spare { IfOk result (λ log. log.spare ≡ spare) }
        ensures origin { IfOk result (λ log. log.origin.first ≡ first) }
        ensures given_back { IfErr result (λ back. back.0 ≡ device) }
    {
        match MoveRoom::new(alloc, device.geometry()) {
            Ok(room) => Ok(Log {
                device,
                blocks,
                index,
                room,
                spare,
                origin: Origin::as_chosen(),
            }),
            Err(refused) => Err((device, refused)),
        }
    }
}
