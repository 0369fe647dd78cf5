// A life of a volume.
ghost use Rattle.std.specs.Prelude.{◌≡◌, ◌≤◌, ◌+◌, ◌∷◌, [], false, length, IfOk};
ghost use Rattle.nand_model.specs.MemoryState.{device, plan};
ghost use Rattle.powercut.specs.Planning.{calls_since};
ghost use Rattle.pages.specs.Stores.{bad_on};
ghost use Rattle.powercut.specs.Sessions.{record_of, IsEnded, AreEnded, cuts_in};
ghost use Rattle.powercut.specs.Limits.{StaysWithin, StaysInReserve, FailsAsListed};
ghost use Rattle.powercut.specs.Living.{HasLived, IsTrueOn, OfSoundTree, LivesAs};

use crate::PlannedNand;
use crate::power::power_on;
use crate::serving::serve;
use crate::session::{Session, SessionEnd};
use nand_model::MemNand;
use std::alloc::{AllocError, Global};
use thiserror::Error;

/// Why a life was not lived to its end.
#[derive(Clone, Copy, Debug, PartialEq, Eq, Error)]
pub enum LiveFault {
    /// A growth was refused, outside the volume's own calls.
    #[error("memory was refused outside of the volume's own calls: free some, then live again")]
    NoMemory,
}

impl From<AllocError> for LiveFault {
    fn from(_error: AllocError) -> LiveFault {
        LiveFault::NoMemory
    }
}

/// Does one session on the device, from its power-up on, and returns how it ended.
pub fn live_one(
    alloc: Global,
    nand: MemNand,
    session: &Session,
) -> Result<(MemNand, SessionEnd), AllocError>
    ensures lived { IfOk result (λ lived. HasLived (device nand) (device lived.0) (record_of session.now lived.1 ∷ [])) }
    ensures ended { IfOk result (λ lived. IsEnded session.now lived.1 (device nand) (device lived.0)) }
    ensures calls { IfOk result (λ lived. (device lived.0).gone ≡ false → (plan lived.0).calls ≡ calls_since (device nand) (device lived.0)) }
{
    let nand = power_on(alloc, nand, session)?;
    let planned = PlannedNand::new(nand);
    let (planned, served) = serve(alloc, planned, &session.commands, session.unmount)?;
    let nand = planned.into_nand();
    let begun = served.replies.len() as u64;
    let cut = nand.gone();
    Ok((
        nand,
        SessionEnd {
            mounted: served.mounted,
            replies: served.replies,
            begun,
            unmounted: served.unmounted,
            cut,
        },
    ))
}

/// Does the sessions in turn on the device, each from a power-up on, and returns how each ended. After a fault the device is
/// dropped.
///
/// For every list of sessions on a sound and true flash, each of which may end before or within any program, erase or mark of a block,
/// the next mount that succeeds shows the tree after some prefix of the session's commands, which holds at least all that a
/// done sync covered; and every reply is the profile's.
pub fn live(
    alloc: Global,
    nand: MemNand,
    sessions: &[Session],
) -> Result<(MemNand, Vec<SessionEnd>), LiveFault>
    ensures ends { IfOk result (λ lived. length lived.1.items ≡ length sessions.now) }
    ensures geometry { IfOk result (λ lived. (device lived.0).geometry ≡ (device nand).geometry) }
    ensures life { IfOk result (λ lived. OfSoundTree (device nand) (λ spare tree. StaysWithin spare (device nand) (device lived.0)
        → LivesAs spare tree (device nand) sessions.now lived)) }
    ensures reserve { IfOk result (λ lived. OfSoundTree (device nand) (λ spare tree. StaysInReserve spare sessions.now (device nand) (device lived.0)
        → LivesAs spare tree (device nand) sessions.now lived)) }
    ensures truth { IfOk result (λ lived. IsTrueOn (device nand) → IsTrueOn (device lived.0)) }
    ensures each { IfOk result (λ lived. AreEnded sessions.now lived.1.items (device nand) (device lived.0)) }
    ensures cuts { IfOk result (λ lived. (device lived.0).cuts ≡ (device nand).cuts + cuts_in lived.1.items) }
    ensures failures { IfOk result (λ lived. FailsAsListed sessions.now (device nand) (device lived.0)) }
    ensures marks { IfOk result (λ lived. bad_on (device lived.0) + (device nand).failures ≤ bad_on (device nand) + (device lived.0).failures) }
{
    let mut last = nand;
    let mut ends = Vec::new(alloc);
    for session in sessions {
        ends.reserve(1)?;
        let (after, end) = live_one(alloc, last, session)?;
        last = after;
        match ends.push(end) {
            Ok(()) => {}
            Err(_) => return Err(LiveFault::NoMemory),
        }
    }
    Ok((last, ends))
}
