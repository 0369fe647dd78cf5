// The commands that make the objects last: Fsync and Sync. A read-only volume has nothing to keep: what it holds was mounted.
ghost use Rattle.std.specs.Prelude.{◌≡◌, true};
ghost use Rattle.posix_profile.specs.HandleSteps.{fsync_step};
ghost use Rattle.posix_profile.specs.Outcomes.{answer};
ghost use Rattle.volume_terms.specs.Sizes.{Sizes};
ghost use Rattle.posix_profile.specs.State.{State};
ghost use Rattle.command_plans.specs.Classes.{Syncing, reports_if};
ghost use Rattle.command_plans.specs.Plans.{Tries, Frees, IsPlan, frees};
ghost use Rattle.command_plans.specs.Tables.{handles_in};

use command_plans::plan::{HandleChange, Plan, StoreWork, tell};
use command_plans::table::DescriptorTable;
use posix_profile::{Errno, Reply};

/// Sync: all objects, whatever they are.
pub(crate) fn sync<'a>(read_only: bool) -> Plan<'a>
    ensures plans { (z : Sizes) (s : State) → IsPlan z (reports_if read_only Syncing) s (answer s Reply.Done) result }
    ensures memory { frees result.work ≡ true }
{
    if read_only {
        return tell(Reply::Done);
    }
    Plan {
        reply: Reply::Done,
        handles: HandleChange::Nothing,
        work: StoreWork::Commit,
    }
}

/// Fsync: all objects, and not those of the descriptor alone.
pub(crate) fn fsync<'a>(
    table: &DescriptorTable,
    read_only: bool,
    fd: u32,
) -> Result<Plan<'a>, Errno>
    ensures plans { (z : Sizes) (s : State) → handles_in table.now ≡ s.handles → Tries z (reports_if read_only Syncing) s (fsync_step s fd) result }
    ensures memory { Frees result }
{
    match table.get(fd) {
        Some(_) => Ok(sync(read_only)),
        None => Err(Errno::EBADF),
    }
}
