// What a command is to do.
ghost use Rattle.std.specs.Prelude.{◌≡◌};
ghost use Rattle.command_plans.specs.Plans.{handed};
ghost use Rattle.command_plans.specs.declared.plan.HandleChange.TheVariants as handle_changes;
ghost use Rattle.command_plans.specs.declared.plan.StoreWork.TheVariants as work;

use crate::table::OpenDescription;
use object_store::{ObjectChange, Refusal};
use posix_profile::{Errno, Reply};

/// What a command does to the descriptors.
#[derive(Clone, Copy)]
pub enum HandleChange {
    Nothing,
    Remove(u32),
    Put(u32, OpenDescription),
}

/// What a command does to the store.
#[derive(Clone, Copy)]
pub enum StoreWork<'a> {
    Nothing,
    Change(ObjectChange<'a>),
    Commit,
}

/// The reply to a command, and what it changes.
#[derive(Drop)]
pub struct Plan<'a> {
    pub reply: Reply,
    pub handles: HandleChange,
    pub work: StoreWork<'a>,
}

/// A reply that changes nothing.
pub fn tell<'a>(reply: Reply) -> Plan<'a>
    ensures { result ≡ record { reply = reply; handles = handle_changes.Nothing; work = work.Nothing } }
{
    Plan {
        reply,
        handles: HandleChange::Nothing,
        work: StoreWork::Nothing,
    }
}

/// A reply to a change.
pub fn change<'a>(reply: Reply, made: ObjectChange<'a>) -> Plan<'a>
    ensures { result ≡ record { reply = reply; handles = handle_changes.Nothing; work = work.Change made.entry } }
{
    Plan {
        reply,
        handles: HandleChange::Nothing,
        work: StoreWork::Change(made),
    }
}

/// The plan or the error, where the store may have a fault.
pub fn hand_on<'a>(tried: Result<Plan<'a>, Errno>) -> Result<Plan<'a>, Refusal>
    ensures { result ≡ handed tried.entry }
{
    match tried {
        Ok(plan) => Ok(plan),
        Err(error) => Err(Refusal::Error(error)),
    }
}
