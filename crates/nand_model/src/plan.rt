// Which calls of a device in memory are cut or fail.
ghost use Rattle.std.specs.Prelude.{◌≡◌, [], IfSome, IfNone, IfOk};
ghost use Rattle.nand_model.specs.Plans.{listed, totaled, is_fused, failure_at, change_end, change_fates, other_end, fate_at};

use crate::fate::Fate;
use std::alloc::{AllocError, Global};

/// How a call ends.
#[derive(Clone, Copy, Debug, PartialEq, Eq)]
pub(crate) enum End {
    Whole,
    Failed,
    Cut,
}

/// The call that is cut, from the power-up, and what it leaves.
#[derive(Drop)]
pub(crate) struct Fuse {
    pub call: u64,
    pub fates: Vec<Fate>,
}

/// The calls since the power-up, and which of them are cut or fail.
#[derive(Drop)]
pub(crate) struct Script {
    pub calls: u64,
    pub changes: u64,
    pub fuse: Option<Fuse>,
    pub failures: Vec<(u64, Vec<Fate>)>,
}

impl Script {
    ghost use Rattle.nand_model.specs.Scripts.{plan};

    pub(crate) fn new(alloc: Global) -> Script
        ensures { plan result ≡ record { calls = 0; changes = 0; fuse = None; failures = [] } }
    {
        Script {
            calls: 0,
            changes: 0,
            fuse: None,
            failures: Vec::new(alloc),
        }
    }

    /// Begins anew: every count is 0, no call is cut or fails.
    pub(crate) fn restart(&mut self)
        ensures { plan self.new ≡ record { calls = 0; changes = 0; fuse = None; failures = [] } }
    {
        self.calls = 0;
        self.changes = 0;
        self.fuse = None;
        self.failures.clear();
    }

    pub(crate) fn count_call(&mut self)
        ensures { plan self.new ≡ record (plan self.old) { calls = totaled (plan self.old).calls } }
    {
        self.calls = self.calls.saturating_add(1);
    }

    pub(crate) fn count_change(&mut self)
        ensures { plan self.new ≡ record (plan self.old) { changes = totaled (plan self.old).changes } }
    {
        self.changes = self.changes.saturating_add(1);
    }

    /// Whether the fuse is at this call.
    pub(crate) fn is_cut(&self) -> bool
        ensures { result ≡ is_fused (plan self.now).fuse (plan self.now).calls }
    {
        match &self.fuse {
            None => false,
            Some(fuse) => fuse.call == self.calls,
        }
    }

    /// The fates of the first failure that is at this call.
    fn failure(&self) -> Option<&[Fate]>
        ensures fates { IfSome result (λ fates. failure_at (plan self.now).failures (plan self.now).calls ≡ Some fates.now) }
        ensures none { IfNone result (failure_at (plan self.now).failures (plan self.now).calls ≡ None) }
    {
        for (call, fates) in &self.failures {
            if *call == self.calls {
                return Some(fates.as_slice());
            }
        }
        None
    }

    /// How a program or an erase with this call ends.
    pub(crate) fn end(&self) -> End
        ensures { result ≡ change_end (plan self.now) (plan self.now).calls }
    {
        if self.is_cut() {
            End::Cut
        } else if self.failure().is_some() {
            End::Failed
        } else {
            End::Whole
        }
    }

    /// What this call leaves where it is cut or fails.
    pub(crate) fn fates(&self) -> &[Fate]
        ensures { result.now ≡ change_fates (plan self.now) (plan self.now).calls }
    {
        if self.is_cut() {
            match &self.fuse {
                None => &[],
                Some(fuse) => fuse.fates.as_slice(),
            }
        } else {
            match self.failure() {
                None => &[],
                Some(fates) => fates,
            }
        }
    }

    pub(crate) fn copy(&self) -> Result<Script, AllocError>
        ensures { IfOk result (λ script. plan script ≡ plan self.now) }
    {
        let fuse = match &self.fuse {
            None => None,
            Some(fuse) => Some(fuse.copy()?),
        };
        Ok(Script {
            calls: self.calls,
            changes: self.changes,
            fuse,
            failures: copy_failures(&self.failures)?,
        })
    }
}

impl Fuse {
    fn copy(&self) -> Result<Fuse, AllocError>
        ensures { IfOk result (λ fuse. (fuse.call ≡ self.now.call) × (fuse.fates.items ≡ self.now.fates.items)) }
    {
        let fates = Vec::from_slice(*self.fates.allocator(), &self.fates)?;
        Ok(Fuse {
            call: self.call,
            fates,
        })
    }
}

fn copy_failures(failures: &Vec<(u64, Vec<Fate>)>) -> Result<Vec<(u64, Vec<Fate>)>, AllocError>
    ensures { IfOk result (λ copy. listed copy.items ≡ listed failures.now.items) }
{
    let alloc = *failures.allocator();
    let mut copy = Vec::new(alloc);
    for (call, fates) in failures {
        let fates = Vec::from_slice(alloc, fates)?;
        copy.push((*call, fates))?;
    }
    Ok(copy)
}

/// The fate at a place of a list. A missing one is `Old`.
pub(crate) fn fate_in(fates: &[Fate], place: usize) -> Fate
    ensures { result ≡ fate_at fates.now place }
{
    fates.get(place).copied().unwrap_or(Fate::Old)
}
