// Whether a device in memory has power, and what it counts.
ghost use Rattle.std.specs.Prelude.{◌≡◌, ◌+◌, true, false, IfOk, if◌then◌else◌};
ghost use Rattle.nand_model.specs.Plans.{totaled, is_fused, change_end, other_end};
ghost use Rattle.nand_model.specs.declared.plan.End.TheVariants as ends;

use crate::count::Count;
use crate::plan::{End, Script};
use std::alloc::{AllocError, Global};

/// `script` counts since the power-up, the others since the device was made.
#[derive(Drop)]
pub(crate) struct Power {
    pub gone: bool,
    pub script: Script,
    pub cuts: Count,
    pub failures: Count,
    pub changes: Count,
    pub reads: Count,
}

impl Power {
    ghost use Rattle.nand_model.specs.Scripts.{plan};
    ghost use Rattle.nand_model.specs.Powers.{Begins, IsUnused, Restarts, IsCopy};

    pub(crate) fn new(alloc: Global) -> Power
        ensures gone { result.gone ≡ false }
        ensures counts { IsUnused result }
        ensures script { Restarts (plan result.script) }
    {
        Power {
            gone: false,
            script: Script::new(alloc),
            cuts: Count::new(),
            failures: Count::new(),
            changes: Count::new(),
            reads: Count::new(),
        }
    }

    /// The power comes back.
    pub(crate) fn restart(&mut self)
        ensures gone { self.new.gone ≡ false }
        ensures script { Restarts (plan self.new.script) }
        ensures cuts { self.new.cuts ≡ self.old.cuts }
        ensures failures { self.new.failures ≡ self.old.failures }
        ensures changes { self.new.changes ≡ self.old.changes }
        ensures reads { self.new.reads ≡ self.old.reads }
    {
        self.gone = false;
        self.script.restart();
    }

    pub(crate) fn copy(&self) -> Result<Power, AllocError>
        ensures { IfOk result (λ power. IsCopy power self.now) }
    {
        let script = self.script.copy()?;
        Ok(Power {
            gone: self.gone,
            script,
            cuts: self.cuts.copy(),
            failures: self.failures.copy(),
            changes: self.changes.copy(),
            reads: self.reads.copy(),
        })
    }

    /// Loses the power where the fuse is at this call.
    fn cut(&mut self) -> bool
        requires { self.old.gone ≡ false }
        ensures result { result ≡ is_fused (plan self.old.script).fuse (plan self.old.script).calls }
        ensures gone { self.new.gone ≡ result }
        ensures cuts { self.new.cuts.total ≡ (if result then self.old.cuts.total + 1 else self.old.cuts.total) }
        ensures script { self.new.script ≡ self.old.script }
        ensures failures { self.new.failures ≡ self.old.failures }
        ensures changes { self.new.changes ≡ self.old.changes }
        ensures reads { self.new.reads ≡ self.old.reads }
    {
        if self.script.is_cut() {
            self.gone = true;
            self.cuts = self.cuts.next();
            return true;
        }
        false
    }

    /// Begins a read, which is a call. On a gone device it is as good as cut.
    pub(crate) fn begin_read(&mut self) -> End
        ensures end { result ≡ (if self.old.gone then ends.Cut else other_end (plan self.old.script) (plan self.old.script).calls) }
        ensures gone { self.old.gone ≡ true → self.new ≡ self.old }
        ensures begins { self.old.gone ≡ false → Begins result self.old self.new }
        ensures reads { self.old.gone ≡ false → self.new.reads.total ≡ self.old.reads.total + 1 }
        ensures changes { self.new.changes ≡ self.old.changes }
        ensures script { self.new.script ≡ self.old.script }
    {
        if self.gone {
            return End::Cut;
        }
        self.reads = self.reads.next();
        if self.cut() { End::Cut } else { End::Whole }
    }

    /// Begins a mark, which is a call.
    pub(crate) fn begin_mark(&mut self) -> End
        requires { self.old.gone ≡ false }
        ensures end { result ≡ other_end (plan self.old.script) (plan self.old.script).calls }
        ensures begins { Begins result self.old self.new }
        ensures reads { self.new.reads ≡ self.old.reads }
        ensures changes { self.new.changes.total ≡ self.old.changes.total + 1 }
        ensures script { plan self.new.script ≡ record (plan self.old.script) { changes = totaled (plan self.old.script).changes } }
    {
        self.script.count_change();
        self.changes = self.changes.next();
        if self.cut() { End::Cut } else { End::Whole }
    }

    /// Begins a program or an erase, which is a call.
    pub(crate) fn begin_change(&mut self) -> End
        requires { self.old.gone ≡ false }
        ensures end { result ≡ change_end (plan self.old.script) (plan self.old.script).calls }
        ensures begins { Begins result self.old self.new }
        ensures reads { self.new.reads ≡ self.old.reads }
        ensures changes { self.new.changes.total ≡ self.old.changes.total + 1 }
        ensures script { plan self.new.script ≡ record (plan self.old.script) { changes = totaled (plan self.old.script).changes } }
    {
        self.script.count_change();
        self.changes = self.changes.next();
        let end = self.script.end();
        match end {
            End::Whole => {}
            End::Failed => self.failures = self.failures.next(),
            End::Cut => {
                self.gone = true;
                self.cuts = self.cuts.next();
            }
        }
        end
    }
}
