//! Which calls of a stream in memory fail.
ghost use Rattle.std.specs.Prelude.{◌≡◌, ℕ, [], IsTrue, IsErr, OnOk, OnErr, Contains, ◌⊎◌, ◌↔◌};
ghost use Rattle.shift_io.specs.Causes.{HasCause};
ghost use Rattle.shift_io.specs.FaultPlan.{FaultPlanView, plan_after_call, plan_after_fault};

use crate::source::Failed;
use std::marker::Model;

/// The numbers of the calls that are to fail, the number of the next call, and the count of faults.
#[derive(Drop)]
pub(crate) struct FaultPlan {
    fails: Vec<u64>,
    call: u64,
    faults: u64,
}

impl Model for FaultPlan {
    ghost Value = { FaultPlanView };

    ghost view = { λ plan. record { fails = plan.fails.items; call = plan.call; faults = plan.faults } };
}

impl FaultPlan {
    /// Calls are numbered from 0.
    pub(crate) fn new(fails: Vec<u64>) -> FaultPlan
        ensures fresh { result ≡ record { fails = fails.items; call = 0; faults = 0 } }
    {
        FaultPlan {
            fails,
            call: 0,
            faults: 0,
        }
    }

    /// Numbers one call, and fails it where it is blocked or its number is to fail.
    pub(crate) fn next_call(&mut self, is_blocked: bool) -> Result<(), Failed>
        ensures fails { IsErr result ↔ (IsTrue is_blocked ⊎ Contains self.old.fails self.old.call) }
        ensures ok { OnOk result (self.new ≡ plan_after_call self.old) }
        ensures failed { OnErr result (self.new ≡ plan_after_fault self.old) }
        ensures cause { HasCause self.old.faults self.new.faults result }
    {
        let call = self.call;
        self.call = call.saturating_add(1);
        if is_blocked || self.fails.contains(&call) {
            self.faults = self.faults.saturating_add(1);
            return Err(Failed);
        }
        Ok(())
    }
}
