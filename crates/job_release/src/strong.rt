//! The strong scheduler, as one that jobs are driven with.
ghost use Rattle.std.specs.Prelude.{◌≡◌, ◌<◌, false, length, IfOk, OnOk};
ghost use Rattle.std.specs.Result.{OnErr};
ghost use Rattle.strong_apa.specs.Step.{IsEventFor};
ghost use Rattle.sched_core.specs.CoreData.{IsCore, Applied, OnlyMadeRoom, max_entries};
ghost use Rattle.job_release.specs.Driven.{IsJobEvent};
ghost use Rattle.job_release.specs.Scheduler.{IsNewFor};

use crate::scheduler::JobScheduler;
use affinity_mask::OutOfMemory;
use link_table::Links;
use sched_core::{Core, CoreFault};
use std::alloc::Global;
use std::marker::Model;
use task_set::{Event, TaskSet};

/// A core that is open, and whose events are arrivals, departures and ticks.
#[derive(Drop)]
pub struct Strong {
    core: Core,
}

impl Model for Strong {
    ghost use Rattle.sched_core.specs.CoreData.{CoreData};

    ghost Value = { CoreData };

    ghost use Rattle.job_release.specs.Strong.{IsOpen};

    ghost view = { λ strong. strong.core };

    ghost invariant = { λ strong. IsOpen strong.core };
}

impl Strong {
    ghost use Rattle.job_release.specs.Strong.{strong_seen, IsOpen};

    /// Every task of the set is absent, and every processor is idle. Refused only when out of memory.
    pub fn new(alloc: Global, set: &TaskSet) -> Result<Strong, OutOfMemory>
        ensures { IfOk result (λ strong. IsNewFor set.now (strong_seen strong)) }
    {
        let core = Core::new(alloc, set)?;
        Ok(Strong { core })
    }

    /// The core, with the history.
    pub fn core(&self) -> &Core
        ensures value { result.now ≡ self.now }
        ensures valid { IsCore self.now }
        ensures opened { IsOpen self.now }
    {
        let _valid = self.core.history();
        &self.core
    }
}

impl JobScheduler for Strong {
    ghost use Rattle.job_release.specs.Strong.{strong_seen};

    ghost seen = { strong_seen };

    fn links(&self) -> &Links {
        self.core.links()
    }

    fn arrive(&mut self, t: u32) -> Result<(), OutOfMemory> {
        enter(&mut self.core, Event::Arrive(t))?;
        Ok(())
    }

    fn depart(&mut self, t: u32) -> Result<(), OutOfMemory> {
        enter(&mut self.core, Event::Depart(t))?;
        Ok(())
    }

    fn pass(&mut self, units: u32) -> Result<(), OutOfMemory> {
        enter(&mut self.core, Event::Tick(units))?;
        Ok(())
    }
}

/// Applies an event to a core that is open and not full.
fn enter(core: &mut Core, event: Event) -> Result<(), OutOfMemory>
    requires known { IsEventFor core.old.links event }
    requires not_closed { core.old.closed ≡ false }
    requires not_full { length core.old.history < max_entries }
    ensures applied { OnOk result (Applied core.old 0 event (length core.old.history) core.new) }
    ensures valid_before { IsCore core.old }
    ensures valid { IsCore core.new }
    ensures refused { OnErr result (OnlyMadeRoom core.old core.new) }
{
    let _valid_before = core.history().len();
    let applied = core.apply(0, event);
    let _valid = core.history().len();
    match applied {
        Ok(_) => Ok(()),
        Err(CoreFault::OutOfMemory) => Err(OutOfMemory),
        Err(CoreFault::Closed | CoreFault::Full) => unreachable!(),
    }
}
