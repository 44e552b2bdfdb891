//! The weak scheduler, with the events that it was given.
ghost use Rattle.std.specs.Prelude.{◌≡◌, ◌++◌, ◌∷◌, [], OnOk, OnErr};
ghost use Rattle.strong_apa.specs.State.{IsState};
ghost use Rattle.strong_apa.specs.Step.{IsEventFor};
ghost use Rattle.weak_apa.specs.Stable.{IsWeaklyStable};
ghost use Rattle.weak_apa.specs.Step.{WeakStep, Follows};
ghost use Rattle.job_release.specs.WeakRuns.{StatesOf};
ghost use Rattle.job_release.specs.OneRun.{StatesOf-prop};

use crate::scheduler::JobScheduler;
use affinity_mask::OutOfMemory;
use link_table::Links;
use std::alloc::Global;
use std::marker::Model;
use task_set::{Event, TaskSet};
use weak_apa::Weak;

/// The weak scheduler, and the arrivals, departures and ticks that it was given so far.
#[derive(Drop)]
pub struct WeakHistory {
    weak: Weak,
    events: Vec<Event>,

    ghost states_so_far: { StatesOf weak events.items } by { StatesOf-prop weak events.items },
}

impl Model for WeakHistory {
    ghost use Rattle.job_release.specs.WeakHistory.{WeakHistoryData, history_view, AreWeakStepsKept};

    ghost Value = { WeakHistoryData };

    ghost view = { history_view };

    ghost invariant = { AreWeakStepsKept };
}

impl WeakHistory {
    ghost use Rattle.std.specs.Prelude.{IfOk};
    ghost use Rattle.job_release.specs.Driven.{IsJobEvent};
    ghost use Rattle.job_release.specs.WeakRuns.{IsNeededIn};
    ghost use Rattle.job_release.specs.WeakHistory.{Continues, IsWeakHistory, begun_with, state_now};

    /// No event yet: every task of the set is absent, and every processor idle. Refused only when out of memory.
    pub fn new(alloc: Global, set: &TaskSet) -> Result<WeakHistory, OutOfMemory>
        ensures { IfOk result (λ history. history ≡ begun_with set.now) }
    {
        let weak = Weak::new(alloc, set)?;
        let events = Vec::new(alloc);
        let _valid = weak.links().processors();
        Ok(WeakHistory { weak, events })
    }

    /// The events that it was given so far.
    pub fn events(&self) -> &[Event]
        ensures value { result.now ≡ self.now.events }
        ensures valid { IsWeakHistory self.now }
    {
        &self.events
    }

    /// Gives the scheduler one event more. Refused only when out of memory.
    fn enter(&mut self, event: Event) -> Result<(), OutOfMemory>
        requires known { IsEventFor (state_now self.old) event }
        requires of_jobs { IsJobEvent event }
        requires needed { IsNeededIn (state_now self.old) event }
        ensures valid_before { IsWeakHistory self.old }
        ensures continues { OnOk result (Continues self.old event self.new) }
        ensures valid { IsWeakHistory self.new }
    {
        apply_kept(&mut self.weak, &mut self.events, &event)
    }
}

impl JobScheduler for WeakHistory {
    ghost use Rattle.job_release.specs.WeakHistory.{weak_seen};

    ghost seen = { weak_seen };

    fn links(&self) -> &Links {
        let _valid = self.weak.links().processors();
        self.weak.links()
    }

    fn arrive(&mut self, t: u32) -> Result<(), OutOfMemory> {
        self.enter(Event::Arrive(t))
    }

    fn depart(&mut self, t: u32) -> Result<(), OutOfMemory> {
        self.enter(Event::Depart(t))
    }

    fn pass(&mut self, units: u32) -> Result<(), OutOfMemory> {
        self.enter(Event::Tick(units))
    }
}

/// Lists an event, and applies it.
fn apply_kept(weak: &mut Weak, events: &mut Vec<Event>, event: &Event) -> Result<(), OutOfMemory>
    requires { IsEventFor weak.old event.now }
    ensures step { OnOk result (WeakStep weak.old event.now weak.new) }
    ensures follows { OnOk result (Follows weak.old event.now weak.new) }
    ensures stable { OnOk result (IsWeaklyStable weak.new) }
    ensures valid { OnOk result (IsState weak.new) }
    ensures listed { OnOk result (events.new.items ≡ events.old.items ++ event.now ∷ []) }
    ensures same { OnErr result (weak.new ≡ weak.old) }
    ensures same_events { OnErr result (events.new.items ≡ events.old.items) }
{
    events.push(*event)?;
    weak.apply(*event);
    Ok(())
}
