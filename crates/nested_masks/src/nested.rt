//! The scheduler by counts.
ghost use Rattle.std.specs.Prelude.{◌≡◌, ◌⊎◌, ℕ, ◌<◌, ◌≤◌, IfOk, IfErr, IsOkUnless, Err, true, false, length};
ghost use Rattle.task_set.specs.TaskSet.{masks};
ghost use Rattle.nested_masks.specs.Laminar.{IsLaminar, IsFirstCrossing, tasks_in};
ghost use Rattle.nested_masks.specs.LaminarStep.{LaminarStep, ArrivesByCounts, DepartsByCounts};
ghost use Rattle.nested_masks.specs.Answers.{IsEventByCounts, IsCrossingFault, NodeCertifies};
ghost use Rattle.nested_masks.specs.declared.fault.NestedFault.{NestedFault};

use crate::counts::Counts;
use crate::fault::NestedFault;
use crate::reply::NestedReply;
use affinity_mask::ProcSet;
use std::alloc::Global;
use std::marker::Model;
use task_set::{Event, TaskSet};

/// The ready and the linked tasks of a set whose masks nest. Which processor a linked task has is left open.
#[derive(Drop)]
pub struct Nested {
    counts: Counts,
}

impl Model for Nested {
    ghost use Rattle.nested_masks.specs.NestedData.{NestedData};

    ghost Value = { NestedData };

    ghost use Rattle.nested_masks.specs.Views.{nested_view, IsKept};

    ghost view = { nested_view };

    ghost invariant = { IsKept };
}

impl Nested {
    ghost use Rattle.nested_masks.specs.NestedText.{linked_count, NamesTasks};
    ghost use Rattle.nested_masks.specs.NestedData.{nested_start, IsNested, linked_of, IsBestByCounts, IsTheOnlyBest};

    /// Every task of the set is absent. Refused where masks cross, and where memory runs out.
    pub fn new(alloc: Global, set: &TaskSet) -> Result<Nested, NestedFault>
        ensures start { IfOk result (λ nested. nested ≡ nested_start set.now) }
        ensures laminar { IfOk result (λ nested. IsLaminar (masks set.now)) }
        ensures refused { IfErr result (λ fault. (fault ≡ NestedFault.OutOfMemory)
            ⊎ IsCrossingFault set.now fault) }
        ensures refuses { (one other : ℕ) → IsFirstCrossing (masks set.now) one other
            → (result ≡ Err (NestedFault.Crossing one other)) ⊎ (result ≡ Err NestedFault.OutOfMemory) }
        ensures accepts { IsLaminar (masks set.now) → IsOkUnless result NestedFault.OutOfMemory }
    {
        let counts = Counts::new(alloc, set)?;
        Ok(Nested { counts })
    }

    /// How many tasks there are.
    pub fn len(&self) -> u32
        ensures value { result ≡ length self.now.priorities }
        ensures valid { IsNested self.now }
        ensures best { IsBestByCounts self.now }
        ensures only { IsTheOnlyBest self.now }
    {
        self.counts.len()
    }

    /// Whether a task is linked.
    pub fn is_linked(&self, t: u32) -> bool
        requires { t < length self.now.priorities }
        ensures { result ≡ linked_of self.now t }
    {
        self.counts.is_linked(t)
    }

    /// How many tasks are linked.
    pub fn linked_count(&self) -> u32
        ensures { result ≡ linked_count self.now }
    {
        self.counts.linked_count()
    }

    /// How many linked tasks have masks within a set.
    pub fn within(&self, x: ProcSet) -> u32
        ensures { result ≡ length (tasks_in self.now.masks (linked_of self.now) x) }
    {
        self.counts.within(x)
    }

    /// The step at an event of a task, or at a tick.
    pub fn apply(&mut self, event: Event) -> NestedReply
        requires { IsEventByCounts (length self.old.priorities) event }
        ensures step { LaminarStep self.old event result self.new }
        ensures best { IsBestByCounts self.new }
        ensures only { IsTheOnlyBest self.new }
        ensures certified { NodeCertifies self.new event result }
        ensures valid { IsNested self.new }
        ensures same { self.new.priorities ≡ self.old.priorities }
        ensures names { NamesTasks (length self.old.priorities) result }
    {
        let _before = self.len();
        let reply = self.step(event);
        let _after = self.len();
        reply
    }

    /// The step at an event.
    fn step(&mut self, event: Event) -> NestedReply
        requires { IsEventByCounts (length self.old.priorities) event }
        ensures { LaminarStep self.old event result self.new }
    {
        match event {
            Event::Arrive(t) => self.arrive(t),
            Event::Depart(t) => self.depart(t),
            Event::Tick(_) => NestedReply::Ticked,
            _ => unreachable!(),
        }
    }

    /// The step at an arrival.
    fn arrive(&mut self, t: u32) -> NestedReply
        requires { t < length self.old.priorities }
        ensures { ArrivesByCounts self.old t result self.new }
    {
        if self.counts.is_ready(t) {
            return NestedReply::AlreadyReady;
        }
        let Some(node) = self.counts.least_tight(t) else {
            self.counts.make_ready(t);
            self.counts.link(t);
            return NestedReply::Entered;
        };
        let Some(out) = self.counts.displaced(node, t) else {
            self.counts.make_ready(t);
            return NestedReply::Waits { node };
        };
        self.counts.make_ready(t);
        self.counts.unlink(out);
        self.counts.link(t);
        NestedReply::Displaced { out, node }
    }

    /// The step at a departure.
    fn depart(&mut self, t: u32) -> NestedReply
        requires { t < length self.old.priorities }
        ensures { DepartsByCounts self.old t result self.new }
    {
        if !self.counts.is_ready(t) {
            return NestedReply::NotReady;
        }
        if !self.counts.is_linked(t) {
            self.counts.leave(t);
            return NestedReply::Left;
        }
        self.counts.leave(t);
        let Some(w) = self.counts.most_urgent_free() else {
            return NestedReply::Freed { entered: None };
        };
        self.counts.link(w);
        NestedReply::Freed { entered: Some(w) }
    }
}
