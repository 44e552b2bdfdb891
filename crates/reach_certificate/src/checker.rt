//! The checker of schedules.
ghost use Rattle.std.specs.Prelude.{◌≡◌, ℕ, ◌<◌, map, Err, IsOk, IfOk, IfErr, OnOk, OnErr, slice_get, Some};
ghost use Rattle.std.specs.List.{range_with_len};
ghost use Rattle.task_set.specs.Context.{fresh_context};
ghost use Rattle.strong_apa.specs.State.{State, IsState, start_of, task_count};
ghost use Rattle.strong_apa.specs.Step.{IsEventFor, SchedulerStep};
ghost use Rattle.strong_apa.specs.History.{effect_of};
ghost use Rattle.reach_certificate.specs.Checker.{IsChecker};
ghost use Rattle.reach_certificate.specs.Contexts.{EachBecomes, context_after_entry};
ghost use Rattle.reach_certificate.specs.Defect.{IsDefect};
ghost use Rattle.strong_apa.specs.CertificateLaws.{LinkedIsBest};
ghost use Rattle.strong_apa.specs.Passing.{Passes};
ghost use Rattle.reach_certificate.specs.declared.defect.Defect.{Defect};

use crate::contexts::Contexts;
use crate::defect::Defect;
use crate::judge::follow_entry;
use affinity_mask::OutOfMemory;
use link_table::{Entry, Links};
use std::alloc::Global;
use std::marker::Model;
use task_set::{Context, TaskSet};

/// What a schedule led to so far, entry by entry. Whoever made the schedule, an entry is accepted exactly where its
/// reply passes, and the linked tasks are then the best set of the ready ones.
#[derive(Drop)]
pub struct Checker {
    links: Links,
    /// The links before the last entry at which a task left and came back: they undo one that is refused.
    saved: Links,
    contexts: Contexts,
}

impl Model for Checker {
    ghost use Rattle.reach_certificate.specs.Checker.{CheckerData};

    ghost Value = { CheckerData };

    ghost use Rattle.reach_certificate.specs.CheckerView.{checker_view, IsStored};

    ghost view = { checker_view };

    ghost invariant = { IsStored };
}

impl Checker {
    /// Before any entry: every task is absent, every processor is idle, and no task has run. All room is made here.
    /// Refused only where memory runs out.
    pub fn new(alloc: Global, set: &TaskSet) -> Result<Checker, OutOfMemory>
        ensures links { IfOk result (λ checker. checker.links ≡ start_of set.now) }
        ensures contexts { IfOk result (λ checker. checker.contexts
            ≡ map fresh_context (range_with_len 0 (task_count (start_of set.now)))) }
        ensures valid { IfOk result IsChecker }
    {
        let saved = Links::new(alloc, set)?;
        let (links, contexts) = before_any(alloc, set)?;
        Ok(Checker {
            links,
            saved,
            contexts,
        })
    }

    /// Judges an entry by its chain and its set alone, and follows it where it passes. An entry that is refused changes
    /// nothing. No memory is taken.
    pub fn accept(&mut self, entry: &Entry) -> Result<(), Defect>
        requires { IsEventFor self.old.links entry.now.event }
        ensures accepted { OnOk result (Passes self.old.links entry.now.event entry.now.reply) }
        ensures links { OnOk result (self.new.links ≡ effect_of self.old.links entry.now) }
        ensures contexts { OnOk result (EachBecomes (context_after_entry self.old.links self.new.links entry.now.event)
            self.old.contexts self.new.contexts) }
        ensures defect { IfErr result (IsDefect self.old.links entry.now) }
        ensures refused { OnErr result (self.new ≡ self.old) }

        // The answer is exact both ways, and each step of the scheduler is accepted.
        ensures passing { Passes self.old.links entry.now.event entry.now.reply → IsOk result }
        ensures defects { (d : Defect) → IsDefect self.old.links entry.now d → result ≡ Err d }
        ensures steps { (new : State)
            → SchedulerStep self.old.links entry.now.event entry.now.reply new → IsOk result }

        // Whatever was answered.
        ensures best { LinkedIsBest self.new.links }
        ensures valid { IsChecker self.new }
    {
        if let Some(defect) = follow_entry(&mut self.links, &mut self.saved, entry) {
            return Err(defect);
        }
        self.contexts.follow(&self.links, entry);
        Ok(())
    }

    /// The links after the entries that were accepted.
    pub fn links(&self) -> &Links
        ensures value { result.now ≡ self.now.links }
        ensures best { LinkedIsBest self.now.links }
        ensures valid { IsChecker self.now }
    {
        &self.links
    }

    /// What a task has run by the entries that were accepted.
    pub fn context(&self, t: u32) -> &Context
        requires { t < task_count self.now.links }
        ensures value { slice_get self.now.contexts t ≡ Some result.now }
        ensures task { result.now.task ≡ t }
        ensures valid { IsChecker self.now }
    {
        self.contexts.of(t)
    }
}

/// The links before any entry, with a fresh context for each task.
fn before_any(alloc: Global, set: &TaskSet) -> Result<(Links, Contexts), OutOfMemory>
    ensures links { IfOk result (λ made. made.0 ≡ start_of set.now) }
    ensures state { IfOk result (λ made. IsState made.0) }
    ensures each { IfOk result (λ made. made.1.each
        ≡ map fresh_context (range_with_len 0 (task_count made.0))) }
    ensures held { IfOk result (λ made. made.1.held ≡ made.0.on) }
{
    let links = Links::new(alloc, set)?;
    prove!(links.processors() <= 64);
    let contexts = Contexts::new(alloc, &links)?;
    Ok((links, contexts))
}
