//! A walk over the passages of a trace, with the strong scheduler beside who runs.
ghost use Rattle.std.specs.Prelude.{◌≡◌, ◌<◌, ℕ, List, ◌∷◌, length, vec_len, IfOk};
ghost use Rattle.std.specs.Option.{ForSome};
ghost use Rattle.task_set.specs.TaskSet.{SetData};
ghost use Rattle.strong_apa.specs.Placement.{TaskTest};
ghost use Rattle.strong_apa.specs.State.{HasSameTasks, task_count, start_of};
ghost use Rattle.trace_passages.specs.Passages.{IsMentionOf};
ghost use Rattle.trace_passages.specs.Turns.{AreThreads};
ghost use Rattle.trace_passages.specs.declared.passage.Passage.{Passage};
ghost use Rattle.trace_losses.specs.Passages.{ready_by, ready_after_passages};
ghost use Rattle.trace_losses.specs.Runs.{restored_by};
ghost use Rattle.trace_losses.specs.Walk.{AllInUse, IsPlaced, event_of};
ghost use Rattle.trace_bars.specs.Sights.{AreSightsBy, IsSightBy, Enters, FollowsMention};

use crate::sight::Sight;
use affinity_mask::OutOfMemory;
use link_table::Links;
use live_core::LiveCore;
use std::alloc::{AllocError, Global};
use task_set::{Event, TaskSet};
use trace_losses::{Former, Runners, Trail};
use trace_passages::{Passage, Readiness};

/// Who is linked and who runs after some passages.
#[derive(Drop)]
pub(crate) struct Walk {
    pub(crate) core: LiveCore,
    pub(crate) runners: Runners,
    pub(crate) sights: Vec<Sight>,
}

impl Walk {
    /// Before all passages, where this is their trail.
    pub(crate) fn new(alloc: Global, set: &TaskSet, trail: &Trail) -> Result<Walk, OutOfMemory>
        ensures links { IfOk result (λ walk. walk.core.links ≡ start_of set.now) }
        ensures used { IfOk result (λ walk. AllInUse walk.core) }
        ensures first { IfOk result (λ walk.
            walk.runners.processors.items ≡ trail.now.first.processors.items) }
        ensures sights { IfOk result (λ walk.
            vec_len walk.sights ≡ vec_len trail.now.first.processors) }
    {
        let processors = Vec::from_slice(alloc, &trail.first.processors)?;
        let sights = no_sights(alloc, processors.len())?;
        let core = LiveCore::new(alloc, set)?;
        Ok(Walk {
            core,
            runners: Runners { processors },
            sights,
        })
    }

    /// Goes on over a passage.
    pub(crate) fn step(&mut self, passage: Passage, former: Former)
        requires used { AllInUse self.old.core }
        requires first { IsMentionOf (task_count self.old.core.links) passage.first }
        requires second { IsMentionOf (task_count self.old.core.links) passage.second }
        requires threads { ForSome passage.turn (AreThreads (vec_len self.old.runners.processors)) }
        requires within { ForSome former.stopped (λ t. t < vec_len self.old.runners.processors) }
        ensures placed { (set : SetData) (earlier : List Passage)
            → IsPlaced set (ready_after_passages earlier) self.old.core.links
            → IsPlaced set (ready_after_passages (passage ∷ earlier)) self.new.core.links }
        ensures enters { Enters self.old.core.links passage self.new.core.links }
        ensures used { AllInUse self.new.core }
        ensures restored { self.new.runners.processors.items
            ≡ restored_by passage.turn former self.old.runners.processors.items }
        ensures threads { vec_len self.new.runners.processors ≡ vec_len self.old.runners.processors }
        ensures sights { self.new.sights ≡ self.old.sights }
    {
        enter(&mut self.core, passage);
        self.runners.restore(passage.turn, former);
    }

    /// Sees what holds of each thread.
    pub(crate) fn look(&mut self)
        requires { vec_len self.old.sights ≡ vec_len self.old.runners.processors }
        ensures seen { AreSightsBy self.old.core.links self.old.runners.processors.items
            (vec_len self.new.sights) self.new.sights.items }
        ensures all { vec_len self.new.sights ≡ vec_len self.old.sights }
        ensures core { self.new.core ≡ self.old.core }
        ensures runners { self.new.runners ≡ self.old.runners }
    {
        look_all(
            &mut self.sights,
            self.core.links(),
            &self.runners.processors,
        );
    }
}

/// Nothing is seen of so many threads.
fn no_sights(alloc: Global, threads: usize) -> Result<Vec<Sight>, AllocError>
    ensures { IfOk result (λ sights. vec_len sights ≡ threads) }
{
    let mut sights = Vec::new(alloc);
    for thread in 0..threads {
        sights.push(Sight {
            ready: false,
            linked: None,
            on: None,
        })?;
    }
    Ok(sights)
}

/// Sees what holds of each thread.
fn look_all(sights: &mut Vec<Sight>, links: &Links, processors: &[Option<u32>])
    requires { vec_len sights.old ≡ length processors.now }
    ensures seen { AreSightsBy links.now processors.now (vec_len sights.new) sights.new.items }
    ensures all { vec_len sights.new ≡ vec_len sights.old }
{
    for t in 0..sights.len() {
        sights[t] = sight_of(links, t, processors[t]);
    }
}

/// What holds of a thread that runs there, or nowhere.
fn sight_of(links: &Links, t: usize, on: Option<u32>) -> Sight
    ensures { IsSightBy links.now on t result }
{
    let _valid = links.processors();
    if t < links.len() as usize {
        Sight {
            ready: links.is_ready(t as u32),
            linked: links.of(t as u32),
            on,
        }
    } else {
        Sight {
            ready: false,
            linked: None,
            on,
        }
    }
}

/// The tasks of a passage become ready or absent.
fn enter(core: &mut LiveCore, passage: Passage)
    requires used { AllInUse core.old }
    requires first { IsMentionOf (task_count core.old.links) passage.first }
    requires second { IsMentionOf (task_count core.old.links) passage.second }
    ensures placed { (set : SetData) (earlier : List Passage)
        → IsPlaced set (ready_after_passages earlier) core.old.links
        → IsPlaced set (ready_after_passages (passage ∷ earlier)) core.new.links }
    ensures enters { Enters core.old.links passage core.new.links }
    ensures used { AllInUse core.new }
{
    follow(core, passage.first);
    follow(core, passage.second);
}

/// The task of a mention, if there is one, becomes ready or absent.
fn follow(core: &mut LiveCore, mention: Option<Readiness>)
    requires used { AllInUse core.old }
    requires number { IsMentionOf (task_count core.old.links) mention }
    ensures placed { (set : SetData) (before : TaskTest) → IsPlaced set before core.old.links
        → IsPlaced set (λ t. ready_by mention t (before t)) core.new.links }
    ensures follows { FollowsMention core.old.links mention core.new.links }
    ensures tasks { HasSameTasks core.old.links core.new.links }
    ensures used { AllInUse core.new }
{
    if let Some(mention) = mention {
        core.apply(event_of(mention));
    }
}

/// The event that a mention is.
fn event_of(mention: Readiness) -> Event
    ensures { result ≡ event_of mention }
{
    if mention.is_in {
        Event::Arrive(mention.task)
    } else {
        Event::Depart(mention.task)
    }
}
