//! A walk over the passages of a trace, from the first one on, and what is seen between them.
ghost use Rattle.std.specs.Prelude.{◌≡◌, ℕ, ◌<◌, ◌≤◌, List, ◌∷◌, length, replicate, vec_len, true, IfOk};
ghost use Rattle.std.specs.Option.{ForSome};
ghost use Rattle.task_set.specs.TaskSet.{SetData};
ghost use Rattle.strong_apa.specs.State.{HasSameTasks, task_count, start_of, is_ready, is_linked};
ghost use Rattle.strong_apa.specs.Placement.{TaskTest};
ghost use Rattle.trace_passages.specs.Passages.{IsMentionOf};
ghost use Rattle.trace_losses.specs.Passages.{ready_by, ready_after_passages};
ghost use Rattle.trace_passages.specs.Turns.{AreThreads};
ghost use Rattle.trace_losses.specs.Runs.{restored_by};
ghost use Rattle.trace_losses.specs.Walk.{AllInUse, IsPlaced, IsSeenBy, event_of};
ghost use Rattle.trace_passages.specs.declared.passage.Passage.{Passage};

use crate::backward::Trail;
use crate::former::Former;
use crate::runners::Runners;
use crate::seen::Seen;
use affinity_mask::OutOfMemory;
use link_table::Links;
use live_core::LiveCore;
use std::alloc::{AllocError, Global};
use task_set::{Event, TaskSet};
use trace_passages::{Passage, Readiness};

/// Who is linked and who runs after some passages, and what is seen then of each thread.
#[derive(Drop)]
pub(crate) struct Walk {
    pub(crate) core: LiveCore,
    pub(crate) runners: Runners,
    pub(crate) seen: Vec<Seen>,
}

impl Walk {
    /// Before all passages, where this is their trail.
    pub(crate) fn new(alloc: Global, set: &TaskSet, trail: &Trail) -> Result<Walk, OutOfMemory>
        ensures links { IfOk result (λ walk. walk.core.links ≡ start_of set.now) }
        ensures used { IfOk result (λ walk. AllInUse walk.core) }
        ensures first { IfOk result (λ walk.
            walk.runners.processors.items ≡ trail.now.first.processors.items) }
        ensures seen { IfOk result (λ walk.
            vec_len walk.seen ≡ vec_len trail.now.first.processors) }
    {
        let processors = Vec::from_slice(alloc, &trail.first.processors)?;
        let seen = nothing_seen(alloc, processors.len())?;
        let core = LiveCore::new(alloc, set)?;
        Ok(Walk {
            core,
            runners: Runners { processors },
            seen,
        })
    }

    /// Goes on over a passage, and sees what holds after it.
    pub(crate) fn step(&mut self, passage: Passage, former: Former)
        requires used { AllInUse self.old.core }
        requires first { IsMentionOf (task_count self.old.core.links) passage.first }
        requires second { IsMentionOf (task_count self.old.core.links) passage.second }
        requires threads { ForSome passage.turn (AreThreads (vec_len self.old.runners.processors)) }
        requires within { ForSome former.stopped (λ t. t < vec_len self.old.runners.processors) }
        requires all { vec_len self.old.seen ≡ vec_len self.old.runners.processors }
        ensures placed { (set : SetData) (earlier : List Passage)
            → IsPlaced set (ready_after_passages earlier) self.old.core.links
            → IsPlaced set (ready_after_passages (passage ∷ earlier)) self.new.core.links }
        ensures used { AllInUse self.new.core }
        ensures restored { self.new.runners.processors.items
            ≡ restored_by passage.turn former self.old.runners.processors.items }
        ensures seen { IsSeenBy self.new.core.links self.new.runners.processors.items
            (vec_len self.new.seen) self.new.seen.items }
        ensures threads { vec_len self.new.runners.processors ≡ vec_len self.old.runners.processors }
        ensures all { vec_len self.new.seen ≡ vec_len self.old.seen }
    {
        enter(&mut self.core, passage);
        self.runners.restore(passage.turn, former);
        look(&mut self.seen, self.core.links(), &self.runners.processors);
    }
}

/// Nothing is seen of so many threads.
fn nothing_seen(alloc: Global, threads: usize) -> Result<Vec<Seen>, AllocError>
    ensures { IfOk result (λ seen. vec_len seen ≡ threads) }
{
    let mut seen = Vec::new(alloc);
    for thread in 0..threads {
        seen.push(Seen {
            ready: false,
            best: false,
            runs: false,
        })?;
    }
    Ok(seen)
}

/// Sees what holds of each thread.
fn look(seen: &mut Vec<Seen>, links: &Links, processors: &[Option<u32>])
    requires { vec_len seen.old ≡ length processors.now }
    ensures seen { IsSeenBy links.now processors.now (vec_len seen.new) seen.new.items }
    ensures all { vec_len seen.new ≡ vec_len seen.old }
{
    for t in 0..seen.len() {
        seen[t] = seen_at(links, t, processors[t].is_some());
    }
}

/// What holds of a thread, of which it is said whether it runs.
fn seen_at(links: &Links, t: usize, runs: bool) -> Seen
    ensures { result ≡ record { ready = is_ready links.now t; best = is_linked links.now t; runs = runs } }
{
    let _valid = links.processors();
    if t < links.len() as usize {
        Seen {
            ready: links.is_ready(t as u32),
            best: links.of(t as u32).is_some(),
            runs,
        }
    } else {
        Seen {
            ready: false,
            best: false,
            runs,
        }
    }
}

/// The tasks of a passage become ready or absent.
fn enter(core: &mut LiveCore, passage: Passage)
    requires used { AllInUse core.old }
    requires first { IsMentionOf (task_count core.old.links) passage.first }
    requires second { IsMentionOf (task_count core.old.links) passage.second }
    ensures placed { (set : SetData) (earlier : List Passage)
        → IsPlaced set (ready_after_passages earlier) core.old.links
        → IsPlaced set (ready_after_passages (passage ∷ earlier)) core.new.links }
    ensures used { AllInUse core.new }
{
    follow(core, passage.first);
    follow(core, passage.second);
}

/// The task of a mention, if there is one, becomes ready or absent.
fn follow(core: &mut LiveCore, mention: Option<Readiness>)
    requires used { AllInUse core.old }
    requires number { IsMentionOf (task_count core.old.links) mention }
    ensures placed { (set : SetData) (before : TaskTest) → IsPlaced set before core.old.links
        → IsPlaced set (λ t. ready_by mention t (before t)) core.new.links }
    ensures tasks { HasSameTasks core.old.links core.new.links }
    ensures used { AllInUse core.new }
{
    if let Some(mention) = mention {
        core.apply(event_of(mention));
    }
}

/// The event that a mention is.
fn event_of(mention: Readiness) -> Event
    ensures { result ≡ event_of mention }
{
    if mention.is_in {
        Event::Arrive(mention.task)
    } else {
        Event::Depart(mention.task)
    }
}
