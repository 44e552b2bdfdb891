//! The chain that was not taken: what would have given a lost task a processor at a moment.
ghost use Rattle.std.specs.Prelude.{◌≡◌, ℕ, ◌<◌, ◌≤◌, ◌↔◌, List, Option, Some, length, vec_len, IfOk, IsTrue};
ghost use Rattle.strong_apa.specs.State.{task_count};
ghost use Rattle.live_core.specs.Live.{LiveData};
ghost use Rattle.live_core.specs.Lost.{state_held};
ghost use Rattle.trace_passages.specs.Passages.{ArePassages, span_of};
ghost use Rattle.trace_losses.specs.ChainAt.{IsChainAt, SeesAll, AreStepsFor, steps_of};
ghost use Rattle.trace_losses.specs.Passages.{IsCut};
ghost use Rattle.trace_losses.specs.Runs.{is_some_of};
ghost use Rattle.trace_losses.specs.Walk.{AllInUse, IsTrail, IsWalkAt};

use crate::backward::trail_of;
use crate::former::Former;
use crate::loss::span_of;
use crate::walk::Walk;
use affinity_mask::OutOfMemory;
use link_table::Chain;
use live_core::LiveCore;
use std::alloc::{AllocError, Global};
use task_set::TaskSet;
use trace_passages::Passage;

/// A task of a chain, and the processor that it would go to.
#[derive(Clone, Copy)]
pub struct ChainStep {
    pub task: u32,
    pub processor: u8,
}

/// The chain that would have given a lost task a processor at a moment of a trace of so many threads: the task, and then whoever
/// would have had to move, each with its new processor; none where the task is not lost. The last processor is one on which no
/// task of the best set runs. Refused only where memory runs out.
pub fn chain_at(
    alloc: Global,
    set: &TaskSet,
    threads: u32,
    passages: &[Passage],
    task: u32,
    moment: u64,
) -> Result<Vec<ChainStep>, OutOfMemory>
    requires passages { ArePassages (length set.now.tasks) threads passages.now }
    requires number { task < length set.now.tasks }
    requires within { moment < span_of passages.now }
    ensures { IfOk result (λ steps. IsChainAt set.now passages.now moment task steps.items) }
{
    let _valid = set.len();
    let trail = trail_of(alloc, threads, passages)?;
    let mut walk = Walk::new(alloc, set, &trail)?;
    walk_to(set, threads, &mut walk, passages, &trail.formers, moment);
    let steps = steps_for(alloc, &mut walk, task)?;
    Ok(steps)
}

/// Goes on to a moment: over each passage that has come then.
fn walk_to(
    set: &TaskSet,
    threads: u32,
    walk: &mut Walk,
    passages: &[Passage],
    formers: &[Former],
    moment: u64,
)
    requires passages { ArePassages (length set.now.tasks) threads passages.now }
    requires within { moment < span_of passages.now }
    requires walk { IsWalkAt set.now passages.now threads 0 walk.old.core
        walk.old.runners.processors.items }
    requires seen { vec_len walk.old.seen ≡ threads }
    requires trail { IsTrail passages.now threads walk.old.runners.processors.items formers.now }
    ensures { (n : ℕ) × IsCut passages.now moment n
        × IsWalkAt set.now passages.now threads n walk.new.core walk.new.runners.processors.items }
{
    let _span = span_of(passages);
    let mut i = 1;
    while passages[i - 1].moment <= moment {
        walk.step(passages[i - 1], formers[passages.len() - i]);
        i += 1;
    }
}

/// The steps of the chain for a task where the walk stands.
fn steps_for(alloc: Global, walk: &mut Walk, task: u32) -> Result<Vec<ChainStep>, AllocError>
    requires used { AllInUse walk.old.core }
    requires all { task_count walk.old.core.links ≤ vec_len walk.old.runners.processors }
    requires number { task < task_count walk.old.core.links }
    ensures { IfOk result (λ steps. (seen : LiveData)
        × SeesAll walk.old.core walk.old.runners.processors.items seen
        × AreStepsFor seen task steps.items) }
{
    see_all(&mut walk.core, &walk.runners.processors);
    match walk.core.chain_for(task) {
        Some(chain) => steps_along(alloc, &walk.core, task, &chain),
        None => Ok(Vec::new(alloc)),
    }
}

/// The steps along a chain: the task goes on the first processor, and the holder of each on the next one.
fn steps_along(
    alloc: Global,
    core: &LiveCore,
    task: u32,
    chain: &Chain,
) -> Result<Vec<ChainStep>, AllocError>
    ensures { (on : List (Option ℕ)) → core.now.holders ≡ Some on → IfOk result (λ steps.
        steps.items ≡ steps_of (state_held core.now.links on) (Some task) chain.now) }
{
    let mut steps = Vec::new(alloc);
    let mut guest = Some(task);
    for p in chain.processors() {
        if let Some(task) = guest {
            steps.push(ChainStep {
                task,
                processor: *p,
            })?;
            guest = core.holder(*p);
        }
    }
    Ok(steps)
}

/// Each task is seen on the processor that it runs on.
fn see_all(core: &mut LiveCore, processors: &[Option<u32>])
    requires used { AllInUse core.old }
    requires all { task_count core.old.links ≤ length processors.now }
    requires some { 0 < task_count core.old.links }
    ensures { SeesAll core.old processors.now core.new }
{
    for t in 0..core.links().len() {
        core.see(t, place_in_mask(processors[t as usize]));
    }
}

/// A processor, if a mask can have it.
fn place_in_mask(processor: Option<u32>) -> Option<u8>
    ensures { (q : ℕ) → q < 64 → (result ≡ Some q) ↔ IsTrue (is_some_of processor q) }
{
    match processor {
        Some(p) => { if p < 64 { Some(p as u8) } else { None } }
        None => None,
    }
}
