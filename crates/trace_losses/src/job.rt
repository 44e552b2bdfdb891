//! The jobs of a trace: the stretches in which its tasks are ready, with how long they ran in them.
ghost use Rattle.std.specs.Prelude.{All, ◌≡◌, ℕ, ◌-◌, ◌<◌, ◌≤◌, length, reverse, vec_len, IfOk};
ghost use Rattle.trace_losses.specs.Jobs.{AreJobs, IsJobWithin};
ghost use Rattle.trace_passages.specs.Passages.{ArePassages, moment_at, span_of};
ghost use Rattle.trace_losses.specs.Walk.{held_at_end};
ghost use Rattle.trace_losses.specs.Runs.{IsArmed};

use crate::ahead::Ahead;
use crate::backward::held_after;
use crate::loss::span_of;
use crate::runners::Runners;
use affinity_mask::OutOfMemory;
use std::alloc::{AllocError, Global};
use task_set::TaskSet;
use trace_passages::Passage;

/// A stretch in which a task is ready, and runs at some moments.
#[derive(Clone, Copy)]
pub struct TraceJob {
    pub task: u32,

    /// The first moment of the stretch, in microseconds since the first change.
    pub release: u64,

    /// At how many moments of the stretch the task runs.
    pub units: u64,
}

/// How many moments there were, and the jobs in the order in which their stretches begin.
#[derive(Drop)]
pub struct TraceJobs {
    pub span: u64,
    pub jobs: Vec<TraceJob>,
}

/// The jobs of a trace of so many threads. The memory that it takes is some bytes for each thread and each job. Refused only where memory runs out.
pub fn jobs_of(
    alloc: Global,
    set: &TaskSet,
    threads: u32,
    passages: &[Passage],
) -> Result<TraceJobs, OutOfMemory>
    requires { ArePassages (length set.now.tasks) threads passages.now }
    ensures span { IfOk result (λ found. found.span ≡ span_of passages.now) }
    ensures jobs { IfOk result (λ found. AreJobs passages.now found.jobs.items) }
    ensures within { IfOk result (λ found. All (IsJobWithin (length set.now.tasks)
        (span_of passages.now)) found.jobs.items) }
{
    let span = span_of(passages);
    let _bound = set.len();
    let mut jobs = jobs_back(alloc, threads as usize, passages)?;
    jobs.reverse();
    Ok(TraceJobs { span, jobs })
}

/// The jobs, the last one first.
fn jobs_back(
    alloc: Global,
    threads: usize,
    passages: &[Passage],
) -> Result<Vec<TraceJob>, AllocError>
    requires { (tasks : ℕ) × ArePassages tasks threads passages.now }
    ensures { IfOk result (λ jobs. AreJobs passages.now (reverse jobs.items)) }
{
    let _span = span_of(passages);
    let mut runners = held_after(alloc, threads, passages)?;
    let mut ahead = Ahead::new(alloc, threads)?;
    for i in 0..passages.len() {
        let k = passages.len() - 1 - i;
        let passage = passages[k];
        ahead.enter(passage.moment, passage.second)?;
        ahead.enter(passage.moment, passage.first)?;
        runners.pass_back(passage);
        ahead.pass(since_last(passages, k), &runners.processors);
    }
    Ok(ahead.jobs)
}

/// The microseconds from the passage before this one to it; none where it is the first.
fn since_last(passages: &[Passage], k: usize) -> u64
    requires below { k < length passages.now }
    requires order { moment_at passages.now (k - 1) ≤ moment_at passages.now k }
    ensures { result ≡ moment_at passages.now k - moment_at passages.now (k - 1) }
{
    passages[k].moment - passages[k.saturating_sub(1)].moment
}
