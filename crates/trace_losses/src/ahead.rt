//! The stretches in which the tasks of a trace are ready, from the last passage to the first.
ghost use Rattle.std.specs.Prelude.{◌≡◌, ℕ, ◌+◌, ◌<◌, ◌≤◌, ◌^◌, List, [], length, reverse, replicate, slice_get, vec_len, IfOk, OnOk, Some};
ghost use Rattle.trace_losses.specs.Ahead.{AreAhead, AreLonger};
ghost use Rattle.trace_losses.specs.Jobs.{Change, AreJobsOf, with_change, with_job};
ghost use Rattle.trace_passages.specs.Passages.{IsMentionOf, span_of};
ghost use Rattle.trace_passages.specs.declared.passage.Passage.{Passage};

use crate::job::TraceJob;
use std::alloc::{AllocError, Global};
use trace_passages::Readiness;

/// What is known from a moment on: of each thread, at how many moments it runs up to the next change that makes it absent; and the
/// jobs that are released then, the last one first.
#[derive(Drop)]
pub(crate) struct Ahead {
    pub(crate) units: Vec<u64>,
    pub(crate) jobs: Vec<TraceJob>,
}

impl Ahead {
    /// After the last passage there is no moment and no job.
    pub(crate) fn new(alloc: Global, threads: usize) -> Result<Ahead, AllocError>
        ensures units { IfOk result (λ ahead. ahead.units.items ≡ replicate threads 0) }
        ensures jobs { IfOk result (λ ahead. ahead.jobs.items ≡ []) }
    {
        Ok(Ahead {
            units: vec![in alloc; 0; threads]?,
            jobs: Vec::new(alloc),
        })
    }

    /// Goes back over a change at a moment, if there is one.
    pub(crate) fn enter(
        &mut self,
        moment: u64,
        mention: Option<Readiness>,
    ) -> Result<(), AllocError>
        requires { IsMentionOf (vec_len self.old.units) mention }
        ensures ahead { OnOk result ((passages : List Passage) (later : List Change)
            → moment ≤ span_of passages → AreAhead passages later moment self.old.units.items
            → AreAhead passages (with_change moment mention later) moment self.new.units.items) }
        ensures jobs { OnOk result ((passages : List Passage) (later : List Change)
            → AreAhead passages later moment self.old.units.items
            → AreJobsOf passages later (reverse self.old.jobs.items)
            → AreJobsOf passages (with_change moment mention later) (reverse self.new.jobs.items)) }
        ensures tasks { OnOk result (vec_len self.new.units ≡ vec_len self.old.units) }
    {
        if let Some(mention) = mention {
            if mention.is_in {
                let job = TraceJob {
                    task: mention.task,
                    release: moment,
                    units: self.units[mention.task as usize],
                };
                push_job(&mut self.jobs, job)?;
            } else {
                self.units[mention.task as usize] = 0;
            }
        }
        Ok(())
    }

    /// Goes back by so many moments, at which each task runs that is on a processor.
    pub(crate) fn pass(&mut self, units: u64, processors: &[Option<u32>])
        requires each { length processors.now ≡ vec_len self.old.units }
        requires room { (t count : ℕ) → slice_get self.old.units.items t ≡ Some count
            → count + units < 2 ^ 64 }
        ensures units { AreLonger self.old.units.items self.new.units.items processors.now units
            (length processors.now) }
        ensures jobs { self.new.jobs ≡ self.old.jobs }
    {
        for (t, on) in processors.iter().enumerate() {
            if on.is_some() {
                self.units[t] += units;
            }
        }
    }
}

/// One job more, where it has units.
fn push_job(jobs: &mut Vec<TraceJob>, job: TraceJob) -> Result<(), AllocError>
    ensures { OnOk result (reverse jobs.new.items ≡ with_job job (reverse jobs.old.items)) }
{
    if job.units > 0 {
        jobs.push(job)?;
    }
    Ok(())
}
