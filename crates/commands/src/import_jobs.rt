//! From the bytes of a trace of the Linux scheduler to those of its jobs.
ghost use Rattle.std.specs.Prelude.{◌≡◌, ℕ, ◌+◌, ◌<◌, ◌≤◌, ◌^◌, List, ◌∷◌, ◌++◌, length, map, All, IfOk, MatchOption};
ghost use Rattle.text_fields.specs.Lines.{lines_of};
ghost use Rattle.trace_losses.specs.Jobs.{IsJobWithin};
ghost use Rattle.trace_passages.specs.Passages.{ArePassages};
ghost use Rattle.commands.specs.Answers.{Answers};
ghost use Rattle.commands.specs.ImportJobs.{listed, clock_line, job_text, moments_of, AreJobsIn, IsHorizon, IsNarrow, IsRefusedList, IsImportedJobsOf, AcceptsJobTrace, RefusesJobTrace};

use crate::import::status_of;
use crate::status::Status;
use affinity_mask::OutOfMemory;
use job_release::{ListedJob, write_job_list};
use kernel_trace::{TaskTrace, read_task_trace, write_stamp};
use std::alloc::{AllocError, Global};
use trace_losses::{TraceJob, TraceJobs, jobs_of};

/// The most moments of an input of jobs.
const MAX_HORIZON: u64 = 10_000_000;

/// The most jobs of an input.
const MAX_JOBS: usize = 4_000;

/// The text of the jobs of a trace, or the status that says why there is none.
pub fn imported_jobs_text(alloc: Global, bytes: &[u8]) -> Result<Vec<u8>, Status>
    ensures { Answers (IsImportedJobsOf bytes.now) (AcceptsJobTrace bytes.now)
        (RefusesJobTrace bytes.now) result }
{
    let trace = match read_task_trace(alloc, bytes) {
        Ok(trace) => trace,
        Err(fault) => return Err(status_of(fault)),
    };
    let found = found_in(alloc, &trace)?;
    if let Some(kind) = refusal_of(&found) {
        let line = line_count(bytes) + 1;
        return Err(Status::Input { line, kind });
    }
    let text = text_of(alloc, &trace, &found)?;
    Ok(text)
}

/// The jobs of a trace.
fn found_in(alloc: Global, trace: &TaskTrace) -> Result<TraceJobs, OutOfMemory>
    requires { ArePassages (length trace.now.set.tasks)
        (length trace.now.set.tasks + length trace.now.unlisted) trace.now.passages }
    ensures span { IfOk result (λ found. found.span ≡ moments_of trace.now) }
    ensures jobs { IfOk result (λ found. AreJobsIn trace.now found.jobs.items) }
    ensures within { IfOk result (λ found. All (IsJobWithin (length trace.now.set.tasks)
        (moments_of trace.now)) found.jobs.items) }
{
    jobs_of(alloc, trace.set(), trace.threads(), trace.passages())
}

/// The number of the kind with which these jobs are refused, if an input cannot have them.
fn refusal_of(found: &TraceJobs) -> Option<u8>
    ensures { MatchOption result (IsHorizon found.now.span × (length found.now.jobs.items ≤ 4000))
        (λ kind. IsRefusedList found.now.span (length found.now.jobs.items) kind) }
{
    if found.span == 0 || found.span > MAX_HORIZON {
        Some(14)
    } else if found.jobs.len() > MAX_JOBS {
        Some(15)
    } else {
        None
    }
}

/// How many lines a text has.
fn line_count(bytes: &[u8]) -> u64
    ensures count { result ≡ length (lines_of bytes.now) }
    ensures bound { result ≤ length bytes.now }
{
    let mut lines = 0;
    for i in 0..bytes.len() {
        lines = count_before(bytes[bytes.len() - 1 - i], lines);
    }
    lines
}

/// How many lines there are with one byte more before them.
fn count_before(byte: u8, lines: u64) -> u64
    requires { lines + 1 < 2 ^ 64 }
    ensures count { (rest : List ℕ) → lines ≡ length (lines_of rest)
        → result ≡ length (lines_of (byte ∷ rest)) }
    ensures bound { result ≤ lines + 1 }
{
    if lines == 0 || byte == b'\n' {
        lines + 1
    } else {
        lines
    }
}

/// The text of the jobs of a trace, which an input can have.
fn text_of(alloc: Global, trace: &TaskTrace, found: &TraceJobs) -> Result<Vec<u8>, OutOfMemory>
    requires span { found.now.span ≡ moments_of trace.now }
    requires horizon { IsHorizon found.now.span }
    requires within { All (IsJobWithin (length trace.now.set.tasks) found.now.span) found.now.jobs.items }
    ensures { IfOk result (λ text. text.items ≡ job_text trace.now (map listed found.now.jobs.items)) }
{
    let jobs = listed_of(alloc, &found.jobs)?;
    let list = write_job_list(alloc, trace.set(), found.span as u32, &jobs)?;
    with_clock(alloc, trace.clock(), &list)
}

/// The text of jobs after a comment line with the clock of their moment 0.
fn with_clock(alloc: Global, clock: Option<u64>, list: &[u8]) -> Result<Vec<u8>, OutOfMemory>
    ensures { IfOk result (λ text. text.items ≡ clock_line clock ++ list.now) }
{
    let mut text = Vec::new(alloc);
    text.extend_from_slice(b"# moment 0 is at ")?;
    write_stamp(&mut text, clock)?;
    text.push(b'\n')?;
    text.extend_from_slice(list)?;
    Ok(text)
}

/// The jobs, as they are listed.
fn listed_of(alloc: Global, jobs: &[TraceJob]) -> Result<Vec<ListedJob>, AllocError>
    requires { All IsNarrow jobs.now }
    ensures { IfOk result (λ list. list.items ≡ map listed jobs.now) }
{
    let mut list = Vec::new(alloc);
    for job in jobs {
        list.push(listed(*job))?;
    }
    Ok(list)
}

/// A job, as it is listed.
fn listed(job: TraceJob) -> ListedJob
    requires { IsNarrow job }
    ensures { result ≡ listed job }
{
    ListedJob {
        task: job.task,
        release: job.release as u32,
        cost: job.units as u32,
    }
}
