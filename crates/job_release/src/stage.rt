//! What was read so far, and what is expected.
ghost use Rattle.std.specs.Prelude.{◌≡◌, ◌≢◌, ◌+◌, ℕ, ◌≤◌, ◌<◌, ◌↔◌, length, IsTrue, IfOk, IfErr, IfSome, OnOk, MatchOption, MatchBool};
ghost use Rattle.job_release.specs.JobInput.{IsJob, IsJobTask, IsJobInput, last_release, total_jobs};
ghost use Rattle.job_release.specs.JobText.{IsWorded, IsTaskOutcome, IsTaskLineOutcome, IsJobOutcome, IsJobLineOutcome, IsListedOutcome, IsOutcome, IsForTask, BeginsTask, HeaderExpected, ProcessorsExpected, HorizonExpected, Listed, end_line, max_horizon, jobs_of_times};
ghost use Rattle.job_release.specs.Reading.{progress_of, line_of, job_line_of, IsSoundSoFar, IsVersion, IsRefusedBy};
ghost use Rattle.job_release.specs.declared.stage.Stage.TheVariants as stage;
ghost use Rattle.text_fields.specs.Fields.{texts};
ghost use Rattle.text_fields.specs.Machine.{Leads};

use crate::fault::JobKind;
use crate::form::{JobForm, TaskForm};
use crate::input::{Job, JobInput, JobTask, MAX_JOBS, MAX_PERIODIC_TIME, MAX_TIME};
use affinity_mask::{OutOfMemory, ProcSet};
use std::alloc::Global;
use std::str;
use task_set::{TaskFault, TaskSet};
use text_fields::limits::{FIRST_VERSION, LAST_VERSION, MAX_PROCESSORS};
use text_fields::{LineKind, LineMachine, is_word, read_number, task_of};

/// What some lines said, and so what is expected after them.
#[derive(Drop)]
pub enum Stage {
    /// The header is expected.
    HeaderExpected,

    /// The number of processors is expected.
    ProcessorsExpected { version: u8 },

    /// The horizon is expected.
    HorizonExpected { version: u8, processors: u8 },

    /// Tasks, jobs, then the end are expected, or the end came.
    Listed { input: JobInput, is_ended: bool },
}

impl LineMachine for Stage {
    ghost use Rattle.std.specs.Prelude.{true};
    ghost use Rattle.job_release.specs.JobFault.{job_kind};
    ghost use Rattle.job_release.specs.JobText.{Progress, IsEndOutcome};

    type Value = JobInput;

    type Kind = JobKind;

    const LONGEST_LINE: usize = 4096;

    const HAS_COMMENTS: bool = true;

    ghost LONGEST_LINE = { 4096 };

    ghost HAS_COMMENTS = { true };

    ghost Progress = { Progress };

    ghost progress = { progress_of };

    ghost begins = { HeaderExpected };

    ghost IsValid = { IsSoundSoFar };

    ghost Says = { IsOutcome };

    ghost Ends = { IsEndOutcome };

    ghost kind_of = { job_kind };

    fn kind_of(kind: LineKind) -> JobKind {
        match kind {
            LineKind::BadByte => JobKind::BadByte,
            LineKind::LongLine => JobKind::LongLine,
            LineKind::OutOfMemory => JobKind::OutOfMemory,
        }
    }

    fn after(&mut self, alloc: Global, fields: &[&[u8]]) -> Result<(), JobKind> {
        match self {
            Stage::HeaderExpected => self.after_header(fields),
            Stage::ProcessorsExpected { version } => {
                let version = *version;
                self.after_processors(version, fields)
            }
            Stage::HorizonExpected {
                version,
                processors,
            } => {
                let (version, processors) = (*version, *processors);
                self.after_horizon(alloc, version, processors, fields)
            }
            Stage::Listed { input, is_ended } => after_listed(alloc, input, is_ended, fields),
        }
    }

    fn at_end(self) -> Result<JobInput, JobKind> {
        match self {
            Stage::Listed {
                input,
                is_ended: true,
            } => Ok(input),
            _ => Err(JobKind::NoEnd),
        }
    }
}

impl Stage {
    /// Goes on to the next stage.
    fn go_on(&mut self, next: Stage)
        ensures { self.new ≡ next }
    {
        *self = next;
    }

    /// Goes on by the header.
    fn after_header(&mut self, fields: &[&[u8]]) -> Result<(), JobKind>
        ensures read { OnOk result (IsOutcome HeaderExpected (texts fields.now)
            (Leads (progress_of self.new))) }
        ensures refused { IfErr result (IsRefusedBy (IsOutcome HeaderExpected (texts fields.now))) }
    {
        match read_header(fields) {
            Ok(version) => {
                self.go_on(Stage::ProcessorsExpected { version });
                Ok(())
            }
            Err(kind) => Err(kind),
        }
    }

    /// Goes on by the number of processors.
    fn after_processors(&mut self, version: u8, fields: &[&[u8]]) -> Result<(), JobKind>
        ensures read { OnOk result (IsOutcome (ProcessorsExpected version) (texts fields.now)
            (Leads (progress_of self.new))) }
        ensures refused { IfErr result (IsRefusedBy (IsOutcome (ProcessorsExpected version)
            (texts fields.now))) }
    {
        match read_processors(version, fields) {
            Ok(processors) => {
                self.go_on(Stage::HorizonExpected {
                    version,
                    processors,
                });
                Ok(())
            }
            Err(kind) => Err(kind),
        }
    }

    /// Goes on by the horizon.
    fn after_horizon(
        &mut self,
        alloc: Global,
        version: u8,
        processors: u8,
        fields: &[&[u8]],
    ) -> Result<(), JobKind>
        requires version { IsVersion version }
        requires processors { (1 ≤ processors) × (processors ≤ 64) }
        ensures read { OnOk result (IsOutcome (HorizonExpected version processors) (texts fields.now)
            (Leads (progress_of self.new))) }
        ensures refused { IfErr result (IsRefusedBy (IsOutcome (HorizonExpected version processors)
            (texts fields.now))) }
    {
        match start(alloc, version, processors, fields) {
            Ok(next) => {
                self.go_on(next);
                Ok(())
            }
            Err(kind) => Err(kind),
        }
    }
}

/// Goes on by a line where tasks, jobs and the end are expected, or where the end came.
fn after_listed(
    alloc: Global,
    input: &mut JobInput,
    is_ended: &mut bool,
    fields: &[&[u8]],
) -> Result<(), JobKind>
    ensures read { OnOk result (IsOutcome (progress_of (stage.Listed input.old is_ended.old))
        (texts fields.now) (Leads (progress_of (stage.Listed input.new is_ended.new)))) }
    ensures refused { IfErr result (IsRefusedBy
        (IsOutcome (progress_of (stage.Listed input.old is_ended.old)) (texts fields.now))) }
{
    if *is_ended {
        Err(JobKind::AfterEnd)
    } else if is_end(fields) {
        *is_ended = true;
        Ok(())
    } else {
        list_line(alloc, input, fields)
    }
}

/// The number of a line that has this word and a number between these bounds.
fn read_worded(fields: &[&[u8]], word: &str, least: u64, most: u64) -> Option<u64>
    ensures { MatchOption result
        ((n : ℕ) → IsWorded word.now least most n (texts fields.now) → ⊥)
        (λ n. IsWorded word.now least most n (texts fields.now)) }
{
    match fields {
        [first, number] if is_word(first, word) => read_number(number, least, most),
        _ => None,
    }
}

/// Reads the version.
fn read_header(fields: &[&[u8]]) -> Result<u8, JobKind>
    ensures read { IfOk result (λ version. IsOutcome HeaderExpected (texts fields.now)
        (Leads (ProcessorsExpected version))) }
    ensures refused { IfErr result (IsRefusedBy (IsOutcome HeaderExpected (texts fields.now))) }
{
    match read_worded(fields, "jobs", FIRST_VERSION as u64, LAST_VERSION as u64) {
        Some(version) => Ok(version as u8),
        None => Err(JobKind::BadHeader),
    }
}

/// Reads how many processors there are.
fn read_processors(version: u8, fields: &[&[u8]]) -> Result<u8, JobKind>
    ensures read { IfOk result (λ processors.
        IsOutcome (ProcessorsExpected version) (texts fields.now)
        (Leads (HorizonExpected version processors))) }
    ensures refused { IfErr result (IsRefusedBy (IsOutcome (ProcessorsExpected version)
        (texts fields.now))) }
{
    match read_worded(fields, "processors", 1, MAX_PROCESSORS) {
        Some(processors) => Ok(processors as u8),
        None => Err(JobKind::BadProcessors),
    }
}

/// The greatest horizon in a text of this version.
fn most_time(version: u8) -> u64
    ensures { result ≡ max_horizon version }
{
    if version == FIRST_VERSION {
        MAX_PERIODIC_TIME
    } else {
        MAX_TIME
    }
}

/// Nothing is listed yet, up to the horizon that a line says.
fn start(alloc: Global, version: u8, processors: u8, fields: &[&[u8]]) -> Result<Stage, JobKind>
    requires version { IsVersion version }
    requires processors { (1 ≤ processors) × (processors ≤ 64) }
    ensures read { IfOk result (λ next.
        IsOutcome (HorizonExpected version processors) (texts fields.now)
        (Leads (progress_of next))) }
    ensures refused { IfErr result (IsRefusedBy (IsOutcome (HorizonExpected version processors)
        (texts fields.now))) }
{
    let Some(horizon) = read_worded(fields, "horizon", 1, most_time(version)) else {
        return Err(JobKind::BadHorizon);
    };
    let set = TaskSet::new(alloc, processors)?;
    Ok(Stage::Listed {
        input: JobInput::new(version, set, horizon as u32, Vec::new(alloc)),
        is_ended: false,
    })
}

/// Whether the line is `end` alone.
fn is_end(fields: &[&[u8]]) -> bool
    ensures { IsTrue result ↔ (texts fields.now ≡ end_line) }
{
    match fields {
        [word] => is_word(word, "end"),
        _ => false,
    }
}

/// Lists the task or the job of a line, after the others.
fn list_line(alloc: Global, input: &mut JobInput, fields: &[&[u8]]) -> Result<(), JobKind>
    requires { texts fields.now ≢ end_line }
    ensures read { OnOk result (IsListedOutcome input.old (texts fields.now)
        (Leads (Listed input.new))) }
    ensures refused { IfErr result (IsRefusedBy (IsListedOutcome input.old
        (texts fields.now))) }
{
    if is_for_task(input, fields) {
        list_task_line(alloc, input, fields)
    } else {
        list_job_line(input, fields)
    }
}

/// Whether the line is for a task: in version 1 each is, and in version 2 one whose first field is `task`, where no job came
/// yet.
fn is_for_task(input: &JobInput, fields: &[&[u8]]) -> bool
    ensures { MatchBool result
        (IsForTask input.now (texts fields.now))
        (IsForTask input.now (texts fields.now) → ⊥) }
{
    input.version() == FIRST_VERSION || (input.total() == 0 && begins_task(fields))
}

/// Whether the first field is `task`.
fn begins_task(fields: &[&[u8]]) -> bool
    ensures { IsTrue result ↔ BeginsTask (texts fields.now) }
{
    match fields {
        [word, ..] => is_word(word, "task"),
        [] => false,
    }
}

/// Lists the task of a line.
fn list_task_line(alloc: Global, input: &mut JobInput, fields: &[&[u8]]) -> Result<(), JobKind>
    ensures read { OnOk result (IsTaskLineOutcome input.old (texts fields.now)
        (Leads (Listed input.new))) }
    ensures refused { IfErr result (IsRefusedBy (IsTaskLineOutcome input.old
        (texts fields.now))) }
{
    match TaskForm::read(input.version(), fields) {
        Some(form) => list_task(alloc, input, &form),
        None => Err(JobKind::BadTask),
    }
}

/// Lists a task with its jobs.
fn list_task(alloc: Global, input: &mut JobInput, form: &TaskForm) -> Result<(), JobKind>
    requires { IfSome form.now.times IsJobTask }
    ensures read { OnOk result (IsTaskOutcome input.old (line_of form.now)
        (Leads (Listed input.new))) }
    ensures refused { IfErr result (IsRefusedBy (IsTaskOutcome input.old (line_of form.now))) }
{
    let mask = ProcSet::read_list(form.list)?;
    let Ok(name) = str::from_utf8(form.name) else {
        return Err(JobKind::TaskRefused(TaskFault::BadName));
    };
    match few_jobs(alloc, input, form.times)? {
        Some(jobs) => {
            input.add_task(name, form.priority, mask, jobs)?;
            Ok(())
        }
        None => {
            input.add_task(name, form.priority, mask, Vec::new(alloc))?;
            Err(JobKind::ManyJobs)
        }
    }
}

/// The jobs of a task line below the horizon, or `None` where there would be too many with them.
fn few_jobs(
    alloc: Global,
    input: &JobInput,
    times: Option<JobTask>,
) -> Result<Option<Vec<Job>>, OutOfMemory>
    requires { IfSome times IsJobTask }
    ensures valid { IsJobInput input.now }
    ensures found { IfOk result (λ found. MatchOption found
        (4000 < total_jobs input.now.jobs + length (jobs_of_times input.now.horizon times))
        (λ jobs. (jobs.items ≡ jobs_of_times input.now.horizon times)
        × (total_jobs input.now.jobs + length jobs.items ≤ 4000))) }
{
    let total = input.total();
    let Some(task) = times else {
        return Ok(Some(Vec::new(alloc)));
    };
    if total + task.count(input.horizon()) as u64 > MAX_JOBS {
        return Ok(None);
    }
    Ok(Some(task.jobs(alloc, input.horizon())?))
}

/// Lists the job of a line.
fn list_job_line(input: &mut JobInput, fields: &[&[u8]]) -> Result<(), JobKind>
    ensures read { OnOk result (IsJobLineOutcome input.old (texts fields.now)
        (Leads (Listed input.new))) }
    ensures refused { IfErr result (IsRefusedBy (IsJobLineOutcome input.old
        (texts fields.now))) }
{
    match JobForm::read(input.horizon(), fields) {
        Some(form) => list_job(input, &form),
        None => Err(JobKind::BadJob),
    }
}

/// Lists a job, as the last one of its task.
fn list_job(input: &mut JobInput, form: &JobForm) -> Result<(), JobKind>
    requires { IsJob input.old.horizon form.now.job }
    ensures read { OnOk result (IsJobOutcome input.old (job_line_of form.now)
        (Leads (Listed input.new))) }
    ensures refused { IfErr result (IsRefusedBy (IsJobOutcome input.old
        (job_line_of form.now))) }
{
    let Some(t) = task_of(input.set(), form.name) else {
        return Err(JobKind::UnknownTask);
    };
    if form.job.release < last_release_of(input.jobs(t)) {
        return Err(JobKind::Backward);
    }
    if input.total() == MAX_JOBS {
        return Err(JobKind::ManyJobs);
    }
    input.add_job(t, form.job)?;
    Ok(())
}

/// The release of the last job, and 0 where there is none.
fn last_release_of(jobs: &[Job]) -> u32
    ensures { result ≡ last_release jobs.now }
{
    match jobs.last() {
        Some(job) => job.release,
        None => 0,
    }
}
