//! The forms of task lines and job lines.
ghost use Rattle.std.specs.Prelude.{◌≡◌, ◌≤◌, ℕ, Option, MatchOption};
ghost use Rattle.job_release.specs.JobText.{IsTaskForm, AreTimes, AreTimesOf, TaskLine, IsJobForm, SaysJob, IsDeadline, JobLine};
ghost use Rattle.job_release.specs.Reading.{line_of, job_line_of, IsVersion};
ghost use Rattle.text_fields.specs.Fields.{texts};
ghost use Rattle.job_release.specs.declared.input.Job.{Job};
ghost use Rattle.job_release.specs.declared.input.JobTask.{JobTask};

use crate::input::{Job, JobTask, MAX_PERIODIC_TIME, MAX_TIME};
use text_fields::limits::{FIRST_VERSION, LAST_VERSION, MAX_PRIORITY};
use text_fields::{is_word, read_number};

/// What a task line says, with its name and its list as they stand.
#[derive(Clone, Copy)]
pub struct TaskForm<'a> {
    pub name: &'a [u8],
    pub priority: u32,
    pub list: &'a [u8],

    /// The times of its jobs, in version 1.
    pub times: Option<JobTask>,
}

impl<'a> TaskForm<'a> {
    /// What the fields of a task line say, if they have its form.
    pub fn read(version: u8, fields: &[&'a [u8]]) -> Option<TaskForm<'a>>
        requires { IsVersion version }
        ensures { MatchOption result
            ((line : TaskLine) → IsTaskForm version (texts fields.now) line → ⊥)
            (λ form. IsTaskForm version (texts fields.now) (line_of form)) }
    {
        let [word, name, priority, list, rest @ ..] = fields else {
            return None;
        };
        if !is_word(word, "task") {
            return None;
        }
        let Some(priority) = read_number(priority, 0, MAX_PRIORITY) else {
            return None;
        };
        let Some(times) = read_times_of(version, rest) else {
            return None;
        };
        Some(TaskForm {
            name,
            priority: priority as u32,
            list,
            times,
        })
    }
}

/// The times that the last fields of a task line say: none in version 2. `None` where they have not its form.
fn read_times_of(version: u8, fields: &[&[u8]]) -> Option<Option<JobTask>>
    requires { IsVersion version }
    ensures { MatchOption result
        ((times : Option JobTask) → AreTimesOf version (texts fields.now) times → ⊥)
        (AreTimesOf version (texts fields.now)) }
{
    match fields {
        [offset, period, cost] if version == FIRST_VERSION => {
            Some(Some(read_times(offset, period, cost)?))
        }
        [] if version == LAST_VERSION => Some(None),
        _ => None,
    }
}

/// The times of the jobs of a task, if these fields say them.
fn read_times(offset: &[u8], period: &[u8], cost: &[u8]) -> Option<JobTask>
    ensures { MatchOption result
        ((job : JobTask) → AreTimes offset.now period.now cost.now job → ⊥)
        (AreTimes offset.now period.now cost.now) }
{
    Some(JobTask {
        offset: read_number(offset, 0, MAX_PERIODIC_TIME)? as u32,
        period: read_number(period, 1, MAX_PERIODIC_TIME)? as u32,
        cost: read_number(cost, 1, MAX_PERIODIC_TIME)? as u32,
    })
}

/// What a job line says, with its name as it stands.
#[derive(Clone, Copy)]
pub struct JobForm<'a> {
    pub name: &'a [u8],
    pub job: Job,
}

impl<'a> JobForm<'a> {
    /// What the fields of a job line say, if they have its form.
    pub fn read(horizon: u32, fields: &[&'a [u8]]) -> Option<JobForm<'a>>
        requires { 1 ≤ horizon }
        ensures { MatchOption result
            ((line : JobLine) → IsJobForm horizon (texts fields.now) line → ⊥)
            (λ form. IsJobForm horizon (texts fields.now) (job_line_of form)) }
    {
        let [word, name, release, cost, rest @ ..] = fields else {
            return None;
        };
        if !is_word(word, "job") {
            return None;
        }
        let Some(job) = read_job(horizon, release, cost, rest) else {
            return None;
        };
        Some(JobForm { name, job })
    }
}

/// The job that the fields after the name say.
fn read_job(horizon: u32, release: &[u8], cost: &[u8], rest: &[&[u8]]) -> Option<Job>
    requires { 1 ≤ horizon }
    ensures { MatchOption result
        ((job : Job) → SaysJob horizon release.now cost.now (texts rest.now) job → ⊥)
        (SaysJob horizon release.now cost.now (texts rest.now)) }
{
    Some(Job {
        release: read_number(release, 0, horizon as u64 - 1)? as u32,
        cost: read_number(cost, 1, MAX_TIME)? as u32,
        deadline: read_deadline(rest)?,
    })
}

/// The deadline that the last fields of a job line say, if they say one. `None` where they have not its form.
fn read_deadline(fields: &[&[u8]]) -> Option<Option<u32>>
    ensures { MatchOption result
        ((deadline : Option ℕ) → IsDeadline (texts fields.now) deadline → ⊥)
        (IsDeadline (texts fields.now)) }
{
    match fields {
        [deadline] => Some(Some(read_number(deadline, 1, MAX_TIME)? as u32)),
        [] => Some(None),
        _ => None,
    }
}
