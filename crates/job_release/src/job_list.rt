//! The text of jobs that stand in one list.
ghost use Rattle.std.specs.Prelude.{◌≡◌, ◌<◌, ◌++◌, All, IfOk, OnOk, length};
ghost use Rattle.std.specs.List.{flat_map};
ghost use Rattle.job_release.specs.JobList.{listed_job_line, horizon_line, job_list_text};
ghost use Rattle.job_release.specs.declared.job_list.ListedJob.{ListedJob};

use affinity_mask::OutOfMemory;
use std::alloc::Global;
use task_set::TaskSet;
use text_fields::{write_name, write_number, write_processors_line, write_task_lines};

/// A job of a list of the jobs of all tasks, in units of time.
#[derive(Clone, Copy, Debug, PartialEq, Eq)]
pub struct ListedJob {
    /// The number of its task.
    pub task: u32,
    /// When it is released.
    pub release: u32,
    /// How long it runs.
    pub cost: u32,
}

/// The canonical text of version 2 of these jobs, in the order of the list. Refused only when out of memory.
pub fn write_job_list(
    alloc: Global,
    set: &TaskSet,
    horizon: u32,
    jobs: &[ListedJob],
) -> Result<Vec<u8>, OutOfMemory>
    requires { All (λ (job : ListedJob). job.task < length set.now.tasks) jobs.now }
    ensures { IfOk result (λ text. text.items ≡ job_list_text set.now horizon jobs.now) }
{
    let mut text = Vec::new(alloc);
    text.extend_from_slice(b"jobs 2\n")?;
    write_processors_line(&mut text, set)?;
    write_horizon_line(&mut text, horizon)?;
    write_task_lines(&mut text, set)?;
    write_job_lines(&mut text, set, jobs)?;
    text.extend_from_slice(b"end\n")?;
    Ok(text)
}

/// Appends the line with the horizon.
fn write_horizon_line(text: &mut Vec<u8>, horizon: u32) -> Result<(), OutOfMemory>
    ensures { OnOk result (text.new.items ≡ text.old.items ++ horizon_line horizon) }
{
    text.extend_from_slice(b"horizon ")?;
    write_number(text, horizon as u64)?;
    text.push(b'\n')?;
    Ok(())
}

/// Appends the lines of jobs.
fn write_job_lines(text: &mut Vec<u8>, set: &TaskSet, jobs: &[ListedJob]) -> Result<(), OutOfMemory>
    requires { All (λ (job : ListedJob). job.task < length set.now.tasks) jobs.now }
    ensures { OnOk result (text.new.items ≡ text.old.items
        ++ flat_map (listed_job_line set.now) jobs.now) }
{
    for job in jobs {
        write_job_line(text, set, *job)?;
    }
    Ok(())
}

/// Appends the line of a job.
fn write_job_line(text: &mut Vec<u8>, set: &TaskSet, job: ListedJob) -> Result<(), OutOfMemory>
    requires { job.task < length set.now.tasks }
    ensures { OnOk result (text.new.items ≡ text.old.items ++ listed_job_line set.now job) }
{
    text.extend_from_slice(b"job ")?;
    write_name(text, set, job.task)?;
    text.push(b' ')?;
    write_number(text, job.release as u64)?;
    text.push(b' ')?;
    write_number(text, job.cost as u64)?;
    text.push(b'\n')?;
    Ok(())
}
