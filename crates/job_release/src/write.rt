//! The text of a run of jobs.
ghost use Rattle.std.specs.Prelude.{◌≡◌, ◌<◌, ◌≤◌, ◌++◌, IfOk, OnOk, IfSome, length};
ghost use Rattle.std.specs.List.{flat_map, range_with_len};
ghost use Rattle.strong_apa.specs.State.{start_of};
ghost use Rattle.job_release.specs.JobRun.{IsJobRunOf};
ghost use Rattle.job_release.specs.JobsText.{heading_text, jobs_text, job_line, lines_of_task, response_text};
ghost use Rattle.job_release.specs.Moments.{state_of_moment};

use crate::input::JobInput;
use crate::run::JobRun;
use affinity_mask::OutOfMemory;
use std::alloc::Global;
use text_fields::write_number;

/// The text of a run of this input. Refused only when out of memory.
pub fn write_jobs(alloc: Global, input: &JobInput, run: &JobRun) -> Result<Vec<u8>, OutOfMemory>
    requires { IsJobRunOf input.now run.now }
    ensures { IfOk result (λ text. text.items ≡ jobs_text input.now run.now.core.history) }
{
    let mut text = Vec::new(alloc);
    write_heading(&mut text, input)?;
    write_tasks(&mut text, input, run)?;
    text.extend_from_slice(b"end\n")?;
    Ok(text)
}

/// Appends the header and the horizon.
fn write_heading(text: &mut Vec<u8>, input: &JobInput) -> Result<(), OutOfMemory>
    ensures { OnOk result (text.new.items ≡ text.old.items ++ heading_text input.now) }
{
    text.extend_from_slice(b"jobs ")?;
    write_number(text, input.version() as u64)?;
    text.extend_from_slice(b"\nhorizon ")?;
    write_number(text, input.horizon() as u64)?;
    text.push(b'\n')?;
    Ok(())
}

/// Appends the jobs of all tasks.
fn write_tasks(text: &mut Vec<u8>, input: &JobInput, run: &JobRun) -> Result<(), OutOfMemory>
    requires { IsJobRunOf input.now run.now }
    ensures { OnOk result (text.new.items ≡ text.old.items
        ++ flat_map (lines_of_task input.now (state_of_moment (start_of input.now.set) run.now.core.history))
        (range_with_len 0 (length input.now.set.tasks))) }
{
    for t in 0..input.set().len() {
        write_task(text, input, run, t)?;
    }
    Ok(())
}

/// Appends the jobs of a task.
fn write_task(text: &mut Vec<u8>, input: &JobInput, run: &JobRun, t: u32) -> Result<(), OutOfMemory>
    requires run { IsJobRunOf input.now run.now }
    requires task { t < length input.now.set.tasks }
    ensures { OnOk result (text.new.items ≡ text.old.items
        ++ lines_of_task input.now (state_of_moment (start_of input.now.set) run.now.core.history) t) }
{
    let jobs = input.jobs(t);
    for k in 0..jobs.len() {
        let finish = run.finish(t, k as u32);
        write_job(text, input.set().name(t), k as u32, jobs[k].release, finish)?;
    }
    Ok(())
}

/// Appends a job, which is not finished before its release.
fn write_job(
    text: &mut Vec<u8>,
    name: &str,
    k: u32,
    release: u32,
    finish: Option<u32>,
) -> Result<(), OutOfMemory>
    requires { IfSome finish (λ x. release ≤ x) }
    ensures { OnOk result (text.new.items
        ≡ text.old.items ++ job_line name.now k release finish) }
{
    text.extend_from_slice(name.as_bytes())?;
    text.push(b' ')?;
    write_number(text, k as u64)?;
    text.push(b' ')?;
    write_number(text, release as u64)?;
    text.push(b' ')?;
    write_response(text, release, finish)?;
    text.push(b'\n')?;
    Ok(())
}

/// Appends the finish and the response of a job.
fn write_response(text: &mut Vec<u8>, release: u32, finish: Option<u32>) -> Result<(), OutOfMemory>
    requires { IfSome finish (λ x. release ≤ x) }
    ensures { OnOk result (text.new.items ≡ text.old.items ++ response_text release finish) }
{
    match finish {
        None => text.extend_from_slice(b"- -")?,
        Some(finish) => {
            write_number(text, finish as u64)?;
            text.push(b' ')?;
            write_number(text, (finish - release) as u64)?;
        }
    }
    Ok(())
}
