//! The text that compares the jobs of an input under two schedulers.
ghost use Rattle.std.specs.Prelude.{◌≡◌, ◌<◌, ◌++◌, ℕ, List, length, IfOk, OnOk};
ghost use Rattle.std.specs.List.{flat_map, range_with_len};
ghost use Rattle.affinity_mask.specs.Number.{canonical_number};
ghost use Rattle.text_fields.specs.EventText.{name_of};
ghost use Rattle.text_fields.specs.LineText.{line};
ghost use Rattle.job_release.specs.Jobs.{job_at};
ghost use Rattle.job_release.specs.JobInput.{jobs_at};
ghost use Rattle.job_release.specs.Figures.{Summarizes};
ghost use Rattle.job_release.specs.JobRun.{IsDrivenOf};
ghost use Rattle.job_release.specs.WeakJobsText.{weak_jobs_heading, weak_jobs_text, rows_of_task, row_of_task, job_head, outcomes_text, mark_text, finish_text, task_row, figures_text};

use crate::figures::Figures;
use crate::input::JobInput;
use crate::outcome::Outcome;
use crate::run::Driven;
use crate::scheduler::JobScheduler;
use affinity_mask::OutOfMemory;
use std::alloc::Global;
use text_fields::{write_name, write_number};

/// The text of the jobs of an input, which two schedulers ran. Refused only when out of memory.
pub(crate) fn comparison_text<W: JobScheduler, S: JobScheduler>(
    alloc: Global,
    input: &JobInput,
    weak: &Driven<W>,
    strong: &Driven<S>,
) -> Result<Vec<u8>, OutOfMemory>
    requires weak { IsDrivenOf W.seen input.now weak.now }
    requires strong { IsDrivenOf S.seen input.now strong.now }
    ensures { IfOk result (λ text. text.items ≡ weak_jobs_text input.now (W.seen weak.now.scheduler).states
        (S.seen strong.now.scheduler).states) }
{
    let mut text = heading(alloc, input, weak.moves(), strong.moves())?;
    write_jobs(&mut text, input, weak, strong)?;
    write_tasks(&mut text, input, weak, strong)?;
    text.extend_from_slice(b"end\n")?;
    Ok(text)
}

/// The lines before those of the jobs, with so many moves under both.
fn heading(alloc: Global, input: &JobInput, weak: u64, strong: u64) -> Result<Vec<u8>, OutOfMemory>
    ensures { IfOk result (λ text. text.items
        ≡ weak_jobs_heading input.now.version input.now.horizon weak strong) }
{
    let mut text = Vec::new(alloc);
    write_worded(&mut text, "weakjobs ", input.version() as u64)?;
    text.push(b'\n')?;
    write_worded(&mut text, "horizon ", input.horizon() as u64)?;
    text.push(b'\n')?;
    write_worded(&mut text, "moves weak ", weak)?;
    write_worded(&mut text, " strong ", strong)?;
    text.push(b'\n')?;
    Ok(text)
}

/// Appends a word and a number.
fn write_worded(text: &mut Vec<u8>, word: &str, number: u64) -> Result<(), OutOfMemory>
    ensures { OnOk result (text.new.items
        ≡ text.old.items ++ (word.now ++ canonical_number number)) }
{
    text.extend_from_slice(word.as_bytes())?;
    write_number(text, number)
}

/// Appends the lines of all jobs.
fn write_jobs<W: JobScheduler, S: JobScheduler>(
    text: &mut Vec<u8>,
    input: &JobInput,
    weak: &Driven<W>,
    strong: &Driven<S>,
) -> Result<(), OutOfMemory>
    requires weak { IsDrivenOf W.seen input.now weak.now }
    requires strong { IsDrivenOf S.seen input.now strong.now }
    ensures { OnOk result (text.new.items ≡ text.old.items
        ++ flat_map (rows_of_task input.now (W.seen weak.now.scheduler).states (S.seen strong.now.scheduler).states)
        (range_with_len 0 (length input.now.set.tasks))) }
{
    for t in 0..input.set().len() {
        write_rows(text, input, weak, strong, t)?;
    }
    Ok(())
}

/// Appends the lines of the jobs of a task.
fn write_rows<W: JobScheduler, S: JobScheduler>(
    text: &mut Vec<u8>,
    input: &JobInput,
    weak: &Driven<W>,
    strong: &Driven<S>,
    t: u32,
) -> Result<(), OutOfMemory>
    requires weak { IsDrivenOf W.seen input.now weak.now }
    requires strong { IsDrivenOf S.seen input.now strong.now }
    requires task { t < length input.now.set.tasks }
    ensures { OnOk result (text.new.items ≡ text.old.items
        ++ rows_of_task input.now (W.seen weak.now.scheduler).states (S.seen strong.now.scheduler).states t) }
{
    for k in 0..input.jobs(t).len() as u32 {
        write_head(text, input, t, k)?;
        let weak_outcome = Outcome::new(input, weak, t, k);
        let strong_outcome = Outcome::new(input, strong, t, k);
        write_outcomes(text, weak_outcome, strong_outcome)?;
    }
    Ok(())
}

/// Appends the name of a job's task, its number and its release.
fn write_head(text: &mut Vec<u8>, input: &JobInput, t: u32, k: u32) -> Result<(), OutOfMemory>
    requires task { t < length input.now.set.tasks }
    requires job { k < length (jobs_at input.now.jobs t) }
    ensures { OnOk result (text.new.items ≡ text.old.items
        ++ job_head (name_of input.now.set t) k (job_at (jobs_at input.now.jobs t) k).release) }
{
    text.extend_from_slice(b"job ")?;
    write_name(text, input.set(), t)?;
    text.push(b' ')?;
    write_number(text, k as u64)?;
    text.push(b' ')?;
    write_number(text, input.jobs(t)[k as usize].release as u64)?;
    Ok(())
}

/// Appends what became of a job under both, and ends the line.
fn write_outcomes(text: &mut Vec<u8>, weak: Outcome, strong: Outcome) -> Result<(), OutOfMemory>
    ensures { OnOk result (text.new.items ≡ text.old.items ++ line
        (outcomes_text weak.finish strong.finish (mark_text weak.is_late strong.is_late))) }
{
    text.push(b' ')?;
    write_finish(text, weak.finish)?;
    text.push(b' ')?;
    write_finish(text, strong.finish)?;
    text.push(b' ')?;
    text.extend_from_slice(mark(weak.is_late, strong.is_late).as_bytes())?;
    text.push(b'\n')?;
    Ok(())
}

/// Appends a finish, or a dash.
fn write_finish(text: &mut Vec<u8>, finish: Option<u32>) -> Result<(), OutOfMemory>
    ensures { OnOk result (text.new.items ≡ text.old.items ++ finish_text finish) }
{
    match finish {
        Some(finish) => write_number(text, finish as u64),
        None => {
            text.push(b'-')?;
            Ok(())
        }
    }
}

/// Under which schedulers a job is late.
fn mark(weak: bool, strong: bool) -> &'static str
    ensures { result.now ≡ mark_text weak strong }
{
    match (weak, strong) {
        (false, false) => "-",
        (true, false) => "weak",
        (false, true) => "strong",
        (true, true) => "both",
    }
}

/// Appends the lines of all tasks.
fn write_tasks<W: JobScheduler, S: JobScheduler>(
    text: &mut Vec<u8>,
    input: &JobInput,
    weak: &Driven<W>,
    strong: &Driven<S>,
) -> Result<(), OutOfMemory>
    requires weak { IsDrivenOf W.seen input.now weak.now }
    requires strong { IsDrivenOf S.seen input.now strong.now }
    ensures { OnOk result (text.new.items ≡ text.old.items
        ++ flat_map (row_of_task input.now (W.seen weak.now.scheduler).states (S.seen strong.now.scheduler).states)
        (range_with_len 0 (length input.now.set.tasks))) }
{
    for t in 0..input.set().len() {
        let weak_figures = Figures::new(input, weak, t);
        let strong_figures = Figures::new(input, strong, t);
        write_task(text, input, t, weak_figures, strong_figures)?;
    }
    Ok(())
}

/// Appends the line of a task.
fn write_task(
    text: &mut Vec<u8>,
    input: &JobInput,
    t: u32,
    weak: Figures,
    strong: Figures,
) -> Result<(), OutOfMemory>
    requires { t < length input.now.set.tasks }
    ensures { OnOk result ((list other : List ℕ) (late too : ℕ)
        → Summarizes list late weak → Summarizes other too strong
        → text.new.items ≡ text.old.items ++ task_row (name_of input.now.set t)
        (length (jobs_at input.now.jobs t)) (figures_text list late) (figures_text other too)) }
{
    text.extend_from_slice(b"task ")?;
    write_name(text, input.set(), t)?;
    write_worded(text, " jobs ", input.jobs(t).len() as u64)?;
    text.extend_from_slice(b" weak ")?;
    weak.write(text)?;
    text.extend_from_slice(b" strong ")?;
    strong.write(text)?;
    text.push(b'\n')?;
    Ok(())
}
