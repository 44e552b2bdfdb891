//! The jobs of a task under a scheduler, in figures.
ghost use Rattle.std.specs.Prelude.{◌≡◌, ◌<◌, ◌≤◌, ◌++◌, length, List, OnOk, ℕ, IfSome};
ghost use Rattle.job_release.specs.JobInput.{jobs_at};
ghost use Rattle.job_release.specs.Figures.{Summarizes, AreFiguresOf, IsOutcomeOfJob, more_responses, more_late};
ghost use Rattle.job_release.specs.JobRun.{IsDrivenOf};
ghost use Rattle.job_release.specs.WeakJobsText.{responses_text, figures_text};

use crate::input::JobInput;
use crate::outcome::Outcome;
use crate::run::Driven;
use crate::scheduler::JobScheduler;
use affinity_mask::OutOfMemory;
use text_fields::write_number;

/// How many jobs are finished and how many are late, and the sum and the greatest of the finished jobs' responses.
#[derive(Clone, Copy)]
pub struct Figures {
    pub finished: u32,
    pub late: u32,
    pub total: u64,
    pub worst: u32,
}

impl Figures {
    /// The figures of all jobs of a task.
    pub fn new<S: JobScheduler>(input: &JobInput, driven: &Driven<S>, t: u32) -> Figures
        requires driven { IsDrivenOf S.seen input.now driven.now }
        requires task { t < length input.now.set.tasks }
        ensures { AreFiguresOf input.now (S.seen driven.now.scheduler).states t
            (length (jobs_at input.now.jobs t)) result }
    {
        let jobs = input.jobs(t);
        let mut figures = Figures {
            finished: 0,
            late: 0,
            total: 0,
            worst: 0,
        };
        for k in 0..jobs.len() as u32 {
            let outcome = Outcome::new(input, driven, t, k);
            figures = figures.with(jobs[k as usize].release, outcome);
        }
        figures
    }

    /// One job more, which was released at this moment.
    fn with(self, release: u32, outcome: Outcome) -> Figures
        requires counted { (self.finished < 4000) × (self.late < 4000) }
        requires fits { self.total ≤ 40000000000 }
        requires after { IfSome outcome.finish (λ x. release ≤ x) }
        ensures { (list : List ℕ) (late : ℕ) → Summarizes list late self
            → Summarizes (more_responses list release outcome.finish) (more_late late outcome.is_late) result }
    {
        let late = self.late + outcome.is_late as u32;
        let Some(finish) = outcome.finish else {
            return Figures { late, ..self };
        };
        let response = finish - release;
        Figures {
            finished: self.finished + 1,
            late,
            total: self.total + response as u64,
            worst: self.worst.max(response),
        }
    }

    /// Appends the worst and the mean response, and how many jobs are late. Refused only when out of memory.
    pub fn write(&self, text: &mut Vec<u8>) -> Result<(), OutOfMemory>
        ensures { OnOk result ((list : List ℕ) (late : ℕ) → Summarizes list late self.now
            → text.new.items ≡ text.old.items ++ figures_text list late) }
    {
        self.write_responses(text)?;
        text.push(b' ')?;
        write_number(text, self.late as u64)?;
        Ok(())
    }

    /// Appends the worst and the mean response, where a job is finished.
    fn write_responses(&self, text: &mut Vec<u8>) -> Result<(), OutOfMemory>
        ensures { OnOk result ((list : List ℕ) (late : ℕ) → Summarizes list late self.now
            → text.new.items ≡ text.old.items ++ responses_text list) }
    {
        if self.finished == 0 {
            text.extend_from_slice(b"- -")?;
            return Ok(());
        }
        write_number(text, self.worst as u64)?;
        text.push(b' ')?;
        write_number(text, self.total / self.finished as u64)?;
        Ok(())
    }
}
