//! The schedulers that jobs can be driven with.
ghost use Rattle.std.specs.Prelude.{◌≡◌, ◌<◌, ◌≤◌, OnOk, true, false};
ghost use Rattle.strong_apa.specs.State.{IsState, task_count, is_ready};
ghost use Rattle.job_release.specs.Scheduler.{SchedulerData, Readies, TimePasses};

use affinity_mask::OutOfMemory;
use link_table::Links;

/// A scheduler: ready tasks in, linked tasks out. After an `Err` it is not used again.
pub trait JobScheduler: Drop {
    // What contracts see of a scheduler.
    ghost seen: { Self → SchedulerData };

    /// The links now.
    fn links(&self) -> &Links
        ensures value { result.now ≡ (seen self.now).now }
        ensures valid { IsState result.now };

    /// An absent task becomes ready. Refused only when out of memory.
    fn arrive(&mut self, t: u32) -> Result<(), OutOfMemory>
        requires number { t < task_count (seen self.old).now }
        requires absent { is_ready (seen self.old).now t ≡ false }
        requires room { 1 ≤ (seen self.old).room }
        ensures { OnOk result (Readies t true (seen self.old) (seen self.new)) };

    /// A ready task becomes absent. Refused only when out of memory.
    fn depart(&mut self, t: u32) -> Result<(), OutOfMemory>
        requires number { t < task_count (seen self.old).now }
        requires ready { is_ready (seen self.old).now t ≡ true }
        requires room { 1 ≤ (seen self.old).room }
        ensures { OnOk result (Readies t false (seen self.old) (seen self.new)) };

    /// So many units of time pass. Refused only when out of memory.
    fn pass(&mut self, units: u32) -> Result<(), OutOfMemory>
        requires room { 1 ≤ (seen self.old).room }
        ensures { OnOk result (TimePasses units (seen self.old) (seen self.new)) };
}
