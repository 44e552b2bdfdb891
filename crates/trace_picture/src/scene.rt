//! What is drawn: the tasks, the clock, and the part of the trace.
ghost use Rattle.std.specs.Prelude.{◌≡◌, ◌≤◌, ◌-◌};
ghost use Rattle.trace_picture.specs.Scene.{across, colour_at, lane_of, name_at, scene_of, span_of};

use std::alloc::Global;
use task_set::TaskSet;
use trace_bars::Part;

/// The tasks; the clock of moment 0 of the trace, in microseconds; and the part that is shown.
#[derive(Clone, Copy)]
pub struct Scene<'a> {
    pub alloc: Global,
    pub set: &'a TaskSet,
    pub clock: Option<u64>,
    pub part: Part,
}

impl Scene<'_> {
    /// How long the part is, and at least 1.
    pub(crate) fn span(&self) -> u64
        ensures at_least_one { 1 ≤ result }
        ensures value { result ≡ span_of self.now.part }
    {
        self.part.to.saturating_sub(self.part.from).max(1)
    }

    /// How far a moment is from the beginning of the part.
    pub(crate) fn along(&self, moment: u64) -> u64
        ensures { result ≡ moment - self.now.part.from }
    {
        moment.saturating_sub(self.part.from)
    }

    /// Where a moment stands on the page, from the left.
    pub(crate) fn across(&self, moment: u64) -> u128
        ensures { result ≡ across self.now.part moment }
    {
        200 + u128::from(self.along(moment)) * 1000 / u128::from(self.span())
    }

    /// The lane of a processor. All processors beyond have one lane, after the others.
    pub(crate) fn lane(&self, p: u32) -> u32
        ensures { result ≡ lane_of (scene_of self.now) p }
    {
        p.min(u32::from(self.set.processors()))
    }

    /// The name of a thread that is a task. Others have one word.
    pub(crate) fn name(&self, thread: usize) -> &str
        ensures { result.now ≡ name_at (scene_of self.now) thread }
    {
        if thread < self.set.len() as usize {
            self.set.name(thread as u32)
        } else {
            "not listed"
        }
    }

    /// The number of the colour of a thread that is a task. Others have one colour.
    pub(crate) fn colour(&self, thread: usize) -> usize
        ensures { result ≡ colour_at (scene_of self.now) thread }
    {
        if thread < self.set.len() as usize {
            thread % 24
        } else {
            24
        }
    }
}
