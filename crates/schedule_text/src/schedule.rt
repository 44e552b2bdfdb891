//! Schedules: tasks, the entries of a history, and a context for each task.
ghost use Rattle.std.specs.Prelude.{◌≡◌};

use std::marker::Model;
use strong_apa::Entry;
use task_set::{Context, TaskSet};
use text_fields::limits::MAX_EVENTS;

/// The greatest number of entries of a schedule.
pub const MAX_ENTRIES: u64 = MAX_EVENTS as u64;

/// The version of the format, the tasks, the entries in the order of their lines, and the contexts in the order of the
/// tasks.
#[derive(Drop)]
pub struct Schedule {
    version: u8,
    set: TaskSet,
    entries: Vec<Entry>,
    contexts: Vec<Context>,
}

impl Model for Schedule {
    ghost use Rattle.schedule_text.specs.Schedule.{ScheduleData, schedule_view, IsStored};

    ghost Value = { ScheduleData };

    ghost view = { schedule_view };

    ghost invariant = { IsStored };
}

impl Schedule {
    ghost use Rattle.schedule_text.specs.Schedule.{IsSchedule};

    /// A schedule of these parts, which are those of a schedule.
    pub(crate) fn new(
        version: u8,
        set: TaskSet,
        entries: Vec<Entry>,
        contexts: Vec<Context>,
    ) -> Schedule
        requires { IsSchedule (record {
          version = version;
          set = set;
          entries = entries.items;
          contexts =
              contexts.items;
        }) }
        ensures { result ≡ record {
          version = version;
          set = set;
          entries = entries.items;
          contexts = contexts.items;
        } }
    {
        Schedule {
            version,
            set,
            entries,
            contexts,
        }
    }

    /// The version of the format.
    pub fn version(&self) -> u8
        ensures value { result ≡ self.now.version }
        ensures valid { IsSchedule self.now }
    {
        self.version
    }

    /// The tasks.
    pub fn set(&self) -> &TaskSet
        ensures value { result.now ≡ self.now.set }
        ensures valid { IsSchedule self.now }
    {
        &self.set
    }

    /// The entries, in the order of their lines.
    pub fn entries(&self) -> &[Entry]
        ensures value { result.now ≡ self.now.entries }
        ensures valid { IsSchedule self.now }
    {
        &self.entries
    }

    /// The contexts, in the order of the tasks.
    pub fn contexts(&self) -> &[Context]
        ensures value { result.now ≡ self.now.contexts }
        ensures valid { IsSchedule self.now }
    {
        &self.contexts
    }
}
