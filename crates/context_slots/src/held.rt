//! A context that was taken, and why one was not.
ghost use Rattle.std.specs.Prelude.{◌≡◌};

use crate::hand_seat::TakenStint;
use std::marker::Model;
use task_set::Context;

/// The context of a task, away from home. Only `Slots::release` puts it home: a `Held` that is dropped leaves its task
/// out for good, and the slots can then never be closed.
#[derive(Drop)]
pub struct Held {
    pub(crate) taken: TakenStint,
}

impl Model for Held {
    ghost use Rattle.context_slots.specs.Contexts.{HeldContext};

    ghost Value = { HeldContext };

    ghost use Rattle.context_slots.specs.HeldParts.{held_data};

    ghost view = { held_data };
}

impl Held {
    /// The context, after the take and the runs of this stint so far.
    pub fn context(&self) -> &Context
        ensures { result.now ≡ self.now.context }
    {
        &self.taken.context
    }

    /// The number of the stint, among all stints of the task.
    pub fn number(&self) -> u32
        ensures { result ≡ self.now.number }
    {
        self.taken.number
    }
}

/// It is not the turn of the stint asked for.
#[derive(Clone, Copy, Debug, PartialEq, Eq)]
pub struct NotTurn {
    /// The word of the task that was found.
    pub found: u64,
}
