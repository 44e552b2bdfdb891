//! What a line of the scheduler says of who runs where.

/// A switch of a processor, or a wakeup that makes a task ready.
#[derive(Clone, Copy)]
pub enum Turn {
    /// A processor goes from one thread to another, or from none or to none that has a number.
    Switch {
        processor: u32,
        from: Option<u32>,
        to: Option<u32>,
    },

    /// A wakeup makes the task ready.
    Woken(u32),
}

impl Turn {
    ghost use Rattle.std.specs.Prelude.{◌≡◌};
    ghost use Rattle.trace_passages.specs.Turns.{turned};

    /// The switch the other way round.
    pub fn turned(self) -> Turn
        ensures { result ≡ turned self }
    {
        match self {
            Turn::Woken(task) => Turn::Woken(task),
            Turn::Switch {
                processor,
                from,
                to,
            } => Turn::Switch {
                processor,
                from: to,
                to: from,
            },
        }
    }
}
