//! What holds of a task at a moment.

/// What holds of a task at a moment.
#[derive(Clone, Copy)]
pub struct Seen {
    pub ready: bool,

    /// It is in the best set of the ready tasks.
    pub best: bool,

    /// It runs on some processor.
    pub runs: bool,
}

impl Seen {
    ghost use Rattle.std.specs.Prelude.{◌≡◌};
    ghost use Rattle.trace_losses.specs.Moments.{is_served, is_lost};

    /// Whether it is ready and runs.
    pub fn is_served(self) -> bool
        ensures { result ≡ is_served self }
    {
        self.ready && self.runs
    }

    /// Whether it is in the best set and runs nowhere.
    pub fn is_lost(self) -> bool
        ensures { result ≡ is_lost self }
    {
        self.best && !self.runs
    }
}
