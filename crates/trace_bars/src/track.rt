//! One thread, moment by moment.
ghost use Rattle.std.specs.Prelude.{◌≡◌, ◌++◌};
ghost use Rattle.trace_bars.specs.Tracks.{ended};

use crate::mark::{Bar, Mark};

/// What is seen of a thread now, and since when.
#[derive(Clone, Copy)]
pub(crate) struct Track {
    pub(crate) mark: Option<Mark>,
    pub(crate) since: u64,
}

impl Track {
    /// The bar that ends now, if there is one.
    pub(crate) fn ended(self, thread: usize, now: u64) -> Option<Bar>
        ensures { result ≡ ended thread self now }
    {
        match self.mark {
            Some(mark) if self.since < now => Some(Bar {
                thread,
                mark,
                from: self.since,
                to: now,
            }),
            _ => None,
        }
    }
}
