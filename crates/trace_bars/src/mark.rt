//! What a bar shows.
ghost use Rattle.std.specs.Prelude.{◌≡◌};
ghost use Rattle.trace_bars.specs.Marks.{mark_of, row_mark, seen_by};

use crate::sight::Sight;

/// What a bar shows of a thread.
#[derive(Clone, Copy, Debug, PartialEq, Eq)]
pub enum Mark {
    /// It runs on this processor.
    Runs(u32),

    /// Strong scheduling links it to this processor.
    Linked(u8),

    /// It runs on some processor.
    Ran,

    /// It is in the best set and runs nowhere.
    Lost,

    /// It is ready, is not in the best set, and runs nowhere.
    Waits,
}

/// The bars of one kind: those of the lanes of the trace, those of the lanes of strong scheduling, or those of the rows of the threads.
#[derive(Clone, Copy, Debug, PartialEq, Eq)]
pub enum Kind {
    Trace,
    Strong,
    Rows,
}

/// A mark of a thread, from a moment up to another one.
#[derive(Clone, Copy, Debug, PartialEq, Eq)]
pub struct Bar {
    pub thread: usize,
    pub mark: Mark,
    pub from: u64,
    pub to: u64,
}

/// What the bars of a kind show of a thread.
pub(crate) fn mark_of(kind: Kind, sight: Sight) -> Option<Mark>
    ensures { result ≡ mark_of kind sight }
{
    match kind {
        Kind::Trace => match sight.on {
            Some(p) => Some(Mark::Runs(p)),
            None => None,
        },
        Kind::Strong => match sight.linked {
            Some(p) => Some(Mark::Linked(p)),
            None => None,
        },
        Kind::Rows => row_mark(sight),
    }
}

/// What the row of a thread shows.
fn row_mark(sight: Sight) -> Option<Mark>
    ensures { result ≡ row_mark (seen_by sight) }
{
    if sight.on.is_some() {
        Some(Mark::Ran)
    } else if sight.linked.is_some() {
        Some(Mark::Lost)
    } else if sight.ready {
        Some(Mark::Waits)
    } else {
        None
    }
}
