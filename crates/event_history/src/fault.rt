//! What a post answers, and why making, posting to or closing a board is refused.
ghost use Rattle.std.specs.Prelude.{◌≡◌};

use crate::board::Board;
use crate::pass::Pass;
use link_table::Reply;
use order_queues::Sender;
use sched_core::CoreFault;

/// Where an entry stands in the history, and the reply to its event.
#[derive(Debug, Drop, PartialEq)]
pub struct Receipt {
    /// The number of entries before it.
    pub place: u64,

    /// A copy of the reply in the entry.
    pub reply: Reply,
}

/// Where an entry stands whose reply nobody reads.
#[derive(Clone, Copy, Debug, PartialEq, Eq)]
pub struct Unread {
    /// The number of entries before it.
    pub place: u64,

    /// Whether its reply may come with orders to a processor.
    pub gives_orders: bool,
}

/// Why a try to post ended without an entry.
#[derive(Clone, Copy, Debug, PartialEq, Eq)]
pub enum PostFault {
    /// Another caller had the turn, or took a turn first. `found` is the turn word that showed it. To try again is right.
    Busy { found: u64 },

    /// The core is closed. No later try is answered otherwise.
    Closed,

    /// The core is open, and its history has as many entries as a history may have.
    Full,

    /// There was no memory for one more entry. The history is as it was.
    OutOfMemory,
}

impl From<CoreFault> for PostFault {
    ghost use Rattle.event_history.specs.Posting.{post_fault};

    ghost from_gives = { λ fault made. made ≡ post_fault fault };

    fn from(fault: CoreFault) -> PostFault {
        match fault {
            CoreFault::Closed => PostFault::Closed,
            CoreFault::Full => PostFault::Full,
            CoreFault::OutOfMemory => PostFault::OutOfMemory,
        }
    }
}

/// Why a post ended without an entry.
#[derive(Clone, Copy, Debug, PartialEq, Eq)]
pub enum EndFault {
    /// The core is closed. No later try is answered otherwise.
    Closed,

    /// The core is open, and its history has as many entries as a history may have.
    Full,

    /// There was no memory for one more entry. The history is as it was.
    OutOfMemory,
}

impl From<CoreFault> for EndFault {
    ghost use Rattle.event_history.specs.Posting.{end_fault};

    ghost from_gives = { λ fault made. made ≡ end_fault fault };

    fn from(fault: CoreFault) -> EndFault {
        match fault {
            CoreFault::Closed => EndFault::Closed,
            CoreFault::Full => EndFault::Full,
            CoreFault::OutOfMemory => EndFault::OutOfMemory,
        }
    }
}

/// A board was not made: out of memory. The senders come back.
#[derive(Drop)]
pub struct Unmade {
    pub senders: Vec<Sender>,
}

/// A board was not closed: out of memory. The board and its passes come back as they were.
#[derive(Drop)]
pub struct Unfinished {
    pub board: Board,
    pub passes: Vec<Pass>,
}
