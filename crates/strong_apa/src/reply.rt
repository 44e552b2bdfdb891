//! What the scheduler answers, and what a history keeps.
ghost use Rattle.std.specs.Prelude.{◌≡◌, ◌<◌, All};

use crate::chain::Chain;
use affinity_mask::ProcSet;
use task_set::Event;

/// What the scheduler did at an event.
#[derive(Debug, Drop, PartialEq)]
pub enum Reply {
    /// The task that arrived was shifted along this chain, which ends on a processor that was idle.
    Placed {
        chain: Chain,
    },
    /// The task that arrived was shifted along this chain, and the task `out`, which was on its last processor, waits.
    /// `reach` has the processors that the arriving task reached before the shift.
    Displaced {
        chain: Chain,
        out: u32,
        reach: ProcSet,
    },
    /// The task that arrived waits: the processors that it reaches, `reach`, all run more urgent tasks.
    Waits {
        reach: ProcSet,
    },
    /// The task that departed was linked to the first processor of the chain. Along the chain, from its last
    /// processor to its first, the waiting task `entered` was shifted, if there was one. `back` has the processors
    /// from which a chain of shifts led to the freed processor.
    Freed {
        entered: Option<u32>,
        chain: Chain,
        back: ProcSet,
    },
    /// The task that departed had waited.
    Left,
    /// Each linked task ran on its processor.
    Ticked,
    /// The task that arrived was ready before, and nothing changed.
    AlreadyReady,
    /// The task that departed was absent before, and nothing changed.
    NotReady,

    /// The mask of an absent task was set.
    Masked,

    /// The mask of a ready task was set while the task was absent. `gone` says who came in at its processor, where it
    /// left one; it had waited where that is missing. `came` says what its return came to.
    Remasked {
        gone: Option<Gone>,
        came: Came,
    },
    /// The processor was off line before, and nothing changed.
    AlreadyOff,
    /// The processor was on line before, and nothing changed.
    AlreadyOn,
    /// The processor is off line. `moved` has the task that was on it, if there was one.
    Off {
        moved: Option<Moved>,
    },
    /// The processor is on line and became idle, and the parts say who came in.
    On {
        parts: Gone,
    },
}

/// The result of an arrival.
#[derive(Debug, Drop, PartialEq)]
pub enum Came {
    /// The task was shifted along this chain, which ends on a processor that was idle.
    Placed {
        chain: Chain,
    },
    /// The task was shifted along this chain, and the task `out`, which was on its last processor, waits. `reach` has the
    /// processors that the task reached before the shift.
    Displaced {
        chain: Chain,
        out: u32,
        reach: ProcSet,
    },
    /// The task waits: the processors that it reaches, `reach`, all run more urgent tasks.
    Waits {
        reach: ProcSet,
    },
}

/// Who came in at a processor that became idle.
#[derive(Debug, Drop, PartialEq)]
pub struct Gone {
    /// The waiting task that came in, if one did.
    pub entered: Option<u32>,

    /// The processors along which it was shifted, from its last one to its first, which became idle.
    pub chain: Chain,

    /// The processors from which a chain of shifts led to the one that became idle.
    pub back: ProcSet,
}

/// What a task came to that had to leave its processor.
#[derive(Debug, Drop, PartialEq)]
pub struct Moved {
    pub task: u32,
    pub came: Came,
}

impl Came {
    ghost use Rattle.strong_apa.specs.Reply.{came_chain};

    /// The processors along which the task was shifted. There are none where it waits.
    pub fn chain(&self) -> &[u8]
        ensures value { result.now ≡ came_chain self.now }
        ensures each { All (λ p. p < 64) result.now }
    {
        match self {
            Came::Placed { chain } => chain.processors(),
            Came::Displaced { chain, .. } => chain.processors(),
            Came::Waits { .. } => &[],
        }
    }

    /// An equal result, for which no memory is taken.
    pub fn copy(&self) -> Came
        ensures { result ≡ self.now }
    {
        match self {
            Came::Placed { chain } => Came::Placed {
                chain: chain.copy(),
            },
            Came::Displaced { chain, out, reach } => Came::Displaced {
                chain: chain.copy(),
                out: *out,
                reach: *reach,
            },
            Came::Waits { reach } => Came::Waits { reach: *reach },
        }
    }
}

impl Gone {
    /// An equal value, for which no memory is taken.
    pub fn copy(&self) -> Gone
        ensures { result ≡ self.now }
    {
        Gone {
            entered: self.entered,
            chain: self.chain.copy(),
            back: self.back,
        }
    }
}

impl Moved {
    /// An equal value, for which no memory is taken.
    pub fn copy(&self) -> Moved
        ensures { result ≡ self.now }
    {
        Moved {
            task: self.task,
            came: self.came.copy(),
        }
    }
}

impl From<Came> for Reply {
    ghost use Rattle.strong_apa.specs.Reply.{reply_of_came};

    ghost from_gives = { λ came reply. reply ≡ reply_of_came came };

    fn from(came: Came) -> Reply {
        match came {
            Came::Placed { chain } => Reply::Placed { chain },
            Came::Displaced { chain, out, reach } => Reply::Displaced { chain, out, reach },
            Came::Waits { reach } => Reply::Waits { reach },
        }
    }
}

impl From<Gone> for Reply {
    ghost use Rattle.strong_apa.specs.Reply.{reply_of_gone};

    ghost from_gives = { λ gone reply. reply ≡ reply_of_gone gone };

    fn from(gone: Gone) -> Reply {
        Reply::Freed {
            entered: gone.entered,
            chain: gone.chain,
            back: gone.back,
        }
    }
}

impl Reply {
    ghost use Rattle.strong_apa.specs.Reply.{came_of, gone_of, filling_chain, coming_chain};

    /// The processors along which a processor was filled that became idle. There are none where none was.
    pub fn filling_chain(&self) -> &[u8]
        ensures value { result.now ≡ filling_chain self.now }
        ensures each { All (λ p. p < 64) result.now }
    {
        match self {
            Reply::Freed { chain, .. } => chain.processors(),
            Reply::Remasked {
                gone: Some(gone),
                ..
            } => gone.chain.processors(),
            Reply::On { parts } => parts.chain.processors(),
            _ => &[],
        }
    }

    /// The processors along which a task came that arrived, or arrived again. There are none where none did.
    pub fn coming_chain(&self) -> &[u8]
        ensures value { result.now ≡ coming_chain self.now }
        ensures each { All (λ p. p < 64) result.now }
    {
        match self {
            Reply::Placed { chain } => chain.processors(),
            Reply::Displaced { chain, .. } => chain.processors(),
            Reply::Remasked { came, .. } => came.chain(),
            Reply::Off { moved: Some(moved) } => moved.came.chain(),
            _ => &[],
        }
    }

    /// The result of an arrival, where the reply is that alone. No memory is taken.
    pub fn came(&self) -> Option<Came>
        ensures { result ≡ came_of self.now }
    {
        match self {
            Reply::Placed { chain } => Some(Came::Placed {
                chain: chain.copy(),
            }),
            Reply::Displaced { chain, out, reach } => Some(Came::Displaced {
                chain: chain.copy(),
                out: *out,
                reach: *reach,
            }),
            Reply::Waits { reach } => Some(Came::Waits { reach: *reach }),
            _ => None,
        }
    }

    /// Who came in at a processor that became idle, where the reply is that alone. No memory is taken.
    pub fn gone(&self) -> Option<Gone>
        ensures { result ≡ gone_of self.now }
    {
        match self {
            Reply::Freed {
                entered,
                chain,
                back,
            } => Some(Gone {
                entered: *entered,
                chain: chain.copy(),
                back: *back,
            }),
            _ => None,
        }
    }

    /// An equal reply, for which no memory is taken.
    pub fn copy(&self) -> Reply
        ensures { result ≡ self.now }
    {
        match self {
            Reply::Placed { chain } => Reply::Placed {
                chain: chain.copy(),
            },
            Reply::Displaced { chain, out, reach } => Reply::Displaced {
                chain: chain.copy(),
                out: *out,
                reach: *reach,
            },
            Reply::Waits { reach } => Reply::Waits { reach: *reach },
            Reply::Freed {
                entered,
                chain,
                back,
            } => Reply::Freed {
                entered: *entered,
                chain: chain.copy(),
                back: *back,
            },
            Reply::Left => Reply::Left,
            Reply::Ticked => Reply::Ticked,
            Reply::AlreadyReady => Reply::AlreadyReady,
            Reply::NotReady => Reply::NotReady,
            Reply::Masked => Reply::Masked,
            Reply::Remasked { gone, came } => Reply::Remasked {
                gone: gone.as_ref().map(|gone| gone.copy()),
                came: came.copy(),
            },
            Reply::AlreadyOff => Reply::AlreadyOff,
            Reply::AlreadyOn => Reply::AlreadyOn,
            Reply::Off { moved } => Reply::Off {
                moved: moved.as_ref().map(|moved| moved.copy()),
            },
            Reply::On { parts } => Reply::On {
                parts: parts.copy(),
            },
        }
    }
}

/// One event of a history: who posted it, what happened, and what the scheduler did.
#[derive(Debug, Drop, PartialEq)]
pub struct Entry {
    pub caller: u32,
    pub event: Event,
    pub reply: Reply,
}

impl Entry {
    /// An equal entry, for which no memory is taken.
    pub fn copy(&self) -> Entry
        ensures { result ≡ self.now }
    {
        Entry {
            caller: self.caller,
            event: self.event,
            reply: self.reply.copy(),
        }
    }
}
