//! What a caller posts with.
ghost use Rattle.std.specs.Prelude.{◌≡◌};

use crate::pass_state::PassState;
use std::marker::Model;

/// What a caller knows of the history, and what it did. It holds no entry: the history is in the board.
#[derive(Drop)]
pub struct Pass {
    pub(crate) state: PassState,
}

impl Model for Pass {
    ghost use Rattle.event_history.specs.Boards.{PassData};

    ghost Value = { PassData };

    ghost use Rattle.event_history.specs.PassParts.{pass_data, IsAtRest};

    ghost view = { pass_data };

    ghost invariant = { IsAtRest };
}

impl Pass {
    /// The caller whose pass it is, from 0 on. Its entries bear this number.
    pub fn caller(&self) -> u32
        ensures { result ≡ self.now.caller }
    {
        self.state.caller
    }

    /// The greatest number of entries that it knows the history to have.
    pub fn known(&self) -> u64
        ensures { result ≡ self.now.known }
    {
        self.state.known
    }

    /// Whether it saw the core closed.
    pub fn saw_close(&self) -> bool
        ensures { result ≡ self.now.saw_close }
    {
        self.state.saw_close
    }
}
