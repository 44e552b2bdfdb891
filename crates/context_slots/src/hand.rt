//! The hand of a processor.
ghost use Rattle.std.specs.Prelude.{◌≡◌, ◌<◌};
ghost use Rattle.context_slots.specs.HandSeats.{hand_data_of, IsWhole};

use crate::hand_seat::HandSeat;
use std::marker::Model;

/// What a processor takes contexts with. There is one for each processor of the set, with its number, and `Slots::new`
/// alone makes them.
///
/// At run time it is no more than its number. Contracts see the slots that it is of, the stint that it runs, the stints
/// that it ended, and what its looks at turn words found.
#[derive(Drop)]
pub struct Hand {
    pub(crate) hand_seat: HandSeat,
}

impl Model for Hand {
    ghost use Rattle.context_slots.specs.Hands.{HandData};

    ghost Value = { HandData };

    ghost use Rattle.context_slots.specs.HandParts.{hand_data, IsAtHand};

    ghost view = { hand_data };

    ghost invariant = { IsAtHand };
}

impl Hand {
    /// The number of its processor.
    pub fn number(&self) -> u8
        ensures value { result ≡ self.now.number }
        ensures small { result < 64 }
    {
        self.hand_seat.number
    }

    // Takes it apart.
    pub(crate) fn into_hand_seat(self) -> HandSeat
        ensures data { hand_data_of result ≡ self }
        ensures whole { IsWhole result }
    {
        self.hand_seat
    }
}
