//! What lies in a hand, and in a context that was taken.
ghost use Rattle.std.specs.Prelude.{◌≡◌, ◌<◌};

use crate::view::HandView;
use atomic_table::Seat;
use task_set::Context;

/// The seat of a hand at the table of turn words, and the hand's number.
#[derive(Drop)]
pub struct HandSeat {
    pub number: u8,
    pub seat: Seat<Option<Context>, HandView>,
    ghost numbered: { number ≡ seat.me.0.number },
    ghost small: { number < 64 },
}

/// A context that was taken, with its task and the number of the stint.
#[derive(Drop)]
pub struct TakenStint {
    pub task: u32,
    pub number: u32,
    pub context: Context,
}
