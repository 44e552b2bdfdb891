//! What lies in a pass: its place at the turn word, and what the code reads of it.
use crate::eyes::Eyes;
use crate::held::Held;
use crate::view::PassView;
use atomic_table::Seat;

/// The seat of a pass at the table of the turn word.
pub type PassSeat = Seat<Option<Held>, PassView>;

/// The seat of a pass, what of its view the code reads, and its eyes.
#[derive(Drop)]
pub struct PassState {
    pub caller: u32,
    pub known: u64,
    pub saw_close: bool,
    pub seat: PassSeat,
    pub eyes: Eyes,
}
