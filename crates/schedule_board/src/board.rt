//! The publisher, and the observers that read beside it without the turn.
ghost use Rattle.std.specs.Prelude.{◌≡◌, true, length};
ghost use Rattle.left_right.specs.Sides.{view};

use crate::chronicle::{Chronicle, Reached};
use crate::rule::{Desk, Place};
use std::sync::Wait;

mod making;
mod publishing;
mod reading;

pub use making::make_board;

/// Reads the newest picture of its board, and knows what it has seen and what it was told.
#[derive(Drop)]
pub struct Observer {
    place: Place,
    processors: u8,
    told: Reached,
    told_count: u64,
    ghost bound: { ((view place.place).bound ≡ true)
        × ((view place.place).processors ≡ processors)
        × ((view place.place).seen.book ≡ told.book) },
    ghost counted: { told_count ≡ length told.log },
}

/// Publishes entries of one history. It keeps the handle `R`, since its drop waits for the observers that read just then.
pub struct Publisher<R: Wait + Drop> {
    rt: R,
    desk: Desk,
    chronicle: Chronicle,
    ghost same_board: { chronicle.reached.book ≡ desk.desk.shown.value.reached.book },
    ghost in_step: { length chronicle.reached.log ≡ length desk.desk.shown.value.reached.log
        → chronicle.reached.log ≡ desk.desk.shown.value.reached.log },
}

impl<R: Wait + Drop> Drop for Publisher<R> {
    fn drop(self) {
        let Self {
            rt,
            desk,
            chronicle: _chronicle,
        } = self;
        let _last = desk.take(&rt);
    }
}
