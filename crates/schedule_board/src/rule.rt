//! The rule of a board: what each observer has seen is a prefix of what is published.
ghost use Rattle.std.specs.Prelude.{◌≡◌};
ghost use Rattle.schedule_board.specs.Views.{KeepsBoard, Sees, new_observer, told_of};

use crate::shown::Shown;
use crate::view::ObserverView;
use atomic_table::{Join, Split};
use crossbeam_utils::rule::{Outcome, Protocol};
use left_right::reader::Reader;
use left_right::writer::Writer;

/// The rule of a board.
pub struct BoardRule;

impl Protocol<Shown, ObserverView> for BoardRule {
    ghost holds = { KeepsBoard };

    ghost first = { new_observer };
}

/// A step that sees what is published then: an observer enters, or the publisher publishes.
pub struct Looks;

impl Outcome<Shown, ObserverView> for Looks {
    ghost then = { Sees };
}

/// The publisher tells an observer what it knows.
pub struct Tells;

impl Split<ObserverView> for Tells {
    ghost left = { λ v. v };

    ghost right = { λ v. v };
}

impl Join<ObserverView> for Tells {
    ghost both = { told_of };

    ghost spent = { new_observer };
}

/// The place of an observer at the two copies.
pub type Place = Reader<Shown, ObserverView, BoardRule>;

/// The publisher's right to write the copies.
pub type Desk = Writer<Shown, Shown, ObserverView, BoardRule>;
