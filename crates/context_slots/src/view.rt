//! What a hand knows, as proofs see it. No value of these types is ever made.
use std::collections::LinkedList;
use std::marker::Model;
use task_set::Context;

/// A stint that a hand runs: the context that it found at home, and the units of its runs so far.
pub struct OpenStint {
    pub task: u32,
    pub number: u32,
    pub base: Context,
    pub units: LinkedList<u32>,
}

/// A stint that has ended.
pub struct Ended {
    task: u32,
    number: u32,
    processor: u8,
    units: LinkedList<u32>,
}

impl Model for Ended {
    ghost use Rattle.task_set.specs.Orders.{Stint};

    ghost Value = { Stint };

    ghost view = { λ ended. record {
      task = ended.task;
      number = ended.number;
      processor = ended.processor;
      units = ended.units;
    } };
}

/// The view of a hand. A hand has one part, a hand that took in others has theirs too, and one that was taken in has
/// none. The first hand counts the hands that it has made.
pub struct HandView {
    pub number: u8,
    pub parts: u64,
    pub holds: Option<OpenStint>,
    pub ended: LinkedList<Ended>,
    pub looks: LinkedList<(u32, u64)>,
    pub made: u8,
}
