//! A hand at work: with the context that it took.
ghost use Rattle.std.specs.Prelude.{◌≡◌, ◌≢◌, None, length};
ghost use Rattle.task_set.specs.Orders.{MayCome, NamesTaskBelow};
ghost use Rattle.task_set.specs.declared.order.Order.TheVariants.{Stop};
ghost use Rattle.processor_seat.specs.Obeying.{held_task, ObeyAnswer};
ghost use Rattle.context_slots.specs.Hands.{after_release};

use crate::answer::Obeyed;
use context_slots::{Hand, Held, NotTurn, Slots};
use std::marker::Model;
use task_set::Order;

/// A hand and the context that it took, if it holds one. Contracts see it as its hand.
#[derive(Drop)]
pub struct WorkingHand {
    hand: Hand,
    held: Option<Held>,
}

impl Model for WorkingHand {
    ghost use Rattle.context_slots.specs.Hands.{HandData};

    ghost Value = { HandData };

    ghost use Rattle.processor_seat.specs.WorkingHandParts.{IsWorkingHand};

    ghost view = { λ a. a.hand };

    ghost invariant = { IsWorkingHand };
}

impl WorkingHand {
    /// A hand that holds nothing yet.
    pub fn new(hand: Hand) -> WorkingHand
        requires { hand.holds ≡ None }
        ensures { result ≡ hand }
    {
        WorkingHand { hand, held: None }
    }

    /// The hand, once its work is done.
    pub fn into_hand(self) -> Hand
        ensures { result ≡ self }
    {
        self.hand
    }

    /// Obeys an order that may come while the hand holds what it holds.
    pub fn obey(&mut self, slots: &Slots, order: Order) -> Obeyed
        requires slots { self.old.slots ≡ slots.now.id }
        requires below { NamesTaskBelow (length slots.now.set.tasks) order }
        requires may { MayCome (held_task self.old.holds) order }
        requires not_stop { order ≢ Stop }
        ensures { ObeyAnswer order self.old result self.new }
    {
        match order {
            Order::Take { task, number } => self.take(slots, task, number),
            Order::Run(units) => self.run(slots, units),
            Order::Release(_task) => self.release(slots),
            Order::Stop => unreachable!(),
        }
    }

    /// Takes a task, where it is at this turn.
    fn take(&mut self, slots: &Slots, task: u32, number: u32) -> Obeyed
        requires slots { self.old.slots ≡ slots.now.id }
        requires below { NamesTaskBelow (length slots.now.set.tasks) (Order.Take task number) }
        requires free { self.old.holds ≡ None }
        ensures { ObeyAnswer (Order.Take task number) self.old result self.new }
    {
        match slots.take(&mut self.hand, task, number) {
            Ok(held) => {
                self.held = Some(held);
                Obeyed::Done
            }
            Err(NotTurn { found }) => Obeyed::NotTurn { task, found },
        }
    }

    /// Runs the context that is held.
    fn run(&mut self, slots: &Slots, units: u32) -> Obeyed
        requires slots { self.old.slots ≡ slots.now.id }
        requires holds { self.old.holds ≢ None }
        ensures { ObeyAnswer (Order.Run units) self.old result self.new }
    {
        let Some(held) = &mut self.held else {
            unreachable!()
        };
        slots.run(&mut self.hand, held, units);
        Obeyed::Done
    }

    /// Puts the context that is held home.
    fn release(&mut self, slots: &Slots) -> Obeyed
        requires slots { self.old.slots ≡ slots.now.id }
        requires holds { self.old.holds ≢ None }
        ensures { (result ≡ Obeyed.Done) × (self.new ≡ after_release self.old) }
    {
        let Some(held) = self.held.take() else {
            unreachable!()
        };
        slots.release(&mut self.hand, held);
        Obeyed::Done
    }
}
