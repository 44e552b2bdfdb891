//! A processor, which obeys the orders that it receives.
ghost use Rattle.std.specs.Prelude.{◌≡◌, ◌≢◌, ◌++◌, ◌∷◌, [], None, true, false, All, length};
ghost use Rattle.task_set.specs.Orders.{IsObeyable, NamesTaskBelow, Stint, has_stop, stints_in};
ghost use Rattle.task_set.specs.declared.order.Order.TheVariants.{Stop};
ghost use Rattle.processor_seat.specs.Obeying.{orders_obeyed, ObeyAnswer};
ghost use Rattle.processor_seat.specs.Stepping.{IsInStep, IsSameSeat, StepAnswer, TryAnswer, MissesBelow, IsFinished};

use crate::answer::{Obeyed, Step};
use crate::gate::Gate;
use crate::waiting::Patience;
use crate::working_hand::WorkingHand;
use context_slots::{Hand, Slots};
use order_queues::{Queue, Receiver};
use std::marker::Model;
use std::sync::Wait;
use task_set::Order;

/// A processor: a hand, the receiving end of a queue, and the order that it could not obey yet, if there is one. Contracts
/// see it as these three. It takes no memory after it is made.
#[derive(Drop)]
pub struct Processor {
    number: u8,
    hand: WorkingHand,
    pending: Option<Order>,

    /// Whether `Stop` was received.
    stopped: bool,
    receiver: Receiver,
}

impl Model for Processor {
    ghost use Rattle.processor_seat.specs.Stepping.{ProcessorData};

    ghost Value = { ProcessorData };

    ghost use Rattle.processor_seat.specs.ProcessorParts.{processor_data, IsProcessor};

    ghost view = { processor_data };

    ghost invariant = { IsProcessor };
}

impl Processor {
    /// A processor that did nothing yet, with the hand of this number and the receiving end of its queue.
    pub fn new(number: u8, hand: Hand, receiver: Receiver) -> Processor
        requires number { hand.number ≡ number }
        requires hand { (hand.holds ≡ None) × (hand.ended ≡ []) }
        requires receiver { receiver.received ≡ [] }
        ensures parts { result ≡ record { hand = hand; pending = None; receiver = receiver } }
        ensures in_step { IsInStep result }
    {
        Processor {
            number,
            hand: WorkingHand::new(hand),
            pending: None,
            stopped: false,
            receiver,
        }
    }

    /// The number with which it was made, which is that of its hand.
    pub fn number(&self) -> u8
        ensures { result ≡ self.now.hand.number }
    {
        self.number
    }

    /// Obeys an order that the caller brings, for a processor that has its orders from no queue. At `NotTurn` only the look
    /// at the turn word was added to the hand, and the caller may bring the order again.
    pub fn obey(&mut self, slots: &Slots, order: Order) -> Obeyed
        requires slots { self.old.hand.slots ≡ slots.now.id }
        requires below { NamesTaskBelow (length slots.now.set.tasks) order }
        requires none_received { self.old.receiver.received ≡ [] }
        requires obeyable { IsObeyable (orders_obeyed self.old.hand ++ order ∷ []) }
        requires not_stop { order ≢ Stop }
        ensures answer { ObeyAnswer order self.old.hand result self.new.hand }
        ensures same { (self.new.pending ≡ self.old.pending)
            × (self.new.receiver ≡ self.old.receiver) }
        ensures seat { IsSameSeat self.old self.new }
    {
        self.hand.obey(slots, order)
    }

    /// Obeys the order that is pending, or else the next one of the queue, where there is one. It never sleeps. Where it
    /// receives a `Take`, it calls the gate at point 2 before the first try.
    pub fn step<R: Wait, G: Gate>(&mut self, rt: &R, queue: &Queue, slots: &Slots, gate: &G) -> Step
        requires slots { self.old.hand.slots ≡ slots.now.id }
        requires queue { self.old.receiver.queue ≡ queue.now }
        requires tasks { queue.now.tasks ≡ length slots.now.set.tasks }
        requires in_step { IsInStep self.old }
        ensures in_step { IsInStep self.new }
        ensures answer { StepAnswer self.old result self.new }
        ensures seat { IsSameSeat self.old self.new }
        ensures below { MissesBelow (length slots.now.set.tasks) result }
    {
        if self.stopped {
            return Step::Stopped;
        }
        match self.pending {
            Some(order) => self.attempt(slots, order),
            None => match self.receiver.next(rt, queue) {
                None => Step::Empty,
                Some(order) => {
                    if is_stop(order) {
                        self.stopped = true;
                        return Step::Stopped;
                    }
                    if let Order::Take { task: _, number: _ } = order {
                        gate.at(self.number as u32, 2);
                    }
                    self.attempt(slots, order)
                }
            },
        }
    }

    /// Tries to obey the order that was received last.
    fn attempt(&mut self, slots: &Slots, order: Order) -> Step
        requires slots { self.old.hand.slots ≡ slots.now.id }
        requires tasks { self.old.receiver.queue.tasks ≡ length slots.now.set.tasks }
        requires received { self.old.receiver.received ≡ orders_obeyed self.old.hand ++ order ∷ [] }
        requires not_stopped { has_stop self.old.receiver.received ≡ false }
        ensures in_step { IsInStep self.new }
        ensures answer { TryAnswer self.old order result self.new }
        ensures receiver { self.new.receiver ≡ self.old.receiver }
        ensures seat { IsSameSeat self.old self.new }
        ensures below { MissesBelow (length slots.now.set.tasks) result }
    {
        match self.hand.obey(slots, order) {
            Obeyed::Done => {
                self.pending = None;
                Step::Did(order)
            }
            Obeyed::NotTurn { task, found } => {
                self.pending = Some(order);
                Step::NotTurn { task, found }
            }
        }
    }

    /// Steps until `Stop` is received, so that it obeyed all other orders that it received. It waits for orders, and for
    /// the turns of its takes, for as long as it has to.
    pub fn work<R: Wait, G: Gate>(&mut self, rt: &R, queue: &Queue, slots: &Slots, gate: &G)
        requires slots { self.old.hand.slots ≡ slots.now.id }
        requires queue { self.old.receiver.queue ≡ queue.now }
        requires tasks { queue.now.tasks ≡ length slots.now.set.tasks }
        requires in_step { IsInStep self.old }
        ensures in_step { IsInStep self.new }
        ensures stopped { has_stop self.new.receiver.received ≡ true }
        ensures obeyed { self.new.receiver.received ≡ orders_obeyed self.new.hand ++ Stop ∷ [] }
        ensures seat { IsSameSeat self.old self.new }
    {
        let mut patience = Patience::new();
        for _ in rt.forever() {
            match self.step(rt, queue, slots, gate) {
                Step::Did(_order) => patience.renew(),
                Step::Empty => patience.wait_for_order(rt, queue, &self.receiver),
                Step::NotTurn { task, found } => patience.wait_for_turn(rt, slots, task, found),
                Step::Stopped => return,
            }
        }
        unreachable!()
    }

    /// Takes the processor apart, once it has stopped in step, or where it received nothing and holds nothing. The stints
    /// that its hand ended are those of the orders that it obeyed, in their order.
    pub fn finish(self) -> (Hand, Receiver)
        requires { IsFinished self }
        ensures hand { (result.0 ≡ self.hand) × (result.0.holds ≡ None) }
        ensures receiver { result.1 ≡ self.receiver }
        ensures stints { result.0.ended ≡ stints_in self.hand.number (orders_obeyed self.hand) }
        ensures own { All (λ (stint : Stint). stint.processor ≡ self.hand.number) result.0.ended }
        ensures received { IsInStep self
            → result.0.ended ≡ stints_in self.hand.number self.receiver.received }
    {
        let Processor {
            number: _,
            hand,
            pending: _,
            stopped: _,
            receiver,
        } = self;
        (hand.into_hand(), receiver)
    }
}

/// Whether the order is `Stop`.
fn is_stop(order: Order) -> bool
    ensures stop { result ≡ true → order ≡ Stop }
    ensures other { result ≡ false → order ≢ Stop }
{
    match order {
        Order::Stop => true,
        Order::Take { task: _, number: _ } => false,
        Order::Run(_units) => false,
        Order::Release(_task) => false,
    }
}
