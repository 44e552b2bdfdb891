//! What a turn gives: the core and the senders.
ghost use Rattle.std.specs.Prelude.{◌≡◌, IfOk, IfErr, length, map, true, slice_get, Some};
ghost use Rattle.strong_apa.specs.Step.{IsEventFor};
ghost use Rattle.strong_apa.specs.State.{task_count, start_of};
ghost use Rattle.order_queues.specs.Ends.{EyeData};
ghost use Rattle.sched_core.specs.CoreData.{IsCore, core_orders};
ghost use Rattle.event_history.specs.Boards.{AreEyesOf};
ghost use Rattle.event_history.specs.Entering.{Entered, IsNoEntry, IsTaken};
ghost use Rattle.event_history.specs.Flushing.{SendersFlushed};
ghost use Rattle.event_history.specs.Holdings.{SentBegins, queues_of};
ghost use Rattle.event_history.specs.Owing.{AllMaySend};

use crate::entering::{Taken, enter};
use crate::eyes::Eyes;
use crate::owed::send_all;
use link_table::Entry;
use order_queues::{Queue, Sender};
use sched_core::{Core, CoreFault};
use std::marker::Model;
use std::sync::Wait;
use task_set::Event;

/// The core, with a sender for each processor. The core lies on the heap: each turn moves what it gives, and a core is
/// large.
#[derive(Drop)]
pub struct Held {
    core: Box<Core>,
    senders: Vec<Sender>,
}

impl Model for Held {
    ghost use Rattle.event_history.specs.Holdings.{HeldData};

    ghost Value = { HeldData };

    ghost use Rattle.event_history.specs.HeldParts.{turn_data, IsHeldByTurn};

    ghost view = { turn_data };

    ghost invariant = { IsHeldByTurn };
}

impl Held {
    /// A core with senders that sent a beginning of its orders.
    pub fn of(core: Box<Core>, senders: Vec<Sender>) -> Held
        requires count { length senders.items ≡ core.value.start.processors }
        requires begins { SentBegins core.value senders.items }
        ensures { (result.core ≡ core.value) × (result.senders ≡ senders.items) }
    {
        Held { core, senders }
    }

    /// How many entries the history has.
    pub fn count(&self) -> u64
        ensures value { result ≡ length self.now.core.history }
        ensures valid { IsCore self.now.core }
    {
        self.core.history().len() as u64
    }

    /// The history.
    pub fn history(&self) -> &[Entry]
        ensures value { result.now ≡ self.now.core.history }
        ensures valid { IsCore self.now.core }
    {
        self.core.history()
    }

    /// Whether the core is closed.
    pub fn is_closed(&self) -> bool
        ensures { result ≡ self.now.core.closed }
    {
        self.core.is_closed()
    }

    /// One entry more in the core, and what its caller takes of it.
    pub fn enter<T: Taken>(&mut self, caller: u32, event: Event) -> Result<T, CoreFault>
        requires { IsEventFor self.old.core.start event }
        ensures senders { self.new.senders ≡ self.old.senders }
        ensures entered { IfOk result
            (IsTaken T.of_receipt (Entered self.old.core caller event self.new.core)) }
        ensures refused { IfErr result (IsNoEntry self.old.core self.new.core) }
    {
        enter(&mut self.core, caller, event)
    }

    /// Closes the core.
    pub fn close_now(&mut self)
        ensures { self.new ≡ record self.old { core = record self.old.core { closed = true } } }
    {
        self.core.close_now();
    }

    /// Sends what is owed to each processor, and answers how many orders are still owed.
    pub fn flush<R: Wait>(&mut self, rt: &R, queues: &[Queue], eyes: &mut Eyes) -> u64
        requires queues { queues_of self.old.senders ≡ queues.now }
        requires eyes { AreEyesOf queues.now eyes.old }
        requires orders { AllMaySend queues.now self.old.core }
        ensures core { self.new.core ≡ self.old.core }
        ensures queues { queues_of self.new.senders ≡ queues_of self.old.senders }
        ensures eyes { map (λ (e : EyeData). e.received_word) eyes.new ≡ map
            (λ (e : EyeData). e.received_word) eyes.old }
        ensures flushed { SendersFlushed (λ p. length (core_orders self.old.core p))
            eyes.old eyes.new self.new.senders result }
    {
        send_all(rt, &self.core, queues, &mut self.senders, &mut eyes.row)
    }

    /// The core and the senders.
    pub fn parts(self) -> (Core, Vec<Sender>)
        ensures parts { (result.0 ≡ self.core) × (result.1.items ≡ self.senders) }
        ensures begins { SentBegins self.core self.senders }
    {
        let Held { core, senders } = self;
        (Box::into_inner(core), senders)
    }
}
