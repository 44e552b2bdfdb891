//! Posts: events that callers add to the history.
ghost use Rattle.std.specs.Prelude.{◌≡◌, length, IfOk, IfErr, MatchResult};
ghost use Rattle.task_set.specs.Event.{IsOfSystem};
ghost use Rattle.event_history.specs.Boards.{Grown};
ghost use Rattle.event_history.specs.Entering.{IsTaken};
ghost use Rattle.event_history.specs.Posting.{Posted, Refused, Ended, TookTurn, WasBusy, post_fault, turn_looks};
ghost use Rattle.event_history.specs.Unread.{PostedUnread};

use super::Board;
use crate::entering::Taken;
use crate::fault::{EndFault, PostFault, Receipt, Unread};
use crate::pass::Pass;
use crate::turn::{Over, begin, leave, record_entry, wait};
use sched_core::CoreFault;
use std::marker::Brand;
use std::sync::Wait;
use task_set::Event;

impl Board {
    /// One try to post an event: it takes a turn if it finds the turn free, and never waits. All memory is taken before
    /// anything changes.
    pub fn try_post(&self, pass: &mut Pass, event: Event) -> Result<Receipt, PostFault>
        requires board { pass.old.board ≡ self.now.id }
        requires of_task { IsOfSystem self.now.set.processors (length self.now.set.tasks) event }
        ensures grown { Grown pass.old pass.new }
        ensures eyes { pass.new.eyes ≡ pass.old.eyes }
        ensures posted { IfOk result
            (λ receipt. Posted self.now.set pass.old event receipt pass.new
            × (pass.new.looks ≡ turn_looks pass.old.looks receipt.place)) }
        ensures refused { IfErr result (λ fault. Refused self.now.set pass.old fault pass.new) }
    {
        match self.try_post_as::<Brand, Receipt>(pass, event) {
            Ok(Ok(receipt)) => Ok(receipt),
            Ok(Err(fault)) => Err(PostFault::from(fault)),
            Err(found) => Err(PostFault::Busy { found }),
        }
    }

    /// Posts an event, by as many tries as it takes to find the turn free.
    pub fn post<R: Wait>(&self, rt: &R, pass: &mut Pass, event: Event) -> Result<Receipt, EndFault>
        requires board { pass.old.board ≡ self.now.id }
        requires of_task { IsOfSystem self.now.set.processors (length self.now.set.tasks) event }
        ensures grown { Grown pass.old pass.new }
        ensures eyes { pass.new.eyes ≡ pass.old.eyes }
        ensures posted { IfOk result
            (λ receipt. Posted self.now.set pass.old event receipt pass.new) }
        ensures refused { IfErr result (λ fault. Ended self.now.set pass.old fault pass.new) }
        ensures turn { MatchResult result
            (λ receipt. TookTurn pass.old pass.new receipt.place)
            (λ _. TookTurn pass.old pass.new (length pass.new.seen)) }
    {
        self.post_as::<Receipt, R>(rt, pass, event)
    }

    /// Posts an event as [`Board::post`] does, for a caller that does not read the reply: no copy of it is made.
    pub fn post_unread<R: Wait>(
        &self,
        rt: &R,
        pass: &mut Pass,
        event: Event,
    ) -> Result<Unread, EndFault>
        requires board { pass.old.board ≡ self.now.id }
        requires of_task { IsOfSystem self.now.set.processors (length self.now.set.tasks) event }
        ensures grown { Grown pass.old pass.new }
        ensures eyes { pass.new.eyes ≡ pass.old.eyes }
        ensures posted { IfOk result
            (λ unread. PostedUnread self.now.set pass.old event unread pass.new) }
        ensures refused { IfErr result (λ fault. Ended self.now.set pass.old fault pass.new) }
        ensures turn { MatchResult result
            (λ unread. TookTurn pass.old pass.new unread.place)
            (λ _. TookTurn pass.old pass.new (length pass.new.seen)) }
    {
        self.post_as::<Unread, R>(rt, pass, event)
    }

    /// One try to post an event. Where the turn is busy, the word that showed it is the outer Err.
    fn try_post_as<J: Over, T: Taken>(
        &self,
        pass: &mut Pass,
        event: Event,
    ) -> Result<Result<T, CoreFault>, u64>
        requires setting { J.setting ≡ record { set = self.now.set; queues = self.now.queues } }
        requires board { pass.old.board ≡ self.now.id }
        requires of_task { IsOfSystem self.now.set.processors (length self.now.set.tasks) event }
        ensures grown { Grown pass.old pass.new }
        ensures eyes { pass.new.eyes ≡ pass.old.eyes }
        ensures busy { IfErr result (WasBusy pass.old pass.new) }
        ensures posted { IfOk result (λ answer. IfOk answer (IsTaken T.of_receipt
            (λ receipt. Posted self.now.set pass.old event receipt pass.new
            × (pass.new.looks ≡ turn_looks pass.old.looks receipt.place)))) }
        ensures refused { IfOk result (λ answer. IfErr answer
            (λ fault. Refused self.now.set pass.old (post_fault fault) pass.new)) }
    {
        let turn = &self.table.shared;
        let state = &mut pass.state;
        let mut held = match begin::<J>(turn, state) {
            Ok(held) => held,
            Err(found) => return Err(found),
        };
        match held.enter::<T>(state.caller, event) {
            Ok(taken) => {
                record_entry(turn, state, held);
                Ok(Ok(taken))
            }
            Err(fault) => {
                leave(turn, state, held);
                Ok(Err(fault))
            }
        }
    }

    /// Posts an event, by as many tries as it takes to find the turn free, for what the caller takes of its entry.
    fn post_as<T: Taken, R: Wait>(
        &self,
        rt: &R,
        pass: &mut Pass,
        event: Event,
    ) -> Result<T, EndFault>
        requires board { pass.old.board ≡ self.now.id }
        requires of_task { IsOfSystem self.now.set.processors (length self.now.set.tasks) event }
        ensures grown { Grown pass.old pass.new }
        ensures eyes { pass.new.eyes ≡ pass.old.eyes }
        ensures posted { IfOk result (IsTaken T.of_receipt
            (λ receipt. Posted self.now.set pass.old event receipt pass.new)) }
        ensures refused { IfErr result (λ fault. Ended self.now.set pass.old fault pass.new) }
        ensures turn { MatchResult result
            (IsTaken T.of_receipt (λ receipt. TookTurn pass.old pass.new receipt.place))
            (λ _. TookTurn pass.old pass.new (length pass.new.seen)) }
    {
        // Each try takes a copy of it.
        let event = &event;
        for _ in rt.forever() {
            match self.try_post_as::<Brand, T>(pass, *event) {
                Ok(Ok(taken)) => return Ok(taken),
                Ok(Err(fault)) => return Err(EndFault::from(fault)),
                Err(found) => wait(&self.table.shared, rt, found),
            }
        }
        unreachable!()
    }
}
