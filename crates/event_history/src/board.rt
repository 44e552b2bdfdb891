//! The board that the callers share, and the calls that they make with their passes.
ghost use Rattle.std.specs.Prelude.{◌≡◌, ◌≤◌, length, map, true, IfOk, IfErr, OnOk, IsOk};
ghost use Rattle.order_queues.specs.Ends.{new_eye, new_sender};
ghost use Rattle.event_history.specs.Boards.{AreNewPasses, AreAllPasses, AreEyesOf, AreFor, Grown, IsMade};
ghost use Rattle.event_history.specs.Holdings.{queues_of};
ghost use Rattle.event_history.specs.Gathering.{AreRows};
ghost use Rattle.event_history.specs.Meeting.{Counted, Met};
ghost use Rattle.event_history.specs.Posting.{SawAll, TookTurn, WasBusy, turn_looks};
ghost use Rattle.event_history.specs.Flushing.{Flushed};
ghost use Rattle.event_history.specs.Closing.{IsCoreOf, AreSendersOf};

use crate::eyes::Eyes;
use crate::fault::{Unfinished, Unmade};
use crate::held::Held;
use crate::pass::Pass;
use crate::pass_state::PassState;
use crate::turn;
use crate::turn::{About, TurnWord};
use crate::view::PassView;
use affinity_mask::OutOfMemory;
use atomic_table::Table;
use order_queues::{Queue, Sender};
use sched_core::Core;
use std::alloc::Global;
use std::marker::{Brand, Model};
use std::sync::Wait;
use task_set::TaskSet;

mod history;
mod posting;

/// One history of events, which callers extend by turns. Each call is made with a pass of this board.
#[derive(Drop)]
pub struct Board {
    table: Table<Option<Held>, PassView, About, TurnWord, Global>,
}

impl Model for Board {
    ghost use Rattle.event_history.specs.Boards.{BoardData};

    ghost Value = { BoardData };

    ghost use Rattle.event_history.specs.BoardParts.{board_data, IsBoard};

    ghost view = { board_data };

    ghost invariant = { IsBoard };
}

impl Board {
    /// A board over a set with an empty history, and a pass for each caller, in order. It takes the new sender of each
    /// processor's queue; `queues` are their queues. Refused only out of memory; the senders then come back.
    pub fn new(
        alloc: Global,
        set: &TaskSet,
        mut senders: Vec<Sender>,
        queues: &[Queue],
        callers: u32,
    ) -> Result<(Board, Vec<Pass>), Unmade>
        requires callers { (1 ≤ callers) × (callers ≤ 16) }
        requires senders { senders.items ≡ map new_sender queues.now }
        requires one_each { length queues.now ≡ set.now.processors }
        requires tasks { AreFor set.now queues.now }
        ensures board { IfOk result
            (λ made. (made.0.set ≡ set.now) × (made.0.queues ≡ queues.now)
            × (made.0.callers ≡ callers)) }
        ensures passes { IfOk result (λ made. AreNewPasses made.0 made.1.items) }
        ensures all { IfOk result (λ made. AreAllPasses made.0 made.1.items) }
        ensures unmade { IfErr result (λ unmade. unmade.senders.items ≡ senders.items) }
    {
        let _number = set.len();
        let Ok(mut rows) = eye_rows(alloc, queues, &mut senders, callers) else {
            return Err(Unmade { senders });
        };
        let Ok(mut passes) = Vec::with_capacity(alloc, callers as usize) else {
            return Err(Unmade { senders });
        };
        let (table, seat) = match turn::open(alloc, set, senders, callers) {
            Ok(made) => made,
            Err(senders) => return Err(Unmade { senders }),
        };
        let Some(eyes) = rows.pop() else {
            unreachable!()
        };
        let mut first = PassState {
            caller: 0,
            known: 0,
            saw_close: false,
            seat,
            eyes,
        };
        for caller in 1..callers {
            let Some(eyes) = rows.pop() else {
                unreachable!()
            };
            let state = turn::make(&table.shared, &mut first, caller, eyes);
            passes.push_reserved(Pass { state });
        }
        match passes.insert(0, Pass { state: first }) {
            Ok(()) => Ok((Board { table }, passes)),
            Err(_full) => unreachable!(),
        }
    }

    /// Every board has a valid set, and a queue for each of its processors.
    pub(crate) fn check_made(&self)
        ensures { IsMade self.now }
    {
        let _table = &self.table;
    }

    /// How many entries the history had at one moment of this call, by one load. Takes no turn and no memory.
    pub fn count(&self, pass: &mut Pass) -> u64
        requires board { pass.old.board ≡ self.now.id }
        ensures counted { Counted pass.old pass.new result }
    {
        turn::count(&self.table.shared, &mut pass.state)
    }

    /// Two passes learn what either knows. Takes no turn and no memory.
    pub fn meet(&self, one: &mut Pass, other: &mut Pass)
        requires one { one.old.board ≡ self.now.id }
        requires other { other.old.board ≡ self.now.id }
        ensures eyes { (one.new.eyes ≡ one.old.eyes) × (other.new.eyes ≡ other.old.eyes) }
        ensures met { Met one.old other.old one.new other.new }
    {
        turn::meet(&self.table.shared, &mut one.state, &mut other.state);
    }

    /// One try to close the core. Where the turn is busy, the word that showed it is the Err.
    fn try_finish(&self, pass: &mut Pass) -> Result<(), u64>
        requires board { pass.old.board ≡ self.now.id }
        ensures grown { Grown pass.old pass.new }
        ensures mine { pass.new.mine ≡ pass.old.mine }
        ensures eyes { pass.new.eyes ≡ pass.old.eyes }
        ensures made { IsMade self.now }
        ensures busy { IfErr result (WasBusy pass.old pass.new) }
        ensures closed { OnOk result (SawAll self.now.set pass.old pass.new
            × (pass.new.saw_close ≡ true)) }
        ensures turn { OnOk result
            (pass.new.looks ≡ turn_looks pass.old.looks (length pass.new.seen)) }
    {
        turn::close_once::<Brand>(&self.table.shared, &mut pass.state)
    }

    /// Closes the core, by as many tries as it takes to find the turn free. No event is posted from then on. Takes no
    /// memory.
    pub fn finish<R: Wait>(&self, rt: &R, pass: &mut Pass)
        requires board { pass.old.board ≡ self.now.id }
        ensures grown { Grown pass.old pass.new }
        ensures seen { SawAll self.now.set pass.old pass.new }
        ensures turn { TookTurn pass.old pass.new (length pass.new.seen) }
        ensures eyes { pass.new.eyes ≡ pass.old.eyes }
        ensures made { IsMade self.now }
        ensures closed { pass.new.saw_close ≡ true }
    {
        for _ in rt.forever() {
            match self.try_finish(pass) {
                Ok(()) => return,
                Err(found) => turn::wait(&self.table.shared, rt, found),
            }
        }
        unreachable!()
    }

    /// One try to send what is owed. Where the turn is busy, the word that showed it is the Err.
    fn try_flush<R: Wait>(&self, rt: &R, pass: &mut Pass, queues: &[Queue]) -> Result<u64, u64>
        requires board { pass.old.board ≡ self.now.id }
        requires queues { queues.now ≡ self.now.queues }
        requires eyes { AreEyesOf self.now.queues pass.old.eyes }
        ensures grown { Grown pass.old pass.new }
        ensures mine { pass.new.mine ≡ pass.old.mine }
        ensures eyes { AreEyesOf self.now.queues pass.new.eyes }
        ensures busy { IfErr result (λ found. (pass.new.eyes ≡ pass.old.eyes)
            × WasBusy pass.old pass.new found) }
        ensures made { IsMade self.now }
        ensures flushed { IfOk result (λ owed. SawAll self.now.set pass.old pass.new
            × Flushed self.now.set pass.old pass.new owed) }
        ensures turn { IfOk result
            (λ _. pass.new.looks ≡ turn_looks pass.old.looks (length pass.new.seen)) }
    {
        turn::flush_once::<Brand, R>(&self.table.shared, rt, &mut pass.state, queues)
    }

    /// Sends the orders that are owed, those of each processor in their order, by as many tries as it takes to find the
    /// turn free. Answers how many orders are still owed: those of the processors whose queues were found full. Takes no
    /// memory.
    pub fn flush<R: Wait>(&self, rt: &R, pass: &mut Pass, queues: &[Queue]) -> u64
        requires board { pass.old.board ≡ self.now.id }
        requires queues { queues.now ≡ self.now.queues }
        requires eyes { AreEyesOf self.now.queues pass.old.eyes }
        ensures grown { Grown pass.old pass.new }
        ensures seen { SawAll self.now.set pass.old pass.new }
        ensures turn { TookTurn pass.old pass.new (length pass.new.seen) }
        ensures eyes { AreEyesOf self.now.queues pass.new.eyes }
        ensures made { IsMade self.now }
        ensures flushed { Flushed self.now.set pass.old pass.new result }
    {
        for _ in rt.forever() {
            match self.try_flush(rt, pass, queues) {
                Ok(owed) => return owed,
                Err(found) => turn::wait(&self.table.shared, rt, found),
            }
        }
        unreachable!()
    }

    /// The core with the whole history, and the senders. All passes come back, in the order of their callers, so nobody
    /// posts or sends any more. It is never refused; the Err is there for a board that would need memory.
    pub fn close(self, mut passes: Vec<Pass>) -> Result<(Core, Vec<Sender>), Unfinished>
        requires { AreAllPasses self passes.items }
        ensures never_refused { IsOk result }
        ensures closed { IfOk result (λ back. IsCoreOf self passes.items back.0) }
        ensures senders { IfOk result (λ back. AreSendersOf self back.0 back.1.items) }
        ensures made { IsMade self }
        ensures unfinished { IfErr result
            (λ back. (back.board ≡ self) × (back.passes.items ≡ passes.items)) }
    {
        let Board { table } = self;
        let Pass { state } = passes.remove(0);
        let mut first = state;
        turn::gather(&table.shared, &mut first, passes);
        Ok(turn::end(table, first))
    }
}

/// A row of new eyes for each of so many passes.
fn eye_rows(
    alloc: Global,
    queues: &[Queue],
    senders: &mut Vec<Sender>,
    passes: u32,
) -> Result<Vec<Eyes>, OutOfMemory>
    requires { queues_of senders.old.items ≡ queues.now }
    ensures senders { senders.new.items ≡ senders.old.items }
    ensures rows { IfOk result
        (λ rows. (length rows.items ≡ passes) × AreRows (map new_eye queues.now) rows.items) }
{
    let mut rows = Vec::with_capacity(alloc, passes as usize)?;
    for _ in 0..passes {
        let eyes = Eyes::new(alloc, queues, senders)?;
        rows.push_reserved(eyes);
    }
    Ok(rows)
}
