//! The turn words with the contexts, and the steps that the hands make at them.
//!
//! The rule of `specs/HandOver.antt` holds of words, contexts and hands between any two steps, whichever thread makes
//! them. Each function here is one step of one hand, but for `take`, which also empties the slot that it has won, and
//! `release`, which first fills it.
ghost use Rattle.std.specs.Prelude.{◌≡◌, ◌≢◌, ℕ, ◌+◌, ◌*◌, ◌<◌, ◌++◌, ◌∷◌, [], Some, None, length, MatchResult, IfSome, IsSome, IfOk};
ghost use Rattle.context_slots.specs.HandOver.{HandOverRule, IsHomeAfter};
ghost use Rattle.context_slots.specs.Hands.{begun, with_run, closed, IsInStint};
ghost use Rattle.context_slots.specs.HandSeats.{IsSameHand};
ghost use Rattle.context_slots.specs.HandSteps.{looked_at_turn, holding, looks_play, takes_play, runs_play, releases_play, HoldsNothing, TookHeld, dealing, dealt, next_hand, joined, spent_hand};

use crate::hand_seat::{HandSeat, TakenStint};
use crate::held::NotTurn;
use crate::view::HandView;
use atomic_table::{Join, Play, Seat, Split, Table, TableRule};
use std::alloc::{AllocError, Global};
use std::marker::{Brand, PhantomData};
use std::snapshot::Snapshot;
use task_set::{Context, TaskSet};

/// What the table is told once: the set of tasks and processors.
#[derive(Drop)]
pub struct About {
    pub set: Snapshot<TaskSet>,
}

/// The rule of the hand-over.
pub struct HandOver;

impl TableRule<Option<Context>, HandView, About> for HandOver {
    ghost holds = { λ about. HandOverRule about.set.value.processors };

    ghost first = { λ about. dealing about.set.value.processors 1 };
}

/// A compare and exchange that takes a context at its turn.
pub struct Takes;

impl Play<Option<Context>, HandView> for Takes {
    ghost then = { takes_play };
}

/// A store that puts a context home and ends its stint.
pub struct Releases;

impl Play<Option<Context>, HandView> for Releases {
    ghost then = { releases_play };
}

/// A load that reports the word.
pub struct Looks;

impl Play<Option<Context>, HandView> for Looks {
    ghost then = { looks_play };
}

/// The first hand gives a part to the next hand.
pub struct Deals;

impl Split<HandView> for Deals {
    ghost left = { dealt };

    ghost right = { next_hand };
}

/// A hand takes in another.
pub struct Gathers;

impl Join<HandView> for Gathers {
    ghost both = { joined };

    ghost spent = { spent_hand };
}

/// The units of one run. They are no operand of the load that notes them, so the call picks them.
trait Units {
    ghost units: { ℕ };
}

impl Units for Brand {
    ghost units = { 0 };
}

/// A load at which the units of one run join the stint.
struct Runs<J>(PhantomData<J>);

impl<J: Units> Play<Option<Context>, HandView> for Runs<J> {
    ghost then = { runs_play J.units };
}

/// The words and the contexts: one of each for each task, and one more, so that there is a word where there is no task.
#[derive(Drop)]
pub struct TurnWords {
    pub table: SlotTable,
    pub tasks: u32,
    ghost sized: { (table.shared.table_id.words ≡ tasks + 1)
        × (table.shared.table_id.slots ≡ tasks + 1) },
    ghost counted: { tasks ≡ length table.shared.key.set.value.tasks },
}

/// The table under the turn words.
pub type SlotTable = Table<Option<Context>, HandView, About, HandOver, Global>;

/// A table with a word and a fresh context at home for each task, and one more, and the seat of the first hand.
pub fn open(
    alloc: Global,
    set: &TaskSet,
) -> Result<(SlotTable, Seat<Option<Context>, HandView>), AllocError>
    ensures table { IfOk result (λ made.
        (made.0.shared.table_id.words ≡ length set.now.tasks + 1)
        × (made.0.shared.table_id.slots ≡ length set.now.tasks + 1)
        × (made.0.shared.key.set.value ≡ set.now)
        × (made.1.table_id ≡ made.0.shared.table_id)) }
    ensures seat { IfOk result (λ made. made.1.me ≡ (dealing set.now.processors 1, [])) }
{
    let tasks = set.len();
    let mut words = Vec::with_capacity(alloc, tasks as usize + 1)?;
    let mut slots = Vec::with_capacity(alloc, tasks as usize + 1)?;
    for t in 0..tasks + 1 {
        words.push_reserved(0);
        slots.push_reserved(Some(Context::fresh(t)));
    }
    let about = About {
        set: Snapshot::of(set),
    };
    match Table::new(alloc, &words, slots, &about) {
        Ok(made) => Ok(made),
        Err(_refused) => Err(AllocError),
    }
}

impl TurnWords {
    /// Takes a task for the stint with this number, by one compare and exchange.
    pub fn take(&self, hand: &mut HandSeat, task: u32, number: u32) -> Result<TakenStint, NotTurn>
        requires task { task < self.now.tasks }
        requires hand { (hand.old.seat.table_id ≡ self.now.table.shared.table_id)
            × HoldsNothing hand.old.seat.me × (0 < hand.old.seat.me.0.parts) }
        ensures same { IsSameHand hand.old hand.new }
        ensures turn { MatchResult result
            (λ held. (held.task ≡ task) × (held.number ≡ number)
            × TookHeld hand.new.seat.me task number held.context
            × ((base : Context) × IsHomeAfter base task number × (hand.new.seat.me.0
            ≡ holding (looked_at_turn hand.old.seat.me.0 task (2 * number))
            (Some (begun task number base))))
            × IsInStint held.context task number hand.old.number)
            (λ no. (no.found ≢ 2 * number)
            × (hand.new.seat.me ≡ (looked_at_turn hand.old.seat.me.0 task no.found, []))) }
    {
        let shared = &self.table.shared;
        let word = task as usize;
        let home = 2 * number as u64;
        let found = shared.compare_exchange::<Takes>(&mut hand.seat, word, home, home + 1);
        if found != home {
            return Err(NotTurn { found });
        }
        let mut context = shared.exchange(&mut hand.seat, word, None).unwrap();
        context.took(hand.number);
        Ok(TakenStint {
            task,
            number,
            context,
        })
    }

    /// Runs a number of units, and notes them by one load.
    pub fn run(&self, hand: &mut HandSeat, held: &mut TakenStint, units: u32)
        requires hand { (hand.old.seat.table_id ≡ self.now.table.shared.table_id)
            × TookHeld hand.old.seat.me held.old.task held.old.number held.old.context
            × (0 < hand.old.seat.me.0.parts) }
        requires task { held.old.task < self.now.tasks }
        ensures same { (hand.new.seat.table_id ≡ hand.old.seat.table_id)
            × (hand.new.number ≡ hand.old.number)
            × (held.new.task ≡ held.old.task) × (held.new.number ≡ held.old.number) }
        ensures took { TookHeld hand.new.seat.me held.new.task held.new.number held.new.context }
        ensures units { IfSome hand.old.seat.me.0.holds (λ stint.
            hand.new.seat.me.0 ≡ holding hand.old.seat.me.0 (Some (with_run stint units))) }
    {
        held.context.ran(hand.number, units);
        self.note_units::<Brand>(hand, held.task, units);
    }

    // Notes units that have run, by one load.
    fn note_units<J: Units>(&self, hand: &mut HandSeat, task: u32, units: u32)
        requires units { units ≡ J.units }
        requires hand { (hand.old.seat.table_id ≡ self.now.table.shared.table_id)
            × (0 < hand.old.seat.me.0.parts) }
        requires held { IsSome hand.old.seat.me.0.holds }
        requires task { task < self.now.tasks }
        ensures same { IsSameHand hand.old hand.new }
        ensures units { IfSome hand.old.seat.me.0.holds (λ stint. hand.new.seat.me
            ≡ (holding hand.old.seat.me.0 (Some (with_run stint units)), hand.old.seat.me.1)) }
    {
        self.table
            .shared
            .load::<Runs<J>>(&mut hand.seat, task as usize);
    }

    /// Puts the context home, by one store.
    pub fn release(&self, hand: &mut HandSeat, held: TakenStint)
        requires hand { (hand.old.seat.table_id ≡ self.now.table.shared.table_id)
            × TookHeld hand.old.seat.me held.task held.number held.context
            × (0 < hand.old.seat.me.0.parts) }
        requires task { held.task < self.now.tasks }
        ensures same { IsSameHand hand.old hand.new }
        ensures free { HoldsNothing hand.new.seat.me }
        ensures ended { IfSome hand.old.seat.me.0.holds (λ stint. hand.new.seat.me.0.ended
            ≡ hand.old.seat.me.0.ended ++ closed hand.old.seat.me.0.number stint ∷ []) }
        ensures looks { (hand.new.seat.me.0.looks ≡ hand.old.seat.me.0.looks)
            × (hand.new.seat.me.0.parts ≡ hand.old.seat.me.0.parts) }
    {
        let shared = &self.table.shared;
        let word = held.task as usize;
        let _empty = shared.exchange(&mut hand.seat, word, Some(held.context));
        shared.store::<Releases>(&mut hand.seat, word, 2 * held.number as u64 + 2);
    }

    /// The word of a task, by one load.
    pub fn turn(&self, hand: &mut HandSeat, task: u32) -> u64
        requires task { task < self.now.tasks }
        requires hand { (hand.old.seat.table_id ≡ self.now.table.shared.table_id)
            × (0 < hand.old.seat.me.0.parts) }
        ensures same { IsSameHand hand.old hand.new }
        ensures look { hand.new.seat.me
            ≡ (looked_at_turn hand.old.seat.me.0 task result, hand.old.seat.me.1) }
    {
        self.table
            .shared
            .load::<Looks>(&mut hand.seat, task as usize)
    }
}
