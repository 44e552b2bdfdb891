//! The turn word: its rule, the kinds of step that change it, and the calls that are made of these steps.
ghost use Rattle.std.specs.Prelude.{◌≡◌, ℕ, ◌+◌, ◌<◌, ◌≤◌, [], length, map, IfOk, IfErr, OnOk, true};
ghost use Rattle.task_set.specs.TaskSet.{IsTaskSet};
ghost use Rattle.event_history.specs.Turn.{Setting, setting_of, TurnRule, fresh, loads_play, turn_play, posts_play, leaves_play, made_one, newcomer, note, informed, taken_in, spent_pass};

use crate::eyes::Eyes;
use crate::held::Held;
use crate::pass::Pass;
use crate::pass_state::{PassSeat, PassState};
use crate::view::PassView;
use affinity_mask::OutOfMemory;
use atomic_table::{Join, Play, Shared, Split, Table, TableRule};
use order_queues::{Queue, Sender};
use sched_core::Core;
use std::alloc::Global;
use std::marker::{Brand, PhantomData};
use std::snapshot::Snapshot;
use std::sync::Wait;
use std::time::Duration;
use task_set::TaskSet;

/// What a turn word is told once: the set of its core, the senders as they were at first, and how many callers there
/// are.
#[derive(Drop)]
pub struct About {
    pub set: Snapshot<TaskSet>,
    pub senders: Snapshot<Vec<Sender>>,
    pub callers: u32,
}

/// How long a caller that found the turn busy sleeps at most, in microseconds, before it tries again. A turn takes a few
/// microseconds, but where many callers try at once, it is best that most of them sleep while one goes on.
const LONGEST_WAIT: u64 = 50;

/// The rule of a turn word.
pub struct TurnWord;

impl TableRule<Option<Held>, PassView, About> for TurnWord {
    ghost holds = { λ about. TurnRule (setting_of about) about.callers };

    ghost first = { λ about. fresh 0 1 };
}

/// A turn word, as its callers share it.
pub type Turn = Shared<Option<Held>, PassView, About, TurnWord>;

/// A load: the pass knows the count that the word shows.
pub struct Loads;

impl Play<Option<Held>, PassView> for Loads {
    ghost then = { loads_play };
}

/// Over what a turn word is made. No step of a table is told that, so each call picks it.
pub trait Over {
    ghost setting: { Setting };
}

impl Over for Brand {
    ghost setting = { record { set = record { processors = 0; tasks = [] }; queues = [] } };
}

/// An exchange that takes the turn, if it finds the word that the load found.
pub struct Takes<J>(PhantomData<J>);

impl<J: Over> Play<Option<Held>, PassView> for Takes<J> {
    ghost then = { turn_play J.setting };
}

/// A store that ends the turn with one entry more.
pub struct Posts;

impl Play<Option<Held>, PassView> for Posts {
    ghost then = { posts_play };
}

/// A store that ends the turn without an entry.
pub struct Leaves;

impl Play<Option<Held>, PassView> for Leaves {
    ghost then = { leaves_play };
}

/// The first pass makes the next one.
pub struct Makes;

impl Split<PassView> for Makes {
    ghost left = { made_one };

    ghost right = { newcomer };
}

/// A pass makes a note of what it knows, and another pass learns of it.
pub struct Note;

impl Split<PassView> for Note {
    ghost left = { λ v. v };

    ghost right = { note };
}

impl Join<PassView> for Note {
    ghost both = { informed };

    ghost spent = { spent_pass };
}

/// A pass takes in another, and stands for its caller too.
pub struct Gathers;

impl Join<PassView> for Gathers {
    ghost both = { taken_in };

    ghost spent = { spent_pass };
}

ghost use Rattle.strong_apa.specs.History.{IsLegal};
ghost use Rattle.order_queues.specs.Ends.{EyeData};
ghost use Rattle.event_history.specs.Boards.{Grown, AreEyesOf, AreFor};
ghost use Rattle.event_history.specs.Flushing.{Flushed};
ghost use Rattle.event_history.specs.Holdings.{SentBegins, NoneSent, queues_of, IsOneSlot, new_core, new_slots, senders_in};
ghost use Rattle.event_history.specs.Meeting.{Counted, Told, Met};
ghost use Rattle.event_history.specs.Posting.{SawAll, WasBusy, turn_looks};
ghost use Rattle.event_history.specs.PassStates.{IsOfTurn, IsTurnTable, Agrees, data_at};
ghost use Rattle.strong_apa.specs.State.{start_of};
ghost use Rattle.event_history.specs.Gathering.{IsIn, AllIn, AllOf, IsGathering};
ghost use Rattle.event_history.specs.Places.{CallersBelow};
ghost use Rattle.event_history.specs.Turn.{Fits, IsOver, passes_of};
ghost use Rattle.event_history.specs.Turn.{IsFree, HasTurn, IsBusy, MayRecord, MayLeave, after_post, after_leave};

/// One try at the turn, which gives the core and the senders; or the word that shows that the turn is busy.
pub fn begin<J: Over>(turn: &Turn, state: &mut PassState) -> Result<Held, u64>
    requires setting { J.setting ≡ setting_of turn.now.key }
    requires table { IsOfTurn turn.now.table_id state.old }
    requires free { IsFree state.old.seat.me × Agrees state.old }
    ensures same { (state.new.seat.table_id ≡ state.old.seat.table_id)
        × (state.new.eyes ≡ state.old.eyes) × Agrees state.new }
    ensures turn { IfOk result (HasTurn J.setting state.old.seat.me.0 state.new.seat.me) }
    ensures busy { IfErr result (IsBusy state.old.seat.me.0 state.new.seat.me) }
{
    let found = turn.load::<Loads>(&mut state.seat, 0);
    state.known = found / 2;
    if found % 2 == 1 {
        return Err(found);
    }
    let won = turn.compare_exchange::<Takes<J>>(&mut state.seat, 0, found, found + 1);
    if won != found {
        return Err(won);
    }
    Ok(turn.exchange(&mut state.seat, 0, None).unwrap())
}

/// Ends the turn with one entry more: the core goes back, and then the word says so.
pub fn record_entry(turn: &Turn, state: &mut PassState, held: Held)
    requires table { IsOfTurn turn.now.table_id state.old }
    requires turn { MayRecord (setting_of turn.now.key) state.old.seat.me held × Agrees state.old }
    ensures same { (state.new.seat.table_id ≡ state.old.seat.table_id)
        × (state.new.eyes ≡ state.old.eyes) × Agrees state.new }
    ensures view { state.new.seat.me ≡ (after_post state.old.seat.me.0 held.core, []) }
    ensures legal { IsLegal turn.now.key.set.value held.core.history }
{
    let count = held.count();
    let _none = turn.exchange(&mut state.seat, 0, Some(held));
    turn.store::<Posts>(&mut state.seat, 0, 2 * count);
    state.known = count;
}

/// Ends the turn without an entry: the core goes back, and then the word says so.
pub fn leave(turn: &Turn, state: &mut PassState, held: Held)
    requires table { IsOfTurn turn.now.table_id state.old }
    requires turn { MayLeave (setting_of turn.now.key) state.old.seat.me held × Agrees state.old }
    ensures same { (state.new.seat.table_id ≡ state.old.seat.table_id)
        × (state.new.eyes ≡ state.old.eyes) × Agrees state.new }
    ensures view { state.new.seat.me ≡ (after_leave state.old.seat.me.0 held.core, []) }
    ensures legal { IsLegal turn.now.key.set.value held.core.history }
{
    let count = held.count();
    let closed = held.is_closed();
    let _none = turn.exchange(&mut state.seat, 0, Some(held));
    turn.store::<Leaves>(&mut state.seat, 0, 2 * count);
    state.known = state.known.max(count);
    state.saw_close = closed;
}

/// Parks the calling thread where the word found says that somebody has the turn, unless the word is another one by
/// then, but not for long: nobody wakes it, since a wake would cost each turn more than the turn itself. It may return
/// at once, or for no reason, so the caller tries again.
pub fn wait<R: Wait>(turn: &Turn, rt: &R, found: u64)
    requires { IsTurnTable turn.now.table_id }
{
    if found % 2 == 1 {
        let low = (found & 0xffff_ffff) as u32;
        turn.park_timeout(rt, 0, low, Duration::from_micros(LONGEST_WAIT));
    }
}

/// One load: how many entries there are.
pub fn count(turn: &Turn, state: &mut PassState) -> u64
    requires table { IsOfTurn turn.now.table_id state.old }
    requires free { IsFree state.old.seat.me × Agrees state.old }
    ensures same { (state.new.seat.table_id ≡ state.old.seat.table_id)
        × (state.new.eyes ≡ state.old.eyes) × Agrees state.new × IsFree state.new.seat.me }
    ensures counted { Counted (data_at turn.now.table_id state.old)
        (data_at turn.now.table_id state.new) result }
{
    let word = turn.load::<Loads>(&mut state.seat, 0);
    state.known = word / 2;
    state.known
}

/// A pass learns what another knows.
fn tell(turn: &Turn, from: &mut PassState, to: &mut PassState)
    requires from { IsOfTurn turn.now.table_id from.old × IsFree from.old.seat.me
        × Agrees from.old }
    requires to { IsOfTurn turn.now.table_id to.old × IsFree to.old.seat.me × Agrees to.old }
    ensures from { (from.new.seat.table_id ≡ from.old.seat.table_id)
        × (from.new.eyes ≡ from.old.eyes) × Agrees from.new
        × (from.new.seat.me ≡ from.old.seat.me) }
    ensures to { (to.new.seat.table_id ≡ to.old.seat.table_id) × (to.new.eyes ≡ to.old.eyes)
        × Agrees to.new × IsFree to.new.seat.me }
    ensures told { Told (data_at turn.now.table_id from.old) (data_at turn.now.table_id to.old)
        (data_at turn.now.table_id to.new) }
{
    let note = turn.split_seat::<Note>(&mut from.seat);
    turn.join_seat::<Note>(&mut to.seat, note);
    let found = turn.load::<Loads>(&mut to.seat, 0);
    to.known = found / 2;
    to.saw_close = to.saw_close || from.saw_close;
}

/// Two passes learn what either knows.
pub fn meet(turn: &Turn, one: &mut PassState, other: &mut PassState)
    requires one { IsOfTurn turn.now.table_id one.old × IsFree one.old.seat.me × Agrees one.old }
    requires other { IsOfTurn turn.now.table_id other.old × IsFree other.old.seat.me
        × Agrees other.old }
    ensures one { (one.new.seat.table_id ≡ one.old.seat.table_id) × (one.new.eyes ≡ one.old.eyes)
        × Agrees one.new × IsFree one.new.seat.me }
    ensures other { (other.new.seat.table_id ≡ other.old.seat.table_id)
        × (other.new.eyes ≡ other.old.eyes) × Agrees other.new × IsFree other.new.seat.me }
    ensures met { Met (data_at turn.now.table_id one.old) (data_at turn.now.table_id other.old)
        (data_at turn.now.table_id one.new) (data_at turn.now.table_id other.new) }
{
    tell(turn, one, other);
    tell(turn, other, one);
}

/// One try at the turn, to close the core. Where it is busy, the word that showed it is the Err.
pub fn close_once<J: Over>(turn: &Turn, state: &mut PassState) -> Result<(), u64>
    requires setting { J.setting ≡ setting_of turn.now.key }
    requires table { IsOfTurn turn.now.table_id state.old }
    requires free { IsFree state.old.seat.me × Agrees state.old }
    ensures same { (state.new.seat.table_id ≡ state.old.seat.table_id)
        × (state.new.eyes ≡ state.old.eyes) × Agrees state.new × IsFree state.new.seat.me }
    ensures grown { Grown (data_at turn.now.table_id state.old)
        (data_at turn.now.table_id state.new) }
    ensures mine { state.new.seat.me.0.mine ≡ state.old.seat.me.0.mine }
    ensures busy { IfErr result (WasBusy (data_at turn.now.table_id state.old)
        (data_at turn.now.table_id state.new)) }
    ensures closed { OnOk result
        (SawAll turn.now.key.set.value (data_at turn.now.table_id state.old)
        (data_at turn.now.table_id state.new) × (state.new.seat.me.0.saw_close ≡ true)) }
    ensures turn { OnOk result (state.new.seat.me.0.looks
        ≡ turn_looks state.old.seat.me.0.looks (length state.new.seat.me.0.seen)) }
{
    let mut held = match begin::<J>(turn, state) {
        Ok(held) => held,
        Err(found) => return Err(found),
    };
    held.close_now();
    leave(turn, state, held);
    Ok(())
}

/// One try at the turn, to send what is owed. Where it is busy, the word that showed it is the Err.
pub fn flush_once<J: Over, R: Wait>(
    turn: &Turn,
    rt: &R,
    state: &mut PassState,
    queues: &[Queue],
) -> Result<u64, u64>
    requires setting { J.setting ≡ setting_of turn.now.key }
    requires table { IsOfTurn turn.now.table_id state.old }
    requires free { IsFree state.old.seat.me × Agrees state.old }
    requires queues { queues_of turn.now.key.senders.value.items ≡ queues.now }
    requires eyes { AreEyesOf queues.now state.old.eyes }
    requires board { IsTaskSet turn.now.key.set.value × AreFor turn.now.key.set.value queues.now }
    ensures same { (state.new.seat.table_id ≡ state.old.seat.table_id) × Agrees state.new
        × IsFree state.new.seat.me }
    ensures eyes { map (λ (e : EyeData). e.received_word) state.new.eyes ≡ map
        (λ (e : EyeData). e.received_word) state.old.eyes }
    ensures grown { Grown (data_at turn.now.table_id state.old)
        (data_at turn.now.table_id state.new) }
    ensures mine { state.new.seat.me.0.mine ≡ state.old.seat.me.0.mine }
    ensures busy { IfErr result (λ found. (state.new.eyes ≡ state.old.eyes)
        × WasBusy (data_at turn.now.table_id state.old)
        (data_at turn.now.table_id state.new) found) }
    ensures flushed { IfOk result
        (λ owed. SawAll turn.now.key.set.value (data_at turn.now.table_id state.old)
        (data_at turn.now.table_id state.new)
        × Flushed turn.now.key.set.value (data_at turn.now.table_id state.old)
        (data_at turn.now.table_id state.new) owed) }
    ensures turn { IfOk result (λ _. state.new.seat.me.0.looks
        ≡ turn_looks state.old.seat.me.0.looks (length state.new.seat.me.0.seen)) }
{
    let mut held = match begin::<J>(turn, state) {
        Ok(held) => held,
        Err(found) => return Err(found),
    };
    let _count = held.count();
    let owed = held.flush(rt, queues, &mut state.eyes);
    leave(turn, state, held);
    Ok(owed)
}

/// A turn word with its memory.
pub type TurnTable = Table<Option<Held>, PassView, About, TurnWord, Global>;

/// A turn word over a new core and senders that sent nothing, and the seat of the first pass. Out of memory the senders
/// come back.
pub fn open(
    alloc: Global,
    set: &TaskSet,
    senders: Vec<Sender>,
    callers: u32,
) -> Result<(TurnTable, PassSeat), Vec<Sender>>
    requires callers { 1 ≤ callers }
    requires count { length senders.items ≡ set.now.processors }
    requires fresh { NoneSent senders.items }
    ensures table { IfOk result
        (λ made. IsTurnTable made.0.shared.table_id × (made.1.table_id ≡ made.0.shared.table_id)) }
    ensures key { IfOk result
        (λ made. (made.0.shared.key.set.value ≡ set.now)
        × (made.0.shared.key.senders.value.items ≡ senders.items)
        × (made.0.shared.key.callers ≡ callers)) }
    ensures seat { IfOk result (λ made. made.1.me ≡ (fresh 0 1, [])) }
    ensures back { IfErr result (λ back. back.items ≡ senders.items) }
{
    let about = About {
        set: Snapshot::of(set),
        senders: Snapshot::of(&senders),
        callers,
    };
    let slots = held_slots(alloc, set, senders)?;
    match Table::new(alloc, &[0], slots, &about) {
        Ok(made) => Ok(made),
        Err(refused) => Err(senders_of(refused.slots)),
    }
}

/// The one slot of a turn word, with a new core and senders that sent nothing. Out of memory the senders come back.
fn held_slots(
    alloc: Global,
    set: &TaskSet,
    senders: Vec<Sender>,
) -> Result<Vec<Option<Held>>, Vec<Sender>>
    requires count { length senders.items ≡ set.now.processors }
    requires fresh { NoneSent senders.items }
    ensures slots { IfOk result (λ slots. slots.items ≡ new_slots set.now senders.items) }
    ensures back { IfErr result (λ back. back.items ≡ senders.items) }
{
    let Ok(mut slots) = Vec::with_capacity(alloc, 1) else {
        return Err(senders);
    };
    let Ok(core) = boxed_core(alloc, set) else {
        return Err(senders);
    };
    slots.push_reserved(Some(Held::of(core, senders)));
    Ok(slots)
}

/// A new core, in memory of its own. Refused only where memory runs out.
fn boxed_core(alloc: Global, set: &TaskSet) -> Result<Box<Core>, OutOfMemory>
    ensures { IfOk result (λ core. core.value ≡ new_core set.now) }
{
    let core = Core::new(alloc, set)?;
    let core = Box::new(alloc, core)?;
    Ok(core)
}

/// The senders of the one slot of a turn word that was not made.
fn senders_of(slots: Vec<Option<Held>>) -> Vec<Sender>
    requires { IsOneSlot slots.items }
    ensures { result.items ≡ senders_in slots.items }
{
    let mut slots = slots;
    match slots.pop() {
        Some(Some(held)) => {
            let (_core, senders) = held.parts();
            senders
        }
        _ => unreachable!(),
    }
}

/// The pass of the next caller.
pub fn make(turn: &Turn, first: &mut PassState, caller: u32, eyes: Eyes) -> PassState
    requires table { IsOfTurn turn.now.table_id first.old }
    requires first { first.old.seat.me ≡ (fresh 0 caller, []) }
    requires caller { (1 ≤ caller) × (caller < turn.now.key.callers) }
    ensures first { (first.new ≡ record first.old { seat = first.new.seat })
        × (first.new.seat.table_id ≡ turn.now.table_id)
        × (first.new.seat.me ≡ (fresh 0 (caller + 1), [])) }
    ensures made { Agrees result × (result.seat.table_id ≡ turn.now.table_id)
        × (result.seat.me ≡ (fresh caller 0, [])) × (result.eyes ≡ eyes) }
{
    let seat = turn.split_seat::<Makes>(&mut first.seat);
    PassState {
        caller,
        known: 0,
        saw_close: false,
        seat,
        eyes,
    }
}

/// A pass takes in others, from the last on.
pub fn gather(turn: &Turn, first: &mut PassState, mut passes: Vec<Pass>)
    requires table { IsOfTurn turn.now.table_id first.old }
    requires first { IsGathering first.old.seat.me }
    requires passes { AllOf turn.now.table_id passes.items }
    ensures first { (first.new.seat.table_id ≡ first.old.seat.table_id)
        × IsGathering first.new.seat.me }
    ensures kept { (pass : _) → IsIn pass first.old.seat.me.0 → IsIn pass first.new.seat.me.0 }
    ensures known { AllIn passes.items first.new.seat.me.0 }
{
    while let Some(pass) = passes.pop() {
        let Pass { state } = pass;
        turn.join_seat::<Gathers>(&mut first.seat, state.seat);
    }
}

/// The core and the senders of a turn word that ends, where the pass stands for all callers.
pub fn end(table: TurnTable, last: PassState) -> (Core, Vec<Sender>)
    requires table { IsOfTurn table.shared.table_id last }
    requires last { IsGathering last.seat.me }
    requires all { (x : ℕ) → x < table.shared.key.callers → 1 ≤ passes_of x last.seat.me.0 }
    ensures start { result.0.start ≡ start_of table.shared.key.set.value }
    ensures legal { IsLegal table.shared.key.set.value result.0.history }
    ensures fits { Fits table.shared.key.callers result.0.history result.0.closed last.seat.me.0 }
    ensures callers { CallersBelow table.shared.key.callers result.0.history }
    ensures queues { queues_of result.1.items ≡ queues_of table.shared.key.senders.value.items }
    ensures sent { SentBegins result.0 result.1.items }
{
    end_held(table, last).parts()
}

/// What a turn word that ends gives back, where the pass stands for all callers.
fn end_held(table: TurnTable, last: PassState) -> Held
    requires table { IsOfTurn table.shared.table_id last }
    requires last { IsGathering last.seat.me }
    requires all { (x : ℕ) → x < table.shared.key.callers → 1 ≤ passes_of x last.seat.me.0 }
    ensures over { IsOver (setting_of table.shared.key) result }
    ensures fits { Fits
        table.shared.key.callers result.core.history result.core.closed last.seat.me.0 }
    ensures callers { CallersBelow table.shared.key.callers result.core.history }
{
    let mut closed = table.close_with(last.seat);
    let Some(held) = closed.take(0) else {
        unreachable!()
    };
    closed.free();
    held
}
