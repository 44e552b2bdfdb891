//! The threads of the streams: one for each stream that has events.
//!
//! A stream's thread gets the pass of its caller by value and gives it back when it is joined: the pass knows the places
//! of its entries. Where no thread can be started, the caller posts the stream itself.
ghost use Rattle.std.specs.Prelude.{◌≡◌, ◌≤◌, ◌<◌, ◌&&◌, ◌∷◌, [], All, Bool, true, length, vec_capacity, IfOk, IfSome, MatchResult};
ghost use Rattle.task_set.specs.Event.{IsOfSystem};
ghost use Rattle.event_history.specs.Boards.{AreAllPasses, AreEyesOf, Grown};
ghost use Rattle.replay.specs.Merge.{events_of_stream};
ghost use Rattle.replay.specs.Places.{AllFrom};
ghost use Rattle.replay.specs.Sharing.{IsShared};
ghost use Rattle.replay.specs.Streams.{Adds, IsForBoard, IsPassAt, IsStreamedAt, IsUnused};

use crate::flushing::flush;
use crate::shared::Shared;
use event_history::{Board, EndFault, Pass};
use order_queues::Queue;
use processor_seat::Gate;
use std::sync::Wait;
use std::thread::{Promise, PromisedHandle, Scope, Threads};
use task_set::Event;
use trace_reader::Posted;

/// A stream flushes after so many events that gave orders, and at its end. A flush takes the turn and looks at a word that
/// each processor writes. Fewer flushes leave the turn to the other streams, and the orders of so many events mostly fit
/// into a queue.
const EVENTS_PER_FLUSH: u32 = 128;

/// What a stream's thread gives back: the pass of this caller, which posted all events of its stream, where the flag
/// beside it says so.
#[derive(Clone, Copy)]
pub struct StreamOf<'a> {
    board: &'a Board,
    events: &'a [Posted],
    caller: u32,
}

impl<'a> Promise<(Pass, bool)> for StreamOf<'a> {
    ghost kept_by = { λ p back. IsStreamedAt p.board.now p.events.now back.1 p.caller back.0 };
}

/// A stream with its thread, or, where it has none, what was posted by the caller.
pub type Stream<'a> = Result<PromisedHandle<(Pass, bool), StreamOf<'a>>, (Pass, bool)>;

/// What a post needs.
#[derive(Drop)]
pub struct Poster<'a, R, G> {
    pub rt: &'a R,
    pub gate: &'a G,
    pub board: &'a Board,
    pub queues: &'a [Queue],
}

/// Posts an event between the gate's two points, and reports whether its reply may come with orders.
fn post_one<R: Wait, G: Gate>(
    poster: &Poster<R, G>,
    pass: &mut Pass,
    event: Event,
) -> Result<bool, EndFault>
    requires board { pass.old.board ≡ poster.now.board.now.id }
    requires known { IsOfSystem poster.now.board.now.set.processors
        (length poster.now.board.now.set.tasks) event }
    ensures grown { Grown pass.old pass.new }
    ensures eyes { pass.new.eyes ≡ pass.old.eyes }
    ensures adds { IfOk result (λ _. Adds pass.old (event ∷ []) pass.new) }
{
    poster.gate.at(pass.caller(), 0);
    let unread = poster.board.post_unread(poster.rt, pass, event)?;
    poster.gate.at(pass.caller(), 1);
    Ok(unread.gives_orders)
}

/// Posts an event, and flushes where enough events gave orders. `owing` is how many did since the last flush, whoever
/// posted them; it is answered as it is then, or None where the event could not be posted.
pub fn post_next<R: Wait, G: Gate>(
    poster: &Poster<R, G>,
    pass: &mut Pass,
    event: Event,
    owing: u32,
) -> Option<u32>
    requires queues { poster.now.queues.now ≡ poster.now.board.now.queues }
    requires board { pass.old.board ≡ poster.now.board.now.id }
    requires eyes { AreEyesOf poster.now.board.now.queues pass.old.eyes }
    requires known { IsOfSystem poster.now.board.now.set.processors
        (length poster.now.board.now.set.tasks) event }
    requires owing { owing < 128 }
    ensures grown { Grown pass.old pass.new }
    ensures eyes { AreEyesOf poster.now.board.now.queues pass.new.eyes }
    ensures adds { IfSome result (λ _. Adds pass.old (event ∷ []) pass.new) }
    ensures owing { IfSome result (λ owing. owing < 128) }
{
    match post_one(poster, pass, event) {
        Ok(false) => Some(owing),
        Ok(true) if owing + 1 < EVENTS_PER_FLUSH => Some(owing + 1),
        Ok(true) => {
            flush(poster.rt, poster.board, poster.queues, pass);
            Some(0)
        }
        Err(_fault) => None,
    }
}

/// Posts an event if it is on the pass's stream, as [`post_next`] does.
fn post_if_own<R: Wait, G: Gate>(
    poster: &Poster<R, G>,
    pass: &mut Pass,
    posted: Posted,
    owing: u32,
) -> Option<u32>
    requires queues { poster.now.queues.now ≡ poster.now.board.now.queues }
    requires pass { IsPassAt poster.now.board.now pass.old.caller pass.old }
    requires known { IsForBoard poster.now.board.now posted }
    requires owing { owing < 128 }
    ensures pass { IsPassAt poster.now.board.now pass.old.caller pass.new }
    ensures adds { IfSome result (λ _. Adds pass.old
        (events_of_stream pass.old.caller (posted ∷ [])) pass.new) }
    ensures owing { IfSome result (λ owing. owing < 128) }
{
    if posted.stream != pass.caller() {
        return Some(owing);
    }
    post_next(poster, pass, posted.event, owing)
}

/// Posts the events of the pass's stream in their order, and reports whether all were posted.
fn post_stream<'a, R: Wait, G: Gate>(
    rt: &'a R,
    board: &'a Board,
    queues: &'a [Queue],
    gate: &'a G,
    mut pass: Pass,
    events: &[Posted],
) -> (Pass, bool)
    requires pass { IsPassAt board.now pass.caller pass }
    requires unused { IsUnused pass }
    requires queues { queues.now ≡ board.now.queues }
    requires events { All (IsForBoard board.now) events.now }
    ensures { IsStreamedAt board.entry.now events.now result.1 pass.caller result.0 }
{
    let poster = Poster {
        rt,
        gate,
        board,
        queues,
    };
    let mut owing = 0;
    for &posted in events {
        match post_if_own(&poster, &mut pass, posted, owing) {
            Some(now) => owing = now,
            None => return (pass, false),
        }
    }
    flush(rt, board, queues, &mut pass);
    (pass, true)
}

/// Whether the stream of the caller has an event.
fn has_events(events: &[Posted], caller: u32) -> bool {
    events.iter().any(|posted| posted.stream == caller)
}

/// Starts a stream's thread. A stream without events gets none; where none can be started, the caller posts the stream.
fn start<'s, 'a: 's, 'b: 's, E, R: Threads + Wait + Sync, G: Gate + Sync>(
    scope: &Scope<'s, E>,
    shared: &Shared<'a, 'b, R, G>,
    pass: Pass,
) -> Stream<'a>
    requires shared { IsShared shared.now }
    requires pass { IsPassAt shared.now.board.now pass.caller pass }
    requires unused { IsUnused pass }
    ensures { MatchResult result
        (λ h. (h.promise.board.now ≡ shared.entry.now.board.now)
        × (h.promise.events.now ≡ shared.entry.now.events.now)
        × (h.promise.caller ≡ pass.caller))
        (λ back. IsStreamedAt shared.entry.now.board.now shared.entry.now.events.now
        back.1 pass.caller back.0) }
{
    let (rt, gate) = (shared.rt, shared.gate);
    let (board, queues, events) = (shared.board, shared.queues, shared.events);
    let promise = StreamOf {
        board,
        events,
        caller: pass.caller(),
    };
    if !has_events(events, pass.caller()) {
        return Err(post_stream(rt, board, queues, gate, pass, events));
    }
    match scope.spawn_with(
        promise,
        move || post_stream(rt, board, queues, gate, pass, events),
    ) {
        Ok(stream) => Ok(stream),
        Err(refused) => Err((refused.value)()),
    }
}

/// Starts a thread for each stream that has events, from the last on, and gives the streams in order.
pub fn start_all<'s, 'a: 's, 'b: 's, E, R: Threads + Wait + Sync, G: Gate + Sync>(
    scope: &Scope<'s, E>,
    shared: &Shared<'a, 'b, R, G>,
    mut passes: Vec<Pass>,
    mut streams: Vec<Stream<'a>>,
) -> Vec<Stream<'a>>
    requires shared { IsShared shared.now }
    requires passes { AreAllPasses shared.now.board.now passes.items }
    requires unused { All IsUnused passes.items }
    requires room { (streams.items ≡ []) × (shared.now.board.now.callers ≤ vec_capacity streams) }
    ensures count { length result.items ≡ shared.entry.now.board.now.callers }
    ensures each { AllFrom (λ n stream. MatchResult stream
        (λ h. (h.promise.board.now ≡ shared.entry.now.board.now)
        × (h.promise.events.now ≡ shared.entry.now.events.now) × (h.promise.caller ≡ n))
        (λ back. IsStreamedAt shared.entry.now.board.now shared.entry.now.events.now back.1 n back.0))
        0 result.items }
{
    while let Some(pass) = passes.pop() {
        let stream = start(scope, shared, pass);
        if let Err(_full) = streams.insert(0, stream) {
            unreachable!()
        }
    }
    streams
}

/// Joins a stream.
fn join<'s, R: Threads>(
    rt: &R,
    board: &'s Board,
    events: &'s [Posted],
    stream: Stream<'s>,
) -> (Pass, bool)
    requires { MatchResult stream
        (λ h. (h.promise.board.now ≡ board.now) × (h.promise.events.now ≡ events.now))
        (λ back. IsStreamedAt board.now events.now back.1 back.0.caller back.0) }
    ensures { MatchResult stream.entry
        (λ h. IsStreamedAt board.entry.now events.entry.now result.1 h.promise.caller result.0)
        (λ back. IsStreamedAt board.entry.now events.entry.now result.1 back.0.caller result.0) }
{
    match stream {
        Ok(thread) => thread.join(rt),
        Err(back) => back,
    }
}

/// Joins all streams, from the last on, and gives their passes in order, and whether all events were posted.
pub fn join_all<'s, R: Threads>(
    rt: &R,
    board: &'s Board,
    events: &'s [Posted],
    mut streams: Vec<Stream<'s>>,
    mut passes: Vec<Pass>,
) -> (Vec<Pass>, bool)
    requires each { AllFrom (λ n stream. MatchResult stream
        (λ h. (h.promise.board.now ≡ board.now) × (h.promise.events.now ≡ events.now) × (h.promise.caller ≡ n))
        (λ back. IsStreamedAt board.now events.now back.1 n back.0)) 0 streams.items }
    requires room { (passes.items ≡ []) × (length streams.items ≤ vec_capacity passes) }
    ensures count { (length result.0.items ≡ length streams.entry.items) × (length streams.entry.items ≤ vec_capacity result.0) }
    ensures each { AllFrom (IsStreamedAt board.entry.now events.entry.now result.1) 0 result.0.items }
{
    let mut whole = true;
    while let Some(stream) = streams.pop() {
        let (pass, posted) = join(rt, board, events, stream);
        whole &= posted;
        if let Err(_full) = passes.insert(0, pass) {
            unreachable!()
        }
    }
    (passes, whole)
}
