//! Generated histories: after each entry the linked tasks are those that a plain greedy program takes, the links answer as
//! plain scans do, and the checker accepts the entry; after each fiftieth the searches answer as plain ones do.
use crate::best_tests::all_below;
use crate::plain::{compare_all_searches, compare_links};
use crate::stated::is_event_for;
use link_table::{Links, Reply};
use reach_certificate::{Checker, best_set};
use sched_core::Core;
use std::alloc::{AllocError, Global};
use std::process::Abort;
use task_set::{Event, TaskSet};
use trace_reader::{Input, make_input};

/// Adds a task that is ready and may run somewhere, with its effective mask, and notes its number in the links.
fn add_ready(
    rt: &impl Abort,
    alloc: Global,
    links: &Links,
    t: u32,
    set: &mut TaskSet,
    numbers: &mut Vec<u32>,
) {
    assert!(rt; t < links.len());
    let mask = links.effective(t);
    if links.is_ready(t) && !mask.is_empty() {
        let name = format!(in alloc; "t{t}").expect(rt, "memory");
        assert!(rt; set.add(&name, links.priority(t), mask).is_ok());
        assert!(rt; numbers.push(t).is_ok());
    }
}

/// The ready tasks as a set of its own, in which each has its effective mask, and their numbers in the links.
fn ready_tasks(rt: &impl Abort, alloc: Global, links: &Links) -> (TaskSet, Vec<u32>) {
    assert!(rt; links.processors() > 0);
    let mut set = TaskSet::new(alloc, links.processors()).expect(rt, "memory");
    let mut numbers = Vec::new(alloc);
    for t in 0..links.len() {
        add_ready(rt, alloc, links, t, &mut set, &mut numbers);
    }
    (set, numbers)
}

/// The places in the set of the tasks that the greedy program takes.
fn greedy(rt: &impl Abort, alloc: Global, set: &TaskSet) -> Vec<u32> {
    let all: Vec<u32> = (0..set.len()).collect(alloc).expect(rt, "memory");
    assert!(rt; all_below(&all, set.len()));
    best_set(alloc, set, &all).expect(rt, "memory")
}

/// The numbers at these places.
fn numbers_at(alloc: Global, numbers: &[u32], places: &[u32]) -> Result<Vec<u32>, AllocError> {
    let mut at = Vec::new(alloc);
    for &place in places {
        if let Some(&number) = numbers.get(place as usize) {
            at.push(number)?;
        }
    }
    Ok(at)
}

/// The tasks that are linked, in the order of their numbers, which here is that of their urgency.
fn linked_tasks(alloc: Global, links: &Links) -> Result<Vec<u32>, AllocError> {
    let mut linked = Vec::new(alloc);
    for t in 0..links.len() {
        if links.of(t).is_some() {
            linked.push(t)?;
        }
    }
    Ok(linked)
}

/// The linked tasks are those that the greedy program takes of this set, where its tasks have these numbers.
fn expect_linked(rt: &impl Abort, alloc: Global, links: &Links, set: &TaskSet, numbers: &[u32]) {
    let places = greedy(rt, alloc, set);
    let best = numbers_at(alloc, numbers, &places).expect(rt, "memory");
    let linked = linked_tasks(alloc, links).expect(rt, "memory");
    assert!(rt; linked.as_slice() == best.as_slice());
}

/// The linked tasks are those that the greedy program takes of the ready ones.
fn expect_greedy(rt: &impl Abort, alloc: Global, links: &Links) {
    let (set, numbers) = ready_tasks(rt, alloc, links);
    expect_linked(rt, alloc, links, &set, &numbers);
}

/// The change of this number: a task gets the mask of another one, or a processor goes off line or comes back.
fn change_of(rt: &impl Abort, set: &TaskSet, number: u32) -> Event {
    assert!(rt; set.len() > 0 && set.processors() > 0);
    let processors = u32::from(set.processors());
    match number % 4 {
        0 | 2 => Event::Affinity {
            task: number / 2 % set.len(),
            mask: set.mask(number / 4 % 1024 * 7 % set.len()),
        },
        1 => Event::Offline((number / 4 % 1024 * 5 % processors) as u8),
        _ => Event::Online((number / 8 % 1024 * 5 % processors) as u8),
    }
}

/// A number for each kind of reply.
fn kind_of(reply: &Reply) -> usize {
    match reply {
        Reply::Placed { .. } => 0,
        Reply::Displaced { .. } => 1,
        Reply::Waits { .. } => 2,
        Reply::Freed { .. } => 3,
        Reply::Left => 4,
        Reply::Ticked => 5,
        Reply::Masked => 6,
        Reply::Remasked { gone: None, .. } => 7,
        Reply::Remasked { gone: Some(_), .. } => 8,
        Reply::AlreadyOff => 9,
        Reply::AlreadyOn => 10,
        Reply::Off { moved: None } => 11,
        Reply::Off { moved: Some(_) } => 12,
        Reply::On { .. } => 13,
        _ => 14,
    }
}

/// Which kinds of reply came, but for those to an event of a task that is ready already, or is not.
type Reached = [bool; 15];

/// The core makes an entry, which the checker accepts. Its kind is noted.
fn step(
    rt: &impl Abort,
    core: &mut Core,
    checker: &mut Checker,
    event: Event,
    reached: &mut Reached,
) {
    assert!(rt; is_event_for(core.links(), &event));
    assert!(rt; core.apply(0, event).is_ok());
    let Some(entry) = core.history().last() else {
        return;
    };
    assert!(rt; is_event_for(checker.links(), &entry.event));
    assert!(rt; checker.accept(entry).is_ok(), "at {event:?}");
    if let Some(kind) = reached.get_mut(kind_of(&entry.reply)) {
        *kind = true;
    }
}

/// Makes an entry, and compares what is linked then.
fn follow(
    rt: &impl Abort,
    alloc: Global,
    core: &mut Core,
    checker: &mut Checker,
    event: Event,
    reached: &mut Reached,
) {
    step(rt, core, checker, event, reached);
    expect_greedy(rt, alloc, core.links());
    compare_links(rt, core.links());
    if core.history().len() % 50 == 0 {
        compare_all_searches(rt, core.links());
    }
}

/// The events of an input, with a change after each where they are wanted.
fn events_of(rt: &impl Abort, alloc: Global, input: &Input, changes: bool) -> Vec<Event> {
    let mut events = Vec::new(alloc);
    for (posted, number) in input.events().iter().zip(0u32..20_000) {
        assert!(rt; events.push(posted.event).is_ok());
        if changes {
            assert!(rt; events.push(change_of(rt, input.set(), number)).is_ok());
        }
    }
    events
}

/// Follows events.
fn follow_all(
    rt: &impl Abort,
    alloc: Global,
    core: &mut Core,
    checker: &mut Checker,
    events: &[Event],
    reached: &mut Reached,
) {
    for event in events {
        follow(rt, alloc, core, checker, *event, reached);
    }
}

/// Follows the events with a new core and this checker.
fn follow_beside(
    rt: &impl Abort,
    alloc: Global,
    set: &TaskSet,
    checker: &mut Checker,
    events: &[Event],
    reached: &mut Reached,
) {
    let mut core = Core::new(alloc, set).expect(rt, "memory");
    follow_all(rt, alloc, &mut core, checker, events, reached);
}

/// Follows the events with a new core and a new checker.
fn follow_anew(
    rt: &impl Abort,
    alloc: Global,
    set: &TaskSet,
    events: &[Event],
    reached: &mut Reached,
) {
    let mut checker = Checker::new(alloc, set).expect(rt, "memory");
    follow_beside(rt, alloc, set, &mut checker, events, reached);
}

/// Follows an input, with changes if they are wanted.
fn follow_input(
    rt: &impl Abort,
    alloc: Global,
    input: &Input,
    changes: bool,
    reached: &mut Reached,
) {
    let events = events_of(rt, alloc, input, changes);
    follow_anew(rt, alloc, input.set(), &events, reached);
}

/// Each kind of reply came.
fn expect_reached(rt: &impl Abort, reached: &Reached) {
    assert!(rt; reached.iter().take(14).all(|&came| came), "{reached:?}");
}

#[test]
fn generated_histories(rt: HostRuntime) {
    let mut reached = [false; 15];
    for number in 0u64..30 {
        follow_made(&rt, rt.alloc(), number, &mut reached);
    }
    expect_reached(&rt, &reached);
}

/// Follows a generated input; each is followed without changes and with them.
fn follow_made(rt: &impl Abort, alloc: Global, number: u64, reached: &mut Reached) {
    let input = make_input(alloc, number / 2, 6, 10, 60).expect(rt, "memory");
    follow_input(rt, alloc, &input, number % 2 == 1, reached);
}

/// Follows the events of an input with a core, and compares the searches in the end.
fn search_at_the_end(rt: &impl Abort, core: &mut Core, input: &Input) {
    for posted in input.events() {
        assert!(rt; is_event_for(core.links(), &posted.event));
        assert!(rt; core.apply(0, posted.event).is_ok());
    }
    compare_links(rt, core.links());
    compare_all_searches(rt, core.links());
}

#[test]
fn searches_over_all_processors(rt: HostRuntime) {
    let input = make_input(rt.alloc(), 2, 64, 80, 200).expect(&rt, "memory");
    search_over(&rt, rt.alloc(), &input);
}

/// Follows the events of an input with a new core, and compares the searches in the end.
fn search_over(rt: &impl Abort, alloc: Global, input: &Input) {
    let mut core = Core::new(alloc, input.set()).expect(rt, "memory");
    search_at_the_end(rt, &mut core, input);
}
