//! The links by calls, on states small enough to follow by hand.
use crate::same::{same, same_at};
use crate::stated::{absent, chain_of, enter, set_of, state_of};
use affinity_mask::ProcSet;
use link_table::Links;
use std::process::Abort;

/// A task that is shifted, the chain, whom that puts out, and who is on the two processors then.
static MOVES: [(u32, &str, Option<u32>, [Option<u32>; 2]); 3] = [
    (0, "0", None, [Some(0), None]),
    (1, "0>1", None, [Some(1), Some(0)]),
    (2, "1", Some(0), [Some(1), Some(2)]),
];

/// Shifts a task along the chain of a text. Answers whom that puts out, and who is on the two processors then.
fn shift(
    rt: &impl Abort,
    links: &mut Links,
    t: u32,
    chain: &str,
) -> (Option<u32>, [Option<u32>; 2]) {
    let chain = chain_of(rt, chain).expect(rt, "a chain");
    let out = enter(rt, links, t, &chain);
    assert!(rt; links.processors() == 2);
    (out, [links.on(0), links.on(1)])
}

/// The tasks come, one after the other.
fn move_all(rt: &impl Abort, links: &mut Links) {
    for (t, chain, out, on) in &MOVES {
        same_at(rt, shift(rt, links, *t, chain), (*out, *on), t);
    }
}

#[test]
fn tasks_move_along_chains(rt: HostRuntime) {
    let mut links = absent(&rt, rt.alloc(), 2, "1:0-1 3:0 2:1");
    move_all(&rt, &mut links);
}

/// A set of two processors, and the most urgent one of those who wait for a processor of it.
static WAITING: [(&str, Option<u32>); 4] = [
    ("1", Some(2)),
    ("0-1", Some(2)),
    ("0", Some(3)),
    ("-", None),
];

/// Who waits for which processors, and whom each processor can get its occupant from.
fn ask_who_waits(rt: &impl Abort, links: &Links) {
    for (set, task) in &WAITING {
        same_at(rt, links.most_urgent_in(set_of(rt, set)), *task, set);
    }
    same(
        rt,
        [links.feeders(0), links.feeders(1)],
        [ProcSet::first(2), ProcSet::one(1)],
    );
}

/// The first task departs from its processor and gets another mask.
fn leave_first(rt: &impl Abort, links: &mut Links) {
    assert!(rt; links.len() == 4);
    let Some(p) = links.of(0) else {
        return;
    };
    same(rt, [links.leave(0), p], [0, 0]);
    let mask = ProcSet::one(1);
    assert!(rt; links.len() == 4 && !links.is_ready(0));
    assert!(rt; links.processors() <= 64 && !mask.is_empty());
    assert!(rt; mask.within(&ProcSet::first(links.processors())));
    links.set_mask(0, mask);
}

/// The second task leaves its processor, and goes on waiting.
fn unlink_second(rt: &impl Abort, links: &mut Links) {
    assert!(rt; links.processors() == 2);
    assert!(rt; links.on(1).is_some());
    same(rt, links.unlink(1), 1);
}

/// The first task is absent, the second one waits, and both processors are idle.
fn ask_who_left(rt: &impl Abort, links: &Links) {
    assert!(rt; links.len() == 4);
    same(rt, links.mask(0), ProcSet::one(1));
    assert!(rt; links.is_waiting(1));
    same(rt, links.idle(), ProcSet::first(2));
    same(rt, links.most_urgent_in(ProcSet::one(1)), Some(1));
}

#[test]
fn two_wait_for_two_processors(rt: HostRuntime) {
    let mut links = state_of(&rt, rt.alloc(), 2, "-", "0@0 0-1@1 1@- 0@-");
    ask_who_waits(&rt, &links);
    leave_first(&rt, &mut links);
    unlink_second(&rt, &mut links);
    ask_who_left(&rt, &links);
}

/// The task waits for no processor, until its processor comes on line.
fn wait_for_the_processor(rt: &impl Abort, links: &mut Links) {
    assert!(rt; links.processors() == 2 && links.len() == 1);
    assert!(rt; links.effective(0).is_empty() && links.is_waiting(0));
    same(rt, links.idle(), ProcSet::one(0));
    same(rt, links.most_urgent_in(ProcSet::first(2)), None);
    assert!(rt; links.on(1).is_none());
    links.set_online(1, true);
    same(rt, links.most_urgent_in(ProcSet::first(2)), Some(0));
}

#[test]
fn a_task_waits_for_no_processor(rt: HostRuntime) {
    let mut links = state_of(&rt, rt.alloc(), 2, "1", "1@-");
    wait_for_the_processor(&rt, &mut links);
}
