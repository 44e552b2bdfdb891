//! Who comes in first once a priority has changed, on a state small enough to follow by hand.
use crate::same::{same, same_at};
use crate::stated::{set_of, state_of};
use link_table::Links;
use std::process::Abort;

/// A task and its new priority, and the tasks that processor 0, processor 1 and both together get then.
static CHANGES: [(u32, u32, [u32; 3]); 4] = [
    (4, 5, [4, 4, 4]),
    (1, 45, [4, 4, 4]),
    (4, 70, [2, 2, 2]),
    (2, 44, [2, 3, 3]),
];

/// The most urgent tasks that wait for processor 0, for processor 1 and for one of both.
fn first_in(rt: &impl Abort, links: &Links) -> [Option<u32>; 3] {
    [
        links.most_urgent_in(set_of(rt, "0")),
        links.most_urgent_in(set_of(rt, "1")),
        links.most_urgent_in(set_of(rt, "0-1")),
    ]
}

/// Sets the priority of a task to one that nobody has.
fn set_priority(rt: &impl Abort, links: &mut Links, t: u32, priority: u32) {
    assert!(rt; t < links.len() && links.task_with(priority).is_none());
    links.set_priority(t, priority);
    same(rt, links.priority(t), priority);
}

/// Two tasks exchange their priorities.
fn exchange(rt: &impl Abort, links: &mut Links, t: u32, u: u32) {
    assert!(rt; t < links.len() && u < links.len());
    links.exchange_priorities(t, u);
}

/// The changes, one after the other.
fn change_all(rt: &impl Abort, links: &mut Links) {
    for (t, priority, [zero, one, both]) in &CHANGES {
        set_priority(rt, links, *t, *priority);
        let first = [Some(*zero), Some(*one), Some(*both)];
        same_at(rt, first_in(rt, links), first, t);
    }
}

/// Tasks 1 and 2 wait with priorities 45 and 44: the other way round task 1 comes first.
fn exchange_last(rt: &impl Abort, links: &mut Links) {
    exchange(rt, links, 1, 2);
    same(rt, first_in(rt, links), [Some(1), Some(3), Some(3)]);
    same(
        rt,
        [
            links.task_with(44),
            links.task_with(45),
            links.task_with(30),
        ],
        [Some(1), Some(2), None],
    );
}

#[test]
fn waiting_tasks_change_places(rt: HostRuntime) {
    let tasks = "10:0-1@0 20:0@- 30:0-1@- 40:1@- 50:0-1@- 60:1@1";
    let mut links = state_of(&rt, rt.alloc(), 2, "-", tasks);
    same(&rt, first_in(&rt, &links), [Some(1), Some(2), Some(1)]);
    change_all(&rt, &mut links);
    exchange_last(&rt, &mut links);
}
