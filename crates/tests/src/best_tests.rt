//! Certificates and best sets of states that are worked by hand.
ghost use Rattle.std.specs.Prelude.{◌<◌, IsTrue, All};

use crate::same::same_at;
use crate::stated::{set_of, state_of, tasks_of};
use link_table::Links;
use reach_certificate::{all_certified, best_set, is_certificate};
use std::alloc::Global;
use std::process::Abort;
use task_set::TaskSet;

/// The processors that are off line, of two; four tasks; a set for each; and whether these certify the tasks that wait.
type Row = (&'static str, &'static str, [&'static str; 4], bool);

static CERTIFIED: [Row; 9] = [
    ("-", "0@0 0-1@1 1@- 0@-", ["-", "-", "0-1", "0"], true),
    ("-", "0@0 0-1@1 1@- 0@-", ["-", "-", "1", "0"], false),
    // The third task may run on 0 alone.
    ("-", "0@0 0-1@1 0@- 0@-", ["-", "-", "0", "0"], true),
    ("-", "0@0 0-1@1 0@- 0@-", ["-", "-", "0-1", "0"], true),
    ("-", "0@0 0-1@1 0@- 0@-", ["-", "-", "1", "0"], false),
    // The empty set certifies the third task, which has no processor to run on; nobody is on 1.
    ("1", "0@0 0-1@- 1@- 0@-", ["-", "0", "-", "0"], true),
    ("1", "0@0 0-1@- 1@- 0@-", ["-", "0", "0", "0"], true),
    ("1", "0@0 0-1@- 1@- 0@-", ["-", "0-1", "-", "0"], false),
    ("1", "0@0 0-1@- 1@- 0@-", ["-", "0", "1", "0"], false),
];

/// Whether the sets certify the tasks that wait, and the last one that the last task does.
fn are_certified(rt: &impl Abort, links: &Links, sets: &[&str; 4]) -> (bool, bool) {
    let [a, b, c, d] = sets;
    let sets = [set_of(rt, a), set_of(rt, b), set_of(rt, c), set_of(rt, d)];
    assert!(rt; links.len() == 4);
    (
        all_certified(links, &sets),
        is_certificate(links, 3, sets[3]),
    )
}

/// Compares the answers to a row. The last set certifies the last task in each.
fn compare(rt: &impl Abort, alloc: Global, row: &Row) {
    let (off, tasks, sets, certify) = row;
    let links = state_of(rt, alloc, 2, off, tasks);
    same_at(rt, are_certified(rt, &links, sets), (*certify, true), sets);
}

#[test]
fn certificates_by_calls(rt: HostRuntime) {
    for row in &CERTIFIED {
        compare(&rt, rt.alloc(), row);
    }
}

/// Both processors certify the last task too, which may run on the first alone.
#[test]
fn a_wide_certificate(rt: HostRuntime) {
    let row: Row = ("-", "0@0 0-1@1 1@- 0@-", ["-", "-", "0-1", "0-1"], true);
    compare(&rt, rt.alloc(), &row);
}

/// Whether each number of the list is below n.
pub(crate) fn all_below(tasks: &[u32], n: u32) -> bool
    ensures { IsTrue result → All (λ t. t < n) tasks.now }
{
    tasks.iter().all(|&t| t < n)
}

/// Ready tasks, and the best set of them.
type Ready = (&'static [u32], &'static [u32]);

/// Of four tasks on two processors.
static BEST_OF_FOUR: [Ready; 2] = [(&[0, 1, 2, 3], &[0, 1]), (&[1, 2, 3], &[1, 2])];

/// Of six tasks on four processors. Each takes the least processor that it can; the fourth and the last move those before
/// them along.
static BEST_OF_SIX: [Ready; 7] = [
    (&[], &[]),
    // The fourth moves the first two: a chain of three processors.
    (&[3, 0, 1], &[0, 1, 3]),
    // The fourth moves the first three: a chain of four, and the fifth finds no place.
    (&[4, 3, 2, 1, 0], &[0, 1, 2, 3]),
    (&[1, 4, 0, 3], &[0, 1, 3, 4]),
    // The last keeps the fourth out, although the fourth alone has a place.
    (&[3, 5], &[5]),
    (&[3], &[3]),
    (&[0, 1, 2, 3, 4, 5], &[5, 0, 1, 2]),
];

/// The best set of these tasks is the expected one.
fn expect_best(rt: &impl Abort, alloc: Global, set: &TaskSet, ready: &[u32], expected: &[u32]) {
    assert!(rt; all_below(ready, set.len()));
    let best = best_set(alloc, set, ready).expect(rt, "memory");
    assert!(rt; best.as_slice() == expected, "of {ready:?}");
}

/// Each row has its best set.
fn expect_all(rt: &impl Abort, alloc: Global, set: &TaskSet, rows: &[Ready]) {
    for (ready, expected) in rows {
        expect_best(rt, alloc, set, ready, expected);
    }
}

#[test]
fn best_sets_of_four(rt: HostRuntime) {
    let set = tasks_of(&rt, rt.alloc(), 2, "0 0-1 1 0");
    expect_all(&rt, rt.alloc(), &set, &BEST_OF_FOUR);
}

#[test]
fn best_sets_of_six(rt: HostRuntime) {
    let set = tasks_of(&rt, rt.alloc(), 4, "20:0-1 30:1-2 40:2-3 50:0 60:0-3 10:0");
    expect_all(&rt, rt.alloc(), &set, &BEST_OF_SIX);
}
