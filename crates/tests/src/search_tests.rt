//! What the searches say of states that are worked by hand, most of which no run comes to.
use crate::same::same_at;
use crate::stated::{chain_of, set_of, state_of};
use link_table::Links;
use path_search::{back_chain, back_set, chain_to, chain_to_idle, reach};
use std::alloc::{AllocError, Global};
use std::process::Abort;

/// How many processors there are, the tasks, a task, a processor, and what the calls say of these: what the task reaches, its
/// least chain to an idle processor and to the processor, what back chains to the processor lead back to, and the least one
/// by which the task can enter.
type Row = (u8, &'static str, u32, u8, [&'static str; 5]);

static ROWS: [Row; 10] = [
    // A chain through all occupants; the same when the last one is gone.
    (
        3,
        "0-1@0 1-2@1 2@2 0",
        3,
        2,
        ["0-2", "", "0>1>2", "0-2", "2>1>0"],
    ),
    (
        3,
        "0-1@0 1-2@1 2 0",
        3,
        2,
        ["0-2", "0>1>2", "0>1>2", "0-2", "2>1>0"],
    ),
    // A task on 0 that may not move, and one on 1 that may; the same when the first or the second one is gone.
    (2, "0@0 0-1@1 1 0", 3, 1, ["0", "", "", "1", ""]),
    (2, "0 0-1@1 1 0", 2, 0, ["0-1", "1>0", "1>0", "0-1", "0>1"]),
    (2, "0@0 0-1 1 0", 3, 1, ["0", "", "", "1", ""]),
    // Two idle processors at equal length.
    (3, "0-2@0 0", 1, 2, ["0-2", "0>1", "0>2", "0,2", "2>0"]),
    // The first processor decides before the last one.
    (
        5,
        "0,4@0 1,3@1 0-1",
        2,
        3,
        ["0-1,3-4", "0>4", "1>3", "1,3", "3>1"],
    ),
    // The shorter chain is less, whatever its processors.
    (4, "0-1@0 0,3", 1, 1, ["0-1,3", "3", "0>1", "0-1", "1>0"]),
    // A back chain is compared from the idle processor on: the least is not the least chain reversed.
    (
        5,
        "0-1@1 0,2@2 2-3@3 1,4@4 3-4",
        4,
        0,
        ["0-4", "3>2>0", "3>2>0", "0-4", "0>1>4"],
    ),
    // The least predecessor of an end need not be on the least chain to it, in either direction.
    (
        6,
        "0,4@0 1,5@1 0,2@2 4-5@5 1-2",
        4,
        4,
        ["0-2,4-5", "1>5>4", "1>5>4", "0-2,4-5", "4>0>2"],
    ),
];

/// Compares what the calls say of a task and a processor.
fn compare(rt: &impl Abort, links: &Links, t: u32, p: u8, answers: &[&str; 5]) {
    let [ends, to_idle, to_p, back, back_by] = answers;
    assert!(rt; t < links.len() && p < links.processors());
    same_at(
        rt,
        [reach(links, t), back_set(links, p)],
        [set_of(rt, ends), set_of(rt, back)],
        answers,
    );
    same_at(
        rt,
        [
            chain_to_idle(links, t),
            chain_to(links, t, p),
            back_chain(links, t, p),
        ],
        [
            chain_of(rt, to_idle),
            chain_of(rt, to_p),
            chain_of(rt, back_by),
        ],
        answers,
    );
}

/// Compares the answers to a row.
fn compare_row(rt: &impl Abort, alloc: Global, row: &Row) {
    let (processors, tasks, t, p, answers) = row;
    let links = state_of(rt, alloc, *processors, "-", tasks);
    compare(rt, &links, *t, *p, answers);
}

#[test]
fn searches_by_calls(rt: HostRuntime) {
    for row in &ROWS {
        compare_row(&rt, rt.alloc(), row);
    }
}

/// Tasks that may move on by one processor, each on that of its number, and one that may run on the first alone.
fn stairs(alloc: Global) -> Result<String, AllocError> {
    let mut tasks = String::new(alloc);
    for p in 0u32..63 {
        write!(tasks, "{p}-{}@{p} ", p + 1)?;
    }
    write!(tasks, "0")?;
    Ok(tasks)
}

/// All processors, from the first to the last.
fn all_processors(alloc: Global) -> Result<String, AllocError> {
    let mut onward = String::new(alloc);
    for p in 0u32..63 {
        write!(onward, "{p}>")?;
    }
    write!(onward, "63")?;
    Ok(onward)
}

/// All processors, from the last to the first.
fn all_back(alloc: Global) -> Result<String, AllocError> {
    let mut back = String::new(alloc);
    for p in 0u32..63 {
        write!(back, "{}>", 63 - p)?;
    }
    write!(back, "0")?;
    Ok(back)
}

/// Each processor but the last is occupied, and its task may move on by one.
#[test]
fn the_longest_chain(rt: HostRuntime) {
    let tasks = stairs(rt.alloc()).expect(&rt, "memory");
    let links = state_of(&rt, rt.alloc(), 64, "-", &tasks);
    compare_longest(&rt, rt.alloc(), &links);
}

/// Compares the answers to the last task and the last processor of all.
fn compare_longest(rt: &impl Abort, alloc: Global, links: &Links) {
    let onward = all_processors(alloc).expect(rt, "memory");
    let back = all_back(alloc).expect(rt, "memory");
    let (onward, back) = (onward.as_str(), back.as_str());
    compare(rt, links, 63, 63, &["0-63", onward, onward, "0-63", back]);
}
