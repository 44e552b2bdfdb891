//! Sets of tasks, the fields that name and number them, and what is said of their faults.
use crate::same::{same, same_at};
use affinity_mask::{MaskFault, OutOfMemory, ProcSet};
use sched_core::CoreFault;
use schedule_text::TextKind;
use std::alloc::{AllocError, Global};
use std::fmt::Display;
use std::process::Abort;
use std::str;
use strong_apa::{Chain, Entry, Reply};
use task_set::{Event, MAX_TASKS, TaskFault, TaskSet};
use text_fields::{is_word, read_number, task_of, write_number};

/// Calls of `add` on one set of two processors: a name, a priority, how many processors the mask has from 0 on, and the
/// answer.
static CALLS: [(&str, u32, u8, Result<u32, TaskFault>); 13] = [
    ("a", 1, 0, Err(TaskFault::EmptyMask)),
    ("9a", 1, 1, Err(TaskFault::BadName)),
    ("", 1, 1, Err(TaskFault::BadName)),
    ("a b", 1, 1, Err(TaskFault::BadName)),
    (
        "abcdefghijklmnopqrstuvwxyz_012345",
        1,
        1,
        Err(TaskFault::BadName),
    ),
    ("a", 1, 1, Ok(0)),
    ("a", 1, 0, Err(TaskFault::SameName(0))),
    ("b", 1, 0, Err(TaskFault::SamePriority(0))),
    ("b", 2, 3, Err(TaskFault::OutsideMask(2))),
    ("_b.0-Z", 2, 2, Ok(1)),
    ("_b.0-Z", 1, 1, Err(TaskFault::SameName(1))),
    ("c", 2, 1, Err(TaskFault::SamePriority(1))),
    ("abcdefghijklmnopqrstuvwxyz_01234", 0, 2, Ok(2)),
];

/// The task is in the set as it was added.
fn is_added(rt: &impl Abort, set: &TaskSet, t: u32, name: &str, priority: u32, mask: ProcSet) {
    assert!(rt; t < set.len());
    same(rt, set.name(t), name);
    same(rt, (set.priority(t), set.mask(t)), (priority, mask));
}

/// Each call answers so. A task that was added is in the set.
fn add_all(rt: &impl Abort, set: &mut TaskSet) {
    for (name, priority, width, answer) in &CALLS {
        assert!(rt; *width <= 64);
        let mask = ProcSet::first(*width);
        same_at(rt, set.add(name, *priority, mask), *answer, name);
        if let Ok(t) = *answer {
            is_added(rt, set, t, name, *priority, mask);
        }
    }
}

/// Names, each with the number of its task.
static NAMES: [(&[u8], Option<u32>); 7] = [
    (b"a", Some(0)),
    (b"_b.0-Z", Some(1)),
    (b"_b.0-", None),
    (b"a ", None),
    (b"b", None),
    (b"", None),
    (b"\xff", None),
];

/// The names are found, and there are three tasks on two processors.
fn find_all(rt: &impl Abort, set: &TaskSet) {
    for (name, want) in &NAMES {
        same_at(rt, task_of(set, name), *want, name);
    }
    same(rt, [set.find("_b.0-Z"), set.find("b")], [Some(1), None]);
    assert!(rt; set.processors() == 2 && set.len() == 3);
}

#[test]
fn tasks_by_calls(rt: HostRuntime) {
    let mut set = TaskSet::new(rt.alloc(), 2).expect(&rt, "memory");
    add_all(&rt, &mut set);
    find_all(&rt, &set);
}

/// Adds as many tasks as a set may have.
fn fill(rt: &impl Abort, alloc: Global, set: &mut TaskSet) {
    for t in 0..MAX_TASKS as u32 {
        let name = format!(in alloc; "t{t}").expect(rt, "memory");
        same(rt, set.add(&name, t, ProcSet::one(0)), Ok(t));
    }
}

/// Tasks that a full set refuses: a name, a priority, and why.
static REFUSED: [(&str, u32, TaskFault); 3] = [
    ("one_more", 5000, TaskFault::Many),
    ("t0", 0, TaskFault::Many),
    ("9", 0, TaskFault::BadName),
];

/// The set, which is full, refuses the tasks.
fn is_full(rt: &impl Abort, set: &mut TaskSet) {
    for (name, priority, fault) in &REFUSED {
        same_at(
            rt,
            set.add(name, *priority, ProcSet::one(0)),
            Err(*fault),
            name,
        );
    }
}

#[test]
fn full_set_refuses(rt: HostRuntime) {
    let mut set = TaskSet::new(rt.alloc(), 1).expect(&rt, "memory");
    fill(&rt, rt.alloc(), &mut set);
    is_full(&rt, &mut set);
}

/// Fields, each with bounds and the number that it is read as.
static READ: [(&str, u64, u64, Option<u64>); 17] = [
    ("0", 0, 9, Some(0)),
    ("007", 0, 9, Some(7)),
    ("0064", 1, 64, Some(64)),
    ("000000000000000000000000000000000000001", 1, 1, Some(1)),
    ("10", 0, 9, None),
    ("65", 1, 64, None),
    ("0", 1, 9, None),
    ("0", 1, 64, None),
    ("", 0, 9, None),
    ("+7", 0, 9, None),
    ("+1", 1, 64, None),
    ("-7", 0, 9, None),
    ("7 ", 0, 9, None),
    ("1 ", 1, 64, None),
    ("18446744073709551615", 0, u64::MAX, Some(u64::MAX)),
    ("0018446744073709551615", 0, u64::MAX, Some(u64::MAX)),
    ("18446744073709551616", 0, u64::MAX, None),
];

#[test]
fn numbers_are_read(rt: HostRuntime) {
    for (field, least, most, want) in &READ {
        same_at(
            &rt,
            read_number(field.as_bytes(), *least, *most),
            *want,
            field,
        );
        same(
            &rt,
            trace_reader::read_number(field.as_bytes(), *least, *most),
            *want,
        );
    }
}

#[test]
fn numbers_are_written(rt: HostRuntime) {
    let mut text = Vec::new(rt.alloc());
    for number in [0, 63, 4294967295, u64::MAX] {
        assert!(rt; write_number(&mut text, number).is_ok());
        assert!(rt; text.push(b' ').is_ok());
    }
    same(
        &rt,
        str::from_utf8(&text),
        Ok("0 63 4294967295 18446744073709551615 "),
    );
}

#[test]
fn words_are_whole(rt: HostRuntime) {
    for (field, want) in [
        ("tick", true),
        ("ticks", false),
        ("tic", false),
        ("Tick", false),
    ] {
        same_at(&rt, is_word(field.as_bytes(), "tick"), want, &field);
    }
}

/// What equality of entries is: the derived one.
#[test]
fn copies_are_equal(rt: HostRuntime) {
    let mut chain = Chain::new();
    chain.push(2);
    chain.push(0);
    chain.push(63);
    same(&rt, [chain.at(0), chain.at(1), chain.at(2)], [2, 0, 63]);
    let entry = Entry {
        caller: 3,
        event: Event::Depart(7),
        reply: Reply::Freed {
            entered: Some(9),
            chain: chain.reversed(),
            back: ProcSet::first(3),
        },
    };
    same(&rt, entry.copy(), entry);
}

fn refused() -> Result<(), OutOfMemory> {
    Err(AllocError)?
}

/// The sentences of the faults of lists.
static OF_LISTS: [(MaskFault, &str); 4] = [
    (MaskFault::Empty, "the processor list has no bytes"),
    (
        MaskFault::BadItem { place: 2 },
        "at 2 stands no number and no range of numbers",
    ),
    (
        MaskFault::Backward { place: 0 },
        "the range at 0 begins above its end",
    ),
    (
        MaskFault::Large { place: 7 },
        "the item at 7 has a number above 63",
    ),
];

/// Those of the refusals of tasks.
static OF_TASKS: [(TaskFault, &str); 7] = [
    (TaskFault::BadName, "the text is no name of a task"),
    (TaskFault::Many, "the set of tasks is full"),
    (TaskFault::SameName(3), "task 3 has the name"),
    (TaskFault::SamePriority(4), "task 4 has the priority"),
    (TaskFault::EmptyMask, "the mask has no processor"),
    (
        TaskFault::OutsideMask(9),
        "the mask has processor 9, which is not there",
    ),
    (TaskFault::OutOfMemory, "out of memory"),
];

/// Those of the faults of a core.
static OF_CORES: [(CoreFault, &str); 3] = [
    (CoreFault::Closed, "the core is closed"),
    (CoreFault::Full, "the history is full"),
    (CoreFault::OutOfMemory, "out of memory"),
];

/// The sentence of a fault is this one.
fn is_told(rt: &impl Abort, alloc: Global, fault: &impl Display, sentence: &str) {
    let told = format!(in alloc; "{fault}").expect(rt, "memory");
    same(rt, told.as_str(), sentence);
}

/// The sentence of each fault is the one beside it.
fn are_told<F: Display>(rt: &impl Abort, alloc: Global, rows: &[(F, &str)]) {
    for (fault, sentence) in rows {
        is_told(rt, alloc, fault, sentence);
    }
}

#[test]
fn faults_are_told_in_words(rt: HostRuntime) {
    same(&rt, refused(), Err(OutOfMemory));
    same(&rt, TextKind::OutOfMemory.number(), None);
    is_told(&rt, rt.alloc(), &OutOfMemory, "out of memory");
    are_told(&rt, rt.alloc(), &OF_LISTS);
    are_told(&rt, rt.alloc(), &OF_TASKS);
    are_told(&rt, rt.alloc(), &OF_CORES);
}
