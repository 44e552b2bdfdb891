//! Texts that are read and written back, and what no status tells of the faults of texts.
use crate::same::{same, same_at};
use affinity_mask::MaskFault;
use schedule_text::{Schedule, TextFault, TextKind, read_schedule, write_schedule};
use std::alloc::{AllocError, Global};
use std::process::Abort;
use std::str;
use task_set::TaskFault;
use trace_reader::{InputFault, InputKind, read_input, write_input};

const SMALLEST: &str = "apa 1\nprocessors 1\ntask a 5 0\n0 arrive a\nend\n";

/// Texts of inputs, and what is written for the input of each.
static INPUTS: [(&str, &str); 5] = [
    (SMALLEST, SMALLEST),
    (
        "\n# comment\n\tapa  01 \nprocessors 1\n \t \ntask\ta 05 0,0-0\n#\n 00 arrive a\nend\n\n# done\n",
        SMALLEST,
    ),
    ("apa 1\nprocessors 1\ntask a 5 0\n0 arrive a\nend", SMALLEST),
    (
        "apa 1\nprocessors 64\ntask a 4294967295 0-63\ntask b 0 3,1,2,5\n15 arrive b\n0 tick 1000000\n7 depart a\nend\n",
        "apa 1\nprocessors 64\ntask a 4294967295 0-63\ntask b 0 1-3,5\n15 arrive b\n0 tick 1000000\n7 depart a\nend\n",
    ),
    (
        "apa 02\nprocessors 4\ntask a 1 0-3\n0 affinity a 3,1,1\n1 offline 02\n15 online 2\n0 arrive a\nend\n",
        "apa 2\nprocessors 4\ntask a 1 0-3\n0 affinity a 1,3\n1 offline 2\n15 online 2\n0 arrive a\nend\n",
    ),
];

/// The text that is written for the input of this one.
fn written_input(rt: &impl Abort, alloc: Global, text: &str) -> Vec<u8> {
    let input = read_input(alloc, text.as_bytes()).expect(rt, "an input");
    write_input(alloc, &input).expect(rt, "memory")
}

#[test]
fn inputs_are_written(rt: HostRuntime) {
    for (text, want) in &INPUTS {
        let written = written_input(&rt, rt.alloc(), text);
        same(&rt, str::from_utf8(&written), Ok(*want));
    }
}

/// Lines after those of the smallest input's processors, each with the kind of its fault.
static INPUT_FAULTS: [(&str, u64, InputKind); 9] = [
    (
        "processors 1\ntask a 1 0,,1",
        3,
        InputKind::BadMask(MaskFault::BadItem { place: 2 }),
    ),
    (
        "processors 2\ntask a 1 0-2",
        3,
        InputKind::TaskRefused(TaskFault::OutsideMask(2)),
    ),
    (
        "processors 1\ntask 9a 1 0",
        3,
        InputKind::TaskRefused(TaskFault::BadName),
    ),
    (
        "processors 1\ntask a 1 0\ntask b 1 0",
        4,
        InputKind::TaskRefused(TaskFault::SamePriority(0)),
    ),
    (
        "processors 1\ntask a 1 0\ntask a 2 0",
        4,
        InputKind::TaskRefused(TaskFault::SameName(0)),
    ),
    (
        "processors 2\ntask a 1 0\n0 affinity a 2",
        4,
        InputKind::OutsideAffinity(2),
    ),
    (
        "processors 2\ntask a 1 0\n0 affinity a 63,0-1,5-7",
        4,
        InputKind::OutsideAffinity(5),
    ),
    (
        "processors 2\ntask a 1 0\n0 affinity a 1-0",
        4,
        InputKind::BadMask(MaskFault::Backward { place: 0 }),
    ),
    (
        "processors 2\ntask a 1 0\n0 affinity q 0,64",
        4,
        InputKind::BadMask(MaskFault::Large { place: 2 }),
    ),
];

/// The first fault of a text of an input, if it has one.
fn input_fault(alloc: Global, text: &str) -> Option<InputFault> {
    read_input(alloc, text.as_bytes()).err()
}

#[test]
fn faults_of_inputs(rt: HostRuntime) {
    for (lines, line, kind) in &INPUT_FAULTS {
        let text = format!(in rt.alloc(); "apa 2\n{lines}\n").expect(&rt, "memory");
        let fault = InputFault {
            line: *line,
            kind: *kind,
        };
        same_at(&rt, input_fault(rt.alloc(), &text), Some(fault), lines);
    }
}

/// A text with one event more than an input may have, of which the last one has a fault of its own.
fn long_text(alloc: Global) -> Result<String, AllocError> {
    let mut text = String::from_str(alloc, "apa 2\nprocessors 2\ntask a 1 0\n")?;
    for _ in 0..20_000 {
        text.push_str("0 tick 1\n")?;
    }
    text.push_str("0 affinity a 2\n")?;
    Ok(text)
}

#[test]
fn one_event_too_many(rt: HostRuntime) {
    let text = long_text(rt.alloc()).expect(&rt, "memory");
    let (line, kind) = (20_004, InputKind::ManyEvents);
    same(
        &rt,
        input_fault(rt.alloc(), &text),
        Some(InputFault { line, kind }),
    );
}

/// Texts of schedules with each kind of event and of reply, of tasks some of which have words of the format as names.
static SCHEDULES: [(u8, &str); 5] = [
    (
        1,
        "schedule 1\nprocessors 1\ntask a 5 0\nhistory 1\n0 arrive a placed 0\n\
contexts 1\na units 0 stints 1 moves 0 last 0 trail 0\nend\n",
    ),
    (1, "schedule 1\nprocessors 64\nhistory 0\ncontexts 0\nend\n"),
    (
        1,
        "schedule 1\nprocessors 4\ntask a 2 0-1\ntask b 3 1-2\ntask c 9 2-3\ntask w1 4294967295 0,2-3\n\
history 11\n\
0 arrive a placed 0>1>2\n\
15 arrive b placed -\n\
0 arrive b displaced 0>1>2 out c reach 0-2\n\
0 arrive w1 waits 0,2-3\n\
2 arrive c waits -\n\
0 depart a freed 0>1 enters w1 back 0-1\n\
0 depart a freed 0 enters - back 0\n\
7 depart w1 left\n\
0 tick 1000000 ticked\n\
0 arrive a already\n\
0 depart c absent\n\
contexts 4\n\
a units 0 stints 0 moves 0 last - trail 0\n\
b units 0 stints 0 moves 0 last - trail 1\n\
c units 18446744073709551615 stints 2 moves 1 last 63 trail 6364136223846793647\n\
w1 units 10 stints 0 moves 3 last - trail 641\n\
end\n",
    ),
    (
        2,
        "schedule 2\nprocessors 4\ntask a 2 0-1\ntask then 3 1-2\ntask left 9 2-3\n\
history 7\n\
0 affinity a 0,2-3 masked\n\
1 affinity then 1 remasked left then placed 1>2\n\
0 affinity left 2-3 remasked left then displaced 2 out then reach 2-3\n\
0 affinity a 0 remasked left then waits -\n\
0 affinity a 1 remasked freed 0 enters - back 0-1 then waits 1\n\
2 affinity then 0-3 remasked freed 0>1 enters then back 0-1 then placed 3\n\
0 affinity then 1 remasked freed 0 enters left back 0 then displaced 0 out then reach 0\n\
contexts 3\n\
a units 0 stints 0 moves 0 last - trail 0\n\
then units 0 stints 0 moves 0 last - trail 1\n\
left units 0 stints 0 moves 0 last - trail 2\n\
end\n",
    ),
    (
        2,
        "schedule 2\nprocessors 4\ntask a 2 0-1\ntask then 3 1-2\ntask left 9 2-3\n\
history 8\n\
0 offline 3 already_off\n\
0 offline 0 off -\n\
0 offline 1 off then then placed 2\n\
0 offline 1 off a then displaced 1 out left reach 1,3\n\
0 offline 2 off left then waits -\n\
0 online 3 already_on\n\
0 online 0 on 0 enters - back 0\n\
15 online 2 on 2>1 enters then back 1-2\n\
contexts 3\n\
a units 0 stints 0 moves 0 last - trail 0\n\
then units 0 stints 0 moves 0 last - trail 1\n\
left units 0 stints 0 moves 0 last - trail 2\n\
end\n",
    ),
];

/// The text of a schedule.
fn written_schedule(rt: &impl Abort, alloc: Global, schedule: &Schedule) -> Vec<u8> {
    let (set, entries, contexts) = (schedule.set(), schedule.entries(), schedule.contexts());
    write_schedule(alloc, schedule.version(), set, entries, contexts).expect(rt, "memory")
}

/// What is read from a text is of this version, and is written as this text.
fn expect_round_trip(rt: &impl Abort, alloc: Global, version: u8, text: &str) {
    let schedule = read_schedule(alloc, text.as_bytes()).expect(rt, "a schedule");
    same(rt, schedule.version(), version);
    let written = written_schedule(rt, alloc, &schedule);
    same(rt, str::from_utf8(&written), Ok(text));
}

#[test]
fn schedules_are_written(rt: HostRuntime) {
    for (version, text) in &SCHEDULES {
        expect_round_trip(&rt, rt.alloc(), *version, text);
    }
}

/// Texts of schedules with a task that is refused, its line and why.
static SCHEDULE_FAULTS: [(&[u8], u64, TaskFault); 3] = [
    (
        b"schedule 1\nprocessors 1\ntask a 5 1\n",
        3,
        TaskFault::OutsideMask(1),
    ),
    (
        b"schedule 1\nprocessors 1\ntask \xff 5 0\n",
        3,
        TaskFault::BadName,
    ),
    (
        b"schedule 1\nprocessors 1\ntask a 5 0\ntask b 5 0\n",
        4,
        TaskFault::SamePriority(0),
    ),
];

/// The first fault of a text of a schedule, if it has one.
fn schedule_fault(alloc: Global, text: &[u8]) -> Option<TextFault> {
    read_schedule(alloc, text).err()
}

#[test]
fn faults_of_schedules(rt: HostRuntime) {
    for (text, line, fault) in &SCHEDULE_FAULTS {
        let fault = TextFault {
            line: *line,
            kind: TextKind::TaskRefused(*fault),
        };
        same_at(&rt, schedule_fault(rt.alloc(), text), Some(fault), text);
    }
}
