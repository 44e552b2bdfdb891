//! Histories that are followed by hand, with entries that have a defect between their own: what the checker says of each entry,
//! and what both the checker and the core have in the end.
use crate::same::{same, same_at};
use crate::stated::is_event_for;
use reach_certificate::{Checker, Defect};
use sched_core::{Core, CoreFault};
use schedule_text::{Schedule, read_schedule};
use std::alloc::{AllocError, Global};
use std::process::Abort;
use strong_apa::Entry;
use task_set::{Context, Event, Order, TaskSet};
use trace_reader::{Input, read_input};

/// A history. Its lines are as in a schedule text.
struct Row {
    /// The lines of the processors and of the tasks.
    head: &'static str,

    /// The line of a task that there is not.
    nobody: &'static str,

    /// A line for each entry, a colon and its defect, or `ok`. What is refused changes nothing, so the next entry is judged on
    /// the same links.
    entries: &'static str,

    /// The contexts of the tasks in the end.
    contexts: &'static str,

    /// The orders to each processor, once the core is closed: a task that is taken with the number of its stint, `-` and a task
    /// that is released, `+` and the units of a run, and `.` for the end.
    orders: &'static str,
}

static ROWS: [Row; 7] = [
    // Arrivals, departures and ticks.
    Row {
        head: "processors 3\ntask a 2 0-1\ntask b 3 1-2\ntask c 9 2\ntask d 1 0\ntask e 5 0\ntask f 10 0\n",
        nobody: "task nobody 11 0\n",
        entries: "\
            0 arrive a placed 0: ok\n\
            0 arrive b placed 1: ok\n\
            0 arrive c placed 2: ok\n\
            0 arrive a already: ok\n\
            0 arrive d left: WrongReply\n\
            0 arrive d already: WrongReply\n\
            0 arrive a waits 0-2: WrongReply\n\
            0 tick 1 already: WrongReply\n\
            0 arrive d placed -: BadChain(0)\n\
            0 arrive d placed 1: BadChain(0)\n\
            0 arrive d displaced 0>2 out c reach 0-2: BadChain(1)\n\
            0 arrive d displaced 0>1>3 out c reach 0-2: BadChain(2)\n\
            0 arrive d displaced 0>1>1 out b reach 0-2: BadChain(2)\n\
            0 arrive d placed 0>1>2: BadChain(2)\n\
            0 arrive d displaced 0>1>2 out c reach -: BadSet(0)\n\
            0 arrive d displaced 0>1>2 out c reach 0-1: BadSet(1)\n\
            0 arrive d displaced 0>1>2 out c reach 0-3: BadSet(3)\n\
            0 arrive d displaced 0>1 out b reach 0-2: BadSet(2)\n\
            0 arrive d waits 0-2: BadSet(0)\n\
            0 arrive e waits 0-2: BadSet(2)\n\
            0 arrive d displaced 0>1>2 out b reach 0-2: WrongTask(2)\n\
            0 arrive f displaced 0>1>2 out c reach 0-2: WrongTask(2)\n\
            0 arrive a displaced 0>1>2 out nobody reach 0-2: WrongReply\n\
            0 arrive d displaced 0>1>3 out nobody reach 0-1: BadChain(2)\n\
            0 arrive d displaced 0>1>2 out nobody reach 0-1: BadSet(1)\n\
            0 arrive d displaced 0>1>2 out nobody reach 0-2: WrongTask(2)\n\
            0 arrive f waits 0-2: ok\n\
            0 depart f freed 0 enters - back 0: WrongReply\n\
            0 depart f left: ok\n\
            0 depart f left: WrongReply\n\
            0 depart f absent: ok\n\
            0 arrive d displaced 0>1>2 out c reach 0-2: ok\n\
            0 depart d freed 1 enters - back 0-2: BadChain(0)\n\
            0 depart d freed 0>1 enters - back 0-2: BadChain(1)\n\
            0 depart d freed 0>2 enters c back 0-2: BadChain(1)\n\
            0 depart d freed 0>1>2 enters c back 1-2: BadSet(0)\n\
            0 depart d freed 0>1>2 enters c back 0-1: BadSet(2)\n\
            0 depart d freed 0>1>2 enters c back 0-3: BadSet(3)\n\
            0 depart d freed 0 enters - back 0-2: WrongTask(2)\n\
            0 depart d freed 0>1>2 enters a back 0-2: WrongTask(2)\n\
            0 depart d freed 0>1 enters c back 0-2: WrongTask(2)\n\
            0 depart d freed 0>2 enters nobody back 1-2: BadChain(1)\n\
            0 depart d freed 0>1>2 enters nobody back 1-2: BadSet(0)\n\
            0 depart d freed 0>1>2 enters nobody back 0-2: WrongTask(2)\n\
            0 depart d freed 0>1>2 enters c back 0-2: ok\n\
            0 depart c freed 2 enters e back 0-2: WrongTask(4)\n\
            0 depart c freed 2 enters nobody back 0-2: WrongTask(6)\n\
            0 depart c freed 2 enters - back 0-2: ok\n\
            0 tick 3 ticked: ok\n",
        contexts: "\
            a units 3 stints 3 moves 2 last 0 trail 192\n\
            b units 3 stints 3 moves 2 last 1 trail 6364136223846793198\n\
            c units 0 stints 2 moves 0 last 2 trail 2\n\
            d units 0 stints 1 moves 0 last 0 trail 3\n\
            e units 0 stints 0 moves 0 last - trail 4\n\
            f units 0 stints 0 moves 0 last - trail 5\n\
            nobody units 0 stints 0 moves 0 last - trail 6\n",
        orders: "\
            0/0 -0 3/0 -3 0/2 +3 -0 .\n\
            1/0 -1 0/1 -0 1/2 +3 -1 .\n\
            2/0 -2 1/1 -1 2/1 -2 .\n",
    },
    // A task moves for another one, and both run.
    Row {
        head: "processors 2\ntask a 1 0-1\ntask b 2 0\n",
        nobody: "",
        entries: "\
            0 arrive a placed 0: ok\n\
            0 tick 10 ticked: ok\n\
            3 arrive b placed 0>1: ok\n\
            0 tick 5 ticked: ok\n\
            0 depart b freed 0 enters - back 0-1: ok\n\
            0 tick 1 ticked: ok\n",
        contexts: "\
            a units 16 stints 2 moves 1 last 1 trail 12520220067191275054\n\
            b units 5 stints 1 moves 0 last 0 trail 6364136223846793325\n",
        orders: "\
            0/0 +10 -0 1/0 +5 -1 .\n\
            0/1 +5 +1 -0 .\n",
    },
    // The mask of a linked task changes, and the task takes the place of another one, which moves.
    Row {
        head: "processors 2\ntask a 1 0-1\ntask b 2 0-1\n",
        nobody: "",
        entries: "\
            0 arrive a placed 0: ok\n\
            0 arrive b placed 1: ok\n\
            0 affinity a 1 remasked left then placed 1>0: WrongReply\n\
            0 affinity a 1 remasked freed 1 enters - back 0-1 then placed 1>0: BadChain(0)\n\
            0 affinity a 1 remasked freed 0 enters - back 0 then placed 1>0: BadSet(1)\n\
            0 affinity a 1 remasked freed 0 enters - back 0-1 then placed 0: BadChain(0)\n\
            0 affinity a 1 remasked freed 0 enters - back 0-1 then placed 1: BadChain(0)\n\
            0 offline 0 off -: WrongReply\n\
            0 offline 0 off b then waits -: WrongReply\n\
            0 affinity a 1 remasked freed 0 enters - back 0-1 then placed 1>0: ok\n\
            0 tick 3 ticked: ok\n",
        contexts: "\
            a units 3 stints 2 moves 1 last 1 trail 193\n\
            b units 3 stints 2 moves 1 last 0 trail 6364136223846793197\n",
        orders: "\
            0/0 -0 1/1 +3 -1 .\n\
            1/0 -1 0/1 +3 -0 .\n",
    },
    // The mask of a waiting task changes, and later that of an absent one. A set that certified it by the old mask does not by
    // the new one.
    Row {
        head: "processors 2\ntask a 1 0\ntask b 2 0\n",
        nobody: "",
        entries: "\
            0 arrive a placed 0: ok\n\
            0 arrive b waits 0: ok\n\
            0 affinity b 0-1 masked: WrongReply\n\
            0 affinity b 0-1 remasked freed 0 enters - back 0 then placed 1: WrongReply\n\
            0 affinity b 0-1 remasked left then waits 0: BadSet(1)\n\
            0 affinity b 0-1 remasked left then placed 1: ok\n\
            0 depart b freed 1 enters - back 1: ok\n\
            0 affinity b 1 masked: ok\n",
        contexts: "\
            a units 0 stints 1 moves 0 last 0 trail 0\n\
            b units 0 stints 1 moves 0 last 1 trail 1\n",
        orders: "\
            0/0 -0 .\n\
            1/0 -1 .\n",
    },
    // A task leaves its processor and comes back to it: another one has come in between, but is not taken.
    Row {
        head: "processors 1\ntask a 1 0\ntask b 2 0\n",
        nobody: "",
        entries: "\
            0 arrive a placed 0: ok\n\
            0 arrive b waits 0: ok\n\
            0 affinity a 0 remasked freed 0 enters - back 0 then placed 0: WrongTask(1)\n\
            0 affinity a 0 remasked freed 0 enters b back 0 then displaced 0 out b reach 0: ok\n",
        contexts: "\
            a units 0 stints 1 moves 0 last 0 trail 0\n\
            b units 0 stints 0 moves 0 last - trail 1\n",
        orders: "\
            0/0 -0 .\n",
    },
    // Processors go off line and one comes on line. No set with a processor that is off line certifies a task.
    Row {
        head: "processors 2\ntask a 1 0-1\ntask b 2 0-1\n",
        nobody: "",
        entries: "\
            0 arrive a placed 0: ok\n\
            0 arrive b placed 1: ok\n\
            0 offline 0 off a then displaced 1 out b reach 0-1: BadSet(0)\n\
            0 offline 0 off a then displaced 1 out b reach 1: ok\n\
            0 offline 0 already_off: ok\n\
            0 offline 1 off a then waits 1: BadSet(1)\n\
            0 offline 1 off a then waits -: ok\n\
            0 online 1 already_on: WrongReply\n\
            0 online 1 on 1 enters - back 1: WrongTask(0)\n\
            0 online 1 on 1 enters a back 1: ok\n\
            0 online 1 already_on: ok\n",
        contexts: "\
            a units 0 stints 3 moves 1 last 1 trail 0\n\
            b units 0 stints 1 moves 0 last 1 trail 1\n",
        orders: "\
            0/0 -0 .\n\
            1/0 -1 0/1 -0 0/2 -0 .\n",
    },
    // An idle processor goes off line, and the mask of a waiting task changes to it.
    Row {
        head: "processors 2\ntask a 1 1\n",
        nobody: "",
        entries: "\
            0 offline 0 already_off: WrongReply\n\
            0 offline 0 off -: ok\n\
            0 arrive a placed 1: ok\n\
            0 offline 1 off a then waits -: ok\n\
            0 affinity a 0 remasked left then waits -: ok\n\
            0 affinity a 0 remasked left then placed 0: BadChain(0)\n\
            0 online 0 on 0 enters a back 0: ok\n",
        contexts: "\
            a units 0 stints 2 moves 1 last 0 trail 0\n",
        orders: "\
            0/1 -0 .\n\
            0/0 -0 .\n",
    },
];

/// Appends the lines of the entries, without what the checker says of them.
fn write_entries(text: &mut String, rows: &str) -> Result<(), AllocError> {
    for row in rows.lines() {
        let (entry, _defect) = row.split_once(": ").unwrap_or((row, ""));
        writeln!(text, "{entry}")?;
    }
    Ok(())
}

/// The text of the schedule of a row, with all of its entries.
fn text_of(alloc: Global, row: &Row) -> Result<String, AllocError> {
    let mut text = String::from_str(alloc, "schedule 2\n")?;
    let (entries, contexts) = (row.entries.lines().count(), row.contexts.lines().count());
    write!(text, "{}{}history {entries}\n", row.head, row.nobody)?;
    write_entries(&mut text, row.entries)?;
    write!(text, "contexts {contexts}\n{}end\n", row.contexts)?;
    Ok(text)
}

/// The schedule of a row.
fn schedule_of(rt: &impl Abort, alloc: Global, row: &Row) -> Schedule {
    let text = text_of(alloc, row).expect(rt, "memory");
    read_schedule(alloc, text.as_bytes()).expect(rt, "a schedule")
}

/// What the checker says, in words.
fn words_of(alloc: Global, said: Result<(), Defect>) -> Result<String, AllocError> {
    match said {
        Ok(()) => String::from_str(alloc, "ok"),
        Err(defect) => format!(in alloc; "{defect:?}"),
    }
}

/// The checker says of an entry what stands behind it.
fn judge(rt: &impl Abort, alloc: Global, checker: &mut Checker, entry: &Entry, row: &str) {
    assert!(rt; is_event_for(checker.links(), &entry.event));
    let said = words_of(alloc, checker.accept(entry)).expect(rt, "memory");
    let (_entry, expected) = row.split_once(": ").unwrap_or((row, ""));
    same_at(rt, said.as_str(), expected, &row);
}

/// The checker says of the entries what stands behind them.
fn judge_all(rt: &impl Abort, alloc: Global, checker: &mut Checker, entries: &[Entry], rows: &str) {
    for (entry, row) in entries.iter().zip(rows.lines()) {
        judge(rt, alloc, checker, entry, row);
    }
}

/// The checker has these contexts of its tasks.
fn expect_contexts(rt: &impl Abort, checker: &Checker, contexts: &[Context]) {
    for expected in contexts {
        if expected.task < checker.links().len() {
            same(rt, checker.context(expected.task), expected);
        }
    }
}

/// A new checker says of the entries what stands behind them, and has the contexts in the end.
fn check(rt: &impl Abort, alloc: Global, set: &TaskSet, row: &Row, schedule: &Schedule) {
    let mut checker = Checker::new(alloc, set).expect(rt, "memory");
    judge_all(rt, alloc, &mut checker, schedule.entries(), row.entries);
    expect_contexts(rt, &checker, schedule.contexts());
}

/// The core makes an entry, which has the next place.
fn make(rt: &impl Abort, core: &mut Core, entry: &Entry) {
    let place = core.history().len() as u64;
    assert!(rt; is_event_for(core.links(), &entry.event));
    same(rt, core.apply(entry.caller, entry.event), Ok(place));
    match core.history().last() {
        Some(made) => assert!(rt; *made == *entry, "at {place}"),
        None => assert!(rt; false),
    }
}

/// The core makes those of the entries that have no defect.
fn make_all(rt: &impl Abort, core: &mut Core, entries: &[Entry], rows: &str) {
    for (entry, row) in entries.iter().zip(rows.lines()) {
        if row.ends_with(": ok") {
            make(rt, core, entry);
        }
    }
}

/// Appends an order.
fn write_order(text: &mut String, order: &Order) -> Result<(), AllocError> {
    match order {
        Order::Take { task, number } => write!(text, "{task}/{number} "),
        Order::Release(task) => write!(text, "-{task} "),
        Order::Run(units) => write!(text, "+{units} "),
        Order::Stop => write!(text, "."),
    }
}

/// The orders as a line has them.
fn line_of(alloc: Global, orders: &[Order]) -> Result<String, AllocError> {
    let mut text = String::new(alloc);
    for order in orders {
        write_order(&mut text, order)?;
    }
    Ok(text)
}

/// The orders to a processor are those of a line.
fn expect_orders(rt: &impl Abort, alloc: Global, core: &Core, p: u8, line: &str) {
    assert!(rt; p < core.links().processors());
    let orders = line_of(alloc, core.orders(p)).expect(rt, "memory");
    same(rt, orders.as_str(), line);
}

/// The orders to each processor are those of a line.
fn expect_all_orders(rt: &impl Abort, alloc: Global, core: &Core, lines: &str) {
    same(
        rt,
        core.links().processors() as usize,
        lines.lines().count(),
    );
    for (line, p) in lines.lines().zip(0u8..64) {
        expect_orders(rt, alloc, core, p, line);
    }
}

/// Closes the core twice. It takes no event between.
fn close(rt: &impl Abort, core: &mut Core) {
    core.close_now();
    assert!(rt; core.is_closed());
    same(rt, core.apply(0, Event::Tick(1)), Err(CoreFault::Closed));
    core.close_now();
}

/// A new core makes the entries, and gives the orders in the end.
fn play(rt: &impl Abort, alloc: Global, set: &TaskSet, row: &Row, schedule: &Schedule) {
    let mut core = Core::new(alloc, set).expect(rt, "memory");
    assert!(rt; core.reserve().is_ok());
    make_all(rt, &mut core, schedule.entries(), row.entries);
    close(rt, &mut core);
    expect_all_orders(rt, alloc, &core, row.orders);
}

/// The input that has the tasks of a row.
fn input_of(rt: &impl Abort, alloc: Global, row: &Row) -> Input {
    let text = format!(in alloc; "apa 1\n{}end\n", row.head).expect(rt, "memory");
    read_input(alloc, text.as_bytes()).expect(rt, "an input")
}

/// The checker and the core follow a row, by the tasks that there are.
fn follow(rt: &impl Abort, alloc: Global, row: &Row, schedule: &Schedule) {
    let input = input_of(rt, alloc, row);
    check(rt, alloc, input.set(), row, schedule);
    play(rt, alloc, input.set(), row, schedule);
}

/// The same of the schedule of a row.
fn follow_row(rt: &impl Abort, alloc: Global, row: &Row) {
    let schedule = schedule_of(rt, alloc, row);
    follow(rt, alloc, row, &schedule);
}

#[test]
fn histories_by_hand(rt: HostRuntime) {
    for row in &ROWS {
        follow_row(&rt, rt.alloc(), row);
    }
}
