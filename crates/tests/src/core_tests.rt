//! A core whose history fills up, and what else no text shows of it.
use crate::same::same;
use crate::stated::{is_event_for, tasks_of};
use sched_core::{Core, CoreFault, MAX_ENTRIES};
use std::alloc::Global;
use std::process::Abort;
use task_set::{Event, Order, TaskSet};

/// The first task comes, runs, leaves, and does not run.
fn event_at(place: u64) -> Event {
    match place % 4 {
        0 => Event::Arrive(0),
        2 => Event::Depart(0),
        _ => Event::Tick(1),
    }
}

/// As many events as a history may have, after which the core takes none.
fn fill(rt: &impl Abort, core: &mut Core) {
    for place in 0..MAX_ENTRIES as u64 {
        let event = event_at(place);
        assert!(rt; is_event_for(core.links(), &event));
        same(rt, core.apply(0, event), Ok(place));
    }
    same(rt, core.apply(0, Event::Tick(1)), Err(CoreFault::Full));
    core.close_now();
    same(rt, core.apply(0, Event::Tick(1)), Err(CoreFault::Closed));
}

/// A take, a run and a release for each four events, and the stop; to the second processor the stop alone.
fn expect_full_orders(rt: &impl Abort, core: &Core) {
    assert!(rt; core.links().processors() == 2);
    let last = Order::Take {
        task: 0,
        number: 4999,
    };
    same(rt, core.orders(0).len(), 15_001);
    same(rt, core.orders(0).get(14_997), Some(&last));
    same(rt, core.orders(1), [Order::Stop].as_slice());
}

#[test]
fn history_fills_up(rt: HostRuntime) {
    let set = tasks_of(&rt, rt.alloc(), 2, "0-1 0");
    fill_new(&rt, rt.alloc(), &set);
}

/// Fills a new core over a set of tasks.
fn fill_new(rt: &impl Abort, alloc: Global, set: &TaskSet) {
    let mut core = Core::new(alloc, set).expect(rt, "memory");
    fill(rt, &mut core);
    expect_full_orders(rt, &core);
}
