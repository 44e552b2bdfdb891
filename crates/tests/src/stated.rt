//! Sets, chains, tasks and states that tests write as texts.
ghost use Rattle.std.specs.Prelude.{◌<◌, ℕ, IsTrue};
ghost use Rattle.strong_apa.specs.State.{task_count};
ghost use Rattle.strong_apa.specs.Chain.{IsChainOf, IsSimple};
ghost use Rattle.strong_apa.specs.Step.{IsEventFor};

use affinity_mask::ProcSet;
use link_table::{Chain, Links};
use std::alloc::Global;
use std::process::Abort;
use task_set::{Event, TaskSet};

/// The set of a processor list; `-` is the empty one.
pub(crate) fn set_of(rt: &impl Abort, list: &str) -> ProcSet {
    if list == "-" {
        return ProcSet::empty();
    }
    ProcSet::read_list(list.as_bytes()).expect(rt, "a processor list")
}

/// The chain of a text like `0>1>2`; none of an empty one.
pub(crate) fn chain_of(rt: &impl Abort, text: &str) -> Option<Chain> {
    if text.is_empty() {
        return None;
    }
    let mut chain = Chain::new();
    for piece in text.split('>') {
        let p = piece.parse::<u8>().unwrap_or(64);
        assert!(rt; p < 64 && chain.len() < 64, "in {text}");
        chain.push(p);
    }
    Some(chain)
}

/// Adds the task of a text, named by a letter and its number.
fn add_task(rt: &impl Abort, alloc: Global, set: &mut TaskSet, text: &str) {
    let number = set.len();
    let (task, _chain) = text.split_once('@').unwrap_or((text, ""));
    let (priority, mask) = task.split_once(':').unwrap_or(("", task));
    let priority = priority.parse::<u32>().unwrap_or(number);
    let name = format!(in alloc; "t{number}").expect(rt, "memory");
    assert!(rt;
        set.add(&name, priority, set_of(rt, mask)).is_ok(),
        "at {text}"
    );
}

/// Adds the tasks of a text.
fn add_tasks(rt: &impl Abort, alloc: Global, set: &mut TaskSet, tasks: &str) {
    for text in tasks.split(' ') {
        add_task(rt, alloc, set, text);
    }
}

/// The set of the tasks of a text.
pub(crate) fn tasks_of(rt: &impl Abort, alloc: Global, processors: u8, tasks: &str) -> TaskSet {
    assert!(rt; 1 <= processors && processors <= 64);
    let mut set = TaskSet::new(alloc, processors).expect(rt, "memory");
    add_tasks(rt, alloc, &mut set, tasks);
    set
}

/// The links of the tasks of a text, which are absent.
pub(crate) fn absent(rt: &impl Abort, alloc: Global, processors: u8, tasks: &str) -> Links {
    let set = tasks_of(rt, alloc, processors, tasks);
    Links::new(alloc, &set).expect(rt, "memory")
}

/// Whether the list is a chain of the task.
fn is_chain(links: &Links, t: u32, chain: &Chain) -> bool
    requires { t < task_count links.now }
    ensures { IsTrue result → (q : ℕ) × IsChainOf links.now t chain.now q }
{
    let processors = links.processors();
    if chain.is_empty() || !links.effective(t).has(chain.at(0)) {
        return false;
    }
    for i in 1..chain.len() {
        let before = chain.at(i - 1);
        if before >= processors {
            return false;
        }
        let Some(occupant) = links.on(before) else {
            return false;
        };
        if !links.effective(occupant).has(chain.at(i)) {
            return false;
        }
    }
    true
}

/// Whether no processor stands twice in the list.
fn is_simple(chain: &Chain) -> bool
    ensures { IsTrue result → IsSimple chain.now }
{
    let mut seen = ProcSet::empty();
    for i in 0..chain.len() {
        let p = chain.at(i);
        if seen.has(p) {
            return false;
        }
        seen = seen.with(p);
    }
    true
}

/// An absent task becomes ready, and is shifted along a chain, which has to be a simple one of it. Answers whom that puts out.
pub(crate) fn enter(rt: &impl Abort, links: &mut Links, t: u32, chain: &Chain) -> Option<u32> {
    assert!(rt; t < links.len() && !links.is_ready(t));
    links.make_ready(t);
    assert!(rt; is_chain(links, t, chain) && is_simple(chain));
    links.shift(t, chain)
}

/// A task becomes what its text says.
fn begin(rt: &impl Abort, links: &mut Links, t: u32, text: &str) {
    let (_task, place) = text.split_once('@').unwrap_or((text, ""));
    assert!(rt; t < links.len() && !links.is_ready(t));
    if place == "-" {
        links.make_ready(t);
    } else if let Some(chain) = chain_of(rt, place) {
        let _out = enter(rt, links, t, &chain);
    }
}

/// The processors of the set go off line.
fn go_off(rt: &impl Abort, links: &mut Links, off: ProcSet) {
    for p in 0..64 {
        if off.has(p) {
            assert!(rt; p < links.processors() && links.on(p).is_none());
            links.set_online(p, false);
        }
    }
}

/// The tasks become what their texts say.
fn begin_all(rt: &impl Abort, links: &mut Links, tasks: &str) {
    for (text, t) in tasks.split(' ').zip(0u32..1024) {
        begin(rt, links, t, text);
    }
}

/// The links of a state, in which the processors of a list are off line. A text has its tasks, with a space between two: the
/// mask, behind `@` the chain along which the task is shifted as it becomes ready, or `-` where it waits, and before `:` the
/// priority, which else is the task's number. Without `@` the task is absent.
pub(crate) fn state_of(
    rt: &impl Abort,
    alloc: Global,
    processors: u8,
    off: &str,
    tasks: &str,
) -> Links {
    let mut links = absent(rt, alloc, processors, tasks);
    go_off(rt, &mut links, set_of(rt, off));
    begin_all(rt, &mut links, tasks);
    links
}

/// Whether the task, the mask and the processor of the event are of these links.
pub(crate) fn is_event_for(links: &Links, event: &Event) -> bool
    ensures { IsTrue result → IsEventFor links.now event.now }
{
    match event {
        Event::Arrive(t) | Event::Depart(t) => *t < links.len(),
        Event::Tick(_) => true,
        Event::Affinity { task, mask } => {
            *task < links.len()
                && !mask.is_empty()
                && mask.within(&ProcSet::first(links.processors()))
        }
        Event::Offline(p) | Event::Online(p) => *p < links.processors(),
    }
}
