//! What the links and the searches answer, found in the plainest way: each processor and each task is asked.
use crate::same::same;
use affinity_mask::ProcSet;
use link_table::{Chain, Links};
use path_search::{back_chain, back_set, chain_to, chain_to_idle, reach};
use std::process::Abort;

/// The processors whose occupant can be shifted into the set.
fn shifts_into(links: &Links, set: &ProcSet) -> ProcSet {
    let mut found = ProcSet::empty();
    for p in 0..links.processors() {
        if let Some(u) = links.on(p)
            && u < links.len()
            && links.effective(u).meets(set)
        {
            found = found.with(p);
        }
    }
    found
}

/// The processors to which an occupant of the set can be shifted.
fn shifts_from(links: &Links, set: &ProcSet) -> ProcSet {
    let mut found = ProcSet::empty();
    for p in 0..links.processors() {
        if let Some(u) = links.on(p)
            && u < links.len()
            && set.has(p)
        {
            found = found.either_of(&links.effective(u));
        }
    }
    found
}

/// The processors to which one step leads from a set, as tasks move; where `back`, the other way.
fn after(links: &Links, back: bool, set: &ProcSet) -> ProcSet {
    if back {
        shifts_into(links, set)
    } else {
        shifts_from(links, set)
    }
}

/// The ends of all paths from a set.
fn plain_ends(links: &Links, back: bool, start: ProcSet) -> ProcSet {
    let mut found = start;
    for _step in 0..links.processors() {
        found = found.either_of(&after(links, back, &found));
    }
    found
}

/// The least path of at most `most` processors from one set into another, found from the target back.
fn plain_path(
    links: &Links,
    back: bool,
    start: ProcSet,
    target: ProcSet,
    most: u8,
) -> Option<Chain> {
    if most == 0 {
        return None;
    }
    if let Some(p) = start.both(&target).least() {
        let mut chain = Chain::new();
        chain.push(p);
        return Some(chain);
    }
    let earlier = after(links, !back, &target);
    let mut chain = plain_path(links, back, start, earlier, most - 1)?;
    if chain.is_empty() || chain.len() == 64 {
        return None;
    }
    let last = ProcSet::one(chain.at(chain.len() - 1));
    let next = after(links, back, &last).both(&target).least()?;
    chain.push(next);
    Some(chain)
}

/// The searches at a task and a processor say what the plain ones say.
fn compare_searches(rt: &impl Abort, links: &Links, t: u32, p: u8) {
    assert!(rt; t < links.len() && p < links.processors() && p < 64);
    let (m, mask, here) = (links.processors(), links.effective(t), ProcSet::one(p));
    same(
        rt,
        [reach(links, t), back_set(links, p)],
        [
            plain_ends(links, false, mask),
            plain_ends(links, true, here),
        ],
    );
    same(
        rt,
        [
            chain_to(links, t, p),
            chain_to_idle(links, t),
            back_chain(links, t, p),
        ],
        [
            plain_path(links, false, mask, here, m),
            plain_path(links, false, mask, links.idle(), m),
            plain_path(links, true, here, mask, m),
        ],
    );
}

/// Compares the searches at each processor.
fn compare_task(rt: &impl Abort, links: &Links, t: u32) {
    for p in 0..links.processors() {
        compare_searches(rt, links, t, p);
    }
}

/// Compares the searches at each task and each processor.
pub(crate) fn compare_all_searches(rt: &impl Abort, links: &Links) {
    for t in 0..links.len() {
        compare_task(rt, links, t);
    }
}

/// The processor of a task.
fn scan_of(links: &Links, t: u32) -> Option<u8> {
    for p in 0..links.processors() {
        if links.on(p) == Some(t) {
            return Some(p);
        }
    }
    None
}

/// The most urgent waiting task that can enter at a processor of a set.
fn scan_most_urgent(links: &Links, set: &ProcSet) -> Option<u32> {
    let (mut found, mut least) = (None, u32::MAX);
    for t in 0..links.len() {
        let priority = links.priority(t);
        let can_enter = links.is_waiting(t) && links.effective(t).meets(set);
        if can_enter && (found.is_none() || priority < least) {
            (found, least) = (Some(t), priority);
        }
    }
    found
}

/// Compares what the links say of each task, and who waits for its mask.
fn compare_tasks(rt: &impl Abort, links: &Links) {
    for t in 0..links.len() {
        same(rt, links.of(t), scan_of(links, t));
        let mask = links.mask(t);
        same(
            rt,
            links.most_urgent_in(mask),
            scan_most_urgent(links, &mask),
        );
    }
}

/// Compares whom each processor can get its occupant from, and answers the occupied processors.
fn compare_processors(rt: &impl Abort, links: &Links) -> ProcSet {
    let mut occupied = ProcSet::empty();
    for p in 0..links.processors() {
        assert!(rt; p < 64);
        same(rt, links.feeders(p), shifts_into(links, &ProcSet::one(p)));
        if links.on(p).is_some() {
            occupied = occupied.with(p);
        }
    }
    occupied
}

/// The links answer as plain scans do.
pub(crate) fn compare_links(rt: &impl Abort, links: &Links) {
    compare_tasks(rt, links);
    let occupied = compare_processors(rt, links);
    same(rt, links.linked(), occupied);
    same(rt, links.idle(), links.online().minus(&occupied));
}
