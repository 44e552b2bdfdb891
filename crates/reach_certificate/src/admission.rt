//! The best set of tasks, found by admitting one task after the other.
ghost use Rattle.std.specs.Prelude.{◌≡◌, ℕ, ◌<◌, true, false, length, All, AllPairs, IfOk, MatchOption};
ghost use Rattle.strong_apa.specs.State.{IsState, task_count, is_ready, start_of, IsMoreUrgent};
ghost use Rattle.strong_apa.specs.Placement.{IsSubset, IsBest};
ghost use Rattle.reach_certificate.specs.Admission.{is_among, IsMostUrgentAbsent, Admitted};
ghost use Rattle.strong_apa.specs.Certified.{HasCertificates};

use crate::search::{Found, find_way};
use affinity_mask::{OutOfMemory, ProcSet};
use link_table::Links;
use std::alloc::Global;
use task_set::TaskSet;

/// The best placeable set of these tasks over the masks of the set and all its processors, most urgent first. The list
/// may be empty, and in any order. This is the plain, slow program beside the definition, for tests of histories in which
/// no mask changes and no processor goes off line: it admits the tasks by urgency, and leaves one out where the processors
/// that it reaches are all held by more urgent tasks.
pub fn best_set(alloc: Global, set: &TaskSet, ready: &[u32]) -> Result<Vec<u32>, OutOfMemory>
    requires { All (λ t. t < length set.now.tasks) ready.now }
    ensures best { IfOk result (λ best. IsBest (start_of set.now) (is_among ready.now) (is_among best.items)) }
    ensures order { IfOk result (λ best. AllPairs (IsMoreUrgent (start_of set.now)) best.items) }
{
    let mut links = Links::new(alloc, set)?;
    let mut best = Vec::new(alloc);
    while let Some(t) = most_urgent_absent(&links, ready) {
        if !admit(&mut links, t) {
            continue;
        }
        best.push(t)?;
    }
    Ok(best)
}

/// Of the tasks of the list that are absent, the most urgent one.
fn most_urgent_absent(links: &Links, tasks: &[u32]) -> Option<u32>
    requires { All (λ t. t < task_count links.now) tasks.now }
    ensures { MatchOption result (IsSubset (is_among tasks.now) (is_ready links.now))
        (IsMostUrgentAbsent links.now tasks.now) }
{
    let mut found = None;
    for &t in tasks {
        if !links.is_ready(t) {
            found = Some(links.more_urgent(found, t));
        }
    }
    found
}

/// Makes an absent task ready that is less urgent than every ready one, and shifts it along a chain to an idle
/// processor where it has one. Answers whether it was linked.
fn admit(links: &mut Links, t: u32) -> bool
    requires number { t < task_count links.old }
    requires absent { is_ready links.old t ≡ false }
    requires least_urgent { (u : ℕ) → is_ready links.old u ≡ true → IsMoreUrgent links.old u t }
    requires certificates { HasCertificates links.old }
    ensures admitted { Admitted links.old t result links.new }
    ensures valid { IsState links.new }
{
    links.make_ready(t);
    match find_way(links, t, ProcSet::empty()) {
        Found::Way(back) => {
            let _ = links.shift(t, &back.reversed());
            true
        }
        Found::Full(_) => false,
    }
}
