//! The weak scheduler on one thread.
ghost use Rattle.std.specs.Prelude.{◌≡◌, ◌<◌, IfOk};
ghost use Rattle.task_set.specs.TaskSet.{IsMask};
ghost use Rattle.strong_apa.specs.State.{IsState, start_of, task_count};
ghost use Rattle.strong_apa.specs.Step.{IsEventFor};
ghost use Rattle.weak_apa.specs.Stable.{IsWeaklyStable};
ghost use Rattle.weak_apa.specs.Step.{WeakStep, Follows, WeaklyArrives, WeaklyDeparts, WeaklyMasks, WeaklyGoesOff, WeaklyComesOn};

use crate::arrival::come;
use crate::departure::{fill, withdraw};
use affinity_mask::{OutOfMemory, ProcSet};
use link_table::Links;
use std::alloc::Global;
use std::marker::Model;
use task_set::{Event, TaskSet};

/// A scheduler of which each task looks at the processors of its own mask alone.
#[derive(Drop)]
pub struct Weak {
    links: Links,
}

impl Model for Weak {
    ghost use Rattle.strong_apa.specs.State.{State};

    ghost Value = { State };

    ghost view = { λ weak. weak.links };

    ghost use Rattle.weak_apa.specs.Stable.{IsWeaklyStable};

    ghost invariant = { λ weak. IsWeaklyStable weak.links };
}

impl Weak {
    /// Every task of the set is absent, and every processor is on line and idle. Refused only where memory runs out.
    pub fn new(alloc: Global, set: &TaskSet) -> Result<Weak, OutOfMemory>
        ensures { IfOk result (λ weak. weak ≡ start_of set.now) }
    {
        let links = Links::new(alloc, set)?;
        Ok(Weak { links })
    }

    /// Applies an event. No memory is taken.
    pub fn apply(&mut self, event: Event)
        requires { IsEventFor self.old event }
        ensures step { WeakStep self.old event self.new }
        ensures follows { Follows self.old event self.new }
        ensures stable { IsWeaklyStable self.new }
        ensures valid { IsState self.new }
    {
        apply_to(&mut self.links, event);
    }

    /// The links after the events so far.
    pub fn links(&self) -> &Links
        ensures value { result.now ≡ self.now }
        ensures stable { IsWeaklyStable self.now }
    {
        &self.links
    }
}

/// Lets the links follow an event.
#[tactic(auto, using(crate::proofs::Followed::weak_step_follows))]
fn apply_to(links: &mut Links, event: Event)
    requires of_system { IsEventFor links.old event }
    requires stable { IsWeaklyStable links.old }
    ensures step { WeakStep links.old event links.new }
    ensures follows { Follows links.old event links.new }
    ensures stable { IsWeaklyStable links.new }
    ensures valid { IsState links.new }
{
    let _valid = links.processors();
    match event {
        Event::Arrive(t) => arrive(links, t),
        Event::Depart(t) => depart(links, t),
        Event::Tick(_) => {}
        Event::Affinity { task, mask } => affinity(links, task, mask),
        Event::Offline(p) => offline(links, p),
        Event::Online(p) => online(links, p),
    }
}

/// A task arrives. Nothing changes where it was ready before.
fn arrive(links: &mut Links, t: u32)
    requires number { t < task_count links.old }
    requires stable { IsWeaklyStable links.old }
    ensures arrives { WeaklyArrives links.old t links.new }
    ensures stable { IsWeaklyStable links.new }
    ensures valid { IsState links.new }
{
    if !links.is_ready(t) {
        come(links, t);
    }
}

/// A task departs. Nothing changes where it was absent before.
fn depart(links: &mut Links, t: u32)
    requires number { t < task_count links.old }
    requires stable { IsWeaklyStable links.old }
    ensures departs { WeaklyDeparts links.old t links.new }
    ensures stable { IsWeaklyStable links.new }
    ensures valid { IsState links.new }
{
    if links.is_ready(t) {
        withdraw(links, t);
    }
}

/// The mask of a task changes. A ready task leaves, and comes back with the new mask.
fn affinity(links: &mut Links, t: u32, mask: ProcSet)
    requires number { t < task_count links.old }
    requires mask { IsMask links.old.processors mask }
    requires stable { IsWeaklyStable links.old }
    ensures masks { WeaklyMasks links.old t mask links.new }
    ensures stable { IsWeaklyStable links.new }
    ensures valid { IsState links.new }
{
    if !links.is_ready(t) {
        links.set_mask(t, mask);
        return;
    }
    withdraw(links, t);
    links.set_mask(t, mask);
    come(links, t);
}

/// A processor goes off line. Its task, if it has one, is placed elsewhere, or waits.
#[tactic(auto, using(strong_apa::proofs::Linked::linked_number))]
fn offline(links: &mut Links, p: u8)
    requires processor { p < links.old.processors }
    requires stable { IsWeaklyStable links.old }
    ensures goes_off { WeaklyGoesOff links.old p links.new }
    ensures stable { IsWeaklyStable links.new }
    ensures valid { IsState links.new }
{
    if !links.is_online(p) {
        return;
    }
    let Some(task) = links.on(p) else {
        links.set_online(p, false);
        return;
    };
    links.leave(task);
    links.set_online(p, false);
    come(links, task);
}

/// A processor comes on line, and the most urgent waiting task that may run there goes on it.
fn online(links: &mut Links, p: u8)
    requires processor { p < links.old.processors }
    requires stable { IsWeaklyStable links.old }
    ensures comes_on { WeaklyComesOn links.old p links.new }
    ensures stable { IsWeaklyStable links.new }
    ensures valid { IsState links.new }
{
    if links.is_online(p) {
        return;
    }
    links.set_online(p, true);
    fill(links, p);
}
