//! The table of links.
ghost use Rattle.std.specs.Prelude.{◌≡◌, ℕ, ◌<◌, ◌≤◌, ◌↔◌, IsTrue, IsNone, IfOk, IfSome, is_some, Some, None, true, false, MatchOption, if◌then◌else◌};
ghost use Rattle.affinity_mask.specs.ProcSet.{has};

use crate::places::Places;
use crate::waiting_tasks::WaitingTasks;
use affinity_mask::{OutOfMemory, ProcSet};
use std::alloc::Global;
use std::marker::Model;
use strong_apa::Chain;
use task_set::TaskSet;

/// What is known of each task of a set, which tasks are ready, and which task is linked to which processor.
/// The number of a task is its number in the set.
#[derive(Drop)]
pub struct Links {
    processors: u8,
    ready: Vec<bool>,
    places: Places,
    waiting: WaitingTasks,
}

impl Model for Links {
    ghost use Rattle.strong_apa.specs.State.{State};

    ghost Value = { State };

    ghost use Rattle.link_table.specs.LinksView.{links_view, IsStored};

    ghost view = { links_view };

    ghost invariant = { IsStored };
}

impl Links {
    ghost use Rattle.task_set.specs.TaskSet.{IsMask};
    ghost use Rattle.strong_apa.specs.State.{State, IsState, HasSameTasks, task_count, priority_of, mask_of, is_ready, is_linked, effective_mask, task_on, IsIdle, IsWaiting, start_of, state_with_ready, state_with_absent, state_with_mask, state_with_online, state_with_offline, state_with_idle, state_after_leaving};
    ghost use Rattle.link_table.specs.WaitingTasks.{IsNobodyWith, IsTaskWith};
    ghost use Rattle.link_table.specs.Priorities.{IsFreeFor, state_with_priority, state_with_exchange};
    ghost use Rattle.strong_apa.specs.Step.{IsNobodyInto, IsMostUrgentInto};
    ghost use Rattle.strong_apa.specs.Chain.{CanShift, IsChainOf, IsSimple, Shifted, task_put_out};

    /// Every task of the set is absent, and every processor is idle. Refused only where memory runs out.
    pub fn new(alloc: Global, set: &TaskSet) -> Result<Links, OutOfMemory>
        ensures { IfOk result (λ links. links ≡ start_of set.now) }
    {
        let processors = set.processors();
        let ready = vec![in alloc; false; set.len() as usize]?;
        let masks = set.masks(alloc)?;
        let priorities = set.priorities(alloc)?;
        let places = Places::new(alloc, processors, masks)?;
        let waiting = WaitingTasks::new(alloc, priorities)?;
        Ok(Links {
            processors,
            ready,
            places,
            waiting,
        })
    }

    /// How many processors there are, on line or not.
    pub fn processors(&self) -> u8
        ensures value { result ≡ self.now.processors }
        ensures valid { IsState self.now }
    {
        self.processors
    }

    /// How many tasks there are, ready or not.
    pub fn len(&self) -> u32
        ensures value { result ≡ task_count self.now }
        ensures valid { IsState self.now }
    {
        self.waiting.len()
    }

    /// Whether the set has no tasks.
    pub fn is_empty(&self) -> bool
        ensures { IsTrue result ↔ (task_count self.now ≡ 0) }
    {
        self.waiting.len() == 0
    }

    /// The priority of a task. The lower number is more urgent.
    pub fn priority(&self, t: u32) -> u32
        requires { t < task_count self.now }
        ensures { result ≡ priority_of self.now t }
    {
        self.waiting.priority(t)
    }

    /// The task that has a priority, if there is one.
    pub fn task_with(&self, priority: u32) -> Option<u32>
        ensures test { MatchOption result (IsNobodyWith self.now.priorities priority)
            (IsTaskWith self.now.priorities priority) }
        ensures valid { IsState self.now }
    {
        self.waiting.task_with(priority)
    }

    /// The affinity mask of a task.
    pub fn mask(&self, t: u32) -> ProcSet
        requires { t < task_count self.now }
        ensures { result ≡ mask_of self.now t }
    {
        self.places.mask(t)
    }

    /// The processors that a task may run on now: those of its mask that are on line.
    pub fn effective(&self, t: u32) -> ProcSet
        requires { t < task_count self.now }
        ensures value { result ≡ effective_mask self.now t }
        ensures valid { IsState self.now }
    {
        self.places.effective(t)
    }

    /// The processors on line.
    pub fn online(&self) -> ProcSet
        ensures value { result ≡ self.now.online }
        ensures valid { IsState self.now }
    {
        self.places.online()
    }

    /// Whether a processor is on line.
    pub fn is_online(&self, p: u8) -> bool
        requires { p < self.now.processors }
        ensures value { result ≡ has self.now.online p }
        ensures valid { IsState self.now }
    {
        self.places.online().has(p)
    }

    /// The idle processors: they are on line, and nobody is linked to them.
    pub fn idle(&self) -> ProcSet
        ensures contents { (p : ℕ) → IsTrue (has result p) ↔ IsIdle self.now p }
        ensures valid { IsState self.now }
    {
        self.online().minus(&self.linked())
    }

    /// Whether a task is ready, linked or waiting. It is absent otherwise.
    pub fn is_ready(&self, t: u32) -> bool
        requires { t < task_count self.now }
        ensures value { result ≡ is_ready self.now t }
        ensures valid { IsState self.now }
    {
        self.ready[t as usize]
    }

    /// Whether a task waits: it is ready, and linked to no processor.
    pub fn is_waiting(&self, t: u32) -> bool
        requires { t < task_count self.now }
        ensures test { IsTrue result ↔ IsWaiting self.now t }
        ensures valid { IsState self.now }
    {
        self.is_ready(t) && self.of(t).is_none()
    }

    /// The task that is linked to a processor.
    pub fn on(&self, p: u8) -> Option<u32>
        requires { p < self.now.processors }
        ensures value { result ≡ task_on self.now p }
        ensures valid { IsState self.now }
    {
        self.places.on(p)
    }

    /// The processor that a task is linked to.
    pub fn of(&self, t: u32) -> Option<u8>
        requires { t < task_count self.now }
        ensures place { IfSome result (λ p. task_on self.now p ≡ Some t) }
        ensures none { IsNone result ↔ (is_linked self.now t ≡ false) }
        ensures valid { IsState self.now }
    {
        self.places.of(t)
    }

    /// The occupied processors.
    pub fn linked(&self) -> ProcSet
        ensures { (p : ℕ) → has result p ≡ is_some (task_on self.now p) }
    {
        self.places.linked()
    }

    /// The occupied processors whose occupant may run on q.
    pub fn feeders(&self, q: u8) -> ProcSet
        ensures contents { (p : ℕ) → IsTrue (has result p) ↔ CanShift self.now p q }
        ensures valid { IsState self.now }
    {
        if q < self.processors {
            self.places.feeders(q)
        } else {
            ProcSet::empty()
        }
    }

    /// The most urgent waiting task that can enter at a processor of a set, if any can.
    pub fn most_urgent_in(&self, set: ProcSet) -> Option<u32>
        ensures test { MatchOption result (IsNobodyInto self.now set) (IsMostUrgentInto self.now set) }
        ensures valid { IsState self.now }
    {
        self.waiting.first_for(set.both(&self.places.online()))
    }

    /// An absent task becomes ready, and waits.
    pub fn make_ready(&mut self, t: u32)
        requires number { t < task_count self.old }
        requires absent { is_ready self.old t ≡ false }
        ensures ready { self.new ≡ state_with_ready self.old t }
        ensures waits { IsWaiting self.new t }
        ensures valid { IsState self.new }
    {
        self.ready[t as usize] = true;
        let mask = self.places.mask(t);
        self.waiting.write(t, mask);
    }

    /// Sets the mask of an absent task.
    pub fn set_mask(&mut self, t: u32, mask: ProcSet)
        requires number { t < task_count self.old }
        requires absent { is_ready self.old t ≡ false }
        requires mask { IsMask self.old.processors mask }
        ensures mask { self.new ≡ state_with_mask self.old t mask }
        ensures valid { IsState self.new }
    {
        self.places.set_mask(t, mask);
    }

    /// Sets the priority of a task, ready or not, to one that no other task has. No memory is taken.
    pub fn set_priority(&mut self, t: u32, priority: u32)
        requires number { t < task_count self.old }
        requires free { IsFreeFor self.old t priority }
        ensures priority { self.new ≡ state_with_priority self.old t priority }
        ensures valid { IsState self.new }
    {
        self.waiting.set_priority(t, priority);
    }

    /// Two tasks, ready or not, exchange their priorities. No memory is taken.
    pub fn exchange_priorities(&mut self, t: u32, u: u32)
        requires number { t < task_count self.old }
        requires other { u < task_count self.old }
        ensures exchange { self.new ≡ state_with_exchange self.old t u }
        ensures valid { IsState self.new }
    {
        let priority = self.waiting.priority(t);
        let other = self.waiting.priority(u);
        self.waiting.set_priority(t, other);
        self.waiting.set_priority(u, priority);
    }

    /// Puts a processor to which nobody is linked on line, or takes it off line.
    pub fn set_online(&mut self, p: u8, on: bool)
        requires processor { p < self.old.processors }
        requires nobody { task_on self.old p ≡ None }
        ensures online { self.new ≡
            (if on then state_with_online self.old p else state_with_offline self.old p) }
        ensures valid { IsState self.new }
    {
        self.places.set_online(p, on);
    }

    /// Shifts a waiting task along one of its chains, and answers the task that this displaces, which waits then.
    pub fn shift(&mut self, t: u32, chain: &Chain) -> Option<u32>
        requires number { t < task_count self.old }
        requires waits { IsWaiting self.old t }
        requires chain { (q : ℕ) × IsChainOf self.old t chain.now q }
        requires simple { IsSimple chain.now }
        ensures links { Shifted self.old t chain.now self.new }
        ensures out { result ≡ task_put_out self.old chain.now }
        ensures valid { IsState self.new }
    {
        self.enter(t, chain)
    }

    /// A task that is not linked becomes ready, if it is absent, and is shifted along one of its chains. Answers the task
    /// that this displaces, which waits then.
    pub fn enter(&mut self, t: u32, chain: &Chain) -> Option<u32>
        requires number { t < task_count self.old }
        requires not_linked { is_linked self.old t ≡ false }
        requires chain { (q : ℕ) × IsChainOf self.old t chain.now q }
        requires simple { IsSimple chain.now }
        ensures shifted { Shifted (state_with_ready self.old t) t chain.now self.new }
        ensures out { result ≡ task_put_out (state_with_ready self.old t) chain.now }
        ensures valid { IsState self.new }
    {
        self.ready[t as usize] = true;
        let mut guest = Some(t);
        for i in 0..chain.len() {
            guest = self.places.replace(chain.at(i), guest);
        }
        let mask = self.places.mask_of(guest);
        self.waiting.exchange(t, guest, mask);
        guest
    }

    /// A waiting task becomes absent. All else stays.
    pub fn make_absent(&mut self, t: u32)
        requires number { t < task_count self.old }
        requires waits { IsWaiting self.old t }
        ensures absent { self.new ≡ state_with_absent self.old t }
        ensures valid { IsState self.new }
    {
        self.ready[t as usize] = false;
        self.waiting.write(t, ProcSet::empty());
    }

    /// Unlinks the task of an occupied processor, and answers it. The task waits then, and the processor is idle.
    pub fn unlink(&mut self, p: u8) -> u32
        requires processor { p < self.old.processors }
        requires occupied { (t : ℕ) × (task_on self.old p ≡ Some t) }
        ensures task { task_on self.old p ≡ Some result }
        ensures idle { self.new ≡ state_with_idle self.old p }
        ensures waits { IsWaiting self.new result }
        ensures valid { IsState self.new }
    {
        let Some(t) = self.places.replace(p, None) else {
            unreachable!()
        };
        self.waiting.write(t, self.places.mask(t));
        t
    }

    /// A task departs from its processor, and answers which one that was. The task is absent then, and the processor
    /// has nobody.
    pub fn leave(&mut self, t: u32) -> u8
        requires number { t < task_count self.old }
        requires linked { is_linked self.old t ≡ true }
        ensures place { task_on self.old result ≡ Some t }
        ensures left { self.new ≡ state_after_leaving self.old t }
        ensures valid { IsState self.new }
    {
        let p = self.of(t).unwrap();
        self.ready[t as usize] = false;
        self.places.replace(p, None);
        p
    }

    /// Becomes equal to another table of the same tasks. No memory is taken.
    pub fn set_to(&mut self, other: &Links)
        requires { HasSameTasks self.old other.now }
        ensures { self.new ≡ other.now }
    {
        self.ready.copy_from_slice(&other.ready);
        self.places.set_to(&other.places);
        self.waiting.set_to(&other.waiting);
    }
}
