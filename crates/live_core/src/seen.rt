//! Where another scheduler has the tasks, and how it gets each linked task to run.
ghost use Rattle.std.specs.Prelude.{◌≡◌, ◌<◌, ◌≤◌, ◌⊎◌, ◌↔◌, ℕ, Some, None, true, false, length, replicate, set, MatchOption, IfOk, IfNone, IfSome, IsTrue};
ghost use Rattle.affinity_mask.specs.ProcSet.{has};
ghost use Rattle.strong_apa.specs.State.{IsState, start_of, IsWaiting, HasSameTasks, task_count, task_on, is_linked, priority_of, effective_mask};
ghost use Rattle.strong_apa.specs.Chain.{IsLeastSuch, IsSimple, EndsIdle};
ghost use Rattle.strong_apa.specs.Certified.{HasCertificates};
ghost use Rattle.live_core.specs.Seen.{seen_at, lost_count, IsTable, IsFresh, RunsOn, IsTaken, IsLost, IsNobodyLost, IsMostUrgentLost, AreAllApart, RunsJustLinked, Helps, EndsWithin};

use crate::moves::MoveList;
use affinity_mask::OutOfMemory;
use link_table::{Chain, Links};
use path_search::{chain_to_idle, reach};
use std::alloc::Global;
use std::marker::Model;
use task_set::TaskSet;

/// By task the processor on which it is seen, and who holds each processor.
#[derive(Drop)]
pub(crate) struct SeenPlacement {
    table: Links,
    seen: Vec<Option<u8>>,

    /// Whether the table is one of the links and of what is seen: nothing has changed since.
    is_settled: bool,
}

impl Model for SeenPlacement {
    ghost use Rattle.live_core.specs.Seen.{SeenData};

    ghost Value = { SeenData };

    ghost use Rattle.live_core.specs.SeenView.{seen_view, IsSeenKept};

    ghost view = { seen_view };

    ghost invariant = { IsSeenKept };
}

impl SeenPlacement {
    ghost use Rattle.live_core.specs.MoveData.{MoveData};
    ghost use Rattle.link_table.specs.Priorities.{IsFreeFor, state_with_priority, state_with_exchange};

    /// Every task is seen nowhere, and who holds which processor is to be found. Refused only where memory runs out.
    pub(crate) fn new(alloc: Global, set: &TaskSet) -> Result<SeenPlacement, OutOfMemory>
        ensures { IfOk result (λ placement. placement ≡ record {
          seen = replicate (length set.now.tasks) None;
          table = start_of set.now;
          is_settled = false;
        }) }
    {
        let seen = vec![in alloc; None; set.len() as usize]?;
        let table = Links::new(alloc, set)?;
        Ok(SeenPlacement {
            table,
            seen,
            is_settled: false,
        })
    }

    /// A task is seen on a processor, or nowhere.
    pub(crate) fn see(&mut self, t: u32, place: Option<u8>)
        requires { t < task_count self.old.table }
        ensures { self.new ≡ record self.old { seen = set self.old.seen t place; is_settled = false } }
    {
        let _count = self.table.len();
        self.seen[t as usize] = place;
        self.is_settled = false;
    }

    /// The links have changed.
    pub(crate) fn unsettle(&mut self)
        ensures { self.new ≡ record self.old { is_settled = false } }
    {
        self.is_settled = false;
    }

    /// The priority of a task has changed.
    pub(crate) fn set_priority(&mut self, t: u32, priority: u32)
        requires number { t < task_count self.old.table }
        requires free { IsFreeFor self.old.table t priority }
        ensures { self.new ≡ record self.old {
          table = state_with_priority self.old.table t priority;
          is_settled = false;
        } }
    {
        self.table.set_priority(t, priority);
        self.is_settled = false;
    }

    /// Two tasks have exchanged their priorities.
    pub(crate) fn exchange_priorities(&mut self, t: u32, u: u32)
        requires number { t < task_count self.old.table }
        requires other { u < task_count self.old.table }
        ensures { self.new ≡ record self.old {
          table = state_with_exchange self.old.table t u;
          is_settled = false;
        } }
    {
        self.table.exchange_priorities(t, u);
        self.is_settled = false;
    }

    /// Who holds which processor, where that is to be found.
    pub(crate) fn settle(&mut self, links: &Links)
        requires tasks { HasSameTasks self.old.table links.now }
        requires table { self.old.is_settled ≡ true → IsTable links.now self.old.seen self.old.table }
        ensures table { IsTable links.now self.new.seen self.new.table }
        ensures seen { self.new.seen ≡ self.old.seen }
        ensures settled { self.new.is_settled ≡ true }
        ensures same { self.old.is_settled ≡ true → self.new ≡ self.old }
        ensures runs { self.old.is_settled ≡ false → (q t : ℕ)
            → (task_on self.new.table q ≡ Some t) ↔ RunsOn links.now self.new.seen t q }
    {
        if !self.is_settled {
            self.settle_anew(links);
        }
    }

    /// Who holds which processor, anew: of the linked tasks that are seen there and may run there the most urgent one.
    fn settle_anew(&mut self, links: &Links)
        requires { HasSameTasks self.old.table links.now }
        ensures table { IsTable links.now self.old.seen self.new.table }
        ensures runs { (q t : ℕ) → (task_on self.new.table q ≡ Some t) ↔ RunsOn links.now self.old.seen t q }
        ensures seen { self.new.seen ≡ self.old.seen }
        ensures settled { self.new.is_settled ≡ true }
    {
        let _valid = links.processors();
        self.table.set_to(links);
        clear(&mut self.table);
        fill(&mut self.table, links, &self.seen);
        self.is_settled = true;
    }

    /// The most urgent lost task, if any is lost. There is none exactly where all linked tasks are seen on processors of their
    /// masks that are on line, no two on one; and then each is more urgent than all other ready tasks that are seen there.
    pub(crate) fn lost(&self, links: &Links) -> Option<u32>
        requires { IsTable links.now self.now.seen self.now.table }
        ensures first { MatchOption result (IsNobodyLost links.now self.now.table) (IsMostUrgentLost links.now self.now.table) }
        ensures apart { MatchOption result (AreAllApart links.now self.now.seen) (λ t. AreAllApart links.now self.now.seen → ⊥) }
        ensures soon { EndsWithin links.now.processors links.now self.now }
        ensures just_linked { HasCertificates links.now → IfNone result (RunsJustLinked links.now self.now.seen) }
    {
        let _valid = links.processors();
        most_urgent_lost(links, &self.table)
    }

    /// The least chain of a lost task to a processor that nobody claims.
    pub(crate) fn chain(&self, links: &Links, t: u32) -> Chain
        requires table { IsTable links.now self.now.seen self.now.table }
        requires lost { IsLost links.now self.now.table t }
        ensures { IsLeastSuch (EndsIdle self.now.table t) result }
    {
        chain_of_lost(&self.table, links, &self.seen, t)
    }

    /// How many tasks there are.
    pub(crate) fn len(&self) -> usize
        ensures value { result ≡ length self.now.seen }
        ensures tasks { length self.now.seen ≡ task_count self.now.table }
    {
        self.seen.len()
    }

    /// Who holds a processor.
    pub(crate) fn holder(&self, p: u8) -> Option<u32>
        ensures { result ≡ task_on self.now.table p }
    {
        if p < self.table.processors() {
            self.table.on(p)
        } else {
            None
        }
    }

    /// Whether a task holds no processor.
    pub(crate) fn holds_none(&self, t: u32) -> bool
        requires { t < task_count self.now.table }
        ensures { IsTrue result ↔ (is_linked self.now.table t ≡ false) }
    {
        self.table.of(t).is_none()
    }

    /// A lost task gets a processor along a shortest chain, which is answered. The task goes on the first processor, and the
    /// holder of each processor on the next one; nobody is linked and seen on the last.
    pub(crate) fn help(&mut self, links: &Links, t: u32, moves: &mut MoveList) -> Chain
        requires table { IsTable links.now self.old.seen self.old.table }
        requires lost { IsLost links.now self.old.table t }
        requires processors { length moves.old.occupants ≡ links.now.processors }
        ensures helps { Helps links.now t self.old result moves.new.moves self.new }
        ensures settled { self.new.is_settled ≡ self.old.is_settled }
        ensures few { length moves.new.moves ≤ 130 }
        ensures occupants { length moves.new.occupants ≡ links.now.processors }
    {
        let _valid = links.processors();
        let chain = chain_of_lost(&self.table, links, &self.seen, t);
        moves.begin_at(&self.table);
        moves.let_in(t, chain.processors());
        self.table.shift(t, &chain);
        note_holders(&mut self.seen, &self.table);
        chain
    }
}

/// The least chain of a lost task to a processor that nobody claims. There always is one.
fn chain_of_lost(table: &Links, links: &Links, seen: &[Option<u8>], t: u32) -> Chain
    requires table { IsTable links.now seen.now table.now }
    requires lost { IsLost links.now table.now t }
    ensures least { IsLeastSuch (EndsIdle table.now t) result }
    ensures simple { IsSimple result }
{
    let _valid = links.processors();
    let _count = seen.len();
    match chain_to_idle(table, t) {
        Some(chain) => chain,
        None => {
            let _reach = reach(table, t);
            unreachable!()
        }
    }
}

/// Each holder is seen where it is, and all others where they were.
fn note_holders(seen: &mut [Option<u8>], table: &Links)
    requires { length seen.old ≡ task_count table.now }
    ensures moved { (q u : ℕ) → task_on table.now q ≡ Some u → seen_at seen.new u ≡ Some q }
    ensures others { (u : ℕ) → is_linked table.now u ≡ false → seen_at seen.new u ≡ seen_at seen.old u }
    ensures count { length seen.new ≡ length seen.old }
{
    for p in 0..table.processors() {
        if let Some(u) = table.on(p) {
            seen[u as usize] = Some(p);
        }
    }
}

/// The most urgent of the linked tasks that hold no processor.
fn most_urgent_lost(links: &Links, table: &Links) -> Option<u32>
    requires { table.now ≡ record links.now { on = table.now.on } }
    ensures { MatchOption result (IsNobodyLost links.now table.now) (IsMostUrgentLost links.now table.now) }
{
    let mut found = None;
    for p in 0..links.processors() {
        if let Some(t) = links.on(p) {
            if table.of(t).is_none() {
                found = Some(first_of(links, t, found));
            }
        }
    }
    found
}

/// The more urgent one of a task and the one that was found.
fn first_of(links: &Links, t: u32, found: Option<u32>) -> u32
    requires number { t < task_count links.now }
    requires found { (u : ℕ) → found ≡ Some u → u < task_count links.now }
    ensures which { (result ≡ t) ⊎ (found ≡ Some result) }
    ensures urgent { priority_of links.now result ≤ priority_of links.now t }
    ensures before { (u : ℕ) → found ≡ Some u → priority_of links.now result ≤ priority_of links.now u }
{
    match found {
        Some(u) => {
            if links.priority(u) < links.priority(t) {
                u
            } else {
                t
            }
        }
        None => t,
    }
}

/// Nobody is linked.
fn clear(table: &mut Links)
    ensures same { table.new ≡ record table.old { on = table.new.on } }
    ensures nobody { (q : ℕ) → task_on table.new q ≡ None }
{
    for p in 0..table.processors() {
        if table.on(p).is_some() {
            table.unlink(p);
        }
    }
    let _valid = table.processors();
}

/// Each processor that is claimed is held by the most urgent task that claims it.
fn fill(table: &mut Links, links: &Links, seen: &[Option<u8>])
    requires same { table.old ≡ record links.now { on = table.old.on } }
    requires nobody { (q : ℕ) → task_on table.old q ≡ None }
    requires count { length seen.now ≡ task_count links.now }
    ensures table { IsTable links.now seen.now table.new }
    ensures fresh { IsFresh links.now seen.now table.new }
{
    for p in 0..links.processors() {
        if let Some(t) = links.on(p) {
            if let Some(q) = seen[t as usize] {
                if may_run_on(links, t, q) {
                    take_place(table, links, t, q);
                }
            }
        }
    }
    let _valid = table.processors();
}

/// Whether a processor is on line, and in the mask of a task.
fn may_run_on(links: &Links, t: u32, q: u8) -> bool
    requires { t < task_count links.now }
    ensures { IsTrue result ↔ IsTrue (has (effective_mask links.now t) q) }
{
    q < links.processors() && links.effective(t).has(q)
}

/// A task takes the place of the holder of a processor, if there is none, or a less urgent one.
fn take_place(table: &mut Links, links: &Links, t: u32, q: u8)
    requires same { table.old ≡ record links.now { on = table.old.on } }
    requires waits { IsWaiting table.old t }
    requires allowed { IsTrue (has (effective_mask links.now t) q) }
    ensures same { table.new ≡ record links.now { on = table.new.on } }
    ensures taken { IsTaken links.now table.old t q table.new }
{
    let _valid = links.processors();
    let _kept = table.processors();
    if is_first_on(table, links, t, q) {
        let mut chain = Chain::new();
        chain.push(q);
        table.shift(t, &chain);
    }
}

/// Whether a processor has no holder that is more urgent than a task.
fn is_first_on(table: &Links, links: &Links, t: u32, q: u8) -> bool
    requires same { table.now ≡ record links.now { on = table.now.on } }
    requires number { t < task_count links.now }
    requires processor { q < links.now.processors }
    ensures yes { IsTrue result → (u : ℕ) → task_on table.now q ≡ Some u → priority_of links.now t ≤ priority_of links.now u }
    ensures no { result ≡ false → (u : ℕ) × (task_on table.now q ≡ Some u) × (priority_of links.now u ≤ priority_of links.now t) }
{
    match table.on(q) {
        Some(u) => links.priority(t) < links.priority(u),
        None => true,
    }
}
