//! The contexts of the tasks, which follow the links from entry to entry.
ghost use Rattle.std.specs.Prelude.{◌≡◌, ◌<◌, ◌∷◌, [], All, vec_len, length, map, slice_get, Some, IfOk, if◌then◌else◌};
ghost use Rattle.std.specs.Option.{ForSome};
ghost use Rattle.std.specs.List.{range_with_len};
ghost use Rattle.task_set.specs.Context.{fresh_context, context_after_take, context_after_run};
ghost use Rattle.task_set.specs.declared.event.Event.{Event};
ghost use Rattle.strong_apa.specs.Reply.{chain_of};
ghost use Rattle.strong_apa.specs.State.{State, IsState, task_count, is_task};
ghost use Rattle.strong_apa.specs.Dispatch.{places_of, tick_runs};
ghost use Rattle.strong_apa.specs.History.{effect_of};
ghost use Rattle.strong_apa.specs.Passing.{Passes};
ghost use Rattle.reach_certificate.specs.CaughtUp.{HaveCaughtUp};
ghost use Rattle.reach_certificate.specs.Contexts.{context_after_all_runs, EachBecomes, HaveFollowed};

use affinity_mask::OutOfMemory;
use link_table::{Entry, Links, Reply};
use std::alloc::Global;
use std::marker::Model;
use task_set::{Context, Event};

/// What each task has run, and beside it the occupant of each processor after the last entry. By it a task is taken where
/// it is linked after an entry and was not before, however often it left and came back within the entry.
#[derive(Drop)]
pub struct Contexts {
    each: Vec<Context>,
    held: Vec<Option<u32>>,
}

impl Model for Contexts {
    ghost use Rattle.reach_certificate.specs.Contexts.{ContextsData};

    ghost Value = { ContextsData };

    ghost use Rattle.reach_certificate.specs.ContextsView.{contexts_view};

    ghost view = { contexts_view };
}

impl Contexts {
    /// A fresh context for each task of these links, which are the ones before the first entry.
    pub fn new(alloc: Global, links: &Links) -> Result<Contexts, OutOfMemory>
        ensures each { IfOk result (λ contexts. contexts.each
            ≡ map fresh_context (range_with_len 0 (task_count links.now))) }
        ensures held { IfOk result (λ contexts. contexts.held ≡ links.now.on) }
    {
        let each = fresh_contexts(alloc, links.len())?;
        let held = occupants(alloc, links)?;
        Ok(Contexts { each, held })
    }

    /// The contexts follow an entry whose reply passes, and after which these are the links: a task is taken on each
    /// processor to which it came, and a tick runs each task that is linked. Only the processors that the reply touches
    /// are looked at after another event than a tick, since the occupants of the others stay.
    pub fn follow(&mut self, links: &Links, entry: &Entry)
        requires count { length self.old.each ≡ task_count links.now }
        requires processors { length self.old.held ≡ links.now.processors }
        ensures { (old : State) → IsState old → Passes old entry.now.event entry.now.reply
            → links.now ≡ effect_of old entry.now → self.old.held ≡ old.on
            → HaveFollowed old links.now entry.now.event self.old self.new }
    {
        match entry.event {
            Event::Tick(units) => run_linked(&mut self.each, links, units),
            Event::Offline(p) => {
                self.catch_up_at(links, p);
                self.catch_up(links, &entry.reply);
            }
            _ => self.catch_up(links, &entry.reply),
        }
    }

    /// The contexts catch up with the links at the processors of the reply's chains.
    fn catch_up(&mut self, links: &Links, reply: &Reply)
        requires count { length self.old.each ≡ task_count links.now }
        requires processors { length self.old.held ≡ links.now.processors }
        ensures { HaveCaughtUp links.now (chain_of reply.now) self.old self.new }
    {
        prove!(links.processors() <= 64);
        self.catch_up_along(links, reply.filling_chain());
        self.catch_up_along(links, reply.coming_chain());
    }

    /// The same at the processors of one chain.
    fn catch_up_along(&mut self, links: &Links, chain: &[u8])
        requires count { length self.old.each ≡ task_count links.now }
        requires processors { length self.old.held ≡ links.now.processors }
        ensures { HaveCaughtUp links.now chain.now self.old self.new }
    {
        prove!(links.processors() <= 64);
        for &p in chain {
            self.catch_up_at(links, p);
        }
    }

    /// The same at one processor: where it has another occupant than the one that is held, that one is taken and held.
    fn catch_up_at(&mut self, links: &Links, p: u8)
        requires count { length self.old.each ≡ task_count links.now }
        requires processors { length self.old.held ≡ links.now.processors }
        ensures { HaveCaughtUp links.now (p ∷ []) self.old self.new }
    {
        if p >= links.processors() {
            return;
        }
        let linked = links.on(p);
        if linked == self.held[p as usize] {
            return;
        }
        self.held[p as usize] = linked;
        take_occupant(&mut self.each, p, linked);
    }

    /// The context of a task.
    pub fn of(&self, t: u32) -> &Context
        requires { t < length self.now.each }
        ensures { slice_get self.now.each t ≡ Some result.now }
    {
        &self.each[t as usize]
    }

    /// The contexts in task order.
    pub fn into_list(self) -> Vec<Context>
        ensures { result.items ≡ self.each }
    {
        self.each
    }
}

/// A fresh context for each task.
fn fresh_contexts(alloc: Global, count: u32) -> Result<Vec<Context>, OutOfMemory>
    ensures { IfOk result (λ v. v.items ≡ map fresh_context (range_with_len 0 count)) }
{
    let mut contexts = Vec::new(alloc);
    for task in 0..count {
        contexts.push(Context::fresh(task))?;
    }
    Ok(contexts)
}

/// The occupant of each processor.
fn occupants(alloc: Global, links: &Links) -> Result<Vec<Option<u32>>, OutOfMemory>
    ensures { IfOk result (λ v. v.items ≡ links.now.on) }
{
    let mut held = Vec::new(alloc);
    for p in 0..links.processors() {
        held.push(links.on(p))?;
    }
    Ok(held)
}

/// The occupant of a processor, if there is one, is taken there.
fn take_occupant(contexts: &mut Vec<Context>, p: u8, linked: Option<u32>)
    requires processor { p < 64 }
    requires known { ForSome linked (λ t. t < vec_len contexts.old) }
    ensures { EachBecomes (λ t c. if is_task t linked then context_after_take c p else c)
        contexts.old.items contexts.new.items }
{
    if let Some(task) = linked {
        contexts[task as usize].took(p);
    }
}

/// Each linked task runs this many units. The contexts are borrowed as a slice, and so not found anew for each processor.
fn run_linked(contexts: &mut [Context], links: &Links, units: u32)
    requires { length contexts.old ≡ task_count links.now }
    ensures { EachBecomes (λ t c. context_after_all_runs c (tick_runs (Event.Tick units) (places_of links.now t)))
        contexts.old contexts.new }
{
    for p in 0..links.processors() {
        run_occupant(contexts, p, links.on(p), units);
    }
}

/// The occupant of a processor, if there is one, runs this many units.
fn run_occupant(contexts: &mut [Context], p: u8, linked: Option<u32>, units: u32)
    requires processor { p < 64 }
    requires known { ForSome linked (λ t. t < length contexts.old) }
    ensures { EachBecomes (λ t c. if is_task t linked then context_after_run c p units else c)
        contexts.old contexts.new }
{
    if let Some(task) = linked {
        contexts[task as usize].ran(p, units);
    }
}
