//! Who runs where, from the last line of a trace to the first.
ghost use Rattle.std.specs.Prelude.{◌≡◌, ℕ, ◌<◌, ◌≤◌, ◌^◌, Bool, List, [], ◌∷◌, length, vec_len, IfOk};
ghost use Rattle.std.specs.Option.{ForSome};
ghost use Rattle.trace_losses.specs.Passages.{turns_of};
ghost use Rattle.trace_passages.specs.Turns.{AreThreads};
ghost use Rattle.trace_losses.specs.Runs.{IsArmed, RunApart, IsWhereabouts, IsHolder, IsStopped, nobody_runs, put_at, is_some_of, restored, restored_by};
ghost use Rattle.trace_losses.specs.Walk.{IsFormer, StepsBack, place_of};
ghost use Rattle.trace_passages.specs.declared.passage.Passage.{Passage};
ghost use Rattle.trace_passages.specs.declared.turn.Turn.{Turn};

use crate::former::Former;
use std::alloc::{AllocError, Global};
use trace_passages::{Passage, Turn};

/// Of each thread the processor that it runs on, if it runs. The first threads are the tasks.
#[derive(Drop)]
pub struct Runners {
    pub processors: Vec<Option<u32>>,
}

impl Runners {
    /// Nobody runs.
    pub fn new(alloc: Global, threads: usize) -> Result<Runners, AllocError>
        ensures armed { IfOk result (λ runners. IsArmed nobody_runs [] runners.processors.items) }
        ensures held { IfOk result (λ runners. IsWhereabouts [] runners.processors.items) }
        ensures apart { IfOk result (λ runners. RunApart runners.processors.items) }
        ensures threads { IfOk result (λ runners. vec_len runners.processors ≡ threads) }
    {
        let mut processors = Vec::new(alloc);
        for thread in 0..threads {
            processors.push(None)?;
        }
        Ok(Runners { processors })
    }

    /// Goes back over a line: who runs before it, by who runs after it.
    pub fn before(&mut self, turn: Turn)
        requires { AreThreads (vec_len self.old.processors) turn }
        ensures armed { (base : ℕ → ℕ → Bool) (after : List Turn) → IsArmed base after self.old.processors.items
            → IsArmed base (turn ∷ after) self.new.processors.items }
        ensures apart { RunApart self.old.processors.items → RunApart self.new.processors.items }
        ensures back { StepsBack turn self.old.processors.items self.new.processors.items }
        ensures threads { vec_len self.new.processors ≡ vec_len self.old.processors }
    {
        match turn {
            Turn::Woken(task) => {
                self.processors[task as usize] = None;
            }
            Turn::Switch {
                processor,
                from,
                to,
            } => {
                stop_all(&mut self.processors, processor);
                self.put(to, None);
                self.put(from, Some(processor));
            }
        }
    }

    /// Goes on over a line: who is where after it, by who was where before it.
    pub fn after(&mut self, turn: Turn)
        requires { AreThreads (vec_len self.old.processors) turn }
        ensures held { (earlier : List Turn) → IsWhereabouts earlier self.old.processors.items
            → IsWhereabouts (turn ∷ earlier) self.new.processors.items }
        ensures apart { RunApart self.old.processors.items → RunApart self.new.processors.items }
        ensures threads { vec_len self.new.processors ≡ vec_len self.old.processors }
    {
        self.before(turn.turned())
    }

    /// Goes on over a passage.
    pub(crate) fn pass(&mut self, passage: Passage)
        requires { ForSome passage.turn (AreThreads (vec_len self.old.processors)) }
        ensures held { (earlier : List Passage)
            → IsWhereabouts (turns_of earlier) self.old.processors.items
            → IsWhereabouts (turns_of (passage ∷ earlier)) self.new.processors.items }
        ensures apart { RunApart self.old.processors.items → RunApart self.new.processors.items }
        ensures threads { vec_len self.new.processors ≡ vec_len self.old.processors }
    {
        if let Some(turn) = passage.turn {
            self.after(turn);
        }
    }

    /// Goes back over a passage.
    pub(crate) fn pass_back(&mut self, passage: Passage)
        requires { ForSome passage.turn (AreThreads (vec_len self.old.processors)) }
        ensures armed { (base : ℕ → ℕ → Bool) (after : List Passage)
            → IsArmed base (turns_of after) self.old.processors.items
            → IsArmed base (turns_of (passage ∷ after)) self.new.processors.items }
        ensures threads { vec_len self.new.processors ≡ vec_len self.old.processors }
    {
        if let Some(turn) = passage.turn {
            self.before(turn);
        }
    }

    /// Goes back over a passage. With the answer one can go on over it again.
    pub(crate) fn trace_back(&mut self, passage: Passage) -> Former
        requires threads { ForSome passage.turn (AreThreads (vec_len self.old.processors)) }
        requires few { vec_len self.old.processors ≤ 2 ^ 32 }
        ensures armed { (base : ℕ → ℕ → Bool) (after : List Passage)
            → IsArmed base (turns_of after) self.old.processors.items
            → IsArmed base (turns_of (passage ∷ after)) self.new.processors.items }
        ensures apart { RunApart self.old.processors.items → RunApart self.new.processors.items }
        ensures within { ForSome result.stopped (λ t. t < vec_len self.old.processors) }
        ensures restored { RunApart self.old.processors.items
            → restored_by passage.turn result self.new.processors.items ≡ self.old.processors.items }
        ensures threads { vec_len self.new.processors ≡ vec_len self.old.processors }
    {
        match passage.turn {
            Some(turn) => {
                let former = self.former(turn);
                self.before(turn);
                former
            }
            None => Former {
                stopped: None,
                from: None,
                to: None,
            },
        }
    }

    /// Goes on over a line that one went back over.
    pub fn restore(&mut self, turn: Option<Turn>, former: Former)
        requires threads { ForSome turn (AreThreads (vec_len self.old.processors)) }
        requires within { ForSome former.stopped (λ t. t < vec_len self.old.processors) }
        ensures restored { self.new.processors.items
            ≡ restored_by turn former self.old.processors.items }
        ensures threads { vec_len self.new.processors ≡ vec_len self.old.processors }
    {
        if let Some(turn) = turn {
            self.restore_turn(turn, former);
        }
    }

    /// The same where the passage says who runs.
    fn restore_turn(&mut self, turn: Turn, former: Former)
        requires threads { AreThreads (vec_len self.old.processors) turn }
        requires within { ForSome former.stopped (λ t. t < vec_len self.old.processors) }
        ensures restored { self.new.processors.items
            ≡ restored turn former self.old.processors.items }
        ensures threads { vec_len self.new.processors ≡ vec_len self.old.processors }
    {
        match turn {
            Turn::Woken(task) => self.put(Some(task), former.from),
            Turn::Switch {
                processor,
                from,
                to,
            } => {
                self.put(former.stopped, Some(processor));
                self.put(to, former.to);
                self.put(from, former.from);
            }
        }
    }

    /// Where the threads of a line are, and who is on its processor.
    fn former(&self, turn: Turn) -> Former
        requires threads { AreThreads (vec_len self.now.processors) turn }
        requires few { vec_len self.now.processors ≤ 2 ^ 32 }
        ensures former { IsFormer turn self.now.processors.items result }
        ensures within { ForSome result.stopped (λ t. t < vec_len self.now.processors) }
    {
        match turn {
            Turn::Woken(task) => Former {
                stopped: None,
                from: self.processors[task as usize],
                to: None,
            },
            Turn::Switch {
                processor,
                from,
                to,
            } => Former {
                stopped: holder(&self.processors, processor),
                from: self.place(from),
                to: self.place(to),
            },
        }
    }

    /// The processor of a thread, if there is one.
    fn place(&self, thread: Option<u32>) -> Option<u32>
        requires { ForSome thread (λ t. t < vec_len self.now.processors) }
        ensures { result ≡ place_of self.now.processors.items thread }
    {
        match thread {
            Some(thread) => self.processors[thread as usize],
            None => None,
        }
    }

    /// Puts a thread, if there is one, on a processor, or on none.
    fn put(&mut self, thread: Option<u32>, processor: Option<u32>)
        requires { ForSome thread (λ t. t < vec_len self.old.processors) }
        ensures put { self.new.processors.items ≡ put_at self.old.processors.items thread processor }
        ensures threads { vec_len self.new.processors ≡ vec_len self.old.processors }
    {
        if let Some(thread) = thread {
            self.processors[thread as usize] = processor;
        }
    }
}

/// The first thread that runs on a processor, if one does.
fn holder(processors: &[Option<u32>], processor: u32) -> Option<u32>
    requires { length processors.now ≤ 2 ^ 32 }
    ensures { IsHolder processors.now processor (length processors.now) result }
{
    for t in 0..processors.len() {
        if is_on(processors[t], processor) {
            return Some(t as u32);
        }
    }
    None
}

/// Whoever runs on a processor stops.
fn stop_all(processors: &mut Vec<Option<u32>>, processor: u32)
    ensures { IsStopped processors.old.items processors.new.items processor (length processors.old.items) }
{
    for t in 0..processors.len() {
        if is_on(processors[t], processor) {
            processors[t] = None;
        }
    }
}

/// Whether a thread runs on a processor.
fn is_on(on: Option<u32>, processor: u32) -> bool
    ensures { result ≡ is_some_of on processor }
{
    match on {
        Some(other) => other == processor,
        None => false,
    }
}
