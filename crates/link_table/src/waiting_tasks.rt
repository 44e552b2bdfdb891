//! The waiting tasks in the order of urgency.
ghost use Rattle.std.specs.Prelude.{◌≡◌, ℕ, ◌<◌, ◌≤◌, length, slice_index, get_or, replicate, set, IfOk, MatchOption, All};
ghost use Rattle.std.specs.Option.{ForSome};
ghost use Rattle.std.specs.List.Sorted.{IsPermutation, IsNonDecreasingBy};
ghost use Rattle.affinity_mask.specs.ProcSet.{empty};
ghost use Rattle.link_table.specs.UrgencyOrder.{AreEntries, AreApart, AreNumbered, IsUrgencyOrder};
ghost use Rattle.link_table.specs.WaitingTasks.{AreRanks};
ghost use Rattle.link_table.specs.declared.ranked.Ranked.{Ranked};

use crate::ranked::Ranked;
use crate::reordering::move_to_place;
use crate::set_tree::SetTree;
use affinity_mask::{OutOfMemory, ProcSet};
use std::alloc::Global;
use std::marker::Model;

/// The priority of each task, and the processors that each waiting task waits for.
#[derive(Drop)]
pub struct WaitingTasks {
    by_task: Vec<u32>,

    /// The tasks from the most urgent one on.
    order: Vec<Ranked>,

    /// By task: its rank, which is its place in the order.
    ranks: Vec<u32>,

    /// By rank: the processors that the task waits for.
    sets: SetTree,
}

impl Model for WaitingTasks {
    ghost use Rattle.link_table.specs.WaitingTasks.{Waiting};

    ghost Value = { Waiting };

    ghost use Rattle.link_table.specs.WaitingTasks.{waiting_view, AreRanked};

    ghost view = { waiting_view };

    ghost invariant = { AreRanked };
}

impl WaitingTasks {
    ghost use Rattle.link_table.specs.WaitingTasks.{Waiting, IsNobodyFor, IsFirstFor, IsNobodyWith, IsTaskWith, exchanged};

    /// Tasks with these priorities, by their numbers. Nobody waits.
    pub fn new(alloc: Global, by_task: Vec<u32>) -> Result<WaitingTasks, OutOfMemory>
        requires { length by_task.items ≤ 1024 }
        ensures { IfOk result (λ waiting. waiting ≡ record {
          priorities = by_task.items;
          masks = replicate (length by_task.items) empty;
        }) }
    {
        let order = order_of(alloc, &by_task)?;
        let ranks = ranks_of(alloc, &order)?;
        let sets = SetTree::new(alloc, order.len())?;
        Ok(WaitingTasks {
            by_task,
            order,
            ranks,
            sets,
        })
    }

    /// How many tasks there are.
    pub fn len(&self) -> u32
        ensures value { result ≡ length self.now.priorities }
        ensures valid { length self.now.masks ≡ length self.now.priorities }
    {
        self.by_task.len() as u32
    }

    /// The priority of a task.
    pub fn priority(&self, t: u32) -> u32
        requires { t < length self.now.priorities }
        ensures { result ≡ slice_index self.now.priorities t }
    {
        self.by_task[t as usize]
    }

    /// A task that has this priority, if there is one.
    pub fn task_with(&self, priority: u32) -> Option<u32>
        ensures { MatchOption result (IsNobodyWith self.now.priorities priority)
            (IsTaskWith self.now.priorities priority) }
    {
        match self
            .order
            .binary_search_by_key(&priority, |entry| entry.priority)
        {
            Ok(rank) => Some(self.order[rank].task),
            Err(_) => None,
        }
    }

    /// A task has this priority then, waiting or not. No memory is taken.
    pub fn set_priority(&mut self, t: u32, priority: u32)
        requires { t < length self.old.priorities }
        ensures { self.new ≡ record self.old { priorities = set self.old.priorities t priority } }
    {
        let rank = self.ranks[t as usize] as usize;
        self.by_task[t as usize] = priority;
        self.order[rank] = Ranked { priority, task: t };
        move_to_place(&mut self.order, &mut self.ranks, &mut self.sets, rank);
    }

    /// A task waits for these processors then, or for none.
    pub fn write(&mut self, t: u32, runs: ProcSet)
        requires { t < length self.old.priorities }
        ensures { self.new ≡ record self.old { masks = set self.old.masks t runs } }
    {
        self.sets.write(self.ranks[t as usize] as usize, runs);
    }

    /// A task waits no longer, and the one that goes out, if one does, waits for these processors.
    pub fn exchange(&mut self, t: u32, out: Option<u32>, runs: ProcSet)
        requires number { t < length self.old.priorities }
        requires out_number { ForSome out (λ u. u < length self.old.priorities) }
        ensures { self.new ≡ exchanged self.old t out runs }
    {
        self.write(t, ProcSet::empty());
        if let Some(u) = out {
            self.write(u, runs);
        }
    }

    /// The most urgent task that waits for a processor of a set, if there is one.
    pub fn first_for(&self, set: ProcSet) -> Option<u32>
        ensures { MatchOption result (IsNobodyFor self.now set) (IsFirstFor self.now set) }
    {
        let Some(rank) = self.sets.first_meeting(&set) else {
            return None;
        };
        Some(self.order[rank].task)
    }

    /// Becomes equal to another table of the same tasks. No memory is taken.
    pub fn set_to(&mut self, other: &WaitingTasks)
        requires { self.old.priorities ≡ other.now.priorities }
        ensures { self.new ≡ other.now }
    {
        self.order.copy_from_slice(&other.order);
        self.ranks.copy_from_slice(&other.ranks);
        self.sets.set_to(&other.sets);
    }
}

/// All tasks, from the most urgent one on.
fn order_of(alloc: Global, by_task: &[u32]) -> Result<Vec<Ranked>, OutOfMemory>
    requires { length by_task.now ≤ 1024 }
    ensures order { IfOk result (λ order. IsUrgencyOrder by_task.now order.items) }
    ensures count { IfOk result (λ order. length order.items ≡ length by_task.now) }
    ensures apart { IfOk result (λ order. AreApart order.items) }
{
    let mut order = entries_of(alloc, by_task)?;
    sort_by_priority(&mut order);
    Ok(order)
}

/// The entries of all tasks, in the order of their numbers.
fn entries_of(alloc: Global, by_task: &[u32]) -> Result<Vec<Ranked>, OutOfMemory>
    requires { length by_task.now ≤ 1024 }
    ensures entries { IfOk result (λ entries. AreEntries by_task.now entries.items) }
    ensures count { IfOk result (λ entries. length entries.items ≡ length by_task.now) }
    ensures numbered { IfOk result (λ entries. AreNumbered entries.items) }
{
    let mut entries = Vec::new(alloc);
    for t in 0..by_task.len() {
        entries.push(Ranked {
            priority: by_task[t],
            task: t as u32,
        })?;
    }
    Ok(entries)
}

/// Sorts entries by their priorities.
fn sort_by_priority(entries: &mut Vec<Ranked>)
    ensures moved { IsPermutation entries.old.items entries.new.items }
    ensures sorted { IsNonDecreasingBy (λ (entry : Ranked). entry.priority) entries.new.items }
{
    entries.sort_unstable_by_key(|entry| entry.priority);
}

/// By task: its place in an order.
fn ranks_of(alloc: Global, order: &[Ranked]) -> Result<Vec<u32>, OutOfMemory>
    requires few { length order.now ≤ 1024 }
    requires numbers { All (λ (entry : Ranked). entry.task < length order.now) order.now }
    requires apart { AreApart order.now }
    ensures count { IfOk result (λ ranks. length ranks.items ≡ length order.now) }
    ensures ranks { IfOk result (λ ranks. AreRanks order.now ranks.items) }
{
    let mut ranks = zeros(alloc, order.len())?;
    write_ranks(&mut ranks, order);
    Ok(ranks)
}

/// So many zeros.
fn zeros(alloc: Global, count: usize) -> Result<Vec<u32>, OutOfMemory>
    ensures { IfOk result (λ zeros. length zeros.items ≡ count) }
{
    let mut zeros = Vec::new(alloc);
    for _i in 0..count {
        zeros.push(0)?;
    }
    Ok(zeros)
}

/// Writes its place at each task of an order.
fn write_ranks(ranks: &mut [u32], order: &[Ranked])
    requires few { length order.now ≤ 1024 }
    requires numbers { All (λ (entry : Ranked). entry.task < length ranks.old) order.now }
    requires apart { AreApart order.now }
    ensures { AreRanks order.now ranks.new }
{
    for r in 0..order.len() {
        ranks[order[r].task as usize] = r as u32;
    }
}
