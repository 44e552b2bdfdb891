//! A set of tasks, numbered in the order in which they were added.

ghost use Rattle.std.specs.Prelude.{◌≡◌, ℕ, ◌<◌, ◌≤◌, ◌⊎◌, [], length, slice_index, IsTrue, IfOk, IfErr, OnOk, OnErr, MatchOption, IsOkUnless};
ghost use Rattle.affinity_mask.specs.ProcSet.{has};
ghost use Rattle.task_set.specs.Refusal.{new_task, CanAdd, AddsTask, IsRefusal, IsNewName, IsNameOf, IsNewPriority, IsPriorityOf, IsLeastOutside};

use crate::fault::TaskFault;
use crate::name::is_name;
use affinity_mask::{OutOfMemory, ProcSet};
use indexmap::{IndexMap, IndexSet};
use std::alloc::Global;
use std::marker::Model;

/// How many tasks a set has at most.
pub const MAX_TASKS: usize = 1024;

/// A task but for its name.
#[derive(Clone, Copy)]
struct Details {
    priority: u32,
    mask: ProcSet,
}

/// The tasks of a scheduler, on a fixed number of processors. A task's number is its place in the order of adding.
#[derive(Drop)]
pub struct TaskSet {
    processors: u8,
    tasks: IndexMap<String, Details>,

    /// The priorities of the tasks, in the same order, so that a clash is found without a scan.
    priorities: IndexSet<u32>,
}

impl Model for TaskSet {
    ghost use Rattle.task_set.specs.TaskSet.{SetData};

    ghost Value = { SetData };

    ghost use Rattle.task_set.specs.SetView.{set_view, IsStored};

    ghost view = { set_view };

    ghost invariant = { IsStored };
}

impl TaskSet {
    ghost use Rattle.task_set.specs.TaskSet.{IsTaskSet, with_task, priorities, masks};
    ghost use Rattle.task_set.specs.declared.fault.TaskFault.{TaskFault};

    /// A set without tasks. Refused only where memory runs out.
    pub fn new(alloc: Global, processors: u8) -> Result<TaskSet, OutOfMemory>
        requires { (1 ≤ processors) × (processors ≤ 64) }
        ensures { IfOk result (λ set. set ≡ record { processors = processors; tasks = [] }) }
    {
        Ok(TaskSet {
            processors,
            tasks: IndexMap::new(alloc),
            priorities: IndexSet::new(alloc),
        })
    }

    /// Adds a task, and answers its number. A refusal is the first in the order of `TaskFault` that holds.
    pub fn add(&mut self, name: &str, priority: u32, mask: ProcSet) -> Result<u32, TaskFault>
        ensures added { IfOk result (AddsTask self.old self.new (new_task name.now priority mask)) }
        ensures unchanged { OnErr result (self.new ≡ self.old) }

        // Each refusal comes only with its cause.
        ensures refused { IfErr result (λ fault. (fault ≡ TaskFault.OutOfMemory)
            ⊎ IsRefusal self.old (new_task name.now priority mask) fault) }

        // Only OutOfMemory comes in place of the answer that is expected.
        ensures refuses { (fault : TaskFault) → IsRefusal self.old (new_task name.now priority mask) fault
            → (result ≡ Err fault) ⊎ (result ≡ Err TaskFault.OutOfMemory) }
        ensures adds { CanAdd self.old (new_task name.now priority mask) → IsOkUnless result TaskFault.OutOfMemory }
    {
        let number = self.len();
        if let Some(fault) = self.refusal(name, priority, mask) {
            return Err(fault);
        }
        self.store(name, priority, mask)?;
        Ok(number)
    }

    /// The number of the task with this name, if there is one.
    pub fn find(&self, name: &str) -> Option<u32>
        ensures { MatchOption result (IsNewName self.now name.now) (λ t. IsNameOf self.now t name.now) }
    {
        let t = self.tasks.get_index_of(name)?;
        Some(t as u32)
    }

    /// The name of a task.
    pub fn name(&self, t: u32) -> &str
        requires { t < length self.now.tasks }
        ensures { IsNameOf self.now t result.now }
    {
        let (name, _) = self.tasks.get_index(t as usize).unwrap();
        name.as_str()
    }

    /// The priority of a task. The lower number is more urgent.
    pub fn priority(&self, t: u32) -> u32
        requires { t < length self.now.tasks }
        ensures { result ≡ slice_index (priorities self.now) t }
    {
        self.tasks[t as usize].priority
    }

    /// The affinity mask of a task.
    pub fn mask(&self, t: u32) -> ProcSet
        requires { t < length self.now.tasks }
        ensures { result ≡ slice_index (masks self.now) t }
    {
        self.tasks[t as usize].mask
    }

    /// How many tasks there are.
    pub fn len(&self) -> u32
        ensures value { result ≡ length self.now.tasks }
        ensures bound { result ≤ MAX_TASKS }
        ensures valid { IsTaskSet self.now }
    {
        self.tasks.len() as u32
    }

    /// How many processors there are.
    pub fn processors(&self) -> u8
        ensures value { result ≡ self.now.processors }
        ensures valid { IsTaskSet self.now }
    {
        self.processors
    }

    /// Why a task is refused, or `None` where it can be added.
    fn refusal(&self, name: &str, priority: u32, mask: ProcSet) -> Option<TaskFault>
        ensures { MatchOption result (CanAdd self.now (new_task name.now priority mask))
            (IsRefusal self.now (new_task name.now priority mask)) }
    {
        if !is_name(name.as_bytes()) {
            return Some(TaskFault::BadName);
        }
        if self.tasks.len() == MAX_TASKS {
            return Some(TaskFault::Many);
        }
        if let Some(t) = self.find(name) {
            return Some(TaskFault::SameName(t));
        }
        if let Some(t) = self.find_priority(priority) {
            return Some(TaskFault::SamePriority(t));
        }
        if mask.is_empty() {
            return Some(TaskFault::EmptyMask);
        }
        let p = least_outside(&mask, self.processors)?;
        Some(TaskFault::OutsideMask(p))
    }

    /// The number of the task with this priority, if there is one.
    fn find_priority(&self, priority: u32) -> Option<u32>
        ensures { MatchOption result (IsNewPriority self.now priority) (λ t. IsPriorityOf self.now t priority) }
    {
        let t = self.priorities.get_index_of(&priority)?;
        Some(t as u32)
    }

    /// Puts a task last.
    fn store(&mut self, name: &str, priority: u32, mask: ProcSet) -> Result<(), OutOfMemory>
        requires { CanAdd self.old (new_task name.now priority mask) }
        ensures stored { OnOk result (self.new ≡ with_task self.old (new_task name.now priority mask)) }
        ensures unchanged { OnErr result (self.new ≡ self.old) }
    {
        let key = String::from_str(*self.tasks.allocator(), name)?;
        self.priorities.reserve(1)?;
        self.tasks.insert(key, Details { priority, mask })?;
        self.priorities.insert(priority)?;
        Ok(())
    }
}

/// The least number in a mask that is no processor of m, if there is one.
fn least_outside(mask: &ProcSet, m: u8) -> Option<u8>
    requires { m ≤ 64 }
    ensures { MatchOption result ((p : ℕ) → IsTrue (has mask.now p) → p < m) (IsLeastOutside m mask.now) }
{
    mask.minus(&ProcSet::first(m)).least()
}
