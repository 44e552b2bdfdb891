//! What is known of the tasks of a set, as columns by their numbers.
ghost use Rattle.std.specs.Prelude.{◌≡◌, IfOk};

use crate::set::TaskSet;
use affinity_mask::{OutOfMemory, ProcSet};
use std::alloc::Global;

impl TaskSet {
    ghost use Rattle.task_set.specs.TaskSet.{priorities, masks};

    /// The masks of the tasks. Refused only where memory runs out.
    pub fn masks(&self, alloc: Global) -> Result<Vec<ProcSet>, OutOfMemory>
        ensures { IfOk result (λ column. column.items ≡ masks self.now) }
    {
        let mut column = Vec::new(alloc);
        for t in 0..self.len() {
            column.push(self.mask(t))?;
        }
        Ok(column)
    }

    /// The priorities of the tasks. Refused only where memory runs out.
    pub fn priorities(&self, alloc: Global) -> Result<Vec<u32>, OutOfMemory>
        ensures { IfOk result (λ column. column.items ≡ priorities self.now) }
    {
        let mut column = Vec::new(alloc);
        for t in 0..self.len() {
            column.push(self.priority(t))?;
        }
        Ok(column)
    }
}
