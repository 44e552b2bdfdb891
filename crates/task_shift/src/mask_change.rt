//! The mask of a task changes.
ghost use Rattle.std.specs.Prelude.{◌<◌};
ghost use Rattle.task_set.specs.TaskSet.{IsMask};
ghost use Rattle.strong_apa.specs.State.{IsState, task_count};
ghost use Rattle.strong_apa.specs.Step.{AffinityStep};

use crate::arrival::come;
use crate::departure::withdraw;
use affinity_mask::ProcSet;
use link_table::{Links, Reply};

/// The mask of a task changes. A ready task departs, and comes back with the new mask. No memory is taken.
pub fn affinity(links: &mut Links, t: u32, mask: ProcSet) -> Reply
    requires number { t < task_count links.old }
    requires mask { IsMask links.old.processors mask }
    ensures step { AffinityStep links.old t mask result links.new }
    ensures valid { IsState links.new }
{
    if !links.is_ready(t) {
        links.set_mask(t, mask);
        return Reply::Masked;
    }
    let gone = withdraw(links, t);
    links.set_mask(t, mask);
    let came = come(links, t);
    Reply::Remasked { gone, came }
}
