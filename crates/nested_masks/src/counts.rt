//! Which tasks are ready and linked, and what the masks hold.
ghost use Rattle.std.specs.Prelude.{◌≡◌, ◌⊎◌, ℕ, ◌<◌, ◌≤◌, ◌↔◌, ◌+◌, IsTrue, IfOk, IfErr, MatchOption, true, false, length, replicate, set};
ghost use Rattle.affinity_mask.specs.ProcSet.{Within};
ghost use Rattle.task_set.specs.TaskSet.{masks};
ghost use Rattle.nested_masks.specs.Laminar.{IsLaminar, IsTight, tasks_in};
ghost use Rattle.nested_masks.specs.Answers.{IsCrossingFault};
ghost use Rattle.nested_masks.specs.declared.fault.NestedFault.{NestedFault};

use crate::crossing::first_crossing;
use crate::fault::NestedFault;
use crate::held_counts::{hold_one_less, hold_one_more};
use affinity_mask::{OutOfMemory, ProcSet};
use std::alloc::Global;
use std::marker::Model;
use task_set::TaskSet;

/// Columns by the number of the task.
#[derive(Drop)]
pub(crate) struct Counts {
    processors: u8,
    priorities: Vec<u32>,
    masks: Vec<ProcSet>,
    ready: Vec<bool>,
    linked: Vec<bool>,

    /// How many linked tasks have masks within its own.
    held: Vec<u32>,
}

impl Model for Counts {
    ghost use Rattle.nested_masks.specs.NestedData.{NestedData};

    ghost Value = { NestedData };

    ghost use Rattle.nested_masks.specs.Views.{counts_view, IsStored};

    ghost view = { counts_view };

    ghost invariant = { IsStored };
}

impl Counts {
    ghost use Rattle.nested_masks.specs.NestedData.{nested_start, IsCounted, ready_of, linked_of, mask_in, IsUrgenter};
    ghost use Rattle.nested_masks.specs.LaminarStep.{with_waiting, with_linked, with_unlinked, without_task, IsInNoTight, IsLeastTight, IsLeastUrgentIn, AllUrgenterIn, MayEnter, IsMostUrgentFree, IsNobodyFree};
    ghost use Rattle.nested_masks.specs.NestedText.{linked_count};
    ghost use Rattle.nested_masks.specs.Scans.{IsTightUnion, IsScan, IsTightAround, IsHeldIn, LiesWithin, IsNoMoreUrgent, IsNoLessUrgent};

    /// Every task of the set is absent.
    pub(crate) fn new(alloc: Global, set: &TaskSet) -> Result<Counts, NestedFault>
        ensures start { IfOk result (λ counts. counts ≡ nested_start set.now) }
        ensures laminar { IfOk result (λ counts. IsLaminar (masks set.now)) }
        ensures refused { IfErr result (λ fault. (fault ≡ NestedFault.OutOfMemory)
            ⊎ IsCrossingFault set.now fault) }
    {
        let count = set.len();
        let masks = set.masks(alloc)?;
        if let Some((one, other)) = first_crossing(&masks) {
            return Err(NestedFault::Crossing { one, other });
        }
        let priorities = set.priorities(alloc)?;
        let (ready, linked, held) = nobody(alloc, count as usize)?;
        Ok(Counts {
            processors: set.processors(),
            priorities,
            masks,
            ready,
            linked,
            held,
        })
    }

    /// How many tasks there are.
    pub(crate) fn len(&self) -> u32
        ensures value { result ≡ length self.now.priorities }
        ensures bound { result ≤ 1024 }
        ensures valid { IsCounted self.now }
    {
        self.priorities.len() as u32
    }

    /// Whether a task is ready.
    pub(crate) fn is_ready(&self, t: u32) -> bool
        requires { t < length self.now.priorities }
        ensures { result ≡ ready_of self.now t }
    {
        self.ready[t as usize]
    }

    /// Whether a task is linked.
    pub(crate) fn is_linked(&self, t: u32) -> bool
        requires { t < length self.now.priorities }
        ensures { result ≡ linked_of self.now t }
    {
        self.linked[t as usize]
    }

    /// How many tasks are linked.
    pub(crate) fn linked_count(&self) -> u32
        ensures { result ≡ linked_count self.now }
    {
        self.within(ProcSet::first(self.processors))
    }

    /// The mask of a task.
    fn mask(&self, t: u32) -> ProcSet
        requires { t < length self.now.priorities }
        ensures value { result ≡ mask_in self.now t }
        ensures valid { IsCounted self.now }
    {
        self.masks[t as usize]
    }

    /// How many linked tasks have masks within a set.
    pub(crate) fn within(&self, x: ProcSet) -> u32
        ensures { result ≡ length (tasks_in self.now.masks (linked_of self.now) x) }
    {
        let mut count = 0;
        for t in 0..self.len() {
            if self.is_held(x, t) {
                count += 1;
            }
        }
        count
    }

    /// Whether a task is linked, and its mask lies within a set.
    fn is_held(&self, x: ProcSet, t: u32) -> bool
        requires { t < length self.now.priorities }
        ensures { IsTrue result ↔ IsHeldIn self.now x t }
    {
        self.linked[t as usize] && self.masks[t as usize].within(&x)
    }

    /// Whether the mask of a task is a tight node.
    fn is_tight(&self, t: u32) -> bool
        requires { t < length self.now.priorities }
        ensures { IsTrue result ↔ IsTight self.now.masks (linked_of self.now) (mask_in self.now t) }
    {
        self.held[t as usize] == u32::from(self.masks[t as usize].count())
    }

    /// The smallest tight node that contains the mask of a task.
    pub(crate) fn least_tight(&self, t: u32) -> Option<ProcSet>
        requires { t < length self.now.priorities }
        ensures { MatchOption result (IsInNoTight self.now (mask_in self.now t))
            (IsLeastTight self.now (mask_in self.now t)) }
    {
        let mut found = None;
        for u in 0..self.len() {
            found = self.smaller_tight(t, found, u);
        }
        match found {
            Some(u) => Some(self.mask(u)),
            None => None,
        }
    }

    /// The next task, where its mask is a smaller tight node around that of t than what was found.
    fn smaller_tight(&self, t: u32, found: Option<u32>, u: u32) -> Option<u32>
        requires number { t < length self.now.priorities }
        requires next { u < length self.now.priorities }
        requires scanned { IsScan (IsTightAround self.now (mask_in self.now t))
            (LiesWithin self.now) u found }
        ensures { IsScan (IsTightAround self.now (mask_in self.now t))
            (LiesWithin self.now) (u + 1) result }
    {
        let node = self.mask(u);
        if !self.mask(t).within(&node) || !self.is_tight(u) {
            return found;
        }
        let Some(best) = found else {
            return Some(u);
        };
        let smaller = self.mask(best);
        if smaller.within(&node) {
            found
        } else {
            Some(u)
        }
    }

    /// The least urgent linked task that a node holds, where it is less urgent than t, which is absent.
    pub(crate) fn displaced(&self, node: ProcSet, t: u32) -> Option<u32>
        requires number { t < length self.now.priorities }
        requires absent { ready_of self.now t ≡ false }
        ensures { MatchOption result (AllUrgenterIn self.now node t)
            (λ out. (out < length self.now.priorities) × IsLeastUrgentIn self.now node out
            × IsUrgenter self.now t out) }
    {
        let _valid = self.len();
        let Some(out) = self.least_urgent(node) else {
            return None;
        };
        if self.is_more_urgent(t, out) {
            Some(out)
        } else {
            None
        }
    }

    /// The least urgent linked task that a node holds, if it holds one.
    fn least_urgent(&self, node: ProcSet) -> Option<u32>
        ensures { IsScan (IsHeldIn self.now node) (IsNoMoreUrgent self.now)
            (length self.now.priorities) result }
    {
        let mut found = None;
        for u in 0..self.len() {
            found = self.less_urgent(node, found, u);
        }
        found
    }

    /// The next task, where the node holds it and it is less urgent than the one that was found.
    fn less_urgent(&self, node: ProcSet, found: Option<u32>, u: u32) -> Option<u32>
        requires next { u < length self.now.priorities }
        requires scanned { IsScan (IsHeldIn self.now node) (IsNoMoreUrgent self.now) u found }
        ensures { IsScan (IsHeldIn self.now node) (IsNoMoreUrgent self.now) (u + 1) result }
    {
        if !self.is_held(node, u) {
            return found;
        }
        let Some(least) = found else {
            return Some(u);
        };
        if self.is_more_urgent(u, least) {
            found
        } else {
            Some(u)
        }
    }

    /// Whether one task is more urgent than another.
    fn is_more_urgent(&self, a: u32, b: u32) -> bool
        requires one { a < length self.now.priorities }
        requires other { b < length self.now.priorities }
        ensures { IsTrue result ↔ IsUrgenter self.now a b }
    {
        self.priorities[a as usize] < self.priorities[b as usize]
    }

    /// The most urgent waiting task whose mask lies in no tight node.
    pub(crate) fn most_urgent_free(&self) -> Option<u32>
        ensures { MatchOption result (IsNobodyFree self.now)
            (λ w. (w < length self.now.priorities) × IsMostUrgentFree self.now w) }
    {
        let tight = self.tight_processors();
        let mut found = None;
        for w in 0..self.len() {
            found = self.more_urgent_free(tight, found, w);
        }
        found
    }

    /// The next task, where it may enter and is more urgent than the one that was found.
    fn more_urgent_free(&self, tight: ProcSet, found: Option<u32>, w: u32) -> Option<u32>
        requires next { w < length self.now.priorities }
        requires union { IsTightUnion self.now (length self.now.priorities) tight }
        requires scanned { IsScan (MayEnter self.now) (IsNoLessUrgent self.now) w found }
        ensures { IsScan (MayEnter self.now) (IsNoLessUrgent self.now) (w + 1) result }
    {
        if !self.may_enter(tight, w) {
            return found;
        }
        let Some(most) = found else {
            return Some(w);
        };
        if self.is_more_urgent(most, w) {
            found
        } else {
            Some(w)
        }
    }

    /// Whether a task waits, and its mask lies in no tight node. As masks nest, a mask that lies in none has a processor
    /// that no tight node has.
    fn may_enter(&self, tight: ProcSet, w: u32) -> bool
        requires number { w < length self.now.priorities }
        requires union { IsTightUnion self.now (length self.now.priorities) tight }
        ensures { IsTrue result ↔ MayEnter self.now w }
    {
        if !self.is_ready(w) || self.is_linked(w) {
            return false;
        }
        !self.mask(w).within(&tight)
    }

    /// The processors of the tight nodes.
    fn tight_processors(&self) -> ProcSet
        ensures { IsTightUnion self.now (length self.now.priorities) result }
    {
        let mut union = ProcSet::empty();
        for u in 0..self.len() {
            if self.is_tight(u) {
                union = union.either_of(&self.masks[u as usize]);
            }
        }
        union
    }

    /// An absent task becomes ready, and waits.
    pub(crate) fn make_ready(&mut self, t: u32)
        requires { t < length self.old.priorities }
        ensures { self.new ≡ with_waiting self.old t }
    {
        self.ready[t as usize] = true;
    }

    /// A task becomes absent, whether it was linked or waited.
    pub(crate) fn leave(&mut self, t: u32)
        requires { t < length self.old.priorities }
        ensures { self.new ≡ without_task self.old t }
    {
        if self.is_linked(t) {
            self.unlink(t);
        }
        self.make_absent(t);
    }

    /// A task that is not linked becomes absent.
    fn make_absent(&mut self, t: u32)
        requires number { t < length self.old.priorities }
        requires not_linked { linked_of self.old t ≡ false }
        ensures { self.new ≡ record self.old { ready = set self.old.ready t false } }
    {
        self.ready[t as usize] = false;
    }

    /// A waiting task is linked, whose mask lies in no tight node.
    pub(crate) fn link(&mut self, t: u32)
        requires number { t < length self.old.priorities }
        requires ready { ready_of self.old t ≡ true }
        requires not_linked { linked_of self.old t ≡ false }
        requires free { IsInNoTight self.old (mask_in self.old t) }
        ensures { self.new ≡ with_linked self.old t }
    {
        let mask = self.mask(t);
        hold_one_more(&mut self.held, &self.masks, mask);
        self.linked[t as usize] = true;
    }

    /// A linked task waits then.
    pub(crate) fn unlink(&mut self, t: u32)
        requires number { t < length self.old.priorities }
        requires linked { linked_of self.old t ≡ true }
        ensures { self.new ≡ with_unlinked self.old t }
    {
        let mask = self.mask(t);
        hold_one_less(&mut self.held, &self.masks, mask);
        self.linked[t as usize] = false;
    }
}

/// Of so many tasks nobody is ready or linked, and no mask holds one.
fn nobody(alloc: Global, count: usize) -> Result<(Vec<bool>, Vec<bool>, Vec<u32>), OutOfMemory>
    ensures ready { IfOk result (λ made. made.0.items ≡ replicate count false) }
    ensures linked { IfOk result (λ made. made.1.items ≡ replicate count false) }
    ensures held { IfOk result (λ made. made.2.items ≡ replicate count 0) }
{
    let ready = vec![in alloc; false; count]?;
    let linked = vec![in alloc; false; count]?;
    let held = vec![in alloc; 0; count]?;
    Ok((ready, linked, held))
}
