//! Where tasks are linked, with an index: each answer is one read.
ghost use Rattle.std.specs.Prelude.{◌≡◌, ℕ, ◌<◌, ◌≤◌, ◌==◌, length, get_or, slice_index, replicate, is_some, IfOk, IfSome, IfNone, if◌then◌else◌, None, IsTrue};
ghost use Rattle.std.specs.Option.{ForSome};
ghost use Rattle.affinity_mask.specs.ProcSet.{has, empty, all_below, Within};
ghost use Rattle.link_table.specs.Layout.{places_without, places_with};

use affinity_mask::{OutOfMemory, ProcSet};
use std::alloc::Global;
use std::marker::Model;

/// The masks of the tasks, the processors on line, and the occupant of each processor.
#[derive(Drop)]
pub(crate) struct Places {
    masks: Vec<ProcSet>,
    online: ProcSet,

    /// By processor: its occupant.
    on: Vec<Option<u32>>,

    /// By task: its processor.
    of: Vec<Option<u8>>,

    /// The occupied processors.
    linked: ProcSet,

    /// By processor, on line or not: the occupied processors whose occupant's mask has it.
    feeders: Vec<ProcSet>,
}

impl Model for Places {
    ghost use Rattle.link_table.specs.Layout.{Layout};

    ghost Value = { Layout };

    ghost use Rattle.link_table.specs.PlacesView.{places_view, IsIndexed};

    ghost view = { places_view };

    ghost invariant = { IsIndexed };
}

impl Places {
    ghost use Rattle.link_table.specs.Layout.{Layout, effective_in, occupant_in, mask_has, runs_on, IsNowhere, with_mask, with_online, with_occupant};

    /// All processors are on line and idle.
    pub(crate) fn new(
        alloc: Global,
        processors: u8,
        masks: Vec<ProcSet>,
    ) -> Result<Places, OutOfMemory>
        requires processors { processors ≤ 64 }
        requires masks { (t : ℕ) → Within (get_or masks.items t empty) (all_below processors) }
        ensures { IfOk result (λ places. places ≡ record {
          masks = masks.items;
          online = all_below processors;
          on = replicate processors None;
        }) }
    {
        let of = vec![in alloc; None; masks.len()]?;
        let on = vec![in alloc; None; processors as usize]?;
        let feeders = vec![in alloc; ProcSet::empty(); processors as usize]?;
        Ok(Places {
            masks,
            online: ProcSet::first(processors),
            on,
            of,
            linked: ProcSet::empty(),
            feeders,
        })
    }

    /// The mask of a task.
    pub(crate) fn mask(&self, t: u32) -> ProcSet
        requires { t < length self.now.masks }
        ensures { result ≡ slice_index self.now.masks t }
    {
        self.masks[t as usize]
    }

    /// The processors of the mask of a task that are on line.
    pub(crate) fn effective(&self, t: u32) -> ProcSet
        requires { t < length self.now.masks }
        ensures { result ≡ effective_in self.now t }
    {
        self.masks[t as usize].both(&self.online)
    }

    /// The processors on line.
    pub(crate) fn online(&self) -> ProcSet
        ensures { result ≡ self.now.online }
    {
        self.online
    }

    /// The occupant of a processor.
    pub(crate) fn on(&self, p: u8) -> Option<u32>
        requires { p < length self.now.on }
        ensures { result ≡ occupant_in self.now p }
    {
        self.on[p as usize]
    }

    /// The processor of a task.
    pub(crate) fn of(&self, t: u32) -> Option<u8>
        requires { t < length self.now.masks }
        ensures place { IfSome result (λ p. occupant_in self.now p ≡ Some t) }
        ensures none { IfNone result (IsNowhere self.now t) }
    {
        self.of[t as usize]
    }

    /// The occupied processors.
    pub(crate) fn linked(&self) -> ProcSet
        ensures { (p : ℕ) → has result p ≡ is_some (occupant_in self.now p) }
    {
        self.linked
    }

    /// The occupied processors whose occupant may run on q.
    pub(crate) fn feeders(&self, q: u8) -> ProcSet
        requires { q < length self.now.on }
        ensures { (p : ℕ) → has result p ≡ runs_on self.now (occupant_in self.now p) q }
    {
        if self.online.has(q) {
            self.feeders[q as usize]
        } else {
            ProcSet::empty()
        }
    }

    /// The mask of a task. Nobody's is empty.
    pub(crate) fn mask_of(&self, guest: Option<u32>) -> ProcSet
        requires { ForSome guest (λ t. t < length self.now.masks) }
        ensures { (q : ℕ) → has result q ≡ mask_has self.now guest q }
    {
        match guest {
            Some(t) => self.mask(t),
            None => ProcSet::empty(),
        }
    }

    /// Another mask for a task that is nowhere.
    pub(crate) fn set_mask(&mut self, t: u32, mask: ProcSet)
        requires number { t < length self.old.masks }
        requires nowhere { IsNowhere self.old t }
        requires mask { Within mask (all_below (length self.old.on)) }
        ensures { self.new ≡ with_mask self.old t mask }
    {
        self.masks[t as usize] = mask;
    }

    /// Puts a processor on line, or takes it off line.
    pub(crate) fn set_online(&mut self, p: u8, on: bool)
        requires { p < length self.old.on }
        ensures { self.new ≡ with_online self.old p on }
    {
        self.online = marked(self.online, p, on);
    }

    /// Puts a task that is nowhere, or nobody, on a processor, and answers who was there.
    pub(crate) fn replace(&mut self, p: u8, guest: Option<u32>) -> Option<u32>
        requires processor { p < length self.old.on }
        requires number { ForSome guest (λ t. t < length self.old.masks) }
        requires nowhere { ForSome guest (IsNowhere self.old) }
        ensures replaced { self.new ≡ with_occupant self.old p guest }
        ensures out { result ≡ occupant_in self.old p }
    {
        let out = self.on[p as usize];
        let before = self.mask_of(out);
        let after = self.mask_of(guest);
        self.on[p as usize] = guest;
        write_places(&mut self.of, out, guest, p);
        self.linked = marked(self.linked, p, guest.is_some());
        write_feeders(&mut self.feeders, p, before, after);
        out
    }

    /// Becomes equal to other places of as many tasks and processors. No memory is taken.
    pub(crate) fn set_to(&mut self, other: &Places)
        requires tasks { length self.old.masks ≡ length other.now.masks }
        requires processors { length self.old.on ≡ length other.now.on }
        ensures { self.new ≡ other.now }
    {
        self.masks.copy_from_slice(&other.masks);
        self.online = other.online;
        self.on.copy_from_slice(&other.on);
        self.of.copy_from_slice(&other.of);
        self.linked = other.linked;
        self.feeders.copy_from_slice(&other.feeders);
    }
}

/// The one that goes out has no processor then, and the one that comes in has p.
fn write_places(of: &mut [Option<u8>], out: Option<u32>, guest: Option<u32>, p: u8)
    requires out { ForSome out (λ u. u < length of.old) }
    requires guest { ForSome guest (λ t. t < length of.old) }
    ensures { of.new ≡ places_with (places_without of.old out) guest p }
{
    if let Some(u) = out {
        of[u as usize] = None;
    }
    if let Some(t) = guest {
        of[t as usize] = Some(p);
    }
}

/// The set with p in it, or without p.
fn marked(set: ProcSet, p: u8, is_in: bool) -> ProcSet
    requires { p < 64 }
    ensures { (q : ℕ) → has result q ≡ (if q == p then is_in else has set q) }
{
    if is_in { set.with(p) } else { set.without(p) }
}

/// Of each processor the set has p then just where the mask of the occupant of p has that processor. Before it had p
/// where the mask of the last occupant did, so the sets stay where both masks have the processor, or neither.
fn write_feeders(feeders: &mut [ProcSet], p: u8, before: ProcSet, after: ProcSet)
    requires processor { p < 64 }
    requires before_inside { (q : ℕ) → IsTrue (has before q) → q < length feeders.old }
    requires after_inside { (q : ℕ) → IsTrue (has after q) → q < length feeders.old }
    requires as_before { (q : ℕ) → q < length feeders.old → has (slice_index feeders.old q) p ≡ has before q }
    ensures { (q r : ℕ) → q < length feeders.old → has (slice_index feeders.new q) r
        ≡ (if r == p then has after q else has (slice_index feeders.old q) r) }
{
    let mut rest = before.minus(&after).either_of(&after.minus(&before));
    while let Some(q) = rest.least() {
        feeders[q as usize] = marked(feeders[q as usize], p, after.has(q));
        rest = rest.without(q);
    }
}
