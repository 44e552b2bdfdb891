//! The scheduler without a history.
ghost use Rattle.std.specs.Prelude.{◌≡◌, ◌≢◌, ◌<◌, ◌≤◌, ◌↔◌, ℕ, List, Option, Some, None, [], true, false, length, replicate, IsTrue, IfOk, IfErr, OnOk, OnErr};
ghost use Rattle.task_set.specs.TaskSet.{IsMask};
ghost use Rattle.strong_apa.specs.State.{IsState, start_of, is_ready, task_count, task_on, priority_of};
ghost use Rattle.link_table.specs.Priorities.{IsFreeFor};
ghost use Rattle.strong_apa.specs.Step.{IsEventFor, SchedulerStep};
ghost use Rattle.strong_apa.specs.Certified.{HasCertificates};
ghost use Rattle.strong_apa.specs.Improving.{HasNoImprovingChain};
ghost use Rattle.strong_apa.specs.CertificateLaws.{LinkedIsBest, LinkedIsLargest, LinkedIsAsUrgent};
ghost use Rattle.live_core.specs.Lost.{FindsLost, FindsChain, HelpsLost, HelpsTask, HelpsNobody, AreHolders, state_held, data_with_seen};
ghost use Rattle.live_core.specs.Moves.{MovesLead};
ghost use Rattle.live_core.specs.Needed.{AreNeeded};
ghost use Rattle.live_core.specs.Optimal.{IsOptimal};
ghost use Rattle.live_core.specs.Seen.{IsLost};
ghost use Rattle.live_core.specs.Slots.{is_in_use, IsEventInUse, AreFreeAbsent, IsSlotFor, Admits, IsAdmitFault, GetsPriority, IsPriorityFault, data_with_free};

use crate::moves::{Move, MoveList};
use crate::seen::SeenPlacement;
use crate::slots::{SlotFault, first_free, slots_in_use};
use affinity_mask::{OutOfMemory, ProcSet};
use link_table::{Chain, Links, Reply};
use std::alloc::Global;
use std::marker::Model;
use task_set::{Event, TaskSet};
use task_shift::reply_to;

/// Who is linked where, the reply to the last event, and the moves that it asks for.
#[derive(Drop)]
pub struct LiveCore {
    links: Links,
    last: Reply,
    moves: MoveList,

    /// By task: whether its slot is in use.
    in_use: Vec<bool>,

    /// Where another scheduler has the tasks.
    seen: SeenPlacement,
}

impl Model for LiveCore {
    ghost use Rattle.live_core.specs.Live.{LiveData};

    ghost Value = { LiveData };

    ghost use Rattle.live_core.specs.LiveView.{live_view, IsKept};

    ghost view = { live_view };

    ghost invariant = { IsKept };
}

impl LiveCore {
    /// Every task of the set is absent, and its slot is in use; every processor is idle. Refused only where memory runs out.
    pub fn new(alloc: Global, set: &TaskSet) -> Result<LiveCore, OutOfMemory>
        ensures { IfOk result (λ core. core ≡ record {
          links = start_of set.now;
          last = Reply.Ticked;
          moves = [];
          in_use = replicate (length set.now.tasks) true;
          seen = replicate (length set.now.tasks) None;
          holders = None;
        }) }
    {
        let processors = set.processors();
        let in_use = slots_in_use(alloc, set.len())?;
        let moves = MoveList::new(alloc, processors)?;
        let seen = SeenPlacement::new(alloc, set)?;
        let links = Links::new(alloc, set)?;
        Ok(LiveCore {
            links,
            last: Reply::Ticked,
            moves,
            in_use,
            seen,
        })
    }

    /// Applies an event. The reply and the moves stay until the next event.
    pub fn apply(&mut self, event: Event)
        requires event { IsEventFor self.old.links event }
        requires in_use { IsEventInUse self.old event }
        ensures step { SchedulerStep self.old.links event self.new.last self.new.links }
        ensures moves { MovesLead self.old.links.on self.new.moves self.new.links.on }
        ensures few { length self.new.moves ≤ 130 }
        ensures needed { AreNeeded event self.new.last self.old.links.on self.new.links.on self.new.moves }
        ensures certified { HasCertificates self.new.links }
        ensures unimprovable { HasNoImprovingChain self.new.links }
        ensures best { LinkedIsBest self.new.links }
        ensures largest { LinkedIsLargest self.new.links }
        ensures rank_by_rank { LinkedIsAsUrgent self.new.links }
        ensures valid { IsState self.new.links }
        ensures slots { self.new.in_use ≡ self.old.in_use }
        ensures seen { self.new.seen ≡ self.old.seen }
        ensures holders { self.new.holders ≡ None }
    {
        self.last = reply_to(&mut self.links, &event);
        self.moves.follow(&event, &self.last);
        self.seen.unsettle();
    }

    /// Admits a task, which is absent then: a free slot is in use, with this priority and this mask. The answer is its number.
    pub fn admit(&mut self, priority: u32, mask: ProcSet) -> Result<u32, SlotFault>
        requires { IsMask self.old.links.processors mask }
        ensures admitted { IfOk result (λ t. Admits self.old priority mask t self.new) }
        ensures number { IfOk result (λ t. t < 1024) }
        ensures same { OnErr result (self.new ≡ self.old) }
        ensures refused { IfErr result (IsAdmitFault self.old priority) }
        ensures optimal { IsOptimal self.new.links }
        ensures free { AreFreeAbsent self.new.links self.new.in_use }
    {
        let _kept = &self.links;
        match self.slot_for(priority) {
            Ok(t) => {
                self.occupy(t, priority, mask);
                Ok(t)
            }
            Err(fault) => Err(fault),
        }
    }

    /// The free slot that has the priority, else the first one, where no task in use has the priority.
    fn slot_for(&self, priority: u32) -> Result<u32, SlotFault>
        ensures slot { IfOk result (IsSlotFor self.now priority) }
        ensures fault { IfErr result (IsAdmitFault self.now priority) }
    {
        if let Some(t) = self.links.task_with(priority) {
            return if self.in_use[t as usize] {
                Err(SlotFault::SamePriority(t))
            } else {
                Ok(t)
            };
        }
        match first_free(&self.in_use) {
            Some(t) => Ok(t),
            None => Err(SlotFault::NoSlot),
        }
    }

    /// A free slot is in use, with this priority and this mask.
    fn occupy(&mut self, t: u32, priority: u32, mask: ProcSet)
        requires slot { IsSlotFor self.old priority t }
        requires mask { IsMask self.old.links.processors mask }
        ensures admitted { Admits self.old priority mask t self.new }
        ensures number { t < 1024 }
        ensures optimal { IsOptimal self.new.links }
        ensures free { AreFreeAbsent self.new.links self.new.in_use }
    {
        self.links.set_priority(t, priority);
        self.links.set_mask(t, mask);
        self.in_use[t as usize] = true;
        self.seen.set_priority(t, priority);
        self.seen.see(t, None);
    }

    /// An absent task retires: its slot is free.
    pub fn retire(&mut self, t: u32)
        requires in_use { is_in_use self.old t ≡ true }
        requires absent { is_ready self.old.links t ≡ false }
        ensures retired { self.new ≡ data_with_free self.old t }
        ensures optimal { IsOptimal self.new.links }
        ensures free { AreFreeAbsent self.new.links self.new.in_use }
    {
        self.in_use[t as usize] = false;
    }

    /// Sets the priority of an absent task. A free slot that has it gets the old one.
    pub fn set_priority(&mut self, t: u32, priority: u32) -> Result<(), SlotFault>
        requires in_use { is_in_use self.old t ≡ true }
        requires absent { is_ready self.old.links t ≡ false }
        ensures done { OnOk result (GetsPriority self.old t priority self.new) }
        ensures same { OnErr result (self.new ≡ self.old) }
        ensures refused { IfErr result (IsPriorityFault self.old t priority) }
        ensures optimal { IsOptimal self.new.links }
    {
        if let Some(u) = self.links.task_with(priority) {
            if u != t {
                return self.take_priority(t, u);
            }
        }
        self.write_priority(t, priority);
        Ok(())
    }

    /// An absent task in use gets the priority of another slot, and gives it its own, if the slot is free.
    fn take_priority(&mut self, t: u32, u: u32) -> Result<(), SlotFault>
        requires in_use { is_in_use self.old t ≡ true }
        requires absent { is_ready self.old.links t ≡ false }
        requires number { u < task_count self.old.links }
        requires other { u ≢ t }
        ensures done { OnOk result (GetsPriority self.old t (priority_of self.old.links u) self.new) }
        ensures same { OnErr result (self.new ≡ self.old) }
        ensures refused { IfErr result (IsPriorityFault self.old t (priority_of self.old.links u)) }
        ensures optimal { IsOptimal self.new.links }
    {
        if self.in_use[u as usize] {
            return Err(SlotFault::SamePriority(u));
        }
        self.links.exchange_priorities(t, u);
        self.seen.exchange_priorities(t, u);
        Ok(())
    }

    /// An absent task gets a priority that no other slot has.
    fn write_priority(&mut self, t: u32, priority: u32)
        requires in_use { is_in_use self.old t ≡ true }
        requires absent { is_ready self.old.links t ≡ false }
        requires is_new { IsFreeFor self.old.links t priority }
        ensures done { GetsPriority self.old t priority self.new }
        ensures optimal { IsOptimal self.new.links }
    {
        self.links.set_priority(t, priority);
        self.seen.set_priority(t, priority);
    }

    /// A task is seen on a processor, or nowhere: there another scheduler has it.
    pub fn see(&mut self, t: u32, place: Option<u8>)
        requires { is_in_use self.old t ≡ true }
        ensures { self.new ≡ data_with_seen self.old t place }
    {
        let _count = self.links.len();
        self.seen.see(t, place);
    }

    /// The most urgent linked task that holds no processor, if there is one. A processor is held by the most urgent linked task that
    /// is seen there and may run there; after a help, and until an event or a call of `see`, by whoever held it then.
    pub fn lost(&mut self) -> Option<u32>
        ensures { FindsLost self.old result self.new }
    {
        self.seen.settle(&self.links);
        self.seen.lost(&self.links)
    }

    /// Helps the most urgent lost task, if any is lost: the moves are those of a shortest chain that gives it a processor, and all
    /// are seen then where they lead. Answers the task.
    pub fn help(&mut self) -> Option<u32>
        ensures { HelpsLost self.old result self.new }
    {
        match self.lost() {
            Some(t) => {
                self.help_task(t);
                Some(t)
            }
            None => {
                self.moves.clear();
                None
            }
        }
    }

    /// The chain that would help this task, if it is lost: the task would go on its first processor, and the holder of each on the
    /// next one; nobody holds the last. It is the one that `help` takes for the most urgent lost task.
    pub fn chain_for(&mut self, t: u32) -> Option<Chain>
        requires { t < task_count self.old.links }
        ensures { FindsChain self.old t result self.new }
    {
        let _first = self.lost();
        if self.is_lost(t) {
            Some(self.seen.chain(&self.links, t))
        } else {
            None
        }
    }

    /// Who holds a processor, after a call of `lost`, `help` or `chain_for`, and until an event or a call of `see`.
    pub fn holder(&self, p: u8) -> Option<u32>
        ensures { (on : List (Option ℕ)) → self.now.holders ≡ Some on
            → result ≡ task_on (state_held self.now.links on) p }
    {
        self.seen.holder(p)
    }

    /// Whether a task is linked and holds no processor, where the holders are known.
    fn is_lost(&self, t: u32) -> bool
        requires number { t < task_count self.now.links }
        requires known { (on : List (Option ℕ)) × (self.now.holders ≡ Some on) }
        ensures { (on : List (Option ℕ)) → self.now.holders ≡ Some on
            → IsTrue result ↔ IsLost self.now.links (state_held self.now.links on) t }
    {
        self.links.of(t).is_some() && self.seen.holds_none(t)
    }

    /// Helps a lost task.
    fn help_task(&mut self, t: u32)
        requires { (on : List (Option ℕ)) × (self.old.holders ≡ Some on)
            × IsLost self.old.links (state_held self.old.links on) t }
        ensures { (on : List (Option ℕ)) → self.old.holders ≡ Some on → HelpsTask self.old on t self.new }
    {
        let _valid = self.links.processors();
        self.seen.help(&self.links, t, &mut self.moves);
        self.moves.stand_at(&self.links);
    }

    /// Whether there is a slot of this number, and it is in use.
    pub fn is_in_use(&self, t: u32) -> bool
        ensures value { result ≡ is_in_use self.now t }
        ensures number { IsTrue result → t < task_count self.now.links }
        ensures free { AreFreeAbsent self.now.links self.now.in_use }
    {
        (t as usize) < self.in_use.len() && self.in_use[t as usize]
    }

    /// The moves of the last event, or of a help after it, in their order. There are none before the first event.
    pub fn moves(&self) -> &[Move]
        ensures value { result.now ≡ self.now.moves }
        ensures few { length result.now ≤ 130 }
    {
        self.moves.moves()
    }

    /// The links after the last event.
    pub fn links(&self) -> &Links
        ensures value { result.now ≡ self.now.links }
        ensures valid { IsState self.now.links }
        ensures seen { length self.now.seen ≡ task_count self.now.links }
    {
        let _count = self.seen.len();
        &self.links
    }

    /// The reply to the last event, and `Ticked` before the first.
    pub fn last(&self) -> &Reply
        ensures { result.now ≡ self.now.last }
    {
        &self.last
    }
}
