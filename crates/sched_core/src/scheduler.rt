//! The scheduler on one thread.
ghost use Rattle.std.specs.Prelude.{◌≡◌, ℕ, ◌+◌, ◌*◌, ◌<◌, ◌≤◌, All, IfOk, true, false, [], length, if◌then◌else◌};
ghost use Rattle.std.specs.Result.{OnOk, OnErr, IsOk};
ghost use Rattle.task_set.specs.Orders.{IsObeyable, NamesTaskBelow, TakesBelow};
ghost use Rattle.strong_apa.specs.State.{task_count, start_of};
ghost use Rattle.strong_apa.specs.Step.{IsEventFor, SchedulerStep};
ghost use Rattle.strong_apa.specs.Certified.{HasCertificates};
ghost use Rattle.strong_apa.specs.CertificateLaws.{LinkedIsBest, LinkedIsLargest, LinkedIsAsUrgent};
ghost use Rattle.sched_core.specs.CoreData.{CoreData, IsCore, Applied, AppliedOrRefused, OnlyMadeRoom, core_orders, max_entries};
ghost use Rattle.strong_apa.specs.Improving.{HasNoImprovingChain};

use crate::fault::CoreFault;
use crate::order_row::OrderRow;
use crate::order_rows::{close_rows, empty_rows, follow_links, no_takes, reserve_rows};
use affinity_mask::{OutOfMemory, ProcSet};
use link_table::{Entry, Links, Reply};
use std::alloc::Global;
use std::marker::Model;
use task_set::{Event, Order, TaskSet};
use task_shift::reply_to;

/// A history has at most so many entries.
pub const MAX_ENTRIES: usize = 20_000;

/// The history of the events applied so far, the links after it, and the orders that it gives each processor.
#[derive(Drop)]
pub struct Core {
    /// The masks of the tasks before any event. With the links they say what was before it.
    first_masks: Vec<ProcSet>,
    history: Vec<Entry>,
    links: Links,
    closed: bool,
    rows: Vec<OrderRow>,

    /// How often each task was taken.
    takes: Vec<u32>,

    /// For so many more entries there is room.
    spare: usize,
}

impl Model for Core {
    ghost use Rattle.sched_core.specs.CoreData.{CoreData};

    ghost Value = { CoreData };

    ghost use Rattle.sched_core.specs.CoreView.{core_view, IsKept};

    ghost view = { core_view };

    ghost invariant = { IsKept };
}

impl Core {
    /// No event was applied: every task of the set is absent, and every processor is idle. Refused only where memory
    /// runs out.
    pub fn new(alloc: Global, set: &TaskSet) -> Result<Core, OutOfMemory>
        ensures { IfOk result (λ core. core ≡ record {
          start = start_of set.now;
          history = [];
          links = start_of set.now;
          closed = false;
          spare = 0;
        }) }
    {
        let mut rows = empty_rows(alloc, set.processors())?;
        reserve_rows(&mut rows, 2)?;
        let takes = no_takes(alloc, set.len())?;
        let first_masks = set.masks(alloc)?;
        let links = Links::new(alloc, set)?;
        Ok(Core {
            first_masks,
            history: Vec::new(alloc),
            links,
            closed: false,
            rows,
            takes,
            spare: 0,
        })
    }

    /// Makes room for an entry, so that the next `apply` is not refused for lack of memory. Nothing else changes. Room is
    /// made for a whole history where it can be, and for one entry where memory is short. A list that grew later would be
    /// moved, for which the system interrupts each thread of the process.
    pub fn reserve(&mut self) -> Result<(), OutOfMemory>
        ensures kept { OnlyMadeRoom self.old self.new }
        ensures valid { IsCore self.new }
        ensures ok { OnOk result (1 ≤ self.new.spare) }
        ensures spare { 1 ≤ self.old.spare → IsOk result }
    {
        if self.spare > 0 {
            return Ok(());
        }
        match self.make_room(MAX_ENTRIES) {
            Ok(()) => Ok(()),
            Err(OutOfMemory) => self.make_room(1),
        }
    }

    /// Makes room for so many entries, where there is no room for any: for each of them in the history, and in each row
    /// for its orders, besides the room for the orders of the close.
    fn make_room(&mut self, entries: usize) -> Result<(), OutOfMemory>
        requires none { self.old.spare ≡ 0 }
        requires few { entries ≤ 20000 }
        ensures kept { OnlyMadeRoom self.old self.new }
        ensures refused { OnErr result (self.new ≡ self.old) }
        ensures valid { IsCore self.new }
        ensures ok { OnOk result (self.new.spare ≡ entries) }
    {
        reserve_rows(&mut self.rows, 2 * entries + 2)?;
        self.history.reserve(entries)?;
        self.spare = entries;
        Ok(())
    }

    /// Applies an event of a caller, and answers the place of its entry in the history, from 0. It is `Closed` where
    /// the core is closed, and `Full` where it is open and has `MAX_ENTRIES` entries. Memory may be refused where no
    /// room is reserved. After an `Err` no more than the room for entries may differ.
    ///
    /// Before the call and after it, whatever it answers, the linked tasks are the best placeable set of the ready ones,
    /// and each task that waits has a certificate of it.
    pub fn apply(&mut self, caller: u32, event: Event) -> Result<u64, CoreFault>
        requires { IsEventFor self.old.links event }
        ensures answer { AppliedOrRefused self.old caller event result self.new }

        // Whatever is answered, the links are those of a strong scheduler.
        ensures certified { HasCertificates self.new.links }
        ensures unimprovable { HasNoImprovingChain self.new.links }
        ensures best { LinkedIsBest self.new.links }
        ensures largest { LinkedIsLargest self.new.links }
        ensures rank_by_rank { LinkedIsAsUrgent self.new.links }
    {
        let place = self.history().len();
        if self.closed {
            return Err(CoreFault::Closed);
        }
        if place == MAX_ENTRIES {
            return Err(CoreFault::Full);
        }
        self.reserve()?;
        self.enter(caller, event);
        Ok(place as u64)
    }

    /// One entry more, for which there is room. The orders are those of the entry where it is stored: a reply is long, and
    /// would be copied to a place of its own to be lent.
    fn enter(&mut self, caller: u32, event: Event)
        requires of_system { IsEventFor self.old.links event }
        requires not_closed { self.old.closed ≡ false }
        requires room { 1 ≤ self.old.spare }
        requires not_full { length self.old.history < max_entries }
        ensures applied { Applied self.old caller event (length self.old.history) self.new }
        ensures valid { IsCore self.new }
    {
        let place = self.history.len();
        let reply = reply_to(&mut self.links, &event);
        self.history.push_reserved(Entry {
            caller,
            event,
            reply,
        });
        self.spare -= 1;
        let Entry { event, reply, .. } = &self.history[place];
        follow_links(&mut self.rows, &mut self.takes, &self.links, event, reply);
    }

    /// Closes the core, for which it takes no memory. Where it was closed, nothing changes.
    pub fn close_now(&mut self)
        ensures { self.new ≡ record self.old { closed = true } }
    {
        if !self.closed {
            close_rows(&mut self.rows);
            self.closed = true;
        }
    }

    /// The history, in the order in which the events were applied.
    pub fn history(&self) -> &[Entry]
        ensures value { result.now ≡ self.now.history }
        ensures valid { IsCore self.now }
    {
        self.history.as_slice()
    }

    /// The links after the history.
    pub fn links(&self) -> &Links
        ensures value { result.now ≡ self.now.links }
        ensures valid { IsCore self.now }
    {
        &self.links
    }

    /// Whether the core is closed. It takes no event then.
    pub fn is_closed(&self) -> bool
        ensures { result ≡ self.now.closed }
    {
        self.closed
    }

    /// The orders to a processor so far. They are all once the core is closed. The processor can obey them one by one,
    /// and they name tasks of the core alone.
    pub fn orders(&self, p: u8) -> &[Order]
        requires { p < self.now.links.processors }
        ensures value { result.now ≡ core_orders self.now p }
        ensures obeyable { IsObeyable result.now }
        ensures few { length result.now
            ≤ 2 * length self.now.history + (if self.now.closed then 2 else 0) }
        ensures tasks { All (NamesTaskBelow (task_count self.now.links)) result.now }
        ensures takes { All (TakesBelow (length self.now.history)) result.now }
    {
        self.row(p)
    }

    /// The orders that are stored for a processor.
    fn row(&self, p: u8) -> &[Order]
        requires { p < self.now.links.processors }
        ensures value { result.now ≡ core_orders self.now p }
        ensures valid { IsCore self.now }
    {
        self.rows[p as usize].orders()
    }
}
