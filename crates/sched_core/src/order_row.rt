//! The orders to one processor.
ghost use Rattle.std.specs.Prelude.{◌≡◌, ◌≢◌, ℕ, ◌+◌, ◌-◌, ◌<◌, ◌≤◌, List, [], ◌∷◌, ◌++◌, get_or, vec_len, if◌then◌else◌};
ghost use Rattle.std.specs.Result.{OnOk};
ghost use Rattle.std.specs.Option.{ForSome};

use affinity_mask::OutOfMemory;
use std::alloc::Global;
use std::marker::Model;
use task_set::Order;

/// The orders to one processor so far, and the task that it holds after them.
#[derive(Drop)]
pub struct OrderRow {
    orders: Vec<Order>,
    held: Option<u32>,
}

impl Model for OrderRow {
    ghost use Rattle.sched_core.specs.CoreRows.{RowData};

    ghost Value = { RowData };

    ghost use Rattle.sched_core.specs.CoreRowView.{row_view};

    ghost view = { row_view };
}

impl OrderRow {
    ghost use Rattle.sched_core.specs.CoreRows.{OnlyGrew, RowReleases, CanChange, RowChanges, RowRuns, RowCloses, NumbersBecome, came, empty_row};

    /// No orders, and nobody held. It takes no memory.
    pub fn new(alloc: Global) -> OrderRow
        ensures { result ≡ empty_row }
    {
        OrderRow {
            orders: Vec::new(alloc),
            held: None,
        }
    }

    /// Makes room for so many further orders.
    pub fn reserve(&mut self, room: usize) -> Result<(), OutOfMemory>
        ensures grew { OnlyGrew self.old self.new }
        ensures ok { OnOk result (room ≤ self.new.room) }
    {
        self.orders.reserve(room)?;
        Ok(())
    }

    /// The orders so far.
    pub fn orders(&self) -> &[Order]
        ensures { result.now ≡ self.now.orders }
    {
        self.orders.as_slice()
    }

    /// One order more, for which there is room.
    fn push(&mut self, order: Order)
        requires { 0 < self.old.room }
        ensures { self.new ≡ record self.old { orders = self.old.orders ++ order ∷ []; room = self.old.room - 1 } }
    {
        self.orders.push_reserved(order);
    }

    /// Where the occupant is another than the task that is held, that one is released, and the occupant taken. `takes`
    /// says how often each task was taken, and counts on. Where it is that one, nothing changes.
    pub fn change(&mut self, takes: &mut Vec<u32>, occupant: Option<u32>)
        requires known { ForSome occupant (λ t. t < vec_len takes.old) }
        requires can { self.old.held ≢ occupant
            → CanChange self.old (λ t. get_or takes.old.items t 0) occupant }
        ensures row { RowChanges self.old (λ t. get_or takes.old.items t 0) occupant self.new }
        ensures takes { NumbersBecome (λ t n. if came t self.old.held occupant then n + 1 else n)
            takes.old.items takes.new.items }
    {
        if occupant == self.held {
            return;
        }
        self.release();
        if let Some(task) = occupant {
            let number = takes[task as usize];
            self.push(Order::Take { task, number });
            takes[task as usize] = number + 1;
        }
        self.held = occupant;
    }

    /// The task that is held, if one is, runs for these units.
    pub fn run(&mut self, units: u32)
        requires { 1 ≤ self.old.room }
        ensures { RowRuns self.old units self.new }
    {
        if self.held.is_some() {
            self.push(Order::Run(units));
        }
    }

    /// The task that is held, if one is, is released, and nobody is held.
    fn release(&mut self)
        requires { 1 ≤ self.old.room }
        ensures { RowReleases self.old self.new }
    {
        if let Some(task) = self.held {
            self.push(Order::Release(task));
            self.held = None;
        }
    }

    /// The task that is held is released, and the processor stops.
    pub fn close(&mut self)
        requires { 2 ≤ self.old.room }
        ensures { RowCloses self.old self.new }
    {
        self.release();
        self.push(Order::Stop);
    }
}
