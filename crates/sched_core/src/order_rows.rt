//! The orders to each processor, which follow the links from event to event.
ghost use Rattle.std.specs.Prelude.{◌≡◌, ℕ, ◌+◌, [], length, get_or, replicate, IfOk};
ghost use Rattle.std.specs.Result.{OnOk};
ghost use Rattle.strong_apa.specs.Reply.{chain_of};
ghost use Rattle.strong_apa.specs.Touched.{touched};
ghost use Rattle.sched_core.specs.CoreRows.{HasRoomInEach, CanFollow, HoldOutside, RowsOnlyGrew, RowsRun, RowsChange, RowsFollow, RowsClose, NumbersBecome, came_below, empty_row};

use crate::order_row::OrderRow;
use affinity_mask::OutOfMemory;
use link_table::{Links, Reply};
use std::alloc::Global;
use task_set::Event;

/// A row with no orders for each processor.
pub fn empty_rows(alloc: Global, processors: u8) -> Result<Vec<OrderRow>, OutOfMemory>
    ensures { IfOk result (λ rows. rows.items ≡ replicate processors empty_row) }
{
    let mut rows = Vec::new(alloc);
    for _p in 0..processors {
        rows.push(OrderRow::new(alloc))?;
    }
    Ok(rows)
}

/// For each task that it was taken no time.
pub fn no_takes(alloc: Global, count: u32) -> Result<Vec<u32>, OutOfMemory>
    ensures { IfOk result (λ takes. takes.items ≡ replicate count 0) }
{
    let mut takes = Vec::new(alloc);
    for _t in 0..count {
        takes.push(0)?;
    }
    Ok(takes)
}

/// Makes room for so many further orders in each row.
pub fn reserve_rows(rows: &mut Vec<OrderRow>, room: usize) -> Result<(), OutOfMemory>
    ensures grew { RowsOnlyGrew rows.old.items rows.new.items }
    ensures ok { OnOk result (HasRoomInEach room rows.new.items) }
{
    for p in 0..rows.len() {
        rows[p].reserve(room)?;
    }
    Ok(())
}

/// The orders of an event that led to these links. Only the processors that it touches may have another occupant, so no
/// other row is looked at, but for a tick, at which each task that is held runs. `takes` says how often each task was
/// taken, and counts on.
pub fn follow_links(
    rows: &mut Vec<OrderRow>,
    takes: &mut Vec<u32>,
    links: &Links,
    event: &Event,
    reply: &Reply,
)
    requires can { CanFollow (touched event.now reply.now) links.now rows.old.items takes.old.items }
    requires outside { HoldOutside (touched event.now reply.now) rows.old.items links.now }
    requires tick { (units : ℕ) → event.now ≡ Event.Tick units → chain_of reply.now ≡ [] }
    requires room { HasRoomInEach 1 rows.old.items }
    ensures rows { RowsFollow rows.old.items (λ t. get_or takes.old.items t 0) links.now event.now rows.new.items }
    ensures takes { NumbersBecome (λ t n. n + length (came_below rows.old.items links.now links.now.processors t))
        takes.old.items takes.new.items }
{
    match event {
        Event::Tick(units) => run_rows(rows, *units),
        Event::Offline(p) => {
            follow_chain(rows, takes, links, &[*p]);
            follow_reply(rows, takes, links, reply);
        }
        _ => follow_reply(rows, takes, links, reply),
    }
}

/// Each task that is held runs for these units.
fn run_rows(rows: &mut Vec<OrderRow>, units: u32)
    requires { HasRoomInEach 1 rows.old.items }
    ensures { RowsRun rows.old.items units rows.new.items }
{
    for p in 0..rows.len() {
        rows[p].run(units);
    }
}

/// The rows of a reply's chains change to their occupants.
fn follow_reply(rows: &mut Vec<OrderRow>, takes: &mut Vec<u32>, links: &Links, reply: &Reply)
    requires { CanFollow (chain_of reply.now) links.now rows.old.items takes.old.items }
    ensures { RowsChange (chain_of reply.now) links.now rows.old.items takes.old.items
        rows.new.items takes.new.items }
{
    follow_chain(rows, takes, links, reply.filling_chain());
    follow_chain(rows, takes, links, reply.coming_chain());
}

/// The rows of a chain change to their occupants. A processor may stand in it twice: its row holds the occupant then.
fn follow_chain(rows: &mut Vec<OrderRow>, takes: &mut Vec<u32>, links: &Links, chain: &[u8])
    requires { CanFollow chain.now links.now rows.old.items takes.old.items }
    ensures { RowsChange chain.now links.now rows.old.items takes.old.items
        rows.new.items takes.new.items }
{
    for &p in chain {
        rows[p as usize].change(takes, links.on(p));
    }
}

/// Each row ends.
pub fn close_rows(rows: &mut Vec<OrderRow>)
    requires { HasRoomInEach 2 rows.old.items }
    ensures { RowsClose rows.old.items rows.new.items }
{
    for p in 0..rows.len() {
        rows[p].close();
    }
}
