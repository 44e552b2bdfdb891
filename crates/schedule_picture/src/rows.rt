//! The tracks of the tasks. An entry changes something only of the task that comes or goes by it, and of those that are linked
//! to another processor than before, or to none, or were to none. No other task is looked at.
ghost use Rattle.std.specs.Prelude.{◌≡◌, ◌<◌, ℕ, Some, false, vec_len, length, OnOk};
ghost use Rattle.strong_apa.specs.State.{task_count, task_on, is_task};
ghost use Rattle.schedule_picture.specs.Spans.{row_of};
ghost use Rattle.schedule_picture.specs.Tracks.{EachSees, EachSeesOrStays, ShowBefore, last_on, moved_task, mover_of};

use crate::span::Seen;
use crate::track::Track;
use crate::tracks::see_one;
use affinity_mask::OutOfMemory;
use link_table::Links;
use strong_apa::{Entry, Reply};
use task_set::Event;

/// The task that comes or goes by an entry, if there is one.
pub(crate) fn mover_of(entry: &Entry) -> Option<u32>
    ensures { result ≡ mover_of entry.now.event entry.now.reply }
{
    match entry.event {
        Event::Arrive(t) | Event::Depart(t) => Some(t),
        Event::Affinity { task, .. } => Some(task),
        Event::Offline(_) => moved_task(&entry.reply),
        Event::Tick(_) | Event::Online(_) => None,
    }
}

/// The task that was on a processor that went off line, if there was one.
fn moved_task(reply: &Reply) -> Option<u32>
    ensures { result ≡ moved_task reply.now }
{
    match reply {
        Reply::Off { moved: Some(moved) } => Some(moved.task),
        _ => None,
    }
}

/// Where each task is linked after entry n, and whether it waits. These are the tracks of the processors before it.
pub(crate) fn see_rows(
    rows: &mut Vec<Track>,
    lanes: &[Track],
    links: &Links,
    n: u32,
    mover: Option<u32>,
) -> Result<(), OutOfMemory>
    requires tasks { vec_len rows.old ≡ task_count links.now }
    requires processors { length lanes.now ≡ links.now.processors }
    requires before { ShowBefore mover links.now lanes.now rows.old.items }
    ensures { OnOk result (EachSees n (row_of links.now) rows.old.items rows.new.items) }
{
    let _valid = links.processors();
    see_relinked(rows, lanes, links, n)?;
    see_task(rows, links, n, mover)?;
    Ok(())
}

/// What is seen of the tasks that are linked where they were not, or were linked where they are not.
fn see_relinked(
    rows: &mut Vec<Track>,
    lanes: &[Track],
    links: &Links,
    n: u32,
) -> Result<(), OutOfMemory>
    requires tasks { vec_len rows.old ≡ task_count links.now }
    requires processors { length lanes.now ≡ links.now.processors }
    ensures { OnOk result (EachSeesOrStays n links.now
        (λ t. (p : ℕ) → p < links.now.processors → is_task t (last_on lanes.now p) ≡ is_task t (task_on links.now p))
        rows.old.items rows.new.items) }
{
    for p in 0..links.processors() {
        see_occupants(rows, links, n, last_on(lanes, p), links.on(p))?;
    }
    Ok(())
}

/// What is seen of the occupant of a processor before entry n and after it, where it is another one.
fn see_occupants(
    rows: &mut Vec<Track>,
    links: &Links,
    n: u32,
    before: Option<u32>,
    after: Option<u32>,
) -> Result<(), OutOfMemory>
    requires tasks { vec_len rows.old ≡ task_count links.now }
    ensures { OnOk result (EachSeesOrStays n links.now (λ t. is_task t before ≡ is_task t after)
        rows.old.items rows.new.items) }
{
    if before == after {
        return Ok(());
    }
    see_task(rows, links, n, before)?;
    see_task(rows, links, n, after)?;
    Ok(())
}

/// The task that was seen last on a processor, if there was one.
fn last_on(lanes: &[Track], p: u8) -> Option<u32>
    ensures { result ≡ last_on lanes.now p }
{
    let x = p as usize;
    if x < lanes.len() {
        lanes[x].task()
    } else {
        None
    }
}

/// What is seen of a task, if there is one.
fn see_task(
    rows: &mut Vec<Track>,
    links: &Links,
    n: u32,
    task: Option<u32>,
) -> Result<(), OutOfMemory>
    requires tasks { vec_len rows.old ≡ task_count links.now }
    ensures { OnOk result (EachSeesOrStays n links.now (λ t. is_task t task ≡ false)
        rows.old.items rows.new.items) }
{
    match task {
        None => Ok(()),
        Some(t) => {
            see_row(rows, links, n, t)?;
            Ok(())
        }
    }
}

/// What is seen of a task, where there is one of this number.
fn see_row(rows: &mut Vec<Track>, links: &Links, n: u32, t: u32) -> Result<(), OutOfMemory>
    requires tasks { vec_len rows.old ≡ task_count links.now }
    ensures { OnOk result (EachSeesOrStays n links.now (λ u. is_task u (Some t) ≡ false)
        rows.old.items rows.new.items) }
{
    if t >= links.len() {
        return Ok(());
    }
    see_one(rows, t as usize, n, row_in(links, t))?;
    Ok(())
}

/// Where a task is linked, or that it waits.
fn row_in(links: &Links, t: u32) -> Option<Seen>
    requires { t < task_count links.now }
    ensures { result ≡ row_of links.now t }
{
    if !links.is_ready(t) {
        return None;
    }
    match links.of(t) {
        Some(p) => Some(Seen::Processor(p)),
        None => Some(Seen::Waiting),
    }
}
