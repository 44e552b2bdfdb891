//! The scheduler for programs in C and other languages: each export finds its [`Apa`](table::Apa) behind a pointer that
//! the caller keeps, and takes and answers numbers alone.
//!
//! The pointer is the caller's word: its room is as `apa_size` says, `apa_init` has made it, and no other call is on it.
//! All other numbers may be wrong, and are answered by a fault. What each call does stands on its export.
#![tactic(auto)]

mod answer;
mod table;

ghost use Rattle.std.specs.Borrow.{sem};
ghost use Rattle.std.specs.Prelude.{◌≡◌};
ghost use Rattle.apa_c.specs.Handle.{apa_at, apa_after, apa_bytes, apa_room};
ghost use Rattle.apa_c.specs.Calls.{Made, Opened, Added, Started, Applied, Admitted, Retired, HasNewPriority, Seen, Lost, Helped, Closed, OnAnswer, OfAnswer, ReadyAnswer, MaskAnswer, OccupiedAnswer, OnLineAnswer, CountAnswer, MoveAnswer, SetAnswer, BackAnswer};

use std::alloc::Global;
use table::Apa;

/// How many bytes a scheduler takes, besides what it asks the heap for.
#[unsafe(no_mangle)]
pub extern "C" fn apa_size() -> usize
    ensures { result ≡ apa_bytes }
{
    may_change_thread::<Apa>();
    std::mem::size_of::<Apa>()
}

/// A value of the type may go from thread to thread.
fn may_change_thread<T: Send>() {}

/// Makes a scheduler that is closed in room of `apa_size` bytes, aligned as for any value.
#[unsafe(no_mangle)]
pub unsafe extern "C" fn apa_init(at: *mut u8, alloc: Global)
    requires* { sem 𝓛 (apa_room at) }
    ensures* { sem 𝓛 (apa_after at Made) }
{
    (at as *mut Apa).write(table::empty(alloc));
}

/// Takes a number of processors, from 1 to 64. Tasks can be added then.
#[unsafe(no_mangle)]
pub unsafe extern "C" fn apa_open(at: *mut u8, processors: u32) -> u32
    ghost value: { Apa }
    requires* { sem 𝓛 (apa_at at value) }
    ensures* { sem 𝓛 (apa_after at (Opened value processors result)) }
{
    table::open(&mut *(at as *mut Apa), processors)
}

/// One task more, whose number is how many tasks there were. A lower number is a more urgent priority, and no two are
/// equal. Processor p is in the mask where its bit p is one.
#[unsafe(no_mangle)]
pub unsafe extern "C" fn apa_add_task(at: *mut u8, priority: u32, mask: u64) -> u32
    ghost value: { Apa }
    requires* { sem 𝓛 (apa_at at value) }
    ensures* { sem 𝓛 (apa_after at (Added value priority mask result)) }
{
    table::add_task(&mut *(at as *mut Apa), priority, mask)
}

/// The tasks are complete, and each is absent. From now on no call but `apa_close` takes or gives memory.
#[unsafe(no_mangle)]
pub unsafe extern "C" fn apa_start(at: *mut u8) -> u32
    ghost value: { Apa }
    requires* { sem 𝓛 (apa_at at value) }
    ensures* { sem 𝓛 (apa_after at (Started value result)) }
{
    table::start(&mut *(at as *mut Apa))
}

/// An event happens: its kind, its task or its processor, and the mask where it changes one.
#[unsafe(no_mangle)]
pub unsafe extern "C" fn apa_apply(at: *mut u8, kind: u32, number: u32, mask: u64) -> u32
    ghost value: { Apa }
    requires* { sem 𝓛 (apa_at at value) }
    ensures* { sem 𝓛 (apa_after at (Applied value kind number mask result)) }
{
    table::apply(&mut *(at as *mut Apa), kind, number, mask)
}

/// A task comes, which is absent: a free slot is in use, with this priority and this mask. The answer is 1,024 more than its
/// number, or a fault.
#[unsafe(no_mangle)]
pub unsafe extern "C" fn apa_admit(at: *mut u8, priority: u32, mask: u64) -> u32
    ghost value: { Apa }
    requires* { sem 𝓛 (apa_at at value) }
    ensures* { sem 𝓛 (apa_after at (Admitted value priority mask result)) }
{
    table::admit(&mut *(at as *mut Apa), priority, mask)
}

/// An absent task goes, and its slot is free.
#[unsafe(no_mangle)]
pub unsafe extern "C" fn apa_retire(at: *mut u8, task: u32) -> u32
    ghost value: { Apa }
    requires* { sem 𝓛 (apa_at at value) }
    ensures* { sem 𝓛 (apa_after at (Retired value task result)) }
{
    table::retire(&mut *(at as *mut Apa), task)
}

/// An absent task gets another priority, which no other task has.
#[unsafe(no_mangle)]
pub unsafe extern "C" fn apa_set_priority(at: *mut u8, task: u32, priority: u32) -> u32
    ghost value: { Apa }
    requires* { sem 𝓛 (apa_at at value) }
    ensures* { sem 𝓛 (apa_after at (HasNewPriority value task priority result)) }
{
    table::set_priority(&mut *(at as *mut Apa), task, priority)
}

/// Another scheduler has a task on a processor, or nobody knows where.
#[unsafe(no_mangle)]
pub unsafe extern "C" fn apa_seen(at: *mut u8, task: u32, place: u32) -> u32
    ghost value: { Apa }
    requires* { sem 𝓛 (apa_at at value) }
    ensures* { sem 𝓛 (apa_after at (Seen value task place result)) }
{
    table::seen(&mut *(at as *mut Apa), task, place)
}

/// The most urgent task that is to run and is not the first one where it is seen.
#[unsafe(no_mangle)]
pub unsafe extern "C" fn apa_lost(at: *mut u8) -> u32
    ghost value: { Apa }
    requires* { sem 𝓛 (apa_at at value) }
    ensures* { sem 𝓛 (apa_after at (Lost value result)) }
{
    table::lost(&mut *(at as *mut Apa))
}

/// That task gets a processor by the moves of a shortest chain, and all are seen then where these lead.
#[unsafe(no_mangle)]
pub unsafe extern "C" fn apa_help(at: *mut u8) -> u32
    ghost value: { Apa }
    requires* { sem 𝓛 (apa_at at value) }
    ensures* { sem 𝓛 (apa_after at (Helped value result)) }
{
    table::help(&mut *(at as *mut Apa))
}

/// Gives all memory back. `apa_open` may follow.
#[unsafe(no_mangle)]
pub unsafe extern "C" fn apa_close(at: *mut u8) -> u32
    ghost value: { Apa }
    requires* { sem 𝓛 (apa_at at value) }
    ensures* { sem 𝓛 (apa_after at (Closed value result)) }
{
    table::close(&mut *(at as *mut Apa))
}

/// The task that is on a processor.
#[unsafe(no_mangle)]
pub unsafe extern "C" fn apa_on(at: *mut u8, place: u32) -> u32
    ghost value: { Apa }
    requires* { sem 𝓛 (apa_at at value) }
    ensures* { sem 𝓛 (apa_after at (OnAnswer value place result)) }
{
    table::on(&mut *(at as *mut Apa), place)
}

/// The processor that a task is on.
#[unsafe(no_mangle)]
pub unsafe extern "C" fn apa_of(at: *mut u8, task: u32) -> u32
    ghost value: { Apa }
    requires* { sem 𝓛 (apa_at at value) }
    ensures* { sem 𝓛 (apa_after at (OfAnswer value task result)) }
{
    table::of(&mut *(at as *mut Apa), task)
}

/// Whether a task is ready, linked or waiting: 1 or 0.
#[unsafe(no_mangle)]
pub unsafe extern "C" fn apa_is_ready(at: *mut u8, task: u32) -> u32
    ghost value: { Apa }
    requires* { sem 𝓛 (apa_at at value) }
    ensures* { sem 𝓛 (apa_after at (ReadyAnswer value task result)) }
{
    table::is_ready(&mut *(at as *mut Apa), task)
}

/// The mask of a task, as bits.
#[unsafe(no_mangle)]
pub unsafe extern "C" fn apa_mask(at: *mut u8, task: u32) -> u64
    ghost value: { Apa }
    requires* { sem 𝓛 (apa_at at value) }
    ensures* { sem 𝓛 (apa_after at (MaskAnswer value task result)) }
{
    table::mask(&mut *(at as *mut Apa), task)
}

/// The set of the processors that somebody is on, as bits.
#[unsafe(no_mangle)]
pub unsafe extern "C" fn apa_occupied(at: *mut u8) -> u64
    ghost value: { Apa }
    requires* { sem 𝓛 (apa_at at value) }
    ensures* { sem 𝓛 (apa_after at (OccupiedAnswer value result)) }
{
    table::occupied(&mut *(at as *mut Apa))
}

/// The set of the processors on line, as bits.
#[unsafe(no_mangle)]
pub unsafe extern "C" fn apa_on_line(at: *mut u8) -> u64
    ghost value: { Apa }
    requires* { sem 𝓛 (apa_at at value) }
    ensures* { sem 𝓛 (apa_after at (OnLineAnswer value result)) }
{
    table::on_line(&mut *(at as *mut Apa))
}

/// How many moves the last event asks for, or a help after it.
#[unsafe(no_mangle)]
pub unsafe extern "C" fn apa_moves(at: *mut u8) -> u32
    ghost value: { Apa }
    requires* { sem 𝓛 (apa_at at value) }
    ensures* { sem 𝓛 (apa_after at (CountAnswer value result)) }
{
    table::moves(&mut *(at as *mut Apa))
}

/// A move of the last event in one word: its task in the lower half, and in 16 bits each the processor that it leaves, and the
/// one that it goes to. All bits are ones where there is no such processor, or no such move.
#[unsafe(no_mangle)]
pub unsafe extern "C" fn apa_whole_move(at: *mut u8, i: u32) -> u64
    ghost value: { Apa }
    requires* { sem 𝓛 (apa_at at value) }
    ensures* { sem 𝓛 (apa_after at (MoveAnswer value i result)) }
{
    table::whole_move(&mut *(at as *mut Apa), i)
}

/// The set of processors that the last reply carries, as bits.
#[unsafe(no_mangle)]
pub unsafe extern "C" fn apa_reached(at: *mut u8) -> u64
    ghost value: { Apa }
    requires* { sem 𝓛 (apa_at at value) }
    ensures* { sem 𝓛 (apa_after at (SetAnswer value result)) }
{
    table::reached(&mut *(at as *mut Apa))
}

/// The set of processors that the last reply carries of one that became free, as bits.
#[unsafe(no_mangle)]
pub unsafe extern "C" fn apa_back(at: *mut u8) -> u64
    ghost value: { Apa }
    requires* { sem 𝓛 (apa_at at value) }
    ensures* { sem 𝓛 (apa_after at (BackAnswer value result)) }
{
    table::back(&mut *(at as *mut Apa))
}
