//! What lies behind the pointer.
ghost use Rattle.std.specs.Prelude.{◌≡◌, ℕ, ◌<◌, ◌≤◌, MatchOption, slice_get};
ghost use Rattle.task_set.specs.TaskSet.{IsMask};
ghost use Rattle.apa_c.specs.Stages.{number_of};
ghost use Rattle.apa_c.specs.Calls.{Opened, Added, AddsTo, Started, Applied, IsEventHere, IsBadMask, Admitted, AdmitsTo, Retired, RetiresFrom, HasNewPriority, Reorders, IsAbsent, IsPresenceFault, Seen, Sees, Lost, Helped, Closed, OnAnswer, OfAnswer, ReadyAnswer, MaskAnswer, OccupiedAnswer, OnLineAnswer, CountAnswer, MoveAnswer, SetAnswer, BackAnswer, moves_told, running_of};

use crate::answer::{
    BAD_MASK, DONE, FIRST_SLOT, NO_EVENT, NO_MEMORY, NO_MOVE, NO_NAME, NO_PROCESSOR, NO_SLOT,
    NO_TASK, NOT_NOW, NOTHING, SAME_PRIORITY, STILL_READY, TOO_MANY, answer_of, back_of, set_of,
    word_of,
};
use affinity_mask::ProcSet;
use live_core::{LiveCore, Move, SlotFault};
use std::alloc::Global;
use task_set::{Event, TaskFault, TaskSet};

/// How far a scheduler is.
#[derive(Drop)]
pub enum ApaStage {
    /// It holds no memory.
    Empty,

    /// Its tasks are being added.
    Draft(TaskSet),

    /// Events happen.
    Running(LiveCore),
}

/// A scheduler, and where it takes its memory.
#[derive(Drop)]
pub struct Apa {
    pub alloc: Global,
    pub stage: ApaStage,
}

/// A scheduler that is closed.
pub fn empty(alloc: Global) -> Apa
    ensures { result.stage ≡ ApaStage.Empty }
{
    Apa {
        alloc,
        stage: ApaStage::Empty,
    }
}

/// Takes a number of processors, and no tasks yet.
pub fn open(apa: &mut Apa, processors: u32) -> u32
    ensures { Opened apa.old processors result apa.new }
{
    let ApaStage::Empty = &apa.stage else {
        return NOT_NOW;
    };
    if processors < 1 || processors > 64 {
        return NO_PROCESSOR;
    }
    match TaskSet::new(apa.alloc, processors as u8) {
        Ok(set) => {
            apa.stage = ApaStage::Draft(set);
            DONE
        }
        Err(_) => NO_MEMORY,
    }
}

/// One task more, whose number is how many there were.
pub fn add_task(apa: &mut Apa, priority: u32, mask: u64) -> u32
    ensures { Added apa.old priority mask result apa.new }
{
    let alloc = apa.alloc;
    let ApaStage::Draft(set) = &mut apa.stage else {
        return NOT_NOW;
    };
    add_to(alloc, set, priority, mask)
}

/// One task more in a set, or a fault.
fn add_to(alloc: Global, set: &mut TaskSet, priority: u32, mask: u64) -> u32
    ensures { AddsTo set.old priority mask result set.new }
{
    let Ok(name) = format!(in alloc; "t{}", set.len()) else {
        return NO_MEMORY;
    };
    match set.add(name.as_str(), priority, ProcSet::of_bits(mask)) {
        Ok(_) => DONE,
        Err(TaskFault::OutOfMemory) => NO_MEMORY,
        Err(TaskFault::SamePriority(_)) => SAME_PRIORITY,
        Err(TaskFault::Many) => TOO_MANY,
        Err(TaskFault::EmptyMask) => BAD_MASK,
        Err(TaskFault::OutsideMask(_)) => BAD_MASK,
        Err(TaskFault::BadName) => NO_NAME,
        Err(TaskFault::SameName(_)) => NO_NAME,
    }
}

/// The tasks are complete: from now on events happen.
pub fn start(apa: &mut Apa) -> u32
    ensures { Started apa.old result apa.new }
{
    let ApaStage::Draft(set) = &apa.stage else {
        return NOT_NOW;
    };
    match LiveCore::new(apa.alloc, set) {
        Ok(live) => {
            apa.stage = ApaStage::Running(live);
            DONE
        }
        Err(_) => NO_MEMORY,
    }
}

/// An event happens.
pub fn apply(apa: &mut Apa, kind: u32, number: u32, mask: u64) -> u32
    ensures { Applied apa.old kind number mask result apa.new }
{
    let ApaStage::Running(live) = &mut apa.stage else {
        return NOT_NOW;
    };
    match event_of(live, kind, number, mask) {
        Ok(event) => {
            live.apply(event);
            answer_of(live.last())
        }
        Err(fault) => fault,
    }
}

/// A task comes, in a free slot.
pub fn admit(apa: &mut Apa, priority: u32, mask: u64) -> u32
    ensures { Admitted apa.old priority mask result apa.new }
{
    let ApaStage::Running(live) = &mut apa.stage else {
        return NOT_NOW;
    };
    admit_to(live, priority, mask)
}

/// A task comes, or a fault.
fn admit_to(live: &mut LiveCore, priority: u32, mask: u64) -> u32
    ensures { AdmitsTo live.old priority mask result live.new }
{
    let Some(mask) = mask_of(live.links().processors(), mask) else {
        return BAD_MASK;
    };
    match live.admit(priority, mask) {
        Ok(t) => FIRST_SLOT + t,
        Err(SlotFault::NoSlot) => NO_SLOT,
        Err(SlotFault::SamePriority(_)) => SAME_PRIORITY,
    }
}

/// An absent task goes, and its slot is free.
pub fn retire(apa: &mut Apa, t: u32) -> u32
    ensures { Retired apa.old t result apa.new }
{
    let ApaStage::Running(live) = &mut apa.stage else {
        return NOT_NOW;
    };
    retire_from(live, t)
}

/// An absent task goes, or a fault.
fn retire_from(live: &mut LiveCore, t: u32) -> u32
    ensures { RetiresFrom live.old t result live.new }
{
    if let Some(fault) = presence_fault(live, t) {
        return fault;
    }
    live.retire(t);
    DONE
}

/// An absent task gets another priority.
pub fn set_priority(apa: &mut Apa, t: u32, priority: u32) -> u32
    ensures { HasNewPriority apa.old t priority result apa.new }
{
    let ApaStage::Running(live) = &mut apa.stage else {
        return NOT_NOW;
    };
    reorder(live, t, priority)
}

/// An absent task gets another priority, or a fault.
fn reorder(live: &mut LiveCore, t: u32, priority: u32) -> u32
    ensures { Reorders live.old t priority result live.new }
{
    if let Some(fault) = presence_fault(live, t) {
        return fault;
    }
    match live.set_priority(t, priority) {
        Ok(()) => DONE,
        Err(_) => SAME_PRIORITY,
    }
}

/// Why a call of an absent task is refused, if there is no such one.
fn presence_fault(live: &LiveCore, t: u32) -> Option<u32>
    ensures { MatchOption result (IsAbsent live.now t) (IsPresenceFault live.now t) }
{
    if !live.is_in_use(t) {
        return Some(NO_TASK);
    }
    if live.links().is_ready(t) {
        return Some(STILL_READY);
    }
    None
}

/// A task is seen on a processor, or nowhere.
pub fn seen(apa: &mut Apa, t: u32, place: u32) -> u32
    ensures { Seen apa.old t place result apa.new }
{
    let ApaStage::Running(live) = &mut apa.stage else {
        return NOT_NOW;
    };
    see(live, t, place)
}

/// A task is seen on a processor, or nowhere, or a fault.
fn see(live: &mut LiveCore, t: u32, place: u32) -> u32
    ensures { Sees live.old t place result live.new }
{
    if !live.is_in_use(t) {
        return NO_TASK;
    }
    if place == NOTHING {
        live.see(t, None);
        return DONE;
    }
    if place >= live.links().processors() as u32 {
        return NO_PROCESSOR;
    }
    live.see(t, Some(place as u8));
    DONE
}

/// The most urgent lost task.
pub fn lost(apa: &mut Apa) -> u32
    ensures { Lost apa.old result apa.new }
{
    let ApaStage::Running(live) = &mut apa.stage else {
        return NOTHING;
    };
    number_of(live.lost())
}

/// The most urgent lost task gets a processor.
pub fn help(apa: &mut Apa) -> u32
    ensures { Helped apa.old result apa.new }
{
    let ApaStage::Running(live) = &mut apa.stage else {
        return NOTHING;
    };
    number_of(live.help())
}

/// The number of a task, or that there is none.
fn number_of(task: Option<u32>) -> u32
    ensures { result ≡ number_of task }
{
    match task {
        Some(t) => t,
        None => NOTHING,
    }
}

/// Gives all memory back.
pub fn close(apa: &mut Apa) -> u32
    ensures { Closed apa.old result apa.new }
{
    apa.stage = ApaStage::Empty;
    DONE
}

/// The task that is on a processor.
pub fn on(apa: &mut Apa, p: u32) -> u32
    ensures { OnAnswer apa.old p result apa.new }
{
    let ApaStage::Running(live) = &apa.stage else {
        return NOTHING;
    };
    if p >= live.links().processors() as u32 {
        return NOTHING;
    }
    match live.links().on(p as u8) {
        Some(t) => t,
        None => NOTHING,
    }
}

/// The processor that a task is on.
pub fn of(apa: &mut Apa, t: u32) -> u32
    ensures { OfAnswer apa.old t result apa.new }
{
    let ApaStage::Running(live) = &apa.stage else {
        return NOTHING;
    };
    if t >= live.links().len() {
        return NOTHING;
    }
    match live.links().of(t) {
        Some(p) => p as u32,
        None => NOTHING,
    }
}

/// Whether a task is ready: 1 or 0.
pub fn is_ready(apa: &mut Apa, t: u32) -> u32
    ensures { ReadyAnswer apa.old t result apa.new }
{
    let ApaStage::Running(live) = &apa.stage else {
        return 0;
    };
    if t >= live.links().len() {
        return 0;
    }
    if live.links().is_ready(t) { 1 } else { 0 }
}

/// The mask of a task, as bits.
pub fn mask(apa: &mut Apa, t: u32) -> u64
    ensures { MaskAnswer apa.old t result apa.new }
{
    let ApaStage::Running(live) = &apa.stage else {
        return 0;
    };
    if !live.is_in_use(t) {
        return 0;
    }
    live.links().mask(t).bits()
}

/// The processors that somebody is on, as bits.
pub fn occupied(apa: &mut Apa) -> u64
    ensures { OccupiedAnswer apa.old result apa.new }
{
    match &apa.stage {
        ApaStage::Running(live) => live.links().linked().bits(),
        _ => 0,
    }
}

/// The processors on line, as bits.
pub fn on_line(apa: &mut Apa) -> u64
    ensures { OnLineAnswer apa.old result apa.new }
{
    match &apa.stage {
        ApaStage::Running(live) => live.links().online().bits(),
        _ => 0,
    }
}

/// How many moves the last event asks for.
pub fn moves(apa: &mut Apa) -> u32
    ensures { CountAnswer apa.old result apa.new }
{
    match &apa.stage {
        ApaStage::Running(live) => live.moves().len() as u32,
        _ => 0,
    }
}

/// A move in one word.
pub fn whole_move(apa: &mut Apa, i: u32) -> u64
    ensures { MoveAnswer apa.old i result apa.new }
{
    match move_at(&apa.stage, i) {
        Some(step) => word_of(&step),
        None => NO_MOVE,
    }
}

/// A move of the last event.
fn move_at(stage: &ApaStage, i: u32) -> Option<Move>
    ensures { result ≡ slice_get (moves_told (running_of stage.now)) i }
{
    match stage {
        ApaStage::Running(live) => live.moves().get(i as usize).copied(),
        _ => None,
    }
}

/// The set of processors that the last reply carries, as bits.
pub fn reached(apa: &mut Apa) -> u64
    ensures { SetAnswer apa.old result apa.new }
{
    match &apa.stage {
        ApaStage::Running(live) => set_of(live.last()),
        _ => 0,
    }
}

/// The set of processors that the last reply carries of one that became free, as bits.
pub fn back(apa: &mut Apa) -> u64
    ensures { BackAnswer apa.old result apa.new }
{
    match &apa.stage {
        ApaStage::Running(live) => back_of(live.last()),
        _ => 0,
    }
}

/// The event of this kind, or the fault that there is none.
fn event_of(live: &LiveCore, kind: u32, number: u32, mask: u64) -> Result<Event, u32>
    ensures { IsEventHere live.now kind number mask result }
{
    if kind > 4 {
        return Err(NO_EVENT);
    }
    if kind > 2 {
        return processor_event(live, kind, number);
    }
    if !live.is_in_use(number) {
        return Err(NO_TASK);
    }
    if kind == 0 {
        return Ok(Event::Arrive(number));
    }
    if kind == 1 {
        return Ok(Event::Depart(number));
    }
    match mask_of(live.links().processors(), mask) {
        Some(mask) => Ok(Event::Affinity { task: number, mask }),
        None => Err(BAD_MASK),
    }
}

/// The event of a processor, or the fault that there is none.
fn processor_event(live: &LiveCore, kind: u32, number: u32) -> Result<Event, u32>
    requires { (2 < kind) × (kind ≤ 4) }
    ensures { (mask : ℕ) → IsEventHere live.now kind number mask result }
{
    if number >= live.links().processors() as u32 {
        return Err(NO_PROCESSOR);
    }
    if kind == 3 {
        return Ok(Event::Offline(number as u8));
    }
    Ok(Event::Online(number as u8))
}

/// The mask of these bits, where it is one of so many processors.
fn mask_of(processors: u8, bits: u64) -> Option<ProcSet>
    requires { processors ≤ 64 }
    ensures { MatchOption result (IsBadMask processors bits) (λ mask. (mask ≡ bits) × IsMask processors bits) }
{
    let mask = ProcSet::of_bits(bits);
    if mask.is_empty() {
        return None;
    }
    if !mask.within(&ProcSet::first(processors)) {
        return None;
    }
    Some(mask)
}
