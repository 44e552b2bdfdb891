//! Threads that the head does not list. One that some used switch gives a priority of real time is told apart.
ghost use Rattle.std.specs.Prelude.{◌≡◌, ◌<◌, ◌≤◌, [], nat_eq, map, length, position, slice_index, IfSome, OnOk};
ghost use Rattle.std.specs.Option.{option_map, option_and_then};
ghost use Rattle.kernel_trace.specs.Unlisted.{is_unlisted, with_named, with_said, settled, settled_turn, settled_passage};

use crate::change::{Change, Thread};
use affinity_mask::OutOfMemory;
use indexmap::IndexSet;
use std::alloc::Global;
use std::marker::Model;
use trace_passages::{Passage, Turn};

/// The most threads that are told apart.
const MAX_UNLISTED: usize = 1_024;

/// The greatest thread id.
pub const MAX_ID: u32 = 4_194_304;

/// The ids of the threads that are told apart, in the order in which the lines name them.
#[derive(Drop)]
pub struct Unlisted {
    ids: IndexSet<u32>,
}

impl Model for Unlisted {
    ghost use Rattle.std.specs.Prelude.{ℕ, List};

    ghost Value = { List ℕ };

    ghost use Rattle.kernel_trace.specs.UnlistedView.{unlisted_view, AreFew};

    ghost view = { unlisted_view };

    ghost invariant = { AreFew };
}

impl Unlisted {
    /// No thread is told apart yet.
    pub fn new(alloc: Global) -> Unlisted
        ensures { result ≡ [] }
    {
        Unlisted {
            ids: IndexSet::new(alloc),
        }
    }

    /// How many there are.
    pub fn len(&self) -> u32
        ensures value { result ≡ length self.now }
        ensures bound { result ≤ 1024 }
    {
        self.ids.len() as u32
    }

    /// The id of one of them.
    pub fn id(&self, place: u32) -> u32
        requires { place < length self.now }
        ensures { result ≡ slice_index self.now place }
    {
        self.ids[place as usize]
    }

    /// The place of a thread, where it is one of them.
    fn place(&self, id: u32) -> Option<u32>
        ensures place { result ≡ position (nat_eq id) self.now }
        ensures within { IfSome result (λ place. place < 1024) }
    {
        match self.ids.get_index_of(&id) {
            Some(place) => Some(place as u32),
            None => None,
        }
    }

    /// Tells the threads of a used line apart, where they are of real time and no tasks.
    pub fn tell_apart(&mut self, ids: &IndexSet<u32>, change: Change) -> Result<(), OutOfMemory>
        ensures { OnOk result (self.new ≡ with_said ids.now.keys self.old change) }
    {
        match change {
            Change::Wakeup(_) => Ok(()),
            Change::Switch { from, to, .. } => {
                self.name(ids, from)?;
                self.name(ids, to)
            }
        }
    }

    /// Tells a thread apart, where it is of real time and no task, and there are not too many.
    fn name(&mut self, ids: &IndexSet<u32>, thread: Thread) -> Result<(), OutOfMemory>
        ensures { OnOk result (self.new ≡ with_named ids.now.keys self.old thread) }
    {
        if is_unlisted(ids, thread) && self.ids.len() < MAX_UNLISTED {
            self.ids.insert(thread.id)?;
        }
        Ok(())
    }

    /// Gives the threads of all passages the numbers that they have at the end.
    pub fn settle(&self, passages: &mut Vec<Passage>, tasks: u32)
        requires { tasks ≤ 1024 }
        ensures { passages.new.items ≡ map (settled_passage tasks self.now) passages.old.items }
    {
        for i in 0..passages.len() {
            passages[i] = self.settled_passage(passages[i], tasks);
        }
    }

    /// A passage by the numbers that threads have at the end.
    fn settled_passage(&self, passage: Passage, tasks: u32) -> Passage
        requires { tasks ≤ 1024 }
        ensures { result ≡ settled_passage tasks self.now passage }
    {
        Passage {
            moment: passage.moment,
            turn: match passage.turn {
                Some(turn) => Some(self.settled_turn(turn, tasks)),
                None => None,
            },
            first: passage.first,
            second: passage.second,
        }
    }

    /// A line by the numbers that threads have at the end.
    fn settled_turn(&self, turn: Turn, tasks: u32) -> Turn
        requires { tasks ≤ 1024 }
        ensures { result ≡ settled_turn tasks self.now turn }
    {
        match turn {
            Turn::Woken(task) => Turn::Woken(task),
            Turn::Switch {
                processor,
                from,
                to,
            } => Turn::Switch {
                processor,
                from: self.settled(from, tasks),
                to: self.settled(to, tasks),
            },
        }
    }

    /// The number that a thread has at the end, if it has one.
    fn settled(&self, thread: Option<u32>, tasks: u32) -> Option<u32>
        requires { tasks ≤ 1024 }
        ensures { result ≡ option_and_then (settled tasks self.now) thread }
    {
        let Some(number) = thread else {
            return None;
        };
        if number < tasks {
            return Some(number);
        }
        match self.place(number - tasks) {
            Some(place) => Some(tasks + place),
            None => None,
        }
    }
}

/// Whether a thread has an id, is no task, and is of real time.
fn is_unlisted(ids: &IndexSet<u32>, thread: Thread) -> bool
    ensures { result ≡ is_unlisted ids.now.keys thread }
{
    thread.is_real_time && 0 < thread.id && thread.id <= MAX_ID && !ids.contains(&thread.id)
}
