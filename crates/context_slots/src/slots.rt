//! The contexts of all tasks, handed over by turn words.
ghost use Rattle.std.specs.Prelude.{◌≡◌, ◌≢◌, ◌*◌, ◌<◌, None, MatchResult, IfOk, IfErr, length};
ghost use Rattle.context_slots.specs.Hands.{AreNewHands, AreAllHands, all_ended, after_look, after_run, after_release, Took, TakesStint};
ghost use Rattle.context_slots.specs.Carried.{AllCarried, AreOwn};

use crate::hand::Hand;
use crate::hand_seat::HandSeat;
use crate::held::{Held, NotTurn};
use crate::making::{deal, gather, into_contexts};
use crate::turn_words::{TurnWords, open};
use affinity_mask::OutOfMemory;
use std::alloc::Global;
use std::marker::Model;
use std::sync::Wait;
use task_set::{Context, TaskSet};

/// The turn word and the context of each task, which the processors share by `&`.
///
/// The word of a task is 2k while its context is at home after k stints, and 2k + 1 while it is out in the stint with
/// number k. Stints are numbered from 0 in the order in which the task is taken, whichever processor takes it.
#[derive(Drop)]
pub struct Slots {
    words: TurnWords,
}

impl Model for Slots {
    ghost use Rattle.context_slots.specs.Hands.{SlotsData};

    ghost Value = { SlotsData };

    ghost use Rattle.context_slots.specs.SlotsParts.{slots_data, IsSlots};

    ghost view = { slots_data };

    ghost invariant = { IsSlots };
}

/// What `close` hands back, untouched, where it is out of memory. It has no other cause.
#[derive(Drop)]
pub struct Unclosed {
    pub slots: Slots,
    pub hands: Vec<Hand>,
}

impl Slots {
    /// Slots for the tasks of a set, every context fresh and at home, and the hands of its processors in the order of
    /// their numbers. Refused only where out of memory.
    pub fn new(alloc: Global, set: &TaskSet) -> Result<(Slots, Vec<Hand>), OutOfMemory>
        ensures slots { IfOk result (λ made. made.0.set ≡ set.now) }
        ensures hands { IfOk result (λ made. AreNewHands made.0 made.1.items) }
    {
        let tasks = set.len();
        let processors = set.processors();
        let (table, seat) = open(alloc, set)?;
        let mut first = HandSeat { number: 0, seat };
        let mut hands = Vec::with_capacity(alloc, processors as usize)?;
        for number in 1..processors {
            let hand_seat = deal(&table, &mut first, number);
            hands.push_reserved(Hand { hand_seat });
        }
        hands.insert(0, Hand { hand_seat: first })?;
        let words = TurnWords { table, tasks };
        Ok((Slots { words }, hands))
    }

    /// The word of a task, by one load. The hand may hold a context at that time.
    pub fn turn(&self, hand: &mut Hand, task: u32) -> u64
        requires slots { hand.old.slots ≡ self.now.id }
        requires task { task < length self.now.set.tasks }
        ensures look { hand.new ≡ after_look hand.old task result }
    {
        self.words.turn(&mut hand.hand_seat, task)
    }

    /// Takes a task for the stint with this number, by one compare and exchange. It never waits: where the word found is
    /// another than 2 * number, the context is out or it is another stint's turn, and the caller may try again.
    pub fn take(&self, hand: &mut Hand, task: u32, number: u32) -> Result<Held, NotTurn>
        requires slots { hand.old.slots ≡ self.now.id }
        requires task { task < length self.now.set.tasks }
        requires free { hand.old.holds ≡ None }
        ensures turn { MatchResult result
            (λ held. TakesStint hand.old task number held hand.new)
            (λ no. (no.found ≢ 2 * number) × (hand.new ≡ after_look hand.old task no.found)) }
    {
        match self.words.take(&mut hand.hand_seat, task, number) {
            Ok(taken) => Ok(Held { taken }),
            Err(no) => Err(no),
        }
    }

    /// Runs the task that is held for a number of units, on the hand's processor. One load notes the units.
    pub fn run(&self, hand: &mut Hand, held: &mut Held, units: u32)
        requires slots { hand.old.slots ≡ self.now.id }
        requires took { Took hand.old held.old }
        ensures hand { hand.new ≡ after_run hand.old units }
        ensures took { Took hand.new held.new }
        ensures held { (held.new.task ≡ held.old.task) × (held.new.number ≡ held.old.number) }
    {
        self.words.run(&mut hand.hand_seat, &mut held.taken, units);
    }

    /// Puts the context home, by one store, which makes the word 2 * number + 2, and wakes whoever waits for the task.
    pub fn release(&self, hand: &mut Hand, held: Held)
        requires slots { hand.old.slots ≡ self.now.id }
        requires took { Took hand.old held }
        ensures hand { hand.new ≡ after_release hand.old }
    {
        let Held { taken } = held;
        let word = taken.task as usize;
        self.words.release(&mut hand.hand_seat, taken);
        self.words.table.shared.wake_all(word);
    }

    /// Parks the calling thread while the task's word is the one found, until a `release` of the task wakes it.
    ///
    /// It may also return at once, or for no reason, so the caller looks again, by `turn` or `take`. It changes nothing,
    /// and no clause says what stands after it: by the time that the caller looks, any other hand may have made steps.
    /// It compares the low 32 bits of the words, which differ between a word and those of the next 2^31 stints.
    pub fn wait<R: Wait>(&self, rt: &R, task: u32, found: u64)
        requires task { task < length self.now.set.tasks }
    {
        let low = (found & 0xffff_ffff) as u32;
        self.words.table.shared.park(rt, task as usize, low);
    }

    /// The contexts in the order of their tasks, each carried through all stints of its task, whichever hands ended
    /// them. The hands are those that `new` gave, all of them and in their order. Refused only where out of memory.
    pub fn close(self, alloc: Global, mut hands: Vec<Hand>) -> Result<Vec<Context>, Unclosed>
        requires { AreAllHands self hands.items }
        ensures contexts { IfOk result (λ contexts.
            (length contexts.items ≡ length self.set.tasks)
            × AllCarried (all_ended hands.items) 0 contexts.items) }
        ensures own { IfOk result (λ contexts. AreOwn self.set.processors 0 contexts.items) }
        ensures unclosed { IfErr result (λ back.
            (back.slots ≡ self) × (back.hands.items ≡ hands.items)) }
    {
        let Ok(contexts) = Vec::with_capacity(alloc, self.words.tasks as usize) else {
            return Err(Unclosed { slots: self, hands });
        };
        let Slots { words } = self;
        let Some(last) = hands.pop() else {
            unreachable!()
        };
        let mut all = last.into_hand_seat();
        gather(&words, &mut all, hands);
        Ok(into_contexts(words, all, contexts))
    }
}
