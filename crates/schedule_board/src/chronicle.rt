//! The entries that were published, which stand in the proofs alone. What is kept of them is their number.
ghost use Rattle.std.specs.Prelude.{◌≡◌, ◌+◌, ◌<◌, ◌^◌, ◌++◌, List, [], length, MatchBool};
ghost use Rattle.strong_apa.specs.declared.reply.Entry.{Entry};
ghost use Rattle.schedule_board.specs.Chronicles.{head_of};

use logbook::{Gain, Offer, Plain, Play, Rule, Seen, Start, Word};
use std::marker::{Brand, PhantomData};
use strong_apa::Entry;

/// The rule of the chronicle.
pub struct ChronicleRule;

impl Rule<Entry, u64> for ChronicleRule {
    ghost use Rattle.std.specs.Prelude.{[]};
    ghost use base.Fml.{ftrue};
    ghost use Rattle.schedule_board.specs.Chronicles.{IsKept};

    ghost holds = { λ cells log. IsKept cells log };

    ghost first = { [] };

    ghost hinted = { λ n log. Unit {0} };

    ghost shows = { λ log. [] };

    ghost keeps = { λ names log. ftrue };

    ghost moves = { λ ask before after answer. Unit {0} };
}

/// A step of the chronicle trades nothing.
pub struct NoGain;

impl Gain<Entry, u64> for NoGain {
    ghost use base.Fml.{ftrue};

    ghost after = { λ names about answer. ftrue };
}

impl Plain<u64, Entry, u64> for NoGain {
    ghost use Rattle.std.specs.Prelude.{None, []};
    ghost use Rattle.task_set.specs.declared.event.Event.TheVariants.{Tick};
    ghost use Rattle.strong_apa.specs.declared.reply.Reply.TheVariants.{Ticked};

    ghost ask = { λ x. record { caller = 0; event = Tick 0; reply = Ticked } };

    ghost state = { λ x. None };
}

/// The entries that a step adds. No step is told them, so each call picks them.
pub trait Added {
    ghost entries: { List Entry };
}

impl Added for Brand {
    ghost entries = { [] };
}

/// An exchange that adds entries, if it finds the number that was expected.
pub struct Adds<J>(PhantomData<J>);

impl<J: Added> Play<Entry, u64> for Adds<J> {
    ghost use Rattle.schedule_board.specs.Chronicles.{AddsEntries};

    ghost then = { AddsEntries J.entries };
}

/// The chronicle has reached a list of entries. It has no bytes.
pub type Reached = Seen<Entry, u64, ChronicleRule>;

/// The one right to add entries, with all that were added.
#[derive(Drop)]
pub struct Chronicle {
    head: Word<Entry, u64, ChronicleRule>,
    count: u64,
    pub reached: Reached,
    ghost head_is: { head ≡ head_of reached.book },
    ghost counted: { count ≡ length reached.log },
}

impl Chronicle {
    /// No entry was published.
    pub fn new() -> Chronicle
        ensures { result.reached.log ≡ [] }
    {
        let (reached, mut first, _second) = Seen::open(Start::alone(), 0, 0);
        Chronicle {
            head: Word::tracked(0, &mut first),
            count: 0,
            reached,
        }
    }

    /// How many entries it has.
    pub fn len(&self) -> u64
        ensures { result ≡ length self.now.reached.log }
    {
        self.count
    }

    /// Adds these at the end, and says whether it did. It always does, since nobody else adds any.
    pub fn add(&mut self, more: &[Entry]) -> bool
        requires { length self.old.reached.log + length more.now < 2 ^ 62 }
        ensures book { self.new.reached.book ≡ self.old.reached.book }
        ensures added { MatchBool result
            (self.new.reached.log ≡ self.old.reached.log ++ more.now)
            (self.new.reached ≡ self.old.reached) }
    {
        self.add_as::<Brand>(more)
    }

    /// The same, with the entries picked.
    fn add_as<J: Added>(&mut self, more: &[Entry]) -> bool
        requires picked { more.now ≡ J.entries }
        requires room { length self.old.reached.log + length more.now < 2 ^ 62 }
        ensures book { self.new.reached.book ≡ self.old.reached.book }
        ensures added { MatchBool result
            (self.new.reached.log ≡ self.old.reached.log ++ more.now)
            (self.new.reached ≡ self.old.reached) }
    {
        let mut reached = self.reached.again();
        let mut offer: Offer<Entry, u64, ChronicleRule, NoGain> = reached.plain::<
            NoGain,
            u64,
            NoGain,
        >(&0);
        let mut pen = reached.no_pen();
        let old = self.count;
        let new = old + more.len() as u64;
        let found = self
            .head
            .compare_exchange::<Adds<J>, NoGain>(old, new, &mut reached, &mut offer, &mut pen);
        if found != old {
            return false;
        }
        self.reached = reached;
        self.count = new;
        true
    }
}
