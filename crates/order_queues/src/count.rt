//! A word that one thread raises and others look at, under the rule of specs/Count.antt.
ghost use Rattle.std.specs.Prelude.{◌≡◌, ℕ, ◌+◌, ◌^◌, ◌<◌, ◌≤◌, ◌++◌, ◌∷◌, [], true, false, IfOk};
ghost use Rattle.order_queues.specs.Count.{CountRule, writer_view, reader_view, note_view, informed_view, spent_view, Stored, Looked};

use atomic_table::{Join, Play, Seat, Split, Table, TableRule};
use std::alloc::{AllocError, Global};
use std::collections::LinkedList;
use std::sync::Wait;
use std::time::Duration;

/// What a seat at the word knows. Clauses alone speak of it: no value of it is ever made.
pub struct CountView {
    /// It is the one that writes the word.
    pub writes: bool,
    /// A number that the word had: the writer's is what it has.
    pub number: u64,
    /// What a reader knows that the word has reached.
    pub known: u64,
    /// What the looks of a reader found.
    pub looks: LinkedList<u64>,
}

/// The rule of a count. It starts at 0.
pub struct OneWriter;

impl TableRule<(), CountView, ()> for OneWriter {
    ghost holds = { λ _. CountRule };

    ghost first = { λ _. writer_view 0 };
}

/// The writer's store.
pub struct Stores;

impl Play<(), CountView> for Stores {
    ghost then = { Stored };
}

/// A reader's load.
pub struct Looks;

impl Play<(), CountView> for Looks {
    ghost then = { Looked };
}

/// A reader more, which knows nothing.
pub struct NewReader;

impl Split<CountView> for NewReader {
    ghost left = { λ v. v };

    ghost right = { λ v. reader_view 0 [] };
}

/// The writer's number on its way to a reader.
pub struct Note;

impl Split<CountView> for Note {
    ghost left = { λ v. v };

    ghost right = { note_view };
}

impl Join<CountView> for Note {
    ghost both = { informed_view };

    ghost spent = { spent_view };
}

/// The word.
#[derive(Drop)]
pub struct Count {
    pub table: Table<(), CountView, (), OneWriter, Global>,
    ghost sized: { table.shared.table_id.words ≡ 1 },
}

/// The one seat that writes the word.
#[derive(Drop)]
pub struct CountWriter {
    pub seat: Seat<(), CountView>,
    ghost role: { seat.me ≡ record { 0 = writer_view seat.me.0.number; 1 = [] } },
}

/// A seat that looks at the word.
#[derive(Drop)]
pub struct CountReader {
    pub seat: Seat<(), CountView>,
    ghost role: { seat.me ≡ record { 0 = reader_view seat.me.0.known seat.me.0.looks; 1 = [] } },
}

impl Count {
    /// The word is 0, and it has one reader, which knows 0.
    pub fn new(alloc: Global) -> Result<(Count, CountWriter, CountReader), AllocError>
        ensures writer { IfOk result (λ r.
            (r.1.seat.table_id ≡ r.0.table.shared.table_id) × (r.1.seat.me.0.number ≡ 0)) }
        ensures reader { IfOk result (λ r.
            (r.2.seat.table_id ≡ r.0.table.shared.table_id)
            × (r.2.seat.me.0.known ≡ 0)
            × (r.2.seat.me.0.looks ≡ [])) }
    {
        let (table, mut seat) = Table::of_words(alloc, &[0], &())?;
        let other = table.shared.split_seat::<NewReader>(&mut seat);
        Ok((
            Count { table },
            CountWriter { seat },
            CountReader { seat: other },
        ))
    }

    /// A reader more, split off another one, which keeps what it knows.
    pub fn new_reader(&self, other: &mut CountReader) -> CountReader
        requires { other.old.seat.table_id ≡ self.now.table.shared.table_id }
        ensures other { (other.new.seat.table_id ≡ other.old.seat.table_id)
            × (other.new.seat.me.0 ≡ other.old.seat.me.0) }
        ensures reader { (result.seat.table_id ≡ self.now.table.shared.table_id)
            × (result.seat.me.0.known ≡ 0)
            × (result.seat.me.0.looks ≡ []) }
    {
        let seat = self.table.shared.split_seat::<NewReader>(&mut other.seat);
        CountReader { seat }
    }

    /// Loads the word once.
    pub fn look(&self, reader: &mut CountReader) -> u64
        requires { reader.old.seat.table_id ≡ self.now.table.shared.table_id }
        ensures same { reader.new.seat.table_id ≡ reader.old.seat.table_id }
        ensures known { (reader.new.seat.me.0.known ≡ result) × (reader.old.seat.me.0.known ≤ result) }
        ensures looks { reader.new.seat.me.0.looks ≡ reader.old.seat.me.0.looks ++ result ∷ [] }
    {
        self.table.shared.load::<Looks>(&mut reader.seat, 0)
    }

    /// Stores a number that is no smaller than the one before, once.
    pub fn raise(&self, writer: &mut CountWriter, number: u64)
        requires of { writer.old.seat.table_id ≡ self.now.table.shared.table_id }
        requires next { writer.old.seat.me.0.number ≤ number }
        ensures { (writer.new.seat.table_id ≡ writer.old.seat.table_id)
            × (writer.new.seat.me.0.number ≡ number) }
    {
        self.table
            .shared
            .store::<Stores>(&mut writer.seat, 0, number);
    }

    /// Tells the reader the writer's number, with no look of the reader.
    pub fn inform(&self, writer: &mut CountWriter, reader: &mut CountReader)
        requires writer { writer.old.seat.table_id ≡ self.now.table.shared.table_id }
        requires reader { reader.old.seat.table_id ≡ self.now.table.shared.table_id }
        ensures writer { (writer.new.seat.table_id ≡ writer.old.seat.table_id)
            × (writer.new.seat.me.0 ≡ writer.old.seat.me.0) }
        ensures reader { (reader.new.seat.table_id ≡ reader.old.seat.table_id)
            × (reader.new.seat.me.0.looks ≡ reader.old.seat.me.0.looks) }
        ensures known { (writer.old.seat.me.0.number ≤ reader.new.seat.me.0.known)
            × (reader.old.seat.me.0.known ≤ reader.new.seat.me.0.known) }
    {
        let note = self.table.shared.split_seat::<Note>(&mut writer.seat);
        self.table.shared.join_seat::<Note>(&mut reader.seat, note);
    }

    /// Parks the calling thread while the word has the low 32 bits of this number, for no longer than `longest`, or until
    /// `wake`. It may also return for no reason.
    pub fn wait<R: Wait>(&self, rt: &R, number: u64, longest: Duration) {
        let low = (number & 0xffff_ffff) as u32;
        self.table.shared.park_timeout(rt, 0, low, longest);
    }

    /// Wakes those who are parked by `wait`.
    pub fn wake(&self) {
        self.table.shared.wake_all(0);
    }
}
