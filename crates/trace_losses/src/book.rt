//! The numbers of all tasks.
ghost use Rattle.std.specs.Prelude.{◌≡◌, ℕ, ◌+◌, ◌<◌, ◌≤◌, ◌^◌, List, [], ◌++◌, length, replicate, vec_len, IfOk};
ghost use Rattle.trace_losses.specs.Book.{IsBook, AreKept, AreReady, IsPassed};
ghost use Rattle.trace_losses.specs.declared.seen.Seen.{Seen};

use crate::seen::Seen;
use crate::tally::Tally;
use std::alloc::{AllocError, Global};

/// A tally of each task, and how many moments there were.
#[derive(Drop)]
pub struct Book {
    pub moments: u64,
    pub tallies: Vec<Tally>,
}

impl Book {
    /// The book of no moment, of so many tasks.
    pub fn new(alloc: Global, tasks: usize) -> Result<Book, AllocError>
        ensures book { IfOk result (λ book. IsBook [] book.tallies.items) }
        ensures kept { IfOk result (λ book. AreKept 0 book.tallies.items) }
        ensures moments { IfOk result (λ book. book.moments ≡ 0) }
        ensures tasks { IfOk result (λ book. vec_len book.tallies ≡ tasks) }
    {
        let mut tallies = Vec::new(alloc);
        for task in 0..tasks {
            tallies.push(Tally::new())?;
        }
        Ok(Book {
            moments: 0,
            tallies,
        })
    }

    /// Goes on by so many equal moments, at which this holds of each thread. The first threads are the tasks.
    pub fn pass(&mut self, units: u64, seen: &[Seen])
        requires some { 0 < units }
        requires each { vec_len self.old.tallies ≤ length seen.now }
        requires room { self.old.moments + units < 2 ^ 64 }
        requires kept { AreKept self.old.moments self.old.tallies.items }
        ensures book { (moments : List (List Seen)) → IsBook moments self.old.tallies.items
            → IsBook (moments ++ replicate units seen.now) self.new.tallies.items }
        ensures kept { AreKept self.new.moments self.new.tallies.items }
        ensures moments { self.new.moments ≡ self.old.moments + units }
        ensures tasks { vec_len self.new.tallies ≡ vec_len self.old.tallies }
    {
        pass_all(&mut self.tallies, units, seen);
        self.moments += units;
    }
}

/// Each tally goes on by so many equal moments.
fn pass_all(tallies: &mut Vec<Tally>, units: u64, seen: &[Seen])
    requires some { 0 < units }
    requires each { vec_len tallies.old ≤ length seen.now }
    requires kept { AreReady tallies.old.items units }
    ensures { IsPassed tallies.old.items tallies.new.items seen.now units (vec_len tallies.old) }
{
    for t in 0..tallies.len() {
        tallies[t] = tallies[t].after(units, seen[t]);
    }
}
