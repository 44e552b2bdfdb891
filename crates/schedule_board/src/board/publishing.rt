//! What a publisher does.
ghost use Rattle.std.specs.Prelude.{◌≡◌, ◌+◌, ◌≤◌, ◌++◌, true, length, drop, fold, MatchResult};
ghost use Rattle.left_right.specs.Sides.{view};
ghost use Rattle.schedule_board.specs.Views.{ShownGoesOn, KnowsShown};
ghost use Rattle.schedule_board.specs.Boards.{board_of, published, board_at, seen, told, looks};
ghost use Rattle.schedule_board.specs.declared.shown.Shown.{Shown};

use super::{Observer, Publisher};
use crate::chronicle::Reached;
use crate::rule::{Desk, Looks};
use crate::shown::Shown;
use affinity_mask::OutOfMemory;
use core::mem::replace_with;
use std::sync::Wait;
use strong_apa::Entry;

impl<K: Wait + Drop> Publisher<K> {
    /// How many entries are published.
    pub fn count(&self) -> u64
        ensures { result ≡ length (published self.now) }
    {
        self.desk.published().picture.count()
    }

    /// Publishes these entries after those that are published, and answers how many are published then. Waits for the
    /// observers that still read an older picture. Takes no memory, since `make_board` took the room; were it refused all
    /// the same, this and all later calls are refused, and nothing of a refused list is ever published.
    pub fn publish<R: Wait>(&mut self, rt: &R, more: &[Entry]) -> Result<u64, OutOfMemory>
        requires { length (published self.old) + length more.now ≤ 20000 }
        ensures board { board_of self.new ≡ board_of self.old }
        ensures published { MatchResult result
            (λ n. (published self.new ≡ published self.old ++ more.now)
            × (n ≡ length (published self.new)))
            (λ _. published self.new ≡ published self.old) }
    {
        // Only after a refusal the chronicle has entries that are not published.
        if self.chronicle.len() != self.count() {
            return Err(OutOfMemory);
        }
        if !self.chronicle.add(more) {
            return Err(OutOfMemory);
        }
        let next = shown_after(self.desk.published(), more, self.chronicle.reached.again());
        let count = next.picture.count();
        if self.desk.append(next).is_err() {
            return Err(OutOfMemory);
        }
        replace_with(&mut self.desk, rt, show::<R>);
        Ok(count)
    }

    /// Tells an observer how far the published list goes. What it has seen stays.
    pub fn tell(&mut self, observer: &mut Observer)
        requires { board_of self.old ≡ board_at observer.old }
        ensures kept { self.new ≡ self.old }
        ensures told { told observer.new ≡ published self.old }
        ensures same { (board_at observer.new ≡ board_at observer.old)
            × (seen observer.new ≡ seen observer.old)
            × (looks observer.new ≡ looks observer.old) }
    {
        let shown = self.desk.published();
        observer.told = shown.reached.again();
        observer.told_count = shown.picture.count();
    }
}

/// What is shown after these entries more.
fn shown_after(shown: &Shown, more: &[Entry], reached: Reached) -> Shown
    requires room { length shown.now.reached.log + length more.now ≤ 20000 }
    requires reached { reached.log ≡ shown.now.reached.log ++ more.now }
    ensures reached { result.reached ≡ reached }
    ensures processors { result.picture.occupants.processors
        ≡ shown.now.picture.occupants.processors }
{
    let mut picture = shown.picture;
    for entry in more {
        picture.follow(entry);
    }
    Shown { picture, reached }
}

/// Shows what was appended last.
pub(super) fn show<R: Wait>(desk: Desk, rt: &R) -> (Desk, ())
    requires { ShownGoesOn desk.desk.shown.value
        (fold (λ s o. o) desk.desk.shown.value (drop desk.behind desk.log.items)) }
    ensures shown { result.0.desk.shown.value
        ≡ fold (λ s o. o) desk.desk.shown.value (drop desk.behind desk.log.items) }
    ensures knows { KnowsShown result.0.desk.shown.value (view result.0.desk.place) }
{
    let (desk, _shown) = desk.publish_as::<Looks, R>(rt);
    (desk, ())
}
