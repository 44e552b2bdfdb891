//! Tracks that follow a history, entry by entry.
ghost use Rattle.std.specs.Prelude.{◌≡◌, ℕ, ◌+◌, List, IfOk, OnOk, length};
ghost use Rattle.task_set.specs.TaskSet.{SetData};
ghost use Rattle.strong_apa.specs.declared.reply.Entry.{Entry};
ghost use Rattle.schedule_picture.specs.History.{AreLinksAfter, HasTracked, HaveSpans};

use crate::rows::mover_of;
use crate::tracks::Tracks;
use affinity_mask::OutOfMemory;
use link_table::Links;
use std::alloc::Global;
use strong_apa::Entry;
use task_set::TaskSet;

/// Follows the entries of a history with the links after each, whoever judges them. Where memory runs out it sees no more,
/// and says so at the end.
#[derive(Drop)]
pub struct Tracker {
    tracks: Result<Tracks, OutOfMemory>,
    /// The number of the next entry, from 1.
    next: u32,
}

impl Tracker {
    /// Before the first entry.
    pub fn new(alloc: Global, set: &TaskSet) -> Tracker
        ensures { (entries : List Entry) → HasTracked set.now entries 0 result }
    {
        Tracker {
            tracks: Tracks::new(alloc, set.processors(), set.len()),
            next: 1,
        }
    }

    /// Follows the next entry, after which these are the links.
    pub fn see(&mut self, links: &Links, entry: &Entry)
        requires { (set : SetData) × (entries : List Entry) × (n : ℕ) × HasTracked set entries n self.old
            × AreLinksAfter set entries n entry.now links.now }
        ensures { (set : SetData) → (entries : List Entry) → (n : ℕ) → HasTracked set entries n self.old
            → AreLinksAfter set entries n entry.now links.now → HasTracked set entries (n + 1) self.new }
    {
        let n = self.next;
        self.next = n + 1;
        let Ok(tracks) = &mut self.tracks else {
            return;
        };
        if let Err(refused) = tracks.see(links, n, mover_of(entry)) {
            self.tracks = Err(refused);
        }
    }

    /// The spans of the entries. Refused only where memory runs out, or did.
    pub fn ended(self) -> Result<Tracks, OutOfMemory>
        ensures { (set : SetData) → (entries : List Entry) → HasTracked set entries (length entries) self
            → IfOk result (HaveSpans set entries) }
    {
        let mut tracks = self.tracks?;
        tracks.end(self.next)?;
        Ok(tracks)
    }
}
