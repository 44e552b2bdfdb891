//! Who sees a schedule while it is judged.
ghost use Rattle.std.specs.Prelude.{◌≡◌, ℕ, ◌+◌, ◌⊎◌, List, IfOk, IfErr};
ghost use Rattle.task_set.specs.TaskSet.{SetData};
ghost use Rattle.strong_apa.specs.declared.reply.Entry.{Entry};
ghost use Rattle.schedule_picture.specs.History.{AreLinksAfter, HasTracked, HaveSpans};
ghost use Rattle.commands.specs.declared.status.Status.{Status};
ghost use Rattle.commands.specs.Checking.{IsInvalidStatus};
ghost use Rattle.commands.specs.Valid.{IsValid};

use crate::check::judge;
use crate::status::Status;
use link_table::Links;
use schedule_picture::{Tracker, Tracks};
use schedule_text::Schedule;
use std::alloc::Global;
use strong_apa::Entry;

/// Whoever is shown the links after each entry that was accepted.
pub(crate) trait Witness {
    /// What it has seen of the first n entries of a history.
    ghost has_seen: { SetData → List Entry → ℕ → Self → Type 0 };

    /// Sees the next entry, and the links after it.
    fn see(&mut self, links: &Links, entry: &Entry)
        requires { (set : SetData) × (entries : List Entry) × (n : ℕ) × has_seen set entries n self.old
            × AreLinksAfter set entries n entry.now links.now }
        ensures { (set : SetData) → (entries : List Entry) → (n : ℕ) → has_seen set entries n self.old
            → AreLinksAfter set entries n entry.now links.now → has_seen set entries (n + 1) self.new };
}

/// Sees nothing.
#[derive(Drop)]
pub(crate) struct Nobody;

impl Witness for Nobody {
    ghost has_seen = { λ set entries n nobody. Unit {0} };

    fn see(&mut self, _links: &Links, _entry: &Entry) {}
}

impl Witness for Tracker {
    ghost has_seen = { HasTracked };

    fn see(&mut self, links: &Links, entry: &Entry) {
        self.see(links, entry);
    }
}

/// The spans of a schedule, which are found while it is judged, or the status that says why it is not valid.
pub(crate) fn judged_tracks(alloc: Global, schedule: &Schedule) -> Result<Tracks, Status>
    ensures tracked { IfOk result (λ tracks. IsValid schedule.now
        × HaveSpans schedule.now.set schedule.now.entries tracks) }
    ensures refused { IfErr result (λ status.
        IsInvalidStatus schedule.now status ⊎ (status ≡ Status.OutOfMemory)) }
{
    let mut tracker = Tracker::new(alloc, schedule.set());
    judge(alloc, schedule, &mut tracker)?;
    let tracks = tracker.ended()?;
    Ok(tracks)
}
