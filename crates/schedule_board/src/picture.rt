//! Which task is linked to which processor after so many entries.
ghost use Rattle.strong_apa.specs.declared.reply.Entry.{Entry};
ghost use Rattle.std.specs.Prelude.{List, ◌≡◌, ℕ, ◌+◌, ◌<◌, ◌^◌, ◌++◌, ◌∷◌, [], is_some};
ghost use Rattle.affinity_mask.specs.ProcSet.{has};
ghost use Rattle.schedule_board.specs.Pictures.{IsPictureOf, task_at};

use crate::occupants::Occupants;
use affinity_mask::ProcSet;
use strong_apa::Entry;

/// The links after some entries of a history.
#[derive(Clone, Copy)]
pub struct Picture {
    count: u64,
    occupants: Occupants,
}

impl Picture {
    /// The picture before any entry.
    pub(crate) fn opening(processors: u8) -> Picture
        ensures { IsPictureOf processors [] result }
    {
        Picture {
            count: 0,
            occupants: Occupants::nobody(processors),
        }
    }

    /// The picture after one entry more.
    pub(crate) fn follow(&mut self, entry: &Entry)
        requires { self.old.count + 1 < 2 ^ 64 }
        ensures count { self.new.count ≡ self.old.count + 1 }
        ensures drawn { (m : ℕ) (entries : List Entry) → IsPictureOf m entries self.old
            → IsPictureOf m (entries ++ entry.now ∷ []) self.new }
    {
        self.count += 1;
        self.occupants.follow(entry);
    }

    /// How many entries it shows.
    pub fn count(&self) -> u64
        ensures { result ≡ self.now.count }
    {
        self.count
    }

    /// How many processors there are.
    pub(crate) fn processors(&self) -> u8
        ensures { result ≡ self.now.occupants.processors }
    {
        self.occupants.processors
    }

    /// The task that is linked to a processor.
    pub fn on(&self, p: u8) -> Option<u32>
        ensures { result ≡ task_at self.now p }
    {
        self.occupants.on(p)
    }

    /// The occupied processors.
    pub fn linked(&self) -> ProcSet
        ensures { (p : ℕ) → has result p ≡ is_some (task_at self.now p) }
    {
        self.occupants.linked()
    }
}
