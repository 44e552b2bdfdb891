//! The occupants of the processors, which follow the entries of a history.
ghost use Rattle.std.specs.Prelude.{◌≡◌, ℕ, ◌<◌, All, length, get_or, None, is_some, Option};
ghost use Rattle.affinity_mask.specs.ProcSet.{has};
ghost use Rattle.task_set.specs.declared.event.Event.TheVariants.{Arrive, Depart, Affinity, Offline, Online};
ghost use Rattle.strong_apa.specs.State.{State, task_on, occupant_but, state_after_leaving};
ghost use Rattle.strong_apa.specs.Chain.{occupant_after_shift, state_after_shift};
ghost use Rattle.strong_apa.specs.History.{effect_of, state_after_reply, state_after_came, state_after_left, state_after_gone};
ghost use Rattle.schedule_board.specs.Links.{ShowsLinks};

use affinity_mask::ProcSet;
use strong_apa::{Came, Entry, Gone, Reply};
use task_set::Event;

/// How many processors there may be.
const PLACES: u8 = 64;

/// The task on each processor. It follows replies alone, whatever the tasks' masks are.
#[derive(Clone, Copy)]
pub(crate) struct Occupants {
    pub(crate) processors: u8,

    /// By processor: its occupant.
    pub(crate) on: [Option<u32>; 64],
}

impl Occupants {
    /// Nobody is on any of so many processors.
    pub(crate) fn nobody(processors: u8) -> Occupants
        ensures processors { result.processors ≡ processors }
        ensures places { length result.on ≡ 64 }
        ensures nobody { (p : ℕ) → p < 64 → get_or result.on p None ≡ None }
    {
        Occupants {
            processors,
            on: [None; 64],
        }
    }

    /// The occupant of a processor. There is none where there is no such processor.
    pub(crate) fn on(&self, p: u8) -> Option<u32>
        ensures { result ≡ get_or self.now.on p None }
    {
        if p < PLACES {
            self.on[p as usize]
        } else {
            None
        }
    }

    /// The occupied processors.
    pub(crate) fn linked(&self) -> ProcSet
        ensures { (p : ℕ) → has result p ≡ is_some (get_or self.now.on p None) }
    {
        let mut linked = ProcSet::empty();
        for p in 0..PLACES {
            if self.on[p as usize].is_some() {
                linked = linked.with(p);
            }
        }
        linked
    }

    /// What an entry does to the links.
    pub(crate) fn follow(&mut self, entry: &Entry)
        ensures { (s : State) → ShowsLinks s self.old → ShowsLinks (effect_of s entry.now) self.new }
    {
        let reply = &entry.reply;
        match entry.event {
            Event::Arrive(t) => self.follow_arrival(t, reply),
            Event::Depart(t) => self.follow_departure(t, reply),
            Event::Tick(_) => {}
            Event::Affinity { task, mask: _ } => self.follow_affinity(task, reply),
            Event::Offline(_) => self.follow_offline(reply),
            Event::Online(_) => self.follow_online(reply),
        }
    }

    /// What a reply to the arrival of a task does.
    fn follow_arrival(&mut self, t: u32, reply: &Reply)
        ensures { (s : State) → ShowsLinks s self.old
            → ShowsLinks (state_after_reply s (Arrive t) reply.now) self.new }
    {
        if let Some(came) = reply.came() {
            self.come(t, &came);
        }
    }

    /// What a reply to the departure of a task does.
    fn follow_departure(&mut self, t: u32, reply: &Reply)
        ensures { (s : State) → ShowsLinks s self.old
            → ShowsLinks (state_after_reply s (Depart t) reply.now) self.new }
    {
        if let Some(gone) = reply.gone() {
            self.leave(t);
            self.fill(&gone);
        }
    }

    /// What a reply to a change of a task's mask does.
    fn follow_affinity(&mut self, t: u32, reply: &Reply)
        ensures { (s : State) (mask : ℕ) → ShowsLinks s self.old
            → ShowsLinks (state_after_reply s (Affinity t mask) reply.now) self.new }
    {
        if let Reply::Remasked { gone, came } = reply {
            self.vacate(t, gone);
            self.come(t, came);
        }
    }

    /// What a reply does where a processor was to go off line.
    fn follow_offline(&mut self, reply: &Reply)
        ensures { (s : State) (p : ℕ) → ShowsLinks s self.old
            → ShowsLinks (state_after_reply s (Offline p) reply.now) self.new }
    {
        if let Reply::Off { moved } = reply
            && let Some(moved) = moved
        {
            self.leave(moved.task);
            self.come(moved.task, &moved.came);
        }
    }

    /// What a reply does where a processor was to come on line.
    fn follow_online(&mut self, reply: &Reply)
        ensures { (s : State) (p : ℕ) → ShowsLinks s self.old
            → ShowsLinks (state_after_reply s (Online p) reply.now) self.new }
    {
        if let Reply::On { parts } = reply {
            self.fill(parts);
        }
    }

    /// A task comes in, as this says.
    fn come(&mut self, t: u32, came: &Came)
        ensures { (s : State) → ShowsLinks s self.old
            → ShowsLinks (state_after_came s t came.now) self.new }
    {
        match came {
            Came::Placed { chain } => self.shift(t, chain.processors()),
            Came::Displaced { chain, .. } => self.shift(t, chain.processors()),
            Came::Waits { .. } => {}
        }
    }

    /// Somebody comes in at a processor that became idle, or nobody.
    fn fill(&mut self, gone: &Gone)
        ensures { (s : State) → ShowsLinks s self.old → ShowsLinks (state_after_gone s gone.now) self.new }
    {
        if let Some(w) = gone.entered {
            self.shift(w, gone.chain.reversed().processors());
        }
    }

    /// A ready task becomes absent: it leaves its processor, where somebody may come in, unless it waits.
    fn vacate(&mut self, t: u32, gone: &Option<Gone>)
        ensures { (s : State) → ShowsLinks s self.old → ShowsLinks (state_after_left s t gone.now) self.new }
    {
        if let Some(gone) = gone {
            self.leave(t);
            self.fill(gone);
        }
    }

    /// A task leaves its processor, if it is on one.
    fn leave(&mut self, t: u32)
        ensures { (s : State) → ShowsLinks s self.old → ShowsLinks (state_after_leaving s t) self.new }
    {
        let before = *self;
        for p in 0..PLACES {
            self.on[p as usize] = unless_task(t, before.on[p as usize]);
        }
    }

    /// A task goes on the first processor of a chain, and each occupant on the next one.
    fn shift(&mut self, t: u32, chain: &[u8])
        requires { All (λ p. p < 64) chain.now }
        ensures { (s : State) → ShowsLinks s self.old → ShowsLinks (state_after_shift s t chain.now) self.new }
    {
        let before = *self;
        for p in 0..PLACES {
            self.on[p as usize] = before.after_shift(t, chain, p);
        }
    }

    /// Who is on a processor after such a shift.
    fn after_shift(&self, t: u32, chain: &[u8], p: u8) -> Option<u32>
        requires chain { All (λ p. p < 64) chain.now }
        requires place { p < 64 }
        ensures { (s : State) → ShowsLinks s self.now → result ≡ task_on (state_after_shift s t chain.now) p }
    {
        if p >= self.processors {
            return None;
        }
        let mut guest = Some(t);
        for &q in chain {
            if q == p {
                return guest;
            }
            guest = self.on[q as usize];
        }
        self.on[p as usize]
    }
}

/// An occupant, where it is not this task.
fn unless_task(t: u32, occupant: Option<u32>) -> Option<u32>
    ensures { result ≡ occupant_but t occupant }
{
    match occupant {
        Some(u) if u == t => None,
        stays => stays,
    }
}
