//! What an event asks for, move by move.
ghost use Rattle.std.specs.Prelude.{◌≡◌, ℕ, ◌+◌, ◌-◌, ◌<◌, ◌≤◌, List, [], ◌∷◌, ◌++◌, Option, Some, None, set, length, reverse, replicate, IfOk, slice_index};
ghost use Rattle.std.specs.Option.{option_copied};
ghost use Rattle.strong_apa.specs.Reply.{filling_chain, coming_chain};
ghost use Rattle.live_core.specs.MoveData.{entered_by, moved_of, guest_who_stays};

use affinity_mask::OutOfMemory;
use link_table::Links;
use std::alloc::Global;
use std::marker::Model;
use strong_apa::{Chain, Moved, Reply};
use task_set::Event;

/// An event asks for so many moves at most: two chains of 64 processors, and a stop before each.
const MAX_MOVES: usize = 130;

/// One task starts to run, stops, or goes to another processor.
#[derive(Clone, Copy, Debug, PartialEq, Eq)]
pub enum Move {
    /// The task, which runs nowhere, starts on a processor.
    Start { task: u32, to: u8 },

    /// The task goes from one processor to another.
    Shift { task: u32, from: u8, to: u8 },

    /// The task stops on its processor, and runs nowhere then.
    Stop { task: u32, from: u8 },
}

/// Who is on each processor, and the moves of the last event, after which they are there.
#[derive(Drop)]
pub(crate) struct MoveList {
    /// By processor: its occupant.
    occupants: Vec<Option<u32>>,

    /// There is room for `MAX_MOVES`.
    moves: Vec<Move>,
}

impl Model for MoveList {
    ghost use Rattle.live_core.specs.MoveData.{MoveData};

    ghost Value = { MoveData };

    ghost use Rattle.live_core.specs.MoveView.{move_view, HasRoom};

    ghost view = { move_view };

    ghost invariant = { HasRoom };
}

impl MoveList {
    ghost use Rattle.live_core.specs.Moves.{MovesLead, occupant_at, IsNowhere};
    ghost use Rattle.live_core.specs.MoveData.{DoesMore, CanPassOn, PassesOn, PassesOnTwice, OfflinePassesOn, EventLeadsTo, guest_who_stays, occupant_passed, AreMovesFor, AreMovesTwice, AreOfflineMoves, passing_moves, shifts_along, shift_of, stop_of};
    ghost use Rattle.live_core.specs.declared.moves.Move.TheVariants.{Start};

    /// Nobody is on any of so many processors.
    pub(crate) fn new(alloc: Global, processors: u8) -> Result<MoveList, OutOfMemory>
        ensures { IfOk result (λ list. list ≡ record {
          occupants = replicate processors None;
          moves = [];
        }) }
    {
        let mut occupants = Vec::new(alloc);
        for _p in 0..processors {
            occupants.push(None)?;
        }
        let moves = Vec::with_capacity(alloc, MAX_MOVES)?;
        Ok(MoveList { occupants, moves })
    }

    /// The moves of the last event.
    pub(crate) fn moves(&self) -> &[Move]
        ensures { result.now ≡ self.now.moves }
    {
        self.moves.as_slice()
    }

    /// The moves of an event with its reply take the place of those before.
    pub(crate) fn follow(&mut self, event: &Event, reply: &Reply)
        requires { (after : List (Option ℕ)) × EventLeadsTo self.old.occupants event.now reply.now after }
        ensures moves { MovesLead self.old.occupants self.new.moves self.new.occupants }
        ensures few { length self.new.moves ≤ 130 }
        ensures occupants { (after : List (Option ℕ))
            → EventLeadsTo self.old.occupants event.now reply.now after → self.new.occupants ≡ after }
        ensures exact { AreMovesFor self.old.occupants event.now reply.now self.new.moves }
    {
        self.clear();
        self.add(event, reply);
    }

    /// The occupants are those of a table, and the moves are forgotten.
    pub(crate) fn begin_at(&mut self, links: &Links)
        requires { length self.old.occupants ≡ links.now.processors }
        ensures { self.new ≡ record { occupants = links.now.on; moves = [] } }
    {
        self.clear();
        copy_occupants(&mut self.occupants, links);
    }

    /// A task starts on the first processor of a chain, on whose last nobody is, and each occupant goes on the next one.
    pub(crate) fn let_in(&mut self, task: u32, chain: &[u8])
        requires can { (after : List (Option ℕ)) × PassesOn self.old.occupants (Some task) chain.now after }
        requires none { self.old.moves ≡ [] }
        ensures moves { MovesLead self.old.occupants self.new.moves self.new.occupants }
        ensures few { length self.new.moves ≤ 130 }
        ensures occupants { (after : List (Option ℕ))
            → PassesOn self.old.occupants (Some task) chain.now after → self.new.occupants ≡ after }
        ensures exact { self.new.moves ≡ passing_moves self.old.occupants (Some task) chain.now }
    {
        self.pass_on(Some(task), chain);
    }

    /// The occupants are those of a table, and the moves stay.
    pub(crate) fn stand_at(&mut self, links: &Links)
        requires { length self.old.occupants ≡ links.now.processors }
        ensures { self.new ≡ record self.old { occupants = links.now.on } }
    {
        copy_occupants(&mut self.occupants, links);
    }

    /// The moves are forgotten.
    pub(crate) fn clear(&mut self)
        ensures { self.new ≡ record self.old { moves = [] } }
    {
        self.moves.clear();
    }

    /// Adds the moves of an event with its reply.
    fn add(&mut self, event: &Event, reply: &Reply)
        requires can { (after : List (Option ℕ)) × EventLeadsTo self.old.occupants event.now reply.now after }
        requires none { self.old.moves ≡ [] }
        ensures more { DoesMore 130 self.old self.new }
        ensures occupants { (after : List (Option ℕ))
            → EventLeadsTo self.old.occupants event.now reply.now after → self.new.occupants ≡ after }
        ensures exact { AreMovesFor self.old.occupants event.now reply.now self.new.moves }
    {
        match event {
            Event::Arrive(t) => self.pass_on(Some(*t), reply.coming_chain()),
            Event::Depart(_) => self.fill(reply),
            Event::Affinity { task, .. } => self.remask(*task, reply),
            Event::Offline(p) => self.go_offline(*p, reply),
            Event::Online(_) => self.fill(reply),
            Event::Tick(_) => (),
        }
    }

    /// A ready task whose mask has changed leaves its processor, if it has one, which is filled, and it comes back. Whoever
    /// would fill the processor and be displaced by the return does not start.
    fn remask(&mut self, task: u32, reply: &Reply)
        requires can { (after : List (Option ℕ)) × PassesOnTwice self.old.occupants (entered_by reply.now)
            (reverse (filling_chain reply.now)) (Some task) (coming_chain reply.now) after }
        requires none { self.old.moves ≡ [] }
        ensures more { DoesMore 130 self.old self.new }
        ensures occupants { (after : List (Option ℕ)) → PassesOnTwice self.old.occupants (entered_by reply.now)
            (reverse (filling_chain reply.now)) (Some task) (coming_chain reply.now) after
            → self.new.occupants ≡ after }
        ensures exact { AreMovesTwice self.old.occupants
            (guest_who_stays (entered_by reply.now) (reverse (filling_chain reply.now)) (coming_chain reply.now))
            (reverse (filling_chain reply.now)) (Some task) (coming_chain reply.now) self.new.moves }
    {
        let entered = entered_by(reply);
        let filling = reversed_filling(reply);
        let one = filling.processors();
        let two = reply.coming_chain();
        let first = guest_who_stays(entered, one, two);
        self.pass_on_twice(first, one, task, two);
    }

    /// The task of a processor that goes off line, if it has one, leaves it and comes back.
    fn go_offline(&mut self, p: u8, reply: &Reply)
        requires can { (after : List (Option ℕ)) × OfflinePassesOn self.old.occupants p (moved_of reply.now) after }
        requires none { self.old.moves ≡ [] }
        ensures more { DoesMore 130 self.old self.new }
        ensures occupants { (after : List (Option ℕ))
            → OfflinePassesOn self.old.occupants p (moved_of reply.now) after → self.new.occupants ≡ after }
        ensures exact { AreOfflineMoves self.old.occupants p (moved_of reply.now) self.new.moves }
    {
        if let Some(moved) = moved_by(reply) {
            let two = moved.came.chain();
            self.pass_on_twice(None, &[p], moved.task, two);
        }
    }

    /// A processor that has been left is filled as the reply says: whoever is on it stops, and the task that enters, if
    /// one does, goes against the direction of the back chain.
    fn fill(&mut self, reply: &Reply)
        requires can { (after : List (Option ℕ)) × PassesOn self.old.occupants (entered_by reply.now)
            (reverse (filling_chain reply.now)) after }
        requires room { length self.old.moves ≤ 65 }
        ensures more { DoesMore 65 self.old self.new }
        ensures occupants { (after : List (Option ℕ)) → PassesOn self.old.occupants (entered_by reply.now)
            (reverse (filling_chain reply.now)) after → self.new.occupants ≡ after }
        ensures added { self.new.moves ≡ self.old.moves
            ++ passing_moves self.old.occupants (entered_by reply.now) (reverse (filling_chain reply.now)) }
    {
        let entered = entered_by(reply);
        let filling = reply.filling_chain();
        if filling.len() < 2 {
            self.pass_on(entered, filling);
            return;
        }
        let reversed = reversed_filling(reply);
        let one = reversed.processors();
        self.pass_on(entered, one);
    }

    /// Occupants are passed on along one chain, and then along another.
    fn pass_on_twice(&mut self, first: Option<u32>, one: &[u8], second: u32, two: &[u8])
        requires can { (after : List (Option ℕ))
            × PassesOnTwice self.old.occupants first one.now (Some second) two.now after }
        requires none { self.old.moves ≡ [] }
        ensures more { DoesMore 130 self.old self.new }
        ensures occupants { (after : List (Option ℕ))
            → PassesOnTwice self.old.occupants first one.now (Some second) two.now after
            → self.new.occupants ≡ after }
        ensures exact { AreMovesTwice self.old.occupants first one.now (Some second) two.now self.new.moves }
    {
        self.pass_on(first, one);
        self.pass_on(Some(second), two);
    }

    /// The occupant of the last processor of a chain stops, each other one goes on the next processor, and the guest, if
    /// there is one, starts on the first.
    fn pass_on(&mut self, guest: Option<u32>, chain: &[u8])
        requires can { (after : List (Option ℕ)) × PassesOn self.old.occupants guest chain.now after }
        requires room { length self.old.moves ≤ 65 }
        ensures more { DoesMore 65 self.old self.new }
        ensures occupants { (after : List (Option ℕ))
            → PassesOn self.old.occupants guest chain.now after → self.new.occupants ≡ after }
        ensures added { self.new.moves ≡ self.old.moves ++ passing_moves self.old.occupants guest chain.now }
    {
        if chain.is_empty() {
            return;
        }
        self.stop(chain[chain.len() - 1]);
        self.advance(chain);
        if let Some(task) = guest {
            self.start(task, chain[0]);
        }
    }

    /// Each occupant of a chain, on whose last processor nobody is, goes on the next processor.
    fn advance(&mut self, chain: &[u8])
        requires can { CanPassOn self.old.occupants chain.now }
        requires some { 0 < length chain.now }
        requires nobody { occupant_at self.old.occupants (slice_index chain.now (length chain.now - 1)) ≡ None }
        requires room { length self.old.moves + length chain.now ≤ 130 }
        ensures more { DoesMore (length chain.now - 1) self.old self.new }
        ensures occupants { (p : ℕ) → occupant_at self.new.occupants p
            ≡ occupant_passed self.old.occupants None chain.now p }
        ensures added { self.new.moves ≡ self.old.moves ++ shifts_along self.old.occupants chain.now }
    {
        for i in 1..chain.len() {
            let to = chain.len() - i;
            self.shift(chain[to - 1], chain[to]);
        }
    }

    /// The occupant of a processor goes to another one, which nobody is on.
    fn shift(&mut self, from: u8, to: u8)
        requires from { from < length self.old.occupants }
        requires to { to < length self.old.occupants }
        requires somebody { (t : ℕ) × (occupant_at self.old.occupants from ≡ Some t) }
        requires nobody { occupant_at self.old.occupants to ≡ None }
        requires room { length self.old.moves < 130 }
        ensures more { DoesMore 1 self.old self.new }
        ensures occupants { self.new.occupants
            ≡ set (set self.old.occupants from None) to (occupant_at self.old.occupants from) }
        ensures added { self.new.moves ≡ self.old.moves ++ shift_of (occupant_at self.old.occupants from) from to }
    {
        let occupant = self.occupants[from as usize];
        let task = occupant.unwrap();
        self.moves.push_reserved(Move::Shift { task, from, to });
        self.occupants[from as usize] = None;
        self.occupants[to as usize] = occupant;
    }

    /// A task that is on no processor starts on one that nobody is on.
    fn start(&mut self, task: u32, to: u8)
        requires to { to < length self.old.occupants }
        requires nobody { occupant_at self.old.occupants to ≡ None }
        requires nowhere { IsNowhere self.old.occupants task }
        requires room { length self.old.moves < 130 }
        ensures more { DoesMore 1 self.old self.new }
        ensures occupants { self.new.occupants ≡ set self.old.occupants to (Some task) }
        ensures added { self.new.moves ≡ self.old.moves ++ Start task to ∷ [] }
    {
        self.moves.push_reserved(Move::Start { task, to });
        self.occupants[to as usize] = Some(task);
    }

    /// The occupant of a processor, if it has one, stops.
    fn stop(&mut self, from: u8)
        requires from { from < length self.old.occupants }
        requires room { length self.old.moves < 130 }
        ensures more { DoesMore 1 self.old self.new }
        ensures occupants { self.new.occupants ≡ set self.old.occupants from None }
        ensures added { self.new.moves ≡ self.old.moves ++ stop_of (occupant_at self.old.occupants from) from }
    {
        if let Some(task) = self.occupants[from as usize] {
            self.moves.push_reserved(Move::Stop { task, from });
            self.occupants[from as usize] = None;
        }
    }
}

/// The task that a reply lets in where a processor was left.
fn entered_by(reply: &Reply) -> Option<u32>
    ensures { result ≡ entered_by reply.now }
{
    match reply {
        Reply::Freed { entered, .. } => *entered,
        Reply::Remasked {
            gone: Some(gone),
            ..
        } => gone.entered,
        Reply::On { parts } => parts.entered,
        _ => None,
    }
}

/// The chain along which a processor was filled, in the direction in which tasks move.
fn reversed_filling(reply: &Reply) -> Chain
    ensures { result ≡ reverse (filling_chain reply.now) }
{
    match reply {
        Reply::Freed { chain, .. } => chain.reversed(),
        Reply::Remasked {
            gone: Some(gone),
            ..
        } => gone.chain.reversed(),
        Reply::On { parts } => parts.chain.reversed(),
        _ => Chain::new(),
    }
}

/// The guest of a first chain; nobody, where a second chain ends on the processor on which the guest would start.
fn guest_who_stays(guest: Option<u32>, one: &[u8], two: &[u8]) -> Option<u32>
    ensures { result ≡ guest_who_stays guest one.now two.now }
{
    if one.is_empty() || two.is_empty() || one[0] != two[two.len() - 1] {
        return guest;
    }
    None
}

/// The task that had to leave a processor that went off line.
fn moved_by(reply: &Reply) -> Option<&Moved>
    ensures { option_copied result ≡ moved_of reply.now }
{
    match reply {
        Reply::Off { moved } => moved.as_ref(),
        _ => None,
    }
}

/// Who is on each processor of a table.
fn copy_occupants(occupants: &mut [Option<u32>], links: &Links)
    requires { length occupants.old ≡ links.now.processors }
    ensures { occupants.new ≡ links.now.on }
{
    for p in 0..links.processors() {
        occupants[p as usize] = links.on(p);
    }
}
