//! Copies of entries, for a caller that reads the history itself.
ghost use Rattle.std.specs.Prelude.{◌≡◌, ◌≤◌, ◌++◌, length, drop, MatchBool, MatchResult};
ghost use Rattle.sched_core.specs.CoreData.{max_entries};
ghost use Rattle.event_history.specs.Boards.{Grown};
ghost use Rattle.event_history.specs.Posting.{SawAll, TookTurn};
ghost use Rattle.event_history.specs.Copying.{HadTurn};
ghost use Rattle.event_history.specs.PassStates.{IsOfTurn, Agrees, data_at};
ghost use Rattle.event_history.specs.Turn.{IsFree, setting_of};

use super::Board;
use crate::pass::Pass;
use crate::pass_state::PassState;
use crate::turn::{Over, Turn, begin, leave};
use affinity_mask::OutOfMemory;
use link_table::Entry;
use std::marker::Brand;
use std::sync::Wait;
use std::thread;

impl Board {
    /// Adds copies of the entries from a place on to a list, by as many tries as it takes to find the turn free. Where
    /// memory runs out the list stays as it was.
    pub fn history_from<R: Wait>(
        &self,
        rt: &R,
        pass: &mut Pass,
        from: u64,
        into: &mut Vec<Entry>,
    ) -> Result<(), OutOfMemory>
        requires board { pass.old.board ≡ self.now.id }
        requires from { from ≤ length pass.old.seen }
        ensures grown { Grown pass.old pass.new }
        ensures seen { SawAll self.now.set pass.old pass.new }
        ensures few { length pass.new.seen ≤ max_entries }
        ensures turn { TookTurn pass.old pass.new (length pass.new.seen) }
        ensures eyes { pass.new.eyes ≡ pass.old.eyes }
        ensures copied { MatchResult result
            (λ _. into.new.items ≡ into.old.items ++ drop from pass.new.seen)
            (λ _. into.new.items ≡ into.old.items) }
    {
        for _ in rt.forever() {
            if self.try_history_from(pass, from, into)? {
                return Ok(());
            }
            thread::yield_now();
        }
        unreachable!()
    }

    /// One try to copy entries, which says whether it found the turn free.
    fn try_history_from(
        &self,
        pass: &mut Pass,
        from: u64,
        into: &mut Vec<Entry>,
    ) -> Result<bool, OutOfMemory>
        requires board { pass.old.board ≡ self.now.id }
        requires from { from ≤ length pass.old.seen }
        ensures grown { Grown pass.old pass.new }
        ensures mine { pass.new.mine ≡ pass.old.mine }
        ensures eyes { pass.new.eyes ≡ pass.old.eyes }
        ensures copied { MatchResult result
            (λ took. MatchBool took
            (HadTurn self.now.set pass.old pass.new
            × (into.new.items ≡ into.old.items ++ drop from pass.new.seen))
            (into.new.items ≡ into.old.items))
            (λ _. HadTurn self.now.set pass.old pass.new × (into.new.items ≡ into.old.items)) }
    {
        history_once::<Brand>(&self.table.shared, &mut pass.state, from, into)
    }
}

/// One try at the turn, to copy entries, which says whether it had the turn.
fn history_once<J: Over>(
    turn: &Turn,
    state: &mut PassState,
    from: u64,
    into: &mut Vec<Entry>,
) -> Result<bool, OutOfMemory>
    requires setting { J.setting ≡ setting_of turn.now.key }
    requires table { IsOfTurn turn.now.table_id state.old }
    requires free { IsFree state.old.seat.me × Agrees state.old }
    requires from { from ≤ length state.old.seat.me.0.seen }
    ensures same { (state.new.seat.table_id ≡ state.old.seat.table_id)
        × (state.new.eyes ≡ state.old.eyes) × Agrees state.new × IsFree state.new.seat.me }
    ensures grown { Grown (data_at turn.now.table_id state.old)
        (data_at turn.now.table_id state.new) }
    ensures mine { state.new.seat.me.0.mine ≡ state.old.seat.me.0.mine }
    ensures copied { MatchResult result
        (λ took. MatchBool took
        (HadTurn turn.now.key.set.value (data_at turn.now.table_id state.old)
        (data_at turn.now.table_id state.new)
        × (into.new.items ≡ into.old.items ++ drop from state.new.seat.me.0.seen))
        (into.new.items ≡ into.old.items))
        (λ _. HadTurn turn.now.key.set.value (data_at turn.now.table_id state.old)
        (data_at turn.now.table_id state.new)
        × (into.new.items ≡ into.old.items)) }
{
    let held = match begin::<J>(turn, state) {
        Ok(held) => held,
        Err(_busy) => return Ok(false),
    };
    let copied = copy_entries(&held.history()[from as usize..], into);
    leave(turn, state, held);
    copied.map(|()| true)
}

/// Adds copies of these entries to a list.
fn copy_entries(entries: &[Entry], into: &mut Vec<Entry>) -> Result<(), OutOfMemory>
    ensures { MatchResult result
        (λ _. into.new.items ≡ into.old.items ++ entries.now)
        (λ _. into.new.items ≡ into.old.items) }
{
    into.reserve(entries.len())?;
    for entry in entries {
        into.push_reserved(entry.copy());
    }
    Ok(())
}
