//! Who runs between the passages of a trace: back over them once, and a trail to go on over them again.
ghost use Rattle.std.specs.Prelude.{◌≡◌, ℕ, ◌≤◌, ◌<◌, ◌^◌, List, ◌∷◌, length, reverse, vec_len, IfOk};
ghost use Rattle.trace_losses.specs.Passages.{turns_of};
ghost use Rattle.trace_losses.specs.Runs.{IsWhereabouts, IsArmed, RunApart};
ghost use Rattle.trace_losses.specs.Walk.{AreFormers, AreTurns, IsTrail, held_at_end};

use crate::former::Former;
use crate::runners::Runners;
use std::alloc::{AllocError, Global};
use trace_passages::Passage;

/// Who is where before all passages, and what one needs to go on from each to the next one, that of the first passage last.
#[derive(Drop)]
pub struct Trail {
    pub first: Runners,
    pub formers: Vec<Former>,
}

/// The trail of passages.
pub fn trail_of(alloc: Global, threads: u32, passages: &[Passage]) -> Result<Trail, AllocError>
    requires { AreTurns threads passages.now }
    ensures { IfOk result (λ trail.
        IsTrail passages.now threads trail.first.processors.items trail.formers.items) }
{
    let mut first = held_after(alloc, threads as usize, passages)?;
    let formers = go_back(alloc, &mut first, passages)?;
    Ok(Trail { first, formers })
}

/// Who holds a processor after all passages.
pub(crate) fn held_after(
    alloc: Global,
    threads: usize,
    passages: &[Passage],
) -> Result<Runners, AllocError>
    requires { AreTurns threads passages.now }
    ensures held { IfOk result (λ runners.
        IsWhereabouts (turns_of (reverse passages.now)) runners.processors.items) }
    ensures apart { IfOk result (λ runners. RunApart runners.processors.items) }
    ensures threads { IfOk result (λ runners. vec_len runners.processors ≡ threads) }
{
    let mut runners = Runners::new(alloc, threads)?;
    for i in 0..passages.len() {
        runners.pass(passages[i]);
    }
    Ok(runners)
}

/// Goes back over all passages, from who runs after them to who runs before them.
fn go_back(
    alloc: Global,
    runners: &mut Runners,
    passages: &[Passage],
) -> Result<Vec<Former>, AllocError>
    requires passages { AreTurns (vec_len runners.old.processors) passages.now }
    requires held { IsWhereabouts (turns_of (reverse passages.now)) runners.old.processors.items }
    requires apart { RunApart runners.old.processors.items }
    requires few { vec_len runners.old.processors ≤ 2 ^ 32 }
    ensures { IfOk result (λ formers. IsTrail passages.now (vec_len runners.old.processors)
        runners.new.processors.items formers.items) }
{
    let mut formers = Vec::with_capacity(alloc, passages.len())?;
    for i in 0..passages.len() {
        formers.push(runners.trace_back(passages[passages.len() - 1 - i]))?;
    }
    Ok(formers)
}
