//! What holds of every scheduler's step, whatever program takes it. Each law is the contract of a function that does
//! nothing: a caller in a proof gets the law by its clause.
ghost use Rattle.strong_apa.specs.Laws.{StepIsUnique, ReplyGivesNewState, ReplyKeepsTasks, ReplyKeepsMasks, StepKeepsState, LeastChainToIdle, LeastChainToTask, LeastBackChain, BestIsUnique};

/// One state and one event have at most one reply and one new state: the least chains are unique, priorities differ,
/// and two sets with the same processors are one.
pub fn step_is_unique()
    ensures { StepIsUnique }
{}

/// What a step changes follows from its event and reply, so a history needs no more than those.
pub fn reply_gives_new_state()
    ensures { ReplyGivesNewState }
{}

/// No reply, whoever gave it, changes how many processors there are, or the tasks and their priorities.
pub fn reply_keeps_tasks()
    ensures { ReplyKeepsTasks }
{}

/// No reply to an arrival, a departure or a tick changes the masks, nor which processors are on line.
pub fn reply_keeps_masks()
    ensures { ReplyKeepsMasks }
{}

/// A step leads from a state to a state: its links are a placement of ready tasks again.
pub fn step_keeps_state()
    ensures { StepKeepsState }
{}

/// Of the chains of a task to idle processors, where there are any, one is the least. It visits no processor twice,
/// and so a `Chain` holds it. The same goes for chains to the processor of a task, and for back chains by which a
/// waiting task can enter.
pub fn least_chains_are_short()
    ensures to_idle { LeastChainToIdle }
    ensures to_task { LeastChainToTask }
    ensures back { LeastBackChain }
{}

/// A set of tasks has at most one best subset.
pub fn best_is_unique()
    ensures { BestIsUnique }
{}
