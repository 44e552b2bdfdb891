//! What holds of every answer about passages. Each law is the contract of a function that does nothing: a caller in a proof gets
//! the law by its clause.
ghost use Rattle.trace_losses.specs.Laws.{LossesAreUnique, JumpsAreUnique, ChainsAreUnique};

/// What the tasks of a trace lost follows from its passages.
pub fn losses_are_unique()
    ensures { LossesAreUnique }
{}

/// So does how many switches are from another thread than the one that came last.
pub fn jumps_are_unique()
    ensures { JumpsAreUnique }
{}

/// And so does the chain that would have given a task a processor at a moment.
pub fn chains_are_unique()
    ensures { ChainsAreUnique }
{}
