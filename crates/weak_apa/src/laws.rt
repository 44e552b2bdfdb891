//! What holds of every step of the weak scheduler, whatever program takes it, and of every comparison, whatever program writes
//! it. Each law is the contract of a function that does nothing: a caller in a proof gets the law by its clause.
ghost use Rattle.weak_apa.specs.Laws.{EventsHaveOneText};
ghost use Rattle.weak_apa.specs.StepLaws.{WeakStepIsUnique, WeakStepKeepsState};

/// The weak scheduler has no choice: one state and one event have at most one new state.
pub fn weak_step_is_unique()
    ensures { WeakStepIsUnique }
{}

/// After a step the links are a placement of ready tasks again.
pub fn weak_step_keeps_state()
    ensures { WeakStepKeepsState }
{}

/// The events of a set have one text. So what a program writes of an input follows from the input alone.
pub fn events_have_one_text()
    ensures { EventsHaveOneText }
{}
