//! What holds of replies that pass, whoever gave them. Each law is the contract of a function that does nothing: a
//! caller in a proof gets the law by its clause.
ghost use Rattle.strong_apa.specs.PassingLaws.{PassingKeepsState, PassingKeepsCertificates, PassingHasJustification, PassingStaysOutside, StepPasses};

/// After a reply that passes, the links are a placement of ready tasks again.
pub fn passing_keeps_state()
    ensures { PassingKeepsState }
{}

/// Where each waiting task has a certificate, each has one after a reply that passes. This is the exchange argument: a
/// set that a shift enters stays full, and the set of the reply certifies whoever begins to wait.
pub fn passing_keeps_certificates()
    ensures { PassingKeepsCertificates }
{}

/// What the set of a reply that passes shows of the state after it.
pub fn passing_has_justification()
    ensures { PassingHasJustification }
{}

/// Of a reply that passes, whoever gave it: each processor that the event and the reply do not name keeps its occupant.
pub fn passing_stays_outside()
    ensures { PassingStaysOutside }
{}

/// Each step of the scheduler has a reply that passes.
pub fn step_passes()
    ensures { StepPasses }
{}
