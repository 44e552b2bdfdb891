//! What holds of every legal history, and of the scheduler's step, whatever program takes it. Each law is the contract of a
//! function that does nothing: a caller in a proof gets the law by its clause.
ghost use Rattle.history_laws.specs.ImprovingLaw.{LegalHistoryHasNoImprovingChainFrom, LegalHistoryHasNoImprovingChain};
ghost use Rattle.history_laws.specs.LegalLaw.{LegalHistoryHasCertificatesFrom, LegalHistoryHasCertificates, LegalHistoryIsBestFrom, LegalHistoryIsBest, LegalHistoryIsMostUrgentFrom, LegalHistoryIsMostUrgent};
ghost use Rattle.history_laws.specs.StepLaws.{StepExists, LegalHistoryExists, LegalHistoryIsUnique};

/// In every state the scheduler has a reply to every event of one of the tasks or processors, and a state to go to.
pub fn step_exists()
    ensures { StepExists }
{}

/// Events of the tasks and processors of a set have just one legal history.
pub fn events_have_one_history()
    ensures exists { LegalHistoryExists }
    ensures unique { LegalHistoryIsUnique }
{}

/// After every entry of a legal history the links are a placement of ready tasks, and each waiting task has a
/// certificate. So whoever follows a legal history can show of every waiting task why it waits.
pub fn legal_history_has_certificates()
    ensures from_start { LegalHistoryHasCertificatesFrom }
    ensures of_set { LegalHistoryHasCertificates }
{}

/// After every entry of a legal history, whatever its events, the linked tasks are the best placeable set of the ready
/// tasks.
pub fn legal_history_is_best()
    ensures from_start { LegalHistoryIsBestFrom }
    ensures of_set { LegalHistoryIsBest }
{}

/// After every entry of a legal history as many tasks are linked as can be, and at each rank a task that is as urgent as
/// can be.
pub fn legal_history_is_most_urgent()
    ensures from_start { LegalHistoryIsMostUrgentFrom }
    ensures of_set { LegalHistoryIsMostUrgent }
{}

/// After every entry of a legal history no task waits that could be shifted to an idle processor, or onto the processor
/// of a less urgent task.
pub fn legal_history_has_no_improving_chain()
    ensures from_start { LegalHistoryHasNoImprovingChainFrom }
    ensures of_set { LegalHistoryHasNoImprovingChain }
{}
