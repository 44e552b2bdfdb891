//! What holds of replies and of their defects, of each state whose waiting tasks all have a certificate, and of each history
//! whose replies pass, whatever program judges them. Each law is the contract of a function that does nothing: a caller in a
//! proof gets the law by its clause.
ghost use Rattle.strong_apa.specs.Improving.{HasNoImprovingChain};
ghost use Rattle.strong_apa.specs.CertificateLaws.{HoldsWhereCertified, LinkedIsBest, LinkedIsOnlyBest, LinkedIsLargest, LinkedKeepsUp, LinkedIsAsUrgent};
ghost use Rattle.reach_certificate.specs.Best.{BestExists};
ghost use Rattle.reach_certificate.specs.DefectLaws.{PassesOrHasDefect, PassingHasNoDefect, DefectIsUnique, ContextsFollow};
ghost use Rattle.reach_certificate.specs.Histories.{PassingHistoryHasCertificates, PassingHistoryIsBest, PassingHistoryHasNoImprovingChain};

/// Each reply to an event of a task passes or has a defect.
pub fn passes_or_has_defect()
    ensures { PassesOrHasDefect }
{}

/// No reply both passes and has a defect.
pub fn passing_has_no_defect()
    ensures { PassingHasNoDefect }
{}

/// A reply has one defect at most.
pub fn defect_is_unique()
    ensures { DefectIsUnique }
{}

/// Where contexts are those of a history, and each follows one more entry, they are those of the history with this
/// entry.
pub fn contexts_follow()
    ensures { ContextsFollow }
{}

/// Every set of tasks of a state, whatever its masks and the processors on line, has a best placeable subset. That it has
/// no other is `best_is_unique` of strong_apa.
pub fn best_exists()
    ensures { BestExists }
{}

/// The linked tasks are the best placeable set of the ready tasks, and the only best one.
pub fn certified_is_best()
    ensures best { HoldsWhereCertified LinkedIsBest }
    ensures only { HoldsWhereCertified LinkedIsOnlyBest }
{}

/// No placeable set of ready tasks has more tasks than are linked, in all or up to any priority, and its k-th most
/// urgent task is never more urgent than the k-th most urgent linked one.
pub fn certified_is_most_urgent()
    ensures largest { HoldsWhereCertified LinkedIsLargest }
    ensures keeps_up { HoldsWhereCertified LinkedKeepsUp }
    ensures rank_by_rank { HoldsWhereCertified LinkedIsAsUrgent }
{}

/// No waiting task could be shifted to an idle processor, or onto the processor of a less urgent task.
pub fn certified_has_no_improving_chain()
    ensures { HoldsWhereCertified HasNoImprovingChain }
{}

/// After every entry of a history whose replies pass, whoever gave them, each waiting task has a certificate. So it can
/// be shown of every waiting task why it waits.
pub fn passing_history_has_certificates()
    ensures { PassingHistoryHasCertificates }
{}

/// After every entry of such a history, whatever its events, the linked tasks are the best placeable set of the ready
/// tasks, over the masks of that moment and the processors that are on line then.
pub fn passing_history_is_best()
    ensures { PassingHistoryIsBest }
{}

/// After every entry of such a history no task waits that could be shifted to an idle processor, or onto the processor
/// of a less urgent task.
pub fn passing_history_has_no_improving_chain()
    ensures { PassingHistoryHasNoImprovingChain }
{}
