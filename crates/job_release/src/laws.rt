//! What holds of the texts of jobs, whatever program reads them, and of every scheduler that serves the jobs of an input,
//! whatever program it is. Each law is the contract of a function that does nothing: a caller in a proof gets the law by its
//! clause.
ghost use Rattle.job_release.specs.Laws.{FinishFollowsRelease, FinishedJobsRanTheirCosts, NextJobRanItsCost, InputHasOneService, InputHasOneText, InputHasOneTimeline, InputHasOneWeakTimeline, WeakJobsTextIsUnique};
ghost use Rattle.job_release.specs.PeriodicLaws.{PeriodicDemand, PeriodicGoals, PeriodicDueTimes};
ghost use Rattle.job_release.specs.TextLaws.{TextHasOneInput, TextHasOneFault, InputHasNoFault, AcceptedOrRefused, TextIsOfValidInput};

use crate::stage::Stage;
use text_fields::laws;

/// A text is that of at most one input.
#[tactic(auto, using(crate::proofs::Decided::job_machine))]
pub fn text_has_one_input()
    ensures { TextHasOneInput }
{
    laws::text_has_one_value::<Stage>()
}

/// A text is refused with at most one line and one kind.
#[tactic(auto, using(crate::proofs::Decided::job_machine))]
pub fn text_has_one_fault()
    ensures { TextHasOneFault }
{
    laws::text_has_one_fault::<Stage>()
}

/// No text is both that of an input and refused.
#[tactic(auto, using(crate::proofs::Decided::job_machine))]
pub fn input_has_no_fault()
    ensures { InputHasNoFault }
{
    laws::value_has_no_fault::<Stage>()
}

/// Each text is that of an input, or is refused.
#[tactic(auto, using(crate::proofs::Decided::job_machine))]
pub fn accepted_or_refused()
    ensures { AcceptedOrRefused }
{
    laws::accepted_or_refused::<Stage>()
}

/// Of the input of a text holds what holds of each input.
pub fn text_is_of_valid_input()
    ensures { TextIsOfValidInput }
{}

/// The jobs of a periodic task ask for what its offset, its period and its cost say: at each moment below the horizon for the
/// cost of each job that is released by then. Job k is finished after the cost of k + 1 jobs, and is due when the next one is
/// released.
pub fn periodic_jobs_follow_their_times()
    ensures demand { PeriodicDemand }
    ensures goals { PeriodicGoals }
    ensures due { PeriodicDueTimes }
{}

/// A job is finished no earlier than its cost after its release, under whatever scheduler. So what a text says of its response is the plain
/// difference of its finish and its release.
pub fn finish_follows_release()
    ensures { FinishFollowsRelease }
{}

/// A job that is finished ran for exactly its units: at its finish its task got what this job and those before it ask for, and
/// from there to the finish of the next job what that one asks for.
pub fn finished_job_ran_its_cost()
    ensures total { FinishedJobsRanTheirCosts }
    ensures next { NextJobRanItsCost }
{}

/// Histories that run the jobs of one input give each task the same service, at every moment up to the horizon, and have
/// one text.
pub fn input_has_one_text()
    ensures service { InputHasOneService }
    ensures text { InputHasOneText }
{}

/// Histories that run the jobs of one input, with the events that these ask for, have the same state at every moment.
pub fn input_has_one_timeline()
    ensures { InputHasOneTimeline }
{}

/// The weak scheduler has no choice either: with the jobs of one input it has one state at every moment, and the comparison with the
/// strong scheduler is one text.
pub fn weak_jobs_text_is_unique()
    ensures timeline { InputHasOneWeakTimeline }
    ensures text { WeakJobsTextIsUnique }
{}
