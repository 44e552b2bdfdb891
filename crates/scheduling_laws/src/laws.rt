//! Theorems of strong APA scheduling. Each law is the contract of a function that does nothing: a caller in a proof gets
//! the law by its clause.
ghost use Rattle.scheduling_laws.specs.Faces.{BestIsCertified, CertifiedIsWithoutChain, CertifiedIsByReach};
ghost use Rattle.scheduling_laws.specs.FewestMoves.{StepMovesFewest, LegalMovesFewest};
ghost use Rattle.scheduling_laws.specs.Going.{OrdersCanGoOnFrom, OrdersCanGoOn, OrdersCanBeEndedFrom, OrdersCanBeEnded};
ghost use Rattle.scheduling_laws.specs.Hall.{PlaceableIsUncrowded, PlaceableOrCrowded};
ghost use Rattle.scheduling_laws.specs.InReach.{LegalConservesWork, PassingConservesWork, LegalHasNoInversion, PassingHasNoInversion};
ghost use Rattle.scheduling_laws.specs.Isolation.{UrgentServiceIsIsolated, UrgentFinishIsIsolated};
ghost use Rattle.scheduling_laws.specs.Merges.{MergesHaveOneEnd};
ghost use Rattle.scheduling_laws.specs.Migrations.{MigrationsAreFew};
ghost use Rattle.scheduling_laws.specs.MoreProcessors.{MoreProcessorsKeepUp, MoreProcessorsFinishNoLater};
ghost use Rattle.scheduling_laws.specs.OneEnd.{SameEventsHaveOneEnd, CallersGiveSameEvents};
ghost use Rattle.scheduling_laws.specs.Response.{WaitingIsInterference, LittleInterferenceIsInTime, SmallDemandIsInTime};
ghost use Rattle.scheduling_laws.specs.Response.{WeakWaitingIsInterference, WeakLittleInterferenceIsInTime, WeakSmallDemandIsInTime};
ghost use Rattle.scheduling_laws.specs.ShiftCounts.{PassingShiftsFew, LegalShiftsFew};
ghost use Rattle.scheduling_laws.specs.Staying.{BestStays};
ghost use Rattle.scheduling_laws.specs.Sustained.{ShorterJobsKeepUp, ShorterJobsFinishNoLater};
ghost use Rattle.scheduling_laws.specs.TopTwo.{TopTwoGetNoLess, TopTwoFinishNoLater};
ghost use Rattle.scheduling_laws.specs.Urgency.{BestRestricts};
ghost use Rattle.scheduling_laws.specs.UrgentWork.{LinkedDoesMostWork};
ghost use Rattle.scheduling_laws.specs.Weights.{BestWeighsMost, LegalWeighsMost, PassingWeighsMost};
ghost use Rattle.scheduling_laws.specs.WiderMasks.{WiderMaskKeepsUp, WiderMaskFinishesNoLater};

// ---- the best set

/// Four ways to say that the right tasks are linked come to the same, in every state.
pub fn best_has_four_faces()
    ensures best { BestIsCertified }
    ensures chains { CertifiedIsWithoutChain }
    ensures reaches { CertifiedIsByReach }
{}

/// Less urgent tasks never interfere: the urgent part of the best subset of a set is the best subset of its urgent part.
pub fn best_restricts()
    ensures { BestRestricts }
{}

/// Where fewer tasks are ready, whoever was chosen and still is ready is chosen still.
pub fn best_stays()
    ensures { BestStays }
{}

/// Hall's theorem for masks: a set of tasks is placeable exactly where no more of them are confined to any set of processors than it has
/// members. Where a set is not placeable, such a set of processors is the reason.
pub fn placeable_is_uncrowded()
    ensures hall { PlaceableIsUncrowded }
    ensures reason { PlaceableOrCrowded }
{}

// ---- after every entry of a history

/// Work is conserved: no processor idles that a waiting task reaches.
pub fn no_processor_idles()
    ensures legal { LegalConservesWork }
    ensures passing { PassingConservesWork }
{}

/// No priority is inverted within reach: whoever runs on a processor that a waiting task reaches is more urgent.
pub fn no_priority_inversion()
    ensures legal { LegalHasNoInversion }
    ensures passing { PassingHasNoInversion }
{}

/// Whoever chooses other placeable tasks to run at the same events does no more of the most urgent work, over all ticks and
/// up to any priority.
pub fn most_urgent_work_is_done()
    ensures { LinkedDoesMostWork }
{}

/// The linked tasks are an assignment of maximum weight, for all weights at once that fall with urgency.
pub fn linked_weighs_most()
    ensures best { BestWeighsMost }
    ensures legal { LegalWeighsMost }
    ensures passing { PassingWeighsMost }
{}

/// On m processors at most m - 1 running tasks are shifted at an event, and at most twice as many at a change of a mask.
pub fn few_tasks_are_shifted()
    ensures legal { LegalShiftsFew }
    ensures passing { PassingShiftsFew }
{}

/// No running task is moved in vain: after an arrival or a departure, or where a processor goes off line or comes on line, no placement
/// of the tasks that run then moves fewer of those that ran before. At a change of a mask it may: the task leaves and comes back.
pub fn fewest_tasks_are_moved()
    ensures step { StepMovesFewest }
    ensures legal { LegalMovesFewest }
{}

/// A task migrates at most once at each event of another task, change of a mask or event of a processor while it is ready: never as time
/// passes.
pub fn migrations_are_few()
    ensures { MigrationsAreFew }
{}

// ---- jobs

/// Whoever runs the jobs of an input serves each task as if there were no less urgent ones: inputs that agree on all
/// tasks up to a priority give each of these the same service at every moment, and finish its jobs at the same moments.
pub fn urgent_tasks_are_isolated()
    ensures service { UrgentServiceIsIsolated }
    ensures finish { UrgentFinishIsIsolated }
{}

/// Where less is asked, nothing is finished later. Where each task of an input up to a priority is one of another input and
/// asks for no more than there, be it that jobs are shorter or that tasks are missing, each has as many jobs done before every
/// moment, and finishes each no later.
pub fn shorter_jobs_finish_no_later()
    ensures done { ShorterJobsKeepUp }
    ensures finish { ShorterJobsFinishNoLater }
{}

/// With more processors nothing is finished later, and with fewer nothing earlier. Where another input has the same processors and more,
/// which its masks may have too, each task up to a priority has as many jobs done before every moment, and finishes each no later.
pub fn more_processors_finish_no_later()
    ensures done { MoreProcessorsKeepUp }
    ensures finish { MoreProcessorsFinishNoLater }
{}

/// A wider mask hurts neither its task nor more urgent ones: where the mask of one task has more processors in another input, this task and
/// each more urgent one have as many jobs done before every moment there, and finish each no later.
pub fn wider_mask_finishes_no_later()
    ensures done { WiderMaskKeepsUp }
    ensures finish { WiderMaskFinishesNoLater }
{}

/// The most urgent two tasks never do worse under the strong scheduler than under the weak one: before each moment each got no less, and no
/// job of theirs is finished later. From the third task on this is false.
pub fn top_two_finish_no_later()
    ensures service { TopTwoGetNoLess }
    ensures finish { TopTwoFinishNoLater }
{}

/// A task that waits has each processor of its mask busy with more urgent tasks. So where those get, or ask for, less in a window than
/// its processors can give beside what is left of a job, the job is finished by the end of the window: a response-time test.
pub fn little_interference_is_in_time()
    ensures waiting { WaitingIsInterference }
    ensures service { LittleInterferenceIsInTime }
    ensures demand { SmallDemandIsInTime }
    ensures weak_waiting { WeakWaitingIsInterference }
    ensures weak_service { WeakLittleInterferenceIsInTime }
    ensures weak_demand { WeakSmallDemandIsInTime }
{}

// ---- between threads

/// Processors that obey the orders of a legal history never wait in a circle: as long as one has orders left, one of them can
/// obey its next order. So it is before the close and with it.
pub fn orders_can_go_on()
    ensures from_start { OrdersCanGoOnFrom }
    ensures of_set { OrdersCanGoOn }
{}

/// Whatever the processors have obeyed so far, they can go on until each has obeyed all its orders.
pub fn orders_can_be_ended()
    ensures from_start { OrdersCanBeEndedFrom }
    ensures of_set { OrdersCanBeEnded }
{}

/// Where all events of a task are on one stream, and all of a processor, every legal merge of the streams ends with the same
/// tasks ready and linked. It is enough that those of each task come in their order, and those of each processor.
pub fn merges_have_one_end()
    ensures merges { MergesHaveOneEnd }
    ensures histories { SameEventsHaveOneEnd }
    ensures callers { CallersGiveSameEvents }
{}
