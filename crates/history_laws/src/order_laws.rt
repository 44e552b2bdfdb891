//! What holds of the orders that a legal history gives to each processor, and of the stints in them. Each law is the
//! contract of a function that does nothing: a caller in a proof gets the law by its clause.
ghost use Rattle.history_laws.specs.OrderLaws.{OrdersAreObeyableFrom, OrdersAreObeyable, OrdersAreFewFrom, OrdersAreFew, OrdersNameTasksFrom, OrdersNameTasks, TakeNumbersAreSmallFrom, TakeNumbersAreSmall, OrdersOnlyGrow};
ghost use Rattle.history_laws.specs.PartLaws.{NobodyIsReadyAtStart, StartIsState, LegalHistoryKeepsState, StateAfterParts, IsLegalInParts, PrefixIsLegal};
ghost use Rattle.history_laws.specs.SentLaws.{CloseAddsOrders, NoStopBeforeClose, StopComesAtClose, StopIsLastSent, SentIsObeyable, NextSentMayCome};
ghost use Rattle.history_laws.specs.StintLaw.{StintsGiveContextFrom, StintsGiveContext, StintsAreTakesFrom, StintsAreTakes};

/// Each processor can obey its orders, before the close and after it. Before it, a processor holds its occupant. So it
/// is from every state in which nobody is ready.
pub fn orders_are_obeyable()
    ensures from_start { OrdersAreObeyableFrom }
    ensures of_set { OrdersAreObeyable }
{}

/// A processor gets at most two orders for each event, and at most two more at the close.
pub fn orders_are_few()
    ensures from_start { OrdersAreFewFrom }
    ensures of_set { OrdersAreFew }
{}

/// Each order that names a task names one of the set.
pub fn orders_name_tasks()
    ensures from_start { OrdersNameTasksFrom }
    ensures of_set { OrdersNameTasks }
{}

/// The number of each take is less than the number of events.
pub fn take_numbers_are_small()
    ensures from_start { TakeNumbersAreSmallFrom }
    ensures of_set { TakeNumbersAreSmall }
{}

/// A processor's orders only grow: what was sent of them stays right, whatever entries follow.
pub fn orders_only_grow()
    ensures { OrdersOnlyGrow }
{}

/// The orders before the close begin those of the closed history. `Stop` is not among them, and is among the others.
pub fn stop_comes_at_close()
    ensures adds { CloseAddsOrders }
    ensures not_before { NoStopBeforeClose }
    ensures at_close { StopComesAtClose }
{}

/// A processor that got `Stop` got all the orders of the closed history.
pub fn stop_is_last()
    ensures { StopIsLastSent }
{}

/// What was sent to a processor can be obeyed, and the next order may come after it.
pub fn sent_orders_are_obeyable()
    ensures sent { SentIsObeyable }
    ensures next { NextSentMayCome }
{}

/// The start of a set is a state in which nobody is ready.
pub fn starts_are_states()
    ensures state { StartIsState }
    ensures nobody { NobodyIsReadyAtStart }
{}

/// A legal history leads from a state to a state.
pub fn legal_history_keeps_state()
    ensures { LegalHistoryKeepsState }
{}

/// What a history in two parts does is what its first part does, and then its second part. It is legal where both are,
/// and so each prefix of a legal history is.
pub fn histories_have_parts()
    ensures state { StateAfterParts }
    ensures legal { IsLegalInParts }
    ensures prefix { PrefixIsLegal }
{}

/// The context that a task carries through the stints that its history ordered, on whatever processors, in the order
/// of their numbers, is the one that the history gives it.
pub fn stints_give_context()
    ensures from_start { StintsGiveContextFrom }
    ensures of_set { StintsGiveContext }
{}

/// The stints of a task, in the order of their numbers, are numbered from 0 on, and stand on the processors on which the
/// history takes the task, in the order in which it does.
pub fn stints_are_takes()
    ensures from_start { StintsAreTakesFrom }
    ensures of_set { StintsAreTakes }
{}
