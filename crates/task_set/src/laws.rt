//! Laws of orders, of the stints in them, and of the contexts that tasks carry: each is the contract of a function
//! that does nothing.

ghost use Rattle.task_set.specs.Laws.{PrefixIsObeyable, OneMoreIsObeyable, NextMayCome, StopEndsOrders, StintsOfMoreOrders, StintsReadBack, StintsOfTaskAscend, LatestStintCarried, OtherTasksCarried, CarriedIsOfItsTask};

/// Each prefix of an obeyable list is obeyable.
pub fn prefix_of_obeyable()
    ensures { PrefixIsObeyable }
{}

/// An order that may come after an obeyable list without `Stop` makes a longer obeyable list.
pub fn one_more_order()
    ensures { OneMoreIsObeyable }
{}

/// An order that follows others in an obeyable list may come after them.
pub fn next_order_may_come()
    ensures { NextMayCome }
{}

/// Nothing follows `Stop` in an obeyable list.
pub fn nothing_follows_stop()
    ensures { StopEndsOrders }
{}

/// The stints of orders and of more orders are those of the first, then those that end in the others.
pub fn stints_of_more_orders_are_appended()
    ensures { StintsOfMoreOrders }
{}

/// The orders of stints have just these stints.
pub fn stints_are_read_back()
    ensures { StintsReadBack }
{}

/// The stints of a task are all of them, in ascending order of their numbers.
pub fn stints_of_a_task_ascend()
    ensures { StintsOfTaskAscend }
{}

/// The latest stint of a task comes last into its context, wherever it stands in the list of stints.
pub fn latest_stint_is_carried_last()
    ensures { LatestStintCarried }
{}

/// A stint changes the context of no other task.
pub fn other_tasks_carry_on()
    ensures { OtherTasksCarried }
{}

/// A context that a task carried is of that task, and its last processor is one of those that its stints ran on.
pub fn carried_context_is_of_its_task()
    ensures { CarriedIsOfItsTask }
{}
