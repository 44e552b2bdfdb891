//! What holds of the texts of schedules, whatever program reads them. Each law is the contract of a function that does
//! nothing: a caller in a proof gets the law by its clause.
ghost use Rattle.schedule_text.specs.Laws.{TextHasOneSchedule, TextHasOneFault, ScheduleHasNoFault, AcceptedOrRefused, LineIsItsFields};

/// Two schedules with one text are equal.
pub fn text_has_one_schedule()
    ensures { TextHasOneSchedule }
{}

/// A text is refused with at most one line and one kind.
pub fn text_has_one_fault()
    ensures { TextHasOneFault }
{}

/// The text of no schedule is refused.
pub fn schedule_has_no_fault()
    ensures { ScheduleHasNoFault }
{}

/// Each text is that of a schedule, or is refused.
pub fn accepted_or_refused()
    ensures { AcceptedOrRefused }
{}

/// A line is its fields with one space between them.
pub fn line_is_its_fields()
    ensures { LineIsItsFields }
{}
