//! What holds of the texts of traces, whatever program reads them. Each law is the contract of a function that does nothing: a
//! caller in a proof gets the law by its clause.
ghost use Rattle.kernel_trace.specs.Import.{ReadyAsMentioned, ImportIsFaithful};
ghost use Rattle.kernel_trace.specs.Passages.{PassagesAreFaithful};
ghost use Rattle.kernel_trace.specs.Laws.{TextHasOneInput, TextHasOneFault, InputHasNoFault, AcceptedOrRefused, TextHasOneTrace, TraceTextHasOneFault, TraceHasNoFault, TraceAcceptedOrRefused, UnlistedAreToldApart};

/// A text is that of at most one input.
pub fn text_has_one_input()
    ensures { TextHasOneInput }
{}

/// A text is refused with at most one line and one kind.
pub fn text_has_one_fault()
    ensures { TextHasOneFault }
{}

/// No text is both that of an input and refused.
pub fn input_has_no_fault()
    ensures { InputHasNoFault }
{}

/// Each text is that of an input, or is refused.
pub fn accepted_or_refused()
    ensures { AcceptedOrRefused }
{}

/// After the events of some lines of a trace the ready tasks are those whose last mention is in, and each event changes its
/// task.
pub fn ready_tasks_are_those_mentioned_as_in()
    ensures { ReadyAsMentioned }
{}

/// The input of the text of a trace is the import of that trace.
pub fn import_is_faithful()
    ensures { ImportIsFaithful }
{}

/// What is read of the text of a trace are its passages.
pub fn passages_are_faithful()
    ensures { PassagesAreFaithful }
{}

/// A text is that of at most one trace of tasks.
pub fn text_has_one_trace()
    ensures { TextHasOneTrace }
{}

/// As a trace of tasks a text is refused with at most one line and one kind.
pub fn trace_text_has_one_fault()
    ensures { TraceTextHasOneFault }
{}

/// No text is both that of a trace of tasks and refused.
pub fn trace_has_no_fault()
    ensures { TraceHasNoFault }
{}

/// Each text is that of a trace of tasks, or is refused.
pub fn trace_accepted_or_refused()
    ensures { TraceAcceptedOrRefused }
{}

/// The threads that used lines tell apart are at most 1,024, each once, and all that these lines name so where there are fewer.
pub fn unlisted_are_told_apart()
    ensures { UnlistedAreToldApart }
{}
