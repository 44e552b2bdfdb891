//! What holds of the texts of each machine. Each law is the contract of a function that does nothing.
ghost use Rattle.text_fields.specs.Lines.{lines_of};
ghost use Rattle.text_fields.specs.LineRule.{IsLineOutcome};
ghost use Rattle.text_fields.specs.Machine.{IsMachine};
ghost use Rattle.text_fields.specs.Laws.{HasOneValue, HasOneFault, NeverBoth, AlwaysOne, BeforeIsFine, FirstFaultDecides, RefusedAlike, EndsValid};

use crate::machine::LineMachine;

/// A text is that of at most one value.
pub fn text_has_one_value<M: LineMachine>()
    requires { IsMachine M.begins M.IsValid M.Says M.Ends }
    ensures { HasOneValue lines_of M.begins
        (IsLineOutcome M.LONGEST_LINE M.HAS_COMMENTS M.kind_of M.Says) M.Ends }
{}

/// A text is refused with at most one line and one kind.
pub fn text_has_one_fault<M: LineMachine>()
    requires { IsMachine M.begins M.IsValid M.Says M.Ends }
    ensures { HasOneFault lines_of M.begins
        (IsLineOutcome M.LONGEST_LINE M.HAS_COMMENTS M.kind_of M.Says) M.Ends }
{}

/// No text is both that of a value and refused.
pub fn value_has_no_fault<M: LineMachine>()
    requires { IsMachine M.begins M.IsValid M.Says M.Ends }
    ensures { NeverBoth lines_of M.begins
        (IsLineOutcome M.LONGEST_LINE M.HAS_COMMENTS M.kind_of M.Says) M.Ends }
{}

/// Each text is that of a value, or is refused.
pub fn accepted_or_refused<M: LineMachine>()
    requires { IsMachine M.begins M.IsValid M.Says M.Ends }
    ensures { AlwaysOne lines_of M.begins
        (IsLineOutcome M.LONGEST_LINE M.HAS_COMMENTS M.kind_of M.Says) M.Ends }
{}

/// The lines before a faulty line are without fault.
pub fn before_is_fine<M: LineMachine>()
    requires { IsMachine M.begins M.IsValid M.Says M.Ends }
    ensures { BeforeIsFine lines_of M.begins
        (IsLineOutcome M.LONGEST_LINE M.HAS_COMMENTS M.kind_of M.Says) M.Ends }
{}

/// A text is refused at its first faulty line.
pub fn first_fault_decides<M: LineMachine>()
    requires { IsMachine M.begins M.IsValid M.Says M.Ends }
    ensures { FirstFaultDecides lines_of M.begins
        (IsLineOutcome M.LONGEST_LINE M.HAS_COMMENTS M.kind_of M.Says) M.Ends }
{}

/// A text that is refused at a line is refused alike, whatever follows this line.
pub fn refused_alike<M: LineMachine>()
    requires { IsMachine M.begins M.IsValid M.Says M.Ends }
    ensures { RefusedAlike lines_of M.begins
        (IsLineOutcome M.LONGEST_LINE M.HAS_COMMENTS M.kind_of M.Says) M.Ends }
{}

/// What is expected at the end of a text of a value is valid.
pub fn text_ends_valid<M: LineMachine>()
    requires { IsMachine M.begins M.IsValid M.Says M.Ends }
    ensures { EndsValid lines_of M.begins M.IsValid
        (IsLineOutcome M.LONGEST_LINE M.HAS_COMMENTS M.kind_of M.Says) M.Ends }
{}
