//! Laws of the definitions, each on the contract of a function that does nothing.

ghost use Rattle.affinity_mask.specs.Laws.{CanonicalListIsListText, ListTextHasOneSet, ListTextHasOneFault, ListTextHasNoFault, TextIsListOrHasFault};

/// The canonical list of a set of processors that is not empty is a processor list, and stands for that very set.
pub fn canonical_list_is_list_text()
    ensures { CanonicalListIsListText }
{}

/// A text is a processor list of one set at most.
pub fn list_text_has_one_set()
    ensures { ListTextHasOneSet }
{}

/// A text has one fault at most.
pub fn list_text_has_one_fault()
    ensures { ListTextHasOneFault }
{}

/// No text is a processor list and has a fault.
pub fn list_text_has_no_fault()
    ensures { ListTextHasNoFault }
{}

/// Each text is a processor list or has a fault.
pub fn text_is_list_or_has_fault()
    ensures { TextIsListOrHasFault }
{}
