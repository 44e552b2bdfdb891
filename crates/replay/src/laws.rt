//! What holds of each merge of events on streams. Each law is the contract of a function that does nothing: a caller in a
//! proof gets the law by its clause.
ghost use Rattle.replay.specs.MergeLaws.{MergeHasEachEvent, MergeOfOneStreamIsInOrder};

/// A merge of events on the 16 streams has as many entries as there are events.
pub fn merge_has_each_event()
    ensures { MergeHasEachEvent }
{}

/// A merge of events on one stream has them in their order.
pub fn merge_of_one_stream_is_in_order()
    ensures { MergeOfOneStreamIsInOrder }
{}
