//! What holds of all masks that nest, and of every run by counts, whatever program makes it. Each law is the contract of a
//! function that does nothing: a caller in a proof gets the law by its clause.
ghost use Rattle.nested_masks.specs.Laws.{PlaceableByCounts, NestedTextIsUnique};

/// A set of tasks is placeable exactly where no node holds more of its tasks than it has processors.
pub fn placeable_by_counts()
    ensures { PlaceableByCounts }
{}

/// The events of a set whose masks nest have one text. So what a program writes of an input follows from the input alone.
pub fn nested_text_is_unique()
    ensures { NestedTextIsUnique }
{}
