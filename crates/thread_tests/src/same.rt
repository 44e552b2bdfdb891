//! Comparisons that end a test. Each is proved once, and not at each place where a test compares.
use std::fmt::Debug;
use std::process::Abort;

/// The two are equal.
pub(crate) fn same<T: PartialEq + Debug + Drop>(rt: &impl Abort, found: T, wanted: T) {
    assert_eq!(rt; found, wanted);
}

/// The two are equal at this row of a table.
pub(crate) fn same_at<T: PartialEq + Debug + Drop, P: Debug>(
    rt: &impl Abort,
    found: T,
    wanted: T,
    row: &P,
) {
    assert_eq!(rt; found, wanted, "at {row:?}");
}
