//! What tests say: that two values are the same in a row of a table.
//!
//! It is proved here once. A test that wrote `assert_eq!` in its place would prove for each of its facts how two values are printed,
//! which takes most of its time.
use std::fmt::Debug;
use std::process::Abort;

/// The two values are the same in this row of a table.
pub(crate) fn same_in<R: Debug, T: PartialEq + Debug + Drop>(
    rt: &impl Abort,
    row: &R,
    left: T,
    right: T,
) {
    assert!(rt; left == right, "{row:?}: {left:?} is not {right:?}");
}
