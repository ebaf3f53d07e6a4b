//! What tests say: that two values are the same.
//!
//! It is proved here once. A test that wrote `assert_eq!` in its place would prove for each of its facts how two values are
//! printed, which takes most of its time.
use std::fmt::Debug;
use std::process::Abort;

/// The two values are the same.
pub(crate) fn same<T: PartialEq + Debug + Drop>(rt: &impl Abort, left: T, right: T) {
    assert!(rt; left == right, "{left:?} is not {right:?}");
}
