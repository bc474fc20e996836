//! What these tests share: comparisons that stop a test.
use br_model::transcript::Line;
use std::fmt::Debug;
use std::process::Abort;

pub(crate) fn assert_same<T: PartialEq + Debug>(rt: &impl Abort, found: &T, wanted: &T, at: &str) {
    assert_eq!(rt; found, wanted, "at {at}");
}

pub(crate) fn assert_that(rt: &impl Abort, holds: bool, at: &str) {
    assert!(rt; holds, "at {at}");
}

/// Whether nothing waits or is pending at the end.
pub(crate) fn is_done(end: &Line) -> bool {
    matches!(end, Line::End { pending, waiting, .. } if *pending == 0 && *waiting == 0)
}
