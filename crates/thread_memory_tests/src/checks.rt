//! How tests compare answers.

use std::fmt::Debug;
use std::process::Abort;

/// Asserts that both are equal. One function for all tests: an assertion written out adds branches
/// to the test, each of which is proved.
pub(crate) fn check_eq<T: PartialEq + Debug + Drop>(rt: &impl Abort, found: T, expected: T) {
    assert_eq!(rt; found, expected);
}
