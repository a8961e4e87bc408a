//! What tests say of answers.

use std::fmt::Debug;
use std::process::Abort;

/// The answer is the expected one. One function for all of them: an assertion written out adds
/// branches to the test, each of which is proved.
pub(crate) fn check_eq<T: PartialEq + Debug + Drop>(rt: &impl Abort, told: T, expected: T) {
    assert_eq!(rt; told, expected);
}
