//! How the tests compare values.

use std::fmt::Debug;
use std::process::Abort;

/// Two values are the same. A call of this costs a proof less than an assertion in its place.
pub fn check<T: Copy + PartialEq + Debug>(rt: &impl Abort, found: T, wanted: T) {
    assert_eq!(rt; found, wanted);
}
