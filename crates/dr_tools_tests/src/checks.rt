//! How the tests compare values.

use std::alloc::Global;
use std::fmt::{Debug, Display};
use std::process::Abort;

/// Two values are the same. A call of this costs a proof less than an assertion in its place.
pub fn check<T: Copy + PartialEq + Debug>(rt: &impl Abort, found: T, wanted: T) {
    assert_eq!(rt; found, wanted);
}

/// A value prints this text.
pub fn check_text<T: Copy + Display>(rt: &impl Abort, alloc: Global, value: T, text: &str) {
    let said = value.to_string(alloc).expect(rt, "memory");
    check(rt, said.as_str(), text);
}

/// A run ended as it is to, whose reader or writer was to fail at this call.
pub fn check_at(rt: &impl Abort, is_right: bool, fails_at: u64) {
    assert!(rt; is_right, "at {fails_at}");
}
