//! Whether two events are the same.

ghost use Rattle.std.specs.Prelude.{◌≡◌, ◌↔◌, IsTrue};

use crate::event::Event;

/// Values of which a test tells whether they are the same: an audit compares the events of a history
/// with what was to be sent. A type of several fields compares each of them.
pub trait Same {
    /// Whether two values are the same.
    fn is_same(&self, other: &Self) -> bool
        ensures { IsTrue result ↔ self.now ≡ other.now };
}

impl Same for u8 {
    fn is_same(&self, other: &u8) -> bool {
        *self == *other
    }
}

impl Same for u16 {
    fn is_same(&self, other: &u16) -> bool {
        *self == *other
    }
}

impl Same for u32 {
    fn is_same(&self, other: &u32) -> bool {
        *self == *other
    }
}

impl Same for u64 {
    fn is_same(&self, other: &u64) -> bool {
        *self == *other
    }
}

impl Same for usize {
    fn is_same(&self, other: &usize) -> bool {
        *self == *other
    }
}

impl Same for i64 {
    fn is_same(&self, other: &i64) -> bool {
        *self == *other
    }
}

impl Same for bool {
    fn is_same(&self, other: &bool) -> bool {
        *self == *other
    }
}

impl Same for Event {
    fn is_same(&self, other: &Event) -> bool {
        *self == *other
    }
}

impl<T: Same, const N: usize> Same for [T; N] {
    fn is_same(&self, other: &[T; N]) -> bool {
        are_same(self.as_slice(), other.as_slice())
    }
}

/// Whether two lists have the same values in the same order.
pub fn are_same<T: Same>(a: &[T], b: &[T]) -> bool
    ensures { IsTrue result ↔ a.now ≡ b.now }
{
    if a.len() != b.len() {
        return false;
    }
    for k in 0..a.len() {
        if !a[k].is_same(&b[k]) {
            return false;
        }
    }
    true
}
