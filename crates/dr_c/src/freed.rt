//! What is freed, as it was then.

ghost use Rattle.std.specs.Prelude.{◌≡◌};

use std::alloc::Global;
use std::snapshot::Snapshot;

/// What was freed last, if anything. It has no bytes, and is for contracts alone.
pub struct Freed<T> {
    last: Snapshot<Option<Box<T, Global>>>,
}

impl<T: Drop> Freed<T> {
    /// Frees a value. It may be of any type, so nothing else is done with it.
    pub(crate) fn of(it: Option<Box<T, Global>>) -> Freed<T>
        ensures { result.last.value ≡ it }
    {
        Freed {
            last: Snapshot::of(&it),
        }
    }
}

impl<T> Drop for Freed<T> {
    fn drop(self) {
        let Freed { last: _ } = self;
    }
}
