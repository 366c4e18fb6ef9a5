//! The events that a ring begins with.

ghost use Rattle.std.specs.Prelude.{◌≡◌, All, IfOk, Ok, length};

use dr_seq::Size;
use std::alloc::{AllocError, Global};

/// An event for each slot of a ring, each made by a call of its own (LMAX's `EventFactory`). So an event may own memory,
/// and need not be `Clone`.
pub fn new_events<E: Drop, F: Fn() -> Result<E, AllocError> + Drop>(
    alloc: Global,
    size: Size,
    make: F,
) -> Result<Vec<E>, AllocError>
    requires callable { F.IsAlwaysCallable make }
    // There are as many as the ring has slots.
    ensures many { IfOk result (λ events. length events.items ≡ size) }
    // Each of them is one that the closure made.
    ensures made { IfOk result (λ events. All (λ event. F.post make (Ok event)) events.items) }
{
    let mut events = Vec::with_capacity(alloc, size.get() as usize)?;
    for _ in 0..size.get() {
        events.push(make()?)?;
    }
    Ok(events)
}
