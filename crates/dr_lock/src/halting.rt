//! Halting an exchange behind a lock.

ghost use Rattle.dr_lock.specs.Calls.Lock.{HasHalted};

use crate::end::End;
use crate::exchange::Exchange;
use crate::shared::Shared;
use dr_meaning::Command;
use dr_workers::Waiting;
use std::sync::Wait;

/// Halts the exchange, once there is memory for the call: no later claim succeeds. Every halt is
/// kept in the history, however often the exchange is halted, and the end counts and remembers it, and
/// before it each halt for which there was no memory.
pub fn halt<E: Copy, L: Exchange<E>, R: Wait>(rt: &R, shared: &Shared<E, L>, end: &mut End<E, L>)
    ensures { HasHalted end.old end.new }
{
    let mut waiting = Waiting::new(1);
    for _ in rt.forever() {
        match shared.call(rt, end, Command::Halt, &mut []) {
            Ok(_) => return,
            Err(_) => waiting.wait(),
        }
    }
    unreachable!()
}
