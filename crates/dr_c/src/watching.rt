//! How far a ring came, told by its halter at any time.

ghost use Rattle.dr_c.specs.Watching.{TellsCompletedOfBytes, TellsCompletedOfSeveral, TellsCompletedBy, TellsCursorBy};

use crate::bytes::Bytes;
use crate::end::End;
use crate::numbers::{NO_HANDLER, WRONG_END};
use dr_seq::Event;

/// Tells the cursor.
pub fn cursor(end: &mut End, count: &mut u64) -> u32
    ensures { TellsCursorBy count.old count.new result end.old end.new }
{
    match end {
        End::HalterOfSeveral(halter_of_several) => {
            *count = halter_of_several.claimed();
            0
        }
        End::HalterOfBytes(halter_of_bytes) => {
            *count = halter_of_bytes.published();
            0
        }
        _ => WRONG_END,
    }
}

// Tells what a handler of a ring of several senders completed.
fn completed_of_several(
    halter: &mut dr_plain_senders::Halter<Event>,
    handler: usize,
    count: &mut u64,
) -> u32
    ensures { TellsCompletedOfSeveral handler count.old count.new result halter.old halter.new }
{
    if handler >= halter.handlers() {
        return NO_HANDLER;
    }
    *count = halter.completed(handler);
    0
}

// Tells what a handler of a ring of bytes completed.
fn completed_of_bytes(halter: &mut dr_plain::Halter<Bytes>, handler: usize, count: &mut u64) -> u32
    ensures { TellsCompletedOfBytes handler count.old count.new result halter.old halter.new }
{
    if handler >= halter.handlers() {
        return NO_HANDLER;
    }
    *count = halter.completed(handler);
    0
}

/// Tells how many events a handler completed.
pub fn completed(end: &mut End, handler: usize, count: &mut u64) -> u32
    ensures { TellsCompletedBy handler count.old count.new result end.old end.new }
{
    match end {
        End::HalterOfSeveral(halter_of_several) => {
            completed_of_several(halter_of_several, handler, count)
        }
        End::HalterOfBytes(halter_of_bytes) => completed_of_bytes(halter_of_bytes, handler, count),
        _ => WRONG_END,
    }
}
