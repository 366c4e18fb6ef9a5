//! The calls of a sender.

ghost use Rattle.std.specs.Prelude.{◌≡◌};
ghost use Rattle.dr_c.specs.Calls.{ClaimsBy, WritesBy, WritesBytesBy, PublishesBy, PublishesSlotsBy, ClosesBy};
ghost use Rattle.dr_c.specs.Numbers.{told};

use crate::end::End;
use crate::numbers::{BAD_LENGTH, WRONG_END, number};
use dr_seq::Event;

/// Claims, and gives the first sequence.
pub fn claim(end: &mut End, n: u64, lo: &mut u64) -> u32
    ensures { ClaimsBy n lo.old lo.new result end.old end.new }
{
    match end {
        End::Sender(sender) => match sender.try_claim(n) {
            Ok(claimed) => {
                *lo = claimed.lo;
                0
            }
            Err(refusal) => refusal.number(),
        },
        End::SenderOfSeveral(sender) => match sender.try_claim(n) {
            Ok(stretch) => {
                *lo = stretch.lo;
                0
            }
            Err(fault) => fault.number(),
        },
        End::SenderOfBytes(writer) => match writer.try_claim(n) {
            Ok(taken) => {
                *lo = taken.lo;
                0
            }
            Err(cause) => cause.number(),
        },
        _ => WRONG_END,
    }
}

/// Writes an event.
pub fn write(end: &mut End, sequence: u64, event: Event) -> u32
    ensures { WritesBy sequence event result end.old end.new }
{
    match end {
        End::Sender(sender) => number(sender.write(sequence, event)),
        End::SenderOfSeveral(sender) => number(sender.write(sequence, event)),
        _ => WRONG_END,
    }
}

/// Writes an event of bytes.
pub fn write_bytes(end: &mut End, sequence: u64, bytes: &[u8]) -> u32
    ensures { WritesBytesBy sequence bytes.now result end.old end.new }
{
    match end {
        End::SenderOfBytes(writer) => {
            if bytes.len() != writer.bytes {
                return BAD_LENGTH;
            }
            number(writer.write(sequence, bytes))
        }
        _ => WRONG_END,
    }
}

/// Publishes a stretch.
pub fn publish(end: &mut End, lo: u64, hi: u64) -> u32
    ensures { PublishesBy lo hi result end.old end.new }
{
    match end {
        End::Sender(sender) => number(sender.publish(lo, hi)),
        End::SenderOfSeveral(sender) => number(sender.publish(lo, hi)),
        End::SenderOfBytes(writer) => number(writer.publish(lo, hi)),
        _ => WRONG_END,
    }
}

/// Publishes a stretch with what lies in its cells.
pub fn publish_slots(end: &mut End, lo: u64, hi: u64) -> u32
    ensures { PublishesSlotsBy lo hi result end.old end.new }
{
    match end {
        End::SenderOfBytes(writer) => number(writer.publish_slots(lo, hi)),
        End::SenderOfSeveral(sender) => number(sender.publish_slots(lo, hi)),
        _ => WRONG_END,
    }
}

/// Closes the ring.
pub fn close(end: &mut End) -> u32
    ensures { ClosesBy result end.old end.new }
{
    match end {
        End::Sender(sender) => number(sender.close()),
        End::SenderOfBytes(writer) => number(writer.close()),
        _ => WRONG_END,
    }
}
