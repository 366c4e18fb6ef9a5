//! The calls of a receiver and of a halter.

ghost use Rattle.std.specs.Prelude.{◌≡◌};
ghost use Rattle.dr_c.specs.Calls.{PollsBy, PollsBytesBy, PollsSlotsBy, ReadsBytesBy, Reads, CompletesBy, HaltsBy, offer_of as offer_of_polled};

use crate::batch::Offer;
use crate::bytes::Bytes;
use crate::end::End;
use crate::numbers::{BAD_LENGTH, NOT_IN_HAND, WRONG_END, number};
use dr_meaning::{Outlet, Polled};
use dr_plain::Receiver;
use dr_seq::Event;

fn offer_of(polled: Polled) -> Offer
    ensures { result ≡ offer_of_polled polled }
{
    let (kind, first, count, end) = match polled {
        Polled::Batch { first, count, end } => (0, first, count, u32::from(end)),
        Polled::Gating => (1, 0, 0, 0),
        Polled::Idle => (2, 0, 0, 0),
        Polled::Drained => (3, 0, 0, 0),
    };
    Offer {
        kind,
        end,
        first,
        count,
    }
}

/// Takes the next events.
pub fn poll(end: &mut End, out: &mut [Event], offer: &mut Offer) -> u32
    ensures { PollsBy out.old out.new offer.old offer.new result end.old end.new }
{
    match end {
        End::Receiver(receiver) => match receiver.poll_into(out) {
            Ok(polled) => {
                *offer = offer_of(polled);
                0
            }
            Err(refusal) => refusal.number(),
        },
        End::ReceiverOfSeveral(receiver) => match Outlet::poll_into(receiver, out) {
            Ok(polled) => {
                *offer = offer_of(polled);
                0
            }
            Err(trouble) => trouble.number(),
        },
        _ => WRONG_END,
    }
}

/// Takes the next events of bytes, as many as it is asked for.
pub fn poll_bytes(end: &mut End, room: u64, offer: &mut Offer) -> u32
    ensures { PollsBytesBy room offer.old offer.new result end.old end.new }
{
    match end {
        End::ReceiverOfBytes(receiver) => match receiver.poll(room) {
            Ok(polled) => {
                *offer = offer_of(polled);
                0
            }
            Err(refusal) => refusal.number(),
        },
        _ => WRONG_END,
    }
}

/// Takes the next events of a ring of slots, as many as it is asked for, and copies none.
pub fn poll_slots(end: &mut End, room: u64, offer: &mut Offer) -> u32
    ensures { PollsSlotsBy room offer.old offer.new result end.old end.new }
{
    match end {
        End::ReceiverOfSeveral(taker) => match taker.poll(room) {
            Ok(polled) => {
                *offer = offer_of(polled);
                0
            }
            Err(refusal) => refusal.number(),
        },
        _ => poll_bytes(end, room, offer),
    }
}

// Copies the event of a sequence that a receiver has in hand.
fn read(receiver: &Receiver<Bytes>, sequence: u64, into: &mut [u8]) -> u32
    ensures { Reads receiver.now.knows sequence into.old into.new result }
{
    let Some(event) = receiver.event(sequence) else {
        return NOT_IN_HAND;
    };
    if event.len() != into.len() {
        return BAD_LENGTH;
    }
    into.copy_from_slice(event.as_slice());
    0
}

/// Reads an event of bytes.
pub fn read_bytes(end: &End, sequence: u64, into: &mut [u8]) -> u32
    ensures { ReadsBytesBy sequence into.old into.new result end.now }
{
    match end {
        End::ReceiverOfBytes(receiver) => read(receiver, sequence, into),
        _ => WRONG_END,
    }
}

/// Completes events.
pub fn complete(end: &mut End, upto: u64) -> u32
    ensures { CompletesBy upto result end.old end.new }
{
    match end {
        End::Receiver(receiver) => number(receiver.complete(upto)),
        End::ReceiverOfSeveral(receiver) => number(receiver.complete(upto)),
        End::ReceiverOfBytes(receiver) => number(receiver.complete(upto)),
        _ => WRONG_END,
    }
}

/// Halts the ring.
pub fn halt(end: &mut End) -> u32
    ensures { HaltsBy end.old end.new result }
{
    match end {
        End::Halter(halter) => {
            halter.halt();
            0
        }
        End::HalterOfSeveral(halter_of_several) => {
            halter_of_several.halt();
            0
        }
        End::HalterOfBytes(halter_of_bytes) => {
            halter_of_bytes.halt();
            0
        }
        _ => WRONG_END,
    }
}
