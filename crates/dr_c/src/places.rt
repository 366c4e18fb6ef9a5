//! The calls that take an array, or read a thing, at the places of the others.

ghost use Rattle.std.specs.Prelude.{◌≡◌};
ghost use Rattle.dr_c.specs.Calls.{WritesBy, WritesBytesBy, PollsBy, ReadsBytesBy};
ghost use Rattle.dr_c.specs.Handles.{OnHandle};
ghost use Rattle.dr_c.specs.Numbers.{bad_pointer, not_open};
ghost use Rattle.dr_c.specs.Opening.{OpenedBy};
ghost use Rattle.dr_c.specs.OpeningBytes.{OpenedBy as OpenedBytesBy};
ghost use Rattle.dr_c.specs.OpeningSeveral.{OpenedBy as OpenedSeveralBy};
ghost use Rattle.dr_c.specs.Places.{AtPlace, AtPlaces};

use crate::batch::Offer;
use crate::calls;
use crate::handle::Handle;
use crate::numbers::BAD_POINTER;
use dr_seq::Event;
use std::alloc::Global;

/// Opens a ring into the handles at these places.
pub(crate) fn open(
    alloc: Global,
    size: u64,
    limit: u64,
    upstreams: &[u64],
    sender: &mut [Handle],
    receivers: &mut [Handle],
    halter: &mut [Handle],
) -> u32
    ensures { AtPlaces sender.old sender.new halter.old halter.new ((receivers.new ≡ receivers.old) × (result ≡ bad_pointer)) (λ s s' h h'. OpenedBy size limit upstreams.now s receivers.old h s' receivers.new h' result) }
{
    if sender.len() != 1 || halter.len() != 1 {
        return BAD_POINTER;
    }
    let (sender, halter) = (&mut sender[0], &mut halter[0]);
    calls::open(alloc, size, limit, upstreams, sender, receivers, halter)
}

/// Opens a ring of several senders, with the halter at this place.
pub(crate) fn open_several(
    alloc: Global,
    size: u64,
    limit: u64,
    upstreams: &[u64],
    senders: &mut [Handle],
    receivers: &mut [Handle],
    halter: &mut [Handle],
) -> u32
    ensures { AtPlace halter.old halter.new ((senders.new ≡ senders.old) × (receivers.new ≡ receivers.old) × (result ≡ bad_pointer)) (λ h h'. OpenedSeveralBy size limit upstreams.now senders.old receivers.old h senders.new receivers.new h' result) }
{
    if halter.len() != 1 {
        return BAD_POINTER;
    }
    let halter = &mut halter[0];
    calls::open_several(alloc, size, limit, upstreams, senders, receivers, halter)
}

/// Opens a ring of bytes into the handles at these places.
pub(crate) fn open_bytes(
    alloc: Global,
    size: u64,
    limit: u64,
    bytes: usize,
    upstreams: &[u64],
    sender: &mut [Handle],
    receivers: &mut [Handle],
    halter: &mut [Handle],
) -> u32
    ensures { AtPlaces sender.old sender.new halter.old halter.new ((receivers.new ≡ receivers.old) × (result ≡ bad_pointer)) (λ s s' h h'. OpenedBytesBy size limit bytes upstreams.now s receivers.old h s' receivers.new h' result) }
{
    if sender.len() != 1 || halter.len() != 1 {
        return BAD_POINTER;
    }
    let (sender, halter) = (&mut sender[0], &mut halter[0]);
    calls::open_bytes(
        alloc, size, limit, bytes, upstreams, sender, receivers, halter,
    )
}

/// Writes an event by the sender at this place.
pub(crate) fn write(alloc: Global, sender: &mut [Handle], sequence: u64, event: &Event) -> u32
    ensures { AtPlace sender.old sender.new (result ≡ bad_pointer) (λ s s'. OnHandle s.held.value s'.held.value (result ≡ not_open) (WritesBy sequence event.now result)) }
{
    if sender.len() != 1 {
        return BAD_POINTER;
    }
    calls::write(alloc, &mut sender[0], sequence, event)
}

/// Polls by the receiver at this place.
pub(crate) fn poll(
    alloc: Global,
    receiver: &mut [Handle],
    out: &mut [Event],
    offer: &mut [Offer],
) -> u32
    ensures { AtPlaces receiver.old receiver.new offer.old offer.new ((out.new ≡ out.old) × (result ≡ bad_pointer)) (λ r r' offer offer'. OnHandle r.held.value r'.held.value ((out.new ≡ out.old) × (offer' ≡ offer) × (result ≡ not_open)) (PollsBy out.old out.new offer offer' result)) }
{
    if receiver.len() != 1 || offer.len() != 1 {
        return BAD_POINTER;
    }
    calls::poll(alloc, &mut receiver[0], out, &mut offer[0])
}

/// Writes bytes by the sender at this place.
pub(crate) fn write_bytes(alloc: Global, sender: &mut [Handle], sequence: u64, bytes: &[u8]) -> u32
    ensures { AtPlace sender.old sender.new (result ≡ bad_pointer) (λ s s'. OnHandle s.held.value s'.held.value (result ≡ not_open) (WritesBytesBy sequence bytes.now result)) }
{
    if sender.len() != 1 {
        return BAD_POINTER;
    }
    calls::write_bytes(alloc, &mut sender[0], sequence, bytes)
}

/// Reads bytes by the receiver at this place.
pub(crate) fn read_bytes(
    alloc: Global,
    receiver: &mut [Handle],
    sequence: u64,
    into: &mut [u8],
) -> u32
    ensures { AtPlace receiver.old receiver.new ((into.new ≡ into.old) × (result ≡ bad_pointer)) (λ r r'. OnHandle r.held.value r'.held.value ((into.new ≡ into.old) × (result ≡ not_open)) (λ end end'. (end' ≡ end) × ReadsBytesBy sequence into.old into.new result end)) }
{
    if receiver.len() != 1 {
        return BAD_POINTER;
    }
    calls::read_bytes(alloc, &mut receiver[0], sequence, into)
}
