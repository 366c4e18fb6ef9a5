//! The calls, each on the handle that it is of.

ghost use Rattle.std.specs.Prelude.{◌≡◌};
ghost use Rattle.dr_c.specs.Calls.{ClaimsBy, WritesBy, WritesBytesBy, PublishesBy, PublishesSlotsBy, ClosesBy, PollsBy, PollsBytesBy, PollsSlotsBy, ReadsBytesBy, CompletesBy, HaltsBy, TellsBy};
ghost use Rattle.dr_c.specs.Handles.{OnHandle};
ghost use Rattle.dr_c.specs.Numbers.{not_open};
ghost use Rattle.dr_c.specs.Opening.{OpenedBy};
ghost use Rattle.dr_c.specs.OpeningBytes.{OpenedBy as OpenedBytesBy};
ghost use Rattle.dr_c.specs.OpeningSeveral.{OpenedBy as OpenedSeveralBy};
ghost use Rattle.dr_c.specs.Watching.{TellsCompletedBy, TellsCursorBy};

use crate::batch::Offer;
use crate::handle::Handle;
use crate::numbers::NOT_OPEN;
use crate::progress::{Counts, tell};
use crate::{opening, opening_bytes, opening_several, receiving, sending, watching};
use dr_seq::Event;
use std::alloc::Global;

/// Opens a ring of `size` slots in which `limit` sequences may be claimed. Handler `k` follows those handlers whose bits are
/// in the mask `upstreams[k]`, and its receiver comes to `receivers[k]`. A refused call opens no handle.
pub(crate) fn open(
    alloc: Global,
    size: u64,
    limit: u64,
    upstreams: &[u64],
    sender: &mut Handle,
    receivers: &mut [Handle],
    halter: &mut Handle,
) -> u32
    ensures { OpenedBy size limit upstreams.now sender.old receivers.old halter.old sender.new receivers.new halter.new result }
{
    match opening::open(alloc, size, limit, upstreams, sender, receivers, halter) {
        Ok(()) => 0,
        Err(fault) => fault.number(),
    }
}

/// Opens a ring of several senders, each with a handle of its own.
pub(crate) fn open_several(
    alloc: Global,
    size: u64,
    limit: u64,
    upstreams: &[u64],
    senders: &mut [Handle],
    receivers: &mut [Handle],
    halter: &mut Handle,
) -> u32
    ensures { OpenedSeveralBy size limit upstreams.now senders.old receivers.old halter.old senders.new receivers.new halter.new result }
{
    match opening_several::open(alloc, size, limit, upstreams, senders, receivers, halter) {
        Ok(()) => 0,
        Err(fault) => fault.number(),
    }
}

/// Opens a ring whose events have `bytes` bytes each.
pub(crate) fn open_bytes(
    alloc: Global,
    size: u64,
    limit: u64,
    bytes: usize,
    upstreams: &[u64],
    sender: &mut Handle,
    receivers: &mut [Handle],
    halter: &mut Handle,
) -> u32
    ensures { OpenedBytesBy size limit bytes upstreams.now sender.old receivers.old halter.old sender.new receivers.new halter.new result }
{
    match opening_bytes::open(
        alloc, size, limit, bytes, upstreams, sender, receivers, halter,
    ) {
        Ok(()) => 0,
        Err(fault) => fault.number(),
    }
}

/// Claims the next `n` sequences, and gives the first of them.
pub(crate) fn claim(alloc: Global, sender: &mut Handle, n: u64, lo: &mut u64) -> u32
    ensures { OnHandle sender.old.held.value sender.new.held.value ((lo.new ≡ lo.old) × (result ≡ not_open)) (ClaimsBy n lo.old lo.new result) }
{
    if !sender.is_open() {
        return NOT_OPEN;
    }
    let mut end = sender.take(alloc);
    let number = sending::claim(&mut end, n, lo);
    sender.keep(end);
    number
}

/// Writes the event of a claimed sequence.
pub(crate) fn write(alloc: Global, sender: &mut Handle, sequence: u64, event: &Event) -> u32
    ensures { OnHandle sender.old.held.value sender.new.held.value (result ≡ not_open) (WritesBy sequence event.now result) }
{
    if !sender.is_open() {
        return NOT_OPEN;
    }
    let mut end = sender.take(alloc);
    let number = sending::write(&mut end, sequence, *event);
    sender.keep(end);
    number
}

/// Writes the bytes of a claimed sequence.
pub(crate) fn write_bytes(alloc: Global, sender: &mut Handle, sequence: u64, bytes: &[u8]) -> u32
    ensures { OnHandle sender.old.held.value sender.new.held.value (result ≡ not_open) (WritesBytesBy sequence bytes.now result) }
{
    if !sender.is_open() {
        return NOT_OPEN;
    }
    let mut end = sender.take(alloc);
    let number = sending::write_bytes(&mut end, sequence, bytes);
    sender.keep(end);
    number
}

/// Publishes the sequences from `lo` to `hi`.
pub(crate) fn publish(alloc: Global, sender: &mut Handle, lo: u64, hi: u64) -> u32
    ensures { OnHandle sender.old.held.value sender.new.held.value (result ≡ not_open) (PublishesBy lo hi result) }
{
    if !sender.is_open() {
        return NOT_OPEN;
    }
    let mut end = sender.take(alloc);
    let number = sending::publish(&mut end, lo, hi);
    sender.keep(end);
    number
}

/// Publishes the sequences from `lo` to `hi` with what lies in their cells.
pub(crate) fn publish_slots(alloc: Global, sender: &mut Handle, lo: u64, hi: u64) -> u32
    ensures { OnHandle sender.old.held.value sender.new.held.value (result ≡ not_open) (PublishesSlotsBy lo hi result) }
{
    if !sender.is_open() {
        return NOT_OPEN;
    }
    let mut end = sender.take(alloc);
    let number = sending::publish_slots(&mut end, lo, hi);
    sender.keep(end);
    number
}

/// Closes the ring.
pub(crate) fn close(alloc: Global, sender: &mut Handle) -> u32
    ensures { OnHandle sender.old.held.value sender.new.held.value (result ≡ not_open) (ClosesBy result) }
{
    if !sender.is_open() {
        return NOT_OPEN;
    }
    let mut end = sender.take(alloc);
    let number = sending::close(&mut end);
    sender.keep(end);
    number
}

/// Takes the next events, as many as `out` has room for.
pub(crate) fn poll(
    alloc: Global,
    receiver: &mut Handle,
    out: &mut [Event],
    offer: &mut Offer,
) -> u32
    ensures { OnHandle receiver.old.held.value receiver.new.held.value ((out.new ≡ out.old) × (offer.new ≡ offer.old) × (result ≡ not_open)) (PollsBy out.old out.new offer.old offer.new result) }
{
    if !receiver.is_open() {
        return NOT_OPEN;
    }
    let mut end = receiver.take(alloc);
    let number = receiving::poll(&mut end, out, offer);
    receiver.keep(end);
    number
}

/// Takes the next events of bytes, `room` at most.
pub(crate) fn poll_bytes(alloc: Global, receiver: &mut Handle, room: u64, offer: &mut Offer) -> u32
    ensures { OnHandle receiver.old.held.value receiver.new.held.value ((offer.new ≡ offer.old) × (result ≡ not_open)) (PollsBytesBy room offer.old offer.new result) }
{
    if !receiver.is_open() {
        return NOT_OPEN;
    }
    let mut end = receiver.take(alloc);
    let number = receiving::poll_bytes(&mut end, room, offer);
    receiver.keep(end);
    number
}

/// Takes the next events, `room` at most, and copies none.
pub(crate) fn poll_slots(alloc: Global, receiver: &mut Handle, room: u64, offer: &mut Offer) -> u32
    ensures { OnHandle receiver.old.held.value receiver.new.held.value ((offer.new ≡ offer.old) × (result ≡ not_open)) (PollsSlotsBy room offer.old offer.new result) }
{
    if !receiver.is_open() {
        return NOT_OPEN;
    }
    let mut end = receiver.take(alloc);
    let number = receiving::poll_slots(&mut end, room, offer);
    receiver.keep(end);
    number
}

/// Copies the bytes of an event that it took and did not complete. The end stays as it was.
pub(crate) fn read_bytes(
    alloc: Global,
    receiver: &mut Handle,
    sequence: u64,
    into: &mut [u8],
) -> u32
    ensures { OnHandle receiver.old.held.value receiver.new.held.value ((into.new ≡ into.old) × (result ≡ not_open)) (λ end end'. (end' ≡ end) × ReadsBytesBy sequence into.old into.new result end) }
{
    if !receiver.is_open() {
        return NOT_OPEN;
    }
    let end = receiver.take(alloc);
    let number = receiving::read_bytes(&end, sequence, into);
    receiver.keep(end);
    number
}

/// Completes all events below `upto`.
pub(crate) fn complete(alloc: Global, receiver: &mut Handle, upto: u64) -> u32
    ensures { OnHandle receiver.old.held.value receiver.new.held.value (result ≡ not_open) (CompletesBy upto result) }
{
    if !receiver.is_open() {
        return NOT_OPEN;
    }
    let mut end = receiver.take(alloc);
    let number = receiving::complete(&mut end, upto);
    receiver.keep(end);
    number
}

/// Halts the ring.
pub(crate) fn halt(alloc: Global, halter: &mut Handle) -> u32
    ensures { OnHandle halter.old.held.value halter.new.held.value (result ≡ not_open) (λ end end'. HaltsBy end end' result) }
{
    if !halter.is_open() {
        return NOT_OPEN;
    }
    let mut end = halter.take(alloc);
    let number = receiving::halt(&mut end);
    halter.keep(end);
    number
}

/// Tells the cursor of a halter's ring.
pub(crate) fn cursor(alloc: Global, halter: &mut Handle, count: &mut u64) -> u32
    ensures { OnHandle halter.old.held.value halter.new.held.value ((count.new ≡ count.old) × (result ≡ not_open)) (TellsCursorBy count.old count.new result) }
{
    if !halter.is_open() {
        return NOT_OPEN;
    }
    let mut end = halter.take(alloc);
    let number = watching::cursor(&mut end, count);
    halter.keep(end);
    number
}

/// Tells how many events a handler of a halter's ring completed.
pub(crate) fn completed(alloc: Global, halter: &mut Handle, handler: usize, count: &mut u64) -> u32
    ensures { OnHandle halter.old.held.value halter.new.held.value ((count.new ≡ count.old) × (result ≡ not_open)) (TellsCompletedBy handler count.old count.new result) }
{
    if !halter.is_open() {
        return NOT_OPEN;
    }
    let mut end = halter.take(alloc);
    let number = watching::completed(&mut end, handler, count);
    halter.keep(end);
    number
}

/// Tells how far an end came, which stays as it was.
pub(crate) fn progress(alloc: Global, handle: &mut Handle, counts: &mut Counts) -> u32
    ensures { OnHandle handle.old.held.value handle.new.held.value ((counts.new ≡ counts.old) × (result ≡ not_open)) (λ end end'. (end' ≡ end) × TellsBy end counts.old counts.new result) }
{
    if !handle.is_open() {
        return NOT_OPEN;
    }
    let end = handle.take(alloc);
    let number = tell(&end, counts);
    handle.keep(end);
    number
}
