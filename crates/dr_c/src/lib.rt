//! The ring for programs in C, and those that can call C: `include/disruptor.h` declares what is here.
//!
//! Each call answers 0, or the number of the refusal. No call waits. A handle may move from one thread to another, and
//! one call at a time may have it.
//!
//! A pointer comes with how many things lie there, so that a null one is told as none.
#![tactic(auto)]

ghost use Rattle.std.specs.Prelude.{◌≡◌, ◌==◌, ◌&&◌, ◌++◌, None, length, take, drop, replicate};
ghost use Rattle.dr_c.specs.Calls.{ClaimsBy, WritesBy, WritesBytesBy, PublishesBy, PublishesSlotsBy, ClosesBy, PollsBy, PollsBytesBy, PollsSlotsBy, ReadsBytesBy, CompletesBy, HaltsBy, TellsBy};
ghost use Rattle.dr_c.specs.Handles.{OnHandle};
ghost use Rattle.dr_c.specs.Names.{name_by, AreOfTheLibrary};
ghost use Rattle.dr_c.specs.Numbers.{bad_pointer, not_open};
ghost use Rattle.dr_c.specs.Opening.{OpenedBy, ends_in};
ghost use Rattle.dr_c.specs.OpeningBytes.{OpenedBy as OpenedBytesBy};
ghost use Rattle.dr_c.specs.OpeningSeveral.{OpenedBy as OpenedSeveralBy};
ghost use Rattle.dr_c.specs.Places.{AtPlace, AtPlaces, ReadsAt, Whether};
ghost use Rattle.dr_c.specs.Watching.{TellsCompletedBy, TellsCursorBy};

mod amiss;
mod batch;
mod bytes;
mod calls;
mod end;
mod freed;
mod graph;
mod handle;
mod in_place;
mod loose;
mod numbers;
mod one_of_several;
mod open_fault;
mod opening;
mod opening_bytes;
mod opening_several;
mod places;
mod progress;
mod receiving;
mod sending;
mod texts;
mod watching;
mod writer;

use batch::Offer;
use dr_seq::Event;
use handle::Handle;
use numbers::BAD_POINTER;
use progress::Counts;
use std::alloc::Global;

/// Opens a ring of `size` slots in which `limit` sequences may be claimed. Handler `k` of `handlers` follows those whose bits
/// are in the mask `upstreams[k]`, and its receiver comes to `receivers[k]` of `count`. A refused call opens no handle, and tells
/// what is amiss first, by the order of `before` in `specs/OpenFault`, in which a lack of memory comes last.
#[unsafe(no_mangle)]
pub extern "C" fn disruptor_open_at(
    alloc: Global,
    size: u64,
    limit: u64,
    upstreams: &[u64],
    handlers: usize,
    sender: &mut [Handle],
    receivers: &mut [Handle],
    count: usize,
    halter: &mut [Handle],
) -> u32
    // A new ring's ends are in the handles, or the first fault is told; a bad place changes nothing.
    ensures { Whether ((length upstreams.now == handlers) && (length receivers.old == count)) (AtPlaces sender.old sender.new halter.old halter.new ((receivers.new ≡ receivers.old) × (result ≡ bad_pointer)) (λ s s' h h'. OpenedBy size limit upstreams.now s receivers.old h s' receivers.new h' result)) ((sender.new ≡ sender.old) × (receivers.new ≡ receivers.old) × (halter.new ≡ halter.old) × (result ≡ bad_pointer)) }
{
    if upstreams.len() != handlers || receivers.len() != count {
        return BAD_POINTER;
    }
    places::open(alloc, size, limit, upstreams, sender, receivers, halter)
}

/// Opens a ring of `count` senders as [`disruptor_open_at`] does one of a single sender. Their ends come to `senders`, and the
/// receivers, of which there are as many as handlers, to `receivers`. It ends with a halt, and is never closed. Its events begin
/// as zeros.
#[unsafe(no_mangle)]
pub extern "C" fn disruptor_open_several_at(
    alloc: Global,
    size: u64,
    limit: u64,
    upstreams: &[u64],
    handlers: usize,
    senders: &mut [Handle],
    count: usize,
    receivers: &mut [Handle],
    rooms: usize,
    halter: &mut [Handle],
) -> u32
    // A new ring's ends are in the handles, or the first fault is told; a bad place changes nothing.
    ensures { Whether ((length upstreams.now == handlers) && (length senders.old == count) && (length receivers.old == rooms)) (AtPlace halter.old halter.new ((senders.new ≡ senders.old) × (receivers.new ≡ receivers.old) × (result ≡ bad_pointer)) (λ h h'. OpenedSeveralBy size limit upstreams.now senders.old receivers.old h senders.new receivers.new h' result)) ((senders.new ≡ senders.old) × (receivers.new ≡ receivers.old) × (halter.new ≡ halter.old) × (result ≡ bad_pointer)) }
{
    if upstreams.len() != handlers || senders.len() != count || receivers.len() != rooms {
        return BAD_POINTER;
    }
    places::open_several(alloc, size, limit, upstreams, senders, receivers, halter)
}

/// Opens a ring of one sender as [`disruptor_open_at`] does, whose events have `bytes` bytes each. They begin as zeros.
#[unsafe(no_mangle)]
pub extern "C" fn disruptor_open_bytes_at(
    alloc: Global,
    size: u64,
    limit: u64,
    bytes: usize,
    upstreams: &[u64],
    handlers: usize,
    sender: &mut [Handle],
    receivers: &mut [Handle],
    count: usize,
    halter: &mut [Handle],
) -> u32
    // A new ring's ends are in the handles, or the first fault is told; a bad place changes nothing.
    ensures { Whether ((length upstreams.now == handlers) && (length receivers.old == count)) (AtPlaces sender.old sender.new halter.old halter.new ((receivers.new ≡ receivers.old) × (result ≡ bad_pointer)) (λ s s' h h'. OpenedBytesBy size limit bytes upstreams.now s receivers.old h s' receivers.new h' result)) ((sender.new ≡ sender.old) × (receivers.new ≡ receivers.old) × (halter.new ≡ halter.old) × (result ≡ bad_pointer)) }
{
    if upstreams.len() != handlers || receivers.len() != count {
        return BAD_POINTER;
    }
    places::open_bytes(
        alloc, size, limit, bytes, upstreams, sender, receivers, halter,
    )
}

/// Claims the next `n` sequences, and gives the first of them.
#[unsafe(no_mangle)]
pub extern "C" fn disruptor_claim_at(
    alloc: Global,
    sender: &mut [Handle],
    n: u64,
    lo: &mut [u64],
) -> u32
    // It is the sender's claim, told by its number; any other end or place is refused, and all stays.
    ensures { AtPlaces sender.old sender.new lo.old lo.new (result ≡ bad_pointer) (λ s s' lo lo'. OnHandle s.held.value s'.held.value ((lo' ≡ lo) × (result ≡ not_open)) (ClaimsBy n lo lo' result)) }
{
    if sender.len() != 1 || lo.len() != 1 {
        return BAD_POINTER;
    }
    calls::claim(alloc, &mut sender[0], n, &mut lo[0])
}

/// Writes the event of a claimed sequence.
#[unsafe(no_mangle)]
pub extern "C" fn disruptor_write_at(
    alloc: Global,
    sender: &mut [Handle],
    sequence: u64,
    event: &[Event],
) -> u32
    // It is the sender's write, told by its number; any other end or place is refused, and all stays.
    ensures { ReadsAt event.now ((sender.new ≡ sender.old) × (result ≡ bad_pointer)) (λ event. AtPlace sender.old sender.new (result ≡ bad_pointer) (λ s s'. OnHandle s.held.value s'.held.value (result ≡ not_open) (WritesBy sequence event result))) }
{
    if event.len() != 1 {
        return BAD_POINTER;
    }
    places::write(alloc, sender, sequence, &event[0])
}

/// Writes the event of a claimed sequence of a ring of bytes: `bytes`, of which there are asked to be `count`.
#[unsafe(no_mangle)]
pub extern "C" fn disruptor_write_bytes_at(
    alloc: Global,
    sender: &mut [Handle],
    sequence: u64,
    bytes: &[u8],
    count: usize,
) -> u32
    // A sender of bytes changes its event to just these, if as many as it has; all else is refused.
    ensures { Whether (length bytes.now == count) (AtPlace sender.old sender.new (result ≡ bad_pointer) (λ s s'. OnHandle s.held.value s'.held.value (result ≡ not_open) (WritesBytesBy sequence bytes.now result))) ((sender.new ≡ sender.old) × (result ≡ bad_pointer)) }
{
    if bytes.len() != count {
        return BAD_POINTER;
    }
    places::write_bytes(alloc, sender, sequence, bytes)
}

/// Publishes the sequences from `lo` to `hi`.
#[unsafe(no_mangle)]
pub extern "C" fn disruptor_publish_at(
    alloc: Global,
    sender: &mut [Handle],
    lo: u64,
    hi: u64,
) -> u32
    // It is the sender's publication, told by its number; any other end or place is refused, and all stays.
    ensures { AtPlace sender.old sender.new (result ≡ bad_pointer) (λ s s'. OnHandle s.held.value s'.held.value (result ≡ not_open) (PublishesBy lo hi result)) }
{
    if sender.len() != 1 {
        return BAD_POINTER;
    }
    calls::publish(alloc, &mut sender[0], lo, hi)
}

/// Publishes the sequences from `lo` to `hi` with what lies in their cells, whether it was written or not: the events lie in
/// memory of the caller's own, in the same slots.
#[unsafe(no_mangle)]
pub extern "C" fn disruptor_publish_slots_at(
    alloc: Global,
    sender: &mut [Handle],
    lo: u64,
    hi: u64,
) -> u32
    // Own sequences are written as they lie, so none is refused as not written, and then it is the ring's
    // publication; other ends are refused.
    ensures { AtPlace sender.old sender.new (result ≡ bad_pointer) (λ s s'. OnHandle s.held.value s'.held.value (result ≡ not_open) (PublishesSlotsBy lo hi result)) }
{
    if sender.len() != 1 {
        return BAD_POINTER;
    }
    calls::publish_slots(alloc, &mut sender[0], lo, hi)
}

/// Closes the ring.
#[unsafe(no_mangle)]
pub extern "C" fn disruptor_close_at(alloc: Global, sender: &mut [Handle]) -> u32
    // It is the only sender's close, told by its number; any other end or place is refused, and all stays.
    ensures { AtPlace sender.old sender.new (result ≡ bad_pointer) (λ s s'. OnHandle s.held.value s'.held.value (result ≡ not_open) (ClosesBy result)) }
{
    if sender.len() != 1 {
        return BAD_POINTER;
    }
    calls::close(alloc, &mut sender[0])
}

/// Takes the next events, as many as `out` has room for, which is asked to be `room`.
#[unsafe(no_mangle)]
pub extern "C" fn disruptor_poll_at(
    alloc: Global,
    receiver: &mut [Handle],
    out: &mut [Event],
    room: usize,
    offer: &mut [Offer],
) -> u32
    // It is the receiver's poll, told by number and offer; any other end or place is refused, and all stays.
    ensures { Whether (length out.old == room) (AtPlaces receiver.old receiver.new offer.old offer.new ((out.new ≡ out.old) × (result ≡ bad_pointer)) (λ r r' offer offer'. OnHandle r.held.value r'.held.value ((out.new ≡ out.old) × (offer' ≡ offer) × (result ≡ not_open)) (PollsBy out.old out.new offer offer' result))) ((receiver.new ≡ receiver.old) × (out.new ≡ out.old) × (offer.new ≡ offer.old) × (result ≡ bad_pointer)) }
{
    if out.len() != room {
        return BAD_POINTER;
    }
    places::poll(alloc, receiver, out, offer)
}

/// Takes the next events of a ring of bytes, `room` at most, each of which [`disruptor_read_bytes_at`] reads until it is completed.
#[unsafe(no_mangle)]
pub extern "C" fn disruptor_poll_bytes_at(
    alloc: Global,
    receiver: &mut [Handle],
    room: u64,
    offer: &mut [Offer],
) -> u32
    // It polls a receiver of bytes, told by number and offer; any other end or place is refused, and stays.
    ensures { AtPlaces receiver.old receiver.new offer.old offer.new (result ≡ bad_pointer) (λ r r' offer offer'. OnHandle r.held.value r'.held.value ((offer' ≡ offer) × (result ≡ not_open)) (PollsBytesBy room offer offer' result)) }
{
    if receiver.len() != 1 || offer.len() != 1 {
        return BAD_POINTER;
    }
    calls::poll_bytes(alloc, &mut receiver[0], room, &mut offer[0])
}

/// Takes the next events, `room` at most, and copies none: they lie in memory of the caller's own, in the same slots.
#[unsafe(no_mangle)]
pub extern "C" fn disruptor_poll_slots_at(
    alloc: Global,
    receiver: &mut [Handle],
    room: u64,
    offer: &mut [Offer],
) -> u32
    // It polls a receiver of slots, told by number and offer; any other end or place is refused, and stays.
    ensures { AtPlaces receiver.old receiver.new offer.old offer.new (result ≡ bad_pointer) (λ r r' offer offer'. OnHandle r.held.value r'.held.value ((offer' ≡ offer) × (result ≡ not_open)) (PollsSlotsBy room offer offer' result)) }
{
    if receiver.len() != 1 || offer.len() != 1 {
        return BAD_POINTER;
    }
    calls::poll_slots(alloc, &mut receiver[0], room, &mut offer[0])
}

/// Copies the bytes of an event that the receiver took and did not complete to `into`, which is asked to have room for `count`, just
/// as many as an event has. The end stays as it was.
#[unsafe(no_mangle)]
pub extern "C" fn disruptor_read_bytes_at(
    alloc: Global,
    receiver: &mut [Handle],
    sequence: u64,
    into: &mut [u8],
    count: usize,
) -> u32
    // It copies just the event's bytes, if it is in hand and there is room for just these; the end stays.
    ensures { Whether (length into.old == count) (AtPlace receiver.old receiver.new ((into.new ≡ into.old) × (result ≡ bad_pointer)) (λ r r'. OnHandle r.held.value r'.held.value ((into.new ≡ into.old) × (result ≡ not_open)) (λ end end'. (end' ≡ end) × ReadsBytesBy sequence into.old into.new result end))) ((receiver.new ≡ receiver.old) × (into.new ≡ into.old) × (result ≡ bad_pointer)) }
{
    if into.len() != count {
        return BAD_POINTER;
    }
    places::read_bytes(alloc, receiver, sequence, into)
}

/// Completes all events below `upto`.
#[unsafe(no_mangle)]
pub extern "C" fn disruptor_complete_at(alloc: Global, receiver: &mut [Handle], upto: u64) -> u32
    // It is the receiver's completion, told by its number; any other end or place is refused, and all stays.
    ensures { AtPlace receiver.old receiver.new (result ≡ bad_pointer) (λ r r'. OnHandle r.held.value r'.held.value (result ≡ not_open) (CompletesBy upto result)) }
{
    if receiver.len() != 1 {
        return BAD_POINTER;
    }
    calls::complete(alloc, &mut receiver[0], upto)
}

/// Halts the ring.
#[unsafe(no_mangle)]
pub extern "C" fn disruptor_halt_at(alloc: Global, halter: &mut [Handle]) -> u32
    // The halter stores a halt, which is never refused; any other end or place is refused, and all stays.
    ensures { AtPlace halter.old halter.new (result ≡ bad_pointer) (λ h h'. OnHandle h.held.value h'.held.value (result ≡ not_open) (λ end end'. HaltsBy end end' result)) }
{
    if halter.len() != 1 {
        return BAD_POINTER;
    }
    calls::halt(alloc, &mut halter[0])
}

/// Tells how far an end came, by its own calls: of one sender how many sequences it claimed, and how many events it published; of a
/// handler how many it took, and how many it completed. The end stays as it was.
#[unsafe(no_mangle)]
pub extern "C" fn disruptor_progress_at(
    alloc: Global,
    handle: &mut [Handle],
    counts: &mut [Counts],
) -> u32
    // It tells both counts of an end that has them; any other end or place is refused, and all stays.
    ensures { AtPlaces handle.old handle.new counts.old counts.new (result ≡ bad_pointer) (λ h h' counts counts'. OnHandle h.held.value h'.held.value ((counts' ≡ counts) × (result ≡ not_open)) (λ end end'. (end' ≡ end) × TellsBy end counts counts' result)) }
{
    if handle.len() != 1 || counts.len() != 1 {
        return BAD_POINTER;
    }
    calls::progress(alloc, &mut handle[0], &mut counts[0])
}

/// Tells the cursor of a ring, by its halter: of one sender how many events are published, of several how many sequences are claimed.
#[unsafe(no_mangle)]
pub extern "C" fn disruptor_cursor_at(
    alloc: Global,
    halter: &mut [Handle],
    count: &mut [u64],
) -> u32
    // It tells what the halter finds; any other end or place is refused, and all stays.
    ensures { AtPlaces halter.old halter.new count.old count.new (result ≡ bad_pointer) (λ h h' n n'. OnHandle h.held.value h'.held.value ((n' ≡ n) × (result ≡ not_open)) (TellsCursorBy n n' result)) }
{
    if halter.len() != 1 || count.len() != 1 {
        return BAD_POINTER;
    }
    calls::cursor(alloc, &mut halter[0], &mut count[0])
}

/// Tells how many events a handler completed, by the halter of its ring.
#[unsafe(no_mangle)]
pub extern "C" fn disruptor_completed_at(
    alloc: Global,
    halter: &mut [Handle],
    handler: usize,
    count: &mut [u64],
) -> u32
    // It tells what the halter finds of a handler that there is; all else is refused and stays.
    ensures { AtPlaces halter.old halter.new count.old count.new (result ≡ bad_pointer) (λ h h' n n'. OnHandle h.held.value h'.held.value ((n' ≡ n) × (result ≡ not_open)) (TellsCompletedBy handler n n' result)) }
{
    if halter.len() != 1 || count.len() != 1 {
        return BAD_POINTER;
    }
    calls::completed(alloc, &mut halter[0], handler, &mut count[0])
}

/// Frees what handles have, of whatever kind, each as it was (`Handle::free`), and leaves each without an end.
#[unsafe(no_mangle)]
pub extern "C" fn disruptor_free_at(alloc: Global, handles: &mut [Handle])
    ensures { ends_in handles.new ≡ replicate (length handles.old) None }
{
    opening::free_all(alloc, handles);
}

/// Puts the name of a number to the front of `text`, as far as there is room, and gives how many bytes it has.
#[tactic(auto, using(crate::proofs::Names::of_the_library))]
#[unsafe(no_mangle)]
pub extern "C" fn disruptor_name_at(number: u32, text: &mut [u8]) -> usize
    // A number of a claim's, a graph's or an opening's fault that has a name here has the library's.
    ensures library { AreOfTheLibrary name_by }
    // It is the length of the whole name, of which `text` has as much as fits; the rest of `text` stays.
    ensures length { result ≡ length (name_by number) }
    ensures text { text.new ≡ take (length text.old) (name_by number) ++ drop (length (name_by number)) text.old }
{
    texts::put(number, text)
}
