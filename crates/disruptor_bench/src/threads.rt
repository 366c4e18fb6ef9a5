//! The ring's rounds: the producer and each handler on a thread of its own. What sends, starts and
//! joins goes over the ends of any ring.

use crate::arguments::Order;
use crate::fault::Fault;
use crate::measured::Round;
use crate::sum::sum_of_first;
use crate::width::Made;
use crate::{MOST_TURNS, STRETCH};
use dr_meaning::{Claimed, Inlet, MAX_LIMIT, Outlet, Polled, Refusal, Trouble};
use dr_ring::{Halter, Receiver, Sender, ring};
use dr_seq::Event;
use dr_workers::Waiting;
use std::alloc::Global;
use std::rt::Clock;
use std::thread::{self, JoinHandle, Threads};
use std::time::Instant;

/// An end's thread: what it added up, or how many events it sent.
pub type Worker = JoinHandle<Result<u64, Fault>>;

/// An end that has a thread of its own.
pub trait Works {
    /// Sends a stretch by claims of so many events, or adds up what is received until the ring, of so many slots,
    /// is drained.
    fn work(&mut self, claim: u64, slots: u64) -> Result<u64, Fault>;
}

/// The most events that a handler takes at once.
pub const MOST_AT_ONCE: u64 = 1024;

fn add_up<O: Outlet<Event>>(receiver: &mut O, room: &mut [Event]) -> Result<u64, Fault> {
    let mut total = 0u64;
    let mut waiting = Waiting::new(room.len() as u64);
    for _ in 0..MOST_TURNS {
        match receiver.poll_into(room)? {
            Polled::Batch { first, count, .. } => {
                total = total.wrapping_add(sum_of(room, count));
                receiver.complete(first.wrapping_add(count))?;
                waiting.found(count);
            }
            Polled::Drained => return Ok(total),
            Polled::Gating | Polled::Idle => waiting.wait(),
        }
    }
    Err(Fault::NO_END)
}

impl Works for Receiver {
    fn work(&mut self, _claim: u64, slots: u64) -> Result<u64, Fault> {
        let mut buffer = [Event::NONE; MOST_AT_ONCE as usize];
        let room = slots.min(MOST_AT_ONCE) as usize;
        add_up(self, &mut buffer[..room])
    }
}

/// The sum of the first events of a batch, as it wraps.
fn sum_of(room: &[Event], count: u64) -> u64 {
    let mut total = 0u64;
    for event in room.iter().take(count as usize) {
        total = total.wrapping_add(event.first);
    }
    total
}

/// How a sender claims so many events at once, and waits for room: as the library's workers do, by one
/// `Waiting` for all claims, which is told how many events found room since it last waited.
#[derive(Drop)]
pub struct Pace {
    claim: u64,
    waiting: Waiting,
    found: u64,
}

impl Pace {
    /// Over a ring of so many slots.
    pub fn new(claim: u64, slots: u64) -> Pace {
        Pace {
            claim,
            waiting: Waiting::new(slots),
            found: 0,
        }
    }

    fn wait(&mut self) {
        if self.found > 0 {
            self.waiting.found(self.found);
            self.found = 0;
        }
        self.waiting.wait();
    }
}

/// Claims once there is room.
fn claim<E: Copy, I: Inlet<E>>(sender: &mut I, pace: &mut Pace) -> Result<Claimed, Fault> {
    for _ in 0..MOST_TURNS {
        match sender.try_claim(pace.claim) {
            Ok(claimed) => return Ok(claimed),
            Err(Trouble::Refused(Refusal::NoRoom)) => pace.wait(),
            Err(trouble) => return Err(trouble.into()),
        }
    }
    Err(Fault::NO_END)
}

/// Claims, writes and publishes once.
#[inline]
fn send<E: Made, I: Inlet<E>>(sender: &mut I, pace: &mut Pace) -> Result<(), Fault> {
    let claimed = claim::<E, I>(sender, pace)?;
    pace.found = pace.found.wrapping_add(pace.claim);
    for k in 0..pace.claim {
        let s = claimed.lo.wrapping_add(k);
        sender.write(s, E::at(s))?;
    }
    Ok(sender.publish(claimed.lo, claimed.hi)?)
}

/// How many events a stretch has, by claims of so many.
pub fn in_stretch(claim: u64) -> u64 {
    STRETCH.checked_div(claim).unwrap_or(1).wrapping_mul(claim)
}

/// Sends a stretch of events, and answers how many there were.
pub fn stretch<E: Made, I: Inlet<E>>(sender: &mut I, pace: &mut Pace) -> Result<u64, Fault> {
    let claims = STRETCH.checked_div(pace.claim).unwrap_or(1);
    for _ in 0..claims {
        send::<E, I>(sender, pace)?;
    }
    Ok(in_stretch(pace.claim))
}

/// Sends for about so long, and answers since when it did, and how many events there were.
pub fn send_for<E: Made, I: Inlet<E>>(
    clock: &impl Clock,
    sender: &mut I,
    order: &Order,
) -> Result<(Instant, u64), Fault> {
    let mut pace = Pace::new(order.claim(), order.size.get());
    let mut events = 0u64;
    let begun = Instant::now(clock)?;
    for _ in 0..MOST_TURNS {
        events = events.wrapping_add(stretch::<E, I>(sender, &mut pace)?);
        if begun.elapsed(clock)? >= order.time {
            return Ok((begun, events));
        }
    }
    Err(Fault::NO_END)
}

fn start_one<W: Works + Drop + Send + 'static>(
    rt: &impl Threads,
    mut end: W,
    claim: u64,
    slots: u64,
    workers: &mut Vec<Worker>,
) -> Result<(), Fault> {
    match thread::spawn(rt, move || end.work(claim, slots)) {
        Ok(worker) => Ok(workers.push(worker)?),
        Err(_) => Err(Fault::THREAD),
    }
}

/// Starts a thread for each end.
pub fn start<W: Works + Drop + Send + 'static>(
    rt: &impl Threads,
    alloc: Global,
    ends: Vec<W>,
    order: &Order,
) -> Result<Vec<Worker>, Fault> {
    let mut workers = Vec::new(alloc);
    for end in ends {
        start_one(rt, end, order.claim(), order.size.get(), &mut workers)?;
    }
    Ok(workers)
}

fn check_answer(answer: Result<u64, Fault>, wanted: u64) -> Result<(), Fault> {
    if answer? != wanted {
        return Err(Fault::WRONG_SUM);
    }
    Ok(())
}

/// Waits for threads, each of which is to answer so.
pub fn join(rt: &impl Threads, workers: Vec<Worker>, wanted: u64) -> Result<(), Fault> {
    for worker in workers {
        check_answer(worker.join(rt), wanted)?;
    }
    Ok(())
}

/// Ends a round of so many events, once all handlers have drained the ring.
pub fn finish(
    rt: &(impl Clock + Threads),
    handlers: Vec<Worker>,
    begun: Instant,
    events: u64,
) -> Result<Round, Fault> {
    join(rt, handlers, sum_of_first(events))?;
    let time = begun.elapsed(rt)?;
    Ok(Round { events, time })
}

fn ends(alloc: Global, order: &Order) -> Result<(Sender, Vec<Receiver>, Halter), Fault> {
    let graph = order.topology.shape.graph(alloc)?;
    match ring(alloc, &graph, order.size, MAX_LIMIT) {
        Ok(ends) => Ok(ends),
        Err(_) => Err(Fault::MEMORY),
    }
}

/// A round from the first claim until the last handler has drained the ring.
fn measured(
    rt: &(impl Clock + Threads),
    alloc: Global,
    order: &Order,
    sender: &mut Sender,
    receivers: Vec<Receiver>,
) -> Result<Round, Fault> {
    let handlers = start(rt, alloc, receivers, order)?;
    let (begun, events) = send_for::<Event, Sender>(rt, sender, order)?;
    sender.close()?;
    finish(rt, handlers, begun, events)
}

/// One round over a ring of its own.
pub fn round(rt: &(impl Clock + Threads), alloc: Global, order: &Order) -> Result<Round, Fault> {
    let (mut sender, receivers, _halter) = ends(alloc, order)?;
    measured(rt, alloc, order, &mut sender, receivers)
}
