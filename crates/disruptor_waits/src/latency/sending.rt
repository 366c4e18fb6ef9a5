//! Events that are sent now and then.

use crate::clock::{await_nanos, nanos_since};
use crate::words::Order;
use dr_meaning::{Inlet, Refusal};
use dr_seq::Event;
use dr_workers::{Bell, OpenGate, Patience, Ringing, SENDER, WorkFault, produce_with};
use std::rt::Clock;
use std::sync::Wait;
use std::time::Instant;

/// A sender's end, which tells the handlers when there is no more to come.
pub trait Ends: Inlet<Event> + Drop {
    fn end(&mut self) -> Result<(), Refusal>;
}

impl Ends for dr_ring::Sender {
    fn end(&mut self) -> Result<(), Refusal> {
        self.close()
    }
}

impl Ends for dr_plain::Sender<Event> {
    fn end(&mut self) -> Result<(), Refusal> {
        self.close()
    }
}

impl Ends for dr_plain_senders::Sender<Event> {
    fn end(&mut self) -> Result<(), Refusal> {
        self.halt();
        Ok(())
    }
}

/// Sends the events, each as its time has come, and with the time at which its claim began, up to one that is refused.
fn send<R: Wait + Clock, I: Inlet<Event>, P: Patience>(
    rt: &R,
    inlet: &mut I,
    patience: &mut P,
    order: Order,
    begun: Instant,
) -> Option<WorkFault> {
    let mut due = nanos_since(rt, begun).unwrap_or(u64::MAX);
    for _ in 0..order.events {
        due = due.saturating_add(order.gap);
        let event = Event {
            first: await_nanos(rt, begun, due),
            second: 0,
        };
        let produced = produce_with(rt, inlet, &OpenGate, SENDER, &[event], 1, patience);
        if produced.fault.is_some() {
            return produced.fault;
        }
    }
    None
}

/// Sends them through an end that rings, and ends.
pub fn send_all<R: Wait + Clock, I: Ends>(
    rt: &R,
    sender: I,
    bell: &Bell,
    order: Order,
    begun: Instant,
) -> Option<WorkFault> {
    let mut inlet = Ringing::new(sender, bell);
    let mut waits = order.strategy.begin(rt, bell, 1);
    let sent = send(rt, &mut inlet, &mut waits, order, begun);
    let mut sender = inlet.into_end();
    let ended = sender.end();
    bell.ring();
    match (sent, ended) {
        (None, Err(refusal)) => Some(WorkFault::Refused(refusal)),
        (sent, _) => sent,
    }
}
