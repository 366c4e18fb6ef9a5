//! The handlers' threads.

use crate::clock::nanos_since;
use crate::fault::Fault;
use crate::words::Order;
use dr_meaning::{InPlaceHandler, Outlet};
use dr_seq::Event;
use dr_workers::{BATCH, Bell, OpenGate, WorkFault, serve};
use std::alloc::Global;
use std::rt::Clock;
use std::sync::{Arc, Wait};
use std::thread::{self, JoinHandle, Threads};
use std::time::Instant;

/// A handler's thread: how many nanoseconds each event took, if it notes that.
pub type Handling = JoinHandle<Result<Vec<u64>, WorkFault>>;

/// A handler that notes of each event for which it has room how long it took.
#[derive(Drop)]
struct Noting<'a, R> {
    clock: &'a R,
    begun: Instant,
    took: Vec<u64>,
}

impl<'a, R: Clock> InPlaceHandler<Event> for Noting<'a, R> {
    fn on_event_in_place(&mut self, event: &Event, s: u64, _end: bool) {
        if let Some(took) = self.took.get_mut(s as usize) {
            let now = nanos_since(self.clock, self.begun).unwrap_or(u64::MAX);
            *took = now.saturating_sub(event.first).max(1);
        }
    }
}

/// Takes what comes, until the exchange has drained.
fn handle<R: Clock + Wait, O: Outlet<Event> + Drop>(
    rt: &R,
    who: usize,
    outlet: O,
    bell: &Bell,
    order: Order,
    begun: Instant,
    took: Vec<u64>,
) -> Result<Vec<u64>, WorkFault> {
    let mut noting = Noting {
        clock: rt,
        begun,
        took,
    };
    let mut waits = order.strategy.begin(rt, bell, BATCH as u64);
    let (_outlet, fault) = serve(rt, outlet, &OpenGate, who, &mut noting, bell, &mut waits);
    match fault {
        None => Ok(noting.took),
        Some(fault) => Err(fault),
    }
}

// Starts the thread of a handler that notes so many events.
fn start_one<
    R: Threads + Clock + Wait + Copy + Send + 'static,
    O: Outlet<Event> + Drop + Send + 'static,
>(
    rt: R,
    alloc: Global,
    outlet: O,
    bell: &Arc<Bell, Global>,
    order: Order,
    begun: Instant,
    room: usize,
    started: &mut Vec<Handling>,
) -> Result<(), Fault> {
    let who = started.len();
    let took = vec![in alloc; 0u64; room]?;
    let bell = Arc::try_clone(bell)?;
    match thread::spawn(
        &rt,
        move || handle(&rt, who, outlet, &bell, order, begun, took),
    ) {
        Ok(handling) => Ok(started.push(handling)?),
        Err(_) => Err(Fault::Memory),
    }
}

/// Starts a thread for each handler, of which the last notes how long each event took since then.
pub fn start<
    R: Threads + Clock + Wait + Copy + Send + 'static,
    O: Outlet<Event> + Drop + Send + 'static,
>(
    rt: R,
    alloc: Global,
    outlets: Vec<O>,
    bell: &Arc<Bell, Global>,
    order: Order,
    begun: Instant,
) -> Result<Vec<Handling>, Fault> {
    let last = outlets.len().wrapping_sub(1);
    let mut started = Vec::new(alloc);
    for outlet in outlets {
        let room = if started.len() == last {
            order.events
        } else {
            0
        };
        start_one(rt, alloc, outlet, bell, order, begun, room, &mut started)?;
    }
    Ok(started)
}

/// Waits for all handlers, and gives what the last one noted.
pub fn noted<R: Threads>(rt: &R, alloc: Global, started: Vec<Handling>) -> Result<Vec<u64>, Fault> {
    let mut last = Vec::new(alloc);
    for (who, handling) in started.into_iter().enumerate() {
        match handling.join(rt) {
            Ok(took) => last = took,
            Err(fault) => return Err(Fault::Worker { who, fault }),
        }
    }
    Ok(last)
}
