//! Rings over plain memory with several senders are made. Where memory runs out, each event of a ring is
//! dropped once.

ghost use Rattle.std.specs.Prelude.{IfOk};
ghost use Rattle.dr_plain_senders.specs.Calls.Settling.{AreAllEnds};

use crate::fault::Fault;
use crate::telling::Lines;
use dr_graph::Graph;
use dr_meaning::MAX_LIMIT;
use dr_plain_senders::{Halter, Receiver, Sender, ring, settle_all};
use dr_seq::Size;
use std::alloc::{AllocError, Global};
use std::sync::Arc;

/// All ends of a ring.
pub type Ends<T> = (Vec<Sender<T>>, Vec<Receiver<T>>, Halter<T>);

/// The ends of a ring over some events, with two senders.
pub fn opened<T: Drop>(alloc: Global, graph: &Graph, events: Vec<T>) -> Result<Ends<T>, Fault>
    ensures { IfOk result (λ ends. AreAllEnds ends.0.items ends.1.items ends.2) }
{
    let size = Size::new(events.len() as u64)?;
    Ok(ring(alloc, graph, size, MAX_LIMIT, 2, events)?)
}

/// An event that has a part in a number, in which nobody else has one but who keeps the numbers.
#[derive(Drop)]
pub struct Counted {
    number: Arc<u64>,
}

/// The numbers of four events.
pub fn four_numbers(alloc: Global) -> Result<Vec<Arc<u64>>, AllocError> {
    let mut numbers = Vec::new(alloc);
    for number in 4..8u64 {
        numbers.push(Arc::new(alloc, number)?)?;
    }
    Ok(numbers)
}

fn event_of(number: &Arc<u64>) -> Result<Counted, AllocError> {
    let number = Arc::try_clone(number)?;
    Ok(Counted { number })
}

/// An event for each number.
pub fn events_of(alloc: Global, numbers: &[Arc<u64>]) -> Result<Vec<Counted>, AllocError> {
    let mut events = Vec::new(alloc);
    for number in numbers {
        events.push(event_of(number)?)?;
    }
    Ok(events)
}

/// Whether each event was dropped once.
pub fn are_dropped(numbers: &[Arc<u64>]) -> bool {
    for number in numbers {
        if Arc::strong_count(number) != 1 {
            return false;
        }
    }
    true
}

fn opened_with(alloc: Global, graph: &Graph, numbers: &[Arc<u64>]) -> Result<Ends<Counted>, Fault>
    ensures { IfOk result (λ ends. AreAllEnds ends.0.items ends.1.items ends.2) }
{
    let events = events_of(alloc, numbers)?;
    opened(alloc, graph, events)
}

/// The ends of a ring over an event for each number. Where there is none, the events are dropped.
pub fn opened_over(
    alloc: Global,
    graph: &Graph,
    numbers: &[Arc<u64>],
) -> Result<Ends<Counted>, Fault>
    ensures { IfOk result (λ ends. AreAllEnds ends.0.items ends.1.items ends.2) }
{
    match opened_with(alloc, graph, numbers) {
        Ok(ends) => Ok(ends),
        Err(fault) => {
            if are_dropped(numbers) {
                Err(fault)
            } else {
                Err(Fault::Left)
            }
        }
    }
}

/// Changes nothing of an event.
pub fn leave(_event: &mut Counted) {}

fn tell_event<R: Print>(out: &Lines<R>, event: Option<Counted>) {
    match event {
        Some(one) => out.about("event", *one.number),
        None => out.words("no event"),
    }
}

/// Brings the ends of a ring together, uses so many of the events that come back, and drops the others.
fn tell_back<R: Print>(out: &Lines<R>, ends: Ends<Counted>, count: usize)
    requires { AreAllEnds ends.0.items ends.1.items ends.2 }
{
    let (senders, receivers, halter) = ends;
    let (settled, mut events) = settle_all(senders, receivers, halter);
    out.between(settled.claimed(), " ", settled.handlers());
    for _ in 0..count {
        tell_event(out, events.next());
    }
}

/// Makes a ring, brings its ends together, and uses so many of the events that come back.
pub fn tell_together<R: Print>(
    out: &Lines<R>,
    alloc: Global,
    graph: &Graph,
    numbers: &[Arc<u64>],
    count: usize,
) {
    match opened_over(alloc, graph, numbers) {
        Ok(ends) => tell_back(out, ends, count),
        Err(fault) => out.end(fault),
    }
}
