//! A ring over plain memory: how it is made, and the calls of its ends, none of which takes memory.

ghost use Rattle.std.specs.Prelude.{IfOk};
ghost use Rattle.dr_plain.specs.Calls.Settling.{AreAllEnds};

use crate::again::again;
use crate::by_traits::{tell_inlet, tell_outlets};
use crate::core_calls::word;
use crate::fault::Fault;
use crate::graphs::tell_graph;
use crate::taking_none::tell_memory;
use crate::telling::Lines;
use dr_graph::Graph;
use dr_meaning::MAX_LIMIT;
use dr_plain::{Halter, Receiver, Sender, Values, ring, settle_all};
use dr_seq::{Event, Size};
use std::alloc::Global;

/// All ends of a ring.
type Ends = (Sender<Event>, Vec<Receiver<Event>>, Halter<Event>);

/// The ends of a ring of four slots.
fn opened(alloc: Global, graph: &Graph) -> Result<Ends, Fault>
    ensures { IfOk result (λ ends. AreAllEnds ends.0 ends.1.items ends.2) }
{
    let size = Size::new(4)?;
    let events = vec![in alloc; Event::NONE; 4]?;
    Ok(ring(alloc, graph, size, MAX_LIMIT, events)?)
}

/// Changes an event where it lies.
pub fn make_five(event: &mut Event) {
    event.first = 5;
}

fn tell_sending<R: Print>(out: &Lines<R>, sender: &mut Sender<Event>) {
    out.value(sender.try_claim(2));
    out.value(sender.try_claim(3));
    out.value(sender.close());
    out.value(sender.write(0, word(4)));
    out.value(sender.update(1, make_five));
    out.value(sender.write(2, word(6)));
    out.value(sender.publish(1, 1));
    out.value(sender.publish(0, 1));
    out.about("looked", sender.looks() > 0);
}

fn tell_in_hand<R: Print>(out: &Lines<R>, receiver: &Receiver<Event>) {
    for event in receiver.events() {
        out.value(*event);
    }
    out.value(receiver.event(1).copied());
    out.value(receiver.event(2).copied());
}

fn tell_receiving<R: Print>(out: &Lines<R>, receiver: &mut Receiver<Event>) {
    out.value(receiver.poll(0));
    out.value(receiver.poll(1));
    out.value(receiver.poll(4));
    tell_in_hand(out, receiver);
    out.value(receiver.complete(3));
    out.value(receiver.complete(2));
    out.value(receiver.poll(4));
    out.about("looked", receiver.looks() > 0);
}

fn tell_polls<R: Print>(out: &Lines<R>, receivers: &mut [Receiver<Event>]) {
    for receiver in receivers.iter_mut() {
        out.value(receiver.poll(1));
    }
}

fn tell_calls<R: Print>(
    out: &Lines<R>,
    sender: &mut Sender<Event>,
    receivers: &mut [Receiver<Event>],
    halter: &mut Halter<Event>,
) {
    tell_sending(out, sender);
    for receiver in receivers.iter_mut() {
        tell_receiving(out, receiver);
    }
    tell_inlet(out, sender);
    tell_outlets(out, receivers);
    halter.halt();
    out.value(sender.try_claim(1));
    out.value(sender.close());
    tell_polls(out, receivers);
}

/// How far a ring came, and the events of its four cells, when its ends came together. That took no memory.
pub fn tell_back<R: Print>(
    out: &Lines<R>,
    alloc: Global,
    claimed: u64,
    handlers: usize,
    events: &mut Values<Event>,
) {
    out.between(claimed, " ", handlers);
    for _ in 0..5 {
        out.value(events.next());
    }
    tell_memory(out, alloc);
}

// Brings the ends of a ring together, and tells what came back.
fn tell_finished<R: Print>(out: &Lines<R>, alloc: Global, ends: Ends)
    requires { AreAllEnds ends.0 ends.1.items ends.2 }
{
    let (sender, receivers, halter) = ends;
    let (settled, mut events) = settle_all(sender, receivers, halter);
    let (claimed, handlers) = (settled.claimed(), settled.handlers());
    tell_back(out, alloc, claimed, handlers, &mut events);
}

/// Makes a ring, says something, and makes every call of its ends.
fn tell_ring_over<R: Print>(out: &Lines<R>, alloc: Global, graph: &Graph, says_open: bool) {
    match opened(alloc, graph) {
        Ok((mut sender, mut receivers, mut halter)) => {
            if says_open {
                out.words("open");
            }
            tell_calls(out, &mut sender, receivers.as_mut_slice(), &mut halter);
        }
        Err(fault) => out.end(fault),
    }
}

/// Makes a ring, and makes every call of its ends.
pub fn tell_plain<R: Print>(out: &Lines<R>, alloc: Global, graph: &Graph) {
    again!(out, tell_ring_over(out, alloc, graph, false));
    tell_graph(out, graph);
}

/// Every call of a ring's ends, and what brings those of another together, which are there before.
pub fn tell_plain_ends<R: Print>(out: &Lines<R>, alloc: Global, graph: &Graph) {
    match opened(alloc, graph) {
        Ok(other) => {
            tell_ring_over(out, alloc, graph, true);
            tell_finished(out, alloc, other);
        }
        Err(fault) => out.end(fault),
    }
}
