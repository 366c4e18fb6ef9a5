//! The calls of the ends of a ring over plain memory with several senders, none of which takes memory.

ghost use Rattle.std.specs.Prelude.{IfOk};
ghost use Rattle.dr_plain_senders.specs.Calls.Settling.{AreAllEnds};

use crate::by_traits::{tell_inlet, tell_outlets};
use crate::core_calls::word;
use crate::fault::Fault;
use crate::plain_calls::{make_five, tell_back};
use crate::plain_senders_making::{Ends, opened};
use crate::telling::Lines;
use dr_graph::Graph;
use dr_plain_senders::{Receiver, Sender, settle_all};
use dr_seq::Event;
use std::alloc::Global;

/// The ends of a ring of four slots.
fn opened_over_four(alloc: Global, graph: &Graph) -> Result<Ends<Event>, Fault>
    ensures { IfOk result (λ ends. AreAllEnds ends.0.items ends.1.items ends.2) }
{
    let events = vec![in alloc; Event::NONE; 4]?;
    opened(alloc, graph, events)
}

/// A sender sends the events of two sequences, from `lo` on.
fn tell_sending<R: Print>(out: &Lines<R>, sender: &mut Sender<Event>, lo: u64) {
    let hi = lo.wrapping_add(1);
    out.value(sender.try_claim(2));
    out.value(sender.try_claim(3));
    out.value(sender.publish(lo, lo));
    out.value(sender.write(lo, word(4)));
    out.value(sender.update(hi, make_five));
    out.value(sender.write(hi.wrapping_add(1), word(6)));
    out.value(sender.publish(lo, hi));
    out.value(sender.publish(lo, lo));
    out.about("looked", sender.looks() > 0);
}

fn tell_senders<R: Print>(out: &Lines<R>, senders: &mut [Sender<Event>]) {
    let mut lo = 0u64;
    for sender in senders.iter_mut() {
        tell_sending(out, sender, lo);
        lo = lo.wrapping_add(2);
    }
}

fn tell_inlets<R: Print>(out: &Lines<R>, senders: &mut [Sender<Event>]) {
    for sender in senders.iter_mut() {
        tell_inlet(out, sender);
    }
}

fn tell_in_hand<R: Print>(out: &Lines<R>, receiver: &Receiver<Event>) {
    for event in receiver.events() {
        out.value(*event);
    }
    out.value(receiver.event(3).copied());
    out.value(receiver.event(4).copied());
}

fn tell_receiving<R: Print>(out: &Lines<R>, receivers: &mut [Receiver<Event>]) {
    for receiver in receivers.iter_mut() {
        out.value(receiver.poll(0));
        out.value(receiver.poll(1));
        out.value(receiver.poll(8));
        tell_in_hand(out, receiver);
        out.value(receiver.complete(5));
        out.value(receiver.complete(4));
        out.value(receiver.poll(4));
        out.about("looked", receiver.looks() > 0);
    }
}

fn tell_halting<R: Print>(out: &Lines<R>, senders: &mut [Sender<Event>]) {
    for sender in senders.iter_mut() {
        out.value(sender.try_claim(1));
        sender.halt();
    }
}

fn tell_draining<R: Print>(out: &Lines<R>, receivers: &mut [Receiver<Event>]) {
    for receiver in receivers.iter_mut() {
        out.value(receiver.poll(1));
    }
}

fn tell_open_ring<R: Print>(out: &Lines<R>, alloc: Global, graph: &Graph) {
    match opened_over_four(alloc, graph) {
        Ok((mut senders, mut receivers, mut halter)) => {
            out.words("open");
            tell_senders(out, senders.as_mut_slice());
            tell_receiving(out, receivers.as_mut_slice());
            tell_inlets(out, senders.as_mut_slice());
            tell_outlets(out, receivers.as_mut_slice());
            halter.halt();
            tell_halting(out, senders.as_mut_slice());
            tell_draining(out, receivers.as_mut_slice());
        }
        Err(fault) => out.end(fault),
    }
}

// Brings the ends of a ring together, and tells what came back.
fn tell_finished<R: Print>(out: &Lines<R>, alloc: Global, ends: Ends<Event>)
    requires { AreAllEnds ends.0.items ends.1.items ends.2 }
{
    let (senders, receivers, halter) = ends;
    let (settled, mut events) = settle_all(senders, receivers, halter);
    let (claimed, handlers) = (settled.claimed(), settled.handlers());
    tell_back(out, alloc, claimed, handlers, &mut events);
}

/// Every call of a ring's ends, and what brings those of another together, which are there before.
pub fn tell_plain_senders_ends<R: Print>(out: &Lines<R>, alloc: Global, graph: &Graph) {
    match opened_over_four(alloc, graph) {
        Ok(other) => {
            tell_open_ring(out, alloc, graph);
            tell_finished(out, alloc, other);
        }
        Err(fault) => out.end(fault),
    }
}
