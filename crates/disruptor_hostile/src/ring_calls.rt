//! Making a ring.

ghost use Rattle.std.specs.Prelude.{IfOk};
ghost use Rattle.dr_ring.specs.Calls.Settling.{AreAllEnds};

use crate::again::again;
use crate::core_calls::word;
use crate::fault::Fault;
use crate::graphs::tell_graph;
use crate::taking_none::tell_every_call;
use crate::telling::Lines;
use dr_graph::Graph;
use dr_meaning::MAX_LIMIT;
use dr_ring::{Halter, Receiver, Sender, ring};
use dr_seq::{Event, Size};
use std::alloc::Global;

/// All ends of a ring.
pub type Ends = (Sender, Vec<Receiver>, Halter);

/// The ends of a ring of four slots.
pub fn opened(alloc: Global, graph: &Graph) -> Result<Ends, Fault>
    ensures { IfOk result (λ ends. AreAllEnds ends.0 ends.1.items ends.2) }
{
    let size = Size::new(4)?;
    Ok(ring(alloc, graph, size, MAX_LIMIT)?)
}

fn send<R: Print>(out: &Lines<R>, sender: &mut Sender) {
    out.given(sender.try_claim(2));
    out.done(sender.write(0, word(4)));
    out.done(sender.write(1, word(5)));
    out.done(sender.publish(0, 1));
}

fn receive_all<R: Print>(out: &Lines<R>, receivers: &mut [Receiver]) {
    let mut events = [Event::NONE; 4];
    for receiver in receivers.iter_mut() {
        let polled = receiver.poll_into(&mut events);
        out.given_with(polled, events);
        out.done(receiver.complete(2));
    }
}

/// Tells what each receiver is given.
pub fn tell_polls<R: Print>(out: &Lines<R>, receivers: &mut [Receiver]) {
    for receiver in receivers.iter_mut() {
        out.value(receiver.poll_into(&mut [Event::NONE]));
    }
}

fn send_and_close<R: Print>(
    out: &Lines<R>,
    sender: &mut Sender,
    receivers: &mut [Receiver],
    halter: &mut Halter,
) {
    send(out, sender);
    receive_all(out, receivers);
    halter.halt();
    out.value(sender.try_claim(1));
    out.done(sender.close());
    tell_polls(out, receivers);
}

fn tell_ends_of<R: Print>(
    out: &Lines<R>,
    alloc: Global,
    sender: &mut Sender,
    receivers: &mut [Receiver],
    halter: &mut Halter,
    is_every_call: bool,
) {
    if is_every_call {
        tell_every_call(out, alloc, sender, receivers, halter);
    } else {
        send_and_close(out, sender, receivers, halter);
    }
}

fn tell_opened<R: Print>(out: &Lines<R>, alloc: Global, graph: &Graph, is_every_call: bool) {
    match opened(alloc, graph) {
        Ok((mut sender, mut receivers, mut halter)) => {
            let receivers = receivers.as_mut_slice();
            tell_ends_of(
                out,
                alloc,
                &mut sender,
                receivers,
                &mut halter,
                is_every_call,
            );
        }
        Err(fault) => out.end(fault),
    }
}

/// Makes a ring, sends two events through it, and closes.
pub fn tell_ring<R: Print>(out: &Lines<R>, alloc: Global, graph: &Graph) {
    again!(out, tell_opened(out, alloc, graph, false));
    tell_graph(out, graph);
}

/// Every call of a ring's ends.
pub fn tell_ends<R: Print>(out: &Lines<R>, alloc: Global, graph: &Graph) {
    tell_opened(out, alloc, graph, true);
}
