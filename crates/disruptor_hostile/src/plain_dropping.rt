//! A ring over plain memory is used, and its ends are dropped.

use crate::fault::Fault;
use crate::plain_rings::{Turn, drop_in_turn};
use crate::plain_senders_making::{Counted, events_of, leave};
use crate::telling::Lines;
use dr_graph::Graph;
use dr_meaning::MAX_LIMIT;
use dr_plain::{Halter, Receiver, Sender, ring};
use dr_seq::Size;
use std::alloc::Global;
use std::sync::Arc;

/// All ends of a ring.
type Ends = (Sender<Counted>, Vec<Receiver<Counted>>, Halter<Counted>);

/// The ends of a ring over an event for each number.
fn opened(alloc: Global, graph: &Graph, numbers: &[Arc<u64>]) -> Result<Ends, Fault> {
    let events = events_of(alloc, numbers)?;
    let size = Size::new(events.len() as u64)?;
    Ok(ring(alloc, graph, size, MAX_LIMIT, events)?)
}

fn tell_sending<R: Print>(out: &Lines<R>, sender: &mut Sender<Counted>) {
    out.value(sender.try_claim(4));
    for s in 0..3u64 {
        out.value(sender.update(s, leave));
    }
    out.value(sender.publish(0, 2));
}

/// One event is completed, one is in hand, one is lent, and the sender claimed one.
fn tell_used<R: Print>(
    out: &Lines<R>,
    sender: &mut Sender<Counted>,
    receivers: &mut [Receiver<Counted>],
) {
    tell_sending(out, sender);
    for receiver in receivers.iter_mut() {
        out.value(receiver.poll(2));
        out.value(receiver.complete(1));
    }
}

/// The ends of such a ring are used, and dropped.
pub fn tell_plain_used<R: Print>(
    out: &Lines<R>,
    alloc: Global,
    graph: &Graph,
    numbers: &[Arc<u64>],
    turn: Turn,
) {
    match opened(alloc, graph, numbers) {
        Ok((mut sender, mut receivers, halter)) => {
            tell_used(out, &mut sender, receivers.as_mut_slice());
            drop_in_turn(turn, sender, (), receivers, halter);
        }
        Err(fault) => out.end(fault),
    }
}
