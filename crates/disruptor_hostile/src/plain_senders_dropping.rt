//! A ring over plain memory with several senders is used, and its ends are dropped.

use crate::plain_rings::{Turn, drop_in_turn};
use crate::plain_senders_making::{Counted, leave, opened_over};
use crate::telling::Lines;
use dr_graph::Graph;
use dr_plain_senders::{Receiver, Sender};
use std::alloc::Global;
use std::sync::Arc;

/// A sender claims two sequences, from `lo` on, and publishes those up to `last`.
fn tell_sending<R: Print>(out: &Lines<R>, sender: &mut Sender<Counted>, lo: u64, last: u64) {
    out.value(sender.try_claim(2));
    out.value(sender.update(lo, leave));
    out.value(sender.update(last, leave));
    out.value(sender.publish(lo, last));
}

/// The first sender publishes both of its sequences, and the second the first alone.
fn tell_senders<R: Print>(out: &Lines<R>, senders: &mut [Sender<Counted>]) {
    let mut lo = 0u64;
    for sender in senders.iter_mut() {
        tell_sending(out, sender, lo, lo.max(1));
        lo = lo.wrapping_add(2);
    }
}

/// One event is completed, one is in hand, one is lent, and a sender claimed one.
fn tell_receivers<R: Print>(out: &Lines<R>, receivers: &mut [Receiver<Counted>]) {
    for receiver in receivers.iter_mut() {
        out.value(receiver.poll(2));
        out.value(receiver.complete(1));
    }
}

/// The ends of such a ring are used, and dropped.
pub fn tell_plain_senders_used<R: Print>(
    out: &Lines<R>,
    alloc: Global,
    graph: &Graph,
    numbers: &[Arc<u64>],
    turn: Turn,
) {
    match opened_over(alloc, graph, numbers) {
        Ok((mut senders, mut receivers, halter)) => {
            tell_senders(out, senders.as_mut_slice());
            tell_receivers(out, receivers.as_mut_slice());
            let one = senders.pop();
            drop_in_turn(turn, one, senders, receivers, halter);
        }
        Err(fault) => out.end(fault),
    }
}
