//! Rings over plain memory, whose ends are brought together, or dropped, in several orders. Each of their events is dropped once.

use crate::again::again;
use crate::fault::Fault;
use crate::graphs::tell_graph;
use crate::plain_dropping::tell_plain_used;
use crate::plain_senders_dropping::tell_plain_senders_used;
use crate::plain_senders_making::{are_dropped, four_numbers, tell_together};
use crate::telling::Lines;
use dr_graph::Graph;
use std::alloc::Global;
use std::sync::Arc;

/// When the senders are dropped, among the others.
#[derive(Clone, Copy)]
pub enum Turn {
    First,
    Between,
    Last,
}

/// How a ring ends.
#[derive(Clone, Copy)]
pub enum End {
    /// Its ends are dropped, where it has one sender.
    OneSender(Turn),
    TwoSenders(Turn),
    /// The ends of one with two senders are brought together, and so many of its events are used.
    Together(usize),
}

pub const ONE_SENDER: [End; 3] = [
    End::OneSender(Turn::First),
    End::OneSender(Turn::Between),
    End::OneSender(Turn::Last),
];

pub const TWO_SENDERS: [End; 3] = [
    End::TwoSenders(Turn::First),
    End::TwoSenders(Turn::Between),
    End::TwoSenders(Turn::Last),
];

pub const TOGETHER: [End; 2] = [End::Together(4), End::Together(2)];

/// Drops the ends of a ring, one by one.
pub fn drop_in_turn<S: Drop, O: Drop, C: Drop, H: Drop>(
    turn: Turn,
    sender: S,
    others: O,
    mut receivers: Vec<C>,
    halter: H,
) {
    match turn {
        Turn::First => {
            drop(sender);
            drop(others);
            drop(receivers);
            drop(halter);
        }
        Turn::Between => {
            drop(receivers.pop());
            drop(sender);
            drop(halter);
            drop(receivers);
            drop(others);
        }
        Turn::Last => {
            drop(halter);
            drop(receivers);
            drop(sender);
            drop(others);
        }
    }
}

/// Makes a ring over an event for each number, and ends it: each event is dropped then.
fn tell_ring<R: Print>(
    out: &Lines<R>,
    alloc: Global,
    graph: &Graph,
    numbers: &[Arc<u64>],
    end: End,
) {
    match end {
        End::OneSender(turn) => tell_plain_used(out, alloc, graph, numbers, turn),
        End::TwoSenders(turn) => tell_plain_senders_used(out, alloc, graph, numbers, turn),
        End::Together(count) => tell_together(out, alloc, graph, numbers, count),
    }
    out.about("dropped", are_dropped(numbers));
}

fn tell_rings_of<R: Print>(
    out: &Lines<R>,
    alloc: Global,
    graph: &Graph,
    numbers: &[Arc<u64>],
    ends: &[End],
) {
    for end in ends {
        again!(out, tell_ring(out, alloc, graph, numbers, *end));
    }
    tell_graph(out, graph);
}

/// Makes rings, each of which ends in one of these ways.
pub fn tell_rings<R: Print>(out: &Lines<R>, alloc: Global, graph: &Graph, ends: &[End]) {
    match four_numbers(alloc) {
        Ok(numbers) => tell_rings_of(out, alloc, graph, numbers.as_slice(), ends),
        Err(_) => out.end(Fault::Memory),
    }
}
