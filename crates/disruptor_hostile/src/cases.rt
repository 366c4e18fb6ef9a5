//! The cases, by their names.

use crate::building::{tell_builder, tell_built};
use crate::core_calls::{OfCore, tell_core, tell_opened};
use crate::fault::Fault;
use crate::graphs::diamond;
use crate::in_one_call::{OfRun, tell_run};
use crate::locking::tell_locked;
use crate::parts::tell_parts;
use crate::plain_calls::{tell_plain, tell_plain_ends};
use crate::plain_rings::{ONE_SENDER, TOGETHER, TWO_SENDERS, tell_rings};
use crate::plain_senders_calls::tell_plain_senders_ends;
use crate::recording::{OfHistory, tell_history};
use crate::ring_calls::{tell_ends, tell_ring};
use crate::settling::tell_settled;
use crate::telling::Lines;
use dr_graph::Graph;
use std::alloc::Global;
use std::sync::Wait;
use std::thread::Threads;

/// What is made over a diamond of handlers.
#[derive(Clone, Copy)]
pub enum Over {
    Ring,
    /// A ring over plain memory.
    Plain,
    /// Rings over plain memory whose ends are dropped, one by one.
    PlainDropped,
    /// One with several senders, over events of which each is dropped once.
    PlainSenders,
    /// Such rings whose ends are dropped, one by one.
    PlainSendersDropped,
    /// Every call of a ring's ends.
    Ends,
    /// Every call of the ends of a ring over plain memory.
    PlainEnds,
    /// Every call of the ends of one with several senders.
    PlainSendersEnds,
    /// What brings the ends of a ring together.
    Settled,
    /// Every call of slots, rounds, a remembered count and a graph.
    Parts,
}

/// What is called.
#[derive(Clone, Copy)]
pub enum Case {
    /// Each call of a builder, refused ones among them.
    Builder,
    /// `build`, which spends its builder.
    Build,
    /// Cores of one producer and of two.
    Open,
    Core(OfCore),
    History(OfHistory),
    Over(Over),
    /// A history behind a lock: its ends, and how they come together.
    Locked,
    /// A run in one call.
    InOneCall(OfRun),
}

/// The cases, with their names on the command line.
pub const CASES: [(&str, Case); 25] = [
    ("builder", Case::Builder),
    ("build", Case::Build),
    ("open", Case::Open),
    ("record", Case::History(OfHistory::Beginning)),
    ("ring", Case::Over(Over::Ring)),
    ("plain", Case::Over(Over::Plain)),
    ("plain-dropped", Case::Over(Over::PlainDropped)),
    ("plain-senders", Case::Over(Over::PlainSenders)),
    (
        "plain-senders-dropped",
        Case::Over(Over::PlainSendersDropped),
    ),
    ("run", Case::Core(OfCore::Run)),
    ("call", Case::History(OfHistory::Calls)),
    ("audit", Case::History(OfHistory::Audits)),
    ("run-one", Case::InOneCall(OfRun::One)),
    ("run-senders", Case::InOneCall(OfRun::Several)),
    ("run-here", Case::InOneCall(OfRun::Here)),
    ("run-locked", Case::InOneCall(OfRun::Locked)),
    ("core", Case::Core(OfCore::EveryCall)),
    ("many", Case::Core(OfCore::Many)),
    ("ends", Case::Over(Over::Ends)),
    ("plain-ends", Case::Over(Over::PlainEnds)),
    ("plain-senders-ends", Case::Over(Over::PlainSendersEnds)),
    ("settled", Case::Over(Over::Settled)),
    ("kept", Case::History(OfHistory::Kept)),
    ("locked", Case::Locked),
    ("parts", Case::Over(Over::Parts)),
];

/// The case of a name, where there is one.
pub fn case_of(word: &str) -> Option<Case> {
    for (name, case) in &CASES {
        if *name == word {
            return Some(*case);
        }
    }
    None
}

fn tell_over<R: Print>(out: &Lines<R>, alloc: Global, graph: &Graph, over: Over) {
    match over {
        Over::Ring => tell_ring(out, alloc, graph),
        Over::Plain => tell_plain(out, alloc, graph),
        Over::PlainDropped => tell_rings(out, alloc, graph, &ONE_SENDER),
        Over::PlainSenders => tell_rings(out, alloc, graph, &TOGETHER),
        Over::PlainSendersDropped => tell_rings(out, alloc, graph, &TWO_SENDERS),
        Over::Ends => tell_ends(out, alloc, graph),
        Over::PlainEnds => tell_plain_ends(out, alloc, graph),
        Over::PlainSendersEnds => tell_plain_senders_ends(out, alloc, graph),
        Over::Settled => tell_settled(out, alloc, graph),
        Over::Parts => tell_parts(out, alloc, graph),
    }
}

fn tell_over_diamond<R: Print>(out: &Lines<R>, alloc: Global, over: Over) {
    match diamond(alloc) {
        Ok(graph) => tell_over(out, alloc, &graph, over),
        Err(fault) => out.end(Fault::from(fault)),
    }
}

fn tell_once<R: Print + Threads + Wait + Copy + Send + Sync + 'static>(
    out: &Lines<R>,
    alloc: Global,
    case: Case,
) {
    match case {
        Case::Builder => tell_builder(out, alloc),
        Case::Build => tell_built(out, alloc),
        Case::Open => tell_opened(out, alloc),
        Case::Core(what) => tell_core(out, alloc, what),
        Case::History(what) => tell_history(out, alloc, what),
        Case::Over(over) => tell_over_diamond(out, alloc, over),
        Case::Locked => tell_locked(out, alloc),
        Case::InOneCall(of) => tell_run(out, alloc, of),
    }
}

/// Makes the calls of a case. But for the builder's, which ends by a call that spends the builder, they are made again
/// where memory runs out: it can do so before the first line alone.
pub fn tell<R: Print + Threads + Wait + Copy + Send + Sync + 'static>(
    rt: &R,
    alloc: Global,
    case: Case,
) -> Result<(), Fault> {
    let out = Lines::new(rt);
    tell_once(&out, alloc, case);
    if !matches!(case, Case::Builder) && out.ran_out() {
        tell_once(&out, alloc, case);
    }
    out.told()
}
