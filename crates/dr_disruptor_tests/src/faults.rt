//! The printed text of each fault of a run in one call.

use crate::checks::check;
use dr_disruptor::RunFault;
use dr_disruptor_lock::{HistoryFault, LockedFault};
use dr_graph::GraphFault;
use dr_lock::AuditFault;
use dr_meaning::Refusal;
use dr_seq::Size;
use dr_workers::WorkFault;
use std::alloc::Global;
use std::fmt::Display;
use std::process::Abort;

fn check_text<T: Display + Drop>(rt: &impl Abort, alloc: Global, fault: T, text: &str) {
    let said = fault.to_string(alloc).expect(rt, "memory");
    check(rt, said.as_str(), text);
}

#[test]
fn why_there_was_no_run(rt: HostRuntime) {
    let graph = RunFault::Graph(GraphFault::NoHandlers);
    check_text(&rt, rt.alloc(), graph, "the graph: no-handlers");
    let size = RunFault::Size(Size::new(3).err().expect(&rt, "a fault"));
    check_text(&rt, rt.alloc(), size, "the size: bad-size");
    let senders = RunFault::Senders { given: 17 };
    let text = "a run has 1 to 16 senders, and 17 were asked for";
    check_text(&rt, rt.alloc(), senders, text);
    let memory = RunFault::Memory;
    check_text(&rt, rt.alloc(), memory, "no memory, or no thread");
    let refused = RunFault::Refused(Refusal::Halted);
    check_text(&rt, rt.alloc(), refused, "a sender: halted");
}

#[test]
fn why_a_run_behind_a_lock_did_not_do_all(rt: HostRuntime) {
    let memory = LockedFault::Run(RunFault::Memory);
    check_text(&rt, rt.alloc(), memory, "no memory, or no thread");
    let fault = WorkFault::Refused(Refusal::Halted);
    let worker = LockedFault::Worker { who: 16, fault };
    check_text(&rt, rt.alloc(), worker, "worker 16: worker-refused");
    let audit = HistoryFault::Audit(AuditFault::NotDrained(1));
    let history = LockedFault::History(audit);
    check_text(&rt, rt.alloc(), history, "the history: not-drained");
    let shown = HistoryFault::Shown(1);
    check_text(&rt, rt.alloc(), shown, "handler 1 was shown other events");
}
