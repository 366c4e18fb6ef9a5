//! The printed text of each fault.

use crate::checks::check;
use dr_lock::AuditFault;
use dr_meaning::Refusal;
use dr_workers::WorkFault;
use std::alloc::Global;
use std::fmt::Display;
use std::process::Abort;

fn check_text<T: Copy + Display>(rt: &impl Abort, alloc: Global, fault: T, text: &str) {
    let said = fault.to_string(alloc).expect(rt, "memory");
    check(rt, said.as_str(), text);
}

#[test]
fn faults_of_audits_and_workers(rt: HostRuntime) {
    let alloc = rt.alloc();
    let refused = WorkFault::Refused(Refusal::Halted);
    check_text(&rt, alloc, AuditFault::ScriptDiffers(7), "script-differs");
    check_text(&rt, alloc, AuditFault::NotDrained(7), "not-drained");
    check_text(&rt, alloc, AuditFault::NoMemory, "no-memory");
    check_text(&rt, alloc, WorkFault::Memory, "no-memory");
    check_text(&rt, alloc, refused, "worker-refused");
    check_text(&rt, alloc, WorkFault::Stopped, "stopped");
}
