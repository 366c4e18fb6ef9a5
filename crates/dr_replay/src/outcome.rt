//! The numbers of a replay's senders, what comes of how its workers ended, and the writing of its report.

ghost use Rattle.std.specs.Prelude.{◌≡◌, ◌<◌, ◌-◌, ◌^◌};
ghost use Rattle.dr_accounts.specs.Parts.{text_of};
ghost use Rattle.dr_files.specs.Counting.{faults_of, inner_of};
ghost use Rattle.dr_files.specs.Outcome.{WriteTells};
ghost use Rattle.dr_replay.specs.Calls.Workers.{audit_fault as audit_fault_of, lock_fault as lock_fault_of, replay_fault as fault_of};

use crate::fault::ReplayFault;
use dr_accounts::Report;
use dr_files::{Counted, FileFault, WriteFault, write_text};
use dr_lock::AuditFault;
use dr_workers::{Ended, WorkFault, WorkerFault};
use std::io::Write;

/// How a worker ended.
pub fn ended(who: usize, fault: Option<WorkFault>) -> Ended
    ensures { result ≡ record { who = who; fault = fault } }
{
    Ended { who, fault }
}

/// The fault of a worker, as the replay answers it.
pub fn replay_fault(first: WorkerFault) -> ReplayFault
    ensures { result ≡ fault_of first.who first.fault }
{
    let WorkerFault { who, fault } = first;
    match fault {
        WorkFault::Memory => ReplayFault::File(FileFault::Memory),
        _ => ReplayFault::Worker { who, fault },
    }
}

/// The fault of a worker, as the replay behind a lock answers it. Nobody halts the exchange before all
/// is sent, and nobody retires, so no worker is refused a call; where one was, the answer is `no-memory`.
pub fn lock_fault(first: WorkerFault) -> ReplayFault
    ensures { result ≡ lock_fault_of first.who first.fault }
{
    let WorkerFault { who, fault } = first;
    match fault {
        WorkFault::Stopped => ReplayFault::Worker { who, fault },
        _ => ReplayFault::File(FileFault::Memory),
    }
}

/// What an audit finds, as the replay answers it.
pub fn audit_fault(found: AuditFault) -> ReplayFault
    ensures { result ≡ audit_fault_of found }
{
    match found {
        AuditFault::NoMemory => ReplayFault::File(FileFault::Memory),
        _ => ReplayFault::Audit(found),
    }
}

/// Writes a report, one part after another. After an error a beginning of it is written.
pub fn write_report<W: Write>(writer: &mut Counted<W>, report: &Report) -> Result<(), WriteFault>
    requires { faults_of writer.old < 2 ^ 64 - 1 }
    ensures { WriteTells result (W.contents (inner_of writer.old)) (W.contents (inner_of writer.new)) (text_of report.now) (faults_of writer.old) (faults_of writer.new) }
{
    write_text(writer, report.journal.as_bytes())?;
    write_text(writer, report.replica.as_bytes())?;
    write_text(writer, report.business.as_bytes())
}
