//! Whether a tool would find a record of a file at fault.

ghost use Rattle.std.specs.Prelude.{◌≡◌, ◌<◌, ◌-◌, ◌^◌, ℕ, IfOk, IfSome, None, length};
ghost use Rattle.dr_files.specs.Counting.{faults_of, inner_of};
ghost use Rattle.dr_files.specs.Outcome.{RunWrites};
ghost use Rattle.dr_records.specs.Records.{records_of};
ghost use Rattle.dr_drive.specs.Meaning.DriveText.{drive_text};
ghost use Rattle.dr_accounts.specs.ReplayText.{replay_text};
ghost use Rattle.dr_operations.specs.Reading.{FileIs};
ghost use Rattle.dr_operations.specs.EventFile.{events_of as events_in};
ghost use Rattle.dr_check.specs.Verdict.{CheckCounts, Verdict, drive_cause, replay_cause};

use crate::fault::{Cause, CheckFault};
use crate::told::{drive_told, replay_told};
use dr_drive::drive;
use dr_files::{Counted, FileFault, read_all};
use dr_operations::read_events;
use dr_records::Rows;
use dr_seq::Event;
use std::alloc::{AllocError, Global};
use std::io;
use std::io::Read;

// How many records a text has.
fn count_of_records(alloc: Global, text: &[u8]) -> Result<u64, AllocError>
    requires { length text.now < 2 ^ 63 }
    ensures { IfOk result (λ count. count ≡ length (records_of text.now)) }
{
    let mut rows = Rows::new(alloc, text);
    let mut count: u64 = 0;
    while let Some(row) = rows.next()? {
        let _record = row;
        count += 1;
    }
    Ok(count)
}

// Runs `drive` over a text, whose lines go nowhere.
fn driven(alloc: Global, text: &[u8]) -> Result<(), FileFault<dr_drive::Cause>>
    ensures { RunWrites result None None (drive_text text.now) }
{
    let mut reader = Counted::new(text);
    let mut writer = Counted::new(io::sink());
    drive(alloc, &mut reader, &mut writer)
}

// Reads the events of a text, as a replay does.
fn events(alloc: Global, text: &[u8]) -> Result<Vec<Event>, FileFault<dr_operations::Cause>>
    ensures { FileIs result (events_in text.now) }
{
    let mut reader = Counted::new(text);
    read_events(alloc, &mut reader)
}

// It answers no failed read, as it counts none.
fn drive_verdict(alloc: Global, text: &[u8]) -> Result<u64, CheckFault>
    requires { length text.now < 2 ^ 63 }
    ensures verdict { Verdict drive_cause result (drive_text text.now) (records_of text.now) }
    ensures unread { (reads : ℕ) → CheckCounts result reads reads }
{
    match driven(alloc, text) {
        Ok(()) => Ok(count_of_records(alloc, text)?),
        Err(FileFault::Input { k, cause }) => {
            let told = drive_told(alloc, text, k, cause)?;
            let cause = Cause::Drive(cause);
            Err(CheckFault::Record { k, cause, told })
        }
        Err(_) => Err(CheckFault::Memory),
    }
}

// It answers no failed read, as it counts none.
fn replay_verdict(alloc: Global, text: &[u8]) -> Result<u64, CheckFault>
    requires { length text.now < 2 ^ 63 }
    ensures verdict { Verdict replay_cause result (replay_text text.now) (records_of text.now) }
    ensures unread { (reads : ℕ) → CheckCounts result reads reads }
{
    match events(alloc, text) {
        Ok(_) => Ok(count_of_records(alloc, text)?),
        Err(FileFault::Input { k, cause }) => {
            let told = replay_told(alloc, text, k)?;
            let cause = Cause::Replay(cause);
            Err(CheckFault::Record { k, cause, told })
        }
        Err(_) => Err(CheckFault::Memory),
    }
}

/// Reads a file of commands to its end, and answers how many records it has, or the fault at which
/// `drive` would end. It runs the commands, in the same time, and writes nothing.
pub fn check_drive<R: Read>(alloc: Global, reader: &mut Counted<R>) -> Result<u64, CheckFault>
    requires { faults_of reader.old < 2 ^ 64 - 1 }
    // Where the input's bytes are known, the fault is that of the drive text.
    ensures verdict { IfSome (R.remaining (inner_of reader.old)) (λ input. Verdict drive_cause result (drive_text input) (records_of input)) }
    // A failed read is answered where one failed, and nowhere else.
    ensures counted { CheckCounts result (faults_of reader.old) (faults_of reader.new) }
{
    let text = read_all(alloc, reader)?;
    drive_verdict(alloc, text.as_slice())
}

/// Reads a file of operations to its end, and answers how many records it has, or the fault at which
/// a replay would end, by whichever way.
pub fn check_replay<R: Read>(alloc: Global, reader: &mut Counted<R>) -> Result<u64, CheckFault>
    requires { faults_of reader.old < 2 ^ 64 - 1 }
    // Where the input's bytes are known, the fault is that of the file's operations.
    ensures verdict { IfSome (R.remaining (inner_of reader.old)) (λ input. Verdict replay_cause result (replay_text input) (records_of input)) }
    // A failed read is answered where one failed, and nowhere else.
    ensures counted { CheckCounts result (faults_of reader.old) (faults_of reader.new) }
{
    let text = read_all(alloc, reader)?;
    replay_verdict(alloc, text.as_slice())
}
