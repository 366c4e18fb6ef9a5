//! The tool `drive`: a file of commands in, a line a reply out.

ghost use Rattle.std.specs.Prelude.{Bool, ◌<◌, ◌+◌, ◌-◌, ◌^◌, IfErr, IfSome, length};
ghost use Rattle.csv.specs.Records.{fields_of};
ghost use Rattle.dr_files.specs.Counting.{faults_of, inner_of};
ghost use Rattle.dr_drive.specs.Meaning.DriveText.{Phase, drive_text, taken, text_from, text_of};
ghost use Rattle.dr_files.specs.Outcome.{CountsFaults, ReadFaultKeeps, RunWrites};
ghost use Rattle.dr_records.specs.Rows.{rows_left};
ghost use Rattle.dr_drive.specs.Inside.Tells.{CommandTells, SetsUpAs, ShowsPhase};

use crate::exchange::Exchange;
use crate::fault::DriveFault;
use crate::setup::{Preparation, Prepared, missing, prepare};
use csv::ByteRecord;
use dr_files::{Counted, FileFault, read_all, write_text};
use dr_records::Rows;
use std::alloc::Global;
use std::io::{Read, Write};

// An exchange, and the number of the record that comes after those that opened it.
#[derive(Drop)]
struct Opened {
    exchange: Exchange,
    k: u64,
}

// Takes the records of the setup, and leaves those that come after it.
fn set_up(alloc: Global, rows: &mut Rows<'_>) -> Result<Opened, DriveFault>
    requires { length (rows_left rows.old) + 1 < 2 ^ 64 }
    ensures { (states : Bool) → SetsUpAs states result (rows_left rows.old) (rows_left rows.new) }
{
    let mut at = Preparation::Empty;
    let mut k: u64 = 1;
    while let Some(row) = rows.next()? {
        match prepare(alloc, at, row) {
            Ok(Prepared::Goes(next)) => at = next,
            Ok(Prepared::Opens(exchange)) => return Ok(Opened { exchange, k: k + 1 }),
            Err(fault) => return Err(fault.at(k)),
        }
        k += 1;
    }
    Err(FileFault::Input {
        k,
        cause: missing(&at),
    })
}

// Obeys one record, the k-th, and writes its line, followed by the state's where that is told.
fn command<W: Write>(
    exchange: &mut Exchange,
    k: u64,
    row: &ByteRecord,
    states: bool,
    line: &mut String,
    writer: &mut Counted<W>,
) -> Result<(), DriveFault>
    requires { faults_of writer.old < 2 ^ 64 - 1 }
    ensures bytes { (phase : Phase) → ShowsPhase exchange.old phase → CommandTells result exchange.new k (taken states phase (fields_of row.now)) (W.contents (inner_of writer.old)) (W.contents (inner_of writer.new)) }
    ensures counted { CountsFaults result 0 0 (faults_of writer.old) (faults_of writer.new) }
{
    match exchange.obey(row, states, line) {
        Ok(()) => Ok(write_text(writer, line.as_bytes())?),
        Err(fault) => Err(fault.at(k)),
    }
}

// Obeys all records that are left, the first of them being the k-th.
fn commands<W: Write>(
    alloc: Global,
    exchange: &mut Exchange,
    mut k: u64,
    rows: &mut Rows<'_>,
    states: bool,
    writer: &mut Counted<W>,
) -> Result<(), DriveFault>
    requires faults { faults_of writer.old < 2 ^ 64 - 1 }
    requires fits { k + length (rows_left rows.old) < 2 ^ 64 }
    ensures bytes { (phase : Phase) → ShowsPhase exchange.old phase → RunWrites result (W.contents (inner_of writer.old)) (W.contents (inner_of writer.new)) (text_from states k phase (rows_left rows.old)) }
    ensures counted { CountsFaults result 0 0 (faults_of writer.old) (faults_of writer.new) }
{
    let mut line = String::new(alloc);
    while let Some(row) = rows.next()? {
        command(exchange, k, row, states, &mut line, writer)?;
        k += 1;
    }
    Ok(())
}

/// Reads a file of commands to its end, and writes the line of each command, followed by the line of
/// the state after it where `states` asks for that. Records before `start` write no line. At a fault of
/// the file the lines of all earlier commands are written; out of memory those of the first ones; at a
/// failed write a beginning, whose last line may be cut.
pub fn drive_telling<R: Read, W: Write>(
    alloc: Global,
    reader: &mut Counted<R>,
    writer: &mut Counted<W>,
    states: bool,
) -> Result<(), DriveFault>
    requires reads { faults_of reader.old < 2 ^ 64 - 1 }
    requires writes { faults_of writer.old < 2 ^ 64 - 1 }
    // Where the input's bytes are known, what is written is what they say, up to the fault that is answered.
    ensures bytes { IfSome (R.remaining (inner_of reader.old)) (λ input.
        RunWrites result (W.contents (inner_of writer.old)) (W.contents (inner_of writer.new)) (text_of states input)) }
    // A failed read leaves nothing written, whether or not the input's bytes are known.
    ensures unread { IfErr result (λ e. ReadFaultKeeps e (W.contents (inner_of writer.old)) (W.contents (inner_of writer.new))) }
    // A failed read or write is answered where one failed, and nowhere else.
    ensures counted { CountsFaults result (faults_of reader.old) (faults_of reader.new) (faults_of writer.old) (faults_of writer.new) }
{
    let text = read_all(alloc, reader)?;
    let mut rows = Rows::new(alloc, text.as_slice());
    let Opened { mut exchange, k } = set_up(alloc, &mut rows)?;
    commands(alloc, &mut exchange, k, &mut rows, states, writer)
}

/// As [`drive_telling`], with the lines of the replies alone.
pub fn drive<R: Read, W: Write>(
    alloc: Global,
    reader: &mut Counted<R>,
    writer: &mut Counted<W>,
) -> Result<(), DriveFault>
    requires reads { faults_of reader.old < 2 ^ 64 - 1 }
    requires writes { faults_of writer.old < 2 ^ 64 - 1 }
    // Where the input's bytes are known, what is written is the drive text, up to the fault that is answered.
    ensures bytes { IfSome (R.remaining (inner_of reader.old)) (λ input.
        RunWrites result (W.contents (inner_of writer.old)) (W.contents (inner_of writer.new)) (drive_text input)) }
    // A failed read leaves nothing written, whether or not the input's bytes are known.
    ensures unread { IfErr result (λ e. ReadFaultKeeps e (W.contents (inner_of writer.old)) (W.contents (inner_of writer.new))) }
    // A failed read or write is answered where one failed, and nowhere else.
    ensures counted { CountsFaults result (faults_of reader.old) (faults_of reader.new) (faults_of writer.old) (faults_of writer.new) }
{
    drive_telling(alloc, reader, writer, false)
}
