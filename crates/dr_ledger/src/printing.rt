//! What a journal stands for, as an event file.

ghost use Rattle.std.specs.Prelude.{◌<◌, ◌-◌, ◌^◌, IfErr, IfOk, IfSome};
ghost use Rattle.dr_files.specs.Counting.{faults_of, inner_of};
ghost use Rattle.dr_journal.specs.Meaning.Format.{IsForeign, recovered};
ghost use Rattle.dr_ledger.specs.Printing.{CountsPrinting, Prints, PrintsNothing, TellsFile};
ghost use Rattle.dr_ledger.specs.Standing.{Say};

use crate::records::read;
use crate::{LedgerFault, StartFault};
use dr_files::{Counted, ReadFault, read_all, write_text};
use dr_journal::{MemoryDevice, recover};
use dr_operations::push_event_file;
use dr_seq::Event;
use std::alloc::Global;
use std::io::{Read, Write};

// What the bytes of a journal's file say. They are recovered in memory, so the file is only read.
fn said(alloc: Global, bytes: Vec<u8>) -> Result<Vec<Event>, StartFault>
    ensures said { IfOk result (λ events. Say (recovered bytes.items) events.items) }
    ensures journal { IfOk result (λ _. IsForeign bytes.items → ⊥) }
    ensures told { IfErr result (λ fault. TellsFile fault bytes.items) }
{
    let device = MemoryDevice::new(alloc, bytes.clone()?);
    match recover(alloc, device, &bytes) {
        Ok((_journal, records)) => Ok(read(alloc, &records)?),
        Err((fault, _device)) => Err(StartFault::Journal(fault)),
    }
}

/// Reads a journal's file to its end, and writes what it stands for as an event file, which is whole
/// before the first of it is written. A record that is no operation is told by its number.
pub fn print_journal<R: Read, W: Write>(
    alloc: Global,
    input: &mut Counted<R>,
    output: &mut Counted<W>,
) -> Result<(), StartFault>
    requires reads { faults_of input.old < 2 ^ 64 - 1 }
    requires writes { faults_of output.old < 2 ^ 64 - 1 }
    // Where the file's bytes are known, what they say is printed, or why they say nothing is told.
    ensures prints { IfSome (R.remaining (inner_of input.old)) (λ file. Prints result file (W.contents (inner_of output.old)) (W.contents (inner_of output.new))) }
    // Nothing is written, unless all is or a write fails.
    ensures nothing { IfErr result (λ fault. PrintsNothing fault (W.contents (inner_of output.old)) (W.contents (inner_of output.new))) }
    // A failed read or write is answered where one failed, and nowhere else.
    ensures counted { CountsPrinting result (faults_of input.old) (faults_of input.new) (faults_of output.old) (faults_of output.new) }
{
    let bytes = match read_all(alloc, input) {
        Ok(bytes) => bytes,
        Err(ReadFault::Memory) => return Err(StartFault::Ledger(LedgerFault::Memory)),
        Err(ReadFault::Read) => return Err(StartFault::Ledger(LedgerFault::Read)),
    };
    let events = said(alloc, bytes)?;
    let mut text = String::new(alloc);
    push_event_file(&mut text, &events)?;
    match write_text(output, text.as_bytes()) {
        Ok(()) => Ok(()),
        Err(_) => Err(StartFault::Ledger(LedgerFault::Write)),
    }
}
