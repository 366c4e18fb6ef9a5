//! How a file becomes a journal at rest: after a crash, or for the first time.

ghost use Rattle.std.specs.Prelude.{◌≡◌, ◌≤◌, ◌<◌, ◌+◌, ◌^◌, ◌++◌, ◌∷◌, [], List, ℕ, length, IfOk, IfErr, OnOk, IsErrOf};
ghost use Rattle.dr_journal.specs.declared.fault.JournalFault.TheVariants.{NoMemory, Failed, Full};
ghost use Rattle.dr_journal.specs.declared.fault.OpenFault.TheVariants.{NotAJournal, InUse, Journal as JournalFailed};
ghost use Rattle.dr_journal.specs.Meaning.Disk.{Only, LeavesOnly, IsUntouched};
ghost use Rattle.dr_journal.specs.Meaning.Format.{IsForeign, recovered};
ghost use Rattle.dr_journal.specs.Calls.Parts.{device_of};
ghost use Rattle.dr_journal.specs.Calls.Journals.{IsAtRest, bytes_of, records_of};
ghost use Rattle.dr_journal.specs.Calls.Opening.{StandsForTheSame};

use crate::coding::{HEADER, HEADER_LENGTH};
use crate::repair::repair;
use crate::scan::Scan;
use crate::{Device, Journal, JournalFault, OpenFault};
use std::alloc::Global;

/// Reads a journal's file piece by piece: it gives the records of each batch once that batch is whole,
/// and then makes the journal. It holds what came of one batch, however long the file is. After an
/// error it is of no more use.
#[derive(Drop)]
pub struct Recovery {
    // How many bytes of the header came.
    matched: usize,
    scan: Scan,
}

impl Recovery {
    ghost use Rattle.dr_journal.specs.Calls.Readers.{HasRead, count_of};
    ghost use Rattle.dr_journal.specs.Inside.Reading.{unsure_from};
    ghost use Rattle.dr_journal.specs.Calls.Reading.{Reads, ReadsOn, IsForeignSoFar};

    /// A reader of a file of which no byte came yet.
    pub fn new(alloc: Global) -> Recovery
        // It has read nothing of the file yet.
        ensures read { HasRead result [] }
        // Its count of bytes read is 0.
        ensures count { count_of result ≡ 0 }
    {
        Recovery {
            matched: 0,
            scan: Scan::new(alloc),
        }
    }

    // Takes the next byte.
    fn take(&mut self, byte: u8, records: &mut Vec<Vec<u8>>) -> Result<(), OpenFault>
        requires { count_of self.old < 2 ^ 63 }
        ensures read { OnOk result (Reads self.old self.new (byte ∷ []) records.old.items records.new.items) }
        ensures count { OnOk result (count_of self.new ≡ count_of self.old + 1) }
        ensures foreign { IsErrOf result NotAJournal → IsForeignSoFar self.old (byte ∷ []) }
        ensures no_memory { IsErrOf result (JournalFailed NoMemory) → (file more : List ℕ) → HasRead self.old file → IsForeign (file ++ more) → ⊥ }
        ensures stays { IfErr result (λ _. records.new.items ≡ records.old.items) }
        ensures failed { IsErrOf result (JournalFailed Failed) → ⊥ }
        ensures full { IsErrOf result (JournalFailed Full) → ⊥ }
        ensures free { IsErrOf result InUse → ⊥ }
    {
        if self.matched < HEADER_LENGTH {
            if byte != HEADER[self.matched] {
                return Err(OpenFault::NotAJournal);
            }
            self.matched += 1;
            return Ok(());
        }
        Ok(self.scan.take(byte, records)?)
    }

    /// Takes the next piece of the file, and adds the records of each batch that is whole now. An
    /// error is the first byte that no journal has there, or that memory ran out.
    pub fn feed(&mut self, piece: &[u8], records: &mut Vec<Vec<u8>>) -> Result<(), OpenFault>
        requires { count_of self.old + length piece.now < 2 ^ 63 }
        // Whatever was read before, the records are those of the batches that the piece completes.
        ensures read { OnOk result (Reads self.old self.new piece.now records.old.items records.new.items) }
        ensures count { OnOk result (count_of self.new ≡ count_of self.old + length piece.now) }
        // At an error they are some of these, in order.
        ensures some { IfErr result (λ _. ReadsOn self.old piece.now records.old.items records.new.items) }
        // What is refused is foreign whatever comes behind it, and nothing else is refused.
        ensures foreign { IsErrOf result NotAJournal → IsForeignSoFar self.old piece.now }
        ensures no_memory { IsErrOf result (JournalFailed NoMemory) → (file : List ℕ) → HasRead self.old file → IsForeign (file ++ piece.now) → ⊥ }
        ensures failed { IsErrOf result (JournalFailed Failed) → ⊥ }
        ensures full { IsErrOf result (JournalFailed Full) → ⊥ }
        ensures free { IsErrOf result InUse → ⊥ }
    {
        for byte in piece {
            self.take(*byte, records)?;
        }
        Ok(())
    }

    /// From where on a file that was written by a process before this one may be on the disk in part, in
    /// bytes: its last whole batch and what is behind it, or all of it.
    pub(crate) fn unsure_from(&self) -> usize
        requires small { count_of self.now < 2 ^ 63 }
        requires read { (file : List ℕ) × HasRead self.now file }
        ensures { (file : List ℕ) → HasRead self.now file → result ≡ unsure_from file }
    {
        if self.scan.end == 0 {
            0
        } else {
            HEADER_LENGTH + self.scan.last
        }
    }

    /// Makes the journal of a file that was read to its end: it repairs the end, or gives a new file its
    /// header. It may crash at any moment too. At `Err` the device comes back.
    ///
    /// Behind a byte that is damaged in the middle of the file nothing is read, and this overwrites what
    /// was there with zeros: of a disk that may lose bytes which it had synced, keep a copy of the file
    /// first. The calls are the write, if one is wanted, and then its sync.
    pub fn finish<D: Device>(
        self,
        alloc: Global,
        device: D,
    ) -> Result<Journal<D>, (JournalFault, D)>
        // What was read is all that the file has, and only this a crash leaves.
        requires read { HasRead self (D.seen device) }
        requires small { length (D.seen device) < 2 ^ 63 }
        requires durable { Only (D.seen device) (D.may_leave device) }
        // At `Ok` the journal is at rest.
        ensures at_rest { IfOk result (λ j. IsAtRest D.seen D.may_leave j) }
        // The journal stands for the same records as the file did.
        ensures same { IfOk result (λ j. records_of D.seen j ≡ recovered (D.seen device)) }
        // A crash at any moment leaves the same records.
        ensures any_moment { IfOk result (λ j. LeavesOnly D.moment D.left_since device (device_of j) (StandsForTheSame (D.seen device))) }
        ensures any_moment_err { IfErr result (λ e. LeavesOnly D.moment D.left_since device e.1 (StandsForTheSame (D.seen device))) }
        // It does not give up by itself, and a failure of the disk is told.
        ensures reliable { IfOk result (λ j. D.faults (device_of j) ≡ D.faults device) }
        ensures failed { IfErr result (λ e. e.0 ≡ Failed → D.faults device < D.faults e.1) }
        // It asks for memory before it writes.
        ensures no_memory { IfErr result (λ e. e.0 ≡ NoMemory → IsUntouched (D.seen device) (D.seen e.1) (D.may_leave device) (D.may_leave e.1)) }
        ensures full { IfErr result (λ e. e.0 ≡ Full → ⊥) }
    {
        let mut device = device;
        let end = HEADER_LENGTH + self.scan.end;
        let len = self.matched + self.scan.len;
        match repair(alloc, &mut device, end, len) {
            Ok(len) => Ok(Journal { device, end, len }),
            Err(fault) => Err((fault, device)),
        }
    }
}

/// Reads the records of a file, all of which is in memory, and makes the journal, as
/// [`Recovery::finish`] does. A file that is no journal is left untouched. At `Err` the device comes back.
pub fn recover<D: Device>(
    alloc: Global,
    device: D,
    bytes: &[u8],
) -> Result<(Journal<D>, Vec<Vec<u8>>), (OpenFault, D)>
    // What the file has, and only this a crash leaves: after a restart, what is read is what is on the disk.
    requires bytes { bytes.now ≡ D.seen device }
    requires small { length bytes.now < 2 ^ 63 }
    requires durable { Only (D.seen device) (D.may_leave device) }
    // At `Ok` the journal is at rest.
    ensures at_rest { IfOk result (λ r. IsAtRest D.seen D.may_leave r.0) }
    // The journal stands for what the file stood for, and these are its records, in order.
    ensures same { IfOk result (λ r. records_of D.seen r.0 ≡ recovered (D.seen device)) }
    ensures records { IfOk result (λ r. bytes_of r.1.items ≡ recovered (D.seen device)) }
    // A crash at any moment leaves the same records.
    ensures any_moment { IfOk result (λ r. LeavesOnly D.moment D.left_since device (device_of r.0) (StandsForTheSame (D.seen device))) }
    ensures any_moment_err { IfErr result (λ e. LeavesOnly D.moment D.left_since device e.1 (StandsForTheSame (D.seen device))) }
    // What is no journal, and no beginning of one, is refused, with no call on the device; nothing else is.
    ensures foreign { IsForeign (D.seen device) → IfErr result (λ e. e.0 ≡ NotAJournal) }
    ensures opened { IfOk result (λ _. IsForeign (D.seen device) → ⊥) }
    ensures untouched { IfErr result (λ e. e.0 ≡ NotAJournal → (e.1 ≡ device) × IsForeign (D.seen device)) }
    // It does not give up by itself, and a failure of the disk is told.
    ensures reliable { IfOk result (λ r. D.faults (device_of r.0) ≡ D.faults device) }
    ensures failed { IfErr result (λ e. e.0 ≡ JournalFailed Failed → D.faults device < D.faults e.1) }
    // It asks for memory before it writes: with none the file is as it was, and the call may be made again.
    ensures no_memory { IfErr result (λ e. e.0 ≡ JournalFailed NoMemory → IsUntouched (D.seen device) (D.seen e.1) (D.may_leave device) (D.may_leave e.1)) }
    ensures full { IfErr result (λ e. e.0 ≡ JournalFailed Full → ⊥) }
    ensures free { IfErr result (λ e. e.0 ≡ InUse → ⊥) }
{
    let mut recovery = Recovery::new(alloc);
    let mut records = Vec::new(alloc);
    if let Err(fault) = recovery.feed(bytes, &mut records) {
        return Err((fault, device));
    }
    match recovery.finish(alloc, device) {
        Ok(journal) => Ok((journal, records)),
        Err((fault, device)) => Err((OpenFault::Journal(fault), device)),
    }
}
