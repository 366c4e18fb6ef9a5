//! The batches of a file, read byte by byte behind the header.

ghost use Rattle.std.specs.Prelude.{◌≡◌, ◌<◌, ◌+◌, ◌^◌, ◌++◌, ◌∷◌, [], List, ℕ, OnOk, OnErr, IsErrOf, true, false};
ghost use Rattle.dr_journal.specs.declared.fault.JournalFault.TheVariants.{NoMemory, Failed, Full};

use crate::JournalFault;
use crate::coding::{END_OF_BATCH, END_OF_RECORD, FOUR_LESS};
use std::alloc::Global;
use std::mem;

/// What is known of the bytes behind a header, once so many of them came.
#[derive(Drop)]
pub(crate) struct Scan {
    alloc: Global,
    // The records, and the bytes of another, of a batch whose end did not come yet.
    waiting: Vec<Vec<u8>>,
    record: Vec<u8>,
    // What is to be taken from the next byte.
    less: u8,
    // A byte 0 came: what comes behind it counts no more.
    is_over: bool,
    // How many bytes came, where the last whole batch ends, and where it begins.
    pub(crate) len: usize,
    pub(crate) end: usize,
    pub(crate) last: usize,
}

impl Scan {
    ghost use Rattle.dr_journal.specs.Inside.Reading.{HasScanned, Completes, Takes};

    pub(crate) fn new(alloc: Global) -> Scan
        ensures scanned { HasScanned result [] }
        ensures len { result.len ≡ 0 }
    {
        Scan {
            alloc,
            waiting: Vec::new(alloc),
            record: Vec::new(alloc),
            less: 0,
            is_over: false,
            len: 0,
            end: 0,
            last: 0,
        }
    }

    /// Takes the next byte, and adds the records of a batch that it ends.
    pub(crate) fn take(&mut self, byte: u8, records: &mut Vec<Vec<u8>>) -> Result<(), JournalFault>
        requires { self.old.len < 2 ^ 63 }
        ensures takes { OnOk result (Takes self.old self.new byte records.old.items records.new.items) }
        ensures len { OnOk result (self.new.len ≡ self.old.len + 1) }
        ensures err { OnErr result (records.new.items ≡ records.old.items) }
        ensures failed { IsErrOf result Failed → ⊥ }
        ensures full { IsErrOf result Full → ⊥ }
    {
        if self.is_over {
            self.len += 1;
            return Ok(());
        }
        match byte {
            0 => {
                self.len += 1;
                self.is_over = true;
                Ok(())
            }
            END_OF_BATCH => self.end_batch(records),
            code => self.push_code(code),
        }
    }

    // Takes the end of a batch.
    fn end_batch(&mut self, records: &mut Vec<Vec<u8>>) -> Result<(), JournalFault>
        requires small { self.old.len < 2 ^ 63 }
        requires going { self.old.is_over ≡ false }
        ensures takes { OnOk result (Takes self.old self.new 2 records.old.items records.new.items) }
        ensures len { OnOk result (self.new.len ≡ self.old.len + 1) }
        ensures err { OnErr result (records.new.items ≡ records.old.items) }
        ensures failed { IsErrOf result Failed → ⊥ }
        ensures full { IsErrOf result Full → ⊥ }
    {
        records.append(&mut self.waiting)?;
        self.record = Vec::new(self.alloc);
        self.less = 0;
        self.len += 1;
        self.last = self.end;
        self.end = self.len;
        Ok(())
    }

    // Takes a byte within a batch.
    fn push_code(&mut self, code: u8) -> Result<(), JournalFault>
        requires small { self.old.len < 2 ^ 63 }
        requires going { self.old.is_over ≡ false }
        requires within { (code ≡ 0 → ⊥) × (code ≡ 2 → ⊥) }
        ensures takes { (records : _) → OnOk result (Takes self.old self.new code records records) }
        ensures len { OnOk result (self.new.len ≡ self.old.len + 1) }
        ensures failed { IsErrOf result Failed → ⊥ }
        ensures full { IsErrOf result Full → ⊥ }
    {
        self.len += 1;
        match code {
            END_OF_RECORD => {
                let record = mem::replace(&mut self.record, Vec::new(self.alloc));
                self.waiting.push(record)?;
                self.less = 0;
                Ok(())
            }
            FOUR_LESS => {
                self.less = 4;
                Ok(())
            }
            own => {
                self.record.push(own.saturating_sub(self.less))?;
                self.less = 0;
                Ok(())
            }
        }
    }
}
