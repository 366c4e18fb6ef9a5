//! Whole texts, read and written by loops over single calls. No call follows one that failed.

ghost use Rattle.std.specs.Prelude.{◌≡◌, ◌<◌, ◌-◌, ◌^◌, IfErr, IfOk, IfSome, OnOk, Some};
ghost use Rattle.dr_files.specs.Counting.{faults_of, inner_of};
ghost use Rattle.dr_files.specs.Faults.{read_line, write_line};
ghost use Rattle.dr_files.specs.Outcome.{ReadFaultTells, WriteTells};

use crate::counted::Counted;
use std::alloc::Global;
use std::fmt;
use std::io::{Read, Write};
use thiserror::Error;

/// Why a text is not read whole. Its text is that of the file's fault.
#[derive(Clone, Copy, Debug, PartialEq, Eq, Error)]
pub enum ReadFault {
    /// There is no memory for it.
    Memory,
    /// A read failed.
    Read,
}

impl fmt::Display for ReadFault {
    ghost output = { λ fault. Some (read_line fault) };

    fn fmt<W: fmt::Write>(&self, f: &mut fmt::Formatter<W>) -> fmt::Result {
        match self {
            ReadFault::Memory => write!(f, "no-memory"),
            ReadFault::Read => write!(f, "cannot read"),
        }
    }
}

/// A write failed. Its text is that of the file's fault.
#[derive(Clone, Copy, Debug, PartialEq, Eq, Error)]
pub struct WriteFault;

impl fmt::Display for WriteFault {
    ghost output = { λ _. Some write_line };

    fn fmt<W: fmt::Write>(&self, f: &mut fmt::Formatter<W>) -> fmt::Result {
        write!(f, "cannot write")
    }
}

/// All bytes that a reader has left, read to its end.
pub fn read_all<R: Read>(alloc: Global, reader: &mut Counted<R>) -> Result<Vec<u8>, ReadFault>
    requires { faults_of reader.old < 2 ^ 64 - 1 }
    // If the reader's bytes are known, the text is all of them.
    ensures whole { IfOk result (λ text. IfSome (R.remaining (inner_of reader.old)) (λ input. text.items ≡ input)) }
    // A failed read is answered where one read failed, and nowhere else.
    ensures none { OnOk result (faults_of reader.new ≡ faults_of reader.old) }
    ensures failed { IfErr result (λ e. ReadFaultTells e (faults_of reader.old) (faults_of reader.new)) }
{
    let mut text = Vec::new(alloc);
    let mut piece = [0u8; 16384];
    for _ in 0..u64::MAX {
        match reader.read(&mut piece) {
            Ok(0) => return Ok(text),
            Ok(count) => {
                if text.extend_from_slice(&piece[..count]).is_err() {
                    return Err(ReadFault::Memory);
                }
            }
            Err(_) => return Err(ReadFault::Read),
        }
    }
    Err(ReadFault::Memory)
}

/// Writes a text. After an error a beginning of it is written.
pub fn write_text<W: Write>(writer: &mut Counted<W>, text: &[u8]) -> Result<(), WriteFault>
    requires { faults_of writer.old < 2 ^ 64 - 1 }
    // The text is written whole; or one write failed, and a beginning of it is written.
    ensures { WriteTells result (W.contents (inner_of writer.old)) (W.contents (inner_of writer.new)) text.now (faults_of writer.old) (faults_of writer.new) }
{
    let mut at = 0;
    while at < text.len() {
        match writer.write(&text[at..]) {
            Ok(0) => return Err(WriteFault),
            Ok(count) => at += count,
            Err(_) => return Err(WriteFault),
        }
    }
    Ok(())
}
