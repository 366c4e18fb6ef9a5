//! Readers and writers that count their failed calls.

ghost use Rattle.std.specs.Prelude.{◌≡◌, ◌<◌, nat_lt};
ghost use Rattle.std.specs.Io.{ReadsAtMost, WritesAtMost};
ghost use Rattle.std.specs.Io.KnownBytes.{Keeps, ReadConsumes, WriteAppends};
ghost use Rattle.dr_files.specs.Counting.{CountsCall, CountsWrite, faults_of, inner_of, one_more};

use std::io;
use std::io::{Read, Write};

/// A reader or a writer with the number of its calls that failed, so that a tool's contract can
/// say that a fault of reading or writing is answered only where a call failed. Once a call failed
/// the one underneath is left alone: each later call, a flush too, fails at once and counts.
#[derive(Drop)]
pub struct Counted<T> {
    inner: T,
    faults: u64,
}

impl<T> Counted<T> {
    /// Wraps a reader or a writer of which no call failed yet.
    pub fn new(inner: T) -> Counted<T>
        // It has this reader or writer, of which no call failed yet.
        ensures inner { inner_of result ≡ inner }
        ensures none { faults_of result ≡ 0 }
    {
        Counted { inner, faults: 0 }
    }

    /// How many calls failed, counted up to `u64::MAX`. A write that took nothing of a piece that
    /// is not empty counts as failed.
    pub fn faults(&self) -> u64
        ensures { result ≡ faults_of self.now }
    {
        self.faults
    }

    fn has_failed(&self) -> bool
        ensures { result ≡ nat_lt 0 (faults_of self.now) }
    {
        self.faults > 0
    }

    // Counts one failed call more, and is the answer to it.
    fn fail(&mut self) -> io::Error
        ensures inner { inner_of self.new ≡ inner_of self.old }
        ensures counted { faults_of self.new ≡ one_more (faults_of self.old) }
    {
        self.faults = self.faults.saturating_add(1);
        io::Error::from(io::ErrorKind::Other)
    }

    /// The reader or writer underneath.
    pub fn into_inner(self) -> T
        ensures { result ≡ inner_of self }
    {
        self.inner
    }
}

impl<R: Read> Read for Counted<R> {
    ghost remaining = { λ c. R.remaining (inner_of c) };

    fn read(&mut self, buf: &mut [u8]) -> io::Result<usize>
        // A read gives at most as much as fits, and of known bytes the next ones.
        ensures bound { ReadsAtMost result buf.new }
        ensures bytes { ReadConsumes (R.remaining (inner_of self.old)) (R.remaining (inner_of self.new)) result buf.new }
        // One that failed counts, and once one did the reader is left alone.
        ensures counted { CountsCall result (faults_of self.old) (faults_of self.new) }
        ensures spent { 0 < faults_of self.old → inner_of self.new ≡ inner_of self.old }
    {
        if self.has_failed() {
            return Err(self.fail());
        }
        match self.inner.read(buf) {
            Ok(count) => Ok(count),
            Err(error) => {
                self.faults = self.faults.saturating_add(1);
                Err(error)
            }
        }
    }
}

impl<W: Write> Write for Counted<W> {
    ghost contents = { λ c. W.contents (inner_of c) };

    fn write(&mut self, buf: &[u8]) -> io::Result<usize>
        // A write takes at most the piece, and adds what it takes to known contents.
        ensures bound { WritesAtMost result buf.now }
        ensures bytes { WriteAppends (W.contents (inner_of self.old)) (W.contents (inner_of self.new)) result buf.now }
        // One that failed, or took nothing of a piece, counts, and once one did the writer is left alone.
        ensures counted { CountsWrite result buf.now (faults_of self.old) (faults_of self.new) }
        ensures spent { 0 < faults_of self.old → inner_of self.new ≡ inner_of self.old }
    {
        if self.has_failed() {
            return Err(self.fail());
        }
        match self.inner.write(buf) {
            Ok(count) => {
                if count == 0 && !buf.is_empty() {
                    self.faults = self.faults.saturating_add(1);
                }
                Ok(count)
            }
            Err(error) => {
                self.faults = self.faults.saturating_add(1);
                Err(error)
            }
        }
    }

    fn flush(&mut self) -> io::Result<()>
        // A flush writes nothing more. One that failed counts, and once one did the writer is left alone.
        ensures bytes { Keeps (W.contents (inner_of self.old)) (W.contents (inner_of self.new)) }
        ensures counted { CountsCall result (faults_of self.old) (faults_of self.new) }
        ensures spent { 0 < faults_of self.old → inner_of self.new ≡ inner_of self.old }
    {
        if self.has_failed() {
            return Err(self.fail());
        }
        match self.inner.flush() {
            Ok(()) => Ok(()),
            Err(error) => {
                self.faults = self.faults.saturating_add(1);
                Err(error)
            }
        }
    }
}
