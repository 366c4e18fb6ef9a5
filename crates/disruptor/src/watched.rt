//! Readers and writers whose bytes a run's line on the terminal counts.

ghost use Rattle.std.specs.Prelude.{◌≡◌};
ghost use Rattle.std.specs.Io.{ReadsAtMost, WritesAtMost};
ghost use Rattle.std.specs.Io.KnownBytes.{Keeps, ReadConsumes, WriteAppends};
ghost use Rattle.disruptor.specs.Watching.{input_of, output_of};

use crate::progress::Progress;
use std::io::{self, Read, Write};

/// A run's input.
#[derive(Drop)]
pub(crate) struct Input<'a, R> {
    inner: R,
    progress: &'a Progress<'a>,
    bytes: u64,
}

impl<'a, R> Input<'a, R> {
    pub(crate) fn new(inner: R, progress: &'a Progress<'a>) -> Input<'a, R>
        ensures { input_of result ≡ inner }
    {
        Input {
            inner,
            progress,
            bytes: 0,
        }
    }
}

// It reads what is underneath, and nothing else.
impl<R: Read> Read for Input<'_, R> {
    ghost remaining = { λ c. R.remaining (input_of c) };

    fn read(&mut self, buf: &mut [u8]) -> io::Result<usize>
        ensures bound { ReadsAtMost result buf.new }
        ensures bytes { ReadConsumes (R.remaining (input_of self.old)) (R.remaining (input_of self.new)) result buf.new }
    {
        let count = self.inner.read(buf)?;
        self.bytes = self.bytes.saturating_add(count as u64);
        if count == 0 {
            self.progress.say_all(self.bytes);
        } else {
            self.progress.say("read", self.bytes);
        }
        Ok(count)
    }
}

/// A run's output, which may go to the terminal too.
#[derive(Drop)]
pub(crate) struct Output<'a, W> {
    inner: W,
    progress: &'a Progress<'a>,
    is_terminal: bool,
    bytes: u64,
}

impl<'a, W> Output<'a, W> {
    pub(crate) fn new(inner: W, progress: &'a Progress<'a>, is_terminal: bool) -> Output<'a, W>
        ensures { output_of result ≡ inner }
    {
        Output {
            inner,
            progress,
            is_terminal,
            bytes: 0,
        }
    }
}

// It writes to what is underneath, and nothing else.
impl<W: Write> Write for Output<'_, W> {
    ghost contents = { λ c. W.contents (output_of c) };

    fn write(&mut self, buf: &[u8]) -> io::Result<usize>
        ensures bound { WritesAtMost result buf.now }
        ensures bytes { WriteAppends (W.contents (output_of self.old)) (W.contents (output_of self.new)) result buf.now }
    {
        if self.is_terminal {
            self.progress.end();
        }
        let count = self.inner.write(buf)?;
        self.bytes = self.bytes.saturating_add(count as u64);
        self.progress.say("written", self.bytes);
        Ok(count)
    }

    fn flush(&mut self) -> io::Result<()>
        ensures bytes { Keeps (W.contents (output_of self.old)) (W.contents (output_of self.new)) }
    {
        self.inner.flush()
    }
}
