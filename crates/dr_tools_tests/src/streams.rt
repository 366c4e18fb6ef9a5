//! A reader and a writer that fail at their k-th call, and count their calls.

use crate::ways::Failed;
use dr_files::{Counted, FileFault};
use dr_replay::ReplayFault;
use std::alloc::Global;
use std::io;
use std::io::{Read, Write};

/// A reader that fails at its k-th call, and gives at most sixteen bytes a call.
#[derive(Drop)]
pub struct Failing<'a> {
    pub left: &'a [u8],
    pub calls: u64,
    pub fails_at: u64,
}

impl<'a> Read for Failing<'a> {
    fn read(&mut self, buf: &mut [u8]) -> io::Result<usize> {
        self.calls = self.calls.saturating_add(1);
        if self.calls == self.fails_at {
            return Err(io::Error::from(io::ErrorKind::Other));
        }
        let end = buf.len().min(16);
        self.left.read(&mut buf[..end])
    }
}

/// A writer that takes so many bytes a call, and fails or takes nothing at its k-th call. A flush is a call too.
#[derive(Drop)]
pub struct Slow {
    pub taken: Vec<u8>,
    pub at_once: usize,
    pub calls: u64,
    pub fails_at: u64,
    pub takes_nothing: bool,
}

impl Write for Slow {
    fn write(&mut self, buf: &[u8]) -> io::Result<usize> {
        self.calls = self.calls.saturating_add(1);
        if self.calls == self.fails_at {
            if self.takes_nothing {
                return Ok(0);
            }
            return Err(io::Error::from(io::ErrorKind::Other));
        }
        let end = buf.len().min(self.at_once);
        self.taken.write(&buf[..end])
    }

    fn flush(&mut self) -> io::Result<()> {
        self.calls = self.calls.saturating_add(1);
        if self.calls == self.fails_at {
            return Err(io::Error::from(io::ErrorKind::Other));
        }
        Ok(())
    }
}

/// A reader of a text that fails at its k-th call.
pub fn failing_at(input: &str, fails_at: u64) -> Failing<'_> {
    Failing {
        left: input.as_bytes(),
        calls: 0,
        fails_at,
    }
}

/// A writer that takes a byte a call, and fails at its k-th call, or takes nothing there.
pub fn slow_at(alloc: Global, fails_at: u64, takes_nothing: bool) -> Slow {
    Slow {
        taken: Vec::new(alloc),
        at_once: 1,
        calls: 0,
        fails_at,
        takes_nothing,
    }
}

/// A writer that takes whole pieces, and fails at its k-th call.
pub fn whole_at(alloc: Global, fails_at: u64) -> Slow {
    Slow {
        taken: Vec::new(alloc),
        at_once: usize::MAX,
        calls: 0,
        fails_at,
        takes_nothing: false,
    }
}

/// Flushes and writes after a failure, of which the writer underneath must hear nothing, and gives
/// that one: none where a call was not answered with a failure.
pub fn call_on(mut writer: Counted<Slow>) -> Option<Slow> {
    let fails = writer.flush().is_err()
        && writer.write(b"x".as_slice()).is_err()
        && writer.write(b"".as_slice()).is_err();
    if fails && writer.faults() == 4 {
        Some(writer.into_inner())
    } else {
        None
    }
}

/// Whether a run met its reader's failure.
pub fn is_read(ended: &Result<(), Failed>) -> bool {
    matches!(
        ended,
        Err(Failed::Drive(FileFault::Read) | Failed::Replay(ReplayFault::File(FileFault::Read)))
    )
}

/// Whether a run met its writer's failure.
fn is_write(ended: &Result<(), Failed>) -> bool {
    matches!(
        ended,
        Err(Failed::Drive(FileFault::Write) | Failed::Replay(ReplayFault::File(FileFault::Write)))
    )
}

// Whether a writer that failed took all bytes before its failure, and was called no more.
fn stopped_there(slow: &Slow, whole: &[u8]) -> bool {
    slow.calls == slow.fails_at
        && slow.fails_at <= whole.len() as u64
        && whole.starts_with(slow.taken.as_slice())
        && slow.taken.len() as u64 == slow.fails_at.saturating_sub(1)
}

/// Whether a run that writes this text ended as it is to. If it met the writer's failure, the writer took all bytes before
/// that, and was called no more; if not, all.
pub fn ends_as(ended: &Result<(), Failed>, writer: Counted<Slow>, whole: &[u8]) -> bool {
    if writer.faults() == 0 {
        let slow = writer.into_inner();
        return ended.is_ok()
            && slow.taken.as_slice() == whole
            && slow.fails_at > whole.len() as u64;
    }
    match call_on(writer) {
        Some(slow) => is_write(ended) && stopped_there(&slow, whole),
        None => false,
    }
}

/// Whether a writer that takes whole pieces, and fails at its k-th call, took these bytes and was called so often. A run that
/// `is_whole` ended well, and meets the failure when it is flushed once more.
pub fn is_left_whole(
    ended: &Result<(), Failed>,
    mut writer: Counted<Slow>,
    taken: &[u8],
    is_whole: bool,
) -> bool {
    if ended.is_ok() != is_whole || is_write(ended) == is_whole {
        return false;
    }
    if is_whole && writer.flush().is_ok() {
        return false;
    }
    match call_on(writer) {
        Some(slow) => slow.calls == slow.fails_at && slow.taken.as_slice() == taken,
        None => false,
    }
}

/// Whether a reader failed once, if a run met its failure, and was then called no more; and else not at all. However it is
/// called on, the next call is answered with a failure too.
pub fn is_left(mut reader: Counted<Failing<'_>>, meets: bool) -> bool {
    if !meets {
        return reader.faults() == 0;
    }
    let mut buf = [0u8; 4];
    let failed_once = reader.faults() == 1;
    let fails_on = reader.read(&mut buf).is_err() && reader.faults() == 2;
    let failing = reader.into_inner();
    failed_once && fails_on && failing.calls == failing.fails_at
}
