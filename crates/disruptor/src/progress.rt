//! How far a long run is, shown on a terminal.

use std::cell::Cell;
use std::io::IsTerminal;
use std::time::{Duration, Instant};

// So many seconds a run goes on without a line, and so long one stands.
const PAUSE: u64 = 1;

/// A line on standard error that says what a run has done so far, written over again and again. It comes
/// after a second, and only where standard error is a terminal.
#[derive(Drop)]
pub(crate) struct Progress<'a> {
    to: &'a HostRuntime,
    // When the line was written, or the run began. Nothing where there is to be no line.
    since: Cell<Option<Instant>>,
    is_shown: Cell<bool>,
}

impl<'a> Progress<'a> {
    pub(crate) fn new(to: &'a HostRuntime, is_wanted: bool) -> Progress<'a> {
        let since = if is_wanted && to.stderr().is_terminal() {
            Instant::now(to).ok()
        } else {
            None
        };
        Progress {
            to,
            since: Cell::new(since),
            is_shown: Cell::new(false),
        }
    }

    // Where a line cannot be written, the run goes on without it.
    fn show(&self, done: &str, bytes: u64, what: &str) {
        let megabytes = bytes / 1_000_000;
        let _shown = self
            .to
            .eprint(format_args!("\r{done} {megabytes} MB{what:14}"));
        self.is_shown.set(true);
    }

    /// Says how much was read or written, where the last line has stood long enough.
    pub(crate) fn say(&self, done: &str, bytes: u64) {
        let (Some(since), Ok(now)) = (self.since.get(), Instant::now(self.to)) else {
            return;
        };
        if now.duration_since(since) >= Duration::from_secs(PAUSE) {
            self.show(done, bytes, "");
            self.since.set(Some(now));
        }
    }

    /// Says that all is read, where there is a line.
    pub(crate) fn say_all(&self, bytes: u64) {
        if self.is_shown.get() {
            self.show("read", bytes, ", replaying");
        }
    }

    /// Takes the line away, before anything else comes to the terminal.
    pub(crate) fn clear(&self) {
        if self.is_shown.replace(false) {
            let _cleared = self.to.eprint(format_args!("\r{:40}\r", ""));
        }
    }

    /// Takes the line away for good.
    pub(crate) fn end(&self) {
        self.since.set(None);
        self.clear();
    }
}
