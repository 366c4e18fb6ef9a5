//! The journal: each event's record, under its sequence.

ghost use Rattle.std.specs.Prelude.{◌≡◌, ◌+◌, ◌++◌, [], false, IfOk, OnOk, string_bytes};
ghost use Rattle.dr_accounts.specs.Handlers.{IsJournalOf, journal_text};
ghost use Rattle.dr_accounts.specs.Report.{journal_line};

use crate::heading::headed;
use dr_meaning::Handler;
use dr_operations::{Operation, push_number, push_operation};
use dr_seq::Event;
use std::alloc::{AllocError, Global};

/// A handler that writes a line for each event. Once it finds no memory it has failed, and takes no
/// more.
#[derive(Drop)]
pub struct Journal {
    lines: String,
    count: u64,
    failed: bool,
}

impl Journal {
    /// A journal that was shown nothing yet.
    pub fn new(alloc: Global) -> Journal
        // It holds what no events make, and did not fail.
        ensures empty { IsJournalOf result [] }
        ensures well { result.failed ≡ false }
    {
        Journal {
            lines: String::new(alloc),
            count: 0,
            failed: false,
        }
    }

    /// Whether it found no memory.
    pub fn is_failed(&self) -> bool
        ensures { result ≡ self.now.failed }
    {
        self.failed
    }

    // Writes the line of an event.
    fn record(&mut self, event: Event) -> Result<(), AllocError>
        ensures line { OnOk result (string_bytes self.new.lines ≡ string_bytes self.old.lines ++ journal_line self.old.count event) }
        ensures count { OnOk result (self.new.count ≡ self.old.count + 1) }
        ensures failed { self.new.failed ≡ self.old.failed }
    {
        let s = self.count;
        push_number(&mut self.lines, s)?;
        self.lines.push_str(",")?;
        push_operation(&mut self.lines, Operation::of(event))?;
        self.lines.push_str("\n")?;
        self.count = s.checked_add(1).ok_or(AllocError)?;
        Ok(())
    }

    /// The journal's part of the report.
    pub fn into_text(self, alloc: Global) -> Result<String, AllocError>
        ensures { IfOk result (λ text. string_bytes text ≡ journal_text self) }
    {
        headed(alloc, "journal", self.count, self.lines)
    }
}

impl Handler<Event> for Journal {
    ghost use Rattle.dr_accounts.specs.Handlers.{Journals};

    ghost goes = { λ old event s end new. Journals old event new };

    fn on_event(&mut self, event: Event, _s: u64, _end: bool) {
        if self.failed {
            return;
        }
        if self.record(event).is_err() {
            self.failed = true;
        }
    }
}
