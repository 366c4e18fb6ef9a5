//! The replica: each event's words, as a machine would take them over.

ghost use Rattle.std.specs.Prelude.{◌≡◌, ◌+◌, ◌++◌, [], false, IfOk, OnOk, string_bytes};
ghost use Rattle.dr_accounts.specs.Handlers.{IsReplicaOf, replica_text};
ghost use Rattle.dr_accounts.specs.Report.{hexadecimal, replica_line};

use crate::heading::headed;
use dr_meaning::Handler;
use dr_operations::{Movement, Operation};
use dr_seq::Event;
use hex::encode_to_slice;
use std::alloc::{AllocError, Global};

/// A handler that writes the words of each event. Once it finds no memory it has failed, and takes
/// no more.
#[derive(Drop)]
pub struct Replica {
    lines: String,
    count: u64,
    failed: bool,
}

impl Replica {
    /// A replica that was shown nothing yet.
    pub fn new(alloc: Global) -> Replica
        // It holds what no events make, and did not fail.
        ensures empty { IsReplicaOf result [] }
        ensures well { result.failed ≡ false }
    {
        Replica {
            lines: String::new(alloc),
            count: 0,
            failed: false,
        }
    }

    /// Whether it found no memory.
    pub fn is_failed(&self) -> bool
        ensures { result ≡ self.now.failed }
    {
        self.failed
    }

    // Writes the words of an event.
    fn copy(&mut self, event: Event) -> Result<(), AllocError>
        ensures line { OnOk result (string_bytes self.new.lines ≡ string_bytes self.old.lines ++ replica_line event) }
        ensures count { OnOk result (self.new.count ≡ self.old.count + 1) }
        ensures failed { self.new.failed ≡ self.old.failed }
    {
        push_word(&mut self.lines, event.first)?;
        if let Movement::Transfer { .. } = Operation::of(event).movement {
            push_word(&mut self.lines, event.second)?;
        }
        self.lines.push_str("\n")?;
        self.count = self.count.checked_add(1).ok_or(AllocError)?;
        Ok(())
    }

    /// The replica's part of the report.
    pub fn into_text(self, alloc: Global) -> Result<String, AllocError>
        ensures { IfOk result (λ text. string_bytes text ≡ replica_text self) }
    {
        headed(alloc, "replica", self.count, self.lines)
    }
}

fn push_word(line: &mut String, word: u64) -> Result<(), AllocError>
    ensures { OnOk result (string_bytes line.new ≡ string_bytes line.old ++ hexadecimal word) }
{
    let mut digits = [b'0'; 16];
    let Ok(()) = encode_to_slice(word.to_be_bytes(), &mut digits) else {
        unreachable!();
    };
    let Ok(text) = str::from_utf8(&digits) else {
        unreachable!();
    };
    line.push_str(text)
}

impl Handler<Event> for Replica {
    ghost use Rattle.dr_accounts.specs.Handlers.{Copies};

    ghost goes = { λ old event s end new. Copies old event new };

    fn on_event(&mut self, event: Event, _s: u64, _end: bool) {
        if self.failed {
            return;
        }
        if self.copy(event).is_err() {
            self.failed = true;
        }
    }
}
