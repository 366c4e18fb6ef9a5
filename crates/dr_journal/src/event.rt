//! The record of an event of two words: sixteen bytes, of each word the least first.

ghost use Rattle.std.specs.Prelude.{◌≡◌};
ghost use Rattle.dr_journal.specs.Calls.Records.{event_record, event_in};
ghost use Rattle.dr_seq.specs.declared.event.Event.{Event};

use crate::AsRecord;
use dr_seq::Event;
use std::alloc::{AllocError, Global};

impl AsRecord for Event {
    ghost Value = { Event };

    ghost value = { λ event. event };

    ghost record_of = { event_record };

    ghost value_in = { event_in };

    fn push_record(&self, out: &mut Vec<u8>) -> Result<(), AllocError> {
        out.extend_from_slice(&self.first.to_le_bytes())?;
        out.extend_from_slice(&self.second.to_le_bytes())
    }

    fn from_record(_alloc: Global, bytes: &[u8]) -> Result<Option<Event>, AllocError> {
        let [a, b, c, d, e, f, g, h, i, j, k, l, m, n, o, p] = bytes else {
            return Ok(None);
        };
        Ok(Some(Event {
            first: u64::from_le_bytes([*a, *b, *c, *d, *e, *f, *g, *h]),
            second: u64::from_le_bytes([*i, *j, *k, *l, *m, *n, *o, *p]),
        }))
    }
}
