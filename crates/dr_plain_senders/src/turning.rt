//! A turn of a handler at its receiver.

ghost use Rattle.std.specs.Prelude.{◌≡◌, ◌+◌, ◌^◌, ◌<◌, ◌≤◌, Ok, drop, length};
ghost use mathlib.Core.Option.{some};
ghost use lib.ListN.{get_elem?};
ghost use Rattle.dr_meaning.specs.Calls.Handling.{GoesThrough, showings};
ghost use Rattle.dr_lent.specs.Events.{events_of};
ghost use Rattle.dr_plain_senders.specs.Calls.Receiving.{CompleteCall};
ghost use Rattle.dr_plain_senders.specs.Calls.Turning.{TurnCall};

use crate::receiver::Receiver;
use dr_meaning::{InPlaceHandler, Polled, Refusal};

impl<T> Receiver<T> {
    // An event that it has in hand, where it lies.
    fn in_hand(&self, sequence: u64) -> &T
        requires low { self.now.knows.completed ≤ sequence }
        requires high { sequence < length self.now.knows.received }
        ensures { get_elem? (events_of self.now.knows.received) sequence ≡ some result.now }
    {
        self.station.read(sequence, &self.parts)
    }

    // Shows a handler the last `count` events that it took, from `first` on. Where `end` is true
    // the last one is marked.
    fn show<H: InPlaceHandler<T>>(&self, handler: &mut H, first: u64, count: u64, end: bool)
        requires low { self.now.knows.completed ≤ first }
        requires high { first + count ≡ length self.now.knows.received }
        requires fits { first + count < 2 ^ 64 }
        ensures { GoesThrough H.goes handler.old (showings (drop first (events_of self.now.knows.received)) first end) handler.new }
    {
        for k in 0..count {
            let event = self.in_hand(first + k);
            let is_last = k + 1 == count;
            handler.on_event_in_place(event, first + k, end && is_last);
        }
    }

    // Completes all below `upto`.
    fn finish_below(&mut self, upto: u64)
        requires low { self.old.knows.completed ≤ upto }
        requires high { upto ≤ length self.old.knows.received }
        ensures { CompleteCall self.old upto self.new (Ok tt) }
    {
        let Ok(()) = self.complete(upto) else {
            unreachable!()
        };
    }

    /// One turn of LMAX's batch processor over the events where they lie: a poll, each event of its
    /// batch to the handler, in order, and then the completion of all that it took. Answers other
    /// than a batch reach no handler.
    ///
    /// It is refused with `BadCount`, and changes nothing, where there is no room.
    pub fn turn<H: InPlaceHandler<T>>(
        &mut self,
        handler: &mut H,
        room: u64,
    ) -> Result<Polled, Refusal>
        // A poll; then each event of its batch goes to the handler, in order, and all are completed. Other answers reach no handler.
        ensures { TurnCall H.goes self.old room self.new result handler.old handler.new }
    {
        let _completed = &self.completed;
        let answer = self.poll(room)?;
        if let Polled::Batch { first, count, end } = answer {
            self.show(handler, first, count, end);
            self.finish_below(first + count);
        }
        Ok(answer)
    }
}
