//! What a core shows a handler: a stretch where it lies, and a turn of its processor.

ghost use Rattle.std.specs.Prelude.{◌≡◌, ◌+◌, ◌^◌, ◌<◌, ◌≤◌, true, OnErr, drop, length, map, ◌++◌};
ghost use Rattle.std.specs.List.{range_with_len};
ghost use Rattle.dr_seq.specs.Slots.{event_at};
ghost use Rattle.dr_meaning.specs.Calls.Handling.{GoesThrough, showings};
ghost use Rattle.dr_core.specs.Calls.Turning.{TakesTurn};
ghost use Rattle.dr_meaning.specs.Calls.Replies.{polled};

use crate::engine::Core;
use dr_meaning::{Handler, InPlaceHandler, Polled, Refusal, show, show_in_place};
use dr_seq::Slots;

/// Shows the events of a stretch of sequences to a handler where they lie, and marks the last.
pub(crate) fn show_stretch<E: Copy, H: InPlaceHandler<E>>(
    handler: &mut H,
    events: &Slots<E>,
    first: u64,
    count: usize,
)
    requires round { count ≤ length events.now }
    requires fits { first + count < 2 ^ 63 }
    ensures { (d : E) → GoesThrough H.goes handler.old (showings (map (λ s. event_at d events.now s) (range_with_len first count)) first true) handler.new }
{
    let (front, back) = events.slices(first, count);
    show_in_place(handler, front, first, back.is_empty());
    show_in_place(handler, back, first + front.len() as u64, true);
}

/// One turn of LMAX's batch processor: a poll into `buf`, each event of the batch to the handler,
/// and then the batch's completion. Answers other than a batch reach no handler.
pub fn processor_turn<E: Copy, H: Handler<E>>(
    core: &mut Core<E>,
    h: usize,
    handler: &mut H,
    buf: &mut [E],
) -> Result<Polled, Refusal>
    // The machine polls, the handler is shown each event of the batch in order, and the batch is completed.
    ensures turn { TakesTurn H.goes core.old h (length buf.old) result (polled result buf.new) core.new handler.old handler.new }
    // The batch is in front in the buffer, and what lies behind it stays.
    ensures rest { buf.new ≡ polled result buf.new ++ drop (length (polled result buf.new)) buf.old }
    // A refusal leaves the core as it was.
    ensures refused { OnErr result (core.new ≡ core.old) }
{
    let answer = core.poll_into(h, buf)?;
    if let Polled::Batch { first, count, end } = answer {
        show(handler, &buf[..count as usize], first, end);
        core.complete(h, first + count)?;
    }
    Ok(answer)
}
