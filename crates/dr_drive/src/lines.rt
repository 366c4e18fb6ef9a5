//! The line of each reply.

ghost use Rattle.std.specs.Prelude.{◌≡◌, ◌++◌, OnOk, codes, decimal, flat_map, string_bytes};
ghost use Rattle.dr_meaning.specs.Calls.Refusal.{name_of, number_of};
ghost use Rattle.dr_drive.specs.Meaning.Lines.{end_text as end_in, event_text as event_in, line_of as line_in};

use dr_meaning::{Refusal, Reply};
use dr_seq::Event;
use std::alloc::AllocError;

// An event after a space: its first word, and its second word where that is not 0.
fn push_event(line: &mut String, event: Event) -> Result<(), AllocError>
    ensures { OnOk result (string_bytes line.new ≡ string_bytes line.old ++ (codes " " ++ event_in event)) }
{
    let first = event.first;
    let second = event.second;
    if second == 0 {
        write!(line, " {first}")
    } else {
        write!(line, " {first}:{second}")
    }
}

fn push_events(line: &mut String, events: &[Event]) -> Result<(), AllocError>
    ensures { OnOk result (string_bytes line.new ≡ string_bytes line.old ++ flat_map (λ e. codes " " ++ event_in e) events.now) }
{
    for event in events {
        push_event(line, *event)?;
    }
    Ok(())
}

// The events of a batch, and whether they are all that the barrier offered.
fn batch_line(line: &mut String, first: u64, end: bool, events: &[Event]) -> Result<(), AllocError>
    ensures { OnOk result (string_bytes line.new ≡ string_bytes line.old ++ (codes "batch " ++ decimal first ++ codes " " ++ end_in end ++ flat_map (λ e. codes " " ++ event_in e) events.now ++ codes "\n")) }
{
    if end {
        write!(line, "batch {first} end")?;
    } else {
        write!(line, "batch {first} more")?;
    }
    push_events(line, events)?;
    line.push_str("\n")
}

fn refused_line(line: &mut String, refusal: Refusal) -> Result<(), AllocError>
    ensures { OnOk result (string_bytes line.new ≡ string_bytes line.old ++ (codes "refused " ++ decimal (number_of refusal) ++ codes " " ++ name_of refusal ++ codes "\n")) }
{
    let number = refusal.number();
    let name = refusal.name();
    writeln!(line, "refused {number} {name}")
}

/// Puts the line of a reply, with the events that came with it, in the place of another line.
/// After an error the line is of no use.
pub fn put_line(line: &mut String, reply: Reply, events: &[Event]) -> Result<(), AllocError>
    ensures { OnOk result (string_bytes line.new ≡ line_in reply events.now) }
{
    line.clear();
    match reply {
        Reply::Claimed { lo, hi } => writeln!(line, "claimed {lo} {hi}"),
        Reply::Written => line.push_str("written\n"),
        Reply::Published => line.push_str("published\n"),
        Reply::Batch { first, end, .. } => batch_line(line, first, end, events),
        Reply::Drained => line.push_str("drained\n"),
        Reply::Gating => line.push_str("gating\n"),
        Reply::Idle => line.push_str("idle\n"),
        Reply::Completed => line.push_str("completed\n"),
        Reply::Halting => line.push_str("halting\n"),
        Reply::Retired => line.push_str("retired\n"),
        Reply::Refused(refusal) => refused_line(line, refusal),
    }
}
