//! The sequences of the last round.

ghost use Rattle.std.specs.Prelude.{◌≡◌, ◌++◌, ◌≤◌, OnOk, length, string_bytes};
ghost use Rattle.dr_show.specs.Meaning.StateText.{are_alike, begins, round_text, stage_word, stretch_text, written_text};
ghost use Rattle.dr_show.specs.Inside.Sequences.{said_of, slots_of};
ghost use Rattle.dr_show.specs.Inside.Seen.{events_text, stretches_text};

use crate::sequences::{Recents, Sequence};
use crate::texts::put_comma;
use dr_seq::Event;
use std::alloc::AllocError;

/// A ring of more slots is drawn by its stretches.
const MOST_DRAWN: u64 = 64;

fn stage_of(it: Sequence) -> &'static str
    ensures { result.now ≡ stage_word it }
{
    if it.is_published {
        "published"
    } else if it.event.is_some() {
        "written"
    } else {
        "claimed"
    }
}

// Whether two sequences are one producer's, and equally far.
fn is_like(one: Sequence, other: Sequence) -> bool
    ensures { result ≡ are_alike one other }
{
    one.producer == other.producer
        && one.is_published == other.is_published
        && one.event.is_some() == other.event.is_some()
}

// Whether a stretch begins at a sequence of a round.
fn is_first(recents: &Recents, from: u64, s: u64) -> bool
    requires { from ≤ s }
    ensures { result ≡ begins (said_of (slots_of recents.now)) from s }
{
    s == from || !is_like(recents.get(s - 1), recents.get(s))
}

fn put_stretch(page: &mut String, recents: &Recents, from: u64, s: u64) -> Result<(), AllocError>
    requires { from ≤ s }
    ensures { OnOk result (string_bytes page.new ≡ string_bytes page.old ++ stretch_text (said_of (slots_of recents.now)) from s) }
{
    if !is_first(recents, from, s) {
        return Ok(());
    }
    let it = recents.get(s);
    let producer = it.producer;
    let stage = stage_of(it);
    put_comma(page, s - from)?;
    write!(page, "[{s},{producer},\"{stage}\"]")
}

fn put_stretches(
    page: &mut String,
    recents: &Recents,
    from: u64,
    next: u64,
) -> Result<(), AllocError>
    requires { from ≤ next }
    ensures { OnOk result (string_bytes page.new ≡ string_bytes page.old ++ stretches_text (said_of (slots_of recents.now)) from next) }
{
    for s in from..next {
        put_stretch(page, recents, from, s)?;
    }
    Ok(())
}

fn put_event(page: &mut String, s: u64, event: Option<Event>) -> Result<(), AllocError>
    ensures { OnOk result (string_bytes page.new ≡ string_bytes page.old ++ written_text s event) }
{
    let Some(event) = event else {
        return Ok(());
    };
    let first = event.first;
    let second = event.second;
    if second == 0 {
        write!(page, " {s}={first}")
    } else {
        write!(page, " {s}={first}:{second}")
    }
}

fn put_events(page: &mut String, recents: &Recents, from: u64, next: u64) -> Result<(), AllocError>
    requires { from ≤ next }
    ensures { OnOk result (string_bytes page.new ≡ string_bytes page.old ++ events_text (said_of (slots_of recents.now)) from next) }
{
    for s in from..next {
        put_event(page, s, recents.get(s).event)?;
    }
    Ok(())
}

/// Puts the last claimed sequences, where so many are claimed, with the events of those that are drawn
/// one by one.
pub(crate) fn put_round(page: &mut String, recents: &Recents, next: u64) -> Result<(), AllocError>
    ensures { OnOk result (string_bytes page.new ≡ string_bytes page.old ++ round_text (said_of (slots_of recents.now)) (length (slots_of recents.now)) next) }
{
    let size = recents.size();
    let from = next.saturating_sub(size);
    let drawn = next.saturating_sub(size.min(MOST_DRAWN));
    page.push_str(",\"round\":[")?;
    put_stretches(page, recents, from, next)?;
    page.push_str("],\"events\":\"")?;
    put_events(page, recents, drawn, next)?;
    page.push_str("\"")
}
