//! An event is written where it lies, or why it is not.

ghost use Rattle.std.specs.Prelude.{◌≡◌, ◌^◌, ◌<◌, ◌≤◌, ◌||◌, ◌&&◌, if◌then◌else◌, Err};
ghost use Rattle.dr_meaning.specs.declared.refusal.Refusal.TheVariants.{NotClaimed, AlreadyPublished};
ghost use Rattle.dr_plain_senders.specs.Calls.Writing.{WriteCall};
ghost use Rattle.dr_plain_senders.specs.Inside.Refusing.{RefusesBy};

use crate::answers::claimed_in;
use crate::laws::SenderStation;
use crate::sender::Sender;
use dr_cells::Token;
use dr_lent::rows::{put_at, write_in};
use dr_meaning::Refusal;
use std::marker::Brand;

// Why a sequence is refused that is published, or else another's or nobody's.
fn refusal_where(is_out: bool) -> Refusal
    ensures { result ≡ (if is_out then AlreadyPublished else NotClaimed) }
{
    if is_out {
        Refusal::AlreadyPublished
    } else {
        Refusal::NotClaimed
    }
}

// Whether a sequence is published, where it is claimed: its mark is there, or its cell is claimed again.
fn is_out(is_claimed: bool, is_marked: bool, is_past: bool) -> bool
    ensures { result ≡ (is_claimed && (is_marked || is_past)) }
{
    is_claimed && (is_marked || is_past)
}

impl<T> SenderStation<T> {
    /// Why a sequence is refused that the sender has not, or has published. It looks at the claim
    /// word, at the mark, and at the claim word again, since a mark alone does not tell its round.
    pub(crate) fn refusal(&mut self, sequence: u64) -> Refusal
        requires { sequence < 2 ^ 63 }
        ensures { RefusesBy self.old sequence self.new result }
    {
        let before = self.look_at_claims();
        let mark = self.look_at_mark::<Brand>(sequence);
        let after = self.look_at_claims();
        let is_marked = self.plan().marked(sequence, mark) > 0;
        let is_past = sequence + self.plan().size().get() < claimed_in(after);
        refusal_where(is_out(sequence < claimed_in(before), is_marked, is_past))
    }
}

impl<T: Drop> Sender<T> {
    /// Writes the event of a sequence that this sender claimed and has not published, in place of
    /// one that was written before, or of what lay in its cell, which is dropped.
    ///
    /// Refusals in their order: `NotClaimed` (nobody's), `AlreadyPublished`, `NotClaimed` (another
    /// sender's). They change nothing but what the sender remembers of its looks.
    pub fn write(&mut self, sequence: u64, event: T) -> Result<(), Refusal>
        // By what it has and finds it writes the event into the cell, or says why not; it stores no word.
        ensures call { WriteCall self.old sequence event self.new result }
        // A sequence of 2^62 or beyond is refused as not claimed.
        ensures beyond { 2 ^ 62 ≤ sequence → result ≡ Err NotClaimed }
    {
        if sequence >= self.station.plan().limit() {
            return Err(Refusal::NotClaimed);
        }
        if !self.owned.has(sequence) {
            return Err(self.station.refusal(sequence));
        }
        if self.owned.is_published(sequence) {
            return Err(Refusal::AlreadyPublished);
        }
        self.owned.write(sequence);
        let place = self.station.place(sequence);
        let cells = self.station.plan().cells();
        let mut token = put_at(&mut self.tokens, place, Token::blank());
        write_in(&mut token, cells, place, event);
        put_at(&mut self.tokens, place, token);
        Ok(())
    }
}
