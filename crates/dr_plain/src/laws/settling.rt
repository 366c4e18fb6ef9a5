//! How seats come together, at the end, and one of them takes all that lies in the slots. No step of
//! these changes a word or a record.

ghost use Rattle.std.specs.Prelude.{◌≡◌, ◌<◌, ◌++◌, List};
ghost use Rattle.dr_runs.specs.Seats.{both_views};
ghost use Rattle.dr_runs.specs.Gathering.{ViewRan};
ghost use Rattle.dr_plain.specs.Meaning.Shape.{Shape};
ghost use Rattle.dr_plain.specs.Calls.Ends.{SenderEnd, ReceiverEnd, HalterEnd};
ghost use Rattle.dr_plain.specs.Inside.Seats.{exchange};
ghost use Rattle.dr_plain.specs.Inside.Finishing.{HasAllEnds, TookAll, left_of};

use super::{RingSeat, Words};
use crate::record::View;
use atomic_table::Play;
use dr_cells::Token;
use dr_runs::{CURSOR_WORD, Leave, Together};
use std::marker::{Brand, PhantomData};

/// What the ring of a seat is made for, for a proof alone.
pub trait Plans {
    ghost plan: { Shape };

    ghost use Rattle.dr_plain.specs.Meaning.Shape.{Shape};
}

impl Plans for Brand {
    ghost use Rattle.dr_plain.specs.Inside.Seats.{no_shape};

    ghost plan = { no_shape };
}

/// A load by which its seat takes each part that lies in a slot of the events that still lie lent in
/// their cells, and stands for no end any more. It tells which run came to what the ends knew.
pub struct TakesAll<J> {
    plan: PhantomData<J>,
}

impl<T, J: Plans> Play<Token<T>, View<T>> for TakesAll<J> {
    ghost then = { λ s me n me'. TookAll J.plan me n me' };
}

/// A seat takes in what another stands for. What slots that other has in hand stay in no seat.
pub fn unite<T>(words: &Words<T>, seat: &mut RingSeat<T>, mut other: RingSeat<T>)
    requires table { (seat.old.table_id ≡ words.now.table_id) × (other.table_id ≡ words.now.table_id) × (0 < words.now.table_id.words) }
    // The seat stays this seat, and stands for the ends of both.
    ensures seat { (seat.new.table_id ≡ seat.old.table_id) × (seat.new.id ≡ seat.old.id) }
    ensures view { seat.new.me ≡ (both_views seat.old.me.0 other.me.0, seat.old.me.1) }
{
    let view = words.split_seat::<Leave>(&mut other);
    words.join_seat::<Together>(seat, view);
}

/// The seat that stands for all ends ends the ring: it takes each part that lies in a slot, and
/// stands for no end any more. One run came to what the ends knew. It costs one load, whose value says
/// nothing.
pub fn take_all<T, J: Plans>(words: &Words<T>, seat: &mut RingSeat<T>)
    requires table { (seat.old.table_id ≡ words.now.table_id) × (0 < words.now.table_id.words) }
    requires plan { words.now.key ≡ J.plan }
    requires ends { (s : SenderEnd T) × (es : List (ReceiverEnd T)) × (t : HalterEnd T) × HasAllEnds seat.old.me.0 s es t }
    // The seat stays one of this ring.
    ensures seat { seat.new.table_id ≡ seat.old.table_id }
    // One run came to what all ends know that the seat stands for.
    ensures ran { ViewRan (exchange J.plan) seat.old.me.0 }
    // What lay in the slots is in hand, before what was there.
    ensures hand { (s : SenderEnd T) (es : List (ReceiverEnd T)) (t : HalterEnd T) → HasAllEnds seat.old.me.0 s es t → seat.new.me.1 ≡ left_of s es ++ seat.old.me.1 }
{
    words.load::<TakesAll<J>>(seat, CURSOR_WORD);
}
