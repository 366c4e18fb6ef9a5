//! How seats come together, at the end. No step of these changes a word or a record.

ghost use Rattle.std.specs.Prelude.{◌≡◌, [], ◌<◌};
ghost use Rattle.dr_runs.specs.Seats.{both_views};
ghost use Rattle.dr_runs.specs.Gathering.{ViewRan};
ghost use Rattle.dr_ring.specs.Inside.Seats.{exchange};

use super::{RingSeat, Words};
use dr_runs::{CURSOR_WORD, Together};
use std::marker::Brand;

/// A seat takes in what another stands for.
pub fn unite(words: &Words, seat: &mut RingSeat, other: RingSeat)
    requires table { (seat.old.table_id ≡ words.now.table_id) × (other.table_id ≡ words.now.table_id) × (0 < words.now.table_id.words) }
    requires other { other.me.1 ≡ [] }
    // The seat stays this seat, and stands for the ends of both.
    ensures seat { (seat.new.table_id ≡ seat.old.table_id) × (seat.new.id ≡ seat.old.id) }
    ensures view { seat.new.me ≡ (both_views seat.old.me.0 other.me.0, seat.old.me.1) }
{
    words.join_seat::<Together>(seat, other);
}

/// One run came to what the ends that a seat stands for know. It costs one load, whose value says
/// nothing.
pub fn compare(words: &Words, seat: &mut RingSeat)
    requires table { (seat.old.table_id ≡ words.now.table_id) × (0 < words.now.table_id.words) }
    // The seat stays as it was.
    ensures seat { (seat.new.table_id ≡ seat.old.table_id) × (seat.new.me ≡ seat.old.me) }
    // One run came to what all ends know that the seat stands for.
    ensures ran { ViewRan (exchange words.now.key) seat.old.me.0 }
{
    words.load::<Brand>(seat, CURSOR_WORD);
}
