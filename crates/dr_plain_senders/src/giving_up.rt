//! A ring is not made, since memory ran out: the events that lie in its table come back, and are
//! dropped.

ghost use Rattle.std.specs.Prelude.{◌≡◌, ◌<◌, ◌≤◌, length, slice_set};
ghost use Rattle.dr_plain_senders.specs.Inside.Seats.{all_ends};
ghost use Rattle.dr_plain_senders.specs.Inside.Making.{StandFirst};

use crate::laws::{RingSeat, RingTable};
use dr_cells::{Strip, Token};
use dr_lent::rows::{put_at, whole_row};

// Puts a token in its place, where there is one.
fn put_inside<T>(tokens: &mut Vec<Token<T>>, place: usize, token: Token<T>)
    ensures inside { place < length tokens.old.items → tokens.new.items ≡ slice_set tokens.old.items place token }
    ensures beyond { length tokens.old.items ≤ place → tokens.new.items ≡ tokens.old.items }
{
    if place < tokens.len() {
        put_at(tokens, place, token);
    }
}

/// The tokens of the cells from the slots of a table none of whose ends has stepped, in these
/// places.
pub(crate) fn take_back<T>(
    table: RingTable<T>,
    seat: RingSeat<T>,
    mut tokens: Vec<Token<T>>,
) -> Vec<Token<T>>
    requires table { seat.table_id ≡ table.shared.table_id }
    requires fresh { seat.me.0 ≡ all_ends table.shared.key }
    requires slots { table.shared.key.size ≤ table.shared.table_id.slots }
    requires places { length tokens.items ≡ table.shared.key.size }
    ensures { StandFirst table.shared.key.strip table.shared.key.size result.items }
{
    let mut closed = table.close_with(seat);
    let mut slot = 0;
    while slot < closed.slot_count() {
        let token = closed.take(slot);
        put_inside(&mut tokens, slot, token);
        slot += 1;
    }
    closed.free();
    tokens
}

/// Closes a strip whose cells' tokens stand before all others, and drops its events.
pub(crate) fn give_up<T: Drop>(strip: Strip<T>, mut tokens: Vec<Token<T>>)
    requires { StandFirst strip.cells.ptr strip.len tokens.items }
{
    tokens.truncate(strip.len);
    let row = whole_row(strip.cells, tokens);
    drop(strip.close(row));
}
