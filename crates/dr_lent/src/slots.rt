//! What goes in and out of the slots that a seat has in hand.

ghost use Rattle.std.specs.Prelude.{◌≡◌, ◌<◌, ◌≤◌, ◌++◌, ⊤, [], ◌∷◌, length, slice_set, take, drop};
ghost use Rattle.std.specs.Bool.{MatchBool};
ghost use mathlib.Core.Option.{some};
ghost use lib.ListN.{get_elem?};
ghost use Rattle.atomic_table.specs.Table.{rest};
ghost use Rattle.dr_cells.specs.declared.token.Token.{Token as TokenValue};
ghost use Rattle.dr_cells.specs.Tokens.{no_token};
ghost use Rattle.dr_lent.specs.Slots.{is_in_hand as is_in_hand_of};

use crate::rows::put_at;
use atomic_table::{Seat, Shared, TableRule};
use dr_cells::Token;
use dr_runs::HandlerCounts;

/// Whether a handler has its part of a sequence in hand.
pub fn is_in_hand(counts: HandlerCounts, sequence: u64) -> bool
    ensures { result ≡ is_in_hand_of counts sequence }
{
    counts.completed <= sequence && sequence < counts.taken
}

/// So many slots that are first in hand go behind all others, in their order.
pub fn turn_by<S, V>(seat: &mut Seat<S, V>, count: u64)
    requires { count ≤ length seat.old.me.1 }
    ensures { (seat.new.table_id ≡ seat.old.table_id) × (seat.new.id ≡ seat.old.id) × (seat.new.me ≡ (seat.old.me.0, drop count seat.old.me.1 ++ take count seat.old.me.1)) }
{
    for turns in 0..count {
        seat.turn();
    }
}

/// What lies in the slot that is first in hand.
pub fn take_slot<T, V, K, P: TableRule<Token<T>, V, K>>(
    words: &Shared<Token<T>, V, K, P>,
    seat: &mut Seat<Token<T>, V>,
    slot: usize,
) -> Token<T>
    requires table { seat.old.table_id ≡ words.now.table_id }
    requires slot { (old : TokenValue T) × (seat.old.me.1 ≡ (slot, old) ∷ rest seat.old.me.1) }
    // It comes out of the first slot in hand, which is empty then and goes behind the others.
    ensures seat { seat.new.table_id ≡ seat.old.table_id }
    ensures taken { (seat.old.me.1 ≡ (slot, result) ∷ rest seat.old.me.1) × (seat.new.me.1 ≡ rest seat.old.me.1 ++ (slot, no_token) ∷ []) }
{
    let token = words.exchange(seat, slot, Token::blank());
    seat.turn();
    token
}

/// A handler's part of an event, out of its hand, or else out of the slot that is first in hand.
pub fn draw<T, V, K, P: TableRule<Token<T>, V, K>>(
    words: &Shared<Token<T>, V, K, P>,
    seat: &mut Seat<Token<T>, V>,
    held: bool,
    slot: usize,
    place: usize,
    parts: &mut Vec<Token<T>>,
) -> Token<T>
    requires table { seat.old.table_id ≡ words.now.table_id }
    requires place { place < length parts.old.items }
    requires slot { MatchBool held ⊤ ((old : TokenValue T) × (seat.old.me.1 ≡ (slot, old) ∷ rest seat.old.me.1)) }
    // It comes out of the hand, or else of the first slot, which is empty then and goes behind the others.
    ensures seat { seat.new.table_id ≡ seat.old.table_id }
    ensures drawn { MatchBool held ((get_elem? parts.old.items place ≡ some result) × (parts.new.items ≡ slice_set parts.old.items place no_token) × (seat.new.me.1 ≡ seat.old.me.1)) ((parts.new.items ≡ parts.old.items) × (seat.old.me.1 ≡ (slot, result) ∷ rest seat.old.me.1) × (seat.new.me.1 ≡ rest seat.old.me.1 ++ (slot, no_token) ∷ [])) }
{
    if held {
        return put_at(parts, place, Token::blank());
    }
    take_slot(words, seat, slot)
}
