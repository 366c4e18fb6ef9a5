//! What lies in the slots, and the parts that handlers have in hand, come back: so every cell that
//! no sender has is whole again.

ghost use Rattle.std.specs.Prelude.{◌≡◌, ◌+◌, ◌-◌, ◌<◌, ◌≤◌, ◌^◌, ◌++◌, ⊤, List, Option, length, slice_set, map};
ghost use Rattle.std.specs.Bool.{MatchBool};
ghost use Rattle.dr_cells.specs.declared.token.Token.{Token as TokenValue};
ghost use Rattle.dr_cells.specs.Hold.{whole};
ghost use Rattle.dr_cells.specs.Tokens.{token_at};
ghost use Rattle.dr_lent.specs.declared.lent.Lent.{Lent};
ghost use Rattle.dr_plain_senders.specs.Meaning.Shape.{handlers_of};
ghost use Rattle.dr_plain_senders.specs.Meaning.Words.{cell_of};
ghost use Rattle.dr_plain_senders.specs.Meaning.Lying.{Laid, lent, kept_of};
ghost use Rattle.dr_plain_senders.specs.Inside.Seats.{Hand};
ghost use Rattle.dr_plain_senders.specs.Inside.Finishing.{parts_left, AreWide, HoldParts, SameBut, IsRow, whole_of, AreRows, AreBack};

use crate::laws::{RingSeat, Words};
use crate::plan::Plan;
use dr_cells::Token;
use dr_lent::rows::put_at;
use dr_lent::slots::{draw, is_in_hand, take_slot};
use dr_runs::HandlerCounts;

// Every handler's part of what is lent in a cell comes back to what is kept of it.
fn reclaim_parts<T>(
    words: &Words<T>,
    plan: &Plan<T>,
    seat: &mut RingSeat<T>,
    sequence: u64,
    counts: &Vec<HandlerCounts>,
    hands: &mut Vec<Vec<Token<T>>>,
    kept: &mut Token<T>,
)
    requires table { seat.old.table_id ≡ words.now.table_id }
    requires late { plan.now.size ≤ sequence }
    requires counts { length counts.now.items ≡ handlers_of plan.now }
    requires hands { AreWide plan.now (map (λ hand. hand.items) hands.old.items) }
    requires parts { (l : Lent T) × (others : Hand T) × (kept.old ≡ kept_of plan.now sequence (lent l)) × (seat.old.me.1 ≡ parts_left plan.now 0 counts.now.items sequence l ++ others) × HoldParts plan.now counts.now.items sequence l (map (λ hand. hand.items) hands.old.items) }
    ensures seat { seat.new.table_id ≡ seat.old.table_id }
    ensures back { (l : Lent T) (others : Hand T) → kept.old ≡ kept_of plan.now sequence (lent l) → seat.old.me.1 ≡ parts_left plan.now 0 counts.now.items sequence l ++ others → (kept.new ≡ token_at plan.now.strip (cell_of plan.now sequence) (whole l.event)) × ((behind : Hand T) × (seat.new.me.1 ≡ others ++ behind)) }
    ensures hands { SameBut (cell_of plan.now sequence) (map (λ hand. hand.items) hands.old.items) (map (λ hand. hand.items) hands.new.items) }
{
    let before = sequence - plan.size().get();
    let place = plan.size().slot(sequence);
    for handler in 0..counts.len() {
        let slot = plan.slot(handler + 1, sequence);
        let held = is_in_hand(counts[handler], before);
        let parts = &mut hands[handler];
        let part = draw(words, seat, held, slot, place, parts);
        kept.join(part);
    }
    kept.regain();
}

// What lies in the slots of a cell comes back, with the parts of it that handlers have in hand.
fn reclaim_cell<T>(
    words: &Words<T>,
    plan: &Plan<T>,
    seat: &mut RingSeat<T>,
    sequence: u64,
    counts: &Vec<HandlerCounts>,
    hands: &mut Vec<Vec<Token<T>>>,
) -> Token<T>
    requires table { seat.old.table_id ≡ words.now.table_id }
    requires counts { length counts.now.items ≡ handlers_of plan.now }
    requires hands { AreWide plan.now (map (λ hand. hand.items) hands.old.items) }
    requires row { (a : Laid T) × (others : Hand T) × IsRow plan.now counts.now.items sequence a others seat.old.me.1 (map (λ hand. hand.items) hands.old.items) }
    ensures seat { seat.new.table_id ≡ seat.old.table_id }
    ensures back { (a : Laid T) (others : Hand T) → IsRow plan.now counts.now.items sequence a others seat.old.me.1 (map (λ hand. hand.items) hands.old.items) → (result ≡ whole_of plan.now sequence a) × ((behind : Hand T) × (seat.new.me.1 ≡ others ++ behind)) }
    ensures hands { SameBut (cell_of plan.now sequence) (map (λ hand. hand.items) hands.old.items) (map (λ hand. hand.items) hands.new.items) }
{
    let slot = plan.slot(0, sequence);
    let mut kept = take_slot(words, seat, slot);
    if sequence < plan.size().get() {
        return kept;
    }
    reclaim_parts(words, plan, seat, sequence, counts, hands, &mut kept);
    kept
}

// Puts the cell of a sequence in its place, unless a sender brought it.
fn reclaim_one<T>(
    words: &Words<T>,
    plan: &Plan<T>,
    seat: &mut RingSeat<T>,
    is_brought: bool,
    sequence: u64,
    counts: &Vec<HandlerCounts>,
    hands: &mut Vec<Vec<Token<T>>>,
    tokens: &mut Vec<Token<T>>,
)
    requires table { seat.old.table_id ≡ words.now.table_id }
    requires counts { length counts.now.items ≡ handlers_of plan.now }
    requires hands { AreWide plan.now (map (λ hand. hand.items) hands.old.items) }
    requires room { length tokens.old.items ≡ plan.now.size }
    requires row { MatchBool is_brought ⊤ ((a : Laid T) × (others : Hand T) × IsRow plan.now counts.now.items sequence a others seat.old.me.1 (map (λ hand. hand.items) hands.old.items)) }
    ensures seat { seat.new.table_id ≡ seat.old.table_id }
    ensures back { MatchBool is_brought ((tokens.new.items ≡ tokens.old.items) × (seat.new.me.1 ≡ seat.old.me.1)) ((t : TokenValue T) × (tokens.new.items ≡ slice_set tokens.old.items (cell_of plan.now sequence) t) × ((a : Laid T) (others : Hand T) → IsRow plan.now counts.now.items sequence a others seat.old.me.1 (map (λ hand. hand.items) hands.old.items) → (t ≡ whole_of plan.now sequence a) × ((behind : Hand T) × (seat.new.me.1 ≡ others ++ behind)))) }
    ensures hands { SameBut (cell_of plan.now sequence) (map (λ hand. hand.items) hands.old.items) (map (λ hand. hand.items) hands.new.items) }
{
    if is_brought {
        return;
    }
    let place = plan.size().slot(sequence);
    let whole = reclaim_cell(words, plan, seat, sequence, counts, hands);
    put_at(tokens, place, whole);
}

/// Each cell that no sender brought comes back to its place, from that of the next sequence on.
pub(crate) fn reclaim<T>(
    words: &Words<T>,
    plan: &Plan<T>,
    mut seat: RingSeat<T>,
    claimed: u64,
    counts: &Vec<HandlerCounts>,
    mut hands: Vec<Vec<Token<T>>>,
    brought: &Vec<bool>,
    mut tokens: Vec<Token<T>>,
) -> Vec<Token<T>>
    requires table { seat.table_id ≡ words.now.table_id }
    requires limit { claimed ≤ 2 ^ 62 }
    requires counts { length counts.now.items ≡ handlers_of plan.now }
    requires hands { AreWide plan.now (map (λ hand. hand.items) hands.items) }
    requires places { (length tokens.items ≡ plan.now.size) × (length brought.now.items ≡ plan.now.size) }
    requires rows { (laid : List (Option (Laid T))) × AreRows plan.now counts.now.items claimed laid seat.me.1 (map (λ hand. hand.items) hands.items) brought.now.items }
    ensures back { (laid : List (Option (Laid T))) → AreRows plan.now counts.now.items claimed laid seat.me.1 (map (λ hand. hand.items) hands.items) brought.now.items → AreBack plan.now claimed laid tokens.items result.items }
{
    for sequence in claimed..claimed + plan.size().get() {
        let is_brought = brought[plan.size().slot(sequence)];
        reclaim_one(
            words,
            plan,
            &mut seat,
            is_brought,
            sequence,
            counts,
            &mut hands,
            &mut tokens,
        );
    }
    tokens
}
