//! The parts of all lent events come back to the sender's tokens.

ghost use Rattle.std.specs.Prelude.{◌≡◌, ◌+◌, ◌-◌, ◌<◌, ◌≤◌, ℕ, List, map};
ghost use Rattle.dr_lent.specs.Rows.{cells_of, AreAllWhole};
ghost use Rattle.dr_lent.specs.declared.lent.Lent.{Lent};
ghost use Rattle.dr_plain.specs.Meaning.Shape.{handlers_of};
ghost use Rattle.dr_plain.specs.Inside.Finishing.{IsLane, TakesLane, OnePartBack, AreOut, AreLanes};

use crate::laws::{RingSeat, Words};
use crate::plan::Plan;
use dr_cells::Token;
use dr_lent::rows::{join_at, put_at, regain_at};
use dr_lent::slots::{draw, is_in_hand};
use dr_runs::HandlerCounts;

// A handler's part of each of some events comes back.
fn reclaim_lane<T>(
    words: &Words<T>,
    plan: &Plan<T>,
    seat: &mut RingSeat<T>,
    handler: usize,
    counts: HandlerCounts,
    first: u64,
    upto: u64,
    parts: &mut Vec<Token<T>>,
    tokens: &mut Vec<Token<T>>,
)
    requires table { seat.old.table_id ≡ words.now.table_id }
    requires handler { handler < handlers_of plan.now }
    requires order { first ≤ upto }
    requires lane { (m : ℕ) × (lents : List (Lent T)) × IsLane plan.now handler counts first upto m lents seat.old.me.1 parts.old.items tokens.old.items }
    ensures seat { seat.new.table_id ≡ seat.old.table_id }
    ensures hand { TakesLane plan.now handler counts first upto upto seat.old.me.1 seat.new.me.1 }
    ensures back { OnePartBack plan.now first upto tokens.old.items tokens.new.items }
{
    for sequence in first..upto {
        let slot = plan.slot(handler, sequence);
        let place = plan.size().slot(sequence);
        let held = is_in_hand(counts, sequence);
        let part = draw(words, seat, held, slot, place, parts);
        join_at(tokens, place, part);
    }
}

// The parts of all handlers come back.
fn reclaim_lanes<T>(
    words: &Words<T>,
    plan: &Plan<T>,
    seat: &mut RingSeat<T>,
    counts: &Vec<HandlerCounts>,
    hands: &mut Vec<Vec<Token<T>>>,
    first: u64,
    upto: u64,
    tokens: &mut Vec<Token<T>>,
)
    requires table { seat.old.table_id ≡ words.now.table_id }
    requires order { first ≤ upto }
    requires lanes { (lents : List (Lent T)) × AreLanes plan.now counts.now.items first upto lents seat.old.me.1 (map (λ hand. hand.items) hands.old.items) tokens.old.items }
    ensures back { (lents : List (Lent T)) × AreOut plan.now first upto 0 lents tokens.new.items }
    ensures cells { cells_of tokens.new.items ≡ cells_of tokens.old.items }
{
    for handler in 0..counts.len() {
        let own = counts[handler];
        let parts = &mut hands[handler];
        reclaim_lane(words, plan, seat, handler, own, first, upto, parts, tokens);
    }
}

// Each cell is whole again.
fn regain_all<T>(plan: &Plan<T>, first: u64, upto: u64, tokens: &mut Vec<Token<T>>)
    requires order { first ≤ upto }
    requires back { (lents : List (Lent T)) × AreOut plan.now first upto 0 lents tokens.old.items }
    ensures whole { AreAllWhole plan.now.strip tokens.new.items }
    ensures cells { cells_of tokens.new.items ≡ cells_of tokens.old.items }
{
    for sequence in first..upto {
        let place = plan.size().slot(sequence);
        regain_at(tokens, place);
    }
}

/// All parts of what is lent come back, out of the slots that are first in hand and out of the
/// handlers' hands, and so each cell is whole.
pub(crate) fn reclaim<T>(
    words: &Words<T>,
    plan: &Plan<T>,
    mut seat: RingSeat<T>,
    counts: &Vec<HandlerCounts>,
    mut hands: Vec<Vec<Token<T>>>,
    claimed: u64,
    published: u64,
    mut tokens: Vec<Token<T>>,
) -> Vec<Token<T>>
    requires table { seat.table_id ≡ words.now.table_id }
    requires order { claimed ≤ plan.now.size + published }
    requires lanes { (lents : List (Lent T)) × AreLanes plan.now counts.now.items (claimed - plan.now.size) published lents seat.me.1 (map (λ hand. hand.items) hands.items) tokens.items }
    ensures whole { AreAllWhole plan.now.strip result.items }
    ensures cells { cells_of result.items ≡ cells_of tokens.items }
{
    let first = claimed.saturating_sub(plan.size().get());
    reclaim_lanes(
        words,
        plan,
        &mut seat,
        counts,
        &mut hands,
        first,
        published,
        &mut tokens,
    );
    regain_all(plan, first, published, &mut tokens);
    tokens
}
