//! Rows of tokens, one a cell or a slot, which have no bytes, and of other things.

ghost use Rattle.std.specs.Fn.{FnOnceReturnsAtMut, CalledWithState};
ghost use Rattle.std.specs.Prelude.{◌≡◌, ◌<◌, ◌≤◌, [], ◌∷◌, ◌++◌, replicate, length, map, slice_set, All, Some, IfOk};
ghost use mathlib.Core.Option.{some};
ghost use lib.ListN.{get_elem?};
ghost use Rattle.dr_cells.specs.declared.token.Token.{Token as TokenValue};
ghost use Rattle.dr_cells.specs.Hold.{whole, IsWhole, CanJoin, joined, IsBack, regained};
ghost use Rattle.dr_cells.specs.Tokens.{no_token, token_at, with_hold, IsAll, IsOf};
ghost use Rattle.dr_lent.specs.Rows.{cells_of, AreAllWhole, IsDealt};

use dr_cells::{Cells, Row, Token};
use std::alloc::{AllocError, Global};
use std::mem::replace;

/// Tokens of no cell.
pub fn blanks<T>(alloc: Global, count: usize) -> Result<Vec<Token<T>>, AllocError>
    ensures { IfOk result (λ tokens. tokens.items ≡ replicate count no_token) }
{
    let mut tokens = Vec::with_capacity(alloc, count)?;
    for made in 0..count {
        tokens.push(Token::blank())?;
    }
    Ok(tokens)
}

/// Puts one in place of another, which it gives.
pub fn put_at<S>(row: &mut Vec<S>, place: usize, new: S) -> S
    requires { place < length row.old.items }
    // The new one is at the place, and the one that was there comes out.
    ensures row { row.new.items ≡ slice_set row.old.items place new }
    ensures was { get_elem? row.old.items place ≡ some result }
{
    replace(&mut row[place], new)
}

/// Takes the last of a row.
pub fn take_last<S>(row: &mut Vec<S>) -> S
    requires { 0 < length row.old.items }
    ensures { row.old.items ≡ row.new.items ++ result ∷ [] }
{
    let Some(last) = row.pop() else {
        unreachable!()
    };
    last
}

/// Puts the token of each cell of a row in its place, before all others.
pub fn deal<T>(mut row: Row<T>, cells: Cells<T>, count: usize, tokens: &mut Vec<Token<T>>)
    requires { IsAll cells.ptr count row × (count ≤ length tokens.old.items) }
    ensures { IsDealt cells.ptr count row.items tokens.old.items tokens.new.items }
{
    let _ = cells;
    for place in 0..count {
        put_at(tokens, place, row.take());
    }
}

/// Writes an event in place of what lies in a whole cell.
pub fn write_in<T: Drop>(token: &mut Token<T>, cells: Cells<T>, place: usize, event: T)
    requires { IsOf cells.ptr place token.old × IsWhole token.old.hold }
    ensures { token.new ≡ token_at cells.ptr place (whole event) }
{
    drop(replace(token.get_mut(cells, place), event));
}

/// Changes what lies in a whole cell, where it lies.
pub fn change_in<T, F: FnOnce(&mut T)>(
    token: &mut Token<T>,
    cells: Cells<T>,
    place: usize,
    change: F,
)
    requires cell { IsOf cells.ptr place token.old × IsWhole token.old.hold }
    requires callable { F.IsAlwaysCallable change }
    ensures { (was : T) × (now : T) × (token.old.hold ≡ whole was) × (token.new ≡ token_at cells.ptr place (whole now)) × FnOnceReturnsAtMut F.FnOnce change was tt now }
{
    change(token.get_mut(cells, place));
}

/// The same by a closure that may be called again, with a number: what it becomes is told.
pub fn change_by<T, F: FnMut(&mut T, u64)>(
    token: &mut Token<T>,
    cells: Cells<T>,
    place: usize,
    fill: &mut F,
    number: u64,
)
    requires cell { IsOf cells.ptr place token.old × IsWhole token.old.hold }
    requires callable { F.IsAlwaysCallable fill.old }
    // What lay in the cell was changed by a call of the closure, which is now what that call left of it.
    ensures changed { (was : T) × (now : T) × (token.old.hold ≡ whole was) × (token.new ≡ token_at cells.ptr place (whole now)) × CalledWithState F.FnMut fill.old was number tt fill.new now }
    // You may call the closure again.
    ensures callable { F.IsAlwaysCallable fill.new }
{
    fill(token.get_mut(cells, place), number);
}

/// One of a row, where it lies.
pub fn at<S>(row: &Vec<S>, place: usize) -> &S
    requires { place < length row.now.items }
    ensures { get_elem? row.now.items place ≡ some result.now }
{
    &row[place]
}

/// As many empty rows of tokens.
pub fn empty_hands<T>(alloc: Global, count: usize) -> Result<Vec<Vec<Token<T>>>, AllocError>
    // There are so many, and each is empty.
    ensures count { IfOk result (λ hands. length hands.items ≡ count) }
    ensures empty { IfOk result (λ hands. All (λ hand. hand.items ≡ []) hands.items) }
{
    let mut hands = Vec::with_capacity(alloc, count)?;
    for made in 0..count {
        hands.push(Vec::new(alloc))?;
    }
    Ok(hands)
}

/// A part comes back to the token of its cell.
pub fn join_at<T>(tokens: &mut Vec<Token<T>>, place: usize, part: Token<T>)
    requires { (t : TokenValue T) × (get_elem? tokens.old.items place ≡ some t) × CanJoin t.hold part.hold }
    ensures { (t : TokenValue T) × (get_elem? tokens.old.items place ≡ some t) × (tokens.new.items ≡ slice_set tokens.old.items place (with_hold t (joined t.hold))) }
{
    let mut token = put_at(tokens, place, Token::blank());
    token.join(part);
    put_at(tokens, place, token);
}

/// A cell is whole again, since each part of it is back.
pub fn regain_at<T>(tokens: &mut Vec<Token<T>>, place: usize)
    requires { (t : TokenValue T) × (get_elem? tokens.old.items place ≡ some t) × IsBack t.hold }
    ensures { (t : TokenValue T) × (get_elem? tokens.old.items place ≡ some t) × (tokens.new.items ≡ slice_set tokens.old.items place (with_hold t (regained t.hold))) }
{
    let mut token = put_at(tokens, place, Token::blank());
    token.regain();
    put_at(tokens, place, token);
}

/// The row of all cells of a strip, from their tokens.
pub fn whole_row<T>(cells: Cells<T>, mut tokens: Vec<Token<T>>) -> Row<T>
    requires { AreAllWhole cells.ptr tokens.items }
    // It is the row of all these cells, and holds what the tokens said, in their order.
    ensures all { IsAll cells.ptr (length tokens.items) result }
    ensures items { map (λ x. Some x) result.items ≡ cells_of tokens.items }
{
    let mut row = Row::none(cells);
    for place in 0..tokens.len() {
        let token = put_at(&mut tokens, place, Token::blank());
        row.give(token);
    }
    row
}
