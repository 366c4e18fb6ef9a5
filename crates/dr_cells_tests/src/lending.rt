//! How a cell is written, lent to two threads and had back.
ghost use Rattle.std.specs.Prelude.{◌≡◌, IfOk};
ghost use Rattle.dr_cells.specs.Hold.{IsHeld, IsWhole};
ghost use Rattle.dr_cells.specs.Tokens.{IsAll, IsOf};

use dr_cells::{Cells, Row, Token};
use std::alloc::AllocError;
use std::sync::Arc;
use std::thread::{Threads, join};

/// An event that owns memory, and counts in `alive` until it is dropped.
#[derive(Drop)]
pub struct Event {
    pub name: String,
    pub alive: Arc<()>,
}

fn length_of(cells: Cells<Event>, token: &Token<Event>) -> usize
    requires { IsOf cells.ptr 0 token.now × IsHeld token.now.hold }
{
    token.get(cells, 0).name.len()
}

/// How long the first event's name is, as two threads read it at once, each by a part of its own.
pub fn read_by_two<R: Threads + Sync>(
    rt: &R,
    cells: Cells<Event>,
    token: &mut Token<Event>,
) -> (usize, usize)
    requires { IsOf cells.ptr 0 token.old × IsWhole token.old.hold }
    ensures place { IsOf cells.ptr 0 token.new }
    ensures value { token.new.hold ≡ token.old.hold }
{
    token.lend();
    let left = token.split();
    let right = token.split();
    let lengths = join(rt, || length_of(cells, &left), || length_of(cells, &right));
    token.join(left);
    token.join(right);
    token.regain();
    lengths
}

/// Writes the first event in place.
pub fn rename(cells: Cells<Event>, token: &mut Token<Event>) -> Result<(), AllocError>
    requires { IsOf cells.ptr 0 token.old × IsWhole token.old.hold }
    ensures { IsOf cells.ptr 0 token.new × IsWhole token.new.hold }
{
    token.get_mut(cells, 0).name.push_str("-more")
}

/// Writes the first of two cells and lends it. Both come back.
pub fn use_first<R: Threads + Sync>(
    rt: &R,
    cells: Cells<Event>,
    row: Row<Event>,
) -> Result<(Row<Event>, (usize, usize)), AllocError>
    requires { IsAll cells.ptr 2 row }
    ensures { IfOk result (λ back. IsAll cells.ptr 2 back.0) }
{
    let mut row = row;
    let mut first = row.take();
    let second = row.take();
    rename(cells, &mut first)?;
    let lengths = read_by_two(rt, cells, &mut first);
    let mut whole = Row::none(cells);
    whole.give(first);
    whole.give(second);
    Ok((whole, lengths))
}
