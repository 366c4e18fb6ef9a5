//! What the ends of a ring need besides its table. It is taken before any event lies in a slot.

ghost use Rattle.std.specs.Prelude.{◌≡◌, replicate, IfOk};
ghost use Rattle.dr_plain_senders.specs.Inside.Rooms.{unmarked, AreBlankRows, AreRooms};

use crate::brought_together::BroughtTogether;
use crate::owned::Owned;
use crate::plan::Plan;
use dr_cells::Token;
use dr_lent::rows::blanks;
use dr_seq::Size;
use std::alloc::{AllocError, Global};

/// The words of a table, places for what the ends bring once they come together, each sender's
/// marks, and a row of tokens for each sender and for each receiver.
#[derive(Drop)]
pub(crate) struct Rooms<T> {
    pub(crate) words: Vec<u64>,
    pub(crate) gathered: BroughtTogether<T>,
    pub(crate) marks: Vec<Owned>,
    pub(crate) tokens: Vec<Vec<Token<T>>>,
    pub(crate) parts: Vec<Vec<Token<T>>>,
}

// The marks of so many senders that have claimed nothing.
fn marks_of(alloc: Global, count: usize, size: Size) -> Result<Vec<Owned>, AllocError>
    ensures { IfOk result (λ marks. marks.items ≡ replicate count (unmarked size)) }
{
    let mut marks = Vec::with_capacity(alloc, count)?;
    for made in 0..count {
        marks.push(Owned::new(alloc, size)?)?;
    }
    Ok(marks)
}

// So many rows, each of so many tokens of no cell.
fn blank_rows<T>(alloc: Global, count: usize, size: usize) -> Result<Vec<Vec<Token<T>>>, AllocError>
    ensures { IfOk result (λ rows. AreBlankRows count size rows.items) }
{
    let mut rows = Vec::with_capacity(alloc, count)?;
    for row in 0..count {
        rows.push(blanks(alloc, size)?)?;
    }
    Ok(rows)
}

impl<T> Rooms<T> {
    /// What the ends of a ring for a plan need.
    pub(crate) fn of(alloc: Global, plan: &Plan<T>) -> Result<Rooms<T>, AllocError>
        ensures { IfOk result (λ rooms. AreRooms plan.now rooms) }
    {
        let words = vec![in alloc; 0; plan.words()]?;
        let size = plan.size().get() as usize;
        let gathered = BroughtTogether::of(alloc, plan.handlers(), size)?;
        let marks = marks_of(alloc, plan.senders(), plan.size())?;
        let tokens = blank_rows(alloc, plan.senders(), size)?;
        let parts = blank_rows(alloc, plan.handlers(), size)?;
        Ok(Rooms {
            words,
            gathered,
            marks,
            tokens,
            parts,
        })
    }
}
