//! The token of a cell goes from thread to thread in the slot of a table.
ghost use Rattle.std.specs.Prelude.{◌≡◌, IfSome};
ghost use Rattle.dr_cells_tests.specs.Turns.{Holds, Taken, Waits, IsFirst, IsSmall};

use atomic_table::{Play, Seat, Shared, Split, Table, TableRule};
use dr_cells::{Cells, Token};
use std::alloc::Global;
use std::thread::{Threads, join};

/// The rule of the table, and what a look tells that takes the token.
pub struct Turns;

impl TableRule<Token<u64>, Cells<u64>, Cells<u64>> for Turns {
    ghost holds = { Holds };

    ghost first = { λ c. c };
}

impl Play<Token<u64>, Cells<u64>> for Turns {
    ghost then = { λ _ me found after. (after.0 ≡ me.0) × Taken me.0 found after.1 };
}

impl Split<Cells<u64>> for Turns {
    ghost left = { λ c. c };

    ghost right = { λ c. c };
}

/// What a store tells that gives the token back.
pub struct Given;

impl Play<Token<u64>, Cells<u64>> for Given {
    ghost then = { λ _ me _ after. Waits me.0 after };
}

/// The table, as its threads see it.
pub type Slot = Shared<Token<u64>, Cells<u64>, Cells<u64>, Turns>;

/// The table with its memory.
pub type SlotTable = Table<Token<u64>, Cells<u64>, Cells<u64>, Turns, Global>;

/// What a thread steps with.
pub type SlotSeat = Seat<Token<u64>, Cells<u64>>;

/// Adds one to the cell where its token lies in the slot.
pub fn add_one(slot: &Slot, seat: &mut SlotSeat, cells: Cells<u64>) -> bool
    requires table { IsSmall slot.now.table_id × (slot.now.key ≡ cells) }
    requires seat { (seat.old.table_id ≡ slot.now.table_id) × Waits cells seat.old.me }
    ensures { (seat.new.table_id ≡ slot.now.table_id) × Waits cells seat.new.me }
{
    if slot.swap::<Turns>(seat, 0, 0) != 1 {
        return false;
    }
    let mut token = slot.exchange(seat, 0, Token::blank());
    let value = token.get_mut(cells, 0);
    *value = value.wrapping_add(1);
    slot.exchange(seat, 0, token);
    slot.store::<Given>(seat, 0, 1);
    true
}

// How often it did, of a thousand times.
fn add_often(slot: &Slot, seat: SlotSeat, cells: Cells<u64>) -> u64
    requires table { IsSmall slot.now.table_id × (slot.now.key ≡ cells) }
    requires seat { (seat.table_id ≡ slot.now.table_id) × Waits cells seat.me }
{
    let mut seat = seat;
    let mut count = 0u64;
    for _ in 0..1000 {
        if add_one(slot, &mut seat, cells) {
            count = count.wrapping_add(1);
        }
    }
    count
}

// The token, where it lies in the slot at last.
fn finish(table: SlotTable) -> Option<Token<u64>>
    requires { IsSmall table.shared.table_id }
    ensures { IfSome result (λ t. IsFirst table.shared.key t) }
{
    let mut closed = table.close();
    let word = closed.word(0);
    let token = closed.take(0);
    closed.free();
    if word == 1 { Some(token) } else { None }
}

/// Two threads take the token in turn, and each adds one to the cell whenever it has it. The token comes
/// back with the number of times, and `None` where there was no memory.
pub fn take_turns<R: Threads + Sync>(
    rt: &R,
    alloc: Global,
    cells: Cells<u64>,
    token: Token<u64>,
) -> Option<(Token<u64>, u64)>
    requires { IsFirst cells token }
    ensures { IfSome result (λ r. IsFirst cells r.0) }
{
    let Ok(slots) = Vec::from_array(alloc, [token]) else {
        return None;
    };
    let Ok((table, mut left)) = SlotTable::new(alloc, &[1], slots, &cells) else {
        return None;
    };
    let slot = &table.shared;
    let right = slot.split_seat::<Turns>(&mut left);
    let counts = join(
        rt,
        move || add_often(slot, left, cells),
        move || add_often(slot, right, cells),
    );
    let token = finish(table)?;
    Some((token, counts.0.wrapping_add(counts.1)))
}
