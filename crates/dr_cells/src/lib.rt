//! Memory that is lent by tokens of no bytes. A [`Cells`] says where a strip of cells lies and owns
//! nothing, so each thread may have a copy. The right to a cell is a [`Token`], which is ghost data
//! alone: who holds a cell whole may write it, and may lend it as parts, each of which reads it in place.
//!
//! A lending begins with the whole, has fewer than 2^63 parts out at a time, takes back none but its own, and ends once
//! each is back. A token that is dropped takes its right with it, so its value is never dropped, and a strip that is
//! dropped unclosed keeps its memory. A token goes to another thread if its value may be sent and shared, a row of whole
//! cells if it may be sent, a strip if its allocator may.
//!
//! The `unsafe` code is proved by hand, with no assumption: a pointer and an index as a reference, slots as cells and
//! back ([`Row`]), a strip's memory, and what may cross threads.
#![tactic(auto)]

pub mod cells;
mod deed;
pub mod row;
pub mod strip;
pub mod token;
pub mod values;

pub use cells::Cells;
pub use row::Row;
pub use strip::Strip;
pub use token::Token;
pub use values::Values;
