//! What rings over plain memory are made of: events as they are lent, rows of tokens, one a cell or a
//! slot, and what goes in and out of the slots that an end has in hand.
#![tactic(auto)]

mod lends;
pub mod lent;
pub mod rows;
pub mod slots;

pub use lends::Lends;
pub use lent::Lent;
