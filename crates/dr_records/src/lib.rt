//! The records of a text, read one at a time, and what stands in their fields.
//!
//! Begin with `specs/Records`: it says which records a text has, as the ported `csv` reads them, and
//! what a field, a name and a number of a record are. [`Rows`] reads a text record by record, and
//! [`Stream`] one whose bytes are still to come (`specs/Stream`).
#![tactic(auto)]

mod fields;
mod place;
mod rows;
mod stream;

pub use fields::{count_of, field, is_list, is_named, is_record, number_at};
pub use rows::Rows;
pub use stream::Stream;
