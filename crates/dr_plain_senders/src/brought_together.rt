//! Where the ends of a ring put what they have, once they come together.

ghost use Rattle.std.specs.Prelude.{IfOk};
ghost use Rattle.dr_plain_senders.specs.Inside.BroughtTogether.{HasPlaces};

use dr_cells::Token;
use dr_lent::rows::{blanks, empty_hands};
use dr_runs::HandlerCounts;
use std::alloc::{AllocError, Global};

/// Places for the handlers' counts and parts and for the cells, and which of the cells a sender
/// brought.
#[derive(Drop)]
pub(crate) struct BroughtTogether<T> {
    pub(crate) counts: Vec<HandlerCounts>,
    pub(crate) hands: Vec<Vec<Token<T>>>,
    pub(crate) tokens: Vec<Token<T>>,
    pub(crate) brought: Vec<bool>,
}

impl<T> BroughtTogether<T> {
    /// Places of so many handlers and cells.
    pub(crate) fn of(
        alloc: Global,
        handlers: usize,
        cells: usize,
    ) -> Result<BroughtTogether<T>, AllocError>
        ensures { IfOk result (λ places. HasPlaces handlers cells places) }
    {
        let counts = vec![in alloc; HandlerCounts::NONE; handlers]?;
        let hands = empty_hands(alloc, handlers)?;
        let tokens = blanks(alloc, cells)?;
        let brought = vec![in alloc; false; cells]?;
        Ok(BroughtTogether {
            counts,
            hands,
            tokens,
            brought,
        })
    }
}
