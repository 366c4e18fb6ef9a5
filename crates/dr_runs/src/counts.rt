//! How far a handler of a ring came.

/// How many events a handler took and completed.
#[derive(Clone, Copy, Debug, PartialEq, Eq)]
pub struct HandlerCounts {
    pub taken: u64,
    pub completed: u64,
}

impl HandlerCounts {
    /// Before the first event.
    pub const NONE: HandlerCounts = HandlerCounts {
        taken: 0,
        completed: 0,
    };
}

const _: () = prove!(HandlerCounts::NONE.taken == 0 && HandlerCounts::NONE.completed == 0);
