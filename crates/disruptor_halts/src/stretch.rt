//! A stretch of turns at an end.

/// How many claims or polls one stretch has.
pub const TURNS: u64 = 64;

/// What a stretch of turns came to.
#[derive(Clone, Copy)]
pub enum Stretch {
    /// There may be more to do.
    Goes,
    /// A handler was told that the exchange drained.
    Drained,
    /// A producer found the exchange halted; a handler was retired, or may wait for one that takes no more.
    Left,
}
