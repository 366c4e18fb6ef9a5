//! Events of two words, as the tools and the rings over atomic words carry them.

/// An event of two words, whose meaning is its producers' and handlers' own.
#[derive(Clone, Copy, Debug, PartialEq, Eq)]
#[repr(C)]
pub struct Event {
    pub first: u64,
    pub second: u64,
}

impl Event {
    /// What a slot holds before anything is written to it.
    pub const NONE: Event = Event {
        first: 0,
        second: 0,
    };
}

const _: () = prove!(Event::NONE.first == 0 && Event::NONE.second == 0);
