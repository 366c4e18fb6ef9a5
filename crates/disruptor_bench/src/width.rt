//! How large the events are that go through one thread, or plain memory.

use dr_seq::Event;
use std::fmt;

/// How many words an event has.
#[derive(Clone, Copy)]
pub enum Width {
    One,
    Two,
    Eight,
    Sixteen,
}

impl Width {
    /// The width of which a topology's name tells after `core` or `plain`.
    pub fn named(word: &str) -> Option<Width> {
        match word {
            "1" => Some(Width::One),
            "" => Some(Width::Two),
            "8" => Some(Width::Eight),
            "16" => Some(Width::Sixteen),
            _ => None,
        }
    }
}

impl fmt::Display for Width {
    fn fmt<W: fmt::Write>(&self, f: &mut fmt::Formatter<W>) -> fmt::Result {
        f.write_str(match self {
            Width::One => "1",
            Width::Two => "",
            Width::Eight => "8",
            Width::Sixteen => "16",
        })
    }
}

/// An event of one word and so many more.
#[derive(Clone, Copy)]
pub struct Words<const MORE: usize> {
    pub first: u64,
    pub more: [u64; MORE],
}

/// An event that a producer makes for its sequence.
pub trait Made: Copy {
    fn at(sequence: u64) -> Self;

    /// The word that the handlers add up.
    fn first(&self) -> u64;
}

impl<const MORE: usize> Made for Words<MORE> {
    #[inline]
    fn at(sequence: u64) -> Words<MORE> {
        Words {
            first: sequence,
            more: [0; MORE],
        }
    }

    #[inline]
    fn first(&self) -> u64 {
        self.first
    }
}

impl Made for Event {
    #[inline]
    fn at(sequence: u64) -> Event {
        Event {
            first: sequence,
            second: 0,
        }
    }

    #[inline]
    fn first(&self) -> u64 {
        self.first
    }
}
