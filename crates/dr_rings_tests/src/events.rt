//! The events that rows write.

use dr_seq::Event;

pub const ONE: Event = Event {
    first: 1,
    second: 0,
};

pub const TWO: Event = Event {
    first: 2,
    second: 0,
};

pub const THREE: Event = Event {
    first: 3,
    second: 0,
};

pub const FOUR: Event = Event {
    first: 4,
    second: 0,
};

pub const FIVE: Event = Event {
    first: 5,
    second: 0,
};

pub const SIX: Event = Event {
    first: 6,
    second: 0,
};

pub const SEVEN: Event = Event {
    first: 7,
    second: 0,
};

pub const EIGHT: Event = Event {
    first: 8,
    second: 0,
};

pub const NINE: Event = Event {
    first: 9,
    second: 0,
};

pub const FIRST_PAIR: Event = Event {
    first: 1,
    second: 2,
};

pub const PAIR: Event = Event {
    first: 3,
    second: 4,
};
