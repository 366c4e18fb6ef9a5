//! Calls on the ends of a ring, and their answers.

use dr_meaning::Polled::{Batch, Drained, Gating, Idle};
use dr_meaning::{Claimed, Polled, Refusal, Reply};
use dr_seq::Event;

/// A call of a sender, a handler or the halter.
#[derive(Clone, Copy)]
pub enum Call {
    Claim(u64),
    Write(u64, Event),
    /// The event that lies there has a thousand more then.
    Change(u64),
    Publish(u64, u64),
    Close,
    /// A sender halts the ring.
    HaltIt,
    /// The halter does, whatever the number.
    Halt,
    /// With room for so many events, 8 at most.
    Poll(u64),
    Complete(u64),
}

/// What a call answers.
#[derive(Clone, Copy)]
pub enum Answer {
    Says(Reply),
    /// A batch: its first sequence, whether it is all that there is, and its events.
    Shows(u64, bool, &'static [Event]),
}

/// Who calls, by number, the call, and its answer.
pub type Row = (usize, Call, Answer);

const NO_EVENTS: &[Event] = &[];

impl Answer {
    /// As the machine would give it; a close or a halt that succeeds is `Halting`.
    pub fn reply(self) -> Reply {
        match self {
            Answer::Says(reply) => reply,
            Answer::Shows(first, end, events) => Reply::Batch {
                first,
                count: events.len() as u64,
                end,
            },
        }
    }

    /// The events that a poll shows.
    pub fn events(self) -> &'static [Event] {
        match self {
            Answer::Says(_) => NO_EVENTS,
            Answer::Shows(_, _, events) => events,
        }
    }
}

/// No row has this answer. It stands for what no call of a ring says, and answers a call that an end lacks.
pub const NEVER: Refusal = Refusal::NoHandler;

pub fn claimed(answer: Result<Claimed, Refusal>) -> Reply {
    match answer {
        Ok(Claimed { lo, hi }) => Reply::Claimed { lo, hi },
        Err(refusal) => Reply::Refused(refusal),
    }
}

pub fn done(answer: Result<(), Refusal>, reply: Reply) -> Reply {
    match answer {
        Ok(()) => reply,
        Err(refusal) => Reply::Refused(refusal),
    }
}

pub fn polled(answer: Result<Polled, Refusal>) -> Reply {
    match answer {
        Ok(Batch { first, count, end }) => Reply::Batch { first, count, end },
        Ok(Drained) => Reply::Drained,
        Ok(Gating) => Reply::Gating,
        Ok(Idle) => Reply::Idle,
        Err(refusal) => Reply::Refused(refusal),
    }
}
