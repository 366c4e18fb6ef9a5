//! Calls and answers in short words, for tables. An event is told by its first word; its second is 0.

use crate::histories::word;
use dr_meaning::{Command, Refusal, Reply};
use dr_seq::Event;

/// A command: of a producer or handler, with its sequences or counts.
#[derive(Clone, Copy)]
pub enum Call {
    Claim(u64, u64),
    Write(u64, u64, u64),
    Publish(u64, u64, u64),
    Poll(usize, usize),
    Complete(usize, u64),
    Halt,
    Retire(usize),
}

impl Call {
    pub fn command(self) -> Command<Event> {
        match self {
            Call::Claim(p, n) => Command::Claim { p, n },
            Call::Write(p, s, first) => {
                let v = word(first);
                Command::Write { p, s, v }
            }
            Call::Publish(p, lo, hi) => Command::Publish { p, lo, hi },
            Call::Poll(h, max) => Command::Poll { h, max },
            Call::Complete(h, upto) => Command::Complete { h, upto },
            Call::Halt => Command::Halt,
            Call::Retire(h) => Command::Retire { h },
        }
    }
}

/// A reply, with its sequences; a batch has its first sequence, its count, and whether it ends what was available.
#[derive(Clone, Copy)]
pub enum Answer {
    Claimed(u64, u64),
    Written,
    Published,
    Batch(u64, u64, bool),
    Drained,
    Gating,
    Idle,
    Completed,
    Halting,
    Retired,
    Refused(Refusal),
}

impl Answer {
    pub fn reply(self) -> Reply {
        match self {
            Answer::Claimed(lo, hi) => Reply::Claimed { lo, hi },
            Answer::Written => Reply::Written,
            Answer::Published => Reply::Published,
            Answer::Batch(first, count, end) => Reply::Batch { first, count, end },
            Answer::Drained => Reply::Drained,
            Answer::Gating => Reply::Gating,
            Answer::Idle => Reply::Idle,
            Answer::Completed => Reply::Completed,
            Answer::Halting => Reply::Halting,
            Answer::Retired => Reply::Retired,
            Answer::Refused(refusal) => Reply::Refused(refusal),
        }
    }
}
