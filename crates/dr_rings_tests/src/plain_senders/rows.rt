//! Worked runs over a ring with several senders.

use crate::calls::Answer::{Says, Shows};
use crate::calls::Call::{Claim, Complete, Halt, HaltIt, Poll, Publish, Write};
use crate::events::{FIVE, FOUR, ONE, SEVEN, SIX, THREE, TWO};
use crate::graphs::Shape;
use crate::playing::{NO_CALLS, Run};
use dr_meaning::Refusal::{
    AlreadyPublished, BadCount, Exhausted, Halted, NoRoom, NotClaimed, NotTaken, NotWritten,
};
use dr_meaning::Reply::{
    Claimed, Completed, Drained, Gating, Halting, Idle, Published, Refused, Written,
};

/// How many sequences a ring has.
pub const LIMIT: u64 = 6;

/// A run in which nobody calls, over a ring with two senders and two handlers.
const TWO_SENDERS: Run = Run {
    shape: Shape::Chain,
    limit: LIMIT,
    senders: 2,
    handlers: &[(0, 0), (0, 0)],
    ..NO_CALLS
};

pub const RUNS: [Run; 7] = [
    Run {
        name: "senders claim in turn up to the room",
        rows: &[
            (0, Claim(2), Says(Claimed { lo: 0, hi: 1 })),
            (1, Claim(2), Says(Claimed { lo: 2, hi: 3 })),
            (0, Claim(1), Says(Refused(NoRoom))),
            (0, Claim(3), Says(Refused(Exhausted))),
            (0, Claim(0), Says(Refused(BadCount))),
            (0, Claim(5), Says(Refused(BadCount))),
            (0, Poll(4), Says(Gating)),
            (0, Halt, Says(Halting)),
            (1, Claim(1), Says(Refused(Halted))),
            (0, Poll(4), Says(Gating)),
        ],
        claimed: 4,
        halted: true,
        ..TWO_SENDERS
    },
    Run {
        name: "a halted ring without claims has drained",
        senders: 1,
        rows: &[
            (0, Poll(4), Says(Idle)),
            (1, Poll(4), Says(Idle)),
            (0, Halt, Says(Halting)),
            (0, Halt, Says(Halting)),
            (0, Poll(4), Says(Drained)),
            (1, Poll(4), Says(Drained)),
        ],
        halted: true,
        ..TWO_SENDERS
    },
    Run {
        name: "senders write and publish their own",
        rows: &[
            (0, Claim(2), Says(Claimed { lo: 0, hi: 1 })),
            (1, Claim(2), Says(Claimed { lo: 2, hi: 3 })),
            (1, Write(0, ONE), Says(Refused(NotClaimed))),
            (0, Write(0, ONE), Says(Written)),
            (0, Write(1, TWO), Says(Written)),
            (0, Publish(0, 1), Says(Published)),
            (1, Write(0, ONE), Says(Refused(AlreadyPublished))),
            (0, Write(0, ONE), Says(Refused(AlreadyPublished))),
            (1, Publish(2, 3), Says(Refused(NotWritten))),
            (1, Write(2, THREE), Says(Written)),
            (1, Publish(2, 3), Says(Refused(NotWritten))),
            (1, Publish(3, 2), Says(Refused(BadCount))),
            (1, Publish(3, 4), Says(Refused(NotClaimed))),
            (1, Publish(1, 2), Says(Refused(AlreadyPublished))),
            (0, Publish(2, 3), Says(Refused(NotClaimed))),
            (1, Publish(2, 6), Says(Refused(NotClaimed))),
            (1, Write(3, FOUR), Says(Written)),
            (1, Publish(2, 3), Says(Published)),
        ],
        claimed: 4,
        lying: [1, 2, 3, 4],
        ..TWO_SENDERS
    },
    Run {
        name: "a slot is used again in the next round",
        rows: &[
            (0, Claim(4), Says(Claimed { lo: 0, hi: 3 })),
            (0, Write(3, FOUR), Says(Written)),
            (0, Write(0, ONE), Says(Written)),
            (0, Write(2, THREE), Says(Written)),
            (0, Write(1, TWO), Says(Written)),
            (0, Publish(0, 3), Says(Published)),
            (0, Poll(4), Shows(0, true, &[ONE, TWO, THREE, FOUR])),
            (0, Complete(4), Says(Completed)),
            (1, Poll(4), Shows(0, true, &[ONE, TWO, THREE, FOUR])),
            (1, Complete(4), Says(Completed)),
            (0, Claim(2), Says(Claimed { lo: 4, hi: 5 })),
            (0, Write(0, ONE), Says(Refused(AlreadyPublished))),
            (1, Publish(0, 0), Says(Refused(AlreadyPublished))),
            (1, Write(4, FIVE), Says(Refused(NotClaimed))),
            (0, Write(6, SEVEN), Says(Refused(NotClaimed))),
            (0, Write(5, SIX), Says(Written)),
            (0, Publish(5, 5), Says(Published)),
            (0, Poll(4), Says(Gating)),
            (0, Publish(4, 4), Says(Refused(NotWritten))),
            (0, Write(4, FIVE), Says(Written)),
            (0, Publish(4, 5), Says(Refused(AlreadyPublished))),
            (0, Publish(4, 4), Says(Published)),
            (0, Poll(4), Shows(4, true, &[FIVE, SIX])),
            (1, HaltIt, Says(Halting)),
            (0, Claim(1), Says(Refused(Halted))),
        ],
        claimed: 6,
        halted: true,
        handlers: &[(6, 4), (4, 4)],
        lying: [5, 6, 3, 4],
        ..TWO_SENDERS
    },
    Run {
        name: "claims stay open, and handlers are given nothing",
        rows: &[
            (1, Claim(2), Says(Claimed { lo: 0, hi: 1 })),
            (0, Claim(1), Says(Claimed { lo: 2, hi: 2 })),
            (0, Poll(4), Says(Gating)),
            (1, Poll(4), Says(Gating)),
            (0, Complete(0), Says(Completed)),
            (1, Complete(1), Says(Refused(NotTaken))),
        ],
        claimed: 3,
        ..TWO_SENDERS
    },
    Run {
        name: "a halt before anything was claimed",
        shape: Shape::SideBySide,
        rows: &[
            (1, Poll(4), Says(Idle)),
            (0, Halt, Says(Halting)),
            (0, Claim(1), Says(Refused(Halted))),
            (0, Poll(4), Says(Drained)),
            (1, Poll(4), Says(Drained)),
        ],
        halted: true,
        ..TWO_SENDERS
    },
    Run {
        name: "three events, of which the second handler completes two after a halt",
        rows: &[
            (1, Claim(1), Says(Claimed { lo: 0, hi: 0 })),
            (1, Write(0, ONE), Says(Written)),
            (1, Publish(0, 0), Says(Published)),
            (0, Claim(1), Says(Claimed { lo: 1, hi: 1 })),
            (0, Write(1, TWO), Says(Written)),
            (0, Publish(1, 1), Says(Published)),
            (1, Claim(1), Says(Claimed { lo: 2, hi: 2 })),
            (1, Write(2, THREE), Says(Written)),
            (1, Publish(2, 2), Says(Published)),
            (1, Poll(4), Says(Gating)),
            (0, Poll(4), Shows(0, true, &[ONE, TWO, THREE])),
            (0, Complete(3), Says(Completed)),
            (0, Halt, Says(Halting)),
            (0, Poll(4), Says(Drained)),
            (1, Poll(4), Shows(0, true, &[ONE, TWO, THREE])),
            (1, Complete(2), Says(Completed)),
            (1, Poll(4), Says(Drained)),
        ],
        claimed: 3,
        halted: true,
        handlers: &[(3, 3), (3, 2)],
        lying: [1, 2, 3, 103],
        ..TWO_SENDERS
    },
];
