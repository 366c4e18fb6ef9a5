//! Worked runs over a ring with one sender, of words or of plain memory.

use crate::calls::Answer::{Says, Shows};
use crate::calls::Call::{Claim, Close, Complete, Halt, Poll, Publish, Write};
use crate::events::{EIGHT, FIRST_PAIR, FIVE, NINE, ONE, PAIR, SEVEN, SIX, THREE, TWO};
use crate::graphs::Shape;
use crate::playing::{NO_CALLS, Run};
use dr_meaning::Refusal::{
    AlreadyPublished, BadCount, Behind, Exhausted, Halted, NoRoom, NotClaimed, NotTaken,
    NotWritten, OpenClaim, OutOfOrder,
};
use dr_meaning::Reply::{
    Claimed, Completed, Drained, Gating, Halting, Idle, Published, Refused, Written,
};

const RING_CHAIN: Run = Run {
    name: "ring_chain",
    shape: Shape::Chain,
    size: 2,
    rows: &[
        (0, Claim(2), Says(Claimed { lo: 0, hi: 1 })),
        (0, Write(0, SEVEN), Says(Written)),
        (0, Write(1, EIGHT), Says(Written)),
        (0, Close, Says(Refused(OpenClaim))),
        (0, Publish(0, 1), Says(Published)),
        (0, Claim(1), Says(Refused(NoRoom))),
        (0, Poll(8), Shows(0, true, &[SEVEN, EIGHT])),
        (1, Poll(8), Says(Gating)),
        (0, Complete(2), Says(Completed)),
        (1, Poll(1), Shows(0, false, &[SEVEN])),
        (1, Complete(1), Says(Completed)),
        (0, Close, Says(Halting)),
        (0, Claim(1), Says(Refused(Halted))),
        (0, Poll(8), Says(Drained)),
        (1, Poll(8), Shows(1, true, &[EIGHT])),
        (1, Poll(8), Says(Drained)),
    ],
    claimed: 2,
    published: 2,
    handlers: &[(2, 2), (2, 1)],
    ..NO_CALLS
};

const RING_HALT: Run = Run {
    name: "ring_halt",
    rows: &[
        (0, Halt, Says(Halting)),
        (0, Claim(1), Says(Refused(Halted))),
        (0, Poll(8), Says(Idle)),
        (0, Close, Says(Halting)),
        (0, Poll(8), Says(Drained)),
    ],
    ..NO_CALLS
};

const TWO_RECEIVERS: Run = Run {
    name: "two_receivers_side_by_side",
    shape: Shape::SideBySide,
    size: 2,
    rows: &[
        (0, Claim(3), Says(Refused(BadCount))),
        (0, Claim(0), Says(Refused(BadCount))),
        (0, Claim(2), Says(Claimed { lo: 0, hi: 1 })),
        (0, Publish(0, 1), Says(Refused(NotWritten))),
        (0, Write(0, ONE), Says(Written)),
        (0, Write(1, TWO), Says(Written)),
        (0, Publish(1, 1), Says(Refused(OutOfOrder))),
        (0, Publish(1, 0), Says(Refused(BadCount))),
        (0, Publish(0, 2), Says(Refused(NotClaimed))),
        (0, Publish(0, 1), Says(Published)),
        (0, Write(1, NINE), Says(Refused(AlreadyPublished))),
        (0, Write(2, NINE), Says(Refused(NotClaimed))),
        (0, Publish(1, 1), Says(Refused(AlreadyPublished))),
        (0, Poll(8), Shows(0, true, &[ONE, TWO])),
        (0, Complete(2), Says(Completed)),
        (0, Claim(1), Says(Refused(NoRoom))),
        (1, Poll(1), Shows(0, false, &[ONE])),
        (1, Complete(2), Says(Refused(NotTaken))),
        (1, Complete(1), Says(Completed)),
        (0, Claim(2), Says(Refused(NoRoom))),
        (0, Claim(1), Says(Claimed { lo: 2, hi: 2 })),
        (1, Complete(0), Says(Refused(Behind))),
        (0, Poll(8), Says(Idle)),
        (0, Poll(0), Says(Refused(BadCount))),
        (0, Write(2, THREE), Says(Written)),
        (0, Publish(2, 2), Says(Published)),
        (0, Poll(8), Shows(2, true, &[THREE])),
        (1, Poll(8), Shows(1, true, &[TWO, THREE])),
    ],
    claimed: 3,
    published: 3,
    handlers: &[(3, 2), (3, 1)],
    ..NO_CALLS
};

const HALTS_AND_THEN_CLOSES: Run = Run {
    name: "halts_and_then_closes",
    rows: &[
        (0, Claim(2), Says(Claimed { lo: 0, hi: 1 })),
        (0, Halt, Says(Halting)),
        (0, Claim(1), Says(Refused(Halted))),
        (0, Claim(9), Says(Refused(BadCount))),
        (0, Write(0, FIVE), Says(Written)),
        (0, Write(1, SIX), Says(Written)),
        (0, Publish(0, 0), Says(Published)),
        (0, Poll(8), Shows(0, true, &[FIVE])),
        (0, Poll(8), Says(Idle)),
        (0, Close, Says(Refused(OpenClaim))),
        (0, Publish(1, 1), Says(Published)),
        (0, Close, Says(Halting)),
        (0, Close, Says(Halting)),
        (0, Poll(8), Shows(1, true, &[SIX])),
        (0, Poll(8), Says(Drained)),
    ],
    claimed: 2,
    published: 2,
    handlers: &[(2, 0)],
    ..NO_CALLS
};

const PAIRS: Run = Run {
    name: "pairs_on_the_ring",
    rows: &[
        (0, Claim(1), Says(Claimed { lo: 0, hi: 0 })),
        (0, Write(0, FIRST_PAIR), Says(Written)),
        (0, Write(0, PAIR), Says(Written)),
        (0, Publish(0, 0), Says(Published)),
        (0, Poll(8), Shows(0, true, &[PAIR])),
    ],
    claimed: 1,
    published: 1,
    handlers: &[(1, 0)],
    ..NO_CALLS
};

const LIMITS_OF_SEQUENCES: Run = Run {
    name: "limits_of_sequences",
    limit: 3,
    rows: &[
        (0, Claim(3), Says(Claimed { lo: 0, hi: 2 })),
        (0, Claim(1), Says(Refused(Exhausted))),
        (0, Claim(2), Says(Refused(Exhausted))),
    ],
    claimed: 3,
    ..NO_CALLS
};

const NEW_RING: Run = Run {
    name: "a_new_ring_settles",
    shape: Shape::Diamond,
    handlers: &[(0, 0), (0, 0), (0, 0)],
    ..NO_CALLS
};

pub const RUNS: [Run; 7] = [
    RING_CHAIN,
    RING_HALT,
    TWO_RECEIVERS,
    HALTS_AND_THEN_CLOSES,
    PAIRS,
    LIMITS_OF_SEQUENCES,
    NEW_RING,
];
