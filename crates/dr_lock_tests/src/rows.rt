//! Worked runs: what is asked of an exchange, and what it answers.

use crate::graphs::Shape;
use crate::words::Answer::{
    Batch, Claimed, Completed, Drained, Gating, Halting, Idle, Published, Refused, Retired, Written,
};
use crate::words::Call::{Claim, Complete, Halt, Poll, Publish, Retire, Write};
use crate::words::{Answer, Call};
use dr_meaning::Refusal::{
    AlreadyPublished, BadCount, Behind, Exhausted, Halted, LastHandler, NoHandler, NoProducer,
    NoRoom, NotClaimed, NotFinal, NotTaken, NotWritten, OutOfOrder,
};
use dr_meaning::{MAX_LIMIT, Mode, Refusal};

/// A run of an exchange, and the first word of each event that its handlers received, batch after batch.
pub struct Run {
    pub shape: Shape,
    pub size: u64,
    pub mode: Mode,
    pub limit: u64,
    pub rows: &'static [(Call, Answer)],
    pub values: &'static [u64],
}

const FIRST_EVENT: Run = Run {
    shape: Shape::Alone,
    size: 4,
    mode: Mode::Single,
    limit: MAX_LIMIT,
    rows: &[
        (Claim(0, 1), Claimed(0, 0)),
        (Write(0, 0, 42), Written),
        (Publish(0, 0, 0), Published),
        (Poll(0, 8), Batch(0, 1, true)),
        (Complete(0, 1), Completed),
    ],
    values: &[42],
};

const RING_OF_ONE: Run = Run {
    shape: Shape::Alone,
    size: 1,
    mode: Mode::Single,
    limit: MAX_LIMIT,
    rows: &[
        (Claim(0, 1), Claimed(0, 0)),
        (Write(0, 0, 7), Written),
        (Claim(0, 1), Refused(NoRoom)),
        (Publish(0, 0, 0), Published),
        (Poll(0, 8), Batch(0, 1, true)),
        (Claim(0, 1), Refused(NoRoom)),
        (Complete(0, 1), Completed),
        (Claim(0, 1), Claimed(1, 1)),
    ],
    values: &[7],
};

const GAP_BETWEEN_PRODUCERS: Run = Run {
    shape: Shape::Alone,
    size: 4,
    mode: Mode::Multi(2),
    limit: MAX_LIMIT,
    rows: &[
        (Claim(0, 1), Claimed(0, 0)),
        (Claim(1, 2), Claimed(1, 2)),
        (Write(1, 1, 5), Written),
        (Write(1, 2, 6), Written),
        (Publish(1, 1, 2), Published),
        (Poll(0, 8), Gating),
        (Write(0, 0, 4), Written),
        (Publish(0, 0, 0), Published),
        (Poll(0, 8), Batch(0, 3, true)),
    ],
    values: &[4, 5, 6],
};

const CHAIN_OF_TWO: Run = Run {
    shape: Shape::Chain,
    size: 4,
    mode: Mode::Single,
    limit: MAX_LIMIT,
    rows: &[
        (Claim(0, 1), Claimed(0, 0)),
        (Write(0, 0, 9), Written),
        (Publish(0, 0, 0), Published),
        (Poll(1, 8), Gating),
        (Poll(0, 8), Batch(0, 1, true)),
        (Poll(1, 8), Gating),
        (Complete(0, 1), Completed),
        (Poll(1, 8), Batch(0, 1, true)),
    ],
    values: &[9, 9],
};

const DIAMOND_ROOM: Run = Run {
    shape: Shape::Diamond,
    size: 2,
    mode: Mode::Single,
    limit: MAX_LIMIT,
    rows: &[
        (Claim(0, 2), Claimed(0, 1)),
        (Write(0, 0, 10), Written),
        (Write(0, 1, 11), Written),
        (Publish(0, 0, 1), Published),
        (Poll(0, 8), Batch(0, 2, true)),
        (Poll(1, 8), Batch(0, 2, true)),
        (Complete(0, 2), Completed),
        (Complete(1, 2), Completed),
        (Poll(2, 8), Batch(0, 2, true)),
        (Complete(2, 1), Completed),
        (Claim(0, 2), Refused(NoRoom)),
        (Claim(0, 1), Claimed(2, 2)),
    ],
    values: &[10, 11, 10, 11, 10, 11],
};

const BAD_COUNTS: Run = Run {
    shape: Shape::Alone,
    size: 4,
    mode: Mode::Single,
    limit: MAX_LIMIT,
    rows: &[
        (Claim(0, 5), Refused(BadCount)),
        (Claim(0, 0), Refused(BadCount)),
        (Claim(1, 1), Refused(NoProducer)),
        (Poll(1, 1), Refused(NoHandler)),
        (Poll(0, 0), Refused(BadCount)),
        (Poll(0, 1), Idle),
    ],
    values: &[],
};

const LIMIT_OF_SEQUENCES: Run = Run {
    shape: Shape::Alone,
    size: 4,
    mode: Mode::Single,
    limit: 3,
    rows: &[
        (Claim(0, 3), Claimed(0, 2)),
        (Claim(0, 1), Refused(Exhausted)),
        (Claim(0, 2), Refused(Exhausted)),
    ],
    values: &[],
};

const REFUSED_PRODUCERS: Run = Run {
    shape: Shape::Alone,
    size: 4,
    mode: Mode::Multi(2),
    limit: MAX_LIMIT,
    rows: &[
        (Claim(0, 1), Claimed(0, 0)),
        (Publish(0, 0, 0), Refused(NotWritten)),
        (Write(0, 0, 3), Written),
        (Publish(1, 0, 0), Refused(NotClaimed)),
        (Publish(0, 0, 0), Published),
        (Publish(0, 0, 0), Refused(AlreadyPublished)),
        (Write(0, 0, 4), Refused(AlreadyPublished)),
        (Write(0, 1, 4), Refused(NotClaimed)),
        (Poll(0, 8), Batch(0, 1, true)),
    ],
    values: &[3],
};

const OUT_OF_ORDER: Run = Run {
    shape: Shape::Alone,
    size: 4,
    mode: Mode::Single,
    limit: MAX_LIMIT,
    rows: &[
        (Claim(0, 2), Claimed(0, 1)),
        (Write(0, 1, 8), Written),
        (Publish(0, 1, 1), Refused(OutOfOrder)),
        (Publish(0, 0, 1), Refused(NotWritten)),
        (Poll(0, 8), Idle),
        (Write(0, 0, 6), Written),
        (Publish(0, 0, 1), Published),
        (Poll(0, 1), Batch(0, 1, false)),
        (Poll(0, 1), Batch(1, 1, true)),
        (Poll(0, 1), Idle),
    ],
    values: &[6, 8],
};

const HALT_AND_DRAIN: Run = Run {
    shape: Shape::Alone,
    size: 4,
    mode: Mode::Multi(2),
    limit: MAX_LIMIT,
    rows: &[
        (Claim(0, 1), Claimed(0, 0)),
        (Halt, Halting),
        (Claim(0, 1), Refused(Halted)),
        (Claim(0, 9), Refused(BadCount)),
        (Poll(0, 8), Gating),
        (Write(0, 0, 5), Written),
        (Publish(0, 0, 0), Published),
        (Poll(0, 8), Batch(0, 1, true)),
        (Poll(0, 8), Drained),
        (Halt, Halting),
    ],
    values: &[5],
};

const DRAINED_BY_ONE_PRODUCER: Run = Run {
    shape: Shape::Alone,
    size: 4,
    mode: Mode::Single,
    limit: MAX_LIMIT,
    rows: &[
        (Claim(0, 1), Claimed(0, 0)),
        (Halt, Halting),
        (Claim(0, 1), Refused(Halted)),
        (Poll(0, 1), Idle),
        (Write(0, 0, 3), Written),
        (Publish(0, 0, 0), Published),
        (Poll(0, 1), Batch(0, 1, true)),
        (Poll(0, 1), Drained),
    ],
    values: &[3],
};

const OLDER_ROUND: Run = Run {
    shape: Shape::Alone,
    size: 2,
    mode: Mode::Multi(1),
    limit: MAX_LIMIT,
    rows: &[
        (Claim(0, 2), Claimed(0, 1)),
        (Write(0, 0, 1), Written),
        (Write(0, 1, 2), Written),
        (Publish(0, 0, 1), Published),
        (Poll(0, 8), Batch(0, 2, true)),
        (Complete(0, 2), Completed),
        (Claim(0, 2), Claimed(2, 3)),
        (Poll(0, 8), Gating),
    ],
    values: &[1, 2],
};

const GREATEST_NUMBERS: Run = Run {
    shape: Shape::Alone,
    size: 4,
    mode: Mode::Single,
    limit: MAX_LIMIT,
    rows: &[
        (Claim(0, 1), Claimed(0, 0)),
        (Write(0, 0, u64::MAX), Written),
        (Publish(0, 0, 0), Published),
        (Poll(0, 1), Batch(0, 1, true)),
        (Complete(0, 2), Refused(NotTaken)),
        (Complete(0, 1), Completed),
        (Complete(0, 0), Refused(Behind)),
    ],
    values: &[u64::MAX],
};

const A_CHAIN_RETIRES_FROM_ITS_END: Run = Run {
    shape: Shape::Chain,
    size: 2,
    mode: Mode::Single,
    limit: MAX_LIMIT,
    rows: &[
        (Claim(0, 2), Claimed(0, 1)),
        (Write(0, 0, 1), Written),
        (Write(0, 1, 2), Written),
        (Publish(0, 0, 1), Published),
        (Poll(0, 8), Batch(0, 2, true)),
        (Complete(0, 2), Completed),
        (Claim(0, 1), Refused(NoRoom)),
        (Retire(0), Refused(NotFinal)),
        (Retire(1), Retired),
        (Claim(0, 2), Claimed(2, 3)),
        (Poll(1, 8), Refused(Refusal::Retired)),
        (Retire(1), Refused(Refusal::Retired)),
        (Retire(0), Refused(LastHandler)),
        (Retire(2), Refused(NoHandler)),
    ],
    values: &[1, 2],
};

const A_CLAIM_WAITS_NO_LONGER_FOR_A_RETIRED_HANDLER: Run = Run {
    shape: Shape::SideBySide,
    size: 1,
    mode: Mode::Single,
    limit: MAX_LIMIT,
    rows: &[
        (Claim(0, 1), Claimed(0, 0)),
        (Write(0, 0, 9), Written),
        (Publish(0, 0, 0), Published),
        (Poll(1, 1), Batch(0, 1, true)),
        (Complete(1, 1), Completed),
        (Claim(0, 1), Refused(NoRoom)),
        (Retire(0), Retired),
        (Claim(0, 1), Claimed(1, 1)),
    ],
    values: &[9],
};

const COUNTS_AND_THE_LAST_HANDLER: Run = Run {
    shape: Shape::Alone,
    size: 4,
    mode: Mode::Single,
    limit: MAX_LIMIT,
    rows: &[
        (Claim(0, 2), Claimed(0, 1)),
        (Write(0, 0, 7), Written),
        (Publish(0, 0, 1), Refused(NotWritten)),
        (Publish(0, 0, 0), Published),
        (Poll(0, 2), Batch(0, 1, true)),
        (Complete(0, 1), Completed),
        (Retire(0), Refused(LastHandler)),
        (Halt, Halting),
    ],
    values: &[7],
};

const BATCHES_OF_A_PROCESSOR: Run = Run {
    shape: Shape::Alone,
    size: 4,
    mode: Mode::Single,
    limit: MAX_LIMIT,
    rows: &[
        (Claim(0, 3), Claimed(0, 2)),
        (Write(0, 0, 4), Written),
        (Write(0, 1, 5), Written),
        (Write(0, 2, 6), Written),
        (Publish(0, 0, 2), Published),
        (Poll(0, 2), Batch(0, 2, false)),
        (Complete(0, 2), Completed),
        (Poll(0, 2), Batch(2, 1, true)),
        (Complete(0, 3), Completed),
        (Poll(0, 2), Idle),
    ],
    values: &[4, 5, 6],
};

pub const RUNS: [Run; 17] = [
    FIRST_EVENT,
    RING_OF_ONE,
    GAP_BETWEEN_PRODUCERS,
    CHAIN_OF_TWO,
    DIAMOND_ROOM,
    BAD_COUNTS,
    LIMIT_OF_SEQUENCES,
    REFUSED_PRODUCERS,
    OUT_OF_ORDER,
    HALT_AND_DRAIN,
    DRAINED_BY_ONE_PRODUCER,
    OLDER_ROUND,
    GREATEST_NUMBERS,
    A_CHAIN_RETIRES_FROM_ITS_END,
    A_CLAIM_WAITS_NO_LONGER_FOR_A_RETIRED_HANDLER,
    COUNTS_AND_THE_LAST_HANDLER,
    BATCHES_OF_A_PROCESSOR,
];
