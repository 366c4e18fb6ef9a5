//! What was measured, and its line.

use crate::arguments::Order;
use std::fmt;
use std::time::Duration;

/// One round: how many events went through, and how long they took.
#[derive(Clone, Copy)]
pub struct Round {
    pub events: u64,
    pub time: Duration,
}

impl Round {
    /// Events a second, rounded down.
    pub fn per_second(&self) -> u128 {
        u128::from(self.events) * 1_000_000_000 / self.time.as_nanos().max(1)
    }
}

/// The round in the middle by events a second; of an even number the faster one of the two.
pub fn median(rounds: &mut [Round]) -> Option<Round> {
    rounds.sort_unstable_by_key(|round| round.per_second());
    rounds.get(rounds.len() / 2).copied()
}

/// The line of a measurement, which `bench/exchanges.py` reads.
#[derive(Clone, Copy)]
pub struct Measured {
    pub order: Order,
    pub median: Round,
}

impl fmt::Display for Measured {
    fn fmt<W: fmt::Write>(&self, f: &mut fmt::Formatter<W>) -> fmt::Result {
        let exchange = self.order.topology.exchange.word();
        let topology = self.order.topology;
        let size = self.order.size.get();
        let events = self.median.events;
        let seconds = self.median.time.as_secs();
        let micros = self.median.time.subsec_micros();
        let rate = self.median.per_second();
        write!(
            f,
            "ours-{exchange} {topology} {size} {events} {seconds}.{micros:06} {rate}"
        )
    }
}
