//! How the workers of a run wait for one another.

ghost use Rattle.dr_workers.specs.Calls.Strategies.{Begins, HasCome, HasWaited};

use crate::bell::Bell;
use crate::parking::Parking;
use crate::patience::{Patience, Spinning};
use crate::waiting::Waiting;
use std::sync::Wait;

/// How the workers of a run wait for one another: LMAX's `WaitStrategy`.
#[derive(Clone, Copy, Debug, PartialEq, Eq)]
pub enum WaitStrategy {
    /// By [`Waiting`], which pauses and then yields its processor to others, again and again: LMAX's
    /// `YieldingWaitStrategy`. An event is taken soonest, and each idle thread takes a processor that
    /// nobody else wants.
    Yielding,
    /// By [`Spinning`], which never gives its processor away: LMAX's `BusySpinWaitStrategy`, for machines
    /// with a processor for each thread.
    Spinning,
    /// By [`Parking`], which yields for a while and then sleeps until something changes: LMAX's
    /// `BlockingWaitStrategy`. An idle thread takes next to nothing.
    Parking,
}

/// A worker's way of waiting, by one of the strategies.
#[derive(Drop)]
pub enum Waits<'a, R> {
    Yielding(Waiting),
    Spinning(Spinning),
    Parking(Parking<'a, R>),
}

impl WaitStrategy {
    /// The way of waiting of a worker that has room for so many events at once. One that parks is woken by
    /// the bell.
    pub fn begin<'a, R: Wait>(self, rt: &'a R, bell: &'a Bell, room: u64) -> Waits<'a, R>
        ensures { Begins self room result }
    {
        match self {
            WaitStrategy::Yielding => Waits::Yielding(Waiting::new(room)),
            WaitStrategy::Spinning => Waits::Spinning(Spinning),
            WaitStrategy::Parking => Waits::Parking(Parking::new(rt, bell, room)),
        }
    }
}

impl<R: Wait> Patience for Waits<'_, R> {
    ghost waits = { HasWaited };

    ghost finds = { HasCome };

    fn wait(&mut self) {
        match self {
            Waits::Yielding(waiting) => waiting.wait(),
            Waits::Spinning(spinning) => spinning.wait(),
            Waits::Parking(parking) => parking.wait(),
        }
    }

    fn found(&mut self, count: u64) {
        match self {
            Waits::Yielding(waiting) => waiting.found(count),
            Waits::Spinning(spinning) => spinning.found(count),
            Waits::Parking(parking) => parking.found(count),
        }
    }
}
