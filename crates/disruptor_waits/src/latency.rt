//! How long an event takes through three handlers, each on a thread of its own and each following the one before it:
//! from before its claim until the last handler is shown it.

mod handling;
mod passing;
mod sending;

use crate::fault::Fault;
use crate::words::{Exchange, Order, STRATEGIES};
use passing::pass;
use std::alloc::Global;
use std::rt::Runtime;
use std::sync::Wait;
use std::thread::Threads;

/// How many events a check sends by each exchange and strategy.
pub const CHECKED: usize = 100;

/// How many nanoseconds lie between two of them.
const CHECKED_GAP: u64 = 50_000;

fn print_all(rt: &impl Runtime, took: &[u64]) -> Result<(), Fault> {
    for nanos in took {
        println!(rt; "{nanos}")?;
    }
    Ok(())
}

/// Prints how many nanoseconds each event took, a line an event.
pub fn measure<R: Runtime + Threads + Wait + Copy + Send + 'static>(
    rt: R,
    alloc: Global,
    order: Order,
) -> Result<(), Fault> {
    let took = pass(rt, alloc, order)?;
    print_all(&rt, took.as_slice())
}

// Sends the events of a measurement. The last handler is to note each.
fn check_one<R: Runtime + Threads + Wait + Copy + Send + 'static>(
    rt: R,
    alloc: Global,
    order: Order,
) -> Result<(), Fault> {
    let took = pass(rt, alloc, order)?;
    if took.contains(&0) {
        return Err(Fault::Lost);
    }
    Ok(())
}

/// Sends some events through an exchange by each strategy.
pub fn check<R: Runtime + Threads + Wait + Copy + Send + 'static>(
    rt: R,
    alloc: Global,
    exchange: Exchange,
) -> Result<(), Fault> {
    for strategy in STRATEGIES {
        let order = Order {
            exchange,
            strategy,
            events: CHECKED,
            gap: CHECKED_GAP,
        };
        check_one(rt, alloc, order)?;
    }
    Ok(())
}
