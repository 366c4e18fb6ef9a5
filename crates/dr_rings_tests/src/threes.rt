//! A worker's handler that adds up threes.

use crate::work::Adder;
use dr_meaning::Outlet;
use dr_seq::Event;
use dr_workers::{OpenGate, consume};
use std::sync::Wait;

/// How many events came, where each had a three.
pub fn receive_threes<R: Wait>(rt: &R, outlet: &mut impl Outlet<Event>, who: usize) -> Option<u64> {
    let mut adder = Adder { total: 0, count: 0 };
    let mut buffer = [Event::NONE; 64];
    let fault = consume(rt, outlet, &OpenGate, who, &mut adder, &mut buffer);
    if fault.is_some() || adder.total != adder.count.wrapping_mul(3) {
        return None;
    }
    Some(adder.count)
}
