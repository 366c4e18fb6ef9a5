//! The calls of a ring's ends by the traits of ends, none of which takes memory.

use crate::core_calls::{FIVE, FOUR};
use crate::telling::Lines;
use dr_meaning::Polled::Batch;
use dr_meaning::{Inlet, Outlet};
use dr_seq::Event;

/// Sends two events.
pub fn tell_inlet<R: Print, I: Inlet<Event>>(out: &Lines<R>, inlet: &mut I) {
    let claimed = inlet.try_claim(2);
    out.value(claimed);
    if let Ok(claim) = claimed {
        out.value(inlet.write_all(claim.lo, &[FOUR, FIVE]));
        out.value(inlet.publish(claim.lo, claim.hi));
    }
}

/// Receives what was sent.
fn tell_outlet<R: Print, O: Outlet<Event>>(out: &Lines<R>, outlet: &mut O) {
    let mut events = [Event::NONE; 4];
    let polled = outlet.poll_into(&mut events);
    out.between(polled, " ", events);
    if let Ok(Batch { first, count, .. }) = polled {
        out.value(outlet.complete(first.wrapping_add(count)));
    }
}

/// Each of the receivers does, one after another.
pub fn tell_outlets<R: Print, O: Outlet<Event>>(out: &Lines<R>, outlets: &mut [O]) {
    for outlet in outlets.iter_mut() {
        tell_outlet(out, outlet);
    }
}
