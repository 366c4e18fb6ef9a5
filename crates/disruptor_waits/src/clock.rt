//! Time that has gone.

use std::time::{Clock, Instant};

/// How many nanoseconds have gone since then, if a clock tells it.
pub fn nanos_since(clock: &impl Clock, begun: Instant) -> Option<u64> {
    let time = begun.elapsed(clock).ok()?;
    let seconds = time.as_secs().saturating_mul(1_000_000_000);
    Some(seconds.saturating_add(u64::from(time.subsec_nanos())))
}

/// How many microseconds have gone since then, if a clock tells it.
pub fn micros_since(clock: &impl Clock, begun: Option<Instant>) -> Option<u64> {
    Some(nanos_since(clock, begun?)? / 1000)
}

/// Looks at the clock until so many nanoseconds have gone since then, and tells how many have.
pub fn await_nanos(clock: &impl Clock, begun: Instant, due: u64) -> u64 {
    for _ in 0..u64::MAX {
        let now = nanos_since(clock, begun).unwrap_or(u64::MAX);
        if now >= due {
            return now;
        }
    }
    u64::MAX
}

/// Lets up to 255 microseconds go by, other ones for each number, in which the threads that look for the next event
/// go to sleep, or are about to, or not yet.
pub fn pause(clock: &impl Clock, number: u64) {
    let micros = number.wrapping_mul(0x9e37_79b9_7f4a_7c15) >> 56;
    if let Ok(begun) = Instant::now(clock) {
        await_nanos(clock, begun, micros.saturating_mul(1000));
    }
}
