//! What all workers of a run share.

use dr_lock::{Exchange, Shared};
use dr_seq::{Event, Size};
use dr_workers::{Bell, WaitStrategy};

/// What all workers of a run share.
#[derive(Drop)]
pub struct Around<'a, L: Exchange<Event>, R> {
    pub rt: &'a R,
    pub shared: &'a Shared<Event, L>,
    pub bell: &'a Bell,
    pub size: Size,
    pub strategy: WaitStrategy,
}
