//! What a poll tells C.

/// What a poll answers.
#[repr(C)]
#[derive(Drop)]
pub struct Offer {
    /// 0 a batch, 1 gating, 2 idle, 3 drained.
    pub kind: u32,
    /// 1 where the batch's last event is the last that was available.
    pub end: u32,
    /// The sequence of the first event.
    pub first: u64,
    /// How many events were taken.
    pub count: u64,
}
