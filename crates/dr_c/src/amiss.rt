//! What may be amiss with a ring that is to be made. To look for it takes no memory.

ghost use Rattle.std.specs.Prelude.{◌≡◌, ◌≢◌, ◌↔◌, ◌^◌, ◌<◌, ◌≤◌, false, length, IfErr, IfOk, IsTrue};
ghost use Rattle.dr_c.specs.Asked.{AreAllowed};
ghost use Rattle.dr_c.specs.OpenFault.{AreInOrder, IsFine, IsWhy};
ghost use Rattle.dr_c.specs.declared.open_fault.OpenFault.TheVariants.{NoMemory};

use crate::open_fault::OpenFault;
use dr_graph::MAX_HANDLERS;
use dr_meaning::{Mode, is_valid_limit};
use dr_seq::Size;

// Whether a mask names handlers before its own alone.
fn is_in_order(mask: u64, handler: usize) -> bool
    requires { handler < 16 }
    ensures { IsTrue result ↔ (mask < 2 ^ handler) }
{
    mask >> handler == 0
}

// Whether each mask does.
fn are_in_order(masks: &[u64]) -> bool
    requires { length masks.now ≤ 16 }
    ensures { IsTrue result ↔ AreInOrder masks.now }
{
    for k in 0..masks.len() {
        if !is_in_order(masks[k], k) {
            return false;
        }
    }
    true
}

/// The size of a ring with which nothing is amiss, or what is amiss first, which is never memory.
#[tactic(auto, using(crate::proofs::Opened::bad_size, crate::proofs::Opened::no_handlers, crate::proofs::Opened::too_many, crate::proofs::Opened::bad_order, crate::proofs::Opened::bad_producers, crate::proofs::Opened::bad_limit, crate::proofs::Opened::all_fine))]
pub fn checked_size(size: u64, limit: u64, masks: &[u64], senders: usize) -> Result<Size, OpenFault>
    // What is asked for has no fault, and it is this size.
    ensures size { IfOk result (λ made. made ≡ size) }
    ensures fine { IfOk result (λ made. IsFine false (length masks.now) senders size limit masks.now) }
    // Its masks are of 1 to 16 handlers, each after those that it follows.
    ensures masks { IfOk result (λ made. AreAllowed masks.now) }
    // The first fault is told, which is never memory.
    ensures refused { IfErr result (λ fault. IsWhy false (length masks.now) senders size limit masks.now fault) }
    ensures known { IfErr result (λ fault. fault ≢ NoMemory) }
{
    let Ok(slots) = Size::new(size) else {
        return Err(OpenFault::BadSize);
    };
    if masks.is_empty() {
        return Err(OpenFault::NoHandlers);
    }
    if masks.len() > MAX_HANDLERS {
        return Err(OpenFault::TooMany);
    }
    if !are_in_order(masks) {
        return Err(OpenFault::BadOrder);
    }
    if !Mode::Multi(senders as u64).is_valid() {
        return Err(OpenFault::BadProducers);
    }
    if !is_valid_limit(limit) {
        return Err(OpenFault::BadLimit);
    }
    Ok(slots)
}
