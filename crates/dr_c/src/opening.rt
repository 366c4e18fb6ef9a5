//! A ring is opened, and its ends are put into handles.

ghost use Rattle.std.specs.Prelude.{◌≡◌, false, None, Ok, length, replicate, is_some, map, IfErr, IfOk, OnOk};
ghost use Rattle.std.specs.List.{list_any};
ghost use Rattle.dr_c.specs.OpenFault.{IsFine, IsWhy};
ghost use Rattle.dr_c.specs.Opening.{AreOpened, Opens, are_open as are_open_of, ends_in, has};

use crate::amiss::checked_size;
use crate::end::End;
use crate::graph::graph;
use crate::handle::Handle;
use crate::open_fault::OpenFault;
use dr_ring::{Halter, Receiver, Sender, ring};
use std::alloc::{AllocError, Global};

// The ends of a ring, or what refuses it.
#[tactic(auto, using(crate::proofs::Opened::no_memory))]
fn ends(
    alloc: Global,
    size: u64,
    limit: u64,
    masks: &[u64],
) -> Result<(Sender, Vec<Receiver>, Halter), OpenFault>
    ensures made { IfOk result (λ made. AreOpened size limit masks.now made.0 made.1.items made.2) }
    ensures fine { IfOk result (λ made. IsFine false (length masks.now) 1 size limit masks.now) }
    ensures refused { IfErr result (λ fault. IsWhy false (length masks.now) 1 size limit masks.now fault) }
{
    let size = match checked_size(size, limit, masks, 1) {
        Ok(size) => size,
        Err(fault) => return Err(fault),
    };
    let Ok(graph) = graph(alloc, masks) else {
        return Err(OpenFault::NoMemory);
    };
    // (the limit is a good one by now)
    match ring(alloc, &graph, size, limit) {
        Ok(ends) => Ok(ends),
        Err(_) => Err(OpenFault::NoMemory),
    }
}

// A box of what may be sent to another thread.
fn in_box<T: Send + Drop>(alloc: Global, it: T) -> Result<Box<T, Global>, OpenFault>
    ensures { IfOk result (λ boxed. boxed.value ≡ it) }
{
    match Box::new(alloc, it) {
        Ok(it) => Ok(it),
        Err(_) => Err(OpenFault::NoMemory),
    }
}

/// An end that C may move to another thread: it is proved that its type may be sent.
pub fn boxed(alloc: Global, end: End) -> Result<Box<End, Global>, OpenFault>
    ensures { IfOk result (λ boxed. boxed.value ≡ end) }
{
    in_box(alloc, end)
}

/// Whether one of the handles is open.
pub fn are_open(handles: &[Handle]) -> bool
    ensures { result ≡ list_any (λ h. is_some h.held.value) handles.now }
{
    handles.iter().any(|handle| handle.is_open())
}

/// Whether one of the handles for a ring of one sender is open.
pub fn is_one_open(sender: &Handle, receivers: &[Handle], halter: &Handle) -> bool
    ensures { result ≡ are_open_of sender.now receivers.now halter.now }
{
    sender.is_open() || are_open(receivers) || halter.is_open()
}

/// The ends that were collected, if there are so many.
pub fn as_many(ends: Result<Vec<End>, AllocError>, count: usize) -> Result<Vec<End>, OpenFault>
    ensures { IfOk result (λ made. (ends ≡ Ok made) × (length made.items ≡ count)) }
{
    match ends {
        Ok(ends) if ends.len() == count => Ok(ends),
        _ => Err(OpenFault::NoMemory),
    }
}

/// Each end comes into the handle of its number.
pub fn fill(alloc: Global, handles: &mut [Handle], mut ends: Vec<End>) -> Result<(), OpenFault>
    requires { length handles.old ≡ length ends.items }
    ensures { OnOk result (ends_in handles.new ≡ map has ends.items) }
{
    while let Some(end) = ends.pop() {
        let own = boxed(alloc, end)?;
        handles[ends.len()].keep(own);
    }
    Ok(())
}

/// Frees what each handle has, as it was (`Handle::free`).
pub fn free_all(alloc: Global, handles: &mut [Handle])
    ensures { ends_in handles.new ≡ replicate (length handles.old) None }
{
    let mut left = handles.len();
    while left > 0 {
        left -= 1;
        drop(handles[left].free(alloc));
    }
}

/// Opens a ring into handles, or says what refuses it.
#[tactic(auto, using(crate::proofs::Opened::still_open, crate::proofs::Opened::bad_count, crate::proofs::Opened::why_here, crate::proofs::Opened::fine_here, crate::proofs::Opened::no_memory_here, crate::proofs::Opened::freed_again))]
pub fn open(
    alloc: Global,
    size: u64,
    limit: u64,
    masks: &[u64],
    sender: &mut Handle,
    receivers: &mut [Handle],
    halter: &mut Handle,
) -> Result<(), OpenFault>
    ensures { Opens size limit masks.now sender.old receivers.old halter.old sender.new receivers.new halter.new result }
{
    if is_one_open(sender, receivers, halter) {
        return Err(OpenFault::StillOpen);
    }
    if receivers.len() != masks.len() {
        return Err(OpenFault::BadCount);
    }
    let (s, rs, h) = ends(alloc, size, limit, masks)?;
    let (Ok(s), Ok(h)) = (boxed(alloc, End::Sender(s)), boxed(alloc, End::Halter(h))) else {
        return Err(OpenFault::NoMemory);
    };
    let rs = rs.into_iter().map(End::Receiver).collect(alloc);
    let Ok(rs) = as_many(rs, receivers.len()) else {
        return Err(OpenFault::NoMemory);
    };
    let Ok(()) = fill(alloc, receivers, rs) else {
        free_all(alloc, receivers);
        return Err(OpenFault::NoMemory);
    };
    sender.keep(s);
    halter.keep(h);
    Ok(())
}
