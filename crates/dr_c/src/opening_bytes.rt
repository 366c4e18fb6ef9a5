//! A ring of bytes is opened, and its ends are put into handles.

ghost use Rattle.std.specs.Prelude.{◌≡◌, false, length, replicate, IfErr, IfOk};
ghost use Rattle.dr_c.specs.OpenFault.{IsFine, IsWhy};
ghost use Rattle.dr_c.specs.OpeningBytes.{AreOpened, Opens};

use crate::amiss::checked_size;
use crate::bytes::Bytes;
use crate::end::End;
use crate::graph::graph;
use crate::handle::Handle;
use crate::open_fault::OpenFault;
use crate::opening::{as_many, boxed, fill, free_all, is_one_open};
use crate::writer::Writer;
use dr_plain::{Halter, Receiver, ring};
use std::alloc::{AllocError, Global};

// So many events of so many zeros each.
fn zeros(alloc: Global, count: usize, bytes: usize) -> Result<Vec<Bytes>, AllocError>
    ensures { IfOk result (λ events. events.items ≡ replicate count (replicate bytes 0)) }
{
    let mut events = Vec::with_capacity(alloc, count)?;
    for made in 0..count {
        events.push(Bytes::zeros(alloc, bytes)?)?;
    }
    Ok(events)
}

// The ends of a ring, or what refuses it.
#[tactic(auto, using(crate::proofs::Opened::no_memory, crate::proofs::OpenedBytes::fresh_fits, crate::proofs::OpenedBytes::opened_by))]
fn ends(
    alloc: Global,
    size: u64,
    limit: u64,
    bytes: usize,
    masks: &[u64],
) -> Result<(Writer, Vec<Receiver<Bytes>>, Halter<Bytes>), OpenFault>
    ensures made { IfOk result (λ made. AreOpened size limit bytes masks.now made.0 made.1.items made.2) }
    ensures fine { IfOk result (λ made. IsFine false (length masks.now) 1 size limit masks.now) }
    ensures refused { IfErr result (λ fault. IsWhy false (length masks.now) 1 size limit masks.now fault) }
{
    let size = match checked_size(size, limit, masks, 1) {
        Ok(size) => size,
        Err(fault) => return Err(fault),
    };
    let Ok(graph) = graph(alloc, masks) else {
        return Err(OpenFault::NoMemory);
    };
    let Ok(events) = zeros(alloc, size.get() as usize, bytes) else {
        return Err(OpenFault::NoMemory);
    };
    // (the limit is a good one by now)
    match ring(alloc, &graph, size, limit, events) {
        Ok((sender, receivers, halter)) => Ok((Writer::new(sender, bytes), receivers, halter)),
        Err(_) => Err(OpenFault::NoMemory),
    }
}

/// Opens a ring into handles, or says what refuses it.
#[tactic(auto, using(crate::proofs::Opened::still_open, crate::proofs::Opened::bad_count, crate::proofs::Opened::why_here, crate::proofs::Opened::fine_here, crate::proofs::Opened::no_memory_here, crate::proofs::Opened::freed_again))]
pub fn open(
    alloc: Global,
    size: u64,
    limit: u64,
    bytes: usize,
    masks: &[u64],
    sender: &mut Handle,
    receivers: &mut [Handle],
    halter: &mut Handle,
) -> Result<(), OpenFault>
    ensures { Opens size limit bytes masks.now sender.old receivers.old halter.old sender.new receivers.new halter.new result }
{
    if is_one_open(sender, receivers, halter) {
        return Err(OpenFault::StillOpen);
    }
    if receivers.len() != masks.len() {
        return Err(OpenFault::BadCount);
    }
    let (w, rs, h) = ends(alloc, size, limit, bytes, masks)?;
    let (Ok(w), Ok(h)) = (
        boxed(alloc, End::SenderOfBytes(w)),
        boxed(alloc, End::HalterOfBytes(h)),
    ) else {
        return Err(OpenFault::NoMemory);
    };
    let rs = rs.into_iter().map(End::ReceiverOfBytes).collect(alloc);
    let Ok(rs) = as_many(rs, receivers.len()) else {
        return Err(OpenFault::NoMemory);
    };
    let Ok(()) = fill(alloc, receivers, rs) else {
        free_all(alloc, receivers);
        return Err(OpenFault::NoMemory);
    };
    sender.keep(w);
    halter.keep(h);
    Ok(())
}
