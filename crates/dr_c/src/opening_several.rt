//! A ring of several senders is opened, and its ends are put into handles.

ghost use Rattle.std.specs.Prelude.{◌≡◌, false, length, map, All, IfErr, IfOk, OnOk};
ghost use Rattle.dr_c.specs.OpenFault.{IsFine, IsWhy};
ghost use Rattle.dr_c.specs.Opening.{ends_in, has};
ghost use Rattle.dr_c.specs.OpeningSeveral.{AreOpened, Opens, are_all_open, end_of};
ghost use Rattle.dr_c.specs.Slots.{HasClaimed};
ghost use Rattle.dr_c.specs.declared.end.End.TheVariants.{SenderOfSeveral, ReceiverOfSeveral};

use crate::amiss::checked_size;
use crate::end::End;
use crate::graph::graph;
use crate::handle::Handle;
use crate::one_of_several::OneOfSeveral;
use crate::open_fault::OpenFault;
use crate::opening::{are_open, as_many, boxed, fill, free_all};
use dr_plain_senders::{Halter, Receiver, Sender, ring};
use dr_seq::Event;
use std::alloc::{AllocError, Global};

// Each sender with what is known of it.
fn each_of_several(
    alloc: Global,
    senders: Vec<Sender<Event>>,
) -> Result<Vec<OneOfSeveral>, AllocError>
    requires { All HasClaimed senders.items }
    ensures { IfOk result (λ each. map end_of each.items ≡ senders.items) }
{
    let mut each = Vec::with_capacity(alloc, senders.len())?;
    for sender in senders {
        each.push(OneOfSeveral::new(sender))?;
    }
    Ok(each)
}

// The ends of a ring, or what refuses it.
#[tactic(auto, using(crate::proofs::Opened::no_memory, crate::proofs::OpenedSeveral::opened_by, crate::proofs::OpenedSeveral::fresh_claimed))]
fn ends(
    alloc: Global,
    size: u64,
    limit: u64,
    masks: &[u64],
    senders: usize,
) -> Result<(Vec<OneOfSeveral>, Vec<Receiver<Event>>, Halter<Event>), OpenFault>
    ensures made { IfOk result (λ made. AreOpened size limit masks.now senders (map end_of made.0.items) made.1.items made.2) }
    ensures fine { IfOk result (λ made. IsFine false (length masks.now) senders size limit masks.now) }
    ensures refused { IfErr result (λ fault. IsWhy false (length masks.now) senders size limit masks.now fault) }
{
    let size = match checked_size(size, limit, masks, senders) {
        Ok(size) => size,
        Err(fault) => return Err(fault),
    };
    let Ok(graph) = graph(alloc, masks) else {
        return Err(OpenFault::NoMemory);
    };
    let Ok(events) = vec![in alloc; Event::NONE; size.get() as usize] else {
        return Err(OpenFault::NoMemory);
    };
    // (the senders and the limit are good ones by now)
    let Ok((ss, rs, h)) = ring(alloc, &graph, size, limit, senders, events) else {
        return Err(OpenFault::NoMemory);
    };
    let Ok(ss) = each_of_several(alloc, ss) else {
        return Err(OpenFault::NoMemory);
    };
    Ok((ss, rs, h))
}

fn is_one_open(senders: &[Handle], receivers: &[Handle], halter: &Handle) -> bool
    ensures { result ≡ are_all_open senders.now receivers.now halter.now }
{
    are_open(senders) || are_open(receivers) || halter.is_open()
}

fn fill_both(
    alloc: Global,
    senders: &mut [Handle],
    ss: Vec<OneOfSeveral>,
    receivers: &mut [Handle],
    rs: Vec<Receiver<Event>>,
) -> Result<(), OpenFault>
    ensures { OnOk result ((ends_in senders.new ≡ map has (map SenderOfSeveral ss.items)) × (ends_in receivers.new ≡ map has (map ReceiverOfSeveral rs.items))) }
{
    let ss = ss.into_iter().map(End::SenderOfSeveral).collect(alloc);
    let rs = rs.into_iter().map(End::ReceiverOfSeveral).collect(alloc);
    let ss = as_many(ss, senders.len())?;
    let rs = as_many(rs, receivers.len())?;
    fill(alloc, senders, ss)?;
    fill(alloc, receivers, rs)
}

/// Opens a ring into handles, one for each sender, or says what refuses it.
#[tactic(auto, using(crate::proofs::Opened::still_open, crate::proofs::Opened::bad_count, crate::proofs::Opened::why_here, crate::proofs::Opened::fine_here, crate::proofs::Opened::no_memory_here, crate::proofs::Opened::senders_again, crate::proofs::Opened::receivers_again))]
pub fn open(
    alloc: Global,
    size: u64,
    limit: u64,
    masks: &[u64],
    senders: &mut [Handle],
    receivers: &mut [Handle],
    halter: &mut Handle,
) -> Result<(), OpenFault>
    ensures { Opens size limit masks.now senders.old receivers.old halter.old senders.new receivers.new halter.new result }
{
    if is_one_open(senders, receivers, halter) {
        return Err(OpenFault::StillOpen);
    }
    if receivers.len() != masks.len() {
        return Err(OpenFault::BadCount);
    }
    let (ss, rs, h) = match ends(alloc, size, limit, masks, senders.len()) {
        Ok(ends) => ends,
        Err(fault) => return Err(fault),
    };
    let Ok(h) = boxed(alloc, End::HalterOfSeveral(h)) else {
        return Err(OpenFault::NoMemory);
    };
    match fill_both(alloc, senders, ss, receivers, rs) {
        Ok(()) => {
            halter.keep(h);
            Ok(())
        }
        Err(_) => {
            free_all(alloc, senders);
            free_all(alloc, receivers);
            Err(OpenFault::NoMemory)
        }
    }
}
