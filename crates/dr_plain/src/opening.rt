//! A ring is made with all its ends.

ghost use Rattle.std.specs.Prelude.{◌≡◌, ◌<◌, ◌≤◌, ◌^◌, map, length, IfOk, IfErr, IsOk, false};
ghost use Rattle.dr_cells.specs.Tokens.{IsAll};
ghost use Rattle.std.specs.Arc.{arc_value};
ghost use denote.RawPtr.{Ptr};
ghost use Rattle.dr_meaning.specs.Calls.OpenFault.{is_bad_limit};
ghost use Rattle.dr_plain.specs.Meaning.Shape.{handlers_of};
ghost use Rattle.dr_plain.specs.Calls.Plans.{IsPlan};
ghost use Rattle.dr_plain.specs.Meaning.Moments.{fresh_receivers};
ghost use Rattle.dr_runs.specs.Seats.{fresh_seat};
ghost use Rattle.dr_plain.specs.Inside.Seats.{IsAtTable, known_receivers};
ghost use Rattle.dr_plain.specs.Inside.Making.{AreFreshStands, IsPrepared};
ghost use Rattle.dr_plain.specs.Calls.Settling.{AreAllEnds};
ghost use Rattle.dr_plain.specs.Calls.Making.{receiver_at_ring, AreFreshEnds, fault_of};

use crate::body::RingBody;
use crate::laws::{Halter, ReceiverStation, RingSeat, RingTable, SenderStation};
use crate::plan::Plan;
use crate::receiver::Receiver;
use crate::sender::Sender;
use dr_cells::{Cells, Row, Strip, Token};
use dr_graph::Graph;
use dr_lent::rows::{blanks, deal, empty_hands};
use dr_meaning::{OpenFault, is_valid_limit};
use dr_places::Places;
use dr_runs::{Cut, HandlerCounts, Written};
use dr_seq::{GateCache, Size};
use std::alloc::{AllocError, Global};
use std::sync::Arc;

// The receivers, each with its seat. `rest` stands for them all.
fn receivers<T: Drop>(
    alloc: Global,
    ring: &Arc<RingBody<T>, Global>,
    mut rest: RingSeat<T>,
) -> Result<Vec<Receiver<T>>, AllocError>
    requires table { IsAtTable rest.table_id (arc_value ring.now).table.shared.table_id (arc_value ring.now).plan }
    requires made { IsPlan (arc_value ring.now).plan }
    requires all { rest.me ≡ fresh_seat (known_receivers (arc_value ring.now).plan 0 (handlers_of (arc_value ring.now).plan)) }
    ensures { IfOk result (λ v. v.items ≡ map (λ r. receiver_at_ring rest.table_id r) (fresh_receivers (arc_value ring.now).plan 0 (handlers_of (arc_value ring.now).plan))) }
{
    let handlers = ring.plan.handlers();
    let mut receivers = Vec::with_capacity(alloc, handlers)?;
    for number in 0..handlers {
        let parts = blanks(alloc, ring.plan.size().get() as usize)?;
        let next = ring.table.shared.split_seat::<Cut>(&mut rest);
        let own = Arc::try_clone(ring)?;
        let station = ReceiverStation {
            ring: own,
            seat: rest,
            number,
            looks: 0,
        };
        receivers.push(Receiver {
            station,
            taken: 0,
            completed: 0,
            parts,
        })?;
        rest = next;
    }
    Ok(receivers)
}

// The body of a ring, with empty places in which its ends leave what they hold.
fn body<T: Drop>(
    alloc: Global,
    table: RingTable<T>,
    plan: Plan<T>,
) -> Result<Arc<RingBody<T>, Global>, AllocError>
    requires { table.shared.key ≡ plan }
    ensures { IfOk result (λ ring. ((arc_value ring).table ≡ table) × ((arc_value ring).plan ≡ plan)) }
{
    let senders = Places::new(alloc, 1, &table.shared)?;
    let receivers = Places::new(alloc, plan.handlers(), &table.shared)?;
    let halters = Places::new(alloc, 1, &table.shared)?;
    let body = RingBody {
        table,
        plan,
        senders,
        receivers,
        halters,
    };
    Ok(Arc::new(alloc, body)?)
}

// The stations of a ring for a plan, with its receivers.
fn stations<T: Drop>(
    alloc: Global,
    plan: Plan<T>,
) -> Result<(SenderStation<T>, Vec<Receiver<T>>, Halter<T>), AllocError>
    requires { IsPlan plan }
    ensures { IfOk result (λ made. AreFreshStands plan made.0 made.1.items made.2) }
{
    let words = vec![in alloc; 0; plan.words()]?;
    let slots = blanks(alloc, plan.slots())?;
    let Ok((table, mut seat)) = RingTable::new(alloc, words.as_slice(), slots, &plan) else {
        return Err(AllocError);
    };
    let ring = body(alloc, table, plan)?;
    let mut second = ring.table.shared.split_seat::<Cut>(&mut seat);
    let others = ring.table.shared.split_seat::<Cut>(&mut second);
    let receivers = receivers(alloc, &ring, others)?;
    let halter = Halter {
        ring: Arc::try_clone(&ring)?,
        seat: second,
    };
    let station = SenderStation {
        ring,
        seat,
        looks: 0,
    };
    Ok((station, receivers, halter))
}

// All of a ring but its cells: the ends' stations, and room for what its sender keeps.
struct Prepared<T> {
    station: SenderStation<T>,
    receivers: Vec<Receiver<T>>,
    halter: Halter<T>,
    written: Written,
    tokens: Vec<Token<T>>,
    counts: Vec<HandlerCounts>,
    hands: Vec<Vec<Token<T>>>,
}

fn prepare<T: Drop>(
    alloc: Global,
    graph: &Graph,
    size: Size,
    limit: u64,
    cells: Cells<T>,
) -> Result<Prepared<T>, AllocError>
    requires { (0 < limit) × (limit ≤ 2 ^ 62) }
    ensures { IfOk result (λ p. IsPrepared (record { upstreams = graph.now.upstreams; size = size; limit = limit; strip = cells.ptr }) p) }
{
    let plan = Plan::of(alloc, graph, size, limit, cells)?;
    let written = Written::new(alloc, size)?;
    let tokens = blanks(alloc, size.get() as usize)?;
    let counts = vec![in alloc; HandlerCounts::NONE; plan.handlers()]?;
    let hands = empty_hands(alloc, plan.handlers())?;
    let (station, receivers, halter) = stations(alloc, plan)?;
    Ok(Prepared {
        station,
        receivers,
        halter,
        written,
        tokens,
        counts,
        hands,
    })
}

// The ends of a ring, once its cells are there.
fn ends<T>(
    prepared: Prepared<T>,
    strip: Strip<T>,
    row: Row<T>,
) -> (Sender<T>, Vec<Receiver<T>>, Halter<T>)
    requires prepared { IsPrepared prepared.station.knows.plan prepared }
    requires strip { (prepared.station.knows.plan.strip ≡ strip.cells.ptr) × (prepared.station.knows.plan.size ≡ strip.len) × IsAll strip.cells.ptr strip.len row }
    ensures { AreFreshEnds prepared.station.knows.plan row.items result.0 result.1.items result.2 }
{
    let Prepared {
        station,
        receivers,
        halter,
        written,
        mut tokens,
        counts,
        hands,
    } = prepared;
    let count = tokens.len();
    deal(row, strip.cells, count, &mut tokens);
    let sender = Sender {
        station,
        claimed: 0,
        published: 0,
        gate: GateCache::new(),
        written,
        tokens,
        counts,
        hands,
        strip,
    };
    (sender, receivers, halter)
}

/// A ring for a graph of handlers, of a size, in which `limit` sequences may be claimed: its
/// sender, its receivers in the graph's order, and its halter. Each may be moved to a thread of
/// its own. The events are as many as the size: they are made once, and each is written again and
/// again.
///
/// It is refused with `BadLimit` where the limit is 0 or above [`dr_meaning::MAX_LIMIT`], and with
/// `NoMemory` where an allocation failed. The events are then dropped.
pub fn ring<T: Drop>(
    alloc: Global,
    graph: &Graph,
    size: Size,
    limit: u64,
    events: Vec<T>,
) -> Result<(Sender<T>, Vec<Receiver<T>>, Halter<T>), OpenFault>
    requires events { length events.items ≡ size }
    // They are all ends of a new ring of this shape, in which nothing is claimed, taken or halted.
    ensures made { IfOk result (λ made. (strip : Ptr) × AreFreshEnds (record { upstreams = graph.now.upstreams; size = size; limit = limit; strip = strip }) events.items made.0 made.1.items made.2) }
    ensures all { IfOk result (λ made. AreAllEnds made.0 made.1.items made.2) }
    // A limit of 0 or above 2^62 is refused; where none is, the fault is that memory ran out.
    ensures fits { IsOk result → is_bad_limit limit ≡ false }
    ensures refused { IfErr result (λ fault. fault ≡ fault_of limit) }
{
    if !is_valid_limit(limit) {
        return Err(OpenFault::BadLimit);
    }
    let (strip, row) = Strip::new(alloc, events)?;
    match prepare(alloc, graph, size, limit, strip.cells) {
        Ok(prepared) => Ok(ends(prepared, strip, row)),
        Err(_) => {
            drop(strip.close(row));
            Err(OpenFault::NoMemory)
        }
    }
}
