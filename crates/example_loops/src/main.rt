//! Orders from a feed go to a journal and a risk check side by side, and then to a matching engine, each on a
//! thread of its own. An order lies once in the ring's plain memory: the feed fills it in place, and each handler
//! reads it where it lies.
#![tactic(auto)]

use dr_graph::{Graph, GraphBuilder, GraphFault};
use dr_meaning::{InPlaceHandler, MAX_LIMIT, Polled, Refusal};
use dr_plain::{Receiver, Sender, ring};
use dr_seq::Size;
use dr_workers::Waiting;
use std::alloc::Global;
use std::process::ExitCode;
use std::sync::Wait;
use std::thread::{self, JoinHandle, Threads};
use thiserror::Error;

/// The most orders that a handler reads at once.
const BATCH: u64 = 64;

/// How many orders the feed has.
const ORDERS: u64 = 1000;

#[derive(Clone, Copy)]
struct Order {
    account: u64,
    price: u64,
    quantity: u64,
}

#[derive(Clone, Copy, Debug, Error)]
enum Fault {
    #[error("the graph: {0}")]
    Graph(GraphFault),
    #[error("refused: {0}")]
    Refused(Refusal),
    #[error("no memory, or no thread")]
    Memory,
}

/// Adds up the quantities of the orders that it is shown.
#[derive(Drop)]
struct Sum {
    total: u64,
}

impl InPlaceHandler<Order> for Sum {
    ghost use Rattle.std.specs.Prelude.{◌≡◌, ◌+◌, ◌%◌, ◌^◌};

    ghost goes = { λ old order s end new. new.total ≡ (old.total + order.quantity) % 2 ^ 64 };

    fn on_event_in_place(&mut self, order: &Order, _s: u64, _end: bool) {
        self.total = self.total.wrapping_add(order.quantity);
    }
}

/// Takes a handler through all orders, until the ring has drained.
fn serve<R: Wait>(rt: &R, mut receiver: Receiver<Order>) -> Result<u64, Fault> {
    let mut sum = Sum { total: 0 };
    let mut waiting = Waiting::new(BATCH);
    for _ in rt.forever() {
        match receiver.turn(&mut sum, BATCH) {
            Ok(Polled::Batch { count, .. }) => waiting.found(count),
            Ok(Polled::Drained) => return Ok(sum.total),
            Ok(Polled::Gating | Polled::Idle) => waiting.wait(),
            Err(refusal) => return Err(Fault::Refused(refusal)),
        }
    }
    unreachable!()
}

/// Sends one order, once there is room for it.
fn send<R: Wait>(rt: &R, sender: &mut Sender<Order>, order: Order) -> Result<(), Refusal> {
    let mut waiting = Waiting::new(1);
    for _ in rt.forever() {
        match sender.try_claim(1) {
            Ok(claimed) => {
                sender.update(claimed.lo, |event| *event = order)?;
                return sender.publish(claimed.lo, claimed.hi);
            }
            Err(Refusal::NoRoom) => waiting.wait(),
            Err(refusal) => return Err(refusal),
        }
    }
    unreachable!()
}

/// The feed's orders, one after another.
fn feed<R: Wait>(rt: &R, sender: &mut Sender<Order>) -> Result<(), Fault> {
    for number in 0..ORDERS {
        let order = Order {
            account: number % 7,
            price: 100 + number % 10,
            quantity: 1 + number % 3,
        };
        send(rt, sender, order).map_err(Fault::Refused)?;
    }
    Ok(())
}

fn declare(builder: &mut GraphBuilder) -> Result<(), GraphFault> {
    let first = builder.handle_with(&["journal", "risk"])?;
    builder.then(&first, &["matching"])?;
    Ok(())
}

fn graph(alloc: Global) -> Result<Graph, GraphFault> {
    let mut builder = GraphBuilder::new(alloc);
    declare(&mut builder)?;
    builder.build()
}

/// Sends the feed if somebody reads all of it, and closes the ring: the handlers end once it has drained, which it does
/// only when it is closed.
fn feed_and_close<R: Wait>(rt: &R, mut sender: Sender<Order>, is_read: bool) -> Result<(), Fault> {
    let sent = if is_read {
        feed(rt, &mut sender)
    } else {
        Err(Fault::Memory)
    };
    let _closed = sender.close();
    sent
}

/// What a handler added up, if its thread was started.
fn total<R: Threads, E: Drop>(
    rt: &R,
    handler: Result<JoinHandle<Result<u64, Fault>>, E>,
) -> Result<u64, Fault> {
    match handler {
        Ok(handler) => handler.join(rt),
        Err(_) => Err(Fault::Memory),
    }
}

/// Sends the feed through the three handlers, and gives what each added up.
fn exchange<R: Threads + Wait + Sync>(
    rt: &R,
    sender: Sender<Order>,
    mut receivers: Vec<Receiver<Order>>,
) -> Result<(u64, u64, u64), Fault> {
    let (Some(matching), Some(risk), Some(journal)) = (
        receivers.pop(),
        receivers.pop(),
        receivers.pop(),
    ) else {
        return Err(Fault::Memory);
    };
    thread::scope(
        thread::scope_env(),
        rt,
        move |scope| -> Result<(u64, u64, u64), Fault> {
            let journal = scope.spawn(move || serve(rt, journal));
            let risk = scope.spawn(move || serve(rt, risk));
            let matching = scope.spawn(move || serve(rt, matching));
            let is_read = journal.is_ok() && risk.is_ok() && matching.is_ok();
            let sent = feed_and_close(rt, sender, is_read);
            let totals = (total(rt, journal), total(rt, risk), total(rt, matching));
            sent?;
            Ok((totals.0?, totals.1?, totals.2?))
        },
    )
}

/// The ends of a ring of sixty-four slots.
fn open(alloc: Global, graph: &Graph) -> Option<(Sender<Order>, Vec<Receiver<Order>>)> {
    let Ok(size) = Size::new(64) else {
        return None;
    };
    let blank = Order {
        account: 0,
        price: 0,
        quantity: 0,
    };
    let Ok(orders) = vec![in alloc; blank; size.get() as usize] else {
        return None;
    };
    let Ok((sender, receivers, _halter)) = ring(alloc, graph, size, MAX_LIMIT, orders) else {
        return None;
    };
    Some((sender, receivers))
}

fn run<R: Threads + Wait + Sync>(rt: &R, alloc: Global) -> Result<(u64, u64, u64), Fault> {
    let graph = graph(alloc).map_err(Fault::Graph)?;
    match open(alloc, &graph) {
        Some((sender, receivers)) => exchange(rt, sender, receivers),
        None => Err(Fault::Memory),
    }
}

fn main(rt: HostRuntime) -> ExitCode {
    match run(&rt, rt.alloc()) {
        Ok((journal, risk, matching)) => {
            let _printed = rt.println(&journal);
            let _printed = rt.println(&risk);
            let _printed = rt.println(&matching);
            ExitCode::SUCCESS
        }
        Err(fault) => {
            let _printed = rt.eprintln(&fault);
            ExitCode::FAILURE
        }
    }
}
