//! One thread: a producer and three handlers over a core, and a handler of one's own.
#![tactic(auto)]

use dr_core::Core;
use dr_graph::{Graph, GraphBuilder, GraphFault};
use dr_meaning::{InPlaceHandler, MAX_LIMIT, Mode, OpenFault, Refusal};
use dr_seq::{Size, SizeFault};
use std::alloc::Global;
use std::process::ExitCode;
use thiserror::Error;

#[derive(Debug, Drop, Error)]
enum Fault {
    #[error("size: {0}")]
    Size(#[from] SizeFault),
    #[error("graph: {0}")]
    Graph(#[from] GraphFault),
    #[error("open: {0}")]
    Open(#[from] OpenFault),
    #[error("call: {0}")]
    Call(#[from] Refusal),
}

/// What this program's producer sends. An event may be of any type that is `Copy`.
#[derive(Clone, Copy)]
struct Order {
    account: u64,
    instrument: u64,
    price: u64,
    quantity: u64,
    sent_at: u64,
    is_buy: bool,
    reference: [u8; 16],
}

impl Order {
    /// What the slots hold before the first order.
    const NONE: Order = Order {
        account: 0,
        instrument: 0,
        price: 0,
        quantity: 0,
        sent_at: 0,
        is_buy: false,
        reference: [0; 16],
    };

    /// An order to buy so many.
    fn to_buy(quantity: u64) -> Order {
        Order {
            account: 7,
            instrument: 42,
            price: 1250,
            quantity,
            sent_at: quantity,
            is_buy: true,
            reference: *b"first come, best",
        }
    }
}

/// Adds up the quantities of what it is shown, where it lies.
#[derive(Drop)]
struct Sum {
    total: u64,
}

impl InPlaceHandler<Order> for Sum {
    ghost use Rattle.std.specs.Prelude.{◌≡◌, ◌+◌, ◌%◌, ◌^◌};

    ghost goes = { λ old event s end new. new.total ≡ (old.total + event.quantity) % 2 ^ 64 };

    fn on_event_in_place(&mut self, event: &Order, _s: u64, _end: bool) {
        self.total = self.total.wrapping_add(event.quantity);
    }
}

fn graph(alloc: Global) -> Result<Graph, GraphFault> {
    let mut builder = GraphBuilder::new(alloc);
    let sides = builder.handle_with(&["journal", "replica"])?;
    let _last = builder.then(&sides, &["business"])?;
    builder.build()
}

/// Sends an order, if there is room for it.
fn send(core: &mut Core<Order>, order: Order) -> Result<(), Refusal> {
    let claimed = core.claim(0, 1)?;
    core.write(0, claimed.lo, order)?;
    core.publish(0, claimed.lo, claimed.hi)
}

/// Gives each handler a turn, in the graph's order.
fn turns(core: &mut Core<Order>, sums: &mut [Sum; 3]) -> Result<(), Refusal> {
    for (h, sum) in sums.iter_mut().enumerate() {
        core.turn_in_place(h, sum)?;
    }
    Ok(())
}

/// Sends a hundred orders, for which the handlers make room, and halts.
fn exchange(core: &mut Core<Order>, sums: &mut [Sum; 3]) -> Result<(), Refusal> {
    for quantity in 1..=100 {
        let order = Order::to_buy(quantity);
        match send(core, order) {
            Err(Refusal::NoRoom) => {
                turns(core, sums)?;
                send(core, order)?;
            }
            sent => sent?,
        }
    }
    core.halt();
    turns(core, sums)
}

/// A core of eight slots.
fn open(alloc: Global) -> Result<Core<Order>, Fault> {
    let size = Size::new(8)?;
    let graph = graph(alloc)?;
    Ok(Core::open(alloc, graph, size, Mode::Single, MAX_LIMIT, Order::NONE)?)
}

fn run(alloc: Global) -> Result<[Sum; 3], Fault> {
    let mut core = open(alloc)?;
    let mut sums = [Sum { total: 0 }, Sum { total: 0 }, Sum { total: 0 }];
    exchange(&mut core, &mut sums)?;
    Ok(sums)
}

fn main(rt: HostRuntime) -> ExitCode {
    match run(rt.alloc()) {
        Ok([journal, replica, business]) => {
            let _printed = rt.println(&journal.total);
            let _printed = rt.println(&replica.total);
            let _printed = rt.println(&business.total);
            ExitCode::SUCCESS
        }
        Err(fault) => {
            let _printed = rt.eprintln(&fault);
            ExitCode::FAILURE
        }
    }
}
