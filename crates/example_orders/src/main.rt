//! Orders go to a journal and a risk check side by side, and then to a matching engine, each on a thread of its own.
#![tactic(auto)]

use dr_disruptor::{InPlaceHandler, RunFault, WaitStrategy, Way, new_events, run};
use dr_graph::GraphBuilder;
use dr_seq::Size;

#[derive(Clone, Copy, Default)]
struct Order {
    account: u64,
    price: u64,
    quantity: u64,
    instrument: u32,
    is_sale: bool,
}

/// Adds up the quantities of the orders that it is shown.
#[derive(Clone, Copy, Default)]
struct Sum {
    total: u64,
}

impl InPlaceHandler<Order> for Sum {
    ghost use Rattle.std.specs.Prelude.{◌≡◌, ◌+◌, ◌%◌, ◌^◌};

    ghost goes = { λ old order s end new. new.total ≡ (old.total + order.quantity) % 2 ^ 64 };

    fn on_event_in_place(&mut self, order: &Order, _s: u64, _end: bool) {
        self.total = self.total.wrapping_add(order.quantity);
    }
}

fn main(rt: HostRuntime) -> Result<(), RunFault> {
    let (alloc, size) = (rt.alloc(), Size::new(64)?);
    let mut builder = GraphBuilder::new(alloc);
    let first = builder.handle_with(&["journal", "risk"])?;
    builder.then(&first, &["matching"])?;
    let graph = builder.build()?;
    let orders = new_events(alloc, size, || Ok(Order::default()))?;
    let sums = vec![in alloc; Sum::default(); 3]?;
    let way = Way::by(WaitStrategy::Parking);
    let ran = run(rt, alloc, &graph, size, orders, sums, way, |sender| {
        sender.publish_each(1000, 16, |order: &mut Order, k| order.quantity = 1 + k % 3)
    })?;
    ran.sent?;
    for sum in ran.handlers.iter() {
        let _printed = rt.println(&sum.total);
    }
    Ok(())
}
