//! Two feeds, each on a thread of its own, send orders to a risk check, and then to a journal: handlers of two types.
#![tactic(auto)]

use dr_disruptor::{
    InPlaceHandler, Refusal, RunFault, SeveralSender, WaitStrategy, Way, new_events, run_senders,
};
use dr_graph::GraphBuilder;
use dr_seq::Size;

#[derive(Clone, Copy, Default)]
struct Order {
    account: u64,
    quantity: u64,
}

/// Keeps the greatest quantity that was ordered at once.
#[derive(Clone, Copy, Default)]
struct Risk {
    greatest: u64,
}

impl InPlaceHandler<Order> for Risk {
    ghost use Rattle.std.specs.Prelude.{◌≡◌, max};

    ghost goes = { λ old order s end new. new.greatest ≡ max old.greatest order.quantity };

    fn on_event_in_place(&mut self, order: &Order, _s: u64, _end: bool) {
        self.greatest = self.greatest.max(order.quantity);
    }
}

/// Counts the orders of the first account, and those of the others.
#[derive(Clone, Copy, Default)]
struct Journal {
    first: u64,
    others: u64,
}

impl InPlaceHandler<Order> for Journal {
    ghost use Rattle.std.specs.Prelude.{◌≡◌, ◌+◌, ◌%◌, ◌^◌, ◌==◌, if◌then◌else◌};

    ghost goes = { λ old order s end new. (new.first ≡ (if order.account == 1 then (old.first + 1) % 2 ^ 64 else old.first)) × (new.others ≡ (if order.account == 1 then old.others else (old.others + 1) % 2 ^ 64)) };

    fn on_event_in_place(&mut self, order: &Order, _s: u64, _end: bool) {
        if order.account == 1 {
            self.first = self.first.wrapping_add(1);
        } else {
            self.others = self.others.wrapping_add(1);
        }
    }
}

/// The first refusal of a feed, if one was refused.
fn all_sent(feeds: &[Result<(), Refusal>]) -> Result<(), Refusal> {
    for sent in feeds {
        (*sent)?;
    }
    Ok(())
}

fn main(rt: HostRuntime) -> Result<(), RunFault> {
    let (alloc, size) = (rt.alloc(), Size::new(64)?);
    let mut builder = GraphBuilder::new(alloc);
    let risk = builder.handle_with(&["risk"])?;
    builder.then(&risk, &["journal"])?;
    let graph = builder.build()?;
    let orders = new_events(alloc, size, || Ok(Order::default()))?;
    let handlers = (Risk::default(), Journal::default());
    let mut feeds = Vec::new(alloc);
    for account in [1u64, 2] {
        feeds.push(move |sender: &mut SeveralSender<HostRuntime, Order>| {
            sender.publish_each(500, 8, |order: &mut Order, k| {
                order.account = account;
                order.quantity = 1 + k % 9;
            })
        })?;
    }
    let way = Way::by(WaitStrategy::Parking);
    let ran = run_senders(rt, alloc, &graph, size, orders, handlers, way, feeds)?;
    all_sent(ran.sent.as_slice())?;
    let (risk, journal) = ran.handlers;
    let _printed = rt.println(&risk.greatest);
    let _printed = rt.println(&journal.first);
    let _printed = rt.println(&journal.others);
    Ok(())
}
