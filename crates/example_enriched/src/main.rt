//! A first handler finds the price of each trade and writes it into the event, where the handlers after it read it. Each
//! is on a thread of its own: they read it only once the first has completed the event, since the graph says so.
#![tactic(auto)]

use dr_disruptor::{InPlaceHandler, RunFault, WaitStrategy, Way, new_events, run};
use dr_graph::GraphBuilder;
use dr_seq::Size;
use std::sync::atomic::{AtomicU64, Ordering};

/// A trade. Handlers are shown events behind `&`, so what one of them writes is of a type that may be written there.
#[derive(Drop)]
struct Trade {
    instrument: u64,
    quantity: u64,
    price: AtomicU64,
}

impl Trade {
    fn blank() -> Trade {
        Trade {
            instrument: 0,
            quantity: 0,
            price: AtomicU64::new(0),
        }
    }
}

/// Finds the price of each trade's instrument.
#[derive(Drop)]
struct Pricing {
    prices: [u64; 3],
}

impl InPlaceHandler<Trade> for Pricing {
    ghost use Rattle.std.specs.Prelude.{◌≡◌};

    ghost goes = { λ old trade s end new. new ≡ old };

    fn on_event_in_place(&mut self, trade: &Trade, _s: u64, _end: bool) {
        let price = self.prices[(trade.instrument % 3) as usize];
        trade.price.store(price, Ordering::SeqCst);
    }
}

/// Adds up what the trades are worth.
#[derive(Drop)]
struct Worth {
    total: u64,
}

impl InPlaceHandler<Trade> for Worth {
    fn on_event_in_place(&mut self, trade: &Trade, _s: u64, _end: bool) {
        let price = trade.price.load(Ordering::SeqCst);
        let worth = price.wrapping_mul(trade.quantity);
        self.total = self.total.wrapping_add(worth);
    }
}

fn main(rt: HostRuntime) -> Result<(), RunFault> {
    let (alloc, size) = (rt.alloc(), Size::new(4)?);
    let mut builder = GraphBuilder::new(alloc);
    let pricing = builder.handle_with(&["pricing"])?;
    builder.then(&pricing, &["worth"])?;
    let graph = builder.build()?;
    let trades = new_events(alloc, size, || Ok(Trade::blank()))?;
    let pricing = Pricing {
        prices: [10, 20, 30],
    };
    let handlers = (pricing, Worth { total: 0 });
    let way = Way::by(WaitStrategy::Parking);
    let ran = run(rt, alloc, &graph, size, trades, handlers, way, |sender| {
        sender.publish_each(300, 2, |trade: &mut Trade, k| {
            trade.instrument = k;
            trade.quantity = 2;
        })
    })?;
    ran.sent?;
    let _printed = rt.println(&ran.handlers.1.total);
    Ok(())
}
