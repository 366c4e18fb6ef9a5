//! Orders, events of a type of one's own, behind a lock: sent, received and audited.

ghost use Rattle.std.specs.Prelude.{◌≡◌};

use crate::checks::check;
use crate::graphs::{Shape, graph};
use dr_lock::{
    AuditFault, End, Exchange, LockedInlet, LockedOutlet, Recorded, Shared, audit, finish,
};
use dr_meaning::{Claimed, Inlet, MAX_LIMIT, Mode, Outlet, Polled, Wrote};
use dr_seq::{Same, Size};
use std::alloc::Global;
use std::marker::Brand;
use std::process::Abort;
use std::sync::Wait;
use std::sync::ledger::Blank;

#[derive(Clone, Copy, Debug, PartialEq, Eq)]
struct Order {
    account: u64,
    quantity: u64,
    is_buy: bool,
}

impl Same for Order {
    fn is_same(&self, other: &Order) -> bool {
        self.account == other.account
            && self.quantity == other.quantity
            && self.is_buy == other.is_buy
    }
}

const NONE: Order = Order {
    account: 0,
    quantity: 0,
    is_buy: false,
};

const BOUGHT: Order = Order {
    account: 7,
    quantity: 5,
    is_buy: true,
};

const SOLD: Order = Order {
    account: 7,
    quantity: 6,
    is_buy: false,
};

/// It differs from the other in its flag alone.
const NOT_SOLD: Order = Order {
    account: 7,
    quantity: 6,
    is_buy: true,
};

const ORDERS: [Order; 2] = [BOUGHT, SOLD];

const OTHERS: [Order; 2] = [BOUGHT, NOT_SOLD];

fn send<I: Inlet<Order>>(rt: &impl Abort, inlet: &mut I) {
    let wrote = Wrote {
        count: 2,
        trouble: None,
    };
    check(rt, inlet.try_claim(2), Ok(Claimed { lo: 0, hi: 1 }));
    check(rt, inlet.write_all(0, &ORDERS), wrote);
    check(rt, inlet.publish(0, 1), Ok(()));
}

fn receive<O: Outlet<Order>>(rt: &impl Abort, outlet: &mut O) {
    let mut out = [NONE; 2];
    let batch = Polled::Batch {
        first: 0,
        count: 2,
        end: true,
    };
    check(rt, outlet.poll_into(&mut out), Ok(batch));
    check(rt, out, ORDERS);
    check(rt, outlet.complete(2), Ok(()));
}

/// Two ends, once orders went in and out by them.
fn passed_through<L: Exchange<Order>, R: Wait + Abort>(
    rt: &R,
    alloc: Global,
    shared: &Shared<Order, L>,
    one: End<Order, L>,
    two: End<Order, L>,
) -> Vec<End<Order, L>> {
    let mut inlet = LockedInlet::new(rt, shared, one, 0);
    let mut outlet = LockedOutlet::new(rt, shared, two, 0);
    send(rt, &mut inlet);
    receive(rt, &mut outlet);
    let ends = vec![in alloc; inlet.into_end(), outlet.into_end()];
    ends.expect(rt, "memory")
}

fn by_lock<L: Exchange<Order>, R: Wait + Abort>(
    rt: &R,
    alloc: Global,
    blank: Blank,
    recorded: Recorded<Order>,
) -> Recorded<Order>
    requires name { blank.name ≡ L.name }
    requires parts { blank.parts ≡ L.parts }
    requires ends { blank.parts ≡ 65 }
    requires begun { recorded.history ≡ L.begun }
{
    let mut shared = Shared::<Order, L>::new(recorded, blank);
    let one = shared.end().expect(rt, "an end");
    let two = shared.end().expect(rt, "an end");
    let ends = passed_through(rt, alloc, &shared, one, two);
    let Ok(recorded) = finish(shared, ends) else {
        panic!(rt; "the ends are back");
    };
    recorded
}

/// The audit gives the orders, and finds one that differs in its flag alone.
fn check_audits(rt: &impl Abort, alloc: Global, recorded: &Recorded<Order>) {
    let list = audit(alloc, recorded, &[&ORDERS]).expect(rt, "a list");
    check(rt, list.as_slice(), &ORDERS[..]);
    let fault = audit(alloc, recorded, &[&OTHERS]).err();
    check(rt, fault, Some(AuditFault::ScriptDiffers(0)));
}

fn opened(rt: &impl Abort, alloc: Global) -> Recorded<Order> {
    let graph = graph(rt, alloc, Shape::Alone);
    let size = Size::new(2).expect(rt, "a size");
    let opened = Recorded::open(alloc, graph, size, Mode::Single, MAX_LIMIT, NONE, 8, 2);
    opened.expect(rt, "a history")
}

#[test]
fn orders_go_through_a_lock(rt: HostRuntime) {
    let recorded = opened(&rt, rt.alloc());
    let recorded = by_lock::<Brand, _>(&rt, rt.alloc(), Blank::new(65), recorded);
    check_audits(&rt, rt.alloc(), &recorded);
}
