//! Events of a type of their own, journaled by the handler and read back.
ghost use Rattle.dr_journal_tests.specs.Orders.{Placed, placed_record, placed_in};

use crate::checks::{check_bytes, opened};
use dr_journal::{AsRecord, Journaling, RecordFault, read_events};
use dr_meaning::InPlaceHandler;
use dr_seq::Event;
use std::alloc::{AllocError, Global};
use std::test::Fail;

#[derive(Drop)]
pub struct Order {
    quantity: u64,
    name: Vec<u8>,
}

impl AsRecord for Order {
    ghost Value = { Placed };

    ghost value = { λ order. record { quantity = order.quantity; name = order.name.items } };

    ghost record_of = { placed_record };

    ghost value_in = { placed_in };

    fn push_record(&self, out: &mut Vec<u8>) -> Result<(), AllocError> {
        out.extend_from_slice(&self.quantity.to_le_bytes())?;
        out.extend_from_slice(&self.name)
    }

    fn from_record(alloc: Global, bytes: &[u8]) -> Result<Option<Order>, AllocError> {
        let [a, b, c, d, e, f, g, h, name @ ..] = bytes else {
            return Ok(None);
        };
        Ok(Some(Order {
            quantity: u64::from_le_bytes([*a, *b, *c, *d, *e, *f, *g, *h]),
            name: name.to_vec(alloc)?,
        }))
    }
}

fn tea(alloc: Global, quantity: u64) -> Result<Order, AllocError> {
    Ok(Order {
        quantity,
        name: Vec::from_array(alloc, *b"tea")?,
    })
}

#[test]
fn orders_come_back(rt: HostRuntime) -> Result<(), Fail> {
    let alloc = rt.alloc();
    let (journal, _none) = opened(alloc, &[])?;
    let mut handler = Journaling::new(alloc, journal);
    handler.on_event_in_place(&tea(alloc, 3)?, 0, false);
    handler.on_event_in_place(&tea(alloc, 500)?, 1, true);
    assert!(rt; handler.fault().is_none());
    let file = handler.into_journal().into_device();
    let (_journal, records) = opened(alloc, file.bytes())?;
    let orders = match read_events::<Order>(alloc, &records) {
        Ok(orders) => orders,
        Err(_) => return Err(Fail::from("no orders")),
    };
    assert_eq!(rt; orders.len(), 2);
    assert_eq!(rt; (orders[0].quantity, orders[1].quantity), (3, 500));
    check_bytes(&rt, &orders[1].name, b"tea");
    Ok(())
}

#[test]
fn an_event_of_two_words_has_sixteen_bytes(rt: HostRuntime) -> Result<(), Fail> {
    let alloc = rt.alloc();
    let mut bytes = Vec::new(alloc);
    Event {
        first: 258,
        second: 5,
    }
    .push_record(&mut bytes)?;
    check_bytes(
        &rt,
        &bytes,
        &[2, 1, 0, 0, 0, 0, 0, 0, 5, 0, 0, 0, 0, 0, 0, 0],
    );
    let mut records = Vec::new(alloc);
    records.push(bytes)?;
    records.push(Vec::new(alloc))?;
    assert!(rt;
        matches!(
            read_events::<Event>(alloc, &records),
            Err(RecordFault::BadRecord(1))
        )
    );
    Ok(())
}
