//! Orders, and how a journal keeps one.

ghost use Rattle.example_durable.specs.Orders.{order_in, order_record};
ghost use Rattle.example_durable.specs.declared.order.Order.{Order};

use dr_journal::AsRecord;
use std::alloc::{AllocError, Global};

#[derive(Clone, Copy, Default)]
pub struct Order {
    pub account: u64,
    pub quantity: u64,
}

impl AsRecord for Order {
    ghost Value = { Order };

    ghost value = { λ order. order };

    ghost record_of = { order_record };

    ghost value_in = { order_in };

    fn push_record(&self, out: &mut Vec<u8>) -> Result<(), AllocError> {
        out.extend_from_slice(&self.account.to_le_bytes())?;
        out.extend_from_slice(&self.quantity.to_le_bytes())
    }

    fn from_record(_alloc: Global, bytes: &[u8]) -> Result<Option<Order>, AllocError> {
        let [a, b, c, d, e, f, g, h, i, j, k, l, m, n, o, p] = bytes else {
            return Ok(None);
        };
        Ok(Some(Order {
            account: u64::from_le_bytes([*a, *b, *c, *d, *e, *f, *g, *h]),
            quantity: u64::from_le_bytes([*i, *j, *k, *l, *m, *n, *o, *p]),
        }))
    }
}
