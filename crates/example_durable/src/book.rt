//! What was ordered in all.

ghost use Rattle.example_durable.specs.Orders.{IsBookOf};

use crate::order::Order;
use dr_disruptor::InPlaceHandler;
use dr_meaning::show_in_place;

/// How many orders there were, and how much they ordered, as far as a `u64` counts.
#[derive(Clone, Copy, Default)]
pub struct Book {
    pub orders: u64,
    pub quantity: u64,
}

impl Book {
    /// The book of orders that were made before.
    pub fn of(orders: &[Order]) -> Book
        ensures { IsBookOf result orders.now }
    {
        let mut book = Book::default();
        show_in_place(&mut book, orders, 0, true);
        book
    }
}

impl InPlaceHandler<Order> for Book {
    ghost use Rattle.std.specs.Prelude.{◌≡◌, ◌+◌, ◌%◌, ◌^◌};

    ghost goes = { λ old order s end new. (new.orders ≡ (old.orders + 1) % 2 ^ 64) × (new.quantity ≡ (old.quantity + order.quantity) % 2 ^ 64) };

    fn on_event_in_place(&mut self, order: &Order, _s: u64, _end: bool) {
        self.orders = self.orders.wrapping_add(1);
        self.quantity = self.quantity.wrapping_add(order.quantity);
    }
}
