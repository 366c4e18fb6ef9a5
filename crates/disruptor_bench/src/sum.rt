//! The work of the handlers: they add up what they are shown.

use crate::width::Words;
use dr_meaning::{Handler, InPlaceHandler};
use dr_seq::Event;

/// A handler that adds up the first words, as the LMAX measurements' does.
#[derive(Clone, Copy)]
pub struct Sum {
    pub total: u64,
}

impl Handler<Event> for Sum {
    ghost use Rattle.std.specs.Prelude.{◌≡◌, ◌+◌, ◌%◌, ◌^◌};

    ghost goes = { λ old event s end new. new.total ≡ (old.total + event.first) % 2 ^ 64 };

    fn on_event(&mut self, event: Event, _s: u64, _end: bool) {
        self.total = self.total.wrapping_add(event.first);
    }
}

impl<const MORE: usize> InPlaceHandler<Words<MORE>> for Sum {
    ghost use Rattle.std.specs.Prelude.{◌≡◌, ◌+◌, ◌%◌, ◌^◌};

    ghost goes = { λ old event s end new. new.total ≡ (old.total + event.first) % 2 ^ 64 };

    #[inline]
    fn on_event_in_place(&mut self, event: &Words<MORE>, _s: u64, _end: bool) {
        self.total = self.total.wrapping_add(event.first);
    }
}

/// The sum of the first `count` events' words, as it wraps.
pub fn sum_of_first(count: u64) -> u64 {
    let before = count.wrapping_sub(1);
    if count % 2 == 0 {
        (count / 2).wrapping_mul(before)
    } else {
        count.wrapping_mul(before / 2)
    }
}
