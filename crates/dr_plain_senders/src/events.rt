//! What a receiver has in hand, in order.

ghost use Rattle.std.specs.Prelude.{◌≡◌, ◌≤◌, drop};
ghost use Rattle.std.specs.Iterator.{YieldsFirstRef, item_count};
ghost use Rattle.dr_lent.specs.Events.{events_of};

use crate::receiver::Receiver;

/// The events that a receiver took and did not complete, in order, each where it lies.
#[derive(Drop)]
pub struct Events<'a, T> {
    receiver: &'a Receiver<T>,
    next: u64,
    ghost within: { receiver.now.knows.completed ≤ next },
}

impl<'a, T> Iterator for Events<'a, T> {
    type Item = &'a T;

    ghost next_gives = { YieldsFirstRef (λ s. drop s.next (events_of s.receiver.now.knows.received)) };

    ghost remaining = { item_count (λ s. drop s.next (events_of s.receiver.now.knows.received)) };

    fn next(&mut self) -> Option<&'a T> {
        let event = self.receiver.event(self.next)?;
        self.next += 1;
        Some(event)
    }
}

impl<T> Receiver<T> {
    /// The events that it took and did not complete, in order, each where it lies.
    pub fn events(&self) -> Events<'_, T>
        ensures { drop result.next (events_of result.receiver.now.knows.received) ≡ drop self.now.knows.completed (events_of self.now.knows.received) }
    {
        Events {
            receiver: self,
            next: self.completed,
        }
    }
}
