//! One closure writes event after event where they lie.

ghost use Rattle.std.specs.Prelude.{◌≡◌, OnErr};
ghost use Rattle.std.specs.Fn.{CalledWithState};
ghost use Rattle.dr_plain_senders.specs.Calls.Writing.{UpdateCall};

use crate::sender::Sender;
use dr_cells::Token;
use dr_lent::rows::{change_by, put_at};
use dr_meaning::Refusal;

impl<T> Sender<T> {
    /// Changes an event as [`update`](Sender::update) does, by a closure that may be called again,
    /// with a number, and tells what the closure became. So one closure fills event after event.
    ///
    /// It is refused as `update` is, and then does not call `fill`.
    pub fn update_by<F: FnMut(&mut T, u64)>(
        &mut self,
        sequence: u64,
        fill: &mut F,
        number: u64,
    ) -> Result<(), Refusal>
        requires { F.IsAlwaysCallable fill.old }
        // One call of the closure changes what lies in the cell, or it is refused as a write is.
        ensures call { UpdateCall (λ was now. CalledWithState F.FnMut fill.old was number tt fill.new now) self.old sequence self.new result }
        // If it is refused, the closure is as it was.
        ensures refused { OnErr result (fill.new ≡ fill.old) }
        // You may call the closure again.
        ensures callable { F.IsAlwaysCallable fill.new }
    {
        if sequence >= self.station.plan().limit() {
            return Err(Refusal::NotClaimed);
        }
        if !self.owned.has(sequence) {
            return Err(self.station.refusal(sequence));
        }
        if self.owned.is_published(sequence) {
            return Err(Refusal::AlreadyPublished);
        }
        self.owned.write(sequence);
        let place = self.station.place(sequence);
        let cells = self.station.plan().cells();
        let mut token = put_at(&mut self.tokens, place, Token::blank());
        change_by(&mut token, cells, place, fill, number);
        put_at(&mut self.tokens, place, token);
        Ok(())
    }
}
