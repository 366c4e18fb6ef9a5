//! One closure writes event after event where they lie.

ghost use Rattle.std.specs.Prelude.{◌≡◌, OnErr};
ghost use Rattle.std.specs.Fn.{CalledWithState};
ghost use Rattle.dr_plain.specs.Calls.Sending.{UpdateCall};

use crate::sender::Sender;
use dr_cells::Token;
use dr_lent::rows::{change_by, put_at};
use dr_meaning::Refusal;

impl<T> Sender<T> {
    /// Changes an event as [`update`](Sender::update) does, by a closure that may be called again,
    /// with a number, and tells what the closure became. So one closure fills event after event.
    ///
    /// It is refused as `update` is, and then does not call `fill`.
    #[tactic(auto, using(dr_runs::proofs::Beginnings::begins_same, dr_runs::proofs::Beginnings::begins_on))]
    pub fn update_by<F: FnMut(&mut T, u64)>(
        &mut self,
        sequence: u64,
        fill: &mut F,
        number: u64,
    ) -> Result<(), Refusal>
        requires { F.IsAlwaysCallable fill.old }
        // One call of the closure changes what lies in the cell, or it is refused as a write is.
        ensures call { UpdateCall (λ was now. CalledWithState F.FnMut fill.old was number tt fill.new now) self.old sequence self.new result }
        // If it is refused, the closure is as it was.
        ensures refused { OnErr result (fill.new ≡ fill.old) }
        // You may call the closure again.
        ensures callable { F.IsAlwaysCallable fill.new }
    {
        if sequence >= self.claimed {
            return Err(Refusal::NotClaimed);
        }
        if sequence < self.published {
            return Err(Refusal::AlreadyPublished);
        }
        self.written.note(sequence);
        let place = self.station.place(sequence);
        let mut token = put_at(&mut self.tokens, place, Token::blank());
        change_by(&mut token, self.strip.cells, place, fill, number);
        put_at(&mut self.tokens, place, token);
        Ok(())
    }
}
