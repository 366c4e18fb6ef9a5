//! An event is changed where it lies.

ghost use Rattle.std.specs.Fn.{FnOnceReturnsAtMut};
ghost use Rattle.dr_plain.specs.Calls.Sending.{UpdateCall};

use crate::sender::Sender;
use dr_cells::Token;
use dr_lent::rows::{change_in, put_at};
use dr_meaning::Refusal;

impl<T> Sender<T> {
    /// Changes the event of a sequence that is claimed and not published where it lies, and so
    /// writes it: `change` finds what was written there before, or what an earlier sequence left in
    /// the cell. Nothing is moved.
    ///
    /// Refusals in their order: `NotClaimed`, `AlreadyPublished`. They change nothing.
    #[tactic(auto, using(dr_runs::proofs::Beginnings::begins_same, dr_runs::proofs::Beginnings::begins_on))]
    pub fn update<F: FnOnce(&mut T) + Drop>(
        &mut self,
        sequence: u64,
        change: F,
    ) -> Result<(), Refusal>
        requires { F.IsAlwaysCallable change }
        // What `change` makes of what lay in the cell is written, as by a write; a refused call changes nothing.
        ensures { UpdateCall (λ was now. FnOnceReturnsAtMut F.FnOnce change was tt now) self.old sequence self.new result }
    {
        if sequence >= self.claimed {
            return Err(Refusal::NotClaimed);
        }
        if sequence < self.published {
            return Err(Refusal::AlreadyPublished);
        }
        self.written.note(sequence);
        let place = self.station.place(sequence);
        let mut token = put_at(&mut self.tokens, place, Token::blank());
        change_in(&mut token, self.strip.cells, place, change);
        put_at(&mut self.tokens, place, token);
        Ok(())
    }
}
