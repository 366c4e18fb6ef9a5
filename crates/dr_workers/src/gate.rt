//! Gates, which workers pass on their way.

ghost use Rattle.std.specs.Prelude.{◌≡◌, ℕ};
ghost use Rattle.dr_workers.specs.declared.gate.GateAnswer.TheVariants.{Stop};

/// What a gate answers.
#[derive(Clone, Copy, Debug, PartialEq, Eq)]
pub enum GateAnswer {
    /// The worker goes on.
    Go,
    /// The worker passes no gate any more, goes on to its end, and then answers that it was stopped, or else
    /// what trouble it met on the way.
    Stop,
}

/// What a producer's worker passes between each claim and its writes, and a handler's worker between
/// each batch and its completion. A gate may hold a worker until others have come to theirs.
pub trait Gate {
    /// Which workers it may stop, by their numbers, at which of their passages: any at any, unless the
    /// type says more.
    ghost may_stop: { Self → ℕ → ℕ → Type 0 } = { λ _ _ _. Unit {0} };

    /// Which workers it has to stop at which of their passages: none, unless the type says more.
    ghost must_stop: { Self → ℕ → ℕ → Type 0 } = { λ _ _ _. ⊥ };

    /// Lets a worker pass. `who` is the worker's number, and `passage` counts its passages from 0, up to
    /// `u64::MAX`.
    fn pass(&self, who: usize, passage: u64) -> GateAnswer
        // It stops a worker only where it may, and always where it must.
        ensures may { result ≡ Stop → may_stop self.now who passage }
        ensures must { must_stop self.now who passage → result ≡ Stop };
}

/// A gate that holds and stops nobody.
#[derive(Clone, Copy, Debug)]
pub struct OpenGate;

impl Gate for OpenGate {
    ghost may_stop = { λ _ _ _. ⊥ };

    fn pass(&self, _who: usize, _passage: u64) -> GateAnswer {
        GateAnswer::Go
    }
}
