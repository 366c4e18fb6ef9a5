//! Why a call is refused.

ghost use Rattle.std.specs.Prelude.{◌≡◌, Some};
ghost use Rattle.dr_meaning.specs.Calls.Refusal.{number_of, name_of};

use std::fmt;
use thiserror::Error;

/// Why an exchange refused a call. A refused call changes nothing.
#[derive(Clone, Copy, Debug, PartialEq, Eq, Error)]
pub enum Refusal {
    /// The slots of the claim are still in use: a final handler has not completed their events.
    NoRoom,
    /// The exchange is halted, and gives no more sequences.
    Halted,
    /// A claim of none or of more than the size, a publication that ends before it begins, or a
    /// poll that offers no room.
    BadCount,
    /// The claim goes past the limit of sequences.
    Exhausted,
    /// The sequence was never claimed, or by another producer.
    NotClaimed,
    /// The sequence is published.
    AlreadyPublished,
    /// The sequence has no event yet.
    NotWritten,
    /// One producer publishes in order, and an earlier sequence is unpublished.
    OutOfOrder,
    /// The handler has not taken so many events.
    NotTaken,
    /// The handler has completed more events.
    Behind,
    /// There is no such producer.
    NoProducer,
    /// There is no such handler.
    NoHandler,
    /// The handler is retired.
    Retired,
    /// A handler that is not retired follows this one.
    NotFinal,
    /// No other handler is left.
    LastHandler,
    /// A ring cannot be closed while a claimed sequence is unpublished.
    OpenClaim,
}

impl Refusal {
    /// The refusal's number, which stays the same in every release.
    pub fn number(self) -> u32
        ensures { result ≡ number_of self }
    {
        match self {
            Refusal::NoRoom => 1,
            Refusal::Halted => 2,
            Refusal::BadCount => 3,
            Refusal::Exhausted => 4,
            Refusal::NotClaimed => 5,
            Refusal::AlreadyPublished => 6,
            Refusal::NotWritten => 7,
            Refusal::OutOfOrder => 8,
            Refusal::NotTaken => 9,
            Refusal::Behind => 10,
            Refusal::NoProducer => 11,
            Refusal::NoHandler => 12,
            Refusal::Retired => 13,
            Refusal::NotFinal => 14,
            Refusal::LastHandler => 15,
            Refusal::OpenClaim => 41,
        }
    }

    /// The refusal's name, as programs print it.
    pub fn name(self) -> &'static str
        ensures { result.now ≡ name_of self }
    {
        match self {
            Refusal::NoRoom => "no-room",
            Refusal::Halted => "halted",
            Refusal::BadCount => "bad-count",
            Refusal::Exhausted => "exhausted",
            Refusal::NotClaimed => "not-claimed",
            Refusal::AlreadyPublished => "already-published",
            Refusal::NotWritten => "not-written",
            Refusal::OutOfOrder => "out-of-order",
            Refusal::NotTaken => "not-taken",
            Refusal::Behind => "behind",
            Refusal::NoProducer => "no-producer",
            Refusal::NoHandler => "no-handler",
            Refusal::Retired => "retired",
            Refusal::NotFinal => "not-final",
            Refusal::LastHandler => "last-handler",
            Refusal::OpenClaim => "open-claim",
        }
    }
}

impl fmt::Display for Refusal {
    ghost output = { λ refusal. Some (name_of refusal) };

    fn fmt<W: fmt::Write>(&self, f: &mut fmt::Formatter<W>) -> fmt::Result {
        f.write_str(self.name())
    }
}
