//! Why an end in place is not given a claim.

ghost use Rattle.std.specs.Prelude.{◌≡◌, Some};
ghost use Rattle.dr_meaning.specs.Calls.ClaimFault.{number_of, name_of};

use crate::refusal::Refusal;
use std::error::Error;
use std::fmt;

/// Why a claim is refused.
#[derive(Clone, Copy, Debug, PartialEq, Eq)]
pub enum ClaimFault {
    /// For a cause that every exchange has.
    Refused(Refusal),
    /// Another sender claimed meanwhile, and nothing is changed: the claim may be tried again.
    Contended,
}

impl ClaimFault {
    /// The number of the refusal, or of a claim that another came before, which stays the same in
    /// every release.
    pub fn number(self) -> u32
        ensures { result ≡ number_of self }
    {
        match self {
            ClaimFault::Refused(refusal) => refusal.number(),
            ClaimFault::Contended => 16,
        }
    }

    /// The name of the refusal, or of a claim that another came before, as programs print it.
    pub fn name(self) -> &'static str
        ensures { result.now ≡ name_of self }
    {
        match self {
            ClaimFault::Refused(refusal) => refusal.name(),
            ClaimFault::Contended => "contended",
        }
    }
}

impl fmt::Display for ClaimFault {
    ghost output = { λ fault. Some (name_of fault) };

    fn fmt<W: fmt::Write>(&self, f: &mut fmt::Formatter<W>) -> fmt::Result {
        f.write_str(self.name())
    }
}

impl Error for ClaimFault {}
