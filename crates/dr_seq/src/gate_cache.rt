//! The remembered least count of the gating handlers.

ghost use Rattle.std.specs.Prelude.{◌≡◌, ◌≤◌};

use std::marker::Model;

/// The least completed count of the gating handlers as it was last scanned, the cached gating
/// sequence of LMAX's sequencers: since no count falls, a claim that it has room for needs no scan.
#[derive(Clone, Copy, Debug, PartialEq, Eq)]
pub struct GateCache {
    least: u64,
}

impl Model for GateCache {
    ghost use Rattle.std.specs.Prelude.{ℕ};

    ghost Value = { ℕ };

    ghost view = { λ a. a.least };

    ghost inverse = { λ n. record { least = n } };
}

impl GateCache {
    /// A cache before any scan: its count is 0, since nothing is completed yet.
    pub fn new() -> Self
        ensures { result ≡ 0 }
    {
        GateCache { least: 0 }
    }

    /// The least completed count of the latest scan, or 0 before any.
    #[inline]
    pub fn seen(&self) -> u64
        ensures { result ≡ self.now }
    {
        self.least
    }

    /// Remembers the least completed count that a scan found.
    #[inline]
    pub fn raise(&mut self, n: u64)
        requires { self.old ≤ n }
        ensures { self.new ≡ n }
    {
        *self = GateCache { least: n };
    }
}
