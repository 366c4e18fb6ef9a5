//! How many sequences there may be.

ghost use Rattle.std.specs.Prelude.{◌≡◌, not};
ghost use Rattle.dr_meaning.specs.Calls.OpenFault.{is_bad_limit};

/// The greatest limit of sequences, 2^62, so that no count of sequences ever wraps.
pub const MAX_LIMIT: u64 = 1 << 62;

/// Whether so many sequences can be a limit: 1 to [`MAX_LIMIT`].
pub fn is_valid_limit(limit: u64) -> bool
    ensures { result ≡ not (is_bad_limit limit) }
{
    0 < limit && limit <= MAX_LIMIT
}
