//! What is kept of the recent sequences, a slot a sequence.

ghost use Rattle.std.specs.Prelude.{◌≡◌, ◌+◌, ◌-◌, ◌^◌, ◌<◌, ◌≤◌, ◌||◌, ◌&&◌, ◌==◌, nat_lt, nat_le, length};
ghost use Rattle.dr_seq.specs.Rounds.{entry_of, is_marked};
ghost use Rattle.dr_core.specs.Inside.Availability.{HasOwners, owner_at, owners_after, is_ahead as is_ahead_of, IsNoted, published_after, IsNewFront};
ghost use Rattle.dr_seq.specs.Stamped.{stamped};
ghost use Rattle.dr_meaning.specs.Meaning.Machine.{is_single};

use dr_meaning::Mode;
use dr_seq::{Rounds, Size};

/// The producer of a claimed sequence.
#[inline]
pub(crate) fn owner_of(mode: Mode, owners: &[u64], size: Size, s: u64) -> u64
    requires some { 0 < size }
    requires slots { HasOwners mode owners.now size }
    ensures { result ≡ owner_at mode owners.now s }
{
    match mode {
        Mode::Single => 0,
        Mode::Multi(_) => owners[size.slot(s)],
    }
}

/// Leaves a producer's number in the slots of a stretch of sequences, where there are several
/// producers.
pub(crate) fn own(mode: Mode, owners: &mut [u64], size: Size, from: u64, n: u64, p: u64)
    requires some { 0 < size }
    requires slots { HasOwners mode owners.old size }
    requires fits { from + n < 2 ^ 63 }
    ensures { owners.new ≡ owners_after mode owners.old from n p }
{
    match mode {
        Mode::Single => {}
        Mode::Multi(_) => stamp(owners, size, from, n, p),
    }
}

/// Leaves a number in the slots of a stretch of sequences.
fn stamp(owners: &mut [u64], size: Size, from: u64, n: u64, p: u64)
    requires some { 0 < size }
    requires slots { length owners.old ≡ size }
    requires fits { from + n < 2 ^ 63 }
    ensures { owners.new ≡ stamped (λ s. p) owners.old from n }
{
    for k in 0..n {
        owners[size.slot(from + k)] = p;
    }
}

/// Whether a sequence past the front is published: with one producer none is.
#[inline]
pub(crate) fn is_ahead(mode: Mode, published: &Rounds, s: u64) -> bool
    requires { s < 2 ^ 62 }
    ensures { result ≡ is_ahead_of mode published.now s }
{
    match mode {
        Mode::Single => false,
        Mode::Multi(_) => published.is_marked(s),
    }
}

/// Whether a sequence is written: in order, or marked.
#[inline]
pub(crate) fn is_written(written: &Rounds, filled: u64, s: u64) -> bool
    requires { s < 2 ^ 62 }
    ensures { result ≡ (nat_lt s filled || is_marked written.now s) }
{
    s < filled || written.is_marked(s)
}

/// Notes that a sequence is written, and gives the first that is not written in order. Only what
/// lies past that is marked.
#[inline]
pub(crate) fn note(written: &mut Rounds, filled: u64, s: u64) -> u64
    requires { s < 2 ^ 62 }
    ensures { IsNoted filled written.old s result written.new }
{
    if s == filled {
        return s + 1;
    }
    if s > filled {
        written.mark(s);
    }
    filled
}

/// Whether one producer wrote a stretch in order that begins at the front, and is not empty. Then
/// nothing refuses its publication.
#[inline]
pub(crate) fn is_next_written(mode: Mode, lo: u64, hi: u64, front: u64, filled: u64) -> bool
    ensures { result ≡ (is_single mode && (lo == front && (nat_le lo hi && nat_lt hi filled))) }
{
    mode.is_single() && lo == front && lo <= hi && hi < filled
}

/// Publishes the sequences from `lo` to `hi`, and gives the new front. With one producer they begin
/// at the front, and no mark is left.
#[inline]
pub(crate) fn show(
    mode: Mode,
    published: &mut Rounds,
    lo: u64,
    hi: u64,
    front: u64,
    next: u64,
) -> u64
    requires order { lo ≤ hi }
    requires claimed { hi < next }
    requires front { front ≤ next }
    requires round { next ≤ front + length published.old }
    requires small { next ≤ 2 ^ 62 }
    ensures marks { published.new ≡ published_after mode published.old lo (hi + 1 - lo) }
    ensures front { IsNewFront mode published.new front next hi result }
{
    match mode {
        Mode::Single => hi + 1,
        Mode::Multi(_) => {
            mark_all(published, lo, hi + 1 - lo);
            published.front(front, next)
        }
    }
}

/// Marks a stretch of sequences.
pub(crate) fn mark_all(rounds: &mut Rounds, from: u64, n: u64)
    requires { from + n ≤ 2 ^ 62 }
    ensures { rounds.new ≡ stamped (entry_of (length rounds.old)) rounds.old from n }
{
    for k in 0..n {
        rounds.mark(from + k);
    }
}
