//! The records `ring` and `limit`.

ghost use Rattle.std.specs.Prelude.{◌≡◌, IfOk, MatchOption, false, true};
ghost use Rattle.csv.specs.Records.{fields_of};
ghost use Rattle.dr_drive.specs.Meaning.Setup.{is_size, limit_of as limit_in, mode_of as mode_in, ring_of as ring_in};
ghost use Rattle.dr_drive.specs.Calls.Shows.{IsRing};

use crate::fault::Cause;
use csv::ByteRecord;
use dr_meaning::{MAX_LIMIT, Mode, is_valid_limit};
use dr_records::{count_of, field, is_named, number_at};
use dr_seq::Size;

/// What the first records say of the ring.
#[derive(Clone, Copy, Debug)]
pub struct Ring {
    pub size: Size,
    pub mode: Mode,
    pub limit: u64,
}

// A ring's size, if the number is one.
fn size_of(n: u64) -> Option<Size>
    ensures { MatchOption result (is_size n ≡ false) (λ size. (size ≡ n) × (is_size n ≡ true)) }
{
    match Size::new(n) {
        Ok(size) => Some(size),
        Err(_) => None,
    }
}

fn mode_of(row: &ByteRecord) -> Option<Mode>
    ensures { result ≡ mode_in (fields_of row.now) }
{
    if count_of(row) == 3 && field(row, 2) == b"single".as_slice() {
        Some(Mode::Single)
    } else if count_of(row) == 4 && field(row, 2) == b"multi".as_slice() {
        Some(Mode::Multi(number_at(row, 3)?))
    } else {
        None
    }
}

/// The ring of the first record.
pub fn ring_of(row: &ByteRecord) -> Result<Ring, Cause>
    // What the first record says of the ring, or the first fault of it in the stated order.
    ensures value { result ≡ ring_in (fields_of row.now) }
    // A core can be opened for such a ring.
    ensures good { IfOk result IsRing }
{
    if !is_named(row, b"ring".as_slice()) {
        return Err(Cause::NoRing);
    }
    let Some(size) = number_at(row, 1) else {
        return Err(Cause::BadRecord);
    };
    let Some(mode) = mode_of(row) else {
        return Err(Cause::BadRecord);
    };
    let Some(size) = size_of(size) else {
        return Err(Cause::BadSize);
    };
    if !mode.is_valid() {
        return Err(Cause::BadProducers);
    }
    Ok(Ring {
        size,
        mode,
        limit: MAX_LIMIT,
    })
}

/// The ring with the limit of a `limit` record.
pub fn limit_of(ring: Ring, row: &ByteRecord) -> Result<Ring, Cause>
    requires { IsRing ring }
    // The ring with this limit, or why the record gives none.
    ensures value { result ≡ limit_in ring (fields_of row.now) }
    // A core can be opened for such a ring.
    ensures good { IfOk result IsRing }
{
    if count_of(row) != 2 {
        return Err(Cause::BadRecord);
    }
    let Some(limit) = number_at(row, 1) else {
        return Err(Cause::BadRecord);
    };
    if !is_valid_limit(limit) {
        return Err(Cause::BadLimit);
    }
    Ok(Ring { limit, ..ring })
}
