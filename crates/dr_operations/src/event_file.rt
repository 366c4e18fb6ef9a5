//! The event file: an operation a record.

ghost use Rattle.std.specs.Prelude.{◌≡◌, ◌<◌, ◌-◌, ◌^◌, IfSome};
ghost use Rattle.csv.specs.Records.{fields_of};
ghost use Rattle.dr_files.specs.Counting.{faults_of, inner_of};
ghost use Rattle.dr_files.specs.Outcome.{CountsFaults};
ghost use Rattle.dr_operations.specs.EventFile.{IsOfFile, deposit as deposit_in, events_of as events_in, is_kind as is_kind_in, number_below as number_in, operation_in, transfer as transfer_in, withdraw as withdraw_in};
ghost use Rattle.dr_operations.specs.Operations.{IsOperation};
ghost use Rattle.dr_operations.specs.Reading.{FileIs, ReadsAs};
ghost use Rattle.dr_records.specs.Rows.{rows_left};

use crate::cause::Cause;
use crate::operation::{Movement, Operation};
use csv::ByteRecord;
use dr_files::{Counted, FileFault, read_all};
use dr_records::{Rows, count_of, field, number_at};
use dr_seq::Event;
use std::alloc::Global;
use std::io::Read;

/// Producers have numbers below this.
const PRODUCERS: u64 = 16;

/// Accounts have numbers below this.
const ACCOUNTS: u64 = 1 << 16;

/// Amounts of deposits and withdrawals are below this.
const AMOUNTS: u64 = 1 << 32;

/// Amounts of transfers are below this.
const TRANSFERS: u64 = 1 << 48;

// The number in the field at a place, if one stands there that is below a bound.
fn number_below(row: &ByteRecord, place: usize, bound: u64) -> Option<u64>
    ensures value { result ≡ number_in bound (fields_of row.now) place }
    ensures below { IfSome result (λ n. n < bound) }
{
    let number = number_at(row, place)?;
    if number < bound { Some(number) } else { None }
}

// Whether a record has this second field and this many fields.
fn is_kind(row: &ByteRecord, kind: &[u8], count: usize) -> bool
    ensures { result ≡ is_kind_in kind.now count (fields_of row.now) }
{
    count_of(row) == count && field(row, 1) == kind
}

fn deposit(row: &ByteRecord) -> Option<Operation>
    ensures value { result ≡ deposit_in (fields_of row.now) }
    ensures fits { IfSome result IsOperation }
    ensures filed { IfSome result IsOfFile }
{
    let producer = number_below(row, 0, PRODUCERS)? as u8;
    let account = number_below(row, 2, ACCOUNTS)? as u16;
    let amount = number_below(row, 3, AMOUNTS)? as u32;
    let movement = Movement::Deposit { account, amount };
    Some(Operation { producer, movement })
}

fn withdraw(row: &ByteRecord) -> Option<Operation>
    ensures value { result ≡ withdraw_in (fields_of row.now) }
    ensures fits { IfSome result IsOperation }
    ensures filed { IfSome result IsOfFile }
{
    let producer = number_below(row, 0, PRODUCERS)? as u8;
    let account = number_below(row, 2, ACCOUNTS)? as u16;
    let amount = number_below(row, 3, AMOUNTS)? as u32;
    let movement = Movement::Withdraw { account, amount };
    Some(Operation { producer, movement })
}

fn transfer(row: &ByteRecord) -> Option<Operation>
    ensures value { result ≡ transfer_in (fields_of row.now) }
    ensures fits { IfSome result IsOperation }
    ensures filed { IfSome result IsOfFile }
{
    let producer = number_below(row, 0, PRODUCERS)? as u8;
    let from = number_below(row, 2, ACCOUNTS)? as u16;
    let to = number_below(row, 3, ACCOUNTS)? as u16;
    let amount = number_below(row, 4, TRANSFERS)?;
    let movement = Movement::Transfer { from, to, amount };
    Some(Operation { producer, movement })
}

// The operation of a record, if it is one.
pub(crate) fn operation_of(row: &ByteRecord) -> Option<Operation>
    ensures value { result ≡ operation_in (fields_of row.now) }
    ensures fits { IfSome result IsOperation }
    ensures filed { IfSome result IsOfFile }
{
    if is_kind(row, b"deposit".as_slice(), 4) {
        deposit(row)
    } else if is_kind(row, b"withdraw".as_slice(), 4) {
        withdraw(row)
    } else if is_kind(row, b"transfer".as_slice(), 5) {
        transfer(row)
    } else {
        None
    }
}

// The events of the operations in a file's records, in order. The fault is at the first record that
// is no operation, or that memory ran out before it.
fn events_of(alloc: Global, rows: &mut Rows<'_>) -> Result<Vec<Event>, FileFault<Cause>>
    ensures { ReadsAs result (rows_left rows.old) }
{
    let mut events = Vec::new(alloc);
    while let Some(row) = rows.next()? {
        let Some(operation) = operation_of(row) else {
            let k = events.len() as u64 + 1;
            let cause = Cause::BadRecord;
            return Err(FileFault::Input { k, cause });
        };
        events.push(operation.event())?;
    }
    Ok(events)
}

/// Reads a file of operations to its end, and makes an event of each, in file order.
pub fn read_events<R: Read>(
    alloc: Global,
    reader: &mut Counted<R>,
) -> Result<Vec<Event>, FileFault<Cause>>
    requires { faults_of reader.old < 2 ^ 64 - 1 }
    // If the bytes are known, they are all records' events, and a bad record that is told is the first one.
    ensures file { IfSome (R.remaining (inner_of reader.old)) (λ input. FileIs result (events_in input)) }
    // A failed read is answered where one failed, and nowhere else.
    ensures counted { CountsFaults result (faults_of reader.old) (faults_of reader.new) 0 0 }
{
    let text = read_all(alloc, reader)?;
    events_of(alloc, &mut Rows::new(alloc, text.as_slice()))
}
