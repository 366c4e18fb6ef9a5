//! Where a record is no operation of an event file.

use crate::place::{Place, end, is_below, number, word};
use csv::ByteRecord;
use dr_records::field;

const PRODUCER: &str = "a producer from 0 to 15";

const KIND: &str = "deposit, withdraw or transfer";

const ACCOUNT: &str = "an account from 0 to 65535";

const AMOUNT: &str = "an amount from 0 to 4294967295";

const TRANSFERRED: &str = "an amount from 0 to 281474976710655";

fn movement_place(row: &ByteRecord) -> Place {
    if !is_below(row, 3, 1 << 16) {
        number(3, ACCOUNT)
    } else if !is_below(row, 4, 1 << 32) {
        number(4, AMOUNT)
    } else {
        end(5, "the end of PRODUCER,deposit,ACCOUNT,AMOUNT")
    }
}

fn transfer_place(row: &ByteRecord) -> Place {
    if !is_below(row, 3, 1 << 16) {
        number(3, ACCOUNT)
    } else if !is_below(row, 4, 1 << 16) {
        number(4, ACCOUNT)
    } else if !is_below(row, 5, 1 << 48) {
        number(5, TRANSFERRED)
    } else {
        end(6, "the end of PRODUCER,transfer,FROM,TO,AMOUNT")
    }
}

/// The first place of a record at which it is no operation.
pub fn operation_place(row: &ByteRecord) -> Place {
    let kind = field(row, 1);
    if !is_below(row, 1, 16) {
        number(1, PRODUCER)
    } else if kind == b"deposit".as_slice() || kind == b"withdraw".as_slice() {
        movement_place(row)
    } else if kind == b"transfer".as_slice() {
        transfer_place(row)
    } else {
        word(2, KIND)
    }
}
