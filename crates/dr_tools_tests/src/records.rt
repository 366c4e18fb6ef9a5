//! What no clause says: that the records of a small text are read, whose values come from the rules
//! of the format and not from a run.

use crate::checks::check;
use dr_records::{Rows, count_of, field, is_list, is_named, is_record, number_at};
use std::process::Abort;
use std::test::Fail;

fn check_first(rt: &impl Abort, rows: &mut Rows<'_>) -> Result<(), Fail> {
    let Some(row) = rows.next()? else {
        return Err("a record".into());
    };
    check(rt, count_of(row), 3);
    check(rt, field(row, 2), b"a,b".as_slice());
    check(rt, field(row, 3).is_empty(), true);
    assert!(rt; is_named(row, b"claim".as_slice()) && is_list(row, b"claim".as_slice()));
    assert!(rt; is_record(row, b"claim".as_slice(), 3) && !is_record(row, b"claim".as_slice(), 2));
    check(rt, number_at(row, 1), Some(0));
    check(rt, number_at(row, 2), None);
    Ok(())
}

fn check_last(rt: &impl Abort, rows: &mut Rows<'_>) -> Result<(), Fail> {
    assert!(rt; matches!(rows.next()?, Some(row) if is_record(row, b"halt".as_slice(), 1)));
    assert!(rt; rows.next()?.is_none());
    Ok(())
}

#[test]
fn rows_of_a_text(rt: HostRuntime) -> Result<(), Fail> {
    let text = b"claim,0,\"a,b\"\r\n\nhalt".as_slice();
    let mut rows = Rows::new(rt.alloc(), text);
    check_first(&rt, &mut rows)?;
    check_last(&rt, &mut rows)
}
