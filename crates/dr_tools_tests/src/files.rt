//! What no clause says: that the calls over memory succeed.

use crate::checks::check;
use dr_drive::put_line;
use dr_files::{Counted, number_of, read_all, write_text};
use dr_meaning::Reply;
use dr_seq::Event;
use std::test::Fail;

const NUMBERS: [(&str, Option<u64>); 6] = [
    ("0", Some(0)),
    ("007", Some(7)),
    ("18446744073709551615", Some(u64::MAX)),
    ("18446744073709551616", None),
    ("", None),
    ("+7", None),
];

#[test]
fn numbers(rt: HostRuntime) {
    for (field, number) in &NUMBERS {
        check(
            &rt,
            (*field, number_of(field.as_bytes())),
            (*field, *number),
        );
    }
}

#[test]
fn a_text_is_copied(rt: HostRuntime) -> Result<(), Fail> {
    let alloc = rt.alloc();
    let mut reader = Counted::new(b"some\nlines\n".as_slice());
    let mut writer = Counted::new(Vec::new(alloc));
    let text = read_all(alloc, &mut reader)?;
    write_text(&mut writer, text.as_slice())?;
    check(
        &rt,
        writer.into_inner().as_slice(),
        b"some\nlines\n".as_slice(),
    );
    Ok(())
}

#[test]
fn lines(rt: HostRuntime) -> Result<(), Fail> {
    let mut line = String::from_str(rt.alloc(), "what stood there")?;
    let reply = Reply::Batch {
        first: 3,
        count: 2,
        end: true,
    };
    let events = [
        Event {
            first: 5,
            second: 0,
        },
        Event {
            first: 6,
            second: 1,
        },
    ];
    put_line(&mut line, reply, events.as_slice())?;
    check(&rt, line.as_str(), "batch 3 end 5 6:1\n");
    Ok(())
}
