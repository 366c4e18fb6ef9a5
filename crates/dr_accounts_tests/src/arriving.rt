//! An event file that comes in pieces.

use dr_files::{Counted, FileFault};
use dr_operations::{Cause, EventStream, Movement, Operation, events_of_pieces};
use dr_seq::Event;
use std::alloc::Global;
use std::process::Abort;
use std::test::Fail;

// A byte order mark, quotes, an empty line, each kind of line's end, and a last line without one.
const TEXT: &[u8] =
    b"\xEF\xBB\xBF0,deposit,1,100\r\n\n\"3\",withdraw,\"1\",0040\r2,transfer,1,7,30";

fn deposit() -> Event {
    let operation = Operation {
        producer: 0,
        movement: Movement::Deposit {
            account: 1,
            amount: 100,
        },
    };
    operation.event()
}

fn withdrawal() -> Event {
    let operation = Operation {
        producer: 3,
        movement: Movement::Withdraw {
            account: 1,
            amount: 40,
        },
    };
    operation.event()
}

fn transfer() -> Event {
    let operation = Operation {
        producer: 2,
        movement: Movement::Transfer {
            from: 1,
            to: 7,
            amount: 30,
        },
    };
    operation.event()
}

// The text in two pieces.
fn check_cut(rt: &impl Abort, alloc: Global, at: usize) -> Result<(), Fail> {
    let Some((front, back)) = TEXT.split_at_checked(at) else {
        return Err("a cut within the text".into());
    };
    let pieces = vec![in alloc; front.to_vec(alloc)?, back.to_vec(alloc)?]?;
    let Ok(events) = events_of_pieces(alloc, &pieces) else {
        return Err("three events".into());
    };
    assert_eq!(rt;
        events.as_slice(),
        [deposit(), withdrawal(), transfer()].as_slice()
    );
    Ok(())
}

#[test]
fn cut_at_every_byte(rt: HostRuntime) -> Result<(), Fail> {
    for at in 0..TEXT.len() {
        check_cut(&rt, rt.alloc(), at)?;
    }
    Ok(())
}

// A line's events come once it has ended, and not with the next.
#[test]
fn a_line_at_once(rt: HostRuntime) -> Result<(), Fail> {
    let alloc = rt.alloc();
    let mut stream = EventStream::new(alloc);
    let mut events = Vec::new(alloc);
    let fed = stream.feed(b"0,deposit,1,100\n2,trans".as_slice(), &mut events);
    assert!(rt; fed.is_ok());
    assert_eq!(rt; events.as_slice(), [deposit()].as_slice());
    Ok(())
}

#[test]
fn the_second_record_is_bad(rt: HostRuntime) -> Result<(), Fail> {
    let alloc = rt.alloc();
    let mut stream = EventStream::new(alloc);
    let mut events = Vec::new(alloc);
    let mut reader = Counted::new(
        b"0,deposit,1,100\n16,deposit,1,1\n2,transfer,1,7,30\n".as_slice(),
    );
    let read = stream.read(&mut reader, &mut events);
    assert!(rt;
        matches!(
            read,
            Err(FileFault::Input {
                k: 2,
                cause: Cause::BadRecord
            })
        )
    );
    assert_eq!(rt; events.as_slice(), [deposit()].as_slice());
    Ok(())
}
