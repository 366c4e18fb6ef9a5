//! Operations as an event file.

use dr_operations::{Movement, Operation, push_event_file};
use std::test::Fail;

const TRANSFER: Operation = Operation {
    producer: 2,
    movement: Movement::Transfer {
        from: 1,
        to: 7,
        amount: 30,
    },
};

#[test]
fn file_of_a_transfer(rt: HostRuntime) -> Result<(), Fail> {
    let mut text = String::new(rt.alloc());
    push_event_file(&mut text, [TRANSFER.event(), TRANSFER.event()].as_slice())?;
    assert_eq!(rt; text.as_str(), "2,transfer,1,7,30\n2,transfer,1,7,30\n");
    Ok(())
}
