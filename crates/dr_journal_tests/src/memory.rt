//! Files in memory, byte by byte.
use crate::checks::{check_bytes, opened, opened_by_bytes, two_records};
use dr_journal::{MemoryDevice, OpenFault, Recovery, recover};
use std::test::Fail;

// The text DISRUPT1.
const HEADER: [u8; 8] = [68, 73, 83, 82, 85, 80, 84, 49];

// A batch of two records, one of them empty and one with bytes 0 and 3, then a batch without its end, and what a
// crash left behind a hole.
const TORN: [u8; 20] = [
    68, 73, 83, 82, 85, 80, 84, 49, 1, 9, 3, 4, 3, 7, 1, 2, 9, 1, 0, 2,
];

const REPAIRED: [u8; 20] = [
    68, 73, 83, 82, 85, 80, 84, 49, 1, 9, 3, 4, 3, 7, 1, 2, 0, 0, 0, 0,
];

#[test]
fn a_new_file_gets_its_header(rt: HostRuntime) -> Result<(), Fail> {
    let (journal, records) = opened(rt.alloc(), &[])?;
    assert_eq!(rt; records.len(), 0);
    check_bytes(
        &rt,
        journal.device().bytes(),
        &[68, 73, 83, 82, 85, 80, 84, 49, 0],
    );
    Ok(())
}

#[test]
fn a_beginning_of_a_header_is_finished(rt: HostRuntime) -> Result<(), Fail> {
    let (journal, records) = opened(rt.alloc(), &HEADER[..3])?;
    assert_eq!(rt; records.len(), 0);
    check_bytes(
        &rt,
        journal.device().bytes(),
        &[68, 73, 83, 82, 85, 80, 84, 49, 0],
    );
    Ok(())
}

#[test]
fn a_torn_batch_is_dropped(rt: HostRuntime) -> Result<(), Fail> {
    let (journal, records) = opened(rt.alloc(), &TORN)?;
    assert_eq!(rt; records.len(), 2);
    check_bytes(&rt, records[1].as_slice(), &[9, 0, 3]);
    check_bytes(&rt, journal.device().bytes(), &REPAIRED);
    Ok(())
}

#[test]
fn a_file_that_comes_byte_by_byte_is_read_as_one(rt: HostRuntime) -> Result<(), Fail> {
    let (journal, records) = opened_by_bytes(rt.alloc(), &TORN)?;
    assert_eq!(rt; records.len(), 2);
    check_bytes(&rt, records[0].as_slice(), &[]);
    check_bytes(&rt, records[1].as_slice(), &[9, 0, 3]);
    check_bytes(&rt, journal.device().bytes(), &REPAIRED);
    Ok(())
}

// The pieces end within the header, behind the byte that says that 4 is to be taken from the next one, at the
// end of a batch, and at the file's end.
#[test]
fn records_come_once_their_batch_is_whole(rt: HostRuntime) -> Result<(), Fail> {
    let alloc = rt.alloc();
    let mut recovery = Recovery::new(alloc);
    let mut records = Vec::new(alloc);
    recovery.feed(&TORN[..3], &mut records)?;
    recovery.feed(&TORN[3..11], &mut records)?;
    assert_eq!(rt; records.len(), 0);
    recovery.feed(&TORN[11..16], &mut records)?;
    assert_eq!(rt; records.len(), 2);
    check_bytes(&rt, records[1].as_slice(), &[9, 0, 3]);
    recovery.feed(&TORN[16..], &mut records)?;
    assert_eq!(rt; records.len(), 2);
    Ok(())
}

#[test]
fn the_first_foreign_byte_is_refused(rt: HostRuntime) -> Result<(), Fail> {
    let alloc = rt.alloc();
    let mut recovery = Recovery::new(alloc);
    let mut records = Vec::new(alloc);
    recovery.feed(&HEADER[..7], &mut records)?;
    let refused = recovery.feed(&[50], &mut records);
    assert!(rt; matches!(refused, Err(OpenFault::NotAJournal)));
    Ok(())
}

#[test]
fn another_file_is_left_as_it_is(rt: HostRuntime) -> Result<(), Fail> {
    let alloc = rt.alloc();
    let other = [68u8, 73, 83, 82, 85, 80, 84, 50, 1, 2];
    let device = MemoryDevice::new(alloc, Vec::from_array(alloc, other)?);
    match recover(alloc, device, &other) {
        Err((OpenFault::NotAJournal, device)) => check_bytes(&rt, device.bytes(), &other),
        _ => return Err(Fail::from("opened")),
    }
    Ok(())
}

#[test]
fn a_batch_is_written_over_zeros(rt: HostRuntime) -> Result<(), Fail> {
    let alloc = rt.alloc();
    let (mut journal, _none) = opened(alloc, &HEADER)?;
    let batch = two_records(alloc)?;
    journal.append(alloc, &batch)?;
    let file = journal.into_device();
    assert_eq!(rt; file.bytes().len(), 9 + 8 + (1 << 20));
    let Some(front) = file.bytes().get(..20) else {
        return Err(Fail::from("a short file"));
    };
    check_bytes(&rt, front, &REPAIRED);
    Ok(())
}

#[test]
fn batches_are_written_one_behind_another(rt: HostRuntime) -> Result<(), Fail> {
    let alloc = rt.alloc();
    let (mut journal, _none) = opened(alloc, &HEADER)?;
    let mut batches = Vec::new(alloc);
    batches.push(two_records(alloc)?)?;
    batches.push(two_records(alloc)?)?;
    journal.append_all(alloc, &batches)?;
    let file = journal.into_device();
    let Some(front) = file.bytes().get(..25) else {
        return Err(Fail::from("a short file"));
    };
    check_bytes(
        &rt,
        front,
        &[
            68, 73, 83, 82, 85, 80, 84, 49, 1, 9, 3, 4, 3, 7, 1, 2, 1, 9, 3, 4, 3, 7, 1, 2, 0,
        ],
    );
    Ok(())
}
