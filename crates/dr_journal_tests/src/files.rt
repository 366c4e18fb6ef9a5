//! Real files.
use crate::checks::{check_bytes, two_records};
use dr_journal::{JournalFault, OpenFault, Opening, open};
use std::fs::{self, OpenOptions};
use std::test::Fail;

const PATH: &str = "dr_journal_test";

const OTHER: &str = "dr_journal_test_other";

const LARGE: &str = "dr_journal_test_large";

const PIECES: &str = "dr_journal_test_pieces";

const NEW: &str = "dr_journal_test_new";

const HUGE: &str = "dr_journal_test_huge";

#[test]
fn a_journal_is_found_again(rt: HostRuntime) -> Result<(), Fail> {
    let alloc = rt.alloc();
    let _ = fs::remove_file(&rt, PATH);
    let (mut journal, _none) = open(&rt, PATH)?;
    let batch = two_records(alloc)?;
    journal.append(alloc, &batch)?;
    assert!(rt; matches!(open(&rt, PATH), Err(OpenFault::InUse)));
    drop(journal);
    let (_journal, records) = open(&rt, PATH)?;
    assert_eq!(rt; records.len(), 2);
    check_bytes(&rt, records[1].as_slice(), &[9, 0, 3]);
    fs::remove_file(&rt, PATH)?;
    Ok(())
}

// Each batch is longer than the zeros that the one before leaves.
#[test]
fn a_file_that_grew_twice_has_all_batches(rt: HostRuntime) -> Result<(), Fail> {
    let alloc = rt.alloc();
    let _ = fs::remove_file(&rt, LARGE);
    let (mut journal, _none) = open(&rt, LARGE)?;
    let mut batch = Vec::new(alloc);
    batch.push(vec![in alloc; 9u8; 1 << 20]?)?;
    journal.append(alloc, &batch)?;
    journal.append(alloc, &batch)?;
    drop(journal);
    let (_journal, records) = open(&rt, LARGE)?;
    assert_eq!(rt; records.len(), 2);
    check_bytes(&rt, records[0].as_slice(), batch[0].as_slice());
    check_bytes(&rt, records[1].as_slice(), batch[0].as_slice());
    fs::remove_file(&rt, LARGE)?;
    Ok(())
}

// The first piece is the header, and the second one has the batch. What was not read to its end is no journal yet.
#[test]
fn an_opening_gives_the_records_piece_by_piece(rt: HostRuntime) -> Result<(), Fail> {
    let alloc = rt.alloc();
    let _ = fs::remove_file(&rt, PIECES);
    let (mut journal, _none) = open(&rt, PIECES)?;
    let batch = two_records(alloc)?;
    journal.append(alloc, &batch)?;
    drop(journal);
    let mut opening = Opening::new(&rt, PIECES)?;
    let mut records = Vec::new(alloc);
    assert!(rt; opening.next_records(&mut records)?);
    assert_eq!(rt; records.len(), 0);
    assert!(rt; opening.next_records(&mut records)?);
    assert_eq!(rt; records.len(), 2);
    check_bytes(&rt, records[1].as_slice(), &[9, 0, 3]);
    assert!(rt;
        matches!(
            opening.finish(),
            Err(OpenFault::Journal(JournalFault::Failed))
        )
    );
    fs::remove_file(&rt, PIECES)?;
    Ok(())
}

#[test]
fn a_missing_file_is_made_at_the_end(rt: HostRuntime) -> Result<(), Fail> {
    let alloc = rt.alloc();
    let _ = fs::remove_file(&rt, NEW);
    let mut opening = Opening::new(&rt, NEW)?;
    let mut records = Vec::new(alloc);
    assert!(rt; !opening.next_records(&mut records)?);
    check_bytes(&rt, &fs::read(&rt, NEW)?, &[]);
    let journal = opening.finish()?;
    drop(journal);
    check_bytes(&rt, &fs::read(&rt, NEW)?, b"DISRUPT1\0");
    fs::remove_file(&rt, NEW)?;
    Ok(())
}

// It has 2^40 bytes: nobody reads them all.
#[test]
fn another_file_is_refused_by_its_first_bytes(rt: HostRuntime) -> Result<(), Fail> {
    let mut records = Vec::new(rt.alloc());
    fs::write(&rt, HUGE, b"DISRUPT2".as_slice())?;
    OpenOptions::new()
        .write(true)
        .open(&rt, HUGE)?
        .set_len(1 << 40)?;
    let mut opening = Opening::new(&rt, HUGE)?;
    let first = opening.next_records(&mut records);
    assert!(rt; matches!(first, Err(OpenFault::NotAJournal)));
    let again = opening.next_records(&mut records);
    assert!(rt; matches!(again, Err(OpenFault::NotAJournal)));
    assert!(rt; matches!(opening.finish(), Err(OpenFault::NotAJournal)));
    fs::remove_file(&rt, HUGE)?;
    Ok(())
}

#[test]
fn another_file_is_not_touched(rt: HostRuntime) -> Result<(), Fail> {
    fs::write(&rt, OTHER, b"letters of a friend".as_slice())?;
    assert!(rt; matches!(open(&rt, OTHER), Err(OpenFault::NotAJournal)));
    let found = fs::read(&rt, OTHER)?;
    check_bytes(&rt, &found, b"letters of a friend");
    fs::remove_file(&rt, OTHER)?;
    Ok(())
}
