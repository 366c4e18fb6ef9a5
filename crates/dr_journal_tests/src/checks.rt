//! How the tests open journals in memory and compare bytes.
ghost use Rattle.std.specs.Prelude.{◌<◌, ◌^◌, length, IfOk};
ghost use Rattle.dr_journal.specs.Calls.Journals.{IsAtRest};

use dr_journal::{Device, Journal, MemoryDevice, OpenFault, Recovery, recover};
use std::alloc::Global;
use std::process::Abort;
use std::test::Fail;

/// Two runs of bytes are the same.
pub fn check_bytes(rt: &impl Abort, found: &[u8], wanted: &[u8]) {
    assert_eq!(rt; found, wanted);
}

/// A journal over a file of these bytes, and its records.
pub fn opened(alloc: Global, bytes: &[u8]) -> Result<(Journal<MemoryDevice>, Vec<Vec<u8>>), Fail>
    requires { length bytes.now < 2 ^ 63 }
    ensures { IfOk result (λ r. IsAtRest ⟦<MemoryDevice as Device>⟧.seen ⟦<MemoryDevice as Device>⟧.may_leave r.0) }
{
    let device = MemoryDevice::new(alloc, bytes.to_vec(alloc)?);
    match recover(alloc, device, bytes) {
        Ok(opened) => Ok(opened),
        Err((OpenFault::NotAJournal, _device)) => Err(Fail::from("not a journal")),
        Err(_) => Err(Fail::from("no memory")),
    }
}

/// The same, of a file that comes byte by byte.
pub fn opened_by_bytes(
    alloc: Global,
    bytes: &[u8],
) -> Result<(Journal<MemoryDevice>, Vec<Vec<u8>>), Fail>
    requires { length bytes.now < 2 ^ 63 }
{
    let mut recovery = Recovery::new(alloc);
    let mut records = Vec::new(alloc);
    for byte in bytes {
        recovery.feed(&[*byte], &mut records)?;
    }
    let device = MemoryDevice::new(alloc, bytes.to_vec(alloc)?);
    match recovery.finish(alloc, device) {
        Ok(journal) => Ok((journal, records)),
        Err(_) => Err(Fail::from("no memory")),
    }
}

/// Two records, of which the first is empty and the second has the bytes that are written as two.
pub fn two_records(alloc: Global) -> Result<Vec<Vec<u8>>, Fail> {
    let mut records = Vec::new(alloc);
    records.push(Vec::new(alloc))?;
    records.push(Vec::from_array(alloc, [9u8, 0, 3])?)?;
    Ok(records)
}
