//! Opening a journal by its path.

ghost use Rattle.std.specs.Prelude.{◌≡◌, ◌≤◌, ◌^◌, List, ℕ, length, IfOk, None};
ghost use Rattle.dr_journal.specs.Inside.File.{seen_in, left_in, moment_in, faults_in};
ghost use Rattle.dr_journal.specs.Meaning.Disk.{Only};
ghost use Rattle.dr_journal.specs.Calls.Readers.{HasRead};
ghost use Rattle.dr_journal.specs.Meaning.Format.{recovered};
ghost use Rattle.dr_journal.specs.Calls.Parts.{device_of};
ghost use Rattle.dr_journal.specs.Calls.Journals.{IsAtRest, bytes_of, records_of};

use crate::file::Calls;
use crate::{Device, FileDevice, Journal, JournalFault, OpenFault, Recovery};
use std::alloc::Global;
use std::fs::{self, File, OpenOptions, TryLockError};
use std::os::fd::AsRawFd;
use std::os::unix::fs::FileExt;
use std::snapshot::Snapshot;
use std::{io, mem};

const MOST: u64 = 1 << 60;

/// How many bytes are read at once, after the header.
const PIECE: u64 = 1 << 16;

/// A file that is being opened as a journal, and locked against others. It is read piece by piece, so
/// that no more is in memory than one batch and a piece. What it gives counts only once
/// [`finish`](Opening::finish) has answered: until then the last batch may be in the system's memory
/// alone. After an error it answers that error for good.
#[derive(Drop)]
pub struct Opening {
    alloc: Global,
    file: File,
    // How many bytes the file has, and how many of them were read.
    size: u64,
    at: u64,
    recovery: Recovery,
    fault: Option<OpenFault>,
    calls: Snapshot<Calls>,
    ghost read: { fault ≡ None → HasRead recovery (seen_in calls.value) },
    ghost place: { at ≡ length (seen_in calls.value) },
    ghost works: { faults_in calls.value ≡ 0 },
    ghost durable: { Only (seen_in calls.value) (left_in calls.value) },
    ghost moment: { moment_in calls.value ≡ 0 },
    ghost small: { size ≤ 2 ^ 60 },
    ghost within: { at ≤ size },
}

impl Opening {
    ghost use Rattle.std.specs.Prelude.{[], OnErr, OnOk};
    ghost use Rattle.dr_journal.specs.Calls.Opened.{read_so_far, file_seen, file_left, file_left_since, file_faults};
    ghost use Rattle.dr_journal.specs.Calls.Reading.{AddsNext};

    /// Opens and locks the file of this path, of which nothing is read yet. A file that is missing is made;
    /// the folder is synced.
    pub fn new(rt: &HostRuntime, path: &str) -> Result<Opening, OpenFault>
        ensures { IfOk result (λ opening. read_so_far opening ≡ []) }
    {
        let file = locked(rt, path)?;
        let size = file.metadata().map_err(fault_of)?.len();
        if size > MOST {
            return Err(OpenFault::Journal(JournalFault::Full));
        }
        Ok(Opening {
            alloc: rt.alloc(),
            file,
            size,
            at: 0,
            recovery: Recovery::new(rt.alloc()),
            fault: None,
            calls: Snapshot::of(&Calls::Unopened),
        })
    }

    /// Reads the next piece, the first of which is as long as the header, and adds the records of each
    /// batch that is whole now. It answers whether there was a piece: at the file's end there is none.
    pub fn next_records(&mut self, records: &mut Vec<Vec<u8>>) -> Result<bool, OpenFault>
        // The records added are those by which the file so far stands for more than before.
        ensures added { OnOk result (AddsNext (read_so_far self.old) (read_so_far self.new) records.old.items records.new.items) }
        // A piece that is not read, or is no journal's, counts for nothing.
        ensures stays { OnErr result (read_so_far self.new ≡ read_so_far self.old) }
    {
        if let Some(fault) = self.fault {
            return Err(fault);
        }
        if self.at >= self.size {
            return Ok(false);
        }
        let most = if self.at == 0 { 8 } else { PIECE };
        let n = most.min(self.size - self.at);
        let piece = match read_piece(self.alloc, &self.file, self.at, n) {
            Ok(piece) => piece,
            Err(fault) => {
                self.fault = Some(fault);
                return Err(fault);
            }
        };
        if let Err(fault) = self.recovery.feed(&piece, records) {
            self.fault = Some(fault);
            return Err(fault);
        }
        let before = mem::replace(&mut self.calls, Snapshot::of(&Calls::Unopened));
        self.calls = Snapshot::of(&Calls::Read(before, Snapshot::of(&piece)));
        self.at += n;
        Ok(true)
    }

    /// Makes the journal of a file that was read to its end; one that was not is `Failed`. What an
    /// earlier process wrote last, and its sync perhaps failed, is written back and synced before.
    pub fn finish(self) -> Result<Journal<FileDevice>, OpenFault>
        // At `Ok` the journal is at rest.
        ensures at_rest { IfOk result (λ j. IsAtRest file_seen file_left j) }
        // The journal stands for the records of the bytes that were read.
        ensures same { IfOk result (λ j. records_of file_seen j ≡ recovered (read_so_far self)) }
        // Since it was written back, a crash left the same records.
        ensures any_moment { IfOk result (λ j. (c : List ℕ) → file_left_since (device_of j) 0 c → recovered c ≡ recovered (read_so_far self)) }
        // A failure of the disk is told.
        ensures reliable { IfOk result (λ j. file_faults (device_of j) ≡ 0) }
    {
        if let Some(fault) = self.fault {
            return Err(fault);
        }
        if self.at < self.size {
            return Err(OpenFault::Journal(JournalFault::Failed));
        }
        write_back(
            self.alloc,
            &self.file,
            self.recovery.unsure_from() as u64,
            self.size,
        )?;
        let device = FileDevice::new(self.file, self.at, self.calls);
        match self.recovery.finish(self.alloc, device) {
            Ok(journal) => Ok(journal),
            Err((fault, _device)) => Err(OpenFault::Journal(fault)),
        }
    }

    // Reads the rest, and adds all its records.
    #[tactic(auto, using(crate::proofs::Openings::adds_none, crate::proofs::Openings::adds_then))]
    fn read_rest(&mut self, records: &mut Vec<Vec<u8>>) -> Result<(), OpenFault>
        ensures added { OnOk result (AddsNext (read_so_far self.old) (read_so_far self.new) records.old.items records.new.items) }
    {
        for _ in self.at..self.size {
            if !self.next_records(records)? {
                return Ok(());
            }
        }
        Ok(())
    }
}

/// Opens the file of this path as a journal, and gives all its records in order. A file that is missing,
/// empty, or has a beginning of the header is made one: the header and the folder are synced. While the
/// journal lives, nobody else can open the file as one.
#[tactic(auto, using(crate::proofs::Openings::adds_all))]
pub fn open(rt: &HostRuntime, path: &str) -> Result<(Journal<FileDevice>, Vec<Vec<u8>>), OpenFault>
    // At `Ok` the journal is at rest.
    ensures at_rest { IfOk result (λ r. IsAtRest ⟦<FileDevice as Device>⟧.seen ⟦<FileDevice as Device>⟧.may_leave r.0) }
    // The records that it gives are those that the journal stands for, in order.
    ensures records { IfOk result (λ r. bytes_of r.1.items ≡ records_of ⟦<FileDevice as Device>⟧.seen r.0) }
    // Since the file was read, a crash left the same records.
    ensures any_moment { IfOk result (λ r. (c : List ℕ) → ⟦<FileDevice as Device>⟧.left_since (device_of r.0) 0 c → recovered c ≡ records_of ⟦<FileDevice as Device>⟧.seen r.0) }
{
    let mut opening = Opening::new(rt, path)?;
    let mut records = Vec::new(rt.alloc());
    opening.read_rest(&mut records)?;
    Ok((opening.finish()?, records))
}

// So many bytes of a file from there on.
fn read_piece(alloc: Global, file: &File, at: u64, n: u64) -> Result<Vec<u8>, OpenFault>
    requires { n ≤ 2 ^ 60 }
    ensures { IfOk result (λ bytes. length bytes.items ≡ n) }
{
    let mut bytes = vec![in alloc; 0u8; n as usize].map_err(JournalFault::from)?;
    file.read_exact_at(&mut bytes, at).map_err(fault_of)?;
    Ok(bytes)
}

// Writes what a file has from there on once more, and syncs it. Where a sync has failed, the system may
// take what it holds for written: only writing it again puts it on the disk.
fn write_back(alloc: Global, file: &File, from: u64, size: u64) -> Result<(), OpenFault> {
    for at in (from..size).step_by(PIECE as usize) {
        let bytes = read_piece(alloc, file, at, PIECE.min(size.saturating_sub(at)))?;
        file.write_all_at(&bytes, at).map_err(fault_of)?;
    }
    file.sync_all().map_err(fault_of)
}

// What a failed call of the system is as a fault.
fn fault_of(error: io::Error) -> OpenFault {
    match error.kind() {
        io::ErrorKind::OutOfMemory => OpenFault::Journal(JournalFault::NoMemory),
        _ => OpenFault::Journal(JournalFault::Failed),
    }
}

// The file, which is made if it is missing, locked against another journal.
fn locked(rt: &HostRuntime, path: &str) -> Result<File, OpenFault> {
    let file = open_or_make(rt, path).map_err(fault_of)?;
    if !file.metadata().map_err(fault_of)?.is_file() {
        return Err(OpenFault::NotAJournal);
    }
    match file.try_lock() {
        Ok(()) => {}
        Err(TryLockError::WouldBlock) => return Err(OpenFault::InUse),
        Err(TryLockError::Error(error)) => return Err(fault_of(error)),
    }
    sync_folder(rt, path).map_err(fault_of)?;
    Ok(file)
}

// What is meant for a standard stream that was closed must not land in a journal, so its descriptor is
// another than theirs.
fn open_or_make(rt: &HostRuntime, path: &str) -> io::Result<File> {
    let file = OpenOptions::new()
        .read(true)
        .write(true)
        .create(true)
        .open(rt, path)?;
    if file.as_raw_fd() <= 2 {
        file.try_clone()
    } else {
        Ok(file)
    }
}

// Puts the file's name on the disk. Where the path is a link, the folder is that of the file.
fn sync_folder(rt: &HostRuntime, path: &str) -> io::Result<()> {
    let mut folder = fs::canonicalize(rt, path)?;
    folder.pop();
    File::open(rt, folder.as_str())?.sync_all()
}
