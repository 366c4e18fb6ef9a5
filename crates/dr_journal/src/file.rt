//! A real file. What it has, and what a crash may leave of it, is said by the calls made on it, which
//! contracts alone see. No clause can say that the system does as they say: each method below has to be
//! read, whether it makes the call that it notes.

ghost use Rattle.std.specs.Prelude.{◌≡◌, length, true, false, Ok, Err};
ghost use Rattle.dr_journal.specs.Inside.File.{seen_in, faults_in};
ghost use Rattle.dr_journal.specs.declared.fault.JournalFault.TheVariants.{Failed};

use crate::{Device, JournalFault};
use std::fs::File;
use std::mem;
use std::os::unix::fs::FileExt;
use std::snapshot::Snapshot;

/// All calls so far, and whether they were answered: those before the last one, and that. They begin with
/// what was read as the file was opened, piece by piece.
#[derive(Drop)]
pub(crate) enum Calls {
    Unopened,
    Read(Snapshot<Calls>, Snapshot<Vec<u8>>),
    Overwritten(Snapshot<Calls>, usize, Snapshot<Vec<u8>>, bool),
    Extended(Snapshot<Calls>, u64, Snapshot<Vec<u8>>, bool),
    Synced(Snapshot<Calls>, bool),
}

/// An open file of the operating system, which [`open`](crate::open) makes and locks. Once a call on it
/// was not answered, it makes no other: what the kernel keeps of a failed sync, nobody knows.
#[derive(Drop)]
pub struct FileDevice {
    file: File,
    len: u64,
    // A call was not answered: no other is made.
    is_broken: bool,
    calls: Snapshot<Calls>,
    // Where the next byte goes.
    ghost ends: { len ≡ length (seen_in calls.value) },
    // A call after one that was not answered is not made.
    ghost works: { is_broken ≡ false → faults_in calls.value ≡ 0 },
}

fn told(done: bool) -> Result<(), JournalFault>
    ensures ok { done ≡ true → result ≡ Ok tt }
    ensures err { done ≡ false → result ≡ Err Failed }
{
    if done {
        Ok(())
    } else {
        Err(JournalFault::Failed)
    }
}

impl FileDevice {
    /// A file of so many bytes, all of which were read, and are on the disk.
    pub(crate) fn new(file: File, len: u64, calls: Snapshot<Calls>) -> FileDevice
        requires len { len ≡ length (seen_in calls.value) }
        requires works { faults_in calls.value ≡ 0 }
        ensures calls { result.calls.value ≡ calls.value }
    {
        FileDevice {
            file,
            len,
            is_broken: false,
            calls,
        }
    }
}

impl Device for FileDevice {
    ghost use Rattle.dr_journal.specs.Inside.File.{left_in, moment_in, since_in, now_counts, now_only};

    ghost seen = { λ f. seen_in f.calls.value };

    ghost may_leave = { λ f. left_in f.calls.value };

    ghost moment = { λ f. moment_in f.calls.value };

    ghost left_since = { λ f. since_in f.calls.value };

    ghost faults = { λ f. faults_in f.calls.value };

    ghost counts_now = { λ f t c le now. now_counts f.calls.value t c now };

    ghost only_now = { λ f c left. now_only f.calls.value c left };

    fn overwrite(&mut self, at: usize, bytes: &Vec<u8>) -> Result<(), JournalFault> {
        let done = !self.is_broken && self.file.write_all_at(bytes, at as u64).is_ok();
        self.is_broken = !done;
        let before = mem::replace(&mut self.calls, Snapshot::of(&Calls::Unopened));
        self.calls = Snapshot::of(&Calls::Overwritten(before, at, Snapshot::of(bytes), done));
        told(done)
    }

    fn extend(&mut self, bytes: &Vec<u8>) -> Result<(), JournalFault> {
        let at = self.len;
        let end = at.checked_add(bytes.len() as u64);
        let done = !self.is_broken && end.is_some() && self.file.write_all_at(bytes, at).is_ok();
        self.is_broken = !done;
        self.len = match end {
            Some(end) if done => end,
            _ => at,
        };
        let before = mem::replace(&mut self.calls, Snapshot::of(&Calls::Unopened));
        self.calls = Snapshot::of(&Calls::Extended(before, at, Snapshot::of(bytes), done));
        told(done)
    }

    fn sync(&mut self) -> Result<(), JournalFault> {
        let done = !self.is_broken && self.file.sync_data().is_ok();
        self.is_broken = !done;
        let before = mem::replace(&mut self.calls, Snapshot::of(&Calls::Unopened));
        self.calls = Snapshot::of(&Calls::Synced(before, done));
        told(done)
    }
}
