//! A journal: batches of records in a file, each on the disk before it is acknowledged.

ghost use Rattle.std.specs.Prelude.{◌≡◌, ◌⊎◌, ◌≤◌, ◌<◌, ◌+◌, ◌^◌, ◌++◌, length, OnOk, IsErrOf};
ghost use Rattle.dr_journal.specs.declared.fault.JournalFault.TheVariants.{NoMemory, Failed, Full};
ghost use Rattle.dr_journal.specs.Meaning.Disk.{HasCause};
ghost use Rattle.dr_journal.specs.Meaning.Format.{frame};
ghost use Rattle.dr_journal.specs.Calls.Parts.{device_of, end_of, length_of};
ghost use Rattle.dr_journal.specs.Calls.Journals.{IsAtRest, StandsFor, IsBeforeOrAfter, HasBeginning, IsRefused, IsTooLarge, HasTooLarge, CrashLeaves, bytes_of, file_of, records_of, first_of, faults_of};

use crate::coding::{frame_of, zeros};
use crate::{Device, JournalFault};
use std::alloc::Global;

const MOST: usize = 1 << 60;

/// How many zeros are written ahead of the batches at once.
const AHEAD: usize = 1 << 20;

/// Batches of records over a device. [`recover`](crate::recover) makes one, at rest. Between two
/// calls it stays at rest until its disk fails; after that its file has to be opened again.
#[derive(Drop)]
pub struct Journal<D: Device> {
    pub(crate) device: D,
    // Where the next batch goes.
    pub(crate) end: usize,
    // How many bytes the file has: zeros from `end` on.
    pub(crate) len: usize,
}

impl<D: Device> Journal<D> {
    /// The device that it writes.
    pub fn device(&self) -> &D
        ensures { result.now ≡ device_of self.now }
    {
        &self.device
    }

    /// Its device, once it is done with.
    pub fn into_device(self) -> D
        ensures { result ≡ device_of self }
    {
        self.device
    }

    /// Adds a batch of records, with one sync, and one more where the file has to grow first. At
    /// `Ok` the batch is acknowledged: from then on each crash leaves a file that has it. After
    /// `Failed` whether the batch is there only an opening tells.
    pub fn append(&mut self, alloc: Global, batch: &[Vec<u8>]) -> Result<(), JournalFault>
        requires { IsAtRest D.seen D.may_leave self.old }
        // At `Ok` the journal is at rest: its file is the header, whole batches and zeros, and all of it is on the disk.
        ensures at_rest { OnOk result (IsAtRest D.seen D.may_leave self.new) }
        // The file stands for what it stood for and then the batch.
        ensures acknowledged { OnOk result (records_of D.seen self.new ≡ records_of D.seen self.old ++ bytes_of batch.now) }
        // A crash at any moment of the call leaves the records from before it, with the whole batch or without it.
        ensures any_moment { CrashLeaves D.moment D.left_since self.old self.new (IsBeforeOrAfter (records_of D.seen self.old) (bytes_of batch.now)) }
        // With no memory or no room it is at rest as before.
        ensures refused { IsRefused result → IsAtRest D.seen D.may_leave self.new × (records_of D.seen self.new ≡ records_of D.seen self.old) }
        // It does not give up by itself.
        ensures faults { faults_of D.faults self.old ≤ faults_of D.faults self.new }
        // A failure of the disk is told: none is tried again in silence.
        ensures reliable { OnOk result (faults_of D.faults self.new ≡ faults_of D.faults self.old) }
        ensures failed { IsErrOf result Failed → faults_of D.faults self.old < faults_of D.faults self.new }
        ensures full { IsErrOf result Full → (self.new ≡ self.old) × IsTooLarge (file_of D.seen self.old) (bytes_of batch.now) }
    {
        let bytes = frame_of(alloc, batch)?;
        self.reserve(alloc, bytes.len())?;
        self.write(&bytes, batch)
    }

    /// Adds batches, one after another, each as [`append`](Journal::append) does.
    pub fn append_all(
        &mut self,
        alloc: Global,
        batches: &[Vec<Vec<u8>>],
    ) -> Result<(), JournalFault>
        requires { IsAtRest D.seen D.may_leave self.old }
        // At `Ok` the journal is at rest.
        ensures at_rest { OnOk result (IsAtRest D.seen D.may_leave self.new) }
        // At `Ok` the file stands for what it stood for and then all the batches, in order.
        ensures acknowledged { OnOk result (records_of D.seen self.new ≡ records_of D.seen self.old ++ first_of batches.now (length batches.now)) }
        // A crash at any moment leaves the records from before, and those of some first batches: none is skipped, and none is there in part.
        ensures any_moment { CrashLeaves D.moment D.left_since self.old self.new (HasBeginning (records_of D.seen self.old) batches.now) }
        // With no memory or no room it is at rest, and has some first batches.
        ensures refused { IsRefused result → IsAtRest D.seen D.may_leave self.new × HasBeginning (records_of D.seen self.old) batches.now (file_of D.seen self.new) }
        // It does not give up by itself, and a failure of the disk is told.
        ensures reliable { OnOk result (faults_of D.faults self.new ≡ faults_of D.faults self.old) }
        ensures failed { IsErrOf result Failed → faults_of D.faults self.old < faults_of D.faults self.new }
        ensures full { IsErrOf result Full → HasTooLarge (file_of D.seen self.new) batches.now }
    {
        for batch in batches {
            self.append(alloc, batch.as_slice())?;
        }
        Ok(())
    }

    // Makes room for so many bytes, and a zero behind them.
    fn reserve(&mut self, alloc: Global, n: usize) -> Result<(), JournalFault>
        requires { IsAtRest D.seen D.may_leave self.old }
        ensures at_rest { OnOk result (IsAtRest D.seen D.may_leave self.new) }
        ensures room { OnOk result (end_of self.new + n < length_of self.new) }
        ensures same { OnOk result (records_of D.seen self.new ≡ records_of D.seen self.old) }
        ensures any_moment { CrashLeaves D.moment D.left_since self.old self.new (StandsFor (records_of D.seen self.old)) }
        ensures refused { IsRefused result → IsAtRest D.seen D.may_leave self.new × (records_of D.seen self.new ≡ records_of D.seen self.old) }
        ensures faults { faults_of D.faults self.old ≤ faults_of D.faults self.new }
        ensures reliable { OnOk result (faults_of D.faults self.new ≡ faults_of D.faults self.old) }
        ensures failed { IsErrOf result Failed → faults_of D.faults self.old < faults_of D.faults self.new }
        ensures full { IsErrOf result Full → (self.new ≡ self.old) × ((2 ^ 60 < length_of self.old) ⊎ (2 ^ 60 < n)) }
    {
        if self.len > MOST || n > MOST {
            return Err(JournalFault::Full);
        }
        if n < self.len - self.end {
            return Ok(());
        }
        self.grow(alloc, n + AHEAD)?;
        Ok(())
    }

    // Writes so many zeros behind the file.
    fn grow(&mut self, alloc: Global, n: usize) -> Result<(), JournalFault>
        requires at_rest { IsAtRest D.seen D.may_leave self.old }
        requires small { length_of self.old + n < 2 ^ 64 }
        ensures at_rest { OnOk result (IsAtRest D.seen D.may_leave self.new) }
        ensures end { OnOk result (end_of self.new ≡ end_of self.old) }
        ensures len { OnOk result (length_of self.new ≡ length_of self.old + n) }
        ensures same { OnOk result (records_of D.seen self.new ≡ records_of D.seen self.old) }
        ensures any_moment { CrashLeaves D.moment D.left_since self.old self.new (StandsFor (records_of D.seen self.old)) }
        ensures refused { IsErrOf result NoMemory → IsAtRest D.seen D.may_leave self.new × (records_of D.seen self.new ≡ records_of D.seen self.old) }
        ensures cause { HasCause (faults_of D.faults self.old) (faults_of D.faults self.new) result }
    {
        let ahead = zeros(alloc, n)?;
        self.device.extend(&ahead)?;
        self.device.sync()?;
        self.len += n;
        Ok(())
    }

    // Writes a batch where there is room for it.
    fn write(&mut self, bytes: &Vec<u8>, batch: &[Vec<u8>]) -> Result<(), JournalFault>
        requires at_rest { IsAtRest D.seen D.may_leave self.old }
        requires room { end_of self.old + length bytes.now.items < length_of self.old }
        requires bytes { bytes.now.items ≡ frame (bytes_of batch.now) }
        ensures at_rest { OnOk result (IsAtRest D.seen D.may_leave self.new) }
        ensures acknowledged { OnOk result (records_of D.seen self.new ≡ records_of D.seen self.old ++ bytes_of batch.now) }
        ensures any_moment { CrashLeaves D.moment D.left_since self.old self.new (IsBeforeOrAfter (records_of D.seen self.old) (bytes_of batch.now)) }
        ensures refused { IsErrOf result NoMemory → IsAtRest D.seen D.may_leave self.new × (records_of D.seen self.new ≡ records_of D.seen self.old) }
        ensures cause { HasCause (faults_of D.faults self.old) (faults_of D.faults self.new) result }
    {
        self.device.overwrite(self.end, bytes)?;
        self.device.sync()?;
        self.end += bytes.len();
        Ok(())
    }
}
