//! The operations of a ledger's file, as they come while it is opened.

ghost use Rattle.std.specs.Prelude.{◌≡◌, ◌++◌, [], List, ℕ, Option, Ok, length, false, true, IfErr, IfOk, IsSome, OnErr, OnOk};
ghost use Rattle.dr_seq.specs.declared.event.Event.{Event};
ghost use Rattle.dr_journal.specs.Calls.Journals.{IsAtRest, bytes_of, records_of};
ghost use Rattle.dr_journal.specs.Calls.Opened.{file_faults, file_left, file_left_since, file_seen, read_so_far};
ghost use Rattle.dr_journal.specs.Calls.Parts.{device_of};
ghost use Rattle.dr_journal.specs.Meaning.Format.{recovered};
ghost use Rattle.dr_journal.specs.declared.fault.OpenFault.{OpenFault};
ghost use Rattle.dr_journal.specs.declared.opening.Opening.{Opening};
ghost use Rattle.dr_ledger.specs.Coming.{HasCome, IsFresh, IsOnlyRead, SayFirst, read_of, records_read, refusal, role_of, waiting_of};
ghost use Rattle.dr_ledger.specs.Starting.{IsOfFile, TellsComing};

use crate::StartFault;
use crate::records::read_behind;
use dr_journal::{FileDevice, Journal, JournalFault, OpenFault, Opening};
use dr_seq::Event;
use std::alloc::Global;
use std::snapshot::Snapshot;

/// Which of a ledger's files one is.
#[derive(Clone, Copy, Debug, PartialEq, Eq)]
pub enum Role {
    Journal,
    Replica,
}

impl Role {
    // Why a ledger does not start whose file of this role is not opened.
    fn refuses(self, fault: OpenFault) -> StartFault
        ensures { result ≡ refusal self fault }
    {
        match self {
            Role::Journal => StartFault::Journal(fault),
            Role::Replica => StartFault::Replica(fault),
        }
    }
}

/// A file of a ledger that is being opened. Its operations come piece by piece, and what was taken of
/// them is kept no longer: so however long the file is, no more is in memory than a piece of it brings.
/// It is only read, until its journal is made.
#[derive(Drop)]
pub struct Coming {
    alloc: Global,
    role: Role,
    // The file, until its journal is made.
    opening: Option<Opening>,
    // What it was by then, which contracts alone see.
    before: Snapshot<Option<Opening>>,
    // The operations that came and were not taken yet.
    pub(crate) waiting: Vec<Event>,
}

// Reads the next piece of a file. It answers whether there was one.
fn read_on(
    role: Role,
    opening: &mut Option<Opening>,
    records: &mut Vec<Vec<u8>>,
) -> Result<bool, StartFault>
    ensures added { (before : Option Opening) → records.old.items ≡ [] → OnOk result (recovered (read_of opening.new before) ≡ recovered (read_of opening.old before) ++ bytes_of records.new.items) }
    ensures stays { (before : Option Opening) → OnErr result (read_of opening.new before ≡ read_of opening.old before) }
    ensures only_read { IsSome opening.old → IsSome opening.new }
    ensures told { IfErr result (λ fault. (refused : OpenFault) × (fault ≡ refusal role refused)) }
{
    let Some(opening) = opening else {
        return Ok(false);
    };
    match opening.next_records(records) {
        Ok(more) => Ok(more),
        Err(fault) => Err(role.refuses(fault)),
    }
}

impl Coming {
    // Reads the header of a file that was opened.
    fn begun(alloc: Global, role: Role, opening: Opening) -> Result<Coming, StartFault>
        requires { read_so_far opening ≡ [] }
        ensures fresh { IfOk result (λ coming. IsFresh coming) }
        ensures role { IfOk result (λ coming. role_of coming ≡ role) }
        ensures told { IfErr result (λ fault. IsOfFile fault role) }
    {
        let opening = Some(opening);
        let mut coming = Coming {
            alloc,
            role,
            before: Snapshot::of(&opening),
            opening,
            waiting: Vec::new(alloc),
        };
        coming.has_more(0)?;
        Ok(coming)
    }

    /// Opens and locks the file of this path, and reads its header. A file that is missing is made.
    pub fn open(rt: &HostRuntime, role: Role, path: &str) -> Result<Coming, StartFault>
        // Nothing of it was taken or written, and the operations that wait are those that its records so far say.
        ensures fresh { IfOk result (λ coming. IsFresh coming) }
        // It has the role that it was opened for.
        ensures role { IfOk result (λ coming. role_of coming ≡ role) }
        // It is told which file is not opened.
        ensures told { IfErr result (λ fault. IsOfFile fault role) }
    {
        match Opening::new(rt, path) {
            Ok(opening) => Coming::begun(rt.alloc(), role, opening),
            Err(fault) => Err(role.refuses(fault)),
        }
    }

    /// Whether no operation waits.
    pub(crate) fn is_empty(&self) -> bool
        ensures { result ≡ true → waiting_of self.now ≡ [] }
    {
        self.waiting.as_slice().is_empty()
    }

    /// Whether more operations wait, or may come: at the file's end with none that waits, there are no
    /// more. Where none waits it reads the next piece, of whose records `count` others come before.
    pub(crate) fn has_more(&mut self, count: u64) -> Result<bool, StartFault>
        ensures come { (past : List Event) → HasCome self.old past → OnOk result (HasCome self.new past) }
        ensures none { result ≡ Ok false → waiting_of self.new ≡ [] }
        ensures first { (past : List Event) → HasCome self.old past → SayFirst (records_read self.new) (past ++ waiting_of self.old) }
        ensures only_read { IsOnlyRead self.old → IsOnlyRead self.new }
        ensures role { role_of self.new ≡ role_of self.old }
        ensures of_file { IfErr result (λ fault. IsOfFile fault (role_of self.old)) }
        ensures told { (past : List Event) → HasCome self.old past → length past ≡ count → IfErr result (λ fault. TellsComing fault (role_of self.new) (records_read self.new)) }
    {
        if !self.is_empty() {
            return Ok(true);
        }
        let mut records = Vec::new(self.alloc);
        let more = read_on(self.role, &mut self.opening, &mut records)?;
        self.waiting = read_behind(self.alloc, &records, count)?;
        if self.is_empty() { Ok(more) } else { Ok(true) }
    }

    /// Makes the journal of a file that was read to its end.
    pub(crate) fn finish(&mut self) -> Result<Journal<FileDevice>, StartFault>
        requires { IsOnlyRead self.old }
        ensures at_rest { IfOk result (λ j. IsAtRest file_seen file_left j) }
        ensures same { IfOk result (λ j. records_of file_seen j ≡ records_read self.old) }
        // Since the file was opened, a crash left the same records.
        ensures any_moment { IfOk result (λ j. (c : List ℕ) → file_left_since (device_of j) 0 c → recovered c ≡ records_read self.old) }
        ensures reliable { IfOk result (λ j. file_faults (device_of j) ≡ 0) }
        ensures read { records_read self.new ≡ records_read self.old }
        ensures role { role_of self.new ≡ role_of self.old }
        ensures told { IfErr result (λ fault. (refused : OpenFault) × (fault ≡ refusal (role_of self.old) refused)) }
    {
        self.before = Snapshot::of(&self.opening);
        let Some(opening) = self.opening.take() else {
            return Err(self.role.refuses(OpenFault::Journal(JournalFault::Failed)));
        };
        match opening.finish() {
            Ok(journal) => Ok(journal),
            Err(fault) => Err(self.role.refuses(fault)),
        }
    }
}
