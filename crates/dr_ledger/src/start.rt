//! How a ledger begins: from what its journal and its replica have, which are read side by side.

ghost use Rattle.std.specs.Prelude.{◌≡◌, ◌<◌, ◌++◌, [], List, length, IfErr, IfOk, OnOk, IsErrOf};
ghost use Rattle.dr_seq.specs.declared.event.Event.{Event};
ghost use Rattle.dr_journal.specs.Calls.Journals.{CrashLeaves, IsAtRest, faults_of};
ghost use Rattle.dr_journal.specs.Calls.Opened.{file_faults, file_left, file_seen};
ghost use Rattle.dr_ledger.specs.Batches.{AreAtRest, IsOfStore};
ghost use Rattle.dr_ledger.specs.Coming.{IsFresh, IsOnlyRead, records_read, role_of, waiting_of};
ghost use Rattle.dr_ledger.specs.Answering.{IsKept};
ghost use Rattle.dr_ledger.specs.Standing.{Copies, Holds, IsAtWork, disk_faults, journal_of, replica_of};
ghost use Rattle.dr_ledger.specs.Starting.{Agrees, AreBooked, AreTaken, BooksAll, Evens, HasNoMore, IsLevel, IsTaken, Levels, StartsFrom, StartsFromBoth, TellsStart, TellsStartFromBoth};
ghost use Rattle.dr_ledger.specs.declared.fault.LedgerFault.TheVariants.{Disk};
ghost use Rattle.dr_ledger.specs.declared.start_fault.StartFault.TheVariants.{Ledger as LedgerEnded};

use crate::records::records_of;
use crate::{Accounts, Coming, Ledger, LedgerFault, Role, StartFault};
use dr_journal::{Device, FileDevice, Journal};
use dr_seq::are_same;
use std::alloc::Global;

// Books as many of the operations that wait as both files have, where those are the same.
fn match_waiting(
    journal: &mut Coming,
    replica: &mut Coming,
    accounts: &mut Accounts,
) -> Result<(), StartFault>
    ensures agrees { (past : List Event) → AreTaken journal.old replica.old accounts.old past → Agrees result journal.new replica.new accounts.new past }
    ensures only_read { IsOnlyRead journal.old → IsOnlyRead journal.new }
    ensures copy_only_read { IsOnlyRead replica.old → IsOnlyRead replica.new }
{
    let n = journal.waiting.len().min(replica.waiting.len());
    let rest = journal.waiting.split_off(n)?;
    let other_rest = replica.waiting.split_off(n)?;
    if !are_same(&journal.waiting, &replica.waiting) {
        return Err(StartFault::Differs);
    }
    accounts.book(&journal.waiting)?;
    journal.waiting = rest;
    replica.waiting = other_rest;
    Ok(())
}

/// Reads a journal and its replica side by side until one of them has no more, and books what both say.
/// It answers which one. Nothing is written.
pub fn agree(
    journal: &mut Coming,
    replica: &mut Coming,
    accounts: &mut Accounts,
) -> Result<Role, StartFault>
    // Whatever was taken of both before, both say some operations more, which are booked. They are told to differ only where
    // they do, and a record to be no operation only where it is none.
    ensures agrees { (past : List Event) → AreTaken journal.old replica.old accounts.old past → Agrees result journal.new replica.new accounts.new past }
    // Nothing waits of the one that is told.
    ensures ends { IfOk result (λ ended. HasNoMore ended journal.new replica.new) }
    // Both are only read.
    ensures only_read { IsOnlyRead journal.old → IsOnlyRead journal.new }
    ensures copy_only_read { IsOnlyRead replica.old → IsOnlyRead replica.new }
{
    for _ in 0..u64::MAX {
        if !journal.has_more(accounts.count())? {
            return Ok(Role::Journal);
        }
        if !replica.has_more(accounts.count())? {
            return Ok(Role::Replica);
        }
        match_waiting(journal, replica, accounts)?;
    }
    Err(StartFault::Ledger(LedgerFault::Memory))
}

// Gives a journal the operations of a file that wait, and books them.
fn give<D: Device>(
    alloc: Global,
    journal: &mut Journal<D>,
    rest: &mut Coming,
    accounts: &mut Accounts,
) -> Result<(), LedgerFault>
    requires { IsAtRest D.seen D.may_leave journal.old }
    ensures gives { (past : List Event) → IsLevel D.seen D.may_leave journal.old rest.old accounts.old past → OnOk result (IsLevel D.seen D.may_leave journal.new rest.new accounts.new (past ++ waiting_of rest.old)) }
    ensures any_moment { (past : List Event) → IsLevel D.seen D.may_leave journal.old rest.old accounts.old past → CrashLeaves D.moment D.left_since journal.old journal.new (IsKept past [] (waiting_of rest.old)) }
    ensures at_rest { OnOk result (IsAtRest D.seen D.may_leave journal.new) }
    ensures of_store { IfErr result IsOfStore }
    ensures reliable { OnOk result (faults_of D.faults journal.new ≡ faults_of D.faults journal.old) }
    ensures failed { IsErrOf result Disk → faults_of D.faults journal.old < faults_of D.faults journal.new }
    ensures read { records_read rest.new ≡ records_read rest.old }
    ensures only_read { IsOnlyRead rest.old → IsOnlyRead rest.new }
    ensures role { role_of rest.new ≡ role_of rest.old }
{
    if rest.is_empty() {
        return Ok(());
    }
    let records = records_of(alloc, &rest.waiting)?;
    journal.append(alloc, &records)?;
    accounts.book(&rest.waiting)?;
    rest.waiting.clear();
    Ok(())
}

/// Gives a journal what comes of another file, piece by piece, and books it.
pub fn level<D: Device>(
    alloc: Global,
    journal: &mut Journal<D>,
    rest: &mut Coming,
    accounts: &mut Accounts,
) -> Result<(), StartFault>
    requires { IsAtRest D.seen D.may_leave journal.old }
    // Whatever the journal stood for, some operations came, and it stands for them too; or it is told why not. At each moment a
    // crash left it with what it had, and a beginning of them.
    ensures levels { (past : List Event) → IsLevel D.seen D.may_leave journal.old rest.old accounts.old past → Levels D.seen D.may_leave D.moment D.left_since result journal.old journal.new rest.new accounts.new past }
    ensures only_read { IsOnlyRead rest.old → IsOnlyRead rest.new }
    ensures role { role_of rest.new ≡ role_of rest.old }
    // A failure of the disk is told, and only where it has failed.
    ensures reliable { OnOk result (faults_of D.faults journal.new ≡ faults_of D.faults journal.old) }
    ensures failed { IsErrOf result (LedgerEnded Disk) → faults_of D.faults journal.old < faults_of D.faults journal.new }
{
    for _ in 0..u64::MAX {
        if !rest.has_more(accounts.count())? {
            return Ok(());
        }
        give(alloc, journal, rest, accounts)?;
    }
    Err(StartFault::Ledger(LedgerFault::Memory))
}

// Books what comes of a file.
fn book_all(coming: &mut Coming, accounts: &mut Accounts) -> Result<(), StartFault>
    ensures books { (past : List Event) → IsTaken coming.old accounts.old past → BooksAll result coming.new accounts.new past }
    ensures only_read { IsOnlyRead coming.old → IsOnlyRead coming.new }
    ensures role { role_of coming.new ≡ role_of coming.old }
{
    for _ in 0..u64::MAX {
        if !coming.has_more(accounts.count())? {
            return Ok(());
        }
        accounts.book(&coming.waiting)?;
        coming.waiting.clear();
    }
    Err(StartFault::Ledger(LedgerFault::Memory))
}

// Makes the journal of a file that has no more, gives it what comes of a second one, and makes that
// one's journal too.
fn even(
    alloc: Global,
    short: &mut Coming,
    long: &mut Coming,
    accounts: &mut Accounts,
) -> Result<(Journal<FileDevice>, Journal<FileDevice>), StartFault>
    requires short { IsOnlyRead short.old }
    requires long { IsOnlyRead long.old }
    requires none { waiting_of short.old ≡ [] }
    ensures evens { (past : List Event) → AreTaken short.old long.old accounts.old past → Evens result short.new long.new accounts.new past }
    ensures reliable { IfOk result (λ both. (faults_of file_faults both.0 ≡ 0) × (faults_of file_faults both.1 ≡ 0)) }
{
    let mut made = short.finish()?;
    level(alloc, &mut made, long, accounts)?;
    let other = long.finish()?;
    Ok((made, other))
}

// A ledger over journals that were made, and how many operations it goes on from.
fn started<D: Device>(
    alloc: Global,
    journal: Journal<D>,
    replica: Option<Journal<D>>,
    accounts: Accounts,
) -> (Ledger<D>, u64)
    ensures work { (all : List Event) → Holds D.seen D.may_leave journal all → Copies D.seen D.may_leave replica all → AreBooked accounts all → IsAtWork D.seen D.may_leave result.0 all }
    ensures at_rest { (all : List Event) → Holds D.seen D.may_leave journal all → Copies D.seen D.may_leave replica all → AreAtRest D.seen D.may_leave result.0 }
    ensures counted { (all : List Event) → AreBooked accounts all → result.1 ≡ length all }
    ensures journal { journal_of result.0 ≡ journal }
    ensures replica { replica_of result.0 ≡ replica }
{
    let count = accounts.count();
    let responder = accounts.into_responder(alloc);
    (Ledger::new(alloc, journal, replica, responder), count)
}

/// A ledger over a journal, which goes on from what that has, and the number of these operations.
pub fn begin(alloc: Global, journal: &mut Coming) -> Result<(Ledger<FileDevice>, u64), StartFault>
    requires { IsFresh journal.old }
    // It stands for the operations that the journal's records say, and each crash since the journal was opened left these.
    ensures starts { IfOk result (λ started. StartsFrom started.0 started.1 journal.new) }
    ensures at_rest { IfOk result (λ started. AreAtRest file_seen file_left started.0) }
    // A failure of the disk is told.
    ensures reliable { IfOk result (λ started. disk_faults file_faults started.0 ≡ 0) }
    // Why it does not begin: a record is told to be no operation only where it is none, and then the journal is untouched.
    ensures told { IfErr result (λ fault. TellsStart fault journal.new) }
{
    let mut accounts = Accounts::new(alloc);
    book_all(journal, &mut accounts)?;
    let made = journal.finish()?;
    Ok(started(alloc, made, None, accounts))
}

/// A ledger over a journal and a replica of it, which goes on from all that one of them has, and the
/// number of these operations. The other is given what it lacks: so where one has lost a record, the
/// other has it.
pub fn begin_with_replica(
    alloc: Global,
    journal: &mut Coming,
    replica: &mut Coming,
) -> Result<(Ledger<FileDevice>, u64), StartFault>
    requires journal { IsFresh journal.old }
    requires replica { IsFresh replica.old }
    // Both stand for the same operations, all that the records of one of them say. Each crash since they were opened left each with
    // what it had, and a beginning of what only the other had.
    ensures starts { IfOk result (λ started. StartsFromBoth started.0 started.1 journal.new replica.new) }
    ensures at_rest { IfOk result (λ started. AreAtRest file_seen file_left started.0) }
    // A failure of a disk is told.
    ensures reliable { IfOk result (λ started. disk_faults file_faults started.0 ≡ 0) }
    // Why it does not begin: they are told to differ only where they do, and then both are untouched; a record is told to be no
    // operation only where it is none, and then its file is.
    ensures told { IfErr result (λ fault. TellsStartFromBoth fault journal.new replica.new) }
{
    let mut accounts = Accounts::new(alloc);
    match agree(journal, replica, &mut accounts)? {
        Role::Journal => {
            let (made, copy) = even(alloc, journal, replica, &mut accounts)?;
            Ok(started(alloc, made, Some(copy), accounts))
        }
        Role::Replica => {
            let (copy, made) = even(alloc, replica, journal, &mut accounts)?;
            Ok(started(alloc, made, Some(copy), accounts))
        }
    }
}
