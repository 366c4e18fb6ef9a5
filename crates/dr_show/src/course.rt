//! How far a run has come: in its setup, or with its exchange open.

ghost use Rattle.std.specs.Prelude.{◌≡◌, ◌++◌, OnOk, false, if◌then◌else◌, length, string_bytes};
ghost use Rattle.csv.specs.Records.{fields_of};
ghost use Rattle.dr_drive.specs.Calls.Shows.{IsPreparation, core_of, setting_up_of};
ghost use Rattle.dr_drive.specs.Meaning.DriveText.{Phase, Preparing, taken};
ghost use Rattle.dr_show.specs.Inside.Courses.{CourseShows, RunningObeys, RunningShows, TakesRecord, exchange_of, missing_of, recents_of};
ghost use Rattle.dr_show.specs.Inside.Objects.{command_seen};
ghost use Rattle.dr_show.specs.declared.tool.Window.{Window};

use crate::objects::{put_command, put_setup, put_start};
use crate::sequences::Recents;
use crate::tool::Window;
use csv::ByteRecord;
use dr_drive::setup::{Preparation, Prepared, missing, prepare};
use dr_drive::{Cause, Exchange, RecordFault, put_line};
use std::alloc::{AllocError, Global};

/// An exchange, with what is known of its last claimed sequences.
#[derive(Drop)]
pub(crate) struct Running {
    exchange: Exchange,
    recents: Recents,
}

/// How far a run has come.
#[derive(Drop)]
pub(crate) enum Course {
    Preparing(Preparation),
    Running(Running),
}

impl Course {
    /// What a file lacks that ends here.
    pub fn missing(&self) -> Option<Cause>
        ensures { (phase : Phase) → CourseShows self.now phase → result ≡ missing_of phase }
    {
        match self {
            Course::Preparing(at) => Some(missing(at)),
            Course::Running(_) => None,
        }
    }
}

// Runs the command of a record, and puts its line in the place of another.
fn obey(running: &mut Running, row: &ByteRecord, line: &mut String) -> Result<(), RecordFault>
    requires { (phase : Phase) × RunningShows running.old phase }
    ensures { (phase : Phase) → RunningShows running.old phase → RunningObeys result running.new (string_bytes line.new) phase (fields_of row.now) }
{
    let Some(command) = running.exchange.command(row) else {
        return Err(RecordFault::Cause(Cause::BadRecord));
    };
    let reply = running.exchange.execute(command);
    let next = running.exchange.core().next();
    running.recents.note(command, reply, next);
    put_line(line, reply, running.exchange.handed(reply.count()))?;
    Ok(())
}

// A record of the setup, the k-th, which every window shows.
fn take_setup(
    alloc: Global,
    at: Preparation,
    k: u64,
    row: &ByteRecord,
    page: &mut String,
) -> Result<Course, RecordFault>
    requires { IsPreparation at }
    ensures { (window : Window) → TakesRecord result window k (fields_of row.now) (taken false (Preparing (setting_up_of at)) (fields_of row.now)) (string_bytes page.old) (string_bytes page.new) }
{
    match prepare(alloc, at, row) {
        Ok(Prepared::Goes(next)) => {
            put_setup(page, k, row)?;
            Ok(Course::Preparing(next))
        }
        Ok(Prepared::Opens(exchange)) => {
            let recents = Recents::new(alloc, exchange.ring().size)?;
            put_start(page, k, row, &exchange, &recents)?;
            Ok(Course::Running(Running { exchange, recents }))
        }
        Err(fault) => Err(fault),
    }
}

// Puts the object of a command where it is shown.
fn put_command_if(
    shown: bool,
    page: &mut String,
    k: u64,
    row: &ByteRecord,
    line: &str,
    running: &Running,
) -> Result<(), AllocError>
    requires { length (recents_of running.now) ≡ (core_of (exchange_of running.now)).setup.size }
    ensures { OnOk result (string_bytes page.new ≡ (if shown then string_bytes page.old ++ command_seen k (fields_of row.now) line.now (core_of (exchange_of running.now)) (recents_of running.now) else string_bytes page.old)) }
{
    if shown {
        put_command(page, k, row, line, &running.exchange, &running.recents)
    } else {
        Ok(())
    }
}

// A record after `start`, the k-th.
fn take_command(
    alloc: Global,
    mut running: Running,
    k: u64,
    row: &ByteRecord,
    window: Window,
    page: &mut String,
) -> Result<Course, RecordFault>
    requires { (phase : Phase) × RunningShows running phase }
    ensures { (phase : Phase) → RunningShows running phase → TakesRecord result window k (fields_of row.now) (taken false phase (fields_of row.now)) (string_bytes page.old) (string_bytes page.new) }
{
    let mut line = String::new(alloc);
    obey(&mut running, row, &mut line)?;
    put_command_if(window.has(k), page, k, row, line.as_str(), &running)?;
    Ok(Course::Running(running))
}

/// Takes one record, the k-th, and puts its object where it is shown.
pub(crate) fn take_record(
    alloc: Global,
    course: Course,
    k: u64,
    row: &ByteRecord,
    window: Window,
    page: &mut String,
) -> Result<Course, RecordFault>
    requires { (phase : Phase) × CourseShows course phase }
    ensures { (phase : Phase) → CourseShows course phase → TakesRecord result window k (fields_of row.now) (taken false phase (fields_of row.now)) (string_bytes page.old) (string_bytes page.new) }
{
    match course {
        Course::Preparing(at) => take_setup(alloc, at, k, row, page),
        Course::Running(running) => take_command(alloc, running, k, row, window, page),
    }
}
