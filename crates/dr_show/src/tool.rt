//! The tool `show`: a file of commands in, a page out.

ghost use Rattle.std.specs.Prelude.{◌≡◌, ◌<◌, ◌+◌, ◌-◌, ◌^◌, ◌++◌, IfErr, IfSome, OnOk, length, string_bytes};
ghost use Rattle.dr_files.specs.Counting.{faults_of, inner_of};
ghost use Rattle.dr_files.specs.Outcome.{CountsFaults};
ghost use Rattle.dr_records.specs.Rows.{rows_left};
ghost use Rattle.dr_drive.specs.Meaning.DriveText.{Phase, end_fault};
ghost use Rattle.dr_show.specs.Meaning.PageText.{has as has_of, last_text};
ghost use Rattle.dr_show.specs.Meaning.Shown.{ShowWrites, UnreadKeeps};
ghost use Rattle.dr_show.specs.Inside.Courses.{CourseShows};
ghost use Rattle.dr_show.specs.Inside.Pages.{Puts, PutsObjects, PutsPage, head_text, tail_text};

use crate::course::{Course, take_record};
use crate::objects::{put_faulty, put_last};
use dr_drive::setup::Preparation;
use dr_drive::{DriveFault, RecordFault};
use dr_files::{Counted, FileFault, read_all, write_text};
use dr_records::Rows;
use std::alloc::{AllocError, Global};
use std::io::{Read, Write};

/// Which records a page shows. It always shows those of the setup, and the one at fault.
#[derive(Clone, Copy, Debug, PartialEq, Eq)]
pub struct Window {
    /// The first of them, counted from 1 with those of the setup.
    pub from: u64,
    /// How many from there on, those of the setup counted too.
    pub steps: u64,
}

impl Window {
    /// Whether a record is one of them.
    pub fn has(self, k: u64) -> bool
        ensures { result ≡ has_of self k }
    {
        self.from <= k && k - self.from < self.steps
    }
}

// Puts the objects of all records of a text, up to the first at fault, which is answered.
fn put_objects(
    alloc: Global,
    rows: &mut Rows<'_>,
    window: Window,
    page: &mut String,
) -> Result<(), DriveFault>
    requires { length (rows_left rows.old) + 1 < 2 ^ 64 }
    ensures { PutsObjects result window (rows_left rows.old) (string_bytes page.old) (string_bytes page.new) }
{
    let mut course = Course::Preparing(Preparation::Empty);
    let mut k: u64 = 1;
    while let Some(row) = rows.next()? {
        match take_record(alloc, course, k, row, window, page) {
            Ok(next) => course = next,
            Err(RecordFault::Memory) => return Err(FileFault::Memory),
            Err(RecordFault::Cause(cause)) => {
                put_faulty(page, k, row, cause)?;
                return Err(FileFault::Input { k, cause });
            }
        }
        k += 1;
    }
    put_end(page, k, &course)
}

// Puts how many records there are, where the next would be the k-th, and answers what the file lacks.
fn put_end(page: &mut String, k: u64, course: &Course) -> Result<(), DriveFault>
    requires { 0 < k }
    ensures { (phase : Phase) → CourseShows course.now phase → Puts result (end_fault k phase) (last_text k phase) (string_bytes page.old) (string_bytes page.new) }
{
    let missing = course.missing();
    put_last(page, k - 1, missing)?;
    match missing {
        Some(cause) => Err(FileFault::Input { k, cause }),
        None => Ok(()),
    }
}

// Puts what comes before the objects.
fn put_head(page: &mut String, window: Window, before: &str) -> Result<(), AllocError>
    ensures { OnOk result (string_bytes page.new ≡ string_bytes page.old ++ head_text window before.now) }
{
    let from = window.from;
    let steps = window.steps;
    page.push_str(before)?;
    write!(page, "{{\"from\":{from},\"steps\":{steps},\"records\":[\n")
}

// Puts what comes after them.
fn put_tail(page: &mut String, after: &str) -> Result<(), AllocError>
    ensures { OnOk result (string_bytes page.new ≡ string_bytes page.old ++ tail_text after.now) }
{
    page.push_str("\n]}")?;
    page.push_str(after)
}

// Puts the page of a text of commands. A fault of the file is answered, and then the page is whole too.
fn put_page(
    alloc: Global,
    page: &mut String,
    text: &[u8],
    window: Window,
    before: &str,
    after: &str,
) -> Result<(), DriveFault>
    requires { length text.now < 2 ^ 63 }
    ensures { PutsPage result window before.now after.now text.now (string_bytes page.old) (string_bytes page.new) }
{
    put_head(page, window, before)?;
    let mut rows = Rows::new(alloc, text);
    match put_objects(alloc, &mut rows, window, page) {
        Ok(()) => Ok(put_tail(page, after)?),
        Err(FileFault::Input { k, cause }) => {
            put_tail(page, after)?;
            Err(FileFault::Input { k, cause })
        }
        Err(fault) => Err(fault),
    }
}

/// Reads a file of commands to its end, and writes a page that shows each step of its exchange: the text
/// `before`, the page's data, and the text `after`. The data has the setup, and of the records after it
/// those in the window, each with the reply of `drive` and the state after it. Where the file is at fault
/// the page shows the record at fault too, and is written before the fault is answered. Where memory runs
/// out nothing is written; at a failed write a beginning is.
pub fn show<R: Read, W: Write>(
    alloc: Global,
    reader: &mut Counted<R>,
    writer: &mut Counted<W>,
    window: Window,
    before: &str,
    after: &str,
) -> Result<(), DriveFault>
    requires reads { faults_of reader.old < 2 ^ 64 - 1 }
    requires writes { faults_of writer.old < 2 ^ 64 - 1 }
    // Where the input's bytes are known, the page is theirs, and the fault is that of `drive`.
    ensures bytes { IfSome (R.remaining (inner_of reader.old)) (λ input.
        ShowWrites result (W.contents (inner_of writer.old)) (W.contents (inner_of writer.new)) window before.now after.now input) }
    // Without a page nothing is written, whether or not the input's bytes are known.
    ensures unread { IfErr result (λ e. UnreadKeeps e (W.contents (inner_of writer.old)) (W.contents (inner_of writer.new))) }
    // A failed read or write is answered where one failed, and nowhere else.
    ensures counted { CountsFaults result (faults_of reader.old) (faults_of reader.new) (faults_of writer.old) (faults_of writer.new) }
{
    let text = read_all(alloc, reader)?;
    let mut page = String::new(alloc);
    match put_page(alloc, &mut page, text.as_slice(), window, before, after) {
        Ok(()) => Ok(write_text(writer, page.as_bytes())?),
        Err(FileFault::Input { k, cause }) => {
            write_text(writer, page.as_bytes())?;
            Err(FileFault::Input { k, cause })
        }
        Err(fault) => Err(fault),
    }
}
