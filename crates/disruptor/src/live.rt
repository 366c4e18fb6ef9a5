//! The live ledger over its files and the standard streams, and what a journal has.

ghost use Rattle.std.specs.Prelude.{IfOk};
ghost use Rattle.dr_journal.specs.Calls.Opened.{file_left, file_seen};
ghost use Rattle.dr_ledger.specs.Batches.{AreAtRest};

use crate::Fault;
use dr_files::Counted;
use dr_journal::FileDevice;
use dr_ledger::{Coming, Ledger, Role, StartFault, begin, begin_with_replica, print_journal};
use dr_operations::EventStream;
use std::fs::File;
use std::io::{self, Read};

// The ledger over these files, and how many operations it goes on from.
fn start(
    rt: &HostRuntime,
    journal: &str,
    replica: Option<String>,
) -> Result<(Ledger<FileDevice>, u64), StartFault>
    ensures { IfOk result (λ started. AreAtRest file_seen file_left started.0) }
{
    let mut journal = Coming::open(rt, Role::Journal, journal)?;
    let Some(replica) = replica else {
        return begin(rt.alloc(), &mut journal);
    };
    let mut replica = Coming::open(rt, Role::Replica, replica.as_str())?;
    begin_with_replica(rt.alloc(), &mut journal, &mut replica)
}

/// Answers the operations of standard input on standard output.
pub(crate) fn answer_all(
    rt: &HostRuntime,
    journal: &str,
    replica: Option<String>,
) -> Result<(), Fault> {
    let (mut ledger, count) = start(rt, journal, replica).map_err(Fault::Start)?;
    if rt.eprintln(format_args!("recovered {count}")).is_err() {
        return Err(Fault::Write);
    }
    let mut stream = EventStream::new(rt.alloc());
    let mut input = Counted::new(rt.stdin());
    let mut output = Counted::new(io::writer(rt));
    ledger
        .answer_all(&mut stream, &mut input, &mut output)
        .map_err(Fault::Ledger)
}

fn print_over<R: Read + Drop>(rt: &HostRuntime, input: R) -> Result<(), Fault> {
    let mut input = Counted::new(input);
    let mut output = Counted::new(io::writer(rt));
    print_journal(rt.alloc(), &mut input, &mut output).map_err(Fault::Start)
}

/// Prints what a journal has, which is only read: that of a file, or of standard input where its name is `-`.
pub(crate) fn print(rt: &HostRuntime, file: &str) -> Result<(), Fault> {
    if file == "-" {
        return print_over(rt, rt.stdin());
    }
    match File::open(rt, file) {
        Ok(file) => print_over(rt, file),
        Err(_) => Err(Fault::Read),
    }
}
