//! The replay over the ring, a thread a handler.

ghost use Rattle.std.specs.Prelude.{◌≡◌, ◌++◌, ◌-◌, ◌^◌, ◌∷◌, ◌<◌, [], IfErr, IfOk, IfSome, List, None, Some, false, length, take, true};
ghost use Rattle.dr_seq.specs.declared.event.Event.{Event};
ghost use Rattle.dr_ring.specs.Calls.Ends.{sender_place};
ghost use Rattle.dr_ring.specs.Calls.Sending.{ClosesOnceDone};
ghost use Rattle.dr_ring.specs.Calls.Settling.{AreAllEnds};
ghost use Rattle.dr_ring.specs.Meaning.Settling.{FoundUnhalted};
ghost use Rattle.dr_ring.specs.Calls.Inlets.{sender_does};
ghost use Rattle.dr_meaning.specs.Calls.Calling.{SomeCalls};
ghost use Rattle.dr_files.specs.Counting.{faults_of, inner_of};
ghost use Rattle.dr_replay.specs.Calls.Replayed.{ReplayCounts, ReplayFaultKeeps, ReplayWrites};
ghost use Rattle.dr_accounts.specs.Parts.{text_of};
ghost use Rattle.dr_accounts.specs.ReplayText.{replay_text};
ghost use Rattle.dr_accounts.specs.Report.{report_of};
ghost use Rattle.dr_workers.specs.Calls.Serving.{Sends};
ghost use Rattle.dr_workers.specs.Calls.Stops.{MayStop};
ghost use Rattle.dr_workers.specs.Meaning.FirstFault.{first_fault as first_of};
ghost use Rattle.dr_workers.specs.Meaning.Work.{LeavesNothingOpen};
ghost use Rattle.dr_workers.specs.declared.fault.WorkFault.TheVariants.{Stopped};
ghost use Rattle.dr_operations.specs.EventFile.{events_of as events_in};
ghost use Rattle.dr_replay.specs.Calls.RingRuns.{CameOf};
ghost use Rattle.dr_replay.specs.Calls.Workers.{AreThrough, CameTogether, ComesOf, IsFirstOf, IsFirstOfSome, IsOfWorkers, IsSending, NoneHadToStop, Says, UnlessMemory, endings_of, ends_of, ring_workers};

use crate::fault::ReplayFault;
use crate::outcome::{replay_fault, write_report};
use dr_accounts::{Business, Journal, Replica, Report};
use dr_files::{Counted, FileFault};
use dr_meaning::MAX_LIMIT;
use dr_operations::read_events;
use dr_reports::{BUSINESS, JOURNAL, PartOf, REPLICA, Worked, graph, work};
use dr_ring::{Halter, Receiver, Sender, ring, settle_all};
use dr_seq::{Event, Size};
use dr_workers::{
    Bell, Ended, Gate, Parking, Produced, Ringing, SENDER, first_fault, produce_with,
};
use std::alloc::{AllocError, Global};
use std::io::{Read, Write};
use std::sync::Wait;
use std::thread;
use std::thread::{Promise, PromisedHandle, Threads};

/// What came back of a ring: its sender, how that ended, and the three workers.
#[derive(Drop)]
pub struct Returned {
    pub sender: Sender,
    pub produced: Produced,
    pub journal: Worked,
    pub replica: Worked,
    pub business: Worked,
}

// The ends of the three handlers.
fn three(mut receivers: Vec<Receiver>) -> (Receiver, Receiver, Receiver)
    requires { length receivers.items ≡ 3 }
    ensures { receivers.items ≡ result.0 ∷ result.1 ∷ result.2 ∷ [] }
{
    let Some(business) = receivers.pop() else {
        unreachable!();
    };
    let Some(replica) = receivers.pop() else {
        unreachable!();
    };
    let Some(journal) = receivers.pop() else {
        unreachable!();
    };
    (journal, replica, business)
}

// Closes a ring, unless a claim was left open, and wakes the handlers' threads.
fn close(sender: &mut Sender, bell: &Bell)
    ensures { ClosesOnceDone sender.old sender.new }
{
    let _done = sender.close();
    bell.ring();
}

// Closes a ring before anything was sent, so that those of its handlers' threads that were started end
// with their scope.
fn abandoned(mut sender: Sender, bell: &Bell) -> Sender
    ensures { ClosesOnceDone sender result }
{
    close(&mut sender, bell);
    sender
}

// Sends the events, in claims of as many as the ring has slots.
fn sent<R: Wait, G: Gate>(
    rt: &R,
    gate: &G,
    events: &[Event],
    size: Size,
    sender: &mut Ringing<Sender, &Bell>,
    bell: &Bell,
) -> Produced
    ensures some { 0 < size }
    ensures place { sender_place sender.new ≡ sender_place sender.old }
    ensures published { sender.new.knows.sent.published ≡ sender.old.knows.sent.published ++ take result.sent events.now }
    ensures open { LeavesNothingOpen sender.old.knows.sent sender.new.knows.sent }
    ensures all { result.fault ≡ None → result.sent ≡ length events.now }
    ensures stopped { result.fault ≡ Some Stopped → MayStop G.may_stop gate.now 16 }
    ensures calls { SomeCalls sender_does sender.old sender.new (Sends size events.now (G.may_stop gate.now 16) (G.must_stop gate.now 16) result) }
{
    let cut = size.get();
    let mut parking = Parking::new(rt, bell, cut);
    produce_with(rt, sender, gate, SENDER, events, cut, &mut parking)
}

// Sends the events, then closes, unless the sender was refused a call while a claim was open, and joins
// the handlers' threads.
fn served<R: Threads + Wait, G: Gate, J: Promise<Worked>, K: Promise<Worked>, B: Promise<Worked>>(
    rt: &R,
    gate: &G,
    events: &[Event],
    size: Size,
    sender: Sender,
    bell: &Bell,
    handles: (
        PromisedHandle<Worked, J>,
        PromisedHandle<Worked, K>,
        PromisedHandle<Worked, B>,
    ),
) -> Returned
    ensures sending { IsSending size events.now (G.may_stop gate.now 16) (G.must_stop gate.now 16) sender result.sender result.produced }
    ensures closed { sender.knows.sent.pending ≡ [] → result.sender.knows.closed ≡ true }
    ensures journal { J.kept_by handles.0.promise result.journal }
    ensures replica { K.kept_by handles.1.promise result.replica }
    ensures business { B.kept_by handles.2.promise result.business }
{
    let mut live = Ringing::new(sender, bell);
    let produced = sent(rt, gate, events, size, &mut live, bell);
    let mut sender = live.into_end();
    close(&mut sender, bell);
    let (journal, replica, business) = handles;
    let journal = journal.join(rt);
    let replica = replica.join(rt);
    let business = business.join(rt);
    Returned {
        sender,
        produced,
        journal,
        replica,
        business,
    }
}

// Starts a thread a handler, sends the events, closes, and joins. Where a thread could not be started the
// ring's sender comes back, which sent nothing.
fn exchange<R: Threads + Wait + Sync, G: Gate + Sync>(
    rt: &R,
    alloc: Global,
    gate: &G,
    events: &[Event],
    size: Size,
    sender: Sender,
    receivers: (Receiver, Receiver, Receiver),
    bell: &Bell,
) -> Result<Returned, Sender>
    ensures { ComesOf (G.may_stop gate.now) (G.must_stop gate.now) size events.now sender receivers result }
{
    let (journal, replica, business) = receivers;
    thread::scope(
        thread::scope_env(),
        rt,
        move |scope| -> Result<Returned, Sender>
            ensures { ComesOf (G.may_stop gate.entry.now) (G.must_stop gate.entry.now) size events.entry.now sender (journal, replica, business) result }
        {
            let promise = PartOf::<Journal, G>::of(&journal, gate, JOURNAL);
            let journal = scope.spawn_with(promise, move || {
                work::<R, G, Journal>(rt, gate, JOURNAL, journal, size, alloc, bell)
            });
            let promise = PartOf::<Replica, G>::of(&replica, gate, REPLICA);
            let replica = scope.spawn_with(promise, move || {
                work::<R, G, Replica>(rt, gate, REPLICA, replica, size, alloc, bell)
            });
            let promise = PartOf::<Business, G>::of(&business, gate, BUSINESS);
            let business = scope.spawn_with(promise, move || {
                work::<R, G, Business>(rt, gate, BUSINESS, business, size, alloc, bell)
            });
            let (Ok(journal), Ok(replica), Ok(business)) = (journal, replica, business) else {
                return Err(abandoned(sender, bell));
            };
            let handles = (journal, replica, business);
            Ok(served(rt, gate, events, size, sender, bell, handles))
        },
    )
}

// How the workers ended.
fn endings(ran: &Returned) -> [Ended; 4]
    ensures { result ≡ endings_of ran.now }
{
    [
        Ended {
            who: JOURNAL,
            fault: ran.journal.fault(),
        },
        Ended {
            who: REPLICA,
            fault: ran.replica.fault(),
        },
        Ended {
            who: BUSINESS,
            fault: ran.business.fault(),
        },
        Ended {
            who: SENDER,
            fault: ran.produced.fault,
        },
    ]
}

// The ends of the three handlers in one list.
fn listed(
    alloc: Global,
    journal: Receiver,
    replica: Receiver,
    business: Receiver,
) -> Result<Vec<Receiver>, AllocError>
    ensures { IfOk result (λ ends. ends.items ≡ journal ∷ replica ∷ business ∷ []) }
{
    let mut receivers = Vec::with_capacity(alloc, 3)?;
    receivers.push(journal)?;
    receivers.push(replica)?;
    receivers.push(business)?;
    Ok(receivers)
}

// Brings the ends together, and then the parts of the report.
fn finish(alloc: Global, ran: Returned, halter: Halter) -> Result<Report, ReplayFault>
    requires ends { AreAllEnds ran.sender (ends_of ran) halter }
    requires unhalted { halter.knows.halted ≡ false }
    ensures text { (events : List Event) → Says events ran → IfOk result (λ report. text_of report ≡ report_of events) }
    ensures received { (events : List Event) → Says events ran → IfOk result (λ _. AreThrough events ran) }
    ensures fine { IfOk result (λ _. first_of (endings_of ran) ≡ None) }
    ensures first { IfErr result (IsFirstOf (endings_of ran)) }
    ensures unhalted { IfErr result (UnlessMemory (FoundUnhalted ran.sender.knows)) }
    ensures came { CameTogether ran halter result }
{
    let endings = endings(&ran);
    let Returned {
        sender,
        produced: _,
        journal,
        replica,
        business,
    } = ran;
    let receivers = listed(alloc, journal.receiver, replica.receiver, business.receiver)?;
    let _settled = settle_all(sender, receivers, halter);
    if let Some(first) = first_fault(endings.as_slice()) {
        return Err(replay_fault(first));
    }
    match (journal.part, replica.part, business.part) {
        (Ok(journal), Ok(replica), Ok(business)) => {
            Ok(Report {
                journal,
                replica,
                business,
            })
        }
        _ => unreachable!(),
    }
}

/// The report of events that went through a ring.
fn report<R: Threads + Wait + Sync, G: Gate + Sync>(
    rt: &R,
    alloc: Global,
    events: &[Event],
    size: Size,
    gate: &G,
) -> Result<Report, ReplayFault>
    ensures text { IfOk result (λ report. text_of report ≡ report_of events.now) }
    ensures stops { IfOk result (λ _. NoneHadToStop (G.must_stop gate.now) events.now) }
    ensures first { IfErr result (IsOfWorkers (MayStop G.may_stop gate.now) ring_workers) }
    ensures ran { CameOf (G.may_stop gate.now) (G.must_stop gate.now) size result events.now }
{
    let graph = graph(alloc)?;
    let Ok((sender, receivers, halter)) = ring(alloc, &graph, size, MAX_LIMIT) else {
        return Err(ReplayFault::File(FileFault::Memory));
    };
    let receivers = three(receivers);
    let bell = Bell::new();
    let ran = exchange(rt, alloc, gate, events, size, sender, receivers, &bell);
    match ran {
        Ok(ran) => finish(alloc, ran, halter),
        Err(_sender) => Err(ReplayFault::from(AllocError)),
    }
}

/// Reads a file of operations to its end, sends their events in file order through a ring, with a
/// thread a handler and the sender on this one, and writes the report of its three handlers. Each
/// worker passes `gate`: 0 is the journal's, 1 the replica's, 2 the business handler's, and 16 the
/// sender's. Nothing is written before the report is whole; at a failed write a beginning of it is
/// written.
pub fn replay_ring<S: Threads + Wait + Sync, R: Read, W: Write, G: Gate + Sync>(
    rt: &S,
    alloc: Global,
    reader: &mut Counted<R>,
    writer: &mut Counted<W>,
    size: Size,
    gate: &G,
) -> Result<(), ReplayFault>
    requires reads { faults_of reader.old < 2 ^ 64 - 1 }
    requires writes { faults_of writer.old < 2 ^ 64 - 1 }
    // Where the input's bytes are known, what is written is the report of its events, and the fault of the file is its first bad record.
    ensures bytes { IfSome (R.remaining (inner_of reader.old)) (λ input.
        ReplayWrites result (W.contents (inner_of writer.old)) (W.contents (inner_of writer.new)) (replay_text input)) }
    // Any fault but a failed write leaves nothing written, whether or not the input's bytes are known.
    ensures unwritten { IfErr result (λ e. ReplayFaultKeeps e (W.contents (inner_of writer.old)) (W.contents (inner_of writer.new))) }
    // Where workers have faults, the least worker's is answered, which its gate stopped: none is refused a call.
    ensures first { IfErr result (IsFirstOfSome (MayStop G.may_stop gate.now) ring_workers) }
    // A gate that has to stop a worker at its first passage, where there is an event, leaves no report.
    ensures stops { IfSome (R.remaining (inner_of reader.old)) (λ input. IfOk result (λ _. IfOk (events_in input) (NoneHadToStop (G.must_stop gate.now)))) }
    // The file's events went through a new ring of this size by workers that passed this gate, and a worker's fault is the first of such workers'.
    ensures ran { IfSome (R.remaining (inner_of reader.old)) (λ input. IfOk (events_in input) (CameOf (G.may_stop gate.now) (G.must_stop gate.now) size result)) }
    // A failed read or write is answered where one failed, and nowhere else.
    ensures counted { ReplayCounts result (faults_of reader.old) (faults_of reader.new) (faults_of writer.old) (faults_of writer.new) }
{
    let events = read_events(alloc, reader)?;
    let report = report(rt, alloc, events.as_slice(), size, gate)?;
    Ok(write_report(writer, &report)?)
}
