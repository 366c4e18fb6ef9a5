//! Whether every handler received what the producers were to send.

ghost use Rattle.std.specs.Prelude.{◌↔◌, ℕ, ◌<◌, IfErr, IfOk, IsTrue, OnOk};
ghost use Rattle.dr_meaning.specs.Meaning.Machine.{handlers};
ghost use Rattle.dr_lock.specs.Meaning.Audit.{Faults, IsAudited, scripts_of};
ghost use Rattle.dr_lock.specs.Inside.Auditing.{Differs, SentIn, TookIn, Undrained};
ghost use Rattle.dr_lock.specs.Meaning.History.{transcript};

use crate::audit_fault::AuditFault;
use crate::recorded::Recorded;
use crate::sequences::{Sequence, published, sent, sequences};
use dr_meaning::every_transcript_tells_its_state;
use dr_seq::{Same, are_same};
use std::alloc::Global;

/// Compares a history with what its producers were to send, by their numbers; a producer without a
/// script was to send nothing, and a script without a producer is that of one that sent nothing.
/// The answer is the one list that every handler received that is not retired; what a retired one
/// received is a beginning of it. Scripts are looked at before handlers.
pub fn audit<E: Copy + Same>(
    alloc: Global,
    recorded: &Recorded<E>,
    scripts: &[&[E]],
) -> Result<Vec<E>, AuditFault>
    // All published events, a merge of the scripts, which each handler that is not retired received.
    ensures list { IfOk result (λ list. IsAudited (transcript recorded.now.history) (handlers recorded.now.history.core.setup) (scripts_of scripts.now) list.items) }
    // The least producer that did not send its script, else the least handler left that lacks events.
    ensures fault { IfErr result (Faults (transcript recorded.now.history) (handlers recorded.now.history.core.setup) (scripts_of scripts.now)) }
{
    every_transcript_tells_its_state::<E>();
    let list = sequences(alloc, recorded.history())?;
    let producers = recorded.producers().max(scripts.len() as u64);
    check_scripts(alloc, &list, producers, scripts)?;
    let all = published(alloc, &list)?;
    check_drained(recorded, all.len() as u64)?;
    Ok(all)
}

/// Finds the least producer of some whose published events are not its script.
fn check_scripts<E: Copy + Same>(
    alloc: Global,
    list: &[Sequence<E>],
    producers: u64,
    scripts: &[&[E]],
) -> Result<(), AuditFault>
    ensures same { OnOk result ((p : ℕ) → p < producers → SentIn list.now (scripts_of scripts.now) p) }
    ensures fault { IfErr result (Differs list.now (scripts_of scripts.now)) }
{
    for p in 0..producers {
        let sent = sent(alloc, list, p)?;
        let is_sent = if p < scripts.len() as u64 {
            are_same(&sent, scripts[p as usize])
        } else {
            sent.is_empty()
        };
        if !is_sent {
            return Err(AuditFault::ScriptDiffers(p));
        }
    }
    Ok(())
}

/// Finds the least handler, of those that are not retired, that did not take so many events.
fn check_drained<E: Copy>(recorded: &Recorded<E>, count: u64) -> Result<(), AuditFault>
    ensures drained { OnOk result ((h : ℕ) → h < handlers recorded.now.history.core.setup → TookIn recorded.now.history.core count h) }
    ensures fault { IfErr result (Undrained recorded.now.history.core count) }
{
    for h in 0..recorded.graph().len() {
        if !took(recorded, h, count) {
            return Err(AuditFault::NotDrained(h));
        }
    }
    Ok(())
}

/// Whether a handler is retired or took so many events.
fn took<E: Copy>(recorded: &Recorded<E>, h: usize, count: u64) -> bool
    requires { h < handlers recorded.now.history.core.setup }
    ensures { IsTrue result ↔ TookIn recorded.now.history.core count h }
{
    recorded.is_retired(h) || recorded.taken(h) == count
}
