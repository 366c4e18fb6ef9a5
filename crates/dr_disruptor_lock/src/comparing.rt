//! Whether the history of a run is that of what its workers sent and were shown.

ghost use Rattle.std.specs.Prelude.{◌≡◌, All, IfErr, IfNone, IfOk, IfSome, map};
ghost use Rattle.dr_meaning.specs.Meaning.Machine.{handlers};
ghost use Rattle.dr_lock.specs.Meaning.Audit.{Faults, IsAudited, scripts_of};
ghost use Rattle.dr_lock.specs.Meaning.History.{transcript};
ghost use Rattle.dr_disruptor_lock.specs.Running.{IsAmiss};
ghost use Rattle.dr_disruptor_lock.specs.Watching.{HasListed, IsFirstUnlike, IsNamedUnlike};

use crate::watching::Watching;
use dr_lock::{AuditFault, Recorded, audit};
use dr_seq::Event;
use std::alloc::{AllocError, Global};
use thiserror::Error;

/// Why a history was not found to be that of its workers. An audit may lack memory; no other fault is known to come,
/// and no contract rules them out.
#[derive(Clone, Copy, Debug, PartialEq, Eq, Error)]
pub enum HistoryFault {
    /// What an audit finds amiss, against what was sent of each script.
    #[error("the history: {0}")]
    Audit(AuditFault),
    /// The least handler that was not shown just the events that the history has of it.
    #[error("handler {0} was shown other events")]
    Shown(usize),
}

// What was sent of each script, as an audit takes it.
fn views<'a>(alloc: Global, scripts: &'a [Vec<Event>]) -> Result<Vec<&'a [Event]>, AllocError>
    ensures { IfOk result (λ views. scripts_of views.items ≡ map (λ v. v.items) scripts.now) }
{
    let mut all = Vec::new(alloc);
    for p in 0..scripts.len() {
        all.push(scripts[p].as_slice())?;
    }
    Ok(all)
}

// The least handler that was not shown just these events.
fn first_unlike<H: Drop>(watchings: &[Watching<H>], events: &[Event]) -> Option<usize>
    ensures none { IfNone result (All (HasListed events.now) watchings.now) }
    ensures unlike { IfSome result (IsFirstUnlike watchings.now events.now) }
{
    for h in 0..watchings.len() {
        if !watchings[h].has_listed(events) {
            return Some(h);
        }
    }
    None
}

// A list of events, where all handlers were shown just these.
fn if_all_listed<H: Drop>(
    list: Vec<Event>,
    watchings: &[Watching<H>],
) -> Result<Vec<Event>, HistoryFault>
    ensures list { IfOk result (λ same. same ≡ list) }
    ensures shown { IfOk result (λ same. All (HasListed same.items) watchings.now) }
    // It asks for no memory, so it never says that there was none.
    ensures unlike { IfErr result (IsNamedUnlike watchings.now list.items) }
{
    match first_unlike(watchings, list.as_slice()) {
        None => Ok(list),
        Some(h) => Err(HistoryFault::Shown(h)),
    }
}

// The one list of events that the history has, by an audit.
fn audited(
    alloc: Global,
    recorded: &Recorded<Event>,
    scripts: &[Vec<Event>],
) -> Result<Vec<Event>, AuditFault>
    ensures list { IfOk result (λ list. IsAudited (transcript recorded.now.history) (handlers recorded.now.history.core.setup) (map (λ v. v.items) scripts.now) list.items) }
    ensures fault { IfErr result (Faults (transcript recorded.now.history) (handlers recorded.now.history.core.setup) (map (λ v. v.items) scripts.now)) }
{
    let views = views(alloc, scripts)?;
    audit(alloc, recorded, views.as_slice())
}

/// Compares a history with what was sent of each script, and with what each handler was shown: the answer is the one
/// list that all handlers were shown.
pub(crate) fn compared<H: Drop>(
    alloc: Global,
    recorded: &Recorded<Event>,
    scripts: &[Vec<Event>],
    watchings: &[Watching<H>],
) -> Result<Vec<Event>, HistoryFault>
    ensures audited { IfOk result (λ list. IsAudited (transcript recorded.now.history) (handlers recorded.now.history.core.setup) (map (λ v. v.items) scripts.now) list.items) }
    ensures shown { IfOk result (λ list. All (HasListed list.items) watchings.now) }
    ensures amiss { IfErr result (IsAmiss (transcript recorded.now.history) (handlers recorded.now.history.core.setup) (map (λ v. v.items) scripts.now) (IsFirstUnlike watchings.now)) }
{
    match audited(alloc, recorded, scripts) {
        Ok(list) => if_all_listed(list, watchings),
        Err(found) => Err(HistoryFault::Audit(found)),
    }
}
