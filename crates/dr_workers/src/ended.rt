//! Which fault is answered for several workers, once all are joined.

ghost use Rattle.std.specs.Prelude.{◌≡◌, ◌++◌, ◌∷◌, [], All, IfNone, option_to_list};
ghost use Rattle.dr_workers.specs.Meaning.FirstFault.{first_fault as first_of, least};

use crate::fault::WorkFault;

/// The number of the worker of a ring's sender, of the first of several senders, or of the first producer behind a
/// lock; the next ones follow. A graph's handlers have those below it.
pub const SENDER: usize = 16;

/// How a worker ended.
#[derive(Clone, Copy, Debug, PartialEq, Eq)]
pub struct Ended {
    /// The number of the worker.
    pub who: usize,
    /// Its fault, or `None` where it did all of its work.
    pub fault: Option<WorkFault>,
}

/// The fault of the worker with the number `who`.
#[derive(Clone, Copy, Debug, PartialEq, Eq)]
pub struct WorkerFault {
    pub who: usize,
    pub fault: WorkFault,
}

// The one of two faults whose worker has the lesser number.
fn lesser_of(first: Option<WorkerFault>, found: WorkerFault) -> WorkerFault
    ensures { Some result ≡ least (option_to_list first ++ (found ∷ [])) }
{
    match first {
        Some(first) if first.who <= found.who => first,
        _ => found,
    }
}

/// The fault that is answered for several workers, if one has any: out of memory before a stop, and
/// a stop before a refusal; of several of one kind, that of the worker with the least number. The
/// order is this project's own.
pub fn first_fault(ended: &[Ended]) -> Option<WorkerFault>
    // A lack of memory comes before a stop, that before a refusal; of one kind, the least number's comes.
    ensures first { result ≡ first_of ended.now }
    // None is answered only if no worker has a fault.
    ensures none { IfNone result (All (λ e. e.fault ≡ None) ended.now) }
{
    let mut memory = None;
    let mut stopped = None;
    let mut refused = None;
    for worker in ended {
        let who = worker.who;
        if let Some(fault) = worker.fault {
            let found = WorkerFault { who, fault };
            match fault {
                WorkFault::Memory => memory = Some(lesser_of(memory, found)),
                WorkFault::Stopped => stopped = Some(lesser_of(stopped, found)),
                WorkFault::Refused(_) => refused = Some(lesser_of(refused, found)),
            }
        }
    }
    memory.or(stopped).or(refused)
}
