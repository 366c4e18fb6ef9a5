//! What a history keeps of a call.

ghost use Rattle.std.specs.Prelude.{◌≡◌};
ghost use Rattle.dr_lock.specs.Meaning.History.{is_kept as is_kept_of};

use dr_meaning::{Command, Reply};

/// A kept call: a command with the reply that it got.
#[derive(Clone, Copy, Debug, PartialEq, Eq)]
pub struct Entry<E> {
    pub command: Command<E>,
    pub reply: Reply,
}

/// Whether a history keeps a reply: it keeps those that change something, and `Drained`.
pub(crate) fn is_kept(reply: Reply) -> bool
    ensures { result ≡ is_kept_of reply }
{
    !matches!(reply, Reply::Refused(_) | Reply::Gating | Reply::Idle)
}
