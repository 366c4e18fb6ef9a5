//! Where the words lie that a ring with one sender has.

ghost use Rattle.std.specs.Prelude.{◌≡◌, ◌<◌};
ghost use Rattle.dr_runs.specs.OneSender.Words.{count_word as count_word_of};

/// The place of the word that counts the published events.
pub const CURSOR_WORD: usize = 0;
/// The place of the word that is 1 once the sender has closed.
pub const CLOSED_WORD: usize = 1;
/// The place of the word that is 1 once the ring is halted.
pub const HALT_WORD: usize = 16;

/// The place of the word that counts what a handler completed.
pub fn count_word(handler: usize) -> usize
    requires { handler < 65536 }
    ensures { result ≡ count_word_of handler }
{
    32 + 16 * handler
}
