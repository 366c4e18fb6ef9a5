//! The steps of a ring over its table, and what every list of them comes to.
//!
//! Each end has a station, which is what its steps need, and each kind of step is one function of
//! a station (the halter's are calls of [`Halter`](crate::Halter)): one load or one store of one word. Its
//! contract gives what the end knows afterwards, and which slots it then has in hand, from what it
//! knew before and the word loaded or stored.

mod halter;
mod plays;
mod receiver;
mod sender;
pub(crate) mod settling;

ghost use Rattle.std.specs.Prelude.{List, Option, ◌≡◌, ◌++◌, length, slice_index};
ghost use Rattle.dr_meaning.specs.Meaning.Transcript.{Transcript, LeadsTo};
ghost use Rattle.dr_meaning.specs.Meaning.Laws.{Laws};
ghost use Rattle.dr_meaning.specs.Meaning.Progress.{NobodyIsStuck};
ghost use Rattle.dr_plain.specs.Meaning.Shape.{Shape, IsShape, ring_setup};
ghost use Rattle.dr_runs.specs.OneSender.Words.{halt_word};
ghost use Rattle.dr_plain.specs.Meaning.Records.{claimed};
ghost use Rattle.dr_plain.specs.Meaning.Rule.{World, KeepsRule};
ghost use Rattle.dr_plain.specs.declared.record.Step.{Step};
ghost use Rattle.dr_plain.specs.Meaning.Moments.{Runs, new_world, picture_of, NothingFalls, WereTold};
ghost use Rattle.dr_plain.specs.Calls.Replies.{RepliesAsAnswered, picture_with, open_writes};
ghost use Rattle.dr_plain.specs.Calls.Handing.{HandsWhatWasThere, OffersWhatWasThere};

use crate::plan::Plan;
use crate::record::View;
use atomic_table::{Seat, Shared, Table, TableRule};
use dr_cells::Token;
use dr_meaning::{every_transcript_is_lawful, nobody_is_stuck};
pub use halter::Halter;
pub use receiver::ReceiverStation;
pub use sender::SenderStation;
use std::alloc::Global;

/// The rule that every step keeps.
pub struct RingRule;

impl<T> TableRule<Token<T>, View<T>, Plan<T>> for RingRule {
    ghost use Rattle.dr_plain.specs.Inside.Seats.{Ruled, all_ends};

    ghost holds = { Ruled };

    ghost first = { all_ends };
}

/// The words and slots of a ring, as its ends share them.
pub type Words<T> = Shared<Token<T>, View<T>, Plan<T>, RingRule>;

/// The words and slots of a ring with their memory.
pub type RingTable<T> = Table<Token<T>, View<T>, Plan<T>, RingRule, Global>;

/// What an end steps with.
pub type RingSeat<T> = Seat<Token<T>, View<T>>;

/// Whatever steps fall in whatever order: between any two of them the rule holds, the entries of
/// their events lead the machine to the ring's picture, in which nobody is stuck, and the
/// transcript has the five laws. An end that was told `Drained` was told so by a poll of the
/// transcript. Whatever the sender wrote besides and did not publish, those writes
/// lead the machine on to the picture with them. What an end answers by what it knows, and by what
/// the deciding look finds, is what the machine then replies. A receiver that looked at all that its
/// barrier goes by is offered at least what was there before, and a poll hands over at least what was
/// there at any moment since its receiver last stepped. No word falls, so what the last look
/// of a claim without room finds was so already at its first. Once a ring is halted, nothing more is
/// claimed. It does nothing when it runs: the contract is the theorem.
pub fn moments<T>()
    // Between any two steps the ring's rule holds.
    ensures rule { (k : Shape) (steps : List (Step T)) (entries : Transcript T) (w : World T) → IsShape k → Runs k steps entries (new_world k) w → KeepsRule k w }
    // The entries of the steps' events lead the machine to the ring's picture.
    ensures leads { (k : Shape) (steps : List (Step T)) (entries : Transcript T) (w : World T) → IsShape k → Runs k steps entries (new_world k) w → LeadsTo (ring_setup k) entries (picture_of k w) }
    // Writes besides, to sequences claimed and not published, lead it on to the picture with them.
    ensures writes { (k : Shape) (steps : List (Step T)) (entries : Transcript T) (w : World T) → IsShape k → Runs k steps entries (new_world k) w → (wrote : List (Option T)) → length wrote ≡ w.sender.pending → LeadsTo (ring_setup k) (entries ++ open_writes (length w.sender.published) wrote) (picture_with k w wrote) }
    // This transcript has the five laws.
    ensures laws { (k : Shape) (steps : List (Step T)) (entries : Transcript T) (w : World T) → IsShape k → Runs k steps entries (new_world k) w → Laws (ring_setup k) entries }
    // Nobody is stuck in the picture.
    ensures progress { (k : Shape) (steps : List (Step T)) (entries : Transcript T) (w : World T) → IsShape k → Runs k steps entries (new_world k) w → NobodyIsStuck (ring_setup k) (picture_of k w) }
    // An end that was told `Drained` was told so by a poll of the transcript.
    ensures told { (k : Shape) (steps : List (Step T)) (entries : Transcript T) (w : World T) → IsShape k → Runs k steps entries (new_world k) w → WereTold w entries }
    // What an end answers is what the machine then replies on the picture, at the look that decides.
    ensures replies { (k : Shape) (steps : List (Step T)) (entries : Transcript T) (w : World T) → IsShape k → Runs k steps entries (new_world k) w → RepliesAsAnswered k w }
    // A receiver that looked at all that its barrier goes by is offered at least what was there before.
    ensures offers { (k : Shape) (steps more : List (Step T)) (entries rest : Transcript T) (w u : World T) → IsShape k → Runs k steps entries (new_world k) w → Runs k more rest w u → OffersWhatWasThere k w u }
    // As far as there is room, a poll hands over what was there at any moment since its receiver's last step.
    ensures hands { (k : Shape) (steps more : List (Step T)) (entries rest : Transcript T) (w u : World T) → IsShape k → Runs k steps entries (new_world k) w → Runs k more rest w u → HandsWhatWasThere k w u }
    // No word falls.
    ensures rises { (k : Shape) (steps more : List (Step T)) (entries rest : Transcript T) (w u : World T) → IsShape k → Runs k steps entries (new_world k) w → Runs k more rest w u → NothingFalls w u }
    // Once halt is 1, nothing more is claimed.
    ensures halted { (k : Shape) (steps more : List (Step T)) (entries rest : Transcript T) (w u : World T) → IsShape k → Runs k steps entries (new_world k) w → Runs k more rest w u → slice_index w.words halt_word ≡ 1 → claimed u.sender ≡ claimed w.sender }
{
    every_transcript_is_lawful::<T>();
    nobody_is_stuck::<T>();
}
