//! What the page's data says of the machine, and what it never has. These functions do nothing when
//! they run: their contracts are the theorems.

ghost use Rattle.std.specs.Prelude.{ℕ, List, ◌≡◌, ◌+◌, ◌<◌, false, true, slice_index};
ghost use Rattle.dr_seq.specs.declared.event.Event.{Event};
ghost use Rattle.dr_meaning.specs.declared.command.Command.TheVariants.{Claim, Complete, Poll};
ghost use Rattle.dr_meaning.specs.declared.command.Reply.TheVariants.{Claimed, Refused};
ghost use Rattle.dr_meaning.specs.declared.refusal.Refusal.TheVariants as refusal;
ghost use Rattle.dr_meaning.specs.Meaning.Machine.{Setup, State, handlers, step};
ghost use Rattle.dr_meaning.specs.Meaning.Progress.{after, reply_to};
ghost use Rattle.dr_drive.specs.Meaning.StateLine.{room};
ghost use Rattle.dr_show.specs.declared.handlers.PollAnswer.TheVariants.{Retired};
ghost use Rattle.dr_show.specs.declared.tool.Window.{Window};
ghost use Rattle.dr_show.specs.Meaning.PageText.{data_text};
ghost use Rattle.dr_show.specs.Meaning.StateText.{answer_of, handler_of, poll_answer};
ghost use Rattle.dr_show.specs.Meaning.Texts.{opens_no_tag};

/// The word of a handler's poll is the machine's reply to it, in whatever state.
pub fn polls_are_the_machines()
    // A poll for several events is answered by the same word as one for an event.
    ensures polled { (c : Setup) (m : State Event) (h max : ℕ) → h < handlers c → 0 < max → answer_of (step c m (Poll h max)).reply ≡ poll_answer c m h }
    // The word of a retired handler stands for its refusal alone.
    ensures retired { (c : Setup) (m : State Event) (h max : ℕ) → h < handlers c → 0 < max → poll_answer c m h ≡ Retired → (step c m (Poll h max)).reply ≡ Refused refusal.Retired }
{}

/// Claims wait for the handlers that the page says they wait for, and it is those which it says hold them
/// up that give them no more room, in whatever state.
pub fn holders_are_the_machines()
    // No claim goes further than a round beyond what each handler completed that claims wait for.
    ensures waited { (c : Setup) (m : State Event) (p n lo hi h : ℕ) → h < handlers c → (handler_of c m h).gates ≡ true → reply_to c m (Claim p n) ≡ Claimed lo hi → hi < c.size + slice_index m.completed h }
    // What a handler completes that holds no claim up gives claims no room.
    ensures others { (c : Setup) (m : State Event) (h upto : ℕ) → h < handlers c → (handler_of c m h).holds ≡ false → room c (after c m (Complete h upto)) ≡ room c m }
    // Nor does what any other completes, while one that holds them up completes nothing.
    ensures meanwhile { (c : Setup) (m : State Event) (h other upto : ℕ) → h < handlers c → (handler_of c m h).holds ≡ true → (other ≡ h → ⊥) → room c (after c m (Complete other upto)) ≡ room c m }
{}

/// No byte of a page's data is `<`, whatever the file has, so that nothing in it ends the script element
/// where it stands.
pub fn no_tag_opens_in_the_data()
    ensures { (w : Window) (input : List ℕ) → opens_no_tag (data_text w input) ≡ true }
{}
