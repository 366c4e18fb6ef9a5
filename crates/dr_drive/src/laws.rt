//! What the line of a state says of the machine. The function does nothing when it runs: its contract
//! is the theorem.

ghost use Rattle.std.specs.Prelude.{ℕ, ◌≡◌, ◌+◌, ◌-◌, ◌<◌, ◌≤◌, true, slice_index};
ghost use Rattle.dr_seq.specs.declared.event.Event.{Event};
ghost use Rattle.dr_meaning.specs.declared.command.Command.TheVariants.{Claim, Poll};
ghost use Rattle.dr_meaning.specs.declared.command.Reply.TheVariants.{Batch, Claimed};
ghost use Rattle.dr_meaning.specs.Meaning.Machine.{Setup, State, handlers, next, producers, step};
ghost use Rattle.dr_meaning.specs.Meaning.Runs.{count_in};
ghost use Rattle.dr_drive.specs.Meaning.StateLine.{ready, room};

/// What a claim and a poll would be answered is what the machine answers them, in whatever state.
pub fn standing_is_the_machines()
    // A claim of at most as many sequences as there is room for is given the next ones.
    ensures claimed { (c : Setup) (m : State Event) (p n : ℕ) → p < producers c.mode → 0 < n → n ≤ room c m → (step c m (Claim p n)).reply ≡ Claimed (next m) (next m + n - 1) }
    // A claim that is given sequences is of at most as many.
    ensures most { (c : Setup) (m : State Event) (p n lo hi : ℕ) → (step c m (Claim p n)).reply ≡ Claimed lo hi → n ≤ room c m }
    // A poll with room for all events that are ready, if there is one, is given just those, and told that they are all.
    ensures batch { (c : Setup) (m : State Event) (h max : ℕ) → h < handlers c → 0 < ready c m h → ready c m h ≤ max → (step c m (Poll h max)).reply ≡ Batch (slice_index m.taken h) (ready c m h) true }
    // Where none is ready, no poll is given one.
    ensures nothing { (c : Setup) (m : State Event) (h max : ℕ) → ready c m h ≡ 0 → count_in (step c m (Poll h max)).reply ≡ 0 }
{}
