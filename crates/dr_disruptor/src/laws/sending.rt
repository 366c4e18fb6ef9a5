//! What the contracts of a run's sender say.

ghost use Rattle.std.specs.Prelude.{◌≡◌, ◌≢◌, ◌∷◌, ◌++◌, [], ℕ, ◌-◌, ◌<◌, All, Err, Ok, List, length, min};
ghost use Rattle.std.specs.Fn.{FnOnceReturnsAtMut};
ghost use Rattle.dr_meaning.specs.declared.claim_fault.ClaimFault.TheVariants.{Refused};
ghost use Rattle.dr_meaning.specs.declared.command.Claimed.{Claimed};
ghost use Rattle.dr_meaning.specs.declared.refusal.Refusal.{Refusal};
ghost use Rattle.dr_meaning.specs.declared.refusal.Refusal.TheVariants.{NoRoom};
ghost use Rattle.dr_meaning.specs.Calls.Calling.{ClaimsStretch};
ghost use Rattle.dr_meaning.specs.Calls.Filling.{FillsOne};
ghost use Rattle.dr_plain.specs.Calls.Ends.{SenderEnd};
ghost use Rattle.dr_plain.specs.Calls.InPlace.{sends_in_place};
ghost use Rattle.dr_plain.specs.Calls.Sending.{ClaimCall};
ghost use Rattle.dr_plain_senders.specs.declared.record.Step.{Step};
ghost use Rattle.dr_plain_senders.specs.Calls.Ends.{SenderEnd as SenderOfSeveral};
ghost use Rattle.dr_plain_senders.specs.Calls.InPlace.{sends_in_place as sends_in_place_of_several};
ghost use Rattle.dr_disruptor.specs.Sending.{Fills, IsNoHalt, IsRefused, OnlyCalled, SendsOne, StopsAfter};

use dr_meaning::InPlaceInlet;

/// What the clauses of [`LiveSender`](crate::LiveSender)'s calls say of what is sent and what a refusal leaves.
pub fn what_a_send_says<E, I: InPlaceInlet<Event = E>, F: FnOnce(&mut E), G: Fn(&mut E, u64)>()
    // One event is published behind all that was before: what the closure left of what lay there.
    ensures sends { (fill : F) (old new : List E) → SendsOne (λ was now. FnOnceReturnsAtMut F.FnOnce fill was tt now) old new → (was : E) × (now : E) × FnOnceReturnsAtMut F.FnOnce fill was tt now × (new ≡ old ++ now ∷ []) }
    // A claim that is refused for another cause than room is the same end's, and sends nothing, before it and in it.
    ensures refuses { (n : ℕ) (r : Refusal) (old new : I) → (is : IsRefused I.kept I.sending I.does n r old new) → I.does is.tried (ClaimsStretch n (Err (Refused r))) new × (r ≢ NoRoom) × (I.kept is.tried ≡ I.kept old) × (I.sending is.tried ≡ I.sending old) × (I.sending new ≡ I.sending old) × OnlyCalled I.does old is.tried }
    // Where a claim of several is refused, so many events before it were sent, by their numbers from 0 on, and fewer than all.
    ensures stops { (fill : G) (n cut : ℕ) (r : Refusal) (old new : I) → (is : StopsAfter (FillsOne G.Fn fill) I.kept I.sending I.does n cut r old new) → (is.done < n) × (I.kept is.between ≡ I.kept old) × OnlyCalled I.does old is.between × ((events : List E) × (length events ≡ is.done) × Fills (FillsOne G.Fn fill) 0 events × ((I.sending is.between).published ≡ (I.sending old).published ++ events)) }
    // The claim that was refused is of what was left, but at most of a cut.
    ensures stops_refused { (fill : G) (n cut : ℕ) (r : Refusal) (old new : I) → (is : StopsAfter (FillsOne G.Fn fill) I.kept I.sending I.does n cut r old new) → IsRefused I.kept I.sending I.does (min (n - is.done) cut) r is.between new }
    // Of the only sender of a ring, a refused claim is that ring's, with its cause.
    ensures refuses_of_one_sender { (e e' : SenderEnd E) (n : ℕ) (r : Refusal) → sends_in_place e (ClaimsStretch n (Err (Refused r))) e' → ClaimCall e n e' (Err r) }
    // So is an accepted one, which is no more than that.
    ensures claims_of_one_sender { (e e' : SenderEnd E) (n : ℕ) (c : Claimed) → sends_in_place e (ClaimsStretch n (Ok c)) e' → ClaimCall e n e' (Ok c) }
    // Whatever is called of the only sender, it does not halt or close its ring.
    ensures stays_open { (e e' : SenderEnd E) → OnlyCalled sends_in_place e e' → (e'.knows.halted ≡ e.knows.halted) × (e'.knows.closed ≡ e.knows.closed) }
    // Nor does one of several senders: of the steps that it stores none is a halt.
    ensures stays_open_of_several { (e e' : SenderOfSeveral E) → OnlyCalled sends_in_place_of_several e e' → (steps : List (Step E)) × (e'.stored ≡ e.stored ++ steps) × All IsNoHalt steps }
{}
