//! The theorems that the exchange stands on. These functions do nothing when they run: their
//! contracts are the theorems.

ghost use Rattle.std.specs.Prelude.{ℕ, ◌≡◌, ◌⊎◌, ◌+◌, ◌-◌, ◌<◌, ◌≤◌, ◌++◌, ◌∷◌, [], Bool, false, true, Contains, List, length, slice_index};
ghost use Rattle.dr_graph.specs.Meaning.Graph.{IsGraph, IsLayered, upstreams_of};
ghost use Rattle.dr_meaning.specs.declared.command.Command.{Command};
ghost use Rattle.dr_meaning.specs.declared.command.Command.TheVariants.{Claim, Complete, Poll, Publish, Retire, Write};
ghost use Rattle.dr_meaning.specs.declared.command.Reply.TheVariants.{Batch, Claimed, Completed, Drained, Published, Written};
ghost use Rattle.dr_meaning.specs.Meaning.Machine.{Setup, State, front, gate, gating, handlers, next, producers, step};
ghost use Rattle.dr_meaning.specs.Meaning.Transcript.{Transcript, LeadsTo};
ghost use Rattle.dr_meaning.specs.Meaning.Laws.{Laws};
ghost use Rattle.dr_meaning.specs.Meaning.Tells.{Tells};
ghost use Rattle.dr_meaning.specs.Meaning.Progress.{NobodyIsStuck, CompletesAll, ClaimsRound, Drains, PublishesFront, CanFinish, GoOn, to_do};
ghost use Rattle.dr_meaning.specs.Meaning.Progress.{AwaitedGoesOn, ClaimAwaits, IsPathUp, MayComplete, MayPublish, MayTake, WaitsFor, after, reply_to};
ghost use Rattle.dr_meaning.specs.Meaning.Stuck.{IsFalseAfter, circle, shared_circle, line, one_completed, two_completed, one_retired, halted, left_behind, claimed_by_nobody};
ghost use Rattle.dr_meaning.specs.Meaning.TooFar.{IsTooFar, pair, claim_of, claim_up_to, receipt_of, completion_of, retirement_of, halt, drain, written, written_again, published, taken, completed, taken_by_both, join, two_published, first_receipt, second_receipt, completed_beside, taken_beside, completed_by_both, first_taken};
ghost use Rattle.dr_meaning.specs.Meaning.TooFar.{shared, claim_by, drain_of, receipt_of_both, each_claimed, first_published, second_published, each_published, each_completed, third_completed, drain_with_room};

/// Every transcript that leads from the opening to a state of the machine has the five laws, at
/// each of its beginnings.
pub fn every_transcript_is_lawful<E>()
    ensures { (c : Setup) (t : Transcript E) (m : State E) → LeadsTo c t m → Laws c t }
{}

/// The laws refuse one step too far: an event that is not the published one, or not published, or
/// that comes again, or before an earlier one; a completion that is taken back, or of what was not
/// taken; an event that an upstream, whichever, did not complete; a claim of a slot whose event a
/// final handler, whichever, did not complete, also of one that a retirement left final; a claim of
/// what is claimed already, or that passes a sequence over, or after a halt; and `Drained` before a
/// halt, before what is published was taken, or over a claim that is not published.
pub fn laws_refuse_a_step_too_far()
    // Too far is an event that is not the published one, also one that was written before it.
    ensures other_event { IsTooFar pair published (receipt_of 0 6) }
    ensures other_event_after_an_upstream { IsTooFar pair completed (receipt_of 1 6) }
    ensures event_written_over { IsTooFar pair written_again (receipt_of 0 6) }
    // An event that is not published, the first or a later one.
    ensures unpublished { IsTooFar pair written (receipt_of 0 5) }
    ensures unpublished_later { IsTooFar join first_taken (second_receipt 0 6) }
    // An event that comes again, or before an earlier one, also after both upstreams.
    ensures received_again { IsTooFar join (two_published ++ first_receipt 0 5 ∷ []) (second_receipt 0 5) }
    ensures out_of_order { IsTooFar join two_published (first_receipt 1 6) }
    ensures out_of_order_after_both_upstreams { IsTooFar join completed_by_both (first_receipt 2 6) }
    ensures received_again_after_both_upstreams { IsTooFar join (completed_by_both ++ first_receipt 2 5 ∷ []) (second_receipt 2 5) }
    // A completion that is taken back.
    ensures taken_back { IsTooFar pair completed (completion_of 0 0) }
    ensures taken_back_later { IsTooFar join completed_by_both (completion_of 0 1) }
    // A completion of what was not taken.
    ensures untaken { IsTooFar pair published (completion_of 0 1) }
    ensures untaken_later { IsTooFar join (completed_beside 0) (completion_of 0 2) }
    // An event that an upstream did not complete, whichever of two, the first or a later one.
    ensures before_upstream { IsTooFar pair taken (receipt_of 1 5) }
    ensures before_first_upstream { IsTooFar join (completed_beside 1) (first_receipt 2 5) }
    ensures before_second_upstream { IsTooFar join (completed_beside 0) (first_receipt 2 5) }
    ensures before_upstream_later { IsTooFar join (taken_beside ++ receipt_of 2 5 ∷ []) (second_receipt 2 6) }
    // A claim of a slot whose event a final handler did not complete, also one that a retirement left final.
    ensures no_room { IsTooFar pair taken_by_both (claim_of 1) }
    ensures no_room_a_round_later { IsTooFar pair (taken_by_both ++ completion_of 1 1 ∷ claim_of 1 ∷ []) (claim_of 2) }
    ensures no_room_for_the_last { IsTooFar pair [] (claim_up_to 0 1) }
    ensures no_room_after_retirement { IsTooFar pair (published ++ retirement_of 1 ∷ []) (claim_of 1) }
    ensures no_room_for_first_final { IsTooFar join (completed_beside 1 ++ retirement_of 2 ∷ []) (claim_of 2) }
    ensures no_room_for_second_final { IsTooFar join (completed_beside 0 ++ retirement_of 2 ∷ []) (claim_of 2) }
    // A claim of what is claimed already, or of some of it.
    ensures claimed_twice { IsTooFar pair (claim_of 0 ∷ []) (claim_of 0) }
    ensures claimed_twice_later { IsTooFar join (claim_up_to 0 1 ∷ []) (claim_of 1) }
    ensures claimed_twice_in_part { IsTooFar join (claim_of 0 ∷ []) (claim_up_to 0 1) }
    // A claim that passes a sequence over.
    ensures passed_over { IsTooFar join [] (claim_of 1) }
    // A claim after a halt.
    ensures claimed_late { IsTooFar pair (halt ∷ []) (claim_of 0) }
    ensures claimed_late_after_a_claim { IsTooFar join (claim_of 0 ∷ halt ∷ []) (claim_of 1) }
    // `Drained` before a halt.
    ensures drained_before_halt { IsTooFar pair [] drain }
    ensures drained_before_halt_later { IsTooFar pair taken drain }
    // `Drained` before all that is published was taken.
    ensures drained_early { IsTooFar pair (published ++ halt ∷ []) drain }
    ensures drained_early_later { IsTooFar join (two_published ++ first_receipt 0 5 ∷ halt ∷ []) drain }
    // `Drained` over a claim that is not published.
    ensures drained_over_a_claim { IsTooFar pair (written ++ halt ∷ []) drain }
    // And each of these where the poll has room for two events.
    ensures drained_before_halt_with_room { IsTooFar pair taken (drain_with_room 0) }
    ensures drained_early_with_room { IsTooFar join (two_published ++ first_receipt 0 5 ∷ halt ∷ []) (drain_with_room 0) }
    ensures drained_over_a_claim_with_room { IsTooFar pair (written ++ halt ∷ []) (drain_with_room 0) }
{}

/// The laws refuse such steps with two producers too, of whom the second one publishes first, most
/// of them at a second event, or of a handler that follows others.
pub fn laws_refuse_a_step_too_far_of_two_producers()
    // Too far is an event that comes again, or before an earlier one.
    ensures received_again { IsTooFar shared (each_published ++ first_receipt 1 5 ∷ []) (second_receipt 1 5) }
    ensures out_of_order_after_both_upstreams { IsTooFar shared (each_completed 2) (first_receipt 2 6) }
    ensures received_again_after_both_upstreams { IsTooFar shared (each_completed 2 ++ first_receipt 2 5 ∷ []) (second_receipt 2 5) }
    // The event of a sequence that is not published, though the one after it is.
    ensures unpublished { IsTooFar shared second_published (receipt_of 1 5) }
    // A completion that is taken back, or of what was not taken.
    ensures taken_back { IsTooFar shared (third_completed 2) (completion_of 2 1) }
    ensures untaken { IsTooFar shared (each_completed 2 ++ first_receipt 2 5 ∷ []) (completion_of 2 2) }
    // An event that one of two upstreams did not complete.
    ensures before_upstream { IsTooFar shared (each_completed 1 ++ receipt_of 2 5 ∷ []) (second_receipt 2 6) }
    // A claim of a slot whose event the final handler did not complete.
    ensures no_room { IsTooFar shared each_claimed (claim_by 1 2 2) }
    ensures no_room_for_the_last { IsTooFar shared (third_completed 1) (claim_by 1 2 3) }
    // A claim of what is claimed already, one that passes a sequence over, and one after a halt.
    ensures claimed_twice { IsTooFar shared each_claimed (claim_by 0 1 1) }
    ensures passed_over { IsTooFar shared (third_completed 2) (claim_by 1 3 3) }
    ensures claimed_late { IsTooFar shared (third_completed 2 ++ halt ∷ drain_of 2 ∷ []) (claim_by 1 2 3) }
    // `Drained` before a halt, before all was taken, and over a claim that is not published.
    ensures drained_before_halt { IsTooFar shared (each_completed 2 ++ receipt_of_both 2 ∷ []) (drain_of 2) }
    ensures drained_early { IsTooFar shared (each_completed 2 ++ first_receipt 2 5 ∷ halt ∷ []) (drain_of 2) }
    ensures drained_over_a_claim { IsTooFar shared (first_published ++ halt ∷ []) (drain_of 1) }
    ensures drained_early_with_room { IsTooFar shared (each_completed 2 ++ first_receipt 2 5 ∷ halt ∷ []) (drain_with_room 2) }
{}

/// What a transcript says by its own entries is what the state that it leads to has.
pub fn every_transcript_tells_its_state<E>()
    ensures { (c : Setup) (t : Transcript E) (m : State E) → LeadsTo c t m → Tells t m }
{}

/// No retirement lowers the least completed count that a claim is gated by, in any state that a
/// transcript leads to.
pub fn retirement_keeps_the_gate<E>()
    ensures { (c : Setup) (t : Transcript E) (m : State E) (h : ℕ) → IsLayered c.upstreams → LeadsTo c t m → gate c m ≤ gate c (step c m (Retire h)).state }
{}

/// In no state that a transcript leads to is anybody stuck: a claimed sequence at the front can be
/// published, a handler that waits for others waits for one that can go on, and a claim up to a round
/// beyond the front for a handler that gates it and can go on, or waits for one that can. A claim
/// further on may also wait for the producers of what is not published.
pub fn nobody_is_stuck<E>()
    ensures { (c : Setup) (t : Transcript E) (m : State E) → IsGraph c.upstreams → LeadsTo c t m → NobodyIsStuck c m }
{}

/// What that nobody is stuck says of each, by calls and what they answer.
pub fn what_nobody_is_stuck_says<E>()
    // The producer of the first sequence that is claimed and not published can write it, and then publish it.
    ensures front { (c : Setup) (m : State E) → NobodyIsStuck c m → front m < next m → MayPublish c m (slice_index m.owners (front m)) (front m) }
    ensures publishes { (c : Setup) (m : State E) (p s : ℕ) → MayPublish c m p s → (event : E) → (reply_to c m (Write p s event) ≡ Written) × (reply_to c (after c m (Write p s event)) (Publish p s s) ≡ Published) }
    // A handler has completed all before the front, or it goes on, or one that it waits for does.
    ensures handlers { (c : Setup) (m : State E) → NobodyIsStuck c m → (h : ℕ) → h < handlers c → m.retired h ≡ false → (slice_index m.completed h ≡ front m) ⊎ AwaitedGoesOn c m h }
    // A claim that ends at most a round beyond the front is accepted, or one that it waits for goes on.
    ensures claims { (c : Setup) (m : State E) → NobodyIsStuck c m → (p n : ℕ) → p < producers c.mode → 0 < n → m.halted ≡ false → next m + n ≤ c.limit → next m + n ≤ c.size + front m → (reply_to c m (Claim p n) ≡ Claimed (next m) (next m + n - 1)) ⊎ ClaimAwaits c m n }
    // After a halt, with nothing left to publish, a handler is told `Drained`, or it goes on, or one that it waits for does.
    ensures drains { (c : Setup) (m : State E) → NobodyIsStuck c m → (h max : ℕ) → h < handlers c → m.retired h ≡ false → 0 < max → m.halted ≡ true → front m ≡ next m → (reply_to c m (Poll h max) ≡ Drained) ⊎ AwaitedGoesOn c m h }
    // A handler that can go on is handed its next event, or completes all that it took, which is more than before.
    ensures goes_on { (c : Setup) (m : State E) (h : ℕ) → AwaitedGoesOn c m h → (up : ℕ) × (path : List ℕ) × IsPathUp c m h path up × (MayTake c m up ⊎ MayComplete c m up) }
    ensures takes { (c : Setup) (m : State E) (h : ℕ) → MayTake c m h → (end : Bool) × (reply_to c m (Poll h 1) ≡ Batch (slice_index m.taken h) 1 end) }
    ensures completes { (c : Setup) (m : State E) (h : ℕ) → MayComplete c m h → (slice_index m.completed h < slice_index m.taken h) × (reply_to c m (Complete h (slice_index m.taken h)) ≡ Completed) }
    // A handler that waits has completed all that it took, and took all that one of its upstreams, not retired, completed.
    ensures path_ends { (c : Setup) (m : State E) (from to : ℕ) → IsPathUp c m from [] to → from ≡ to }
    ensures path { (c : Setup) (m : State E) (from up to : ℕ) (ups : List ℕ) → IsPathUp c m from (up ∷ ups) to → WaitsFor c m from up × IsPathUp c m up ups to }
    ensures waits { (c : Setup) (m : State E) (h up : ℕ) → WaitsFor c m h up → Contains (upstreams_of c.upstreams h) up × (m.retired up ≡ false) × (slice_index m.completed up ≤ slice_index m.taken h) × (slice_index m.completed h ≡ slice_index m.taken h) }
    // A claim waits for a handler that gates it and left it no room.
    ensures claim_waits { (c : Setup) (m : State E) (n : ℕ) → ClaimAwaits c m n → (last : ℕ) × Contains (gating c m) last × (c.size + slice_index m.completed last < next m + n) × AwaitedGoesOn c m last }
{}

/// That nobody is stuck is false where somebody is. Where two handlers wait for each other, as in no
/// graph, neither goes on, nor does the last one, which waits for them,
/// though others can. A claim that this one gates is not accepted, also of two sequences, of a second
/// producer, or after a retirement; after a halt none of the three is told `Drained`, the second one at
/// a poll with room for two. Nor does a handler go on that follows a retired one, nor is a sequence
/// published whose producer is none of those that there are.
pub fn a_circle_is_stuck()
    // In a circle it is false that nobody is stuck.
    ensures whole { IsFalseAfter circle one_completed (λ m. NobodyIsStuck circle m) }
    // A handler of the circle is stuck, and so is one that follows it, or that follows a retired one.
    ensures of_the_circle { IsFalseAfter circle one_completed (λ m. CompletesAll circle m 0) }
    ensures of_the_circle_at_first { IsFalseAfter circle two_published (λ m. CompletesAll circle m 1) }
    ensures behind_the_circle { IsFalseAfter circle one_completed (λ m. CompletesAll circle m 4) }
    ensures behind_one_retired { CompletesAll line left_behind 2 → ⊥ }
    // So is a claim that it gates, also of two sequences, of a second producer, and after a retirement.
    ensures claim { IsFalseAfter circle one_completed (λ m. ClaimsRound circle m 0 1) }
    ensures claim_of_two { IsFalseAfter circle two_completed (λ m. ClaimsRound circle m 0 2) }
    ensures claim_of_the_second_producer { IsFalseAfter shared_circle one_completed (λ m. ClaimsRound shared_circle m 1 1) }
    ensures claim_after_a_retirement { IsFalseAfter circle one_retired (λ m. ClaimsRound circle m 0 2) }
    // After a halt none of these handlers is told `Drained`, or waits for one that can go on.
    ensures after_a_halt { IsFalseAfter circle halted (λ m. Drains circle m 0 1) }
    ensures after_a_halt_with_room { IsFalseAfter circle halted (λ m. Drains circle m 1 2) }
    ensures after_a_halt_behind { IsFalseAfter circle halted (λ m. Drains circle m 4 1) }
    // Nor can the first sequence be published where its producer is none of those that there are.
    ensures claimed_by_nobody { PublishesFront circle claimed_by_nobody → ⊥ }
{}

/// From each state that a transcript leads to, some commands lead on to one in which all that was
/// claimed is published and completed. What is written stays; the rest needs an event to write.
pub fn every_state_can_finish<E>()
    ensures { (event : E) (c : Setup) (t : Transcript E) (m : State E) → IsLayered c.upstreams → LeadsTo c t m → CanFinish c m }
{}

/// Every schedule of handlers that go on comes to an end: it has no more steps than they have to do.
pub fn handlers_come_to_rest<E>()
    ensures { (c : Setup) (t : Transcript E) (m : State E) (commands : List (Command E)) → LeadsTo c t m → GoOn c m commands → length commands ≤ to_do c m }
{}
