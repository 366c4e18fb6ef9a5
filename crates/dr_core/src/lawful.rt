//! What ties a core to the meaning. These functions do nothing when they run: their contracts are
//! the theorems.

ghost use Rattle.std.specs.Prelude.{◌≡◌, ◌++◌, ◌∷◌, [], List};
ghost use Rattle.dr_meaning.specs.declared.command.Command.{Command};
ghost use Rattle.dr_meaning.specs.declared.command.Reply.{Reply};
ghost use Rattle.dr_core.specs.Calls.CoreView.{CoreView};
ghost use Rattle.dr_meaning.specs.Meaning.Machine.{step};
ghost use Rattle.dr_core.specs.Calls.Reached.{RunsTo, IsReached};
ghost use Rattle.dr_core.specs.Calls.Shows.{IsStep};
ghost use Rattle.dr_meaning.specs.Meaning.Transcript.{Transcript, entry_with};

/// Where a transcript leads to a state that a core shows, the transcript with one more entry leads
/// to a state that the core shows after that step.
pub fn every_step_leads_on<E>()
    ensures { (t : Transcript E) (old new : CoreView E) (command : Command E) (reply : Reply) (values : List E) → RunsTo old.setup t old → IsStep old command reply values new → RunsTo new.setup (t ++ entry_with command reply values ∷ []) new }
{}

/// What contracts see of a core settles what each call answers and hands out. A new core is seen
/// the same whatever its slots hold, so nothing that a slot held before the first write is handed out.
pub fn every_answer_is_settled<E>()
    ensures { (v new other : CoreView E) (command : Command E) (r s : Reply) (xs ys : List E) → IsReached v → IsStep v command r xs new → IsStep v command s ys other → (r ≡ s) × (xs ≡ ys) }
{}
