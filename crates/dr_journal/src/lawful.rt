//! What the format of a journal's file and the handler's meaning promise by themselves.

ghost use Rattle.std.specs.Prelude.{◌≡◌, ◌<◌, List, ℕ, [], ◌∷◌, ◌++◌, length, take};
ghost use Rattle.dr_journal.specs.Meaning.Format.{whole_batches, records_in, frame};
ghost use Rattle.dr_journal.specs.Calls.Handling.{KeepsAll, OnlyAdds};

use crate::Device;

/// A batch that is written behind others is read as it was, and one that breaks off at a byte that is
/// not written yet stands for nothing, whatever comes behind it.
pub fn batches_come_back()
    // A batch by itself is read as it was.
    ensures alone { (batch : List (List ℕ)) → records_in (frame batch) ≡ batch }
    // A batch behind the whole batches of any bytes is read as it was, and so are the records before it.
    ensures behind { (bytes : List ℕ) (batch : List (List ℕ)) → records_in (whole_batches bytes ++ frame batch) ≡ records_in bytes ++ batch }
    // A batch by itself that breaks off at a byte 0 before its end stands for no record, whatever bytes come behind.
    ensures broken { (batch : List (List ℕ)) (at : ℕ) (rest : List ℕ) → at < length (frame batch) → records_in (take at (frame batch) ++ 0 ∷ rest) ≡ [] }
{}

/// What a handler was shown, up to an event that is marked as an end, is in its file, and each crash
/// leaves it, as long as the handler has not failed.
pub fn what_was_shown_is_kept<D: Device>()
    // Up to a mark all of it is stored.
    ensures kept { KeepsAll D.seen D.may_leave D.moment D.left_since D.faults }
    // Whatever comes later, a crash leaves what was stored before, and the first of what came since.
    ensures any_moment { OnlyAdds D.seen D.may_leave D.moment D.left_since D.faults }
{}
