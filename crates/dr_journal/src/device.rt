//! A file as a journal sees it: the bytes that it has, and what a crash may leave of it.

ghost use Rattle.std.specs.Prelude.{◌≡◌, ◌≤◌, ◌+◌, ◌++◌, List, ℕ, length, OnOk, IsErrOf};
ghost use Rattle.dr_journal.specs.declared.fault.JournalFault.TheVariants.{NoMemory};
ghost use Rattle.dr_journal.specs.Meaning.Disk.{Only, Follows, Mixed, Grown, written, Elapses, HasCause, IsUntouched};

use crate::JournalFault;

/// A file that a journal writes. It is read once, as it is opened, so there is no call that reads.
///
/// The premise on a disk is in `overwrite` and `extend`: a write that a crash cuts short leaves each
/// byte *within* the file old or new, and may leave any bytes past its old end. Bytes that it does not
/// write stay as they are, also those of the same sector or page: a disk that tears a sector so that the
/// bytes beside the write are lost breaks the premise. `moment` is a clock, so that a contract can speak
/// of a crash at each moment of a call.
pub trait Device {
    /// The bytes that the file has.
    ghost seen: { Self → List ℕ };

    /// What a crash at this moment may leave.
    ghost may_leave: { Self → List ℕ → Type 0 };

    /// The moment, as a number that does not fall.
    ghost moment: { Self → ℕ };

    /// What a crash at some moment from that one on might have left, during a call or between two.
    ghost left_since: { Self → ℕ → List ℕ → Type 0 };

    /// How often the disk has failed.
    ghost faults: { Self → ℕ };

    /// Writes over what is there. Until a sync, a crash leaves each byte as it was or as it is
    /// written.
    fn overwrite(&mut self, at: usize, bytes: &Vec<u8>) -> Result<(), JournalFault>
        requires within { at + length bytes.now.items ≤ length (seen self.old) }
        // Whatever a crash leaves of the file now has these bytes too, so that no write over them makes it longer.
        requires left { (c : List ℕ) → may_leave self.old c → at + length bytes.now.items ≤ length c }
        // At `Ok` the bytes stand in the file from `at` on, and every other byte is as it was.
        ensures written { OnOk result (seen self.new ≡ written at bytes.now.items (seen self.old)) }
        // Whatever the answer, a crash leaves what it might have left before, with each byte as it was or as it is written.
        ensures crash { Follows (Mixed at bytes.now.items) (may_leave self.old) (may_leave self.new) }
        // The moment does not fall. What a crash since an earlier one might have left stays counted, and at most what it may leave now is added.
        ensures time { Elapses (moment self.old) (moment self.new) (left_since self.old) (left_since self.new) (may_leave self.new) }
        // The count of the disk's failures does not fall: at `Ok` it is the same, at `Failed` it is greater. `Full` is never answered.
        ensures cause { HasCause (faults self.old) (faults self.new) result }
        // At `NoMemory` the file is as it was, and a crash leaves nothing that it might not have left before.
        ensures no_memory { IsErrOf result NoMemory → IsUntouched (seen self.old) (seen self.new) (may_leave self.old) (may_leave self.new) };

    /// Writes past the end. Until a sync, a crash may leave any bytes there, at most as many.
    fn extend(&mut self, bytes: &Vec<u8>) -> Result<(), JournalFault>
        // At `Ok` the bytes stand behind what the file had.
        ensures extended { OnOk result (seen self.new ≡ seen self.old ++ bytes.now.items) }
        // Whatever the answer, a crash leaves what it might have left before, and at most as many bytes behind it, whatever they are.
        ensures crash { Follows (Grown (length bytes.now.items)) (may_leave self.old) (may_leave self.new) }
        // The moment does not fall. What a crash since an earlier one might have left stays counted, and at most what it may leave now is added.
        ensures time { Elapses (moment self.old) (moment self.new) (left_since self.old) (left_since self.new) (may_leave self.new) }
        // The count of the disk's failures does not fall: at `Ok` it is the same, at `Failed` it is greater. `Full` is never answered.
        ensures cause { HasCause (faults self.old) (faults self.new) result }
        // At `NoMemory` the file is as it was, and a crash leaves nothing that it might not have left before.
        ensures no_memory { IsErrOf result NoMemory → IsUntouched (seen self.old) (seen self.new) (may_leave self.old) (may_leave self.new) };

    /// After it, a crash leaves what the file has. It wants no memory.
    fn sync(&mut self) -> Result<(), JournalFault>
        // At `Ok` a crash leaves what the file had, and nothing else.
        ensures durable { OnOk result (Only (seen self.old) (may_leave self.new)) }
        // Whatever the answer, the file has the bytes that it had.
        ensures seen { seen self.new ≡ seen self.old }
        // Whatever the answer, a crash leaves nothing that it might not have left before.
        ensures crash { (c : List ℕ) → may_leave self.new c → may_leave self.old c }
        // The moment does not fall. What a crash since an earlier one might have left stays counted, and at most what it may leave now is added.
        ensures time { Elapses (moment self.old) (moment self.new) (left_since self.old) (left_since self.new) (may_leave self.new) }
        // The count of the disk's failures does not fall: at `Ok` it is the same, at `Failed` it is greater. `Full` is never answered.
        ensures cause { HasCause (faults self.old) (faults self.new) result }
        // `NoMemory` is never answered.
        ensures no_memory { IsErrOf result NoMemory → ⊥ };

    /// This moment is one of those since an earlier one.
    ghost counts_now: { (file : Self) (t : ℕ) (c : List ℕ) → t ≤ moment file → may_leave file c → left_since file t c };

    /// Since this moment there is no other.
    ghost only_now: { (file : Self) (c : List ℕ) → left_since file (moment file) c → may_leave file c };
}
