//! How the end of a file becomes a journal's at rest.

ghost use Rattle.std.specs.Prelude.{◌≡◌, ◌≤◌, ◌<◌, ◌+◌, ◌^◌, ◌-◌, ◌++◌, ◌⊎◌, [], length, replicate, IfOk, OnOk, IsErrOf};
ghost use Rattle.dr_journal.specs.declared.fault.JournalFault.TheVariants.{NoMemory};
ghost use Rattle.dr_journal.specs.Meaning.Disk.{Only, LeavesOnly, HasCause, IsUntouched};
ghost use Rattle.dr_journal.specs.Meaning.Format.{header, IsJournal, IsNew, behind_header, whole_length, whole_batches, recovered};
ghost use Rattle.dr_journal.specs.Calls.Journals.{IsAtRest, StandsFor};
ghost use Rattle.dr_journal.specs.Calls.Opening.{StandsForTheSame};

use crate::coding::{HEADER_LENGTH, rest_of_header, zeros};
use crate::{Device, JournalFault};
use std::alloc::Global;

// Repairs a file of so many bytes whose batches end there, or makes a new one a journal. It gives the file's length.
pub(crate) fn repair<D: Device>(
    alloc: Global,
    device: &mut D,
    end: usize,
    len: usize,
) -> Result<usize, JournalFault>
    requires begins { IsNew (D.seen device.old) ⊎ IsJournal (D.seen device.old) }
    requires end { end ≡ 8 + whole_length (behind_header (D.seen device.old)) }
    requires len { len ≡ length (D.seen device.old) }
    requires small { len < 2 ^ 63 }
    requires durable { Only (D.seen device.old) (D.may_leave device.old) }
    ensures at_rest { IfOk result (λ r. IsAtRest D.seen D.may_leave (record { device = device.new; end = end; len = r })) }
    ensures same { OnOk result (recovered (D.seen device.new) ≡ recovered (D.seen device.old)) }
    ensures any_moment { LeavesOnly D.moment D.left_since device.old device.new (StandsForTheSame (D.seen device.old)) }
    ensures cause { HasCause (D.faults device.old) (D.faults device.new) result }
    ensures no_memory { IsErrOf result NoMemory → IsUntouched (D.seen device.old) (D.seen device.new) (D.may_leave device.old) (D.may_leave device.new) }
{
    if len < HEADER_LENGTH {
        begin(alloc, device, len)
    } else {
        restore(alloc, device, end, len)
    }
}

// Gives a new file the rest of its header, and a zero behind it.
fn begin<D: Device>(alloc: Global, device: &mut D, len: usize) -> Result<usize, JournalFault>
    requires len { len ≡ length (D.seen device.old) }
    requires new { IsNew (D.seen device.old) }
    requires durable { Only (D.seen device.old) (D.may_leave device.old) }
    ensures at_rest { IfOk result (λ r. IsAtRest D.seen D.may_leave (record { device = device.new; end = 8; len = r })) }
    ensures same { OnOk result (recovered (D.seen device.new) ≡ recovered (D.seen device.old)) }
    ensures any_moment { LeavesOnly D.moment D.left_since device.old device.new (StandsForTheSame (D.seen device.old)) }
    ensures cause { HasCause (D.faults device.old) (D.faults device.new) result }
    ensures no_memory { IsErrOf result NoMemory → IsUntouched (D.seen device.old) (D.seen device.new) (D.may_leave device.old) (D.may_leave device.new) }
{
    let rest = rest_of_header(alloc, len)?;
    device.extend(&rest)?;
    device.sync()?;
    Ok(HEADER_LENGTH + 1)
}

// Repairs a journal's end.
fn restore<D: Device>(
    alloc: Global,
    device: &mut D,
    end: usize,
    len: usize,
) -> Result<usize, JournalFault>
    requires journal { IsJournal (D.seen device.old) }
    requires durable { Only (D.seen device.old) (D.may_leave device.old) }
    requires end { end ≡ 8 + whole_length (behind_header (D.seen device.old)) }
    requires len { len ≡ length (D.seen device.old) }
    requires small { len < 2 ^ 63 }
    ensures at_rest { IfOk result (λ r. IsAtRest D.seen D.may_leave (record { device = device.new; end = end; len = r })) }
    ensures same { OnOk result (recovered (D.seen device.new) ≡ recovered (D.seen device.old)) }
    ensures any_moment { LeavesOnly D.moment D.left_since device.old device.new (StandsForTheSame (D.seen device.old)) }
    ensures cause { HasCause (D.faults device.old) (D.faults device.new) result }
    ensures no_memory { IsErrOf result NoMemory → IsUntouched (D.seen device.old) (D.seen device.new) (D.may_leave device.old) (D.may_leave device.new) }
{
    let len = free(alloc, device, end, len)?;
    Ok(len)
}

// Leaves nothing but zeros behind the whole batches, and one at least. It gives the file's length.
fn free<D: Device>(
    alloc: Global,
    device: &mut D,
    end: usize,
    len: usize,
) -> Result<usize, JournalFault>
    requires journal { IsJournal (D.seen device.old) }
    requires durable { Only (D.seen device.old) (D.may_leave device.old) }
    requires end { end ≡ 8 + whole_length (behind_header (D.seen device.old)) }
    requires len { len ≡ length (D.seen device.old) }
    requires small { len < 2 ^ 63 }
    ensures freed { IfOk result (λ len. D.seen device.new ≡ header ++ (whole_batches (behind_header (D.seen device.old)) ++ replicate (len - end) 0)) }
    ensures room { IfOk result (λ len. end < len) }
    ensures durable { OnOk result (Only (D.seen device.new) (D.may_leave device.new)) }
    ensures any_moment { LeavesOnly D.moment D.left_since device.old device.new (StandsFor (recovered (D.seen device.old))) }
    ensures cause { HasCause (D.faults device.old) (D.faults device.new) result }
    ensures no_memory { IsErrOf result NoMemory → IsUntouched (D.seen device.old) (D.seen device.new) (D.may_leave device.old) (D.may_leave device.new) }
{
    if end < len {
        clear(alloc, device, end, len)?;
        Ok(len)
    } else {
        close(alloc, device)?;
        Ok(end + 1)
    }
}

// Writes zeros over what stands for nothing.
fn clear<D: Device>(
    alloc: Global,
    device: &mut D,
    end: usize,
    len: usize,
) -> Result<(), JournalFault>
    requires journal { IsJournal (D.seen device.old) }
    requires durable { Only (D.seen device.old) (D.may_leave device.old) }
    requires end { end ≡ 8 + whole_length (behind_header (D.seen device.old)) }
    requires len { len ≡ length (D.seen device.old) }
    ensures cleared { OnOk result (D.seen device.new ≡ header ++ (whole_batches (behind_header (D.seen device.old)) ++ replicate (len - end) 0)) }
    ensures durable { OnOk result (Only (D.seen device.new) (D.may_leave device.new)) }
    ensures any_moment { LeavesOnly D.moment D.left_since device.old device.new (StandsFor (recovered (D.seen device.old))) }
    ensures cause { HasCause (D.faults device.old) (D.faults device.new) result }
    ensures no_memory { IsErrOf result NoMemory → IsUntouched (D.seen device.old) (D.seen device.new) (D.may_leave device.old) (D.may_leave device.new) }
{
    let nothing = zeros(alloc, len - end)?;
    device.overwrite(end, &nothing)?;
    device.sync()?;
    Ok(())
}

// Writes a zero behind whole batches. Until it is there, a byte in its place adds no record.
fn close<D: Device>(alloc: Global, device: &mut D) -> Result<(), JournalFault>
    requires journal { IsJournal (D.seen device.old) }
    requires durable { Only (D.seen device.old) (D.may_leave device.old) }
    requires whole { length (D.seen device.old) ≡ 8 + whole_length (behind_header (D.seen device.old)) }
    ensures closed { OnOk result (D.seen device.new ≡ header ++ (whole_batches (behind_header (D.seen device.old)) ++ replicate 1 0)) }
    ensures durable { OnOk result (Only (D.seen device.new) (D.may_leave device.new)) }
    ensures any_moment { LeavesOnly D.moment D.left_since device.old device.new (StandsFor (recovered (D.seen device.old))) }
    ensures cause { HasCause (D.faults device.old) (D.faults device.new) result }
    ensures no_memory { IsErrOf result NoMemory → IsUntouched (D.seen device.old) (D.seen device.new) (D.may_leave device.old) (D.may_leave device.new) }
{
    let zero = zeros(alloc, 1)?;
    device.extend(&zero)?;
    device.sync()?;
    Ok(())
}
