//! Batches of records as bytes.

ghost use Rattle.std.specs.Prelude.{◌≡◌, ◌≤◌, ◌++◌, [], ◌∷◌, drop, replicate, IfOk, OnOk};
ghost use Rattle.dr_journal.specs.Meaning.Format.{header, coded, frame};
ghost use Rattle.dr_journal.specs.Calls.Journals.{bytes_of};

use std::alloc::{AllocError, Global};

/// What a journal begins with.
pub(crate) const HEADER: [u8; 8] = *b"DISRUPT1";

pub(crate) const HEADER_LENGTH: usize = 8;

pub(crate) const END_OF_RECORD: u8 = 1;

pub(crate) const END_OF_BATCH: u8 = 2;

pub(crate) const FOUR_LESS: u8 = 3;

/// What a new file of so many bytes lacks of a header and a byte 0.
pub(crate) fn rest_of_header(alloc: Global, len: usize) -> Result<Vec<u8>, AllocError>
    requires { len ≤ 8 }
    ensures { IfOk result (λ rest. rest.items ≡ drop len header ++ 0 ∷ []) }
{
    let mut rest = HEADER[len..].to_vec(alloc)?;
    rest.push(0)?;
    Ok(rest)
}

// Appends a record's bytes as they are written.
fn push_coded(out: &mut Vec<u8>, bytes: &[u8]) -> Result<(), AllocError>
    ensures { OnOk result (out.new.items ≡ out.old.items ++ coded bytes.now) }
{
    for byte in bytes {
        if *byte < 4 {
            out.push(FOUR_LESS)?;
            out.push(*byte + 4)?;
        } else {
            out.push(*byte)?;
        }
    }
    Ok(())
}

/// A batch as it is written.
pub(crate) fn frame_of(alloc: Global, batch: &[Vec<u8>]) -> Result<Vec<u8>, AllocError>
    ensures { IfOk result (λ bytes. bytes.items ≡ frame (bytes_of batch.now)) }
{
    let mut out = Vec::new(alloc);
    for record in batch {
        push_coded(&mut out, record.as_slice())?;
        out.push(END_OF_RECORD)?;
    }
    out.push(END_OF_BATCH)?;
    Ok(out)
}

/// So many bytes 0.
pub(crate) fn zeros(alloc: Global, n: usize) -> Result<Vec<u8>, AllocError>
    ensures { IfOk result (λ bytes. bytes.items ≡ replicate n 0) }
{
    vec![in alloc; 0u8; n]
}
