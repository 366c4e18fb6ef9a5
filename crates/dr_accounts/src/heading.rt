//! The head of a handler's part of the report.

ghost use Rattle.std.specs.Prelude.{◌≡◌, ◌++◌, IfOk, string_bytes};
ghost use Rattle.dr_accounts.specs.Report.{heading};

use std::alloc::{AllocError, Global};

/// Lines after their head, which goes in front of them where they lie: there is no second copy.
pub(crate) fn headed(
    alloc: Global,
    name: &str,
    count: u64,
    mut lines: String,
) -> Result<String, AllocError>
    ensures { IfOk result (λ text. string_bytes text ≡ heading name.now count ++ string_bytes lines) }
{
    let head = format!(in alloc; "{name} {count}\n")?;
    lines.insert_str(0, head.as_str())?;
    Ok(lines)
}
