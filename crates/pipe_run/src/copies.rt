//! Copies of rows.
ghost use Rattle.std.specs.Prelude.{◌≡◌, ◌+◌, ◌≤◌, IfOk, length};

use apply_meaning::{Row, Steps};
use std::alloc::{AllocError, Global};
use std::sync::ledger::Ledger;

/// Copies of the rows: one step each.
pub(crate) fn copy_rows<L: Ledger>(
    alloc: Global,
    rows: &[Row],
    steps: &mut Steps<L>,
) -> Result<Vec<Row>, AllocError>
    ensures rows { IfOk result (λ copies. copies.items ≡ rows.now) }
    ensures steps { steps.new ≤ steps.old + length rows.now }
    ensures grown { steps.old ≤ steps.new }
{
    let mut copies = Vec::with_capacity(alloc, rows.len())?;
    for row in rows {
        copies.push(row.copy(alloc, steps)?)?;
    }
    Ok(copies)
}
