//! Rows beside their results.
ghost use Rattle.std.specs.Prelude.{◌≡◌, ◌+◌, ◌≤◌, ◌++◌, true, false, IfOk, IsTrue, length, map};
ghost use Rattle.std.specs.List.{list_all};
ghost use Rattle.apply_meaning.specs.Meaning.{beneath as under, beside, beside_none, bound_to};
ghost use Rattle.apply_meaning.specs.RowViews.{with_root};
ghost use Rattle.join_concat.specs.Joins.{bound_rows, is_free_of};

use crate::paths::beneath;
use apply_ast::{Name, Path};
use apply_meaning::{Row, Steps, copy_columns, copy_prefixes};
use edm_data::EntityRef;
use edm_values::Value;
use std::alloc::{AllocError, Global};
use std::sync::ledger::Ledger;

/// Each row beside each row of the list at its place, under the alias: one step a row that is made. A row whose list is empty
/// is left out.
pub fn join<L: Ledger>(
    alloc: Global,
    rows: &[Row],
    inner: &[Vec<Row>],
    alias: &Name,
    steps: &mut Steps<L>,
) -> Result<Vec<Row>, AllocError>
    requires lists { length inner.now ≡ length rows.now }
    requires free { IsTrue (list_all (is_free_of alias.now) rows.now) }
    ensures rows { IfOk result (λ made. made.items ≡ bound_rows false alias.now rows.now (map (λ l. l.items) inner.now)) }
    ensures each { IfOk result (λ made. steps.new ≡ steps.old + length made.items) }
    ensures steps { steps.new ≤ steps.old + length (bound_rows false alias.now rows.now (map (λ l. l.items) inner.now)) }
    ensures grown { steps.old ≤ steps.new }
{
    bound(alloc, false, rows, inner, alias, steps)
}

/// Each row beside each row of the list at its place, under the alias: one step a row that is made. A row whose list is empty
/// stands once, with the alias bound to none.
pub fn outerjoin<L: Ledger>(
    alloc: Global,
    rows: &[Row],
    inner: &[Vec<Row>],
    alias: &Name,
    steps: &mut Steps<L>,
) -> Result<Vec<Row>, AllocError>
    requires lists { length inner.now ≡ length rows.now }
    requires free { IsTrue (list_all (is_free_of alias.now) rows.now) }
    ensures rows { IfOk result (λ made. made.items ≡ bound_rows true alias.now rows.now (map (λ l. l.items) inner.now)) }
    ensures each { IfOk result (λ made. steps.new ≡ steps.old + length made.items) }
    ensures steps { steps.new ≤ steps.old + length (bound_rows true alias.now rows.now (map (λ l. l.items) inner.now)) }
    ensures grown { steps.old ≤ steps.new }
{
    bound(alloc, true, rows, inner, alias, steps)
}

/// The rows of a join, or of an outer join.
fn bound<L: Ledger>(
    alloc: Global,
    outer: bool,
    rows: &[Row],
    inner: &[Vec<Row>],
    alias: &Name,
    steps: &mut Steps<L>,
) -> Result<Vec<Row>, AllocError>
    requires free { IsTrue (list_all (is_free_of alias.now) rows.now) }
    ensures rows { IfOk result (λ made. made.items ≡ bound_rows outer alias.now rows.now (map (λ l. l.items) inner.now)) }
    ensures each { IfOk result (λ made. steps.new ≡ steps.old + length made.items) }
    ensures steps { steps.new ≤ steps.old + length (bound_rows outer alias.now rows.now (map (λ l. l.items) inner.now)) }
    ensures grown { steps.old ≤ steps.new }
{
    let mut all = Vec::new(alloc);
    for (row, results) in rows.iter().zip(inner) {
        let mut made = bound_row(alloc, outer, row, results.as_slice(), alias, steps)?;
        all.append(&mut made)?;
    }
    Ok(all)
}

/// A row beside each of its results, or once beside none in an outer join without a result.
fn bound_row<L: Ledger>(
    alloc: Global,
    outer: bool,
    row: &Row,
    results: &[Row],
    alias: &Name,
    steps: &mut Steps<L>,
) -> Result<Vec<Row>, AllocError>
    requires free { IsTrue (is_free_of alias.now row.now) }
    ensures rows { IfOk result (λ made. made.items ≡ bound_to outer alias.now row.now results.now) }
    ensures each { IfOk result (λ made. steps.new ≡ steps.old + length made.items) }
    ensures steps { steps.new ≤ steps.old + length (bound_to outer alias.now row.now results.now) }
    ensures grown { steps.old ≤ steps.new }
{
    let mut made = Vec::with_capacity(alloc, results.len())?;
    for other in results {
        made.push(row_beside(alloc, row, other, alias, steps)?)?;
    }
    if outer && results.is_empty() {
        made.push(row_beside_none(alloc, row, alias, steps)?)?;
    }
    Ok(made)
}

/// A row beside another, whose prefixes and columns stand under the alias: one step.
fn row_beside<L: Ledger>(
    alloc: Global,
    row: &Row,
    other: &Row,
    alias: &Name,
    steps: &mut Steps<L>,
) -> Result<Row, AllocError>
    requires free { IsTrue (is_free_of alias.now row.now) }
    ensures row { IfOk result (λ made. made ≡ beside alias.now row.now other.now) }
    ensures each { IfOk result (λ made. steps.new ≡ steps.old + 1) }
    ensures steps { steps.new ≤ steps.old + 1 }
    ensures grown { steps.old ≤ steps.new }
{
    let prefixes = copy_prefixes(alloc, row.prefixes())?;
    let prefixes = add_prefixes(alloc, prefixes, other.root(), other.prefixes(), alias)?;
    let columns = copy_columns(alloc, row.columns())?;
    let columns = add_columns(alloc, columns, other.columns(), alias)?;
    Row::make(alloc, prefixes, row.root(), columns, steps)
}

/// The row with the alias bound to none: one step.
fn row_beside_none<L: Ledger>(
    alloc: Global,
    row: &Row,
    alias: &Name,
    steps: &mut Steps<L>,
) -> Result<Row, AllocError>
    requires free { IsTrue (is_free_of alias.now row.now) }
    ensures row { IfOk result (λ made. made ≡ beside_none alias.now row.now) }
    ensures each { IfOk result (λ made. steps.new ≡ steps.old + 1) }
    ensures steps { steps.new ≤ steps.old + 1 }
    ensures grown { steps.old ≤ steps.new }
{
    let mut prefixes = copy_prefixes(alloc, row.prefixes())?;
    prefixes.push((beneath(alloc, alias, &[])?, None))?;
    let columns = copy_columns(alloc, row.columns())?;
    Row::make(alloc, prefixes, row.root(), columns, steps)
}

/// The prefixes so far and then, under the alias, those of a row.
fn add_prefixes(
    alloc: Global,
    all: Vec<(Path, Option<EntityRef>)>,
    root: Option<EntityRef>,
    prefixes: &[(Path, Option<EntityRef>)],
    alias: &Name,
) -> Result<Vec<(Path, Option<EntityRef>)>, AllocError>
    ensures { IfOk result (λ v. v.items ≡ all.items ++ map (under alias.now) (with_root root prefixes.now)) }
{
    let mut all = all;
    if let Some(entity) = root {
        all.push((beneath(alloc, alias, &[])?, Some(entity)))?;
    }
    for prefix in prefixes {
        all.push((beneath(alloc, alias, prefix.0.names())?, prefix.1))?;
    }
    Ok(all)
}

/// The columns so far and then, under the alias, those of a row.
fn add_columns(
    alloc: Global,
    all: Vec<(Path, Value)>,
    columns: &[(Path, Value)],
    alias: &Name,
) -> Result<Vec<(Path, Value)>, AllocError>
    ensures { IfOk result (λ v. v.items ≡ all.items ++ map (under alias.now) columns.now) }
{
    let mut all = all;
    for column in columns {
        all.push((
            beneath(alloc, alias, column.0.names())?,
            column.1.seen().own(alloc)?,
        ))?;
    }
    Ok(all)
}
