//! Computations: each row is extended by new columns. Their values are worked out in parts; the rows are made by the thread that
//! called.
ghost use Rattle.std.specs.Prelude.{◌≡◌, ◌+◌, ◌≤◌, ◌<◌, ◌∷◌, [], All, IfOk, IsTrue, length, map};
ghost use Rattle.apply_ast.specs.Views.{expr_of, named_of};
ghost use Rattle.apply_meaning.specs.Instances.{extended};
ghost use Rattle.apply_meaning.specs.Meaning.{values};
ghost use Rattle.apply_meaning.specs.Running.{all_free, all_of, new_columns};
ghost use Rattle.row_values.specs.Columns as spec;

use crate::parts::is_one_part;
use crate::values::values_in_parts;
use apply_ast::{Named, Path};
use apply_meaning::{Row, Steps, compute_rows as compute_in_turn, path_of};
use edm_data::Data;
use edm_values::Value;
use std::alloc::{AllocError, Global};
use std::sync::ledger::Ledger;
use std::thread::Threads;

/// The paths of the new columns, each of which its copies share.
fn new_paths(alloc: Global, items: &[Named]) -> Result<Vec<Path>, AllocError>
    ensures { IfOk result (λ ps. ps.items ≡ map (λ x. x.name ∷ []) items.now) }
{
    let mut paths = Vec::with_capacity(alloc, items.len())?;
    for item in items {
        paths.push(path_of(alloc, &item.name)?.copy(alloc)?)?;
    }
    Ok(paths)
}

/// The values of each new column, one list for each.
fn column_values<R: Threads + Sync>(
    rt: &R,
    alloc: Global,
    store: &Data,
    items: &[Named],
    rows: &[Row],
    workers: u32,
) -> Result<Vec<Vec<Value>>, AllocError>
    requires some { 0 < workers }
    requires of { IsTrue (all_of store.now rows.now) }
    ensures { IfOk result (λ lists. map (λ l. l.items) lists.items ≡ map (λ x. values store.now (expr_of x.expr) rows.now) items.now) }
{
    let mut lists = Vec::with_capacity(alloc, items.len())?;
    for item in items {
        lists.push(values_in_parts(rt, alloc, store, &item.expr, rows, workers)?)?;
    }
    Ok(lists)
}

/// The columns of these paths, each with its value at a place.
fn columns_at(
    alloc: Global,
    paths: &[Path],
    lists: &[Vec<Value>],
    at: usize,
) -> Result<Vec<(Path, Value)>, AllocError>
    requires lists { length lists.now ≡ length paths.now }
    requires within { All (λ l. at < length l.items) lists.now }
    ensures { IfOk result (λ cs. cs.items ≡ spec.columns_at paths.now (map (λ l. l.items) lists.now) at) }
{
    let mut columns = Vec::with_capacity(alloc, paths.len())?;
    for (k, path) in paths.iter().enumerate() {
        let value = lists[k][at].seen().own(alloc)?;
        columns.push((path.copy(alloc)?, value))?;
    }
    Ok(columns)
}

/// Each row with its new columns, whose values are worked out in parts: one step a row.
fn compute_in_parts<R: Threads + Sync, L: Ledger>(
    rt: &R,
    alloc: Global,
    store: &Data,
    items: &[Named],
    rows: Vec<Row>,
    workers: u32,
    steps: &mut Steps<L>,
) -> Result<Vec<Row>, AllocError>
    requires some { 0 < workers }
    requires of { IsTrue (all_of store.now rows.items) }
    requires free { IsTrue (all_free store.now (map named_of items.now) rows.items) }
    ensures rows { let ns = map named_of items.now in IfOk result (λ made. made.items ≡ map (λ i. extended i (new_columns store.now ns i)) rows.items) }
    ensures each { IfOk result (λ made. steps.new ≡ steps.old + length rows.items) }
    ensures steps { steps.new ≤ steps.old + length rows.items }
    ensures grown { steps.old ≤ steps.new }
{
    let paths = new_paths(alloc, items)?;
    let lists = column_values(rt, alloc, store, items, rows.as_slice(), workers)?;
    let mut made = Vec::with_capacity(alloc, rows.len())?;
    for (k, row) in rows.into_iter().enumerate() {
        let columns = columns_at(alloc, paths.as_slice(), lists.as_slice(), k)?;
        made.push(row.extend(columns, steps)?)?;
    }
    Ok(made)
}

/// Each row with its new columns: one step a row. The rows may be cut into so many parts, each for a thread of its own, which works
/// out values; this one makes the rows.
pub fn compute_rows<R: Threads + Sync, L: Ledger>(
    rt: &R,
    alloc: Global,
    store: &Data,
    items: &[Named],
    rows: Vec<Row>,
    workers: u32,
    steps: &mut Steps<L>,
) -> Result<Vec<Row>, AllocError>
    requires some { 0 < workers }
    requires of { IsTrue (all_of store.now rows.items) }
    requires free { IsTrue (all_free store.now (map named_of items.now) rows.items) }
    ensures rows { let ns = map named_of items.now in IfOk result (λ made. made.items ≡ map (λ i. extended i (new_columns store.now ns i)) rows.items) }
    ensures each { IfOk result (λ made. steps.new ≡ steps.old + length rows.items) }
    ensures steps { steps.new ≤ steps.old + length rows.items }
    ensures grown { steps.old ≤ steps.new }
{
    if is_one_part(rows.len(), workers) {
        return compute_in_turn(alloc, store, items, rows, steps);
    }
    compute_in_parts(rt, alloc, store, items, rows, workers, steps)
}
