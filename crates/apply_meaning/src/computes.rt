//! Computations: each row is extended by new columns.
ghost use Rattle.std.specs.Prelude.{◌≡◌, ◌+◌, ◌≤◌, ◌∷◌, [], IsTrue, IfOk, map, length};
ghost use Rattle.apply_ast.specs.Views.{named_of};
ghost use Rattle.apply_meaning.specs.Instances.{extended};
ghost use Rattle.apply_meaning.specs.RowViews.{is_of};
ghost use Rattle.apply_meaning.specs.Running.{all_of, all_free, new_columns};

use crate::aggregations::path_of;
use crate::{Row, Steps, eval};
use apply_ast::{Named, Path};
use edm_data::Data;
use edm_values::Value;
use std::alloc::{AllocError, Global};
use std::sync::ledger::Ledger;

/// The paths of the new columns, each of which its copies share.
fn new_paths(alloc: Global, items: &[Named]) -> Result<Vec<Path>, AllocError>
    ensures { IfOk result (λ ps. ps.items ≡ map (λ x. x.name ∷ []) items.now) }
{
    let mut paths = Vec::with_capacity(alloc, items.len())?;
    for item in items {
        paths.push(path_of(alloc, &item.name)?.copy(alloc)?)?;
    }
    Ok(paths)
}

/// The new columns of a row.
fn computed(
    alloc: Global,
    store: &Data,
    row: &Row,
    items: &[Named],
    paths: &[Path],
) -> Result<Vec<(Path, Value)>, AllocError>
    requires of { IsTrue (is_of store.now row.now) }
    requires paths { paths.now ≡ map (λ x. x.name ∷ []) items.now }
    ensures { IfOk result (λ cs. cs.items ≡ new_columns store.now (map named_of items.now) row.now) }
{
    let mut columns = Vec::with_capacity(alloc, items.len())?;
    for (k, item) in items.iter().enumerate() {
        let path = paths[k].copy(alloc)?;
        columns.push((path, eval(store, row, &item.expr).own(alloc)?))?;
    }
    Ok(columns)
}

/// Each row with its new columns: one step a row.
pub fn compute_rows<L: Ledger>(
    alloc: Global,
    store: &Data,
    items: &[Named],
    rows: Vec<Row>,
    steps: &mut Steps<L>,
) -> Result<Vec<Row>, AllocError>
    requires of { IsTrue (all_of store.now rows.items) }
    requires free { IsTrue (all_free store.now (map named_of items.now) rows.items) }
    ensures rows { let ns = map named_of items.now in IfOk result (λ made. made.items ≡ map (λ i. extended i (new_columns store.now ns i)) rows.items) }
    ensures each { IfOk result (λ made. steps.new ≡ steps.old + length rows.items) }
    ensures steps { steps.new ≤ steps.old + length rows.items }
    ensures grown { steps.old ≤ steps.new }
{
    let paths = new_paths(alloc, items)?;
    let mut made = Vec::with_capacity(alloc, rows.len())?;
    for row in rows {
        let columns = computed(alloc, store, &row, items, paths.as_slice())?;
        made.push(row.extend(columns, steps)?)?;
    }
    Ok(made)
}
