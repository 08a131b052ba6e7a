//! What is made of the groups of rows.
ghost use Rattle.std.specs.Prelude.{◌≡◌, ◌+◌, ◌≤◌, ◌++◌, true, IsTrue, IfOk, map, flat_map, length, nat_lt};
ghost use Rattle.std.specs.List.{list_all};
ghost use Rattle.apply_meaning.specs.Instances.{extended};
ghost use Rattle.apply_meaning.specs.Meaning.{keyed};
ghost use Rattle.apply_meaning.specs.RowViews.{columns_differ};
ghost use Rattle.step_run.specs.Levels.{level_rows};

use crate::levels::Level;
use apply_ast::Path;
use apply_meaning::{Row, Steps};
use edm_values::Value;
use std::alloc::{AllocError, Global};
use std::sync::ledger::Ledger;

/// The columns of a key list.
pub(crate) fn key_columns(
    alloc: Global,
    paths: &[Path],
    key: &[Value],
) -> Result<Vec<(Path, Value)>, AllocError>
    ensures { IfOk result (λ cs. cs.items ≡ keyed paths.now key.now) }
{
    let mut columns = Vec::with_capacity(alloc, paths.len())?;
    for (path, value) in paths.iter().zip(key) {
        columns.push((path.copy(alloc)?, value.seen().own(alloc)?))?;
    }
    Ok(columns)
}

/// The results of a group, each with the columns of its key.
pub fn with_keys<L: Ledger>(
    alloc: Global,
    paths: &[Path],
    key: &[Value],
    results: Vec<Row>,
    steps: &mut Steps<L>,
) -> Result<Vec<Row>, AllocError>
    requires free { IsTrue (list_all (λ r. columns_differ (extended r (keyed paths.now key.now)).columns) results.items) }
    ensures rows { IfOk result (λ v. v.items ≡ map (λ r. extended r (keyed paths.now key.now)) results.items) }
    ensures steps { steps.new ≤ steps.old + length results.items }
    ensures grown { steps.old ≤ steps.new }
{
    let mut all = Vec::with_capacity(alloc, results.len())?;
    for row in results {
        let columns = key_columns(alloc, paths, key)?;
        all.push(row.extend(columns, steps)?)?;
    }
    Ok(all)
}

/// The rows so far and then one for each group of a level, which has the columns of its key alone: one step a group.
fn add_keys<L: Ledger>(
    alloc: Global,
    all: Vec<Row>,
    level: &Level<'_>,
    steps: &mut Steps<L>,
) -> Result<Vec<Row>, AllocError>
    requires differ { IsTrue (list_all (λ g. columns_differ (keyed level.now.0 g.0)) level.now.1) }
    ensures rows { IfOk result (λ v. v.items ≡ all.items ++ level_rows level.now) }
    ensures steps { steps.new ≤ steps.old + length level.now.1 }
    ensures grown { steps.old ≤ steps.new }
{
    let mut all = all;
    for k in 0..level.len() {
        let key = level.key(alloc, k)?;
        let columns = key_columns(alloc, level.paths(), key.as_slice())?;
        all.push(Row::make(alloc, Vec::new(alloc), None, columns, steps)?)?;
    }
    Ok(all)
}

/// One row for each group of each level, which has the columns of its key alone: one step a row.
pub fn key_rows<L: Ledger>(
    alloc: Global,
    levels: &[Level<'_>],
    steps: &mut Steps<L>,
) -> Result<Vec<Row>, AllocError>
    requires differ { IsTrue (list_all (λ level. list_all (λ g. columns_differ (keyed level.0 g.0)) level.1) levels.now) }
    ensures rows { IfOk result (λ v. v.items ≡ flat_map level_rows levels.now) }
    ensures steps { steps.new ≤ steps.old + length (flat_map level_rows levels.now) }
    ensures grown { steps.old ≤ steps.new }
{
    let mut all = Vec::new(alloc);
    for level in levels {
        all = add_keys(alloc, all, level, steps)?;
    }
    Ok(all)
}
