//! Tables of columns that are given.
ghost use Rattle.std.specs.Prelude.{◌≡◌, [], ℕ, None, IfOk, IsTrue, length, map};
ghost use Rattle.std.specs.List.{All};
ghost use Rattle.edm_values.specs.Lists.{places as all_places};
ghost use Rattle.apply_meaning.specs.RowViews.{columns_differ};
ghost use Rattle.row_frames.specs.Columned.{given, row_across};
ghost use Rattle.row_frames.specs.Frames as spec;

use crate::picks::Picks;
use crate::tables::{Column, Roots, Table, one_table};
use apply_ast::Path;
use edm_values::Value;
use std::alloc::{AllocError, Global};
use std::sync::Arc;

/// The column of a path with its values.
fn given_column(alloc: Global, path: Path, values: Vec<Value>) -> Result<Column, AllocError>
    ensures { IfOk result (λ c. spec.listed c ≡ (path, values.items)) }
{
    Ok(Column {
        path,
        values: Arc::new(alloc, values)?,
    })
}

/// The columns of these paths, each with its values.
pub(crate) fn given_columns(
    alloc: Global,
    columns: Vec<(Path, Vec<Value>)>,
) -> Result<Vec<Column>, AllocError>
    ensures { IfOk result (λ cs. map spec.listed cs.items ≡ given columns.items) }
{
    let mut made = Vec::with_capacity(alloc, columns.len())?;
    for (path, values) in columns {
        made.push(given_column(alloc, path, values)?)?;
    }
    Ok(made)
}

/// A table of these columns alone.
fn columned_table(alloc: Global, columns: Vec<Column>) -> Table
    ensures roots { (k : ℕ) → spec.root_at result.roots k ≡ None }
    ensures prefixes { (k : ℕ) → spec.prefixes_at result k ≡ [] }
    ensures columns { result.columns.items ≡ columns.items }
{
    Table {
        roots: Roots::Without,
        prefixes: Vec::new(alloc),
        columns,
    }
}

/// The table of these columns alone, in a list.
pub(crate) fn columned_tables(
    alloc: Global,
    columns: Vec<(Path, Vec<Value>)>,
) -> Result<Vec<Table>, AllocError>
    requires { IsTrue (columns_differ (row_across (given columns.items) 0).columns) }
    ensures tables { IfOk result (λ ts. All spec.IsTable ts.items) }
    ensures one { IfOk result (λ ts. length ts.items ≡ 1) }
    ensures rows { (k : ℕ) → IfOk result (λ ts. spec.picked ts.items (spec.first_pick k) ≡ row_across (given columns.items) k) }
{
    let columns = given_columns(alloc, columns)?;
    one_table(alloc, columned_table(alloc, columns))
}

/// The first `n` rows of the first table. An error also where they are more than 2^32.
pub(crate) fn row_picks(n: usize) -> Result<Picks, AllocError>
    ensures { IfOk result (λ xs. xs ≡ map spec.first_pick (all_places n)) }
{
    match u32::try_from(n) {
        Ok(n) => Ok(Picks::of_first(n)),
        Err(_) => Err(AllocError),
    }
}
