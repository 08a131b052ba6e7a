//! Tables that are made of other tables: with more columns, or of some of their rows.
ghost use Rattle.std.specs.Prelude.{◌≡◌, ◌++◌, ◌<◌, ℕ, IfOk, get_or, length, map};
ghost use Rattle.std.specs.Arc.{arc_value};
ghost use Rattle.std.specs.List.{AllZip};
ghost use Rattle.row_frames.specs.Frames as spec;
ghost use Rattle.row_frames.specs.Gathered.{IsGathered, IsPartOf, IsColumnOf, IsWidened};

use crate::tables::{Column, Prefix, Roots, Table, bound_place, place_at, roots_set, value_at};
use std::alloc::{AllocError, Global};
use std::sync::Arc;

/// The same column, with the same list.
fn shared_column(alloc: Global, column: &Column) -> Result<Column, AllocError>
    ensures { (k : ℕ) → IfOk result (λ made. spec.column_at k made ≡ spec.column_at k column.now) }
{
    Ok(Column {
        path: column.path.copy(alloc)?,
        values: Arc::try_clone(&column.values)?,
    })
}

/// The columns, and then others with the same lists.
pub(crate) fn with_columns(
    alloc: Global,
    columns: Vec<Column>,
    others: &[Column],
) -> Result<Vec<Column>, AllocError>
    ensures { (k : ℕ) → IfOk result (λ all. map (spec.column_at k) all.items ≡ map (spec.column_at k) columns.items ++ map (spec.column_at k) others.now) }
{
    let mut all = columns;
    for other in others {
        all.push(shared_column(alloc, other)?)?;
    }
    Ok(all)
}

/// The table with these columns behind its own. No list is copied.
pub(crate) fn widened(alloc: Global, table: Table, columns: &[Column]) -> Result<Table, AllocError>
    ensures { IfOk result (IsWidened columns.now table) }
{
    let Table {
        roots,
        prefixes,
        columns: own,
    } = table;
    Ok(Table {
        roots,
        prefixes,
        columns: with_columns(alloc, own, columns)?,
    })
}

/// The place of the entity of a row in its set.
fn root_place(roots: &Roots, row: u32) -> u32
    ensures { result ≡ spec.place_in roots.now row }
{
    match roots {
        Roots::Without => row,
        Roots::Whole(_) => row,
        Roots::Listed(_, places) => place_at(places.as_slice(), row),
    }
}

/// The places of the entities of these rows.
fn root_places(alloc: Global, roots: &Roots, rows: &[u32]) -> Result<Vec<u32>, AllocError>
    ensures { IfOk result (λ made. made.items ≡ map (spec.place_in roots.now) rows.now) }
{
    let mut made = Vec::with_capacity(alloc, rows.len())?;
    for row in rows {
        made.push(root_place(roots, *row))?;
    }
    Ok(made)
}

/// The entities of these rows at the empty prefix.
fn gathered_roots(alloc: Global, roots: &Roots, rows: &[u32]) -> Result<Roots, AllocError>
    ensures { (k d : ℕ) → k < length rows.now → IfOk result (λ made. spec.root_at made k ≡ spec.root_at roots.now (get_or rows.now k d)) }
{
    match roots_set(roots) {
        Some(set) => {
            let places = root_places(alloc, roots, rows)?;
            Ok(Roots::Listed(set, Arc::new(alloc, places)?))
        }
        None => Ok(Roots::Without),
    }
}

/// What stands at a prefix in these rows.
fn gathered_prefix(alloc: Global, prefix: &Prefix, rows: &[u32]) -> Result<Prefix, AllocError>
    ensures { IfOk result (IsPartOf rows.now prefix.now) }
{
    let mut places = Vec::with_capacity(alloc, rows.len())?;
    for row in rows {
        places.push(bound_place(prefix, *row))?;
    }
    Ok(Prefix {
        path: prefix.path.copy(alloc)?,
        set: prefix.set,
        places: Arc::new(alloc, places)?,
    })
}

/// What stands at each prefix in these rows.
fn gathered_prefixes(
    alloc: Global,
    prefixes: &[Prefix],
    rows: &[u32],
) -> Result<Vec<Prefix>, AllocError>
    ensures { IfOk result (λ made. AllZip (IsPartOf rows.now) prefixes.now made.items) }
{
    let mut made = Vec::with_capacity(alloc, prefixes.len())?;
    for prefix in prefixes {
        made.push(gathered_prefix(alloc, prefix, rows)?)?;
    }
    Ok(made)
}

/// The values of a column in these rows.
fn gathered_column(alloc: Global, column: &Column, rows: &[u32]) -> Result<Column, AllocError>
    ensures { IfOk result (IsColumnOf rows.now column.now) }
{
    let mut values = Vec::with_capacity(alloc, rows.len())?;
    for row in rows {
        values.push(value_at(column, *row).own(alloc)?)?;
    }
    Ok(Column {
        path: column.path.copy(alloc)?,
        values: Arc::new(alloc, values)?,
    })
}

/// The values of each column in these rows.
fn gathered_columns(
    alloc: Global,
    columns: &[Column],
    rows: &[u32],
) -> Result<Vec<Column>, AllocError>
    ensures { IfOk result (λ made. AllZip (IsColumnOf rows.now) columns.now made.items) }
{
    let mut made = Vec::with_capacity(alloc, columns.len())?;
    for column in columns {
        made.push(gathered_column(alloc, column, rows)?)?;
    }
    Ok(made)
}

/// The table of these rows of a table.
pub(crate) fn gathered(alloc: Global, table: &Table, rows: &[u32]) -> Result<Table, AllocError>
    ensures { IfOk result (IsGathered rows.now table.now) }
{
    Ok(Table {
        roots: gathered_roots(alloc, &table.roots, rows)?,
        prefixes: gathered_prefixes(alloc, table.prefixes.as_slice(), rows)?,
        columns: gathered_columns(alloc, table.columns.as_slice(), rows)?,
    })
}
