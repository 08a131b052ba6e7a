//! New columns: the values of expressions in the rows that are picked.
ghost use Rattle.std.specs.Prelude.{◌≡◌, ◌<◌, ◌==◌, ◌∷◌, [], ℕ, true, IfOk, IsTrue, length, map};
ghost use Rattle.std.specs.Arc.{arc_value};
ghost use Rattle.std.specs.Bool.{OnTrue};
ghost use Rattle.std.specs.List.{All, AllZip, list_any};
ghost use Rattle.apply_ast.specs.Views.{expr_of};
ghost use Rattle.apply_meaning.specs.Meaning.{values};
ghost use Rattle.apply_meaning.specs.Running.{all_of};
ghost use Rattle.row_frames.specs.Frames as spec;
ghost use Rattle.row_frames.specs.Runs.{run_rows};
ghost use Rattle.row_frames.specs.Gathered.{AreComputed, AreInOrder, IsComputed, IsGathered, at_row as spec_at_row, in_order as ordered};

use crate::gathered::{gathered, widened};
use crate::picks::{Part, Picks, Run};
use crate::tables::{Column, Pick, Table};
use crate::values::values_of;
use apply_ast::Named;
use apply_meaning::path_of;
use edm_data::Data;
use std::alloc::{AllocError, Global};
use std::sync::Arc;
use std::thread::Threads;

/// The new column of an item, with its value in each row that is picked. The picks may be cut into so many parts, each for a thread
/// of its own.
fn new_column<R: Threads + Sync>(
    rt: &R,
    alloc: Global,
    store: &Data,
    tables: &[Table],
    item: &Named,
    picks: &Picks,
    workers: u32,
) -> Result<Column, AllocError>
    requires tables { All spec.IsTable tables.now }
    requires within { All (λ x. x.table < length tables.now) picks.now }
    requires of { IsTrue (all_of store.now (spec.all_picked tables.now picks.now)) }
    ensures { IfOk result (λ c. spec.listed c ≡ (item.now.name ∷ [], values store.now (expr_of item.now.expr) (spec.all_picked tables.now picks.now))) }
{
    let values = values_of(rt, alloc, store, tables, &item.expr, picks, workers)?;
    Ok(Column {
        path: path_of(alloc, &item.name)?.copy(alloc)?,
        values: Arc::new(alloc, values)?,
    })
}

/// The new columns, each with its value in each row that is picked. The picks may be cut into so many parts, each for a thread of
/// its own.
pub(crate) fn new_columns<R: Threads + Sync>(
    rt: &R,
    alloc: Global,
    store: &Data,
    tables: &[Table],
    items: &[Named],
    picks: &Picks,
    workers: u32,
) -> Result<Vec<Column>, AllocError>
    requires tables { All spec.IsTable tables.now }
    requires within { All (λ x. x.table < length tables.now) picks.now }
    requires of { IsTrue (all_of store.now (spec.all_picked tables.now picks.now)) }
    ensures { IfOk result (λ cs. map spec.listed cs.items ≡ map (λ x. (x.name ∷ [], values store.now (expr_of x.expr) (spec.all_picked tables.now picks.now))) items.now) }
{
    let mut columns = Vec::with_capacity(alloc, items.len())?;
    for item in items {
        columns.push(new_column(rt, alloc, store, tables, item, picks, workers)?)?;
    }
    Ok(columns)
}

/// Whether row k belongs to pick k, for each of a list.
fn are_listed_in_order(picks: &[Pick]) -> bool
    ensures { OnTrue result (AreInOrder picks.now) }
{
    for (k, pick) in picks.iter().enumerate() {
        if pick.row as usize != k {
            return false;
        }
    }
    true
}

/// Whether row k belongs to pick k, for each.
fn are_in_order(picks: &Picks) -> bool
    ensures { OnTrue result (AreInOrder picks.now) }
{
    match picks.as_part() {
        Part::Run(run) => run.from == 0,
        Part::List(list) => are_listed_in_order(list),
    }
}

/// The numbers of the rows that are picked.
fn picked_numbers(alloc: Global, picks: &[Pick]) -> Result<Vec<u32>, AllocError>
    ensures { IfOk result (λ rows. rows.items ≡ map (λ x. x.row) picks.now) }
{
    let mut rows = Vec::with_capacity(alloc, picks.len())?;
    for pick in picks {
        rows.push(pick.row)?;
    }
    Ok(rows)
}

/// Row k of the table of a pick.
fn at_row(pick: Pick, k: usize) -> Result<Pick, AllocError>
    ensures { IfOk result (λ made. made ≡ spec_at_row k pick) }
{
    match u32::try_from(k) {
        Ok(row) => Ok(Pick {
            table: pick.table,
            row,
        }),
        Err(_) => Err(AllocError),
    }
}

/// Picks of the same tables, of which pick k is of row k.
fn picks_in_order(alloc: Global, picks: &[Pick]) -> Result<Vec<Pick>, AllocError>
    ensures { IfOk result (λ made. made.items ≡ ordered 0 picks.now) }
{
    let mut made = Vec::with_capacity(alloc, picks.len())?;
    for (k, pick) in picks.iter().enumerate() {
        made.push(at_row(*pick, k)?)?;
    }
    Ok(made)
}

/// For each table, the table of these of its rows.
fn gathered_tables(alloc: Global, tables: &[Table], rows: &[u32]) -> Result<Vec<Table>, AllocError>
    ensures { IfOk result (λ made. AllZip (IsGathered rows.now) tables.now made.items) }
{
    let mut made = Vec::with_capacity(alloc, tables.len())?;
    for table in tables {
        made.push(gathered(alloc, table, rows)?)?;
    }
    Ok(made)
}

/// Tables and picks of the same instances, of which pick k is of row k: the tables are made.
fn gathered_in_order(
    alloc: Global,
    tables: &[Table],
    picks: &[Pick],
) -> Result<(Vec<Table>, Vec<Pick>), AllocError>
    requires tables { All spec.IsTable tables.now }
    requires within { All (λ x. x.table < length tables.now) picks.now }
    ensures tables { IfOk result (λ made. All spec.IsTable made.0.items) }
    ensures within { IfOk result (λ made. All (λ x. x.table < length made.0.items) made.1.items) }
    ensures order { IfOk result (λ made. AreInOrder made.1.items) }
    ensures picked { IfOk result (λ made. spec.all_picked made.0.items made.1.items ≡ spec.all_picked tables.now picks.now) }
{
    let rows = picked_numbers(alloc, picks)?;
    let made = gathered_tables(alloc, tables, rows.as_slice())?;
    Ok((made, picks_in_order(alloc, picks)?))
}

/// Tables and picks of the same instances, of which pick k is of row k.
pub(crate) fn rows_in_order(
    alloc: Global,
    tables: Vec<Table>,
    picks: Picks,
) -> Result<(Vec<Table>, Picks), AllocError>
    requires tables { All spec.IsTable tables.items }
    requires within { All (λ x. x.table < length tables.items) picks }
    ensures tables { IfOk result (λ made. All spec.IsTable made.0.items) }
    ensures within { IfOk result (λ made. All (λ x. x.table < length made.0.items) made.1) }
    ensures order { IfOk result (λ made. AreInOrder made.1) }
    ensures picked { IfOk result (λ made. spec.all_picked made.0.items made.1 ≡ spec.all_picked tables.items picks) }
{
    if are_in_order(&picks) {
        return Ok((tables, picks));
    }
    let list = picks.into_list(alloc)?;
    let (made, rows) = gathered_in_order(alloc, tables.as_slice(), list.as_slice())?;
    Ok((made, Picks::of_list(rows)))
}

/// Whether a row of table n is in a run.
fn run_has_pick(run: Run, n: usize) -> bool
    ensures { result ≡ list_any (λ x. x.table == n) (run_rows run) }
{
    if n == 0 {
        return run.len() > 0;
    }
    false
}

/// Whether a row of table n is in a list.
fn list_has_pick(picks: &[Pick], n: usize) -> bool
    ensures { result ≡ list_any (λ x. x.table == n) picks.now }
{
    picks.iter().any(
        |pick: &Pick| -> bool
            ensures { result ≡ (pick.now.table == n) }
        { pick.table as usize == n },
    )
}

/// Whether a row of table n is picked.
fn has_pick(picks: &Picks, n: usize) -> bool
    ensures { result ≡ list_any (λ x. x.table == n) picks.now }
{
    match picks.as_part() {
        Part::Run(run) => run_has_pick(run, n),
        Part::List(list) => list_has_pick(list, n),
    }
}

/// Table n with these columns behind its own, where a row of it is picked.
fn computed_table(
    alloc: Global,
    table: Table,
    n: usize,
    picks: &Picks,
    columns: &[Column],
) -> Result<Table, AllocError>
    ensures { IfOk result (IsComputed picks.now columns.now n table) }
{
    if has_pick(picks, n) {
        return widened(alloc, table, columns);
    }
    Ok(table)
}

/// Each table with these columns behind its own, where a row of it is picked.
pub(crate) fn computed_tables(
    alloc: Global,
    tables: Vec<Table>,
    picks: &Picks,
    columns: &[Column],
) -> Result<Vec<Table>, AllocError>
    ensures { IfOk result (λ made. AreComputed picks.now columns.now 0 tables.items made.items) }
{
    let mut made = Vec::with_capacity(alloc, tables.len())?;
    for table in tables {
        let n = made.len();
        made.push(computed_table(alloc, table, n, picks, columns)?)?;
    }
    Ok(made)
}
