//! Values on rows, borrowed from where they stand.
ghost use Rattle.std.specs.Prelude.{◌≡◌, ◌<◌, ℕ, IfOk, IsTrue, length, map};
ghost use Rattle.edm_values.specs.Values.{seen_value};
ghost use Rattle.rayon.specs.Numbers.{nat_range};
ghost use Rattle.apply_ast.specs.Views.{expr_of};
ghost use Rattle.apply_meaning.specs.Meaning.{values};
ghost use Rattle.apply_meaning.specs.Running.{all_of};
ghost use Rattle.row_frames.specs.Keys.{key_column, key_columns, seen_columns};
ghost use Rattle.row_values.specs.Readers as spec;

use crate::parts::{is_one_part, part_len};
use apply_ast::{Expr, Path};
use apply_meaning::{Row, eval, lookup};
use edm_data::Data;
use edm_values::Seen;
use rayon::prelude::*;
use std::alloc::{AllocError, Global};
use std::thread::Threads;

/// What is read of each row.
#[derive(Clone, Copy, Drop)]
pub(crate) enum Asked<'a> {
    Expr(&'a Expr),
    Path(&'a Path),
}

/// Rows over data, and what is read of each.
#[derive(Drop)]
pub(crate) struct RowReader<'a> {
    store: &'a Data,
    rows: &'a [Row],
    asked: Asked<'a>,
}

/// The value on row k.
fn seen_at<'a>(reader: &RowReader<'a>, k: usize) -> Seen<'a>
    requires { spec.CanRead reader.now k }
    ensures { seen_value result ≡ spec.value_at reader.now k }
{
    let row = &reader.rows[k];
    match reader.asked {
        Asked::Expr(e) => eval(reader.store, row, e),
        Asked::Path(path) => lookup(reader.store, row, path),
    }
}

/// The value on each of the first n rows, worked out in parts.
fn seen_in_parts<'a, R: Threads + Sync>(
    rt: &R,
    alloc: Global,
    reader: &RowReader<'a>,
    n: usize,
    workers: u32,
) -> Result<Vec<Seen<'a>>, AllocError>
    requires some { 0 < workers }
    requires readable { (k : ℕ) → k < n → spec.CanRead reader.now k }
    ensures { IfOk result (λ vs. map (λ v. seen_value v) vs.items ≡ map (spec.value_at reader.now) (nat_range 0 n)) }
{
    (0..n)
        .into_par_iter()
        .with_min_len(part_len(n, workers))
        .map(
            |k: usize| -> Seen
                requires { spec.CanRead reader.now k }
                ensures { seen_value result ≡ spec.value_at reader.entry.now k }
            { seen_at(reader, k) },
        )
        .collect(rt, alloc)
}

/// The value of an expression on each row, one after the other.
fn values_in_turn<'a>(
    alloc: Global,
    store: &'a Data,
    e: &'a Expr,
    rows: &'a [Row],
) -> Result<Vec<Seen<'a>>, AllocError>
    requires { IsTrue (all_of store.now rows.now) }
    ensures { IfOk result (λ vs. map (λ v. seen_value v) vs.items ≡ values store.now (expr_of e.now) rows.now) }
{
    let mut seen = Vec::with_capacity(alloc, rows.len())?;
    for row in rows {
        seen.push(eval(store, row, e))?;
    }
    Ok(seen)
}

/// The values of an expression on rows. The rows may be cut into so many parts, each for a thread of its own.
pub(crate) fn seen_of<'a, R: Threads + Sync>(
    rt: &R,
    alloc: Global,
    store: &'a Data,
    e: &'a Expr,
    rows: &'a [Row],
    workers: u32,
) -> Result<Vec<Seen<'a>>, AllocError>
    requires some { 0 < workers }
    requires of { IsTrue (all_of store.now rows.now) }
    ensures { IfOk result (λ vs. map (λ v. seen_value v) vs.items ≡ values store.now (expr_of e.now) rows.now) }
{
    if is_one_part(rows.len(), workers) {
        return values_in_turn(alloc, store, e, rows);
    }
    let asked = Asked::Expr(e);
    let reader = RowReader { store, rows, asked };
    seen_in_parts(rt, alloc, &reader, rows.len(), workers)
}

/// The value of a path on each row, one after the other.
fn column_in_turn<'a>(
    alloc: Global,
    store: &'a Data,
    path: &Path,
    rows: &'a [Row],
) -> Result<Vec<Seen<'a>>, AllocError>
    requires { IsTrue (all_of store.now rows.now) }
    ensures { IfOk result (λ c. map (λ v. seen_value v) c.items ≡ key_column store.now rows.now path.now) }
{
    let mut seen = Vec::with_capacity(alloc, rows.len())?;
    for row in rows {
        seen.push(lookup(store, row, path))?;
    }
    Ok(seen)
}

/// The value of a path on each row. The rows may be cut into so many parts, each for a thread of its own.
fn key_column_of<'a, R: Threads + Sync>(
    rt: &R,
    alloc: Global,
    store: &'a Data,
    path: &'a Path,
    rows: &'a [Row],
    workers: u32,
) -> Result<Vec<Seen<'a>>, AllocError>
    requires some { 0 < workers }
    requires of { IsTrue (all_of store.now rows.now) }
    ensures { IfOk result (λ c. map (λ v. seen_value v) c.items ≡ key_column store.now rows.now path.now) }
{
    if is_one_part(rows.len(), workers) {
        return column_in_turn(alloc, store, path, rows);
    }
    let asked = Asked::Path(path);
    let reader = RowReader { store, rows, asked };
    seen_in_parts(rt, alloc, &reader, rows.len(), workers)
}

/// The values of the paths on rows, a list for each path. The rows may be cut into so many parts, each for a thread of its own.
pub(crate) fn key_columns_of<'a, R: Threads + Sync>(
    rt: &R,
    alloc: Global,
    store: &'a Data,
    paths: &'a [Path],
    rows: &'a [Row],
    workers: u32,
) -> Result<Vec<Vec<Seen<'a>>>, AllocError>
    requires some { 0 < workers }
    requires of { IsTrue (all_of store.now rows.now) }
    ensures { IfOk result (λ cs. seen_columns cs.items ≡ key_columns store.now paths.now rows.now) }
{
    let mut columns = Vec::with_capacity(alloc, paths.len())?;
    for path in paths {
        columns.push(key_column_of(rt, alloc, store, path, rows, workers)?)?;
    }
    Ok(columns)
}
