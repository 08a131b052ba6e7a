//! Groups of rows, and what a method gives on their values.
ghost use Rattle.std.specs.Prelude.{◌≡◌, ◌<◌, ◌≤◌, IfOk, IsTrue, length, map};
ghost use Rattle.aggregate_ops.specs.Columns.{column_values};
ghost use Rattle.aggregate_ops.specs.KeyTables.{groups_of};
ghost use Rattle.aggregate_ops.specs.Partials.{AreFoldable};
ghost use Rattle.apply_ast.specs.Views.{expr_of};
ghost use Rattle.apply_meaning.specs.Instances.{lookup};
ghost use Rattle.apply_meaning.specs.Meaning.{key_list, values};
ghost use Rattle.apply_meaning.specs.Running.{all_of};
ghost use Rattle.par_stages.specs.Placed.{placed};
ghost use Rattle.custom_agg.specs.CustomValues.{are_within, results_at};

use aggregate_ops::{Groups, aggregate_places, column_groups};
use apply_ast::{Expr, Path};
use edm_data::Data;
use edm_values::{Method, Seen, Value};
use par_stages::Gate;
use row_values::PlacedRows;
use std::alloc::{AllocError, Global};
use std::thread::Threads;

/// The values of each path on rows, a column for each path. References are taken where they stand, so that the values borrow all
/// of them for one time.
fn row_columns<'s, R: Threads + Sync>(
    rt: &R,
    alloc: Global,
    store: &'s &Data,
    paths: &'s &[Path],
    rows: &'s &PlacedRows<'_>,
    workers: u32,
) -> Result<Vec<Vec<Seen<'s>>>, AllocError>
    requires some { 0 < workers }
    requires of { IsTrue (all_of store.now.now rows.now.now) }
    ensures { IfOk result (λ columns. map column_values columns.items ≡ map (λ p. map (λ i. lookup store.now.now i p) rows.now.now) paths.now.now) }
{
    rows.key_columns(rt, alloc, *store, *paths, workers)
}

/// The groups of rows by paths, in order of first appearance, each with the places of its rows.
pub(crate) fn groups_by<R: Threads + Sync, G: Gate>(
    rt: &R,
    alloc: Global,
    store: &Data,
    paths: &[Path],
    rows: &PlacedRows<'_>,
    workers: u32,
    gate: &G,
) -> Result<Groups, AllocError>
    requires some { 0 < workers }
    requires few { workers ≤ 64 }
    requires of { IsTrue (all_of store.now rows.now) }
    ensures { IfOk result (λ found. found ≡ groups_of (placed 0 (map (key_list store.now paths.now) rows.now))) }
{
    let columns = row_columns(rt, alloc, &store, &paths, &rows, workers)?;
    let seen = columns.as_slice();
    column_groups(rt, alloc, seen, rows.len(), workers, gate)
}

/// What a method gives on the values of an expression on the rows of each group. The values are worked out once for all groups, in
/// parts where there are several workers. Groups are many and often small, so each is one piece.
pub(crate) fn group_values<R: Threads + Sync, G: Gate>(
    rt: &R,
    alloc: Global,
    store: &Data,
    e: &Expr,
    method: Method,
    rows: &PlacedRows<'_>,
    groups: &Groups,
    workers: u32,
    gate: &G,
) -> Result<Vec<Value>, AllocError>
    requires some { 0 < workers }
    requires of { IsTrue (all_of store.now rows.now) }
    requires within { IsTrue (are_within (length rows.now) groups.now) }
    requires foldable { AreFoldable method (values store.now (expr_of e.now) rows.now) }
    ensures { IfOk result (λ vs. vs.items ≡ results_at store.now (expr_of e.now) method rows.now groups.now) }
{
    let all = rows.values(rt, alloc, store, e, workers)?;
    let all = all.as_slice();
    let mut results = Vec::with_capacity(alloc, groups.len())?;
    for k in 0..groups.len() {
        results.push(aggregate_places(rt, alloc, method, all, groups.places(k), gate)?)?;
    }
    Ok(results)
}
