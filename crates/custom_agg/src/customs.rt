//! The values of custom aggregates.
ghost use Rattle.std.specs.Prelude.{◌≡◌, ◌<◌, ◌≤◌, Some, IfOk, IsTrue, is_some};
ghost use Rattle.aggregate_ops.specs.Partials.{AreFoldable};
ghost use Rattle.apply_ast.specs.Views.{expr_of};
ghost use Rattle.apply_meaning.specs.Aggregates.{aggregate};
ghost use Rattle.apply_meaning.specs.Meaning as spec;
ghost use Rattle.apply_meaning.specs.Running.{all_of};
ghost use Rattle.edm_model.specs.LookUps.{IsCustom};
ghost use Rattle.context_typing.specs.Readings.{AreTypedOver, typed_at};
ghost use Rattle.custom_agg.specs.CustomValues.{group_results, value_by_id, HaveRoot};

use crate::definitions::definition;
use crate::groups::{group_values, groups_by};
use crate::numbered::numbered_results;
use aggregate_ops::aggregate_values;
use apply_ast::{Expr, Path};
use apply_meaning::{Row, data_is_loaded};
use context_typing::{Customs, ReadCustom};
use edm_data::Data;
use edm_model::CustomId;
use edm_values::{Method, Value};
use par_stages::Gate;
use row_values::{PlacedRows, RowList};
use std::alloc::{AllocError, Global};
use std::thread::Threads;

/// What a method gives on the values of an expression on all rows.
fn over_all<R: Threads + Sync, G: Gate>(
    rt: &R,
    alloc: Global,
    store: &Data,
    e: &Expr,
    method: Method,
    rows: &PlacedRows<'_>,
    workers: u32,
    gate: &G,
) -> Result<Value, AllocError>
    requires some { 0 < workers }
    requires few { workers ≤ 64 }
    requires of { IsTrue (all_of store.now rows.now) }
    requires foldable { AreFoldable method (spec.values store.now (expr_of e.now) rows.now) }
    ensures { IfOk result (λ v. v ≡ aggregate method (spec.values store.now (expr_of e.now) rows.now)) }
{
    rows.aggregate(rt, alloc, store, e, method, workers, gate)
}

/// What a method gives on the values of an expression on the rows of each group by paths, in order of first appearance.
fn results_by<R: Threads + Sync, G: Gate>(
    rt: &R,
    alloc: Global,
    store: &Data,
    e: &Expr,
    method: Method,
    paths: &[Path],
    rows: &PlacedRows<'_>,
    workers: u32,
    gate: &G,
) -> Result<Vec<Value>, AllocError>
    requires some { 0 < workers }
    requires few { workers ≤ 64 }
    requires of { IsTrue (all_of store.now rows.now) }
    requires foldable { AreFoldable method (spec.values store.now (expr_of e.now) rows.now) }
    ensures { IfOk result (λ vs. vs.items ≡ group_results store.now (expr_of e.now) method paths.now rows.now) }
{
    if let Some(list) = rows.whole() {
        return numbered_results(rt, alloc, store, e, method, paths, list, workers, gate);
    }
    let groups = groups_by(rt, alloc, store, paths, rows, workers, gate)?;
    group_values(rt, alloc, store, e, method, rows, &groups, workers, gate)
}

/// What an outer method gives on the results of a method on the groups of the rows by the paths of a reading.
fn over_groups<R: Threads + Sync, G: Gate>(
    rt: &R,
    alloc: Global,
    store: &Data,
    read: &ReadCustom,
    method: Method,
    outer: Method,
    rows: &PlacedRows<'_>,
    workers: u32,
    gate: &G,
) -> Result<Value, AllocError>
    requires some { 0 < workers }
    requires few { workers ≤ 64 }
    requires of { IsTrue (all_of store.now rows.now) }
    requires foldable { AreFoldable method (spec.values store.now (expr_of read.now.of) rows.now) }
    requires results { AreFoldable outer (group_results store.now (expr_of read.now.of) method read.now.per rows.now) }
    ensures { IfOk result (λ v. v ≡ aggregate outer (group_results store.now (expr_of read.now.of) method read.now.per rows.now)) }
{
    let paths = read.per.as_slice();
    let results = results_by(
        rt, alloc, store, &read.of, method, paths, rows, workers, gate,
    )?;
    aggregate_values(rt, alloc, outer, results.as_slice(), workers, gate)
}

/// The value of a custom aggregate on rows that are told by their places: with paths to group by, its method over the values of
/// each group and then its outer method over the groups' results; without, its method over all values.
pub fn custom_at<R: Threads + Sync, G: Gate>(
    rt: &R,
    alloc: Global,
    store: &Data,
    rows: &PlacedRows<'_>,
    c: &Customs,
    id: CustomId,
    workers: u32,
    gate: &G,
) -> Result<Value, AllocError>
    requires some { 0 < workers }
    requires few { workers ≤ 64 }
    requires customs { AreTypedOver store.now.model c.now }
    requires there { IsCustom store.now.model id }
    requires read { IsTrue (is_some (typed_at c.now id)) }
    requires fit { HaveRoot store.now id.of rows.now }
    ensures value { IfOk result (λ v. Some v ≡ value_by_id store.now c.now id rows.now) }
{
    data_is_loaded(store);
    let read = c.read(id);
    let custom = definition(store, id);
    let method = custom.method;
    match custom.outer {
        None => over_all(rt, alloc, store, &read.of, method, rows, workers, gate),
        Some(outer) => over_groups(rt, alloc, store, read, method, outer, rows, workers, gate),
    }
}

/// The value of a custom aggregate on all rows of a list, as `custom_at` has it.
pub fn custom<R: Threads + Sync, G: Gate>(
    rt: &R,
    alloc: Global,
    store: &Data,
    rows: &[Row],
    c: &Customs,
    id: CustomId,
    workers: u32,
    gate: &G,
) -> Result<Value, AllocError>
    requires some { 0 < workers }
    requires few { workers ≤ 64 }
    requires customs { AreTypedOver store.now.model c.now }
    requires there { IsCustom store.now.model id }
    requires read { IsTrue (is_some (typed_at c.now id)) }
    requires fit { HaveRoot store.now id.of rows.now }
    ensures value { IfOk result (λ v. Some v ≡ value_by_id store.now c.now id rows.now) }
{
    let list = RowList::of_rows(rows);
    let rows = PlacedRows::all(&list);
    custom_at(rt, alloc, store, &rows, c, id, workers, gate)
}
