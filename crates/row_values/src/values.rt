//! The values of an expression on rows.
ghost use Rattle.std.specs.Prelude.{◌≡◌, ◌<◌, IfOk, IsTrue};
ghost use Rattle.std.specs.List.{AllZip};
ghost use Rattle.apply_ast.specs.Views.{expr_of};
ghost use Rattle.apply_meaning.specs.Instances.{val};
ghost use Rattle.apply_meaning.specs.Meaning.{values};
ghost use Rattle.apply_meaning.specs.RowViews.{is_of};
ghost use Rattle.apply_meaning.specs.Running.{all_of};

use crate::parts::{all_ok, is_one_part, part_len};
use apply_ast::Expr;
use apply_meaning::{Row, eval, values_of as values_in_turn};
use edm_data::Data;
use edm_values::Value;
use rayon::prelude::*;
use std::alloc::{AllocError, Global};
use std::thread::Threads;

/// The value of an expression on a row.
pub(crate) fn value_on(
    alloc: Global,
    store: &Data,
    e: &Expr,
    row: &Row,
) -> Result<Value, AllocError>
    requires { IsTrue (is_of store.now row.now) }
    ensures { IfOk result (λ v. v ≡ val store.now row.now (expr_of e.now)) }
{
    eval(store, row, e).own(alloc)
}

/// The value of an expression on each row, worked out in parts.
fn value_results<R: Threads + Sync>(
    rt: &R,
    alloc: Global,
    store: &Data,
    e: &Expr,
    rows: &[Row],
    workers: u32,
) -> Result<Vec<Result<Value, AllocError>>, AllocError>
    requires some { 0 < workers }
    requires of { IsTrue (all_of store.now rows.now) }
    ensures { IfOk result (λ rs. AllZip (λ i r. IfOk r (λ v. v ≡ val store.now i (expr_of e.now))) rows.now rs.items) }
{
    rows.par_iter()
        .with_min_len(part_len(rows.len(), workers))
        .map(
            |row: &Row| -> Result<Value, AllocError>
                requires { IsTrue (is_of store.now row.now) }
                ensures { IfOk result (λ v. v ≡ val store.entry.now row.now (expr_of e.entry.now)) }
            { value_on(alloc, store, e, row) },
        )
        .collect(rt, alloc)
}

/// The values of an expression on rows, worked out in parts.
pub(crate) fn values_in_parts<R: Threads + Sync>(
    rt: &R,
    alloc: Global,
    store: &Data,
    e: &Expr,
    rows: &[Row],
    workers: u32,
) -> Result<Vec<Value>, AllocError>
    requires some { 0 < workers }
    requires of { IsTrue (all_of store.now rows.now) }
    ensures { IfOk result (λ vs. vs.items ≡ values store.now (expr_of e.now) rows.now) }
{
    let results = value_results(rt, alloc, store, e, rows, workers)?;
    all_ok(alloc, results)
}

/// The values of an expression on rows, in the order of the rows. The rows may be cut into so many parts, each for a thread of
/// its own.
pub fn values_of<R: Threads + Sync>(
    rt: &R,
    alloc: Global,
    store: &Data,
    e: &Expr,
    rows: &[Row],
    workers: u32,
) -> Result<Vec<Value>, AllocError>
    requires some { 0 < workers }
    requires of { IsTrue (all_of store.now rows.now) }
    ensures value { IfOk result (λ vs. vs.items ≡ values store.now (expr_of e.now) rows.now) }
{
    if is_one_part(rows.len(), workers) {
        return values_in_turn(alloc, store, e, rows);
    }
    values_in_parts(rt, alloc, store, e, rows, workers)
}
