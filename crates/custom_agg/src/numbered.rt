//! What a method gives on the values of each group of a list, whose instances are told the number of their group.
ghost use Rattle.std.specs.Prelude.{◌≡◌, ◌<◌, ◌≤◌, IfOk, IsTrue};
ghost use Rattle.aggregate_ops.specs.Partials.{AreFoldable};
ghost use Rattle.apply_ast.specs.Views.{expr_of};
ghost use Rattle.apply_meaning.specs.Meaning.{values};
ghost use Rattle.apply_meaning.specs.Running.{all_of};
ghost use Rattle.custom_agg.specs.CustomValues.{group_results};

use apply_ast::{Expr, Path};
use edm_data::Data;
use edm_values::{Method, Value};
use numbered_groups::number_groups;
use par_stages::Gate;
use row_values::RowList;
use std::alloc::{AllocError, Global};
use std::thread::Threads;

/// What a method gives on the values of an expression on the instances of each group of a list by paths, in order of first
/// appearance. The list is gone over once for all groups, in pieces where there are several workers.
pub(crate) fn numbered_results<R: Threads + Sync, G: Gate>(
    rt: &R,
    alloc: Global,
    store: &Data,
    e: &Expr,
    method: Method,
    paths: &[Path],
    list: &RowList<'_>,
    workers: u32,
    gate: &G,
) -> Result<Vec<Value>, AllocError>
    requires some { 0 < workers }
    requires few { workers ≤ 64 }
    requires of { IsTrue (all_of store.now list.now) }
    requires foldable { AreFoldable method (values store.now (expr_of e.now) list.now) }
    ensures { IfOk result (λ vs. vs.items ≡ group_results store.now (expr_of e.now) method paths.now list.now) }
{
    let (codes, _) = list.key_codes(rt, alloc, store, paths, workers)?;
    let codes = codes.as_slice();
    let found = number_groups(rt, alloc, codes, list.len(), workers, gate)?;
    let numbers = found.numbers();
    list.aggregates_by(
        rt,
        alloc,
        store,
        e,
        method,
        numbers,
        found.len(),
        workers,
        gate,
    )
}
