//! The aggregates of the values of an expression on the groups of a frame, whose values are folded where they are read: no list is
//! made of them.
ghost use Rattle.std.specs.Prelude.{◌≡◌, ◌<◌, ◌≤◌, All, IfOk, IfSome, IsTrue, length, map};
ghost use Rattle.edm_values.specs.Lists.{at_places, places};
ghost use Rattle.apply_ast.specs.Views.{expr_of};
ghost use Rattle.apply_meaning.specs.Aggregates.{aggregate};
ghost use Rattle.apply_meaning.specs.Meaning.{values};
ghost use Rattle.apply_meaning.specs.Running.{all_of};
ghost use Rattle.aggregate_ops.specs.Partials.{AreFoldable};
ghost use Rattle.numbered_groups.specs.Numbered.{places_with};

use crate::aggregates::kind_read;
use crate::group_partials::partials_read;
use crate::lists::RowList;
use crate::numbered::outcomes;
use aggregate_ops::{Aggregated, MaxOf, MinOf, SumOf};
use apply_ast::Expr;
use edm_data::Data;
use edm_values::{Method, Value};
use par_stages::Gate;
use row_frames::FrameReader;
use std::alloc::{AllocError, Global};
use std::thread::Threads;

/// The aggregates of values that are folded where they are read.
fn fold_read<R: Threads + Sync, P: Aggregated + Sync, G: Gate>(
    rt: &R,
    alloc: Global,
    values: &FrameReader<'_>,
    empty: P,
    numbers: &[u32],
    count: usize,
    workers: u32,
    gate: &G,
) -> Result<Option<Vec<Value>>, AllocError>
    requires some { 0 < workers }
    requires few { workers ≤ 64 }
    requires kind { All (P.takes (P.kind empty)) values.now }
    requires size { length numbers.now ≡ length values.now }
    ensures { IfOk result (λ o. IfSome o (λ vs. vs.items ≡ map (λ j. aggregate P.method (at_places values.now (places_with numbers.now j))) (places count))) }
{
    let own = partials_read(rt, alloc, values, empty, numbers, count, workers, gate)?;
    let found = outcomes(alloc, own.as_slice())?;
    Ok(Some(found))
}

/// The aggregates by a method of values that are read, but for distinct values.
fn aggregates_read<R: Threads + Sync, G: Gate>(
    rt: &R,
    alloc: Global,
    method: Method,
    values: &FrameReader<'_>,
    numbers: &[u32],
    count: usize,
    workers: u32,
    gate: &G,
) -> Result<Option<Vec<Value>>, AllocError>
    requires some { 0 < workers }
    requires few { workers ≤ 64 }
    requires kind { AreFoldable method values.now }
    requires size { length numbers.now ≡ length values.now }
    ensures { IfOk result (λ o. IfSome o (λ vs. vs.items ≡ map (λ j. aggregate method (at_places values.now (places_with numbers.now j))) (places count))) }
{
    let kind = kind_read(values);
    match method {
        Method::Sum => {
            let empty = SumOf::new(kind);
            fold_read(rt, alloc, values, empty, numbers, count, workers, gate)
        }
        Method::Min => {
            let empty = MinOf::new(alloc, kind);
            fold_read(rt, alloc, values, empty, numbers, count, workers, gate)
        }
        Method::Max => {
            let empty = MaxOf::new(alloc, kind);
            fold_read(rt, alloc, values, empty, numbers, count, workers, gate)
        }
        Method::CountDistinct => Ok(None),
    }
}

/// The aggregates by a method of the values of an expression on the instances of each group of a list, where this is a frame, but
/// for distinct values.
pub(crate) fn frame_aggregates<R: Threads + Sync, G: Gate>(
    rt: &R,
    alloc: Global,
    store: &Data,
    e: &Expr,
    method: Method,
    list: &RowList<'_>,
    numbers: &[u32],
    count: usize,
    workers: u32,
    gate: &G,
) -> Result<Option<Vec<Value>>, AllocError>
    requires some { 0 < workers }
    requires few { workers ≤ 64 }
    requires of { IsTrue (all_of store.now list.now) }
    requires kind { AreFoldable method (values store.now (expr_of e.now) list.now) }
    requires size { length numbers.now ≡ length list.now }
    ensures { IfOk result (λ o. IfSome o (λ vs. vs.items ≡ map (λ j. aggregate method (at_places (values store.now (expr_of e.now) list.now) (places_with numbers.now j))) (places count))) }
{
    let Some(frame) = list.frame() else {
        return Ok(None);
    };
    let reader = frame.reader(alloc, store, e)?;
    aggregates_read(rt, alloc, method, &reader, numbers, count, workers, gate)
}
