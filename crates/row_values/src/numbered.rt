//! The aggregates of the values of an expression on the groups of a list, whose instances have the number of their group. The list is
//! gone over once: each value goes to what is kept of its group.
ghost use Rattle.std.specs.Prelude.{◌≡◌, ℕ, ◌<◌, ◌≤◌, All, IfOk, IsTrue, List, is_some, length, map};
ghost use Rattle.std.specs.List.{list_all};
ghost use Rattle.edm_values.specs.declared.Method.{Method as Method'};
ghost use Rattle.edm_values.specs.declared.Method.TheVariants as by;
ghost use Rattle.edm_values.specs.declared.Value.{Value as Value'};
ghost use Rattle.edm_values.specs.Lists.{at_places, places};
ghost use Rattle.edm_values.specs.Literals.{is_of_kind};
ghost use Rattle.context_typing.specs.Typing.{method_kind};
ghost use Rattle.apply_ast.specs.Views.{expr_of};
ghost use Rattle.apply_meaning.specs.Aggregates.{aggregate};
ghost use Rattle.apply_meaning.specs.Meaning.{values};
ghost use Rattle.apply_meaning.specs.Running.{all_of};
ghost use Rattle.aggregate_ops.specs.Partials as partials;
ghost use Rattle.aggregate_ops.specs.Partials.{AreFoldable, IsDistinctOf};
ghost use Rattle.numbered_groups.specs.Numbered.{places_with};
ghost use Rattle.row_values.specs.GroupFolds.{AreFoldsOf, ArePartialsBy, values_with};

use crate::distincts::distinct_by;
use crate::frame_folds::frame_aggregates;
use crate::group_folds::GroupFolds;
use crate::group_partials::{partials_listed, piece_workers};
use crate::lists::RowList;
use aggregate_ops::{Aggregated, DistinctOf, MaxOf, MinOf, Seed, SumOf, hashed_values, kind_of};
use apply_ast::Expr;
use edm_data::Data;
use edm_values::{EdmType, Method, Value};
use par_stages::{Gate, pieces};
use std::alloc::{AllocError, Global};
use std::thread::Threads;

/// The aggregate of the values of each group.
pub(crate) fn outcomes<P: Aggregated>(alloc: Global, groups: &[P]) -> Result<Vec<Value>, AllocError>
    ensures { IfOk result (λ vs. (all : List Value') (numbers : List ℕ) (count : ℕ) → ArePartialsBy P.kind P.stands_for all numbers count groups.now → vs.items ≡ map (λ j. aggregate P.method (at_places all (places_with numbers j))) (places count)) }
{
    let mut found = Vec::with_capacity(alloc, groups.len())?;
    for group in groups {
        found.push(group.outcome()?)?;
    }
    Ok(found)
}

/// The count of the distinct values of each group.
fn distinct_outcomes(
    alloc: Global,
    folds: &GroupFolds<'_, DistinctOf>,
) -> Result<Vec<Value>, AllocError>
    ensures { IfOk result (λ vs. (xs : List (Value' × ℕ)) → AreFoldsOf IsDistinctOf folds.now xs → vs.items ≡ map (λ j. aggregate by.CountDistinct (partials.values (values_with folds.now.numbers j xs))) (places folds.now.count)) }
{
    let groups = folds.groups();
    let mut found = Vec::with_capacity(alloc, groups.len())?;
    for group in groups {
        found.push(group.finish())?;
    }
    Ok(found)
}

/// The aggregates of values that stand in a list.
fn fold_listed<R: Threads + Sync, P: Aggregated + Sync, G: Gate>(
    rt: &R,
    alloc: Global,
    values: &[Value],
    empty: P,
    numbers: &[u32],
    count: usize,
    workers: u32,
    gate: &G,
) -> Result<Vec<Value>, AllocError>
    requires some { 0 < workers }
    requires few { workers ≤ 64 }
    requires kind { All (P.takes (P.kind empty)) values.now }
    requires size { length numbers.now ≡ length values.now }
    ensures { IfOk result (λ vs. vs.items ≡ map (λ j. aggregate P.method (at_places values.now (places_with numbers.now j))) (places count)) }
{
    let own = partials_listed(rt, alloc, values, empty, numbers, count, workers, gate)?;
    outcomes(alloc, own.as_slice())
}

/// The counts of distinct values of one type. The tables of all groups begin with what the hashes of all values come to.
fn count_distinct<R: Threads + Sync, G: Gate>(
    rt: &R,
    alloc: Global,
    kind: EdmType,
    values: &[Value],
    numbers: &[u32],
    count: usize,
    workers: u32,
    gate: &G,
) -> Result<Vec<Value>, AllocError>
    requires some { 0 < workers }
    requires few { workers ≤ 64 }
    requires kind { IsTrue (list_all (is_of_kind kind) values.now) }
    requires size { length numbers.now ≡ length values.now }
    ensures { IfOk result (λ vs. vs.items ≡ map (λ j. aggregate by.CountDistinct (at_places values.now (places_with numbers.now j))) (places count)) }
{
    let seed = Seed::of(hashed_values(alloc, values)?.as_slice());
    let workers = piece_workers(values.len(), count, workers);
    let empty = DistinctOf::new(alloc, kind, seed);
    let folds = GroupFolds::new(alloc, numbers, count, empty);
    let all = pieces(rt, values, workers, gate, &folds)?;
    distinct_outcomes(alloc, &all)
}

/// The type of values of one type: that of the first that has one of its own, and that of integers where none has.
fn kind_listed(values: &[Value]) -> EdmType
    ensures taken { (m : Method') → AreFoldable m values.now → IsTrue (is_some (method_kind m result)) }
    ensures typed { (m : Method') → AreFoldable m values.now → IsTrue (list_all (is_of_kind result) values.now) }
{
    for value in values {
        if let Some(kind) = kind_of(value.seen()) {
            return kind;
        }
    }
    EdmType::Int
}

/// The aggregates by a method of values that stand in a list.
fn aggregates_listed<R: Threads + Sync, G: Gate>(
    rt: &R,
    alloc: Global,
    method: Method,
    values: &[Value],
    numbers: &[u32],
    count: usize,
    workers: u32,
    gate: &G,
) -> Result<Vec<Value>, AllocError>
    requires some { 0 < workers }
    requires few { workers ≤ 64 }
    requires kind { AreFoldable method values.now }
    requires size { length numbers.now ≡ length values.now }
    ensures { IfOk result (λ vs. vs.items ≡ map (λ j. aggregate method (at_places values.now (places_with numbers.now j))) (places count)) }
{
    let kind = kind_listed(values);
    match method {
        Method::Sum => {
            let empty = SumOf::new(kind);
            fold_listed(rt, alloc, values, empty, numbers, count, workers, gate)
        }
        Method::Min => {
            let empty = MinOf::new(alloc, kind);
            fold_listed(rt, alloc, values, empty, numbers, count, workers, gate)
        }
        Method::Max => {
            let empty = MaxOf::new(alloc, kind);
            fold_listed(rt, alloc, values, empty, numbers, count, workers, gate)
        }
        Method::CountDistinct => {
            count_distinct(rt, alloc, kind, values, numbers, count, workers, gate)
        }
    }
}

/// The aggregate by a method of the values of an expression on the instances of each group of a list.
pub(crate) fn list_aggregates<R: Threads + Sync, G: Gate>(
    rt: &R,
    alloc: Global,
    store: &Data,
    e: &Expr,
    method: Method,
    list: &RowList<'_>,
    numbers: &[u32],
    count: usize,
    workers: u32,
    gate: &G,
) -> Result<Vec<Value>, AllocError>
    requires some { 0 < workers }
    requires few { workers ≤ 64 }
    requires of { IsTrue (all_of store.now list.now) }
    requires kind { AreFoldable method (values store.now (expr_of e.now) list.now) }
    requires size { length numbers.now ≡ length list.now }
    requires there { All (λ n. n < count) numbers.now }
    ensures { IfOk result (λ vs. vs.items ≡ map (λ j. aggregate method (at_places (values store.now (expr_of e.now) list.now) (places_with numbers.now j))) (places count)) }
{
    let found = distinct_by(
        rt, alloc, store, e, method, list, numbers, count, workers, gate,
    )?;
    if let Some(found) = found {
        return Ok(found);
    }
    let found = frame_aggregates(
        rt, alloc, store, e, method, list, numbers, count, workers, gate,
    )?;
    if let Some(found) = found {
        return Ok(found);
    }
    let all = list.values(rt, alloc, store, e, workers)?;
    let all = all.as_slice();
    aggregates_listed(rt, alloc, method, all, numbers, count, workers, gate)
}
