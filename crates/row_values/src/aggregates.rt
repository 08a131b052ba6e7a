//! Aggregates by a method of the values of an expression on lists of instances.
ghost use Rattle.std.specs.Prelude.{◌≡◌, ◌<◌, ◌≤◌, IfOk, IsTrue, is_some, map};
ghost use Rattle.std.specs.List.{list_all};
ghost use Rattle.edm_values.specs.declared.Method.{Method as Method'};
ghost use Rattle.edm_values.specs.declared.Method.TheVariants as by;
ghost use Rattle.edm_values.specs.Literals.{is_of_kind};
ghost use Rattle.edm_values.specs.Values.{seen_value};
ghost use Rattle.apply_ast.specs.Views.{expr_of};
ghost use Rattle.context_typing.specs.Typing.{method_kind};
ghost use Rattle.apply_meaning.specs.Aggregates.{aggregate};
ghost use Rattle.apply_meaning.specs.Meaning.{values};
ghost use Rattle.apply_meaning.specs.Running.{all_of};
ghost use Rattle.aggregate_ops.specs.Partials.{AreFoldable};

use crate::parts::{is_one_part, part_len};
use crate::values::values_of;
use aggregate_ops::{
    DistinctValues, HashedValue, MaxOf, MinOf, Seed, SumOf, aggregate_values, kind_of,
};
use apply_ast::Expr;
use apply_meaning::{Row, eval};
use edm_data::Data;
use edm_values::{EdmType, Method, Seen, Value};
use par_stages::{Gate, pieces};
use rayon::prelude::*;
use row_frames::{Frame, FrameReader};
use std::alloc::{AllocError, Global};
use std::thread::Threads;

/// The aggregate by a method of the values of an expression on rows.
pub(crate) fn row_aggregate<R: Threads + Sync, G: Gate>(
    rt: &R,
    alloc: Global,
    store: &Data,
    e: &Expr,
    method: Method,
    rows: &[Row],
    workers: u32,
    gate: &G,
) -> Result<Value, AllocError>
    requires some { 0 < workers }
    requires few { workers ≤ 64 }
    requires of { IsTrue (all_of store.now rows.now) }
    requires kind { AreFoldable method (values store.now (expr_of e.now) rows.now) }
    ensures { IfOk result (λ v. v ≡ aggregate method (values store.now (expr_of e.now) rows.now)) }
{
    let all = values_of(rt, alloc, store, e, rows, workers)?;
    aggregate_values(rt, alloc, method, all.as_slice(), workers, gate)
}

/// The type of values of one type: that of the first that has one of its own, and that of integers where none has.
pub(crate) fn kind_read(values: &FrameReader<'_>) -> EdmType
    ensures taken { (m : Method') → AreFoldable m values.now → IsTrue (is_some (method_kind m result)) }
    ensures typed { (m : Method') → AreFoldable m values.now → IsTrue (list_all (is_of_kind result) values.now) }
{
    for k in 0..values.len() {
        if let Some(kind) = kind_of(values.at(k)) {
            return kind;
        }
    }
    EdmType::Int
}

/// The same of the values of an expression on rows.
pub(crate) fn kind_on(store: &Data, e: &Expr, rows: &[Row]) -> EdmType
    requires { IsTrue (all_of store.now rows.now) }
    ensures taken { (m : Method') → AreFoldable m (values store.now (expr_of e.now) rows.now) → IsTrue (is_some (method_kind m result)) }
    ensures typed { (m : Method') → AreFoldable m (values store.now (expr_of e.now) rows.now) → IsTrue (list_all (is_of_kind result) (values store.now (expr_of e.now) rows.now)) }
{
    for row in rows {
        if let Some(kind) = kind_of(eval(store, row, e)) {
            return kind;
        }
    }
    EdmType::Int
}

/// The values with their numbers, one after the other.
fn hashed_in_turn<'a>(
    alloc: Global,
    values: &[Seen<'a>],
) -> Result<Vec<HashedValue<'a>>, AllocError>
    ensures { IfOk result (λ found. found.items ≡ map (λ v. seen_value v) values.now) }
{
    let mut found = Vec::with_capacity(alloc, values.len())?;
    for value in values {
        found.push(HashedValue::of_seen(*value))?;
    }
    Ok(found)
}

/// The values with their numbers, which are worked out in parts.
fn hashed_in_parts<'a, R: Threads + Sync>(
    rt: &R,
    alloc: Global,
    values: &[Seen<'a>],
    workers: u32,
) -> Result<Vec<HashedValue<'a>>, AllocError>
    requires some { 0 < workers }
    ensures { IfOk result (λ found. found.items ≡ map (λ v. seen_value v) values.now) }
{
    values
        .par_iter()
        .with_min_len(part_len(values.len(), workers))
        .map(
            |value: &Seen| -> HashedValue
                ensures { result ≡ seen_value value.entry.now }
            { HashedValue::of_seen(*value) },
        )
        .collect(rt, alloc)
}

/// The values with their numbers. They may be cut into so many parts, each for a thread of its own.
fn hashed<'a, R: Threads + Sync>(
    rt: &R,
    alloc: Global,
    values: &[Seen<'a>],
    workers: u32,
) -> Result<Vec<HashedValue<'a>>, AllocError>
    requires some { 0 < workers }
    ensures { IfOk result (λ found. found.items ≡ map (λ v. seen_value v) values.now) }
{
    if is_one_part(values.len(), workers) {
        return hashed_in_turn(alloc, values);
    }
    hashed_in_parts(rt, alloc, values, workers)
}

/// How many distinct values there are.
fn distinct_read<R: Threads + Sync, G: Gate>(
    rt: &R,
    alloc: Global,
    kind: EdmType,
    values: &FrameReader<'_>,
    workers: u32,
    gate: &G,
) -> Result<Value, AllocError>
    requires some { 0 < workers }
    requires few { workers ≤ 64 }
    requires kind { IsTrue (list_all (is_of_kind kind) values.now) }
    ensures { IfOk result (λ v. v ≡ aggregate by.CountDistinct values.now) }
{
    let seen = values.seen(rt, alloc, workers)?;
    let found = hashed(rt, alloc, seen.as_slice(), workers)?;
    let found = found.as_slice();
    let empty = DistinctValues::new(alloc, kind, Seed::of(found));
    Ok(pieces(rt, found, workers, gate, &empty)?.finish())
}

/// The aggregate by a method of values that are folded where they are read, but for distinct values: the table of these begins
/// with what all their hashes come to.
fn aggregate_read<R: Threads + Sync, G: Gate>(
    rt: &R,
    alloc: Global,
    method: Method,
    values: &FrameReader<'_>,
    workers: u32,
    gate: &G,
) -> Result<Value, AllocError>
    requires some { 0 < workers }
    requires few { workers ≤ 64 }
    requires kind { AreFoldable method values.now }
    ensures { IfOk result (λ v. v ≡ aggregate method values.now) }
{
    let kind = kind_read(values);
    match method {
        Method::Sum => Ok(values.fold(rt, workers, gate, SumOf::new(kind))?.finish()),
        Method::Min => values
            .fold(rt, workers, gate, MinOf::new(alloc, kind))?
            .finish(),
        Method::Max => values
            .fold(rt, workers, gate, MaxOf::new(alloc, kind))?
            .finish(),
        Method::CountDistinct => distinct_read(rt, alloc, kind, values, workers, gate),
    }
}

/// The aggregate by a method of the values of an expression on a frame.
pub(crate) fn frame_aggregate<R: Threads + Sync, G: Gate>(
    rt: &R,
    alloc: Global,
    store: &Data,
    e: &Expr,
    method: Method,
    frame: &Frame,
    workers: u32,
    gate: &G,
) -> Result<Value, AllocError>
    requires some { 0 < workers }
    requires few { workers ≤ 64 }
    requires of { IsTrue (all_of store.now frame.now) }
    requires kind { AreFoldable method (values store.now (expr_of e.now) frame.now) }
    ensures { IfOk result (λ v. v ≡ aggregate method (values store.now (expr_of e.now) frame.now)) }
{
    let reader = frame.reader(alloc, store, e)?;
    aggregate_read(rt, alloc, method, &reader, workers, gate)
}
