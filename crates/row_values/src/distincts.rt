//! Counts of the distinct values of an expression on a list, by numbers in place of the values: no table is kept of the values of
//! each group.
ghost use Rattle.std.specs.Prelude.{◌≡◌, ◌<◌, ◌≤◌, All, IfOk, IfSome, IsTrue, false, length, map, nat_lt};
ghost use Rattle.std.specs.List.{list_all, list_any};
ghost use Rattle.edm_values.specs.Lists.{at_places, places};
ghost use Rattle.edm_values.specs.Values.{is_beyond, is_null, seen_value};
ghost use Rattle.apply_ast.specs.Views.{expr_of};
ghost use Rattle.apply_meaning.specs.Aggregates.{aggregate};
ghost use Rattle.apply_meaning.specs.Meaning.{values};
ghost use Rattle.apply_meaning.specs.Running.{all_of};
ghost use Rattle.value_codes.specs.Codes.{AreCodes};
ghost use Rattle.numbered_groups.specs.Distincts.{AreToldNulls};
ghost use Rattle.numbered_groups.specs.Numbered.{places_with};

use crate::key_codes::has_beyond;
use crate::lists::RowList;
use apply_ast::Expr;
use edm_data::Data;
use edm_values::{Method, Seen, Value};
use numbered_groups::{NumberedGroups, distinct_count, distinct_counts, number_values, seen_codes};
use par_stages::Gate;
use std::alloc::{AllocError, Global};
use std::thread::Threads;
use value_codes::Codes;

/// Numbers in place of the values of an expression that is a path, where they are known without a hash, as `RowList::codes` has
/// them.
fn path_codes<R: Threads + Sync>(
    rt: &R,
    alloc: Global,
    store: &Data,
    e: &Expr,
    list: &RowList<'_>,
    workers: u32,
) -> Result<Option<Codes>, AllocError>
    requires some { 0 < workers }
    requires of { IsTrue (all_of store.now list.now) }
    ensures value { IfOk result (λ o. IfSome o (AreCodes (values store.now (expr_of e.now) list.now))) }
    ensures within { IfOk result (λ o. IfSome o (λ _. list_any is_beyond (values store.now (expr_of e.now) list.now) ≡ false)) }
{
    match e {
        Expr::Path(path) => list.codes(rt, alloc, store, path, workers),
        _ => Ok(None),
    }
}

/// Numbers in place of values, found by their hashes where they do not lie close together; none where a value is past its range.
fn any_codes<R: Threads + Sync>(
    rt: &R,
    alloc: Global,
    seen: &[Seen<'_>],
    workers: u32,
) -> Result<Option<Codes>, AllocError>
    requires some { 0 < workers }
    ensures value { IfOk result (λ o. IfSome o (AreCodes (map seen_value seen.now))) }
    ensures within { IfOk result (λ o. IfSome o (λ _. list_any is_beyond (map seen_value seen.now) ≡ false)) }
{
    if let Some(codes) = Codes::of_seen(alloc, seen)? {
        return Ok(Some(codes));
    }
    if has_beyond(seen) {
        return Ok(None);
    }
    Ok(Some(seen_codes(rt, alloc, seen, workers)?))
}

/// Numbers in place of the values of an expression on a list; none where one of the values is past its range.
fn value_codes<R: Threads + Sync>(
    rt: &R,
    alloc: Global,
    store: &Data,
    e: &Expr,
    list: &RowList<'_>,
    workers: u32,
) -> Result<Option<Codes>, AllocError>
    requires some { 0 < workers }
    requires of { IsTrue (all_of store.now list.now) }
    ensures value { IfOk result (λ o. IfSome o (AreCodes (values store.now (expr_of e.now) list.now))) }
    ensures within { IfOk result (λ o. IfSome o (λ _. list_any is_beyond (values store.now (expr_of e.now) list.now) ≡ false)) }
{
    if let Some(codes) = path_codes(rt, alloc, store, e, list, workers)? {
        return Ok(Some(codes));
    }
    let seen = list.seen_values(rt, alloc, store, e, workers)?;
    any_codes(rt, alloc, seen.as_slice(), workers)
}

/// Which of these are null.
fn nulls(alloc: Global, values: &[Value]) -> Result<Vec<bool>, AllocError>
    ensures { IfOk result (λ found. found.items ≡ map is_null values.now) }
{
    let mut found = Vec::with_capacity(alloc, values.len())?;
    for value in values {
        found.push(value.seen().is_null())?;
    }
    Ok(found)
}

/// Of each distinct value of an expression on a list, whether it is null.
fn told_nulls(
    alloc: Global,
    store: &Data,
    e: &Expr,
    list: &RowList<'_>,
    found: &NumberedGroups,
) -> Result<Vec<bool>, AllocError>
    requires of { IsTrue (all_of store.now list.now) }
    requires size { length found.now.numbers ≡ length list.now }
    ensures value { IfOk result (λ ns. AreToldNulls (values store.now (expr_of e.now) list.now) found.now ns.items) }
{
    let values = list.values_at(alloc, store, e, found.firsts())?;
    nulls(alloc, values.as_slice())
}

/// How many distinct values an expression has on the instances of each group of a list, where the method is that count; no answer
/// where one of the values is past its range.
pub(crate) fn distinct_by<R: Threads + Sync, G: Gate>(
    rt: &R,
    alloc: Global,
    store: &Data,
    e: &Expr,
    method: Method,
    list: &RowList<'_>,
    numbers: &[u32],
    count: usize,
    workers: u32,
    gate: &G,
) -> Result<Option<Vec<Value>>, AllocError>
    requires some { 0 < workers }
    requires few { workers ≤ 64 }
    requires of { IsTrue (all_of store.now list.now) }
    requires size { length numbers.now ≡ length list.now }
    requires there { All (λ n. n < count) numbers.now }
    ensures { IfOk result (λ o. IfSome o (λ vs. vs.items ≡ map (λ j. aggregate method (at_places (values store.now (expr_of e.now) list.now) (places_with numbers.now j))) (places count))) }
{
    let Method::CountDistinct = method else {
        return Ok(None);
    };
    let Some(codes) = value_codes(rt, alloc, store, e, list, workers)? else {
        return Ok(None);
    };
    let found = number_values(rt, alloc, &codes, workers, gate)?;
    let nulls = told_nulls(alloc, store, e, list, &found)?;
    let nulls = nulls.as_slice();
    let counts = distinct_counts(rt, alloc, numbers, count, &found, nulls, workers, gate)?;
    Ok(Some(counts))
}

/// How many distinct values an expression has on a list, where the method is that count and numbers stand in place of the values
/// without a hash.
pub(crate) fn distinct_of<R: Threads + Sync, G: Gate>(
    rt: &R,
    alloc: Global,
    store: &Data,
    e: &Expr,
    method: Method,
    list: &RowList<'_>,
    workers: u32,
    gate: &G,
) -> Result<Option<Value>, AllocError>
    requires some { 0 < workers }
    requires few { workers ≤ 64 }
    requires of { IsTrue (all_of store.now list.now) }
    ensures { IfOk result (λ o. IfSome o (λ v. v ≡ aggregate method (values store.now (expr_of e.now) list.now))) }
{
    let Method::CountDistinct = method else {
        return Ok(None);
    };
    let Some(codes) = path_codes(rt, alloc, store, e, list, workers)? else {
        return Ok(None);
    };
    let found = number_values(rt, alloc, &codes, workers, gate)?;
    let nulls = told_nulls(alloc, store, e, list, &found)?;
    Ok(Some(distinct_count(&found, nulls.as_slice())?))
}
