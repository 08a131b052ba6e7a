//! How many distinct values stand at each node of a hierarchy and below it.
//!
//! Numbers stand in place of the values. The rows at or below a node are one run of the rows in the order of the numbers of their
//! nodes. In each run a value counts where its number is met first: each number has a mark, the last run that met it.
ghost use Rattle.std.specs.Prelude.{◌≡◌, ℕ, ◌+◌, ◌^◌, ◌<◌, ◌≤◌, ◌||◌, All, IfOk, IfSome, List, false, filter, get_or, if◌then◌else◌, length, map, nat_eq, not, set, slice_index};
ghost use Rattle.std.specs.List.{list_any};
ghost use Rattle.edm_values.specs.declared.Method.TheVariants as by;
ghost use Rattle.edm_values.specs.declared.Value.{Value as Value'};
ghost use Rattle.edm_values.specs.Lists.{distinct};
ghost use Rattle.edm_values.specs.Values.{is_beyond, seen_value};
ghost use Rattle.value_codes.specs.Codes.{AreCodes};
ghost use Rattle.rollup_rec.specs.NodeDistincts.{AreNullsOf, AreToldBy};
ghost use Rattle.rollup_rec.specs.NodeFolds.{AreAggregates};

use crate::node_folds::{NodeRowValues, lasts_by_number};
use crate::node_rows::{bounds, by_number};
use apply_meaning::count;
use edm_values::{Seen, Value};
use numbered_groups::seen_codes;
use std::alloc::{AllocError, Global};
use std::thread::Threads;
use value_codes::Codes;

/// Whether one of the values is past its range.
fn has_beyond(values: &[Seen<'_>]) -> bool
    ensures { result ≡ list_any is_beyond (map seen_value values.now) }
{
    for value in values {
        if value.is_beyond() {
            return true;
        }
    }
    false
}

/// Numbers in place of values, found by their hashes where they do not lie close together; none where a value is past its range.
fn codes_of<R: Threads + Sync>(
    rt: &R,
    alloc: Global,
    values: &[Seen<'_>],
    workers: u32,
) -> Result<Option<Codes>, AllocError>
    requires some { 0 < workers }
    ensures value { IfOk result (λ o. IfSome o (AreCodes (map seen_value values.now))) }
    ensures within { IfOk result (λ o. IfSome o (λ _. list_any is_beyond (map seen_value values.now) ≡ false)) }
{
    if let Some(codes) = Codes::of_seen(alloc, values)? {
        return Ok(Some(codes));
    }
    if has_beyond(values) {
        return Ok(None);
    }
    Ok(Some(seen_codes(rt, alloc, values, workers)?))
}

/// Of each number, whether its value is null.
fn nulls_of(alloc: Global, codes: &Codes, values: &[Seen<'_>]) -> Result<Vec<bool>, AllocError>
    requires { AreCodes (map seen_value values.now) codes.now }
    ensures size { IfOk result (λ nulls. length nulls.items ≡ codes.now.bound) }
    ensures value { IfOk result (λ nulls. AreNullsOf (map seen_value values.now) codes.now.codes nulls.items) }
{
    let numbers = codes.as_slice();
    let mut nulls = vec![in alloc; false; codes.bound()]?;
    for (row, value) in values.iter().enumerate() {
        nulls[numbers[row] as usize] = value.is_null();
    }
    Ok(nulls)
}

/// Puts the stamp at a number. Whether it stood there.
fn is_stamped(marks: &mut Vec<usize>, number: usize, stamp: usize) -> bool
    requires { number < length marks.old.items }
    ensures before { result ≡ nat_eq (get_or marks.old.items number 0) stamp }
    ensures marks { marks.new.items ≡ set marks.old.items number stamp }
{
    let before = marks[number];
    marks[number] = stamp;
    before == stamp
}

/// One more, but for a number that was met before or is that of nulls.
fn with_number(found: usize, is_met: bool, is_null: bool) -> usize
    requires { found + 1 < 2 ^ 64 }
    ensures { result ≡ found + (if is_met || is_null then 0 else 1) }
{
    if is_met || is_null {
        return found;
    }
    found + 1
}

/// How many different numbers these rows have, but for those of nulls. The marks, one for each number, are below the stamp, which
/// those of the numbers of these rows become.
fn distinct_among(
    told: &[u32],
    nulls: &[bool],
    rows: &[usize],
    stamp: usize,
    marks: &mut Vec<usize>,
) -> usize
    requires rows { All (λ r. r < length told.now) rows.now }
    requires told { All (λ k. k < length nulls.now) told.now }
    requires size { length marks.old.items ≡ length nulls.now }
    requires fresh { All (λ m. m < stamp) marks.old.items }
    ensures value { result ≡ length (filter (λ k. not (get_or nulls.now k false)) (distinct nat_eq (map (λ r. slice_index told.now r) rows.now))) }
    ensures size { length marks.new.items ≡ length nulls.now }
    ensures marks { All (λ m. m ≤ stamp) marks.new.items }
{
    let mut found = 0;
    for row in rows {
        let number = told[*row] as usize;
        let is_met = is_stamped(marks, number, stamp);
        found = with_number(found, is_met, nulls[number]);
    }
    found
}

/// For each number of a node how many distinct values the rows have whose node has it, or a number of that node's interval.
fn distincts_by_number(
    alloc: Global,
    rows: &NodeRowValues<'_, '_>,
    codes: &Codes,
    nulls: &[bool],
) -> Result<Vec<Value>, AllocError>
    requires small { length rows.now.numbers.now < 2 ^ 32 }
    requires lasts { length rows.now.lasts.now ≡ length rows.now.numbers.now }
    requires numbers { All (λ k. k < length rows.now.numbers.now) rows.now.numbers.now }
    requires one { (x y : ℕ) → x < length rows.now.numbers.now → y < length rows.now.numbers.now → slice_index rows.now.numbers.now x ≡ slice_index rows.now.numbers.now y → x ≡ y }
    requires nodes { All (λ n. IfSome n (λ y. y < length rows.now.numbers.now)) rows.now.nodes.now }
    requires size { length codes.now.codes ≡ length rows.now.nodes.now }
    requires nulls { length nulls.now ≡ codes.now.bound }
    ensures { (vs : List Value') → AreToldBy vs codes.now nulls.now → IfOk result (λ found. AreAggregates by.CountDistinct rows.now.numbers.now rows.now.lasts.now rows.now.nodes.now vs found.items) }
{
    let told = codes.as_slice();
    let ends = lasts_by_number(alloc, rows.numbers, rows.lasts)?;
    let ordered = by_number(alloc, rows.numbers, rows.nodes)?;
    let places = ordered.as_slice();
    let mut marks = vec![in alloc; 0; nulls.len()]?;
    let mut found = Vec::with_capacity(alloc, ends.len())?;
    for first in 0..ends.len() {
        let (begin, end) = bounds(rows.numbers, rows.nodes, places, first as u32, ends[first]);
        let run = &places[begin..end];
        let many = distinct_among(told, nulls, run, first + 1, &mut marks);
        found.push(count(many)?)?;
    }
    Ok(found)
}

/// The same of the values of rows; none where one of them is past its range.
pub(crate) fn distinct_aggregates<R: Threads + Sync>(
    rt: &R,
    alloc: Global,
    rows: &NodeRowValues<'_, '_>,
    workers: u32,
) -> Result<Option<Vec<Value>>, AllocError>
    requires some { 0 < workers }
    requires small { length rows.now.numbers.now < 2 ^ 32 }
    requires lasts { length rows.now.lasts.now ≡ length rows.now.numbers.now }
    requires numbers { All (λ k. k < length rows.now.numbers.now) rows.now.numbers.now }
    requires one { (x y : ℕ) → x < length rows.now.numbers.now → y < length rows.now.numbers.now → slice_index rows.now.numbers.now x ≡ slice_index rows.now.numbers.now y → x ≡ y }
    requires nodes { All (λ n. IfSome n (λ y. y < length rows.now.numbers.now)) rows.now.nodes.now }
    requires size { length rows.now.values.now ≡ length rows.now.nodes.now }
    ensures { IfOk result (λ o. IfSome o (λ found. AreAggregates by.CountDistinct rows.now.numbers.now rows.now.lasts.now rows.now.nodes.now (map (λ v. seen_value v) rows.now.values.now) found.items)) }
{
    let Some(codes) = codes_of(rt, alloc, rows.values, workers)? else {
        return Ok(None);
    };
    let nulls = nulls_of(alloc, &codes, rows.values)?;
    let found = distincts_by_number(alloc, rows, &codes, nulls.as_slice())?;
    Ok(Some(found))
}
