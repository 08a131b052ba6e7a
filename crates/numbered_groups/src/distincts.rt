//! Counts of the distinct values of groups of rows, where numbers stand in place of the values.
ghost use Rattle.std.specs.Prelude.{◌≡◌, ◌+◌, ◌<◌, ◌≤◌, All, IfOk, List, count_by, false, filter, get_or, length, map, nat_eq, not, pos};
ghost use Rattle.std.specs.List.{list_any};
ghost use Rattle.edm_values.specs.declared.Method.TheVariants as by;
ghost use Rattle.edm_values.specs.declared.Value.{Value as Value'};
ghost use Rattle.edm_values.specs.Lists.{at_places, places};
ghost use Rattle.edm_values.specs.Values.{is_beyond};
ghost use Rattle.apply_meaning.specs.Aggregates.{aggregate};
ghost use Rattle.value_codes.specs.Codes.{AreCodes};
ghost use Rattle.numbered_groups.specs.Distincts.{AreNumberedValues, AreToldNulls};
ghost use Rattle.numbered_groups.specs.Found.{same_pair};
ghost use Rattle.numbered_groups.specs.Levels.{IsNumberingBy};
ghost use Rattle.numbered_groups.specs.Numbered.{places_with};

use crate::found::number_codes;
use crate::groups::NumberedGroups;
use crate::refined::refined;
use apply_meaning::count;
use edm_values::Value;
use par_stages::Gate;
use std::alloc::{AllocError, Global};
use std::thread::Threads;
use value_codes::Codes;

/// The distinct values of rows, in order of first appearance: a group for each, of the rows that have it. `workers` says into how
/// many pieces the rows may be cut, each of which tells the gate.
pub fn number_values<R: Threads + Sync, G: Gate>(
    rt: &R,
    alloc: Global,
    codes: &Codes,
    workers: u32,
    gate: &G,
) -> Result<NumberedGroups, AllocError>
    requires some { 0 < workers }
    requires few { workers ≤ 64 }
    ensures value { IfOk result (λ found. (vs : List Value') → AreCodes vs codes.now → AreNumberedValues vs found) }
{
    let numbers = number_codes(rt, alloc, codes.as_slice(), workers, gate)?;
    NumberedGroups::of(alloc, numbers)
}

/// The pairs of a number and a value, in order of first appearance: a group for each, of the rows that have it.
fn number_pairs<R: Threads + Sync, G: Gate>(
    rt: &R,
    alloc: Global,
    numbers: &[u32],
    count: usize,
    values: &NumberedGroups,
    workers: u32,
    gate: &G,
) -> Result<NumberedGroups, AllocError>
    requires some { 0 < workers }
    requires few { workers ≤ 64 }
    requires long { length numbers.now ≡ length values.now.numbers }
    requires there { All (λ n. n < count) numbers.now }
    ensures { IfOk result (λ found. IsNumberingBy (same_pair numbers.now values.now.numbers) (length values.now.numbers) found) }
{
    let own = values.numbers();
    let pairs = refined(rt, alloc, numbers, count, own, values.len(), workers, gate)?;
    NumberedGroups::of(alloc, pairs)
}

/// The number of the group of each of these rows whose value is not null.
fn counted_groups(
    alloc: Global,
    numbers: &[u32],
    values: &[u32],
    nulls: &[bool],
    rows: &[usize],
) -> Result<Vec<u32>, AllocError>
    requires there { All (λ f. f < length values.now) rows.now }
    requires long { length numbers.now ≡ length values.now }
    requires told { All (λ v. v < length nulls.now) values.now }
    ensures { IfOk result (λ gs. gs.items ≡ map (λ f. get_or numbers.now f 0) (filter (λ f. not (get_or nulls.now (get_or values.now f 0) false)) rows.now)) }
{
    let mut found = Vec::new(alloc);
    for at in 0..rows.len() {
        let row = rows[at];
        if !nulls[values[row] as usize] {
            found.push(numbers[row])?;
        }
    }
    Ok(found)
}

/// One more. An error where it would pass the range of counts.
fn one_more(n: usize) -> Result<usize, AllocError>
    ensures { IfOk result (λ m. m ≡ n + 1) }
{
    match n.checked_add(1) {
        Some(more) => Ok(more),
        None => Err(AllocError),
    }
}

/// How often each number stands in a list.
fn tallies(alloc: Global, numbers: &[u32], count: usize) -> Result<Vec<usize>, AllocError>
    requires there { All (λ n. n < count) numbers.now }
    ensures { IfOk result (λ ts. ts.items ≡ map (λ j. count_by (λ n. nat_eq n j) numbers.now) (places count)) }
{
    let mut found = Vec::from_elem(alloc, 0, count)?;
    for number in numbers {
        let at = *number as usize;
        let more = one_more(found[at])?;
        found[at] = more;
    }
    Ok(found)
}

/// Counts as values.
fn count_values(alloc: Global, counts: &[usize]) -> Result<Vec<Value>, AllocError>
    ensures { IfOk result (λ vs. vs.items ≡ map (λ n. Value'.Int (pos n)) counts.now) }
{
    let mut values = Vec::with_capacity(alloc, counts.len())?;
    for n in counts {
        values.push(count(*n)?)?;
    }
    Ok(values)
}

/// How many distinct values the rows of each group have, in which nulls are skipped. The rows have the numbers of their groups, of
/// which there are `count`; `values` are the distinct values of all rows, and `nulls` says of each whether it is null. `workers`
/// says into how many pieces the rows may be cut, each of which tells the gate.
pub fn distinct_counts<R: Threads + Sync, G: Gate>(
    rt: &R,
    alloc: Global,
    numbers: &[u32],
    count: usize,
    values: &NumberedGroups,
    nulls: &[bool],
    workers: u32,
    gate: &G,
) -> Result<Vec<Value>, AllocError>
    requires some { 0 < workers }
    requires few { workers ≤ 64 }
    requires long { length numbers.now ≡ length values.now.numbers }
    requires there { All (λ n. n < count) numbers.now }
    requires told { length nulls.now ≡ length values.now.firsts }
    ensures value { IfOk result (λ found. (vs : List Value') → AreNumberedValues vs values.now → AreToldNulls vs values.now nulls.now → list_any is_beyond vs ≡ false
        → found.items ≡ map (λ j. aggregate by.CountDistinct (at_places vs (places_with numbers.now j))) (places count)) }
{
    let pairs = number_pairs(rt, alloc, numbers, count, values, workers, gate)?;
    let own = values.numbers();
    let counted = counted_groups(alloc, numbers, own, nulls, pairs.firsts())?;
    let counts = tallies(alloc, counted.as_slice(), count)?;
    count_values(alloc, counts.as_slice())
}

/// How many of these are not null.
fn others(nulls: &[bool]) -> usize
    ensures { result ≡ count_by (λ b. not b) nulls.now }
{
    let mut found = 0;
    for null in nulls {
        if !*null {
            found += 1;
        }
    }
    found
}

/// How many distinct values all rows have, in which nulls are skipped.
pub fn distinct_count(values: &NumberedGroups, nulls: &[bool]) -> Result<Value, AllocError>
    requires told { length nulls.now ≡ length values.now.firsts }
    ensures value { IfOk result (λ v. (vs : List Value') → AreNumberedValues vs values.now → AreToldNulls vs values.now nulls.now → list_any is_beyond vs ≡ false → v ≡ aggregate by.CountDistinct vs) }
{
    count(others(nulls))
}
