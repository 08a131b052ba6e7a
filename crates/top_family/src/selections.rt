//! The six selections.
ghost use Rattle.std.specs.Prelude.{◌≡◌, ◌<◌, ◌≤◌, true, false, min};
ghost use Rattle.edm_values.specs.Literals.{AreNumbers};
ghost use Rattle.edm_values.specs.Values.{number_part, reaches_count, reaches_percent, reaches_sum, seen_value, top_places};
ghost use Rattle.top_family.specs.Selections.{Takes, seen_values};

use crate::TopRefused;
use crate::numbers::number_ranking;
use crate::parts::first_by_workers;
use crate::rankings::{ascending, first_by_rank};
use crate::thresholds::{front_reaching, least_of_bound, least_of_percent};
use edm_values::Seen;
use std::alloc::Global;
use std::thread::Threads;

/// The places of the `n` greatest values, ascending.
pub fn top_count(alloc: Global, values: &[Seen<'_>], n: u64) -> Result<Vec<usize>, TopRefused>
    ensures value { Takes (top_places (reaches_count n) false (seen_values values.now)) result }
{
    by_count(alloc, values, n, false)
}

/// The places of the `n` least values, ascending.
pub fn bottom_count(alloc: Global, values: &[Seen<'_>], n: u64) -> Result<Vec<usize>, TopRefused>
    ensures value { Takes (top_places (reaches_count n) true (seen_values values.now)) result }
{
    by_count(alloc, values, n, true)
}

/// The places of the fewest of the greatest values whose sum is at least a number, ascending; a
/// value that is no number counts as 0.
pub fn top_sum(
    alloc: Global,
    values: &[Seen<'_>],
    bound: Seen<'_>,
) -> Result<Vec<usize>, TopRefused>
    requires numbers { AreNumbers (seen_values values.now) }
    ensures value { Takes (top_places (reaches_sum (number_part (seen_value bound.entry))) false (seen_values values.now)) result }
{
    by_sum(alloc, values, bound, false)
}

/// The places of the fewest of the least values whose sum is at least a number, ascending; a
/// value that is no number counts as 0.
pub fn bottom_sum(
    alloc: Global,
    values: &[Seen<'_>],
    bound: Seen<'_>,
) -> Result<Vec<usize>, TopRefused>
    requires numbers { AreNumbers (seen_values values.now) }
    ensures value { Takes (top_places (reaches_sum (number_part (seen_value bound.entry))) true (seen_values values.now)) result }
{
    by_sum(alloc, values, bound, true)
}

/// The places of the fewest of the greatest values whose sum is at least `p` percent of the sum of all, ascending.
pub fn top_percent(alloc: Global, values: &[Seen<'_>], p: u32) -> Result<Vec<usize>, TopRefused>
    requires numbers { AreNumbers (seen_values values.now) }
    requires percent { p ≤ 100 }
    ensures value { let vs = seen_values values.now in Takes (top_places (reaches_percent p vs) false vs) result }
{
    by_percent(alloc, values, p, false)
}

/// The places of the fewest of the least values whose sum is at least `p` percent of the sum of all, ascending.
pub fn bottom_percent(alloc: Global, values: &[Seen<'_>], p: u32) -> Result<Vec<usize>, TopRefused>
    requires numbers { AreNumbers (seen_values values.now) }
    requires percent { p ≤ 100 }
    ensures value { let vs = seen_values values.now in Takes (top_places (reaches_percent p vs) true vs) result }
{
    by_percent(alloc, values, p, true)
}

/// The places of the first `n` values of the ranking, ascending.
fn by_count(
    alloc: Global,
    values: &[Seen<'_>],
    n: u64,
    bottom: bool,
) -> Result<Vec<usize>, TopRefused>
    ensures { Takes (top_places (reaches_count n) bottom (seen_values values.now)) result }
{
    let n = at_most(n, values.len());
    let first = first_by_rank(alloc, values, n, bottom)?;
    Ok(ascending(alloc, values.len(), first.as_slice())?)
}

/// The places of the `n` greatest values, or with `bottom` of the `n` least, ascending. The values may be cut into so many parts:
/// each finds its own first values in a thread of its own, and this thread the first of all among these.
pub fn count_in_parts<R: Threads + Sync>(
    rt: &R,
    alloc: Global,
    values: &[Seen<'_>],
    n: u64,
    bottom: bool,
    workers: u32,
) -> Result<Vec<usize>, TopRefused>
    requires some { 0 < workers }
    ensures value { Takes (top_places (reaches_count n) bottom (seen_values values.now)) result }
{
    let n = at_most(n, values.len());
    let first = first_by_workers(rt, alloc, values, n, bottom, workers)?;
    Ok(ascending(alloc, values.len(), first.as_slice())?)
}

/// A count, or a limit where the count is above it.
fn at_most(n: u64, limit: usize) -> usize
    ensures { result ≡ min n limit }
{
    match usize::try_from(n) {
        Ok(n) => n.min(limit),
        Err(_) => limit,
    }
}

/// The places of the shortest front of the ranking whose sum is at least a number, ascending; a
/// value that is no number counts as 0.
fn by_sum(
    alloc: Global,
    values: &[Seen<'_>],
    bound: Seen<'_>,
    bottom: bool,
) -> Result<Vec<usize>, TopRefused>
    requires numbers { AreNumbers (seen_values values.now) }
    ensures { Takes (top_places (reaches_sum (number_part (seen_value bound.entry))) bottom (seen_values values.now)) result }
{
    let ranking = number_ranking(alloc, values, bottom)?;
    let n = front_reaching(values, ranking.as_slice(), least_of_bound(values, bound));
    Ok(ascending(alloc, values.len(), &ranking[..n])?)
}

/// The places of the shortest front of the ranking whose sum is at least `p` percent of the sum of all, ascending.
fn by_percent(
    alloc: Global,
    values: &[Seen<'_>],
    p: u32,
    bottom: bool,
) -> Result<Vec<usize>, TopRefused>
    requires numbers { AreNumbers (seen_values values.now) }
    requires percent { p ≤ 100 }
    ensures { let vs = seen_values values.now in Takes (top_places (reaches_percent p vs) bottom vs) result }
{
    let ranking = number_ranking(alloc, values, bottom)?;
    let n = front_reaching(values, ranking.as_slice(), least_of_percent(values, p));
    Ok(ascending(alloc, values.len(), &ranking[..n])?)
}
