//! What partials keep of the values at each node of a hierarchy, and of those at it or below it.
//!
//! Nodes are told by their numbers in preorder: those below a node have the numbers that follow its own, up to its last. Each value
//! is added once, to what is kept of its row's node. Then, from the last number to the first, what is kept of a node takes what is
//! kept of the nodes below it that no other has taken: a run of numbers that follows its own.
ghost use Rattle.std.specs.Prelude.{◌≡◌, ℕ, ◌+◌, ◌^◌, ◌<◌, ◌≤◌, ◌∷◌, [], ◌++◌, List, All, IfOk, IfSome, MatchOption, OnOk, length, map, slice_index};
ghost use Rattle.edm_values.specs.declared.Value.{Value as Value'};
ghost use Rattle.edm_values.specs.Values.{seen_value};
ghost use Rattle.rollup_rec.specs.NodeFolds.{AreAggregates, AreFolds, AreKept, AreLasts, AreNested, AreOpen, ArePast, HasRuns, HasValues, IsLast, rows_between};

use aggregate_ops::Aggregated;
use edm_values::{Seen, Value};
use par_stages::Partial;
use seen_partials::SeenPartial;
use std::alloc::{AllocError, Global};

/// Rows by the numbers of their nodes: the number of each node and the last number of its interval, and of each row its node, none
/// where it has none, and its value.
#[derive(Clone, Copy, Drop)]
pub(crate) struct NodeRowValues<'a, 'v> {
    pub numbers: &'a [u32],
    pub lasts: &'a [u32],
    pub nodes: &'a [Option<u32>],
    pub values: &'a [Seen<'v>],
}

/// The same without values.
#[derive(Clone, Copy, Drop)]
pub(crate) struct NodeIntervals<'a> {
    pub numbers: &'a [u32],
    pub lasts: &'a [u32],
    pub nodes: &'a [Option<u32>],
}

/// For each number the last number of the node that has it, 0 where none has it.
pub(crate) fn lasts_by_number(
    alloc: Global,
    numbers: &[u32],
    lasts: &[u32],
) -> Result<Vec<u32>, AllocError>
    requires size { length lasts.now ≡ length numbers.now }
    requires numbers { All (λ k. k < length numbers.now) numbers.now }
    requires one { (x y : ℕ) → x < length numbers.now → y < length numbers.now → slice_index numbers.now x ≡ slice_index numbers.now y → x ≡ y }
    ensures { IfOk result (λ found. AreLasts numbers.now lasts.now (length numbers.now) found.items) }
{
    let mut found = vec![in alloc; 0; numbers.len()]?;
    for (x, number) in numbers.iter().enumerate() {
        found[*number as usize] = lasts[x];
    }
    Ok(found)
}

/// As many partials without values.
fn fresh_partials<P: Partial>(alloc: Global, empty: &P, count: usize) -> Result<Vec<P>, AllocError>
    ensures size { IfOk result (λ ps. length ps.items ≡ count) }
    ensures kind { IfOk result (λ ps. All (λ p. P.kind p ≡ P.kind empty.now) ps.items) }
    ensures empty { IfOk result (λ ps. All (λ p. P.stands_for p []) ps.items) }
{
    let mut all = Vec::with_capacity(alloc, count)?;
    for _k in 0..count {
        all.push(empty.fresh()?)?;
    }
    Ok(all)
}

/// For each number what is kept of the values at the rows whose node has it.
fn own_partials<P: SeenPartial>(
    alloc: Global,
    numbers: &[u32],
    nodes: &[Option<u32>],
    values: &[Seen<'_>],
    empty: &P,
) -> Result<Vec<P>, AllocError>
    requires few { length nodes.now < 2 ^ 63 }
    requires numbers { All (λ k. k < length numbers.now) numbers.now }
    requires nodes { All (λ n. IfSome n (λ y. y < length numbers.now)) nodes.now }
    requires size { length values.now ≡ length nodes.now }
    requires kind { All (P.takes (P.kind empty.now)) (map (λ v. seen_value v) values.now) }
    ensures { IfOk result (λ ps. AreFolds P.kind P.stands_for (P.kind empty.now) numbers.now nodes.now (map (λ v. seen_value v) values.now) (length numbers.now) (length nodes.now) ps.items) }
{
    let mut all = fresh_partials(alloc, empty, numbers.len())?;
    for (row, node) in nodes.iter().enumerate() {
        if let Some(node) = node {
            let number = numbers[*node as usize];
            all[number as usize].add_seen(values[row], row)?;
        }
    }
    Ok(all)
}

/// The last of the runs, where its first number is not past this one.
fn next_run<P: Partial>(runs: &mut Vec<(usize, P)>, last: u32) -> Option<P>
    ensures { MatchOption result ((runs.new ≡ runs.old) × ArePast last runs.old.items) (λ p. (a : ℕ) × (a ≤ last) × (runs.old.items ≡ runs.new.items ++ (a, p) ∷ [])) }
{
    let next = runs.last()?;
    if next.0 > last as usize {
        return None;
    }
    let (_, kept) = runs.pop()?;
    Some(kept)
}

/// What is kept of a number, with what is kept of the runs that follow it up to its last one. All are kept of the values at these
/// rows, of which there are some.
fn with_runs<P: Partial<Item = Value>>(
    rows: &NodeIntervals<'_>,
    own: P,
    first: usize,
    last: u32,
    runs: &mut Vec<(usize, P)>,
) -> Result<P, AllocError>
    requires few { length rows.now.nodes.now < 2 ^ 63 }
    requires nests { AreNested rows.now.numbers.now rows.now.lasts.now }
    requires last { IsLast rows.now.numbers.now rows.now.lasts.now (length rows.now.numbers.now) first last }
    requires kept { (vs : List Value') × HasValues P.kind P.stands_for (P.kind own) vs (rows_between rows.now.numbers.now rows.now.nodes.now first (first + 1)) own
        × AreOpen P.kind P.stands_for (P.kind own) rows.now.numbers.now rows.now.lasts.now rows.now.nodes.now vs (length rows.now.numbers.now) (first + 1) runs.old.items }
    ensures runs { (vs : List Value') → HasValues P.kind P.stands_for (P.kind own) vs (rows_between rows.now.numbers.now rows.now.nodes.now first (first + 1)) own
        → AreOpen P.kind P.stands_for (P.kind own) rows.now.numbers.now rows.now.lasts.now rows.now.nodes.now vs (length rows.now.numbers.now) (first + 1) runs.old.items
        → IfOk result (λ all. HasRuns P.kind P.stands_for (P.kind own) rows.now.numbers.now rows.now.lasts.now rows.now.nodes.now vs first last all runs.new.items) }
    ensures past { IfOk result (λ _. ArePast last runs.new.items) }
{
    let mut all = own;
    while let Some(next) = next_run(runs, last) {
        all.merge(next)?;
    }
    Ok(all)
}

/// For each number the aggregate of the values at the rows whose node has it, or a number of that node's interval. For each number
/// it is given what is kept of the values at the rows whose node has it.
pub(crate) fn aggregates_of<P: Aggregated>(
    alloc: Global,
    rows: &NodeIntervals<'_>,
    own: Vec<P>,
) -> Result<Vec<Value>, AllocError>
    requires few { length rows.now.nodes.now < 2 ^ 63 }
    requires lasts { length rows.now.lasts.now ≡ length rows.now.numbers.now }
    requires numbers { All (λ k. k < length rows.now.numbers.now) rows.now.numbers.now }
    requires one { (x y : ℕ) → x < length rows.now.numbers.now → y < length rows.now.numbers.now → slice_index rows.now.numbers.now x ≡ slice_index rows.now.numbers.now y → x ≡ y }
    requires nests { AreNested rows.now.numbers.now rows.now.lasts.now }
    requires nodes { All (λ n. IfSome n (λ y. y < length rows.now.numbers.now)) rows.now.nodes.now }
    requires kept { AreKept P.kind P.stands_for rows.now.numbers.now rows.now.nodes.now own.items }
    ensures { IfOk result (λ found. (kept : AreKept P.kind P.stands_for rows.now.numbers.now rows.now.nodes.now own.items) → AreAggregates P.method rows.now.numbers.now rows.now.lasts.now rows.now.nodes.now kept.vs found.items) }
{
    let ends = lasts_by_number(alloc, rows.numbers, rows.lasts)?;
    let mut own = own;
    let mut runs = Vec::new(alloc);
    let mut found = Vec::with_capacity(alloc, own.len())?;
    while let Some(kept) = own.pop() {
        let first = own.len();
        let kept = with_runs(rows, kept, first, ends[first], &mut runs)?;
        found.push(kept.outcome()?)?;
        runs.push((first, kept))?;
    }
    found.reverse();
    Ok(found)
}

/// For each number the aggregate of the values at the rows whose node has it, or a number of that node's interval.
pub(crate) fn aggregates_by_number<P: Aggregated>(
    alloc: Global,
    rows: &NodeRowValues<'_, '_>,
    empty: &P,
) -> Result<Vec<Value>, AllocError>
    requires few { length rows.now.nodes.now < 2 ^ 63 }
    requires lasts { length rows.now.lasts.now ≡ length rows.now.numbers.now }
    requires numbers { All (λ k. k < length rows.now.numbers.now) rows.now.numbers.now }
    requires one { (x y : ℕ) → x < length rows.now.numbers.now → y < length rows.now.numbers.now → slice_index rows.now.numbers.now x ≡ slice_index rows.now.numbers.now y → x ≡ y }
    requires nests { AreNested rows.now.numbers.now rows.now.lasts.now }
    requires nodes { All (λ n. IfSome n (λ y. y < length rows.now.numbers.now)) rows.now.nodes.now }
    requires size { length rows.now.values.now ≡ length rows.now.nodes.now }
    requires kind { All (P.takes (P.kind empty.now)) (map (λ v. seen_value v) rows.now.values.now) }
    ensures { IfOk result (λ found. AreAggregates P.method rows.now.numbers.now rows.now.lasts.now rows.now.nodes.now (map (λ v. seen_value v) rows.now.values.now) found.items) }
{
    let own = own_partials(alloc, rows.numbers, rows.nodes, rows.values, empty)?;
    let (numbers, lasts, nodes) = (rows.numbers, rows.lasts, rows.nodes);
    let intervals = NodeIntervals {
        numbers,
        lasts,
        nodes,
    };
    aggregates_of(alloc, &intervals, own)
}
