//! Rows that are told by the numbers of their nodes, and the aggregates of their values at each node and below it: the values are
//! folded where they stand.
ghost use Rattle.std.specs.Prelude.{◌≡◌, ℕ, ◌^◌, ◌<◌, ◌≤◌, All, IfOk, IfSome, IsTrue, length, option_map, slice_index, slice_index_or, unwrap_or};
ghost use Rattle.edm_values.specs.declared.Method.TheVariants as by;
ghost use Rattle.edm_values.specs.declared.Value.{Value as Value'};
ghost use Rattle.edm_values.specs.Lists.{at_places};
ghost use Rattle.edm_data.specs.Hierarchies as hierarchy;
ghost use Rattle.apply_ast.specs.Views.{expr_of};
ghost use Rattle.apply_meaning.specs.Aggregates.{aggregate};
ghost use Rattle.apply_meaning.specs.Meaning.{values};
ghost use Rattle.apply_meaning.specs.Running.{all_of};
ghost use Rattle.aggregate_ops.specs.Partials.{AreFoldable};
ghost use Rattle.rollup_rec.specs.NodeFolds.{AreAggregates, AreNested};
ghost use Rattle.rollup_rec.specs.NodeRows as told;

use crate::distincts::distinct_aggregates;
use crate::node_aggregates::NodeValues;
use crate::node_folds::{NodeIntervals, NodeRowValues, aggregates_of};
use aggregate_ops::{Aggregated, MaxOf, MinOf, SumOf};
use apply_ast::Expr;
use edm_data::Data;
use edm_values::{Method, Value};
use hier_index::Index;
use par_stages::Gate;
use row_values::RowList;
use std::alloc::{AllocError, Global};
use std::marker::Model;
use std::thread::Threads;

/// The number of a node; another one where there is none.
fn number_or(numbers: &[u32], node: Option<u32>, none: u32) -> u32
    requires { IfSome node (λ y. y < length numbers.now) }
    ensures { result ≡ unwrap_or (option_map (slice_index numbers.now) node) none }
{
    match node {
        Some(node) => numbers[node as usize],
        None => none,
    }
}

/// The number of each row's node; another one for rows without a node.
fn row_numbers(
    alloc: Global,
    numbers: &[u32],
    nodes: &[Option<u32>],
    none: u32,
) -> Result<Vec<u32>, AllocError>
    requires { All (λ n. IfSome n (λ y. y < length numbers.now)) nodes.now }
    ensures { IfOk result (λ found. found.items ≡ told.row_numbers numbers.now none nodes.now) }
{
    let mut found = Vec::with_capacity(alloc, nodes.len())?;
    for node in nodes {
        found.push(number_or(numbers, *node, none))?;
    }
    Ok(found)
}

/// Rows with their nodes, which are told by their numbers in preorder.
#[derive(Drop)]
pub struct NodeNumbers<'a, 'n> {
    index: &'a Index,
    nodes: &'n [Option<u32>],
    numbers: &'a [u32],
    lasts: &'a [u32],
    of_rows: Vec<u32>,
}

impl<'a, 'n> Model for NodeNumbers<'a, 'n> {
    ghost use Rattle.rollup_rec.specs.NodeRows.{AreNodeNumbers, NodeNumbersState};

    ghost Value = { NodeNumbersState };

    ghost view = { λ r. record { parents = r.index.now; nodes = r.nodes.now } };

    ghost invariant = { λ r. AreNodeNumbers r.index.now r.nodes.now r.numbers.now r.lasts.now r.of_rows.items };
}

impl<'a, 'n> NodeNumbers<'a, 'n> {
    /// The rows with these nodes: one entry for each row, none where a row has no node.
    pub fn new(
        alloc: Global,
        index: &'a Index,
        nodes: &'n [Option<u32>],
    ) -> Result<NodeNumbers<'a, 'n>, AllocError>
        requires there { All (λ n. IfSome n (λ y. y < length index.now)) nodes.now }
        ensures parents { IfOk result (λ r. r.parents ≡ index.now) }
        ensures nodes { IfOk result (λ r. r.nodes ≡ nodes.now) }
    {
        let (numbers, lasts) = index.intervals();
        let of_rows = row_numbers(alloc, numbers, nodes, index.count())?;
        Ok(NodeNumbers {
            index,
            nodes,
            numbers,
            lasts,
            of_rows,
        })
    }

    /// For each node the aggregate by a method of the values of an expression on the instances of a list whose node is that node or a
    /// descendant of it. The instances are the rows, and their values are of one type. Each value is folded once, whatever the depth
    /// of its node; what is kept of a node is taken over by the node above it. Of counts of distinct values a row takes time at each
    /// node above its own, and there are none where a value is past its range.
    pub fn values<R: Threads + Sync, G: Gate>(
        &self,
        rt: &R,
        alloc: Global,
        store: &Data,
        e: &Expr,
        method: Method,
        list: &RowList<'_>,
        workers: u32,
        gate: &G,
    ) -> Result<Option<NodeValues<'a>>, AllocError>
        requires some { 0 < workers }
        requires few { workers ≤ 64 }
        requires of { IsTrue (all_of store.now list.now) }
        requires kind { AreFoldable method (values store.now (expr_of e.now) list.now) }
        requires size { length list.now ≡ length self.now.nodes }
        ensures size { IfOk result (λ o. IfSome o (λ v. length v ≡ length self.now.parents)) }
        ensures value { IfOk result (λ o. IfSome o (λ v. (x : ℕ) → x < length self.now.parents → slice_index_or v x Value'.Null ≡ aggregate method (at_places (values store.now (expr_of e.now) list.now) (hierarchy.rows_under self.now.parents x self.now.nodes)))) }
    {
        if self.nodes.len() >= 1 << 63 {
            return Err(AllocError);
        }
        let _count = self.index.count();
        let rows = NodeIntervals {
            numbers: self.numbers,
            lasts: self.lasts,
            nodes: self.nodes,
        };
        let of_rows = self.of_rows.as_slice();
        let found = aggregates_on(
            rt, alloc, &rows, of_rows, store, e, method, list, workers, gate,
        )?;
        match found {
            Some(values) => Ok(Some(NodeValues::new(self.numbers, values))),
            None => Ok(None),
        }
    }
}

/// For each number of a node the aggregate of the values of an expression on the instances whose node has it, or a number of that
/// node's interval: by partials of the kind of `empty`, which take these values.
fn aggregates_by<R: Threads + Sync, P: Aggregated + Sync, G: Gate>(
    rt: &R,
    alloc: Global,
    rows: &NodeIntervals<'_>,
    of_rows: &[u32],
    store: &Data,
    e: &Expr,
    list: &RowList<'_>,
    empty: P,
    workers: u32,
    gate: &G,
) -> Result<Vec<Value>, AllocError>
    requires some { 0 < workers }
    requires few { workers ≤ 64 }
    requires few_rows { length rows.now.nodes.now < 2 ^ 63 }
    requires lasts { length rows.now.lasts.now ≡ length rows.now.numbers.now }
    requires numbers { All (λ k. k < length rows.now.numbers.now) rows.now.numbers.now }
    requires one { (x y : ℕ) → x < length rows.now.numbers.now → y < length rows.now.numbers.now → slice_index rows.now.numbers.now x ≡ slice_index rows.now.numbers.now y → x ≡ y }
    requires nests { AreNested rows.now.numbers.now rows.now.lasts.now }
    requires nodes { All (λ n. IfSome n (λ y. y < length rows.now.numbers.now)) rows.now.nodes.now }
    requires told { of_rows.now ≡ told.row_numbers rows.now.numbers.now (length rows.now.numbers.now) rows.now.nodes.now }
    requires of { IsTrue (all_of store.now list.now) }
    requires size { length list.now ≡ length rows.now.nodes.now }
    requires kind { All (P.takes (P.kind empty)) (values store.now (expr_of e.now) list.now) }
    ensures { IfOk result (λ found. AreAggregates P.method rows.now.numbers.now rows.now.lasts.now rows.now.nodes.now (values store.now (expr_of e.now) list.now) found.items) }
{
    let count = rows.numbers.len() + 1;
    let mut own = list.partials_by(rt, alloc, store, e, empty, of_rows, count, workers, gate)?;
    own.truncate(rows.numbers.len());
    aggregates_of(alloc, rows, own)
}

/// The same by a method; none of counts of distinct values of which one is past its range.
fn aggregates_on<R: Threads + Sync, G: Gate>(
    rt: &R,
    alloc: Global,
    rows: &NodeIntervals<'_>,
    of_rows: &[u32],
    store: &Data,
    e: &Expr,
    method: Method,
    list: &RowList<'_>,
    workers: u32,
    gate: &G,
) -> Result<Option<Vec<Value>>, AllocError>
    requires some { 0 < workers }
    requires few { workers ≤ 64 }
    requires small { length rows.now.numbers.now < 2 ^ 32 }
    requires few_rows { length rows.now.nodes.now < 2 ^ 63 }
    requires lasts { length rows.now.lasts.now ≡ length rows.now.numbers.now }
    requires numbers { All (λ k. k < length rows.now.numbers.now) rows.now.numbers.now }
    requires one { (x y : ℕ) → x < length rows.now.numbers.now → y < length rows.now.numbers.now → slice_index rows.now.numbers.now x ≡ slice_index rows.now.numbers.now y → x ≡ y }
    requires nests { AreNested rows.now.numbers.now rows.now.lasts.now }
    requires nodes { All (λ n. IfSome n (λ y. y < length rows.now.numbers.now)) rows.now.nodes.now }
    requires told { of_rows.now ≡ told.row_numbers rows.now.numbers.now (length rows.now.numbers.now) rows.now.nodes.now }
    requires of { IsTrue (all_of store.now list.now) }
    requires size { length list.now ≡ length rows.now.nodes.now }
    requires kind { AreFoldable method (values store.now (expr_of e.now) list.now) }
    ensures { IfOk result (λ o. IfSome o (λ found. AreAggregates method rows.now.numbers.now rows.now.lasts.now rows.now.nodes.now (values store.now (expr_of e.now) list.now) found.items)) }
{
    let kind = list.kind(alloc, store, e)?;
    match method {
        Method::Sum => {
            let empty = SumOf::new(kind);
            let found = aggregates_by(
                rt, alloc, rows, of_rows, store, e, list, empty, workers, gate,
            )?;
            Ok(Some(found))
        }
        Method::Min => {
            let empty = MinOf::new(alloc, kind);
            let found = aggregates_by(
                rt, alloc, rows, of_rows, store, e, list, empty, workers, gate,
            )?;
            Ok(Some(found))
        }
        Method::Max => {
            let empty = MaxOf::new(alloc, kind);
            let found = aggregates_by(
                rt, alloc, rows, of_rows, store, e, list, empty, workers, gate,
            )?;
            Ok(Some(found))
        }
        Method::CountDistinct => distincts_on(rt, alloc, rows, store, e, list, workers),
    }
}

/// The counts of distinct values, of which a list is made.
fn distincts_on<R: Threads + Sync>(
    rt: &R,
    alloc: Global,
    rows: &NodeIntervals<'_>,
    store: &Data,
    e: &Expr,
    list: &RowList<'_>,
    workers: u32,
) -> Result<Option<Vec<Value>>, AllocError>
    requires some { 0 < workers }
    requires small { length rows.now.numbers.now < 2 ^ 32 }
    requires lasts { length rows.now.lasts.now ≡ length rows.now.numbers.now }
    requires numbers { All (λ k. k < length rows.now.numbers.now) rows.now.numbers.now }
    requires one { (x y : ℕ) → x < length rows.now.numbers.now → y < length rows.now.numbers.now → slice_index rows.now.numbers.now x ≡ slice_index rows.now.numbers.now y → x ≡ y }
    requires nodes { All (λ n. IfSome n (λ y. y < length rows.now.numbers.now)) rows.now.nodes.now }
    requires of { IsTrue (all_of store.now list.now) }
    requires size { length list.now ≡ length rows.now.nodes.now }
    ensures { IfOk result (λ o. IfSome o (λ found. AreAggregates by.CountDistinct rows.now.numbers.now rows.now.lasts.now rows.now.nodes.now (values store.now (expr_of e.now) list.now) found.items)) }
{
    let seen = list.seen_values(rt, alloc, store, e, workers)?;
    let with_values = NodeRowValues {
        numbers: rows.numbers,
        lasts: rows.lasts,
        nodes: rows.nodes,
        values: seen.as_slice(),
    };
    distinct_aggregates(rt, alloc, &with_values, workers)
}
