//! The aggregate by a method of values at each node of a hierarchy and below it.
ghost use Rattle.std.specs.Prelude.{◌≡◌, ℕ, ◌^◌, ◌<◌, All, IfOk, IfSome, IsTrue, is_some, length, map, slice_index, slice_index_or};
ghost use Rattle.std.specs.List.{list_all};
ghost use Rattle.edm_values.specs.declared.Method.{Method as Method'};
ghost use Rattle.edm_values.specs.declared.Value.{Value as Value'};
ghost use Rattle.edm_values.specs.Lists.{at_places};
ghost use Rattle.edm_values.specs.Literals.{is_of_kind};
ghost use Rattle.edm_values.specs.Values.{seen_value};
ghost use Rattle.edm_data.specs.Hierarchies as hierarchy;
ghost use Rattle.context_typing.specs.Typing.{method_kind};
ghost use Rattle.apply_meaning.specs.Aggregates.{aggregate};
ghost use Rattle.aggregate_ops.specs.Partials.{AreFoldable};
ghost use Rattle.rollup_rec.specs.NodeFolds.{AreAggregates, AreNested};

use crate::distincts::distinct_aggregates;
use crate::node_folds::{NodeRowValues, aggregates_by_number};
use aggregate_ops::{MaxOf, MinOf, SumOf, kind_of};
use edm_values::{EdmType, Method, Seen, Value};
use hier_index::Index;
use std::alloc::{AllocError, Global};
use std::marker::Model;
use std::thread::Threads;

/// A value for each node of a hierarchy.
#[derive(Drop)]
pub struct NodeValues<'a> {
    numbers: &'a [u32],
    values: Vec<Value>,
}

impl<'a> Model for NodeValues<'a> {
    ghost use Rattle.std.specs.Prelude.{◌<◌, All, List, length, map, slice_index_or};
    ghost use Rattle.edm_values.specs.declared.Value.{Value as Value'};

    ghost Value = { List Value' };

    ghost view = { λ s. map (λ k. slice_index_or s.values.items k Value'.Null) s.numbers.now };

    ghost invariant = { λ s. All (λ k. k < length s.values.items) s.numbers.now };
}

impl<'a> NodeValues<'a> {
    /// The values at the nodes' numbers.
    pub(crate) fn new(numbers: &'a [u32], values: Vec<Value>) -> NodeValues<'a>
        requires { All (λ k. k < length values.items) numbers.now }
        ensures { result ≡ map (λ k. slice_index_or values.items k Value'.Null) numbers.now }
    {
        NodeValues { numbers, values }
    }

    /// The value of a node.
    pub fn at(&self, node: u32) -> Seen<'_>
        requires there { node < length self.now }
        ensures value { seen_value result ≡ slice_index_or self.now node Value'.Null }
    {
        let number = self.numbers[node as usize];
        self.values[number as usize].seen()
    }
}

/// The type of values of one type: that of the first that has one of its own, and that of integers where none has.
fn kind_among(values: &[Seen<'_>]) -> EdmType
    ensures taken { (m : Method') → AreFoldable m (map (λ v. seen_value v) values.now) → IsTrue (is_some (method_kind m result)) }
    ensures typed { (m : Method') → AreFoldable m (map (λ v. seen_value v) values.now) → IsTrue (list_all (is_of_kind result) (map (λ v. seen_value v) values.now)) }
{
    for value in values {
        if let Some(kind) = kind_of(*value) {
            return kind;
        }
    }
    EdmType::Int
}

/// The aggregate at each number of a node; none of counts of distinct values of which one is past its range.
fn aggregates_by<R: Threads + Sync>(
    rt: &R,
    alloc: Global,
    method: Method,
    rows: &NodeRowValues<'_, '_>,
    workers: u32,
) -> Result<Option<Vec<Value>>, AllocError>
    requires some { 0 < workers }
    requires small { length rows.now.numbers.now < 2 ^ 32 }
    requires few { length rows.now.nodes.now < 2 ^ 63 }
    requires lasts { length rows.now.lasts.now ≡ length rows.now.numbers.now }
    requires numbers { All (λ k. k < length rows.now.numbers.now) rows.now.numbers.now }
    requires one { (x y : ℕ) → x < length rows.now.numbers.now → y < length rows.now.numbers.now → slice_index rows.now.numbers.now x ≡ slice_index rows.now.numbers.now y → x ≡ y }
    requires nests { AreNested rows.now.numbers.now rows.now.lasts.now }
    requires nodes { All (λ n. IfSome n (λ y. y < length rows.now.numbers.now)) rows.now.nodes.now }
    requires size { length rows.now.values.now ≡ length rows.now.nodes.now }
    requires kind { AreFoldable method (map (λ v. seen_value v) rows.now.values.now) }
    ensures { IfOk result (λ o. IfSome o (λ found. AreAggregates method rows.now.numbers.now rows.now.lasts.now rows.now.nodes.now (map (λ v. seen_value v) rows.now.values.now) found.items)) }
{
    let kind = kind_among(rows.values);
    match method {
        Method::Sum => {
            let empty = SumOf::new(kind);
            Ok(Some(aggregates_by_number(alloc, rows, &empty)?))
        }
        Method::Min => {
            let empty = MinOf::new(alloc, kind);
            Ok(Some(aggregates_by_number(alloc, rows, &empty)?))
        }
        Method::Max => {
            let empty = MaxOf::new(alloc, kind);
            Ok(Some(aggregates_by_number(alloc, rows, &empty)?))
        }
        Method::CountDistinct => distinct_aggregates(rt, alloc, rows, workers),
    }
}

/// For each node the aggregate by a method of the values at the rows whose node is that node or a descendant of it. `nodes` and
/// `values` have one entry for each row; the values are of one type. Each value is folded once, whatever the depth of its node;
/// what is kept of a node is taken over by the node above it. Of counts of distinct values a row takes time at each node above its
/// own, and there are none where a value is past its range.
pub fn node_values<'a, R: Threads + Sync>(
    rt: &R,
    alloc: Global,
    index: &'a Index,
    nodes: &[Option<u32>],
    method: Method,
    values: &[Seen<'_>],
    workers: u32,
) -> Result<Option<NodeValues<'a>>, AllocError>
    requires some { 0 < workers }
    requires there { All (λ n. IfSome n (λ y. y < length index.now)) nodes.now }
    requires size { length values.now ≡ length nodes.now }
    requires kind { AreFoldable method (map (λ v. seen_value v) values.now) }
    ensures size { IfOk result (λ o. IfSome o (λ v. length v ≡ length index.now)) }
    ensures value { IfOk result (λ o. IfSome o (λ v. (x : ℕ) → x < length index.now → slice_index_or v x Value'.Null ≡ aggregate method (at_places (map (λ v. seen_value v) values.now) (hierarchy.rows_under index.now x nodes.now)))) }
{
    if nodes.len() >= 1 << 63 {
        return Err(AllocError);
    }
    let _count = index.count();
    let (numbers, lasts) = index.intervals();
    let rows = NodeRowValues {
        numbers,
        lasts,
        nodes,
        values,
    };
    match aggregates_by(rt, alloc, method, &rows, workers)? {
        Some(values) => Ok(Some(NodeValues { numbers, values })),
        None => Ok(None),
    }
}
