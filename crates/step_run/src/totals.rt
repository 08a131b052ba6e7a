//! Recursive rollups whose groups an aggregation makes one row each. What an aggregation gives does not hang on the order of the
//! instances, so they are put once in the order of the numbers of their nodes, in which those at or below a node are neighbours.
ghost use Rattle.std.specs.Prelude.{◌≡◌, ℕ, ◌+◌, ◌-◌, ◌<◌, ◌≤◌, ◌∷◌, [], ◌++◌, All, List, Some, IfOk, IfSome, IsTrue, drop, is_some, length, map, nat_lt, option_map, slice_get, slice_index_or, take};
ghost use Rattle.std.specs.Global.{Vec as Vec'};
ghost use Rattle.std.specs.List.{cons_option, list_all};
ghost use Rattle.edm_values.specs.declared.Value.{Value as Value'};
ghost use Rattle.edm_values.specs.Lists.{at_places};
ghost use Rattle.edm_model.specs.LookUps.{HierarchyPlace, IsSet};
ghost use Rattle.edm_data.specs.Nodes as node_of;
ghost use Rattle.edm_data.specs.References.{count};
ghost use Rattle.apply_ast.specs.Trees as tree;
ghost use Rattle.apply_ast.specs.Views.{agg_of, hier_of, inner_of, keys_of, pipe_of, step_of};
ghost use Rattle.context_typing.specs.Readings.{readings};
ghost use Rattle.context_typing.specs.Shapes.{Shape};
ghost use Rattle.context_typing.specs.Typing.{hierarchy_at, root_type};
ghost use Rattle.apply_meaning.specs.Meaning as spec;
ghost use Rattle.apply_meaning.specs.Running.{all_of};
ghost use Rattle.hier_states.specs.States.{IsReadyAt};
ghost use Rattle.step_run.specs.Conditions.{ItemReady, ItemsReady};
ghost use Rattle.step_run.specs.ItemLists.{AreItemLists, item_list};
ghost use Rattle.step_run.specs.Totals as seen;
ghost use Rattle.step_run.specs.Totals.{AreAtNodes, AreKnownAt, AreNodeLists, AreNodesOf, GivesTotals, TotalsReady, item_outcome, total_row, totals_at, totals_step};

use crate::aggregations::item_value;
use crate::contexts::Context;
use crate::item_lists::{ItemList, list_at};
use apply_ast::{AggItem, AggList, HierName, KeyItem, KeyList, Path, Pipe, Step};
use apply_meaning::{Row, RunRefused, Steps, data_is_loaded, path_of};
use edm_model::{SetId, TypeId};
use edm_values::{Method, Value};
use hier_index::Index;
use hier_rows::{identifier, nodes_of};
use par_stages::Gate;
use rollup_rec::{NodeNumbers, NodeRows, NodeValues};
use row_values::{PlacedRows, RowList};
use std::alloc::{AllocError, Global};
use std::sync::ledger::Ledger;
use std::thread::Threads;

/// A grouping whose only key is a recursive rollup, and whose inner pipeline is an aggregation alone.
#[derive(Clone, Copy)]
pub struct NodeTotals<'a> {
    /// The hierarchy.
    pub hier: &'a HierName,
    /// The path that leads to the node of an instance.
    pub path: &'a Path,
    /// The pipeline that gives the nodes that are shown; all nodes are where there is none.
    pub shown: &'a Option<Pipe>,
    /// The items of the aggregation.
    pub items: &'a AggList,
}

/// The items of a pipeline that is an aggregation alone.
pub(crate) fn lone_items(pipe: &Pipe) -> Option<&AggList>
    ensures { IfSome result (λ items. pipe_of pipe.now ≡ tree.Pipe.Then (tree.Step.Aggregate (map agg_of items.now)) tree.Pipe.End) }
{
    let steps = pipe.steps();
    if steps.len() != 1 {
        return None;
    }
    match &steps[0] {
        Step::Aggregate(items) => Some(items),
        _ => None,
    }
}

/// What keys without and with an aggregation over them are, where the only key is a recursive rollup.
fn totals_by<'a>(keys: &'a KeyList, items: &'a AggList) -> Option<NodeTotals<'a>>
    ensures keys { IfSome result (λ t. keys_of keys.now ≡ tree.Keys.MoreKeys (tree.Key.Recursive (hier_of t.hier.now) t.path.now (inner_of (option_map pipe_of t.shown.now))) tree.Keys.NoKeys) }
    ensures items { IfSome result (λ t. t.items.now ≡ items.now) }
{
    let keys = keys.as_slice();
    if keys.len() != 1 {
        return None;
    }
    match &keys[0] {
        KeyItem::Recursive(hier, path, shown) => Some(NodeTotals {
            hier,
            path,
            shown,
            items,
        }),
        _ => None,
    }
}

/// The transformation as such a grouping, where it is one.
pub fn node_totals(step: &Step) -> Option<NodeTotals<'_>>
    ensures step { IfSome result (λ t. step_of step.now ≡ totals_step (hier_of t.hier.now) t.path.now (inner_of (option_map pipe_of t.shown.now)) (map agg_of t.items.now)) }
{
    match step {
        Step::GroupBy(keys, Some(pipe)) => match lone_items(pipe) {
            Some(items) => totals_by(keys, items),
            None => None,
        },
        _ => None,
    }
}

/// For each node the value of an item on the instances at it or below it, where these are worked out for all nodes at once.
pub(crate) type NodeList<'a> = Option<NodeValues<'a>>;

/// For each node the value of an item on the instances at it or below it, where it is an aggregate by a method; none where distinct
/// values are counted of which one is past its range.
fn node_list<'a, R: Threads + Sync, G: Gate>(
    alloc: Global,
    context: &Context<'_, R, G>,
    root: &Option<TypeId>,
    item: &AggItem,
    rows: &RowList<'_>,
    told: &NodeNumbers<'a, '_>,
) -> Result<NodeList<'a>, AllocError>
    requires of { IsTrue (all_of context.now.world rows.now) }
    requires rows { length rows.now ≡ length told.now.nodes }
    requires ready { ItemReady context.now root.now (agg_of item.now) rows.now }
    ensures { IfOk result (λ o. (v : List Value') → o ≡ Some v → AreAtNodes context.now.world rows.now told.now.parents told.now.nodes (agg_of item.now) v) }
{
    data_is_loaded(context.store());
    match item {
        AggItem::Standard(e, method, _) => {
            let list = context.node_values(alloc, *method, e, rows, told)?;
            Ok(list)
        }
        AggItem::Count(_) => Ok(None),
        AggItem::Custom(..) => Ok(None),
    }
}

/// The same of each item.
fn node_lists<'a, R: Threads + Sync, G: Gate>(
    alloc: Global,
    context: &Context<'_, R, G>,
    root: &Option<TypeId>,
    items: &[AggItem],
    rows: &RowList<'_>,
    index: &'a Index,
    nodes: &[Option<u32>],
) -> Result<Vec<NodeList<'a>>, AllocError>
    requires of { IsTrue (all_of context.now.world rows.now) }
    requires there { All (λ n. IfSome n (λ y. y < length index.now)) nodes.now }
    requires rows { length nodes.now ≡ length rows.now }
    requires ready { ItemsReady context.now root.now (map agg_of items.now) rows.now }
    ensures { IfOk result (λ lists. AreNodeLists context.now.world rows.now index.now nodes.now (map agg_of items.now) lists.items) }
{
    let told = NodeNumbers::new(alloc, index, nodes)?;
    let mut lists = Vec::with_capacity(alloc, items.len())?;
    for item in items {
        lists.push(node_list(alloc, context, root, item, rows, &told)?)?;
    }
    Ok(lists)
}

/// The values of an item on instances, where it counts the distinct values of an expression, and its value at each node is not known.
fn list_on<R: Threads + Sync, G: Gate>(
    alloc: Global,
    context: &Context<'_, R, G>,
    item: &AggItem,
    is_known: bool,
    rows: &PlacedRows<'_>,
) -> Result<ItemList, AllocError>
    requires { IsTrue (all_of context.now.world rows.now) }
    ensures { IfOk result (λ list. (v : Vec' Value') → list ≡ Some v → item_list context.now.world rows.now (agg_of item.now) ≡ Some v.items) }
{
    if is_known {
        return Ok(None);
    }
    match item {
        AggItem::Standard(e, method, _) => {
            if matches!(method, Method::CountDistinct) {
                let values = context.values(alloc, e, rows)?;
                return Ok(Some(values));
            }
            Ok(None)
        }
        AggItem::Count(_) => Ok(None),
        AggItem::Custom(..) => Ok(None),
    }
}

/// The values on instances of each item that counts distinct values, but for those whose values at nodes are known.
fn lists_on<R: Threads + Sync, G: Gate>(
    alloc: Global,
    context: &Context<'_, R, G>,
    items: &[AggItem],
    known: &[NodeList<'_>],
    rows: &PlacedRows<'_>,
) -> Result<Vec<ItemList>, AllocError>
    requires { IsTrue (all_of context.now.world rows.now) }
    ensures { IfOk result (λ lists. AreItemLists context.now.world rows.now (map agg_of items.now) lists.items) }
{
    let mut lists = Vec::with_capacity(alloc, items.len())?;
    for (k, item) in items.iter().enumerate() {
        let is_known = known_at(known, k).is_some();
        lists.push(list_on(alloc, context, item, is_known, rows)?)?;
    }
    Ok(lists)
}

/// The name and the value of an item on instances, of whose values on them all are known or none.
fn value_on<R: Threads + Sync, G: Gate>(
    alloc: Global,
    context: &Context<'_, R, G>,
    root: &Option<TypeId>,
    item: &AggItem,
    values: Option<&[Value]>,
    rows: &PlacedRows<'_>,
) -> Result<(Path, Value), AllocError>
    requires values { (v : List Value') → option_map (λ o. o.now) values ≡ Some v → item_list context.now.world rows.now (agg_of item.now) ≡ Some v }
    requires ready { ItemReady context.now root.now (agg_of item.now) rows.now }
    ensures { (S : Shape) → root_type S ≡ root.now
        → IfOk result (λ column. column ≡ spec.item_value context.now.world (readings context.now.customs) S rows.now (agg_of item.now)) }
{
    data_is_loaded(context.store());
    let Some(values) = values else {
        return item_value(alloc, context, root, item, rows);
    };
    match item {
        AggItem::Standard(_, method, name) => {
            let value = context.aggregate(alloc, *method, values)?;
            Ok((path_of(alloc, name)?, value))
        }
        AggItem::Count(_) => unreachable!(),
        AggItem::Custom(..) => unreachable!(),
    }
}

/// The name and the value of an item at a node, of which the value at each node is known.
fn value_at_node<R: Threads + Sync, G: Gate>(
    alloc: Global,
    context: &Context<'_, R, G>,
    item: &AggItem,
    known: &NodeValues<'_>,
    node: u32,
    rows: &PlacedRows<'_>,
) -> Result<(Path, Value), AllocError>
    requires there { node < length known.now }
    requires known { item_outcome context.now.world rows.now (agg_of item.now) ≡ Some (slice_index_or known.now node Value'.Null) }
    ensures { (S : Shape) → IfOk result (λ column. column ≡ spec.item_value context.now.world (readings context.now.customs) S rows.now (agg_of item.now)) }
{
    match item {
        AggItem::Standard(_, _, name) => {
            let value = known.at(node).own(alloc)?;
            Ok((path_of(alloc, name)?, value))
        }
        AggItem::Count(_) => unreachable!(),
        AggItem::Custom(..) => unreachable!(),
    }
}

/// The name and the value of an item on instances: at a node, where the value at each node is known, or by its values on them, of
/// which all are known or none.
fn item_column<R: Threads + Sync, G: Gate>(
    alloc: Global,
    context: &Context<'_, R, G>,
    root: &Option<TypeId>,
    item: &AggItem,
    known: Option<&NodeValues<'_>>,
    node: u32,
    values: Option<&[Value]>,
    rows: &PlacedRows<'_>,
) -> Result<(Path, Value), AllocError>
    requires known { (v : List Value') → option_map (λ o. o.now) known ≡ Some v → (node < length v) × (item_outcome context.now.world rows.now (agg_of item.now) ≡ Some (slice_index_or v node Value'.Null)) }
    requires values { (v : List Value') → option_map (λ o. o.now) values ≡ Some v → item_list context.now.world rows.now (agg_of item.now) ≡ Some v }
    requires ready { ItemReady context.now root.now (agg_of item.now) rows.now }
    ensures { (S : Shape) → root_type S ≡ root.now
        → IfOk result (λ column. column ≡ spec.item_value context.now.world (readings context.now.customs) S rows.now (agg_of item.now)) }
{
    match known {
        Some(known) => value_at_node(alloc, context, item, known, node, rows),
        None => value_on(alloc, context, root, item, values, rows),
    }
}

/// The values of item k at all nodes, where they are known.
fn known_at<'b, 'a>(lists: &'b [NodeList<'a>], k: usize) -> Option<&'b NodeValues<'a>>
    ensures { (v : List Value') → option_map (λ o. o.now) result ≡ Some v → slice_get lists.now k ≡ Some (Some v) }
{
    let own = lists.get(k)?;
    match own {
        Some(values) => Some(values),
        None => None,
    }
}

/// Of the values of item k, where they are known, those from the first place on that stand before the end.
fn values_between(lists: &[ItemList], k: usize, first: usize, end: usize) -> Option<&[Value]>
    requires order { first ≤ end }
    requires within { (u : Vec' Value') → slice_get lists.now k ≡ Some (Some u) → end ≤ length u.items }
    ensures { (v : List Value') → option_map (λ o. o.now) result ≡ Some v
        → (u : Vec' Value') × (slice_get lists.now k ≡ Some (Some u)) × (v ≡ take (end - first) (drop first u.items)) }
{
    let Some(own) = list_at(lists, k) else {
        return None;
    };
    match own {
        Some(values) => Some(&values.as_slice()[first..end]),
        None => None,
    }
}

/// The columns of the items on those of the instances at these places that stand from the first on before the end. The values of
/// the items on all of these instances are known.
pub(crate) fn columns_between<R: Threads + Sync, G: Gate>(
    alloc: Global,
    context: &Context<'_, R, G>,
    root: &Option<TypeId>,
    items: &[AggItem],
    lists: &[ItemList],
    known: &[NodeList<'_>],
    node: u32,
    rows: &RowList<'_>,
    places: &[usize],
    first: usize,
    end: usize,
) -> Result<Vec<(Path, Value)>, AllocError>
    requires known { AreKnownAt context.now.world (at_places rows.now (take (end - first) (drop first places.now))) (map agg_of items.now) node known.now }
    requires order { first ≤ end }
    requires end { end ≤ length places.now }
    requires within { IsTrue (list_all (λ k. nat_lt k (length rows.now)) places.now) }
    requires lists { AreItemLists context.now.world (at_places rows.now places.now) (map agg_of items.now) lists.now }
    requires ready { ItemsReady context.now root.now (map agg_of items.now) (at_places rows.now (take (end - first) (drop first places.now))) }
    ensures { (S : Shape) → root_type S ≡ root.now
        → IfOk result (λ cs. cs.items ≡ map (spec.item_value context.now.world (readings context.now.customs) S (at_places rows.now (take (end - first) (drop first places.now)))) (map agg_of items.now)) }
{
    let own = PlacedRows::at(rows, &places[first..end]);
    let mut columns = Vec::with_capacity(alloc, items.len() + 1)?;
    for (k, item) in items.iter().enumerate() {
        let values = values_between(lists, k, first, end);
        let at_nodes = known_at(known, k);
        columns.push(item_column(alloc, context, root, item, at_nodes, node, values, &own)?)?;
    }
    Ok(columns)
}

/// The row of a node over those of the instances at these places that stand from the first on before the end: one step.
fn row_between<R: Threads + Sync, G: Gate, L: Ledger>(
    alloc: Global,
    context: &Context<'_, R, G>,
    root: &Option<TypeId>,
    totals: &NodeTotals<'_>,
    node: Value,
    at: u32,
    lists: &[ItemList],
    known: &[NodeList<'_>],
    rows: &RowList<'_>,
    places: &[usize],
    first: usize,
    end: usize,
    steps: &mut Steps<L>,
) -> Result<Row, AllocError>
    requires known { AreKnownAt context.now.world (at_places rows.now (take (end - first) (drop first places.now))) (map agg_of totals.now.items.now) at known.now }
    requires order { first ≤ end }
    requires end { end ≤ length places.now }
    requires within { IsTrue (list_all (λ k. nat_lt k (length rows.now)) places.now) }
    requires lists { AreItemLists context.now.world (at_places rows.now places.now) (map agg_of totals.now.items.now) lists.now }
    requires ready { TotalsReady context.now root.now (map agg_of totals.now.items.now) totals.now.path.now rows.now }
    ensures row { (S : Shape) → root_type S ≡ root.now
        → IfOk result (λ row. row ≡ total_row context.now.world (readings context.now.customs) S (map agg_of totals.now.items.now) totals.now.path.now node (at_places rows.now (take (end - first) (drop first places.now)))) }
    ensures steps { steps.new ≤ steps.old + 1 }
    ensures grown { steps.old ≤ steps.new }
{
    let items = totals.items.as_slice();
    let mut columns = columns_between(
        alloc, context, root, items, lists, known, at, rows, places, first, end,
    )?;
    columns.push((totals.path.copy(alloc)?, node))?;
    Row::make(alloc, Vec::new(alloc), None, columns, steps)
}

/// The row of a node, where instances stand at it or below it: one step. The values of the items on the instances in the order of
/// the numbers of their nodes are known.
fn row_of_node<R: Threads + Sync, G: Gate, L: Ledger>(
    alloc: Global,
    context: &Context<'_, R, G>,
    root: &Option<TypeId>,
    totals: &NodeTotals<'_>,
    set: SetId,
    order: &NodeRows<'_>,
    lists: &[ItemList],
    known: &[NodeList<'_>],
    node: u32,
    rows: &RowList<'_>,
    steps: &mut Steps<L>,
) -> Result<Option<Row>, AllocError>
    requires set { IsSet context.now.world.model set }
    requires there { node < length order.now.parents }
    requires rows { length order.now.nodes ≡ length rows.now }
    requires lists { AreItemLists context.now.world (at_places rows.now order.now.rows) (map agg_of totals.now.items.now) lists.now }
    requires known { AreNodeLists context.now.world rows.now order.now.parents order.now.nodes (map agg_of totals.now.items.now) known.now }
    requires ready { TotalsReady context.now root.now (map agg_of totals.now.items.now) totals.now.path.now rows.now }
    ensures row { (f : HierarchyPlace) (S : Shape) → AreNodesOf context.now.world f totals.now.path.now rows.now set order.now.parents order.now.nodes → root_type S ≡ root.now
        → IfOk result (λ o. cons_option o [] ≡ totals_at context.now.world (readings context.now.customs) S f (map agg_of totals.now.items.now) totals.now.path.now rows.now node) }
    ensures steps { (f : HierarchyPlace) (S : Shape) → AreNodesOf context.now.world f totals.now.path.now rows.now set order.now.parents order.now.nodes → root_type S ≡ root.now
        → steps.new ≤ steps.old + length (totals_at context.now.world (readings context.now.customs) S f (map agg_of totals.now.items.now) totals.now.path.now rows.now node) }
    ensures grown { steps.old ≤ steps.new }
{
    let places = order.places();
    let (first, end) = order.run(node);
    if first >= end {
        return Ok(None);
    }
    let own = identifier(alloc, context.store(), set, node)?;
    let row = row_between(
        alloc, context, root, totals, own, node, lists, known, rows, places, first, end, steps,
    )?;
    Ok(Some(row))
}

/// The rows of the nodes that are shown and that have instances at them or below them, in their order: one step a row. The values
/// of aggregates by methods are known at each node, or, of those that count distinct values, on the instances in the order of the
/// numbers of their nodes.
fn rows_of_nodes<R: Threads + Sync, G: Gate, L: Ledger>(
    alloc: Global,
    context: &Context<'_, R, G>,
    root: &Option<TypeId>,
    totals: &NodeTotals<'_>,
    set: SetId,
    order: &NodeRows<'_>,
    lists: &[ItemList],
    known: &[NodeList<'_>],
    shown: &[u32],
    rows: &RowList<'_>,
    steps: &mut Steps<L>,
) -> Result<Vec<Row>, AllocError>
    requires set { IsSet context.now.world.model set }
    requires shown { All (λ x. x < length order.now.parents) shown.now }
    requires rows { length order.now.nodes ≡ length rows.now }
    requires lists { AreItemLists context.now.world (at_places rows.now order.now.rows) (map agg_of totals.now.items.now) lists.now }
    requires known { AreNodeLists context.now.world rows.now order.now.parents order.now.nodes (map agg_of totals.now.items.now) known.now }
    requires ready { TotalsReady context.now root.now (map agg_of totals.now.items.now) totals.now.path.now rows.now }
    ensures rows { (f : HierarchyPlace) (S : Shape) → AreNodesOf context.now.world f totals.now.path.now rows.now set order.now.parents order.now.nodes → root_type S ≡ root.now
        → IfOk result (λ made. made.items ≡ seen.totals context.now.world (readings context.now.customs) S f (map agg_of totals.now.items.now) totals.now.path.now shown.now rows.now) }
    ensures steps { (f : HierarchyPlace) (S : Shape) → AreNodesOf context.now.world f totals.now.path.now rows.now set order.now.parents order.now.nodes → root_type S ≡ root.now
        → steps.new ≤ steps.old + length (seen.totals context.now.world (readings context.now.customs) S f (map agg_of totals.now.items.now) totals.now.path.now shown.now rows.now) }
    ensures grown { steps.old ≤ steps.new }
{
    let mut made = Vec::new(alloc);
    for node in shown {
        let row = row_of_node(
            alloc, context, root, totals, set, order, lists, known, *node, rows, steps,
        )?;
        if let Some(row) = row {
            made.push(row)?;
        }
    }
    Ok(made)
}

/// What such a grouping gives of the nodes that are shown: one step a row.
pub fn total_rows<R: Threads + Sync, G: Gate, L: Ledger>(
    alloc: Global,
    context: &Context<'_, R, G>,
    root: &Option<TypeId>,
    totals: &NodeTotals<'_>,
    shown: &[u32],
    rows: &RowList<'_>,
    steps: &mut Steps<L>,
) -> Result<Vec<Row>, RunRefused>
    requires of { IsTrue (all_of context.now.world rows.now) }
    requires there { IsTrue (is_some (hierarchy_at context.now.world.model (hier_of totals.now.hier.now))) }
    requires index { IsReadyAt context.now.world context.now.hiers (hier_of totals.now.hier.now) }
    requires shown { (f : HierarchyPlace) → hierarchy_at context.now.world.model (hier_of totals.now.hier.now) ≡ Some f → All (λ x. x < count context.now.world f.set) shown.now }
    requires ready { TotalsReady context.now root.now (map agg_of totals.now.items.now) totals.now.path.now rows.now }
    ensures rows { (f : HierarchyPlace) (S : Shape) → hierarchy_at context.now.world.model (hier_of totals.now.hier.now) ≡ Some f → root_type S ≡ root.now
        → GivesTotals result context.now S f (map agg_of totals.now.items.now) totals.now.path.now shown.now rows.now }
    ensures steps { (f : HierarchyPlace) (S : Shape) → hierarchy_at context.now.world.model (hier_of totals.now.hier.now) ≡ Some f → root_type S ≡ root.now
        → steps.new ≤ steps.old + length (seen.totals context.now.world (readings context.now.customs) S f (map agg_of totals.now.items.now) totals.now.path.now shown.now rows.now) }
    ensures grown { steps.old ≤ steps.new }
{
    let found = context.nodes(totals.hier);
    let inner = context.alone();
    let nodes = nodes_of(
        context.rt(),
        alloc,
        context.store(),
        found.set,
        totals.path,
        rows,
        context.workers(),
    )?;
    let order = NodeRows::new(alloc, found.index, nodes.as_slice())?;
    let placed = PlacedRows::at(rows, order.places());
    let items = totals.items.as_slice();
    let known = node_lists(
        alloc,
        context,
        root,
        items,
        rows,
        found.index,
        nodes.as_slice(),
    )?;
    let known = known.as_slice();
    let lists = lists_on(alloc, context, items, known, &placed)?;
    let lists = lists.as_slice();
    Ok(rows_of_nodes(
        alloc, &inner, root, totals, found.set, &order, lists, known, shown, rows, steps,
    )?)
}
