//! Recursive rollups with plain keys beside them, whose groups an aggregation makes one row each. The instances of each key are put
//! once in the order of the numbers of their nodes, and what is worked out for all nodes at once is worked out for each key.
ghost use Rattle.std.specs.Prelude.{◌≡◌, ℕ, ◌+◌, ◌<◌, ◌≤◌, ◌∷◌, [], ◌++◌, All, List, None, Some, IfOk, IfSome, IsTrue, filter, flat_map, get_or, is_some, length, map, nat_lt, option_map, slice_get};
ghost use Rattle.std.specs.List.{list_all};
ghost use Rattle.edm_values.specs.declared.Value.{Value as Value'};
ghost use Rattle.edm_values.specs.Lists.{at_places};
ghost use Rattle.edm_values.specs.Refusals.{Returns};
ghost use Rattle.edm_values.specs.Values.{seen_value};
ghost use Rattle.edm_model.specs.LookUps.{HierarchyPlace, IsSet};
ghost use Rattle.edm_data.specs.Nodes as node_of;
ghost use Rattle.edm_data.specs.References.{count};
ghost use Rattle.apply_ast.specs.Views.{agg_of, hier_of, keys_of, step_of};
ghost use Rattle.context_typing.specs.Readings.{readings};
ghost use Rattle.context_typing.specs.Shapes.{Shape};
ghost use Rattle.context_typing.specs.Typing.{group_keys, hierarchy_at, key_paths, plain_paths, root_type};
ghost use Rattle.apply_meaning.specs.Instances.{no_instance};
ghost use Rattle.apply_meaning.specs.Meaning.{at_or_below, step_mean};
ghost use Rattle.apply_meaning.specs.Running.{all_of};
ghost use Rattle.group_rollup.specs.NumberedBy.{AreNumberedBy};
ghost use Rattle.hier_states.specs.States.{IsReadyAt};
ghost use Rattle.numbered_groups.specs.Numbered.{places_with};
ghost use Rattle.step_run.specs.Conditions.{ItemReady, ItemsReady};
ghost use Rattle.step_run.specs.GroupTotals.{grouped_step};
ghost use Rattle.step_run.specs.ItemLists.{item_list};
ghost use Rattle.step_run.specs.KeyedTotals as seen;
ghost use Rattle.step_run.specs.KeyedTotals.{AreKeyRows, AreNodesOfAll, AreOfNumbers, AreRowsOfKeys, AreSeenLists, GivesKeyed, HaveFirsts, IsKeyedBy, IsNodeOfAll, KeyedReady, key_row, keyed_totals};
ghost use Rattle.step_run.specs.Totals.{AreAtNodes, AreNodeLists, AreNodesOf};

use crate::contexts::Context;
use crate::groups::key_columns;
use crate::kept_groups::{members_of, places_at, values_at};
use crate::levels::{all_paths, plain_keys};
use crate::totals::{NodeList, columns_between, lone_items};
use aggregate_ops::Groups;
use apply_ast::{AggItem, AggList, HierName, KeyItem, KeyList, Path, Step};
use apply_meaning::{Row, RunRefused, Steps, data_is_loaded};
use edm_model::{SetId, TypeId};
use edm_values::{Seen, Value};
use hier_index::Index;
use hier_rows::{identifier, nodes_of};
use numbered_groups::NumberedGroups;
use par_stages::Gate;
use rollup_rec::{NodeRows, node_values};
use row_values::RowList;
use std::alloc::{AllocError, Global};
use std::marker::Model;
use std::sync::ledger::Ledger;
use std::thread::Threads;

/// A grouping whose inner pipeline is an aggregation alone, with the groups of a list by its plain keys.
#[derive(Drop)]
pub struct KeyedGroups<'a> {
    /// The keys.
    pub keys: &'a KeyList,
    /// The items of the aggregation.
    pub items: &'a AggList,
    /// The groups by the plain keys.
    pub groups: NumberedGroups,
}

/// Whether one key is plain, and one is a recursive rollup.
fn are_mixed(keys: &[KeyItem]) -> bool {
    let mut plain = false;
    let mut recursive = false;
    for key in keys {
        match key {
            KeyItem::Plain(_) => plain = true,
            KeyItem::Rollup(..) => {}
            KeyItem::Recursive(..) => recursive = true,
        }
    }
    plain && recursive
}

/// The keys and the items of a grouping by plain keys and a recursive rollup, whose inner pipeline is an aggregation alone.
fn keyed_parts(step: &Step) -> Option<(&KeyList, &AggList)>
    ensures { IfSome result (λ o. step_of step.now ≡ grouped_step (keys_of o.0.now) (map agg_of o.1.now)) }
{
    match step {
        Step::GroupBy(keys, Some(pipe)) => match lone_items(pipe) {
            Some(items) => {
                if !are_mixed(keys.as_slice()) {
                    return None;
                }
                Some((keys, items))
            }
            None => None,
        },
        _ => None,
    }
}

/// The groups of a list by the plain keys of such a grouping; nothing where the transformation is none.
pub fn keyed_groups<'a, R: Threads + Sync, G: Gate>(
    alloc: Global,
    context: &Context<'_, R, G>,
    step: &'a Step,
    rows: &RowList<'_>,
) -> Result<Option<KeyedGroups<'a>>, RunRefused>
    requires of { IsTrue (all_of context.now.world rows.now) }
    ensures found { Returns (λ o. IfSome o (λ k. IsKeyedBy context.now.world (step_of step.now) (keys_of k.keys.now) (map agg_of k.items.now) rows.now k.groups))
        ((S : Shape) → step_mean context.now.world (readings context.now.customs) S (step_of step.now) rows.now ≡ None) result }
{
    let Some((keys, items)) = keyed_parts(step) else {
        return Ok(None);
    };
    let plain = plain_keys(alloc, keys.as_slice())?;
    let groups = context.numbered(alloc, rows, plain.as_slice())?;
    Ok(Some(KeyedGroups {
        keys,
        items,
        groups,
    }))
}

/// Whether there are so few keys and nodes that something can be kept for each node of each key: no more than four for each
/// instance, and 65,536.
pub fn keyed_fits<R: Threads + Sync, G: Gate>(
    context: &Context<'_, R, G>,
    hier: &HierName,
    keyed: &KeyedGroups<'_>,
    rows: &RowList<'_>,
) -> bool
    requires there { IsTrue (is_some (hierarchy_at context.now.world.model (hier_of hier.now))) }
    requires index { IsReadyAt context.now.world context.now.hiers (hier_of hier.now) }
{
    let nodes = context.nodes(hier).index.count() as usize;
    let most = rows.len().saturating_mul(4).saturating_add(1 << 16);
    keyed.groups.len().saturating_mul(nodes) <= most
}

/// The values of an item on the instances, where it is an aggregate by a method.
type SeenList<'s> = Option<Vec<Seen<'s>>>;

/// The values of an item on the instances.
fn seen_list<'s, R: Threads + Sync, G: Gate>(
    alloc: Global,
    context: &'s Context<'_, R, G>,
    item: &'s AggItem,
    rows: &'s RowList<'_>,
) -> Result<SeenList<'s>, AllocError>
    requires { IsTrue (all_of context.now.world rows.now) }
    ensures { IfOk result (λ list. (v : List Value') → option_map (λ v. map (λ s. seen_value s) v.items) list ≡ Some v → item_list context.now.world rows.now (agg_of item.now) ≡ Some v) }
{
    match item {
        AggItem::Standard(e, _, _) => {
            let values = context.seen_values(alloc, e, rows)?;
            Ok(Some(values))
        }
        AggItem::Count(_) => Ok(None),
        AggItem::Custom(..) => Ok(None),
    }
}

/// The values of each item on the instances.
fn seen_lists<'s, R: Threads + Sync, G: Gate>(
    alloc: Global,
    context: &'s Context<'_, R, G>,
    items: &'s [AggItem],
    rows: &'s RowList<'_>,
) -> Result<Vec<SeenList<'s>>, AllocError>
    requires { IsTrue (all_of context.now.world rows.now) }
    ensures seen { IfOk result (λ lists. AreSeenLists context.now.world rows.now (map agg_of items.now) (map (option_map (λ v. map (λ s. seen_value s) v.items)) lists.items)) }
    ensures size { IfOk result (λ lists. length lists.items ≡ length items.now) }
{
    let mut lists = Vec::with_capacity(alloc, items.len())?;
    for item in items {
        lists.push(seen_list(alloc, context, item, rows)?)?;
    }
    Ok(lists)
}

/// The nodes of the instances at these places.
fn nodes_at(
    alloc: Global,
    nodes: &[Option<u32>],
    places: &[usize],
) -> Result<Vec<Option<u32>>, AllocError>
    requires { IsTrue (list_all (λ k. nat_lt k (length nodes.now)) places.now) }
    ensures value { IfOk result (λ own. own.items ≡ at_places nodes.now places.now) }
    ensures long { IfOk result (λ own. length own.items ≡ length places.now) }
{
    let mut own = Vec::with_capacity(alloc, places.len())?;
    for place in places {
        own.push(nodes[*place])?;
    }
    Ok(own)
}

/// The nodes of the instances at each of these lists of places.
fn node_members(
    alloc: Global,
    nodes: &[Option<u32>],
    members: &[Vec<usize>],
) -> Result<Vec<Vec<Option<u32>>>, AllocError>
    requires { All (λ v. IsTrue (list_all (λ k. nat_lt k (length nodes.now)) v.items)) members.now }
    ensures value { IfOk result (λ all. map (λ v. v.items) all.items ≡ map (λ v. at_places nodes.now v.items) members.now) }
    ensures long { IfOk result (λ all. map (λ v. length v.items) all.items ≡ map (λ v. length v.items) members.now) }
{
    let mut all = Vec::with_capacity(alloc, members.len())?;
    for places in members {
        all.push(nodes_at(alloc, nodes, places.as_slice())?)?;
    }
    Ok(all)
}

/// For each node the value of an item on those of the instances at these places that are at it or below it.
fn key_list<'a, R: Threads + Sync, G: Gate>(
    alloc: Global,
    context: &Context<'_, R, G>,
    root: &Option<TypeId>,
    item: &AggItem,
    seen: &SeenList<'_>,
    index: &'a Index,
    nodes: &[Option<u32>],
    rows: &RowList<'_>,
    places: &[usize],
) -> Result<NodeList<'a>, AllocError>
    requires within { IsTrue (list_all (λ k. nat_lt k (length rows.now)) places.now) }
    requires there { All (λ n. IfSome n (λ y. y < length index.now)) nodes.now }
    requires long { length nodes.now ≡ length places.now }
    requires seen { (v : List Value') → option_map (λ v. map (λ s. seen_value s) v.items) seen.now ≡ Some v → item_list context.now.world rows.now (agg_of item.now) ≡ Some v }
    requires ready { ItemReady context.now root.now (agg_of item.now) (at_places rows.now places.now) }
    ensures { IfOk result (λ o. (v : List Value') → o ≡ Some v → AreAtNodes context.now.world (at_places rows.now places.now) index.now nodes.now (agg_of item.now) v) }
{
    data_is_loaded(context.store());
    match item {
        AggItem::Standard(_, method, _) => match seen {
            Some(values) => {
                let own = values_at(alloc, values.as_slice(), places)?;
                let own = own.as_slice();
                let (rt, workers) = (context.rt(), context.workers());
                let list = node_values(rt, alloc, index, nodes, *method, own, workers)?;
                Ok(list)
            }
            None => Ok(None),
        },
        AggItem::Count(_) => Ok(None),
        AggItem::Custom(..) => Ok(None),
    }
}

/// The same of each item.
fn key_lists<'a, R: Threads + Sync, G: Gate>(
    alloc: Global,
    context: &Context<'_, R, G>,
    root: &Option<TypeId>,
    items: &[AggItem],
    seen: &[SeenList<'_>],
    index: &'a Index,
    nodes: &[Option<u32>],
    rows: &RowList<'_>,
    places: &[usize],
) -> Result<Vec<NodeList<'a>>, AllocError>
    requires within { IsTrue (list_all (λ k. nat_lt k (length rows.now)) places.now) }
    requires there { All (λ n. IfSome n (λ y. y < length index.now)) nodes.now }
    requires long { length nodes.now ≡ length places.now }
    requires size { length seen.now ≡ length items.now }
    requires seen { AreSeenLists context.now.world rows.now (map agg_of items.now) (map (option_map (λ v. map (λ s. seen_value s) v.items)) seen.now) }
    requires ready { ItemsReady context.now root.now (map agg_of items.now) (at_places rows.now places.now) }
    ensures { IfOk result (λ lists. AreNodeLists context.now.world (at_places rows.now places.now) index.now nodes.now (map agg_of items.now) lists.items) }
{
    let mut lists = Vec::with_capacity(alloc, items.len())?;
    for (k, item) in items.iter().enumerate() {
        let list = key_list(
            alloc, context, root, item, &seen[k], index, nodes, rows, places,
        )?;
        lists.push(list)?;
    }
    Ok(lists)
}

/// The instances of a key.
#[derive(Drop)]
struct KeyRows<'a> {
    /// Their nodes, and which of them are at a node or below it.
    order: NodeRows<'a>,
    /// The places of those that have a node, in the order of the numbers of their nodes.
    places: Vec<usize>,
    /// For each item its value at each node, where it is known.
    known: Vec<NodeList<'a>>,
}

impl<'a> Model for KeyRows<'a> {
    ghost use Rattle.step_run.specs.KeyedTotals as seen;

    ghost Value = { seen.KeyRowsState };

    ghost view = { λ r. record { order = r.order; places = r.places.items; known = r.known.items } };
}

/// The instances of the key that has these places, which have these nodes.
fn rows_of_key<'a, R: Threads + Sync, G: Gate>(
    alloc: Global,
    context: &Context<'_, R, G>,
    root: &Option<TypeId>,
    items: &[AggItem],
    seen: &[SeenList<'_>],
    index: &'a Index,
    nodes: &'a [Option<u32>],
    rows: &RowList<'_>,
    members: &[usize],
) -> Result<KeyRows<'a>, AllocError>
    requires within { IsTrue (list_all (λ k. nat_lt k (length rows.now)) members.now) }
    requires there { All (λ n. IfSome n (λ y. y < length index.now)) nodes.now }
    requires long { length nodes.now ≡ length members.now }
    requires size { length seen.now ≡ length items.now }
    requires seen { AreSeenLists context.now.world rows.now (map agg_of items.now) (map (option_map (λ v. map (λ s. seen_value s) v.items)) seen.now) }
    requires ready { ItemsReady context.now root.now (map agg_of items.now) (at_places rows.now members.now) }
    ensures own { IfOk result (AreKeyRows context.now.world (map agg_of items.now) rows.now members.now) }
    ensures parents { IfOk result (λ r. r.order.parents ≡ index.now) }
    ensures nodes { IfOk result (λ r. r.order.nodes ≡ nodes.now) }
{
    let order = NodeRows::new(alloc, index, nodes)?;
    let places = places_at(alloc, members, order.places())?;
    let known = key_lists(
        alloc, context, root, items, seen, index, nodes, rows, members,
    )?;
    Ok(KeyRows {
        order,
        places,
        known,
    })
}

/// The instances of each key.
fn rows_of_keys<'a, R: Threads + Sync, G: Gate>(
    alloc: Global,
    context: &Context<'_, R, G>,
    root: &Option<TypeId>,
    items: &[AggItem],
    seen: &[SeenList<'_>],
    index: &'a Index,
    nodes: &'a [Vec<Option<u32>>],
    rows: &RowList<'_>,
    members: &[Vec<usize>],
) -> Result<Vec<KeyRows<'a>>, AllocError>
    requires within { All (λ v. IsTrue (list_all (λ k. nat_lt k (length rows.now)) v.items)) members.now }
    requires there { All (λ v. All (λ n. IfSome n (λ y. y < length index.now)) v.items) nodes.now }
    requires count { length nodes.now ≡ length members.now }
    requires long { map (λ v. length v.items) nodes.now ≡ map (λ v. length v.items) members.now }
    requires size { length seen.now ≡ length items.now }
    requires seen { AreSeenLists context.now.world rows.now (map agg_of items.now) (map (option_map (λ v. map (λ s. seen_value s) v.items)) seen.now) }
    requires ready { (js : List ℕ) → ItemsReady context.now root.now (map agg_of items.now) (at_places rows.now js) }
    ensures count { IfOk result (λ all. length all.items ≡ length members.now) }
    ensures each { IfOk result (λ all. AreRowsOfKeys context.now.world (map agg_of items.now) rows.now index.now (map (λ v. v.items) nodes.now) (map (λ v. v.items) members.now) all.items) }
{
    let mut all = Vec::with_capacity(alloc, members.len())?;
    for (k, places) in members.iter().enumerate() {
        let own = nodes[k].as_slice();
        let places = places.as_slice();
        let made = rows_of_key(alloc, context, root, items, seen, index, own, rows, places)?;
        all.push(made)?;
    }
    Ok(all)
}

/// The row of a key at a node: the items over those of its instances that are at the node or below it, then the columns of the key,
/// and that of the node. One step.
fn keyed_row<R: Threads + Sync, G: Gate, L: Ledger>(
    alloc: Global,
    context: &Context<'_, R, G>,
    root: &Option<TypeId>,
    items: &[AggItem],
    own: &KeyRows<'_>,
    plain: &[Path],
    key: &[Value],
    path: &Path,
    id: Value,
    node: u32,
    rows: &RowList<'_>,
    steps: &mut Steps<L>,
) -> Result<Row, AllocError>
    requires node { node < length own.now.order.parents }
    requires own { (js : List ℕ) × IsTrue (list_all (λ k. nat_lt k (length rows.now)) js) × AreKeyRows context.now.world (map agg_of items.now) rows.now js own.now }
    requires wide { length key.now ≡ length plain.now }
    requires ready { KeyedReady context.now root.now (map agg_of items.now) plain.now path.now rows.now }
    ensures row { (f : HierarchyPlace) (S : Shape) (set : ℕ) (js : List ℕ) → IsTrue (list_all (λ k. nat_lt k (length rows.now)) js) → AreKeyRows context.now.world (map agg_of items.now) rows.now js own.now
        → AreNodesOf context.now.world f path.now (at_places rows.now js) set own.now.order.parents own.now.order.nodes → root_type S ≡ root.now
        → IfOk result (λ row. row ≡ seen.keyed_row context.now.world (readings context.now.customs) S (map agg_of items.now) plain.now key.now path.now id (filter (at_or_below context.now.world f path.now node) (at_places rows.now js))) }
    ensures steps { steps.new ≤ steps.old + 1 }
    ensures grown { steps.old ≤ steps.new }
{
    let (first, end) = own.order.run(node);
    let known = own.known.as_slice();
    let places = own.places.as_slice();
    let mut columns = columns_between(
        alloc,
        context,
        root,
        items,
        &[],
        known,
        node,
        rows,
        places,
        first,
        end,
    )?;
    let mut behind = key_columns(alloc, plain, key)?;
    columns.append(&mut behind)?;
    columns.push((path.copy(alloc)?, id))?;
    Row::make(alloc, Vec::new(alloc), None, columns, steps)
}

/// The place of the first instance of group k, the places of a group's instances being places of these.
fn first_place(firsts: &[usize], groups: &Groups, k: usize) -> usize
    requires within { k < length groups.now }
    requires first { (g : List Value' × List ℕ) → slice_get groups.now k ≡ Some g → (place : ℕ) × (rest : List ℕ) × (g.1 ≡ place ∷ rest) × (place < length firsts.now) }
    ensures { (g : List Value' × List ℕ) (place : ℕ) (rest : List ℕ) → slice_get groups.now k ≡ Some g → g.1 ≡ place ∷ rest → result ≡ get_or firsts.now place 0 }
{
    firsts[groups.places(k)[0]]
}

/// The rows so far, and then those of the keys of a node.
fn rows_at_node<R: Threads + Sync, G: Gate, L: Ledger>(
    alloc: Global,
    context: &Context<'_, R, G>,
    root: &Option<TypeId>,
    items: &[AggItem],
    all: &[KeyRows<'_>],
    numbers: &[u32],
    firsts: &[usize],
    plain: &[Path],
    path: &Path,
    set: SetId,
    node: u32,
    groups: &Groups,
    rows: &RowList<'_>,
    made: Vec<Row>,
    steps: &mut Steps<L>,
) -> Result<Vec<Row>, AllocError>
    requires set { IsSet context.now.world.model set }
    requires node { IsNodeOfAll node all.now }
    requires all { AreOfNumbers context.now.world (map agg_of items.now) plain.now rows.now numbers.now all.now }
    requires firsts { HaveFirsts context.now.world plain.now rows.now firsts.now groups.now }
    requires ready { KeyedReady context.now root.now (map agg_of items.now) plain.now path.now rows.now }
    ensures rows { (f : HierarchyPlace) (S : Shape) → f.set ≡ set → AreNodesOfAll context.now.world f path.now rows.now set numbers.now all.now → root_type S ≡ root.now
        → IfOk result (λ v. v.items ≡ made.items ++ map (λ g. key_row context.now.world (readings context.now.customs) S f (map agg_of items.now) plain.now path.now rows.now node g.0) groups.now) }
    ensures steps { steps.new ≤ steps.old + length groups.now }
    ensures grown { steps.old ≤ steps.new }
{
    let mut made = made;
    for k in 0..groups.len() {
        let first = first_place(firsts, groups, k);
        let number = numbers[first];
        let own = &all[number as usize];
        let id = identifier(alloc, context.store(), set, node)?;
        let key = groups.key(k);
        made.push(keyed_row(
            alloc, context, root, items, own, plain, key, path, id, node, rows, steps,
        )?)?;
    }
    Ok(made)
}

/// The rows of all nodes that are shown.
fn rows_at_nodes<R: Threads + Sync, G: Gate, L: Ledger>(
    alloc: Global,
    context: &Context<'_, R, G>,
    root: &Option<TypeId>,
    items: &[AggItem],
    all: &[KeyRows<'_>],
    numbers: &[u32],
    firsts: &[usize],
    plain: &[Path],
    path: &Path,
    set: SetId,
    rolled: &[(u32, Groups)],
    rows: &RowList<'_>,
    steps: &mut Steps<L>,
) -> Result<Vec<Row>, AllocError>
    requires set { IsSet context.now.world.model set }
    requires all { AreOfNumbers context.now.world (map agg_of items.now) plain.now rows.now numbers.now all.now }
    requires nodes { All (λ e. IsNodeOfAll e.0 all.now) rolled.now }
    requires firsts { All (λ e. HaveFirsts context.now.world plain.now rows.now firsts.now e.1) rolled.now }
    requires ready { KeyedReady context.now root.now (map agg_of items.now) plain.now path.now rows.now }
    ensures rows { (f : HierarchyPlace) (S : Shape) → f.set ≡ set → AreNodesOfAll context.now.world f path.now rows.now set numbers.now all.now → root_type S ≡ root.now
        → IfOk result (λ v. v.items ≡ flat_map (seen.rolled_rows context.now.world (readings context.now.customs) S f (map agg_of items.now) plain.now path.now rows.now) rolled.now) }
    ensures steps { steps.new ≤ steps.old + length (flat_map (λ e. e.1) rolled.now) }
    ensures grown { steps.old ≤ steps.new }
{
    let mut made = Vec::new(alloc);
    for entry in rolled {
        let (node, groups) = (entry.0, &entry.1);
        made = rows_at_node(
            alloc, context, root, items, all, numbers, firsts, plain, path, set, node, groups,
            rows, made, steps,
        )?;
    }
    Ok(made)
}

/// The rows of all nodes that are shown, each with the groups of the instances at these places, which are those of the list's first
/// instances with each key and node.
fn rows_of_rolled<R: Threads + Sync, G: Gate, L: Ledger>(
    alloc: Global,
    context: &Context<'_, R, G>,
    root: &Option<TypeId>,
    keyed: &KeyedGroups<'_>,
    plain: &[Path],
    path: &Path,
    set: SetId,
    index: &Index,
    nodes: &[Option<u32>],
    firsts: &[usize],
    rolled: &[(u32, Groups)],
    rows: &RowList<'_>,
    steps: &mut Steps<L>,
) -> Result<Vec<Row>, AllocError>
    requires of { IsTrue (all_of context.now.world rows.now) }
    requires set { IsSet context.now.world.model set }
    requires there { All (λ n. IfSome n (λ y. y < length index.now)) nodes.now }
    requires long { length nodes.now ≡ length rows.now }
    requires numbered { AreNumberedBy context.now.world plain.now rows.now keyed.now.groups }
    requires nodes { All (λ e. e.0 < length index.now) rolled.now }
    requires firsts { All (λ e. HaveFirsts context.now.world plain.now rows.now firsts.now e.1) rolled.now }
    requires ready { KeyedReady context.now root.now (map agg_of keyed.now.items.now) plain.now path.now rows.now }
    ensures rows { (f : HierarchyPlace) (S : Shape) → AreNodesOf context.now.world f path.now rows.now set index.now nodes.now → root_type S ≡ root.now
        → IfOk result (λ v. v.items ≡ flat_map (seen.rolled_rows context.now.world (readings context.now.customs) S f (map agg_of keyed.now.items.now) plain.now path.now rows.now) rolled.now) }
    ensures steps { steps.new ≤ steps.old + length (flat_map (λ e. e.1) rolled.now) }
    ensures grown { steps.old ≤ steps.new }
{
    let items = keyed.items.as_slice();
    let seen = seen_lists(alloc, context, items, rows)?;
    let members = members_of(alloc, &keyed.groups)?;
    let members = members.as_slice();
    let parts = node_members(alloc, nodes, members)?;
    let parts = parts.as_slice();
    let seen = seen.as_slice();
    let all = rows_of_keys(
        alloc, context, root, items, seen, index, parts, rows, members,
    )?;
    let all = all.as_slice();
    let numbers = keyed.groups.numbers();
    let inner = context.alone();
    rows_at_nodes(
        alloc, &inner, root, items, all, numbers, firsts, plain, path, set, rolled, rows, steps,
    )
}

/// What such a grouping gives of the nodes that are shown: one step a row.
pub fn keyed_rows<R: Threads + Sync, G: Gate, L: Ledger>(
    alloc: Global,
    context: &Context<'_, R, G>,
    root: &Option<TypeId>,
    keyed: &KeyedGroups<'_>,
    hier: &HierName,
    path: &Path,
    shown: &[u32],
    rows: &RowList<'_>,
    steps: &mut Steps<L>,
) -> Result<Vec<Row>, RunRefused>
    requires of { IsTrue (all_of context.now.world rows.now) }
    requires there { IsTrue (is_some (hierarchy_at context.now.world.model (hier_of hier.now))) }
    requires index { IsReadyAt context.now.world context.now.hiers (hier_of hier.now) }
    requires shown { (f : HierarchyPlace) → hierarchy_at context.now.world.model (hier_of hier.now) ≡ Some f → All (λ x. x < count context.now.world f.set) shown.now }
    requires paths { key_paths (group_keys (keys_of keyed.now.keys.now)) ≡ plain_paths (keys_of keyed.now.keys.now) ++ path.now ∷ [] }
    requires numbered { AreNumberedBy context.now.world (plain_paths (keys_of keyed.now.keys.now)) rows.now keyed.now.groups }
    requires ready { KeyedReady context.now root.now (map agg_of keyed.now.items.now) (plain_paths (keys_of keyed.now.keys.now)) path.now rows.now }
    ensures rows { (f : HierarchyPlace) (S : Shape) → hierarchy_at context.now.world.model (hier_of hier.now) ≡ Some f → root_type S ≡ root.now
        → GivesKeyed result context.now S f (map agg_of keyed.now.items.now) (plain_paths (keys_of keyed.now.keys.now)) path.now shown.now rows.now }
    ensures steps { (f : HierarchyPlace) (S : Shape) → hierarchy_at context.now.world.model (hier_of hier.now) ≡ Some f → root_type S ≡ root.now
        → steps.new ≤ steps.old + length (keyed_totals context.now.world (readings context.now.customs) S f (map agg_of keyed.now.items.now) (plain_paths (keys_of keyed.now.keys.now)) path.now shown.now rows.now) }
    ensures grown { steps.old ≤ steps.new }
{
    let plain = plain_keys(alloc, keyed.keys.as_slice())?;
    let plain = plain.as_slice();
    let found = context.nodes(hier);
    let store = context.store();
    let (rt, workers) = (context.rt(), context.workers());
    let nodes = nodes_of(rt, alloc, store, found.set, path, rows, workers)?;
    let nodes = nodes.as_slice();
    let paths = all_paths(alloc, keyed.keys)?;
    let finer = context.numbered(alloc, rows, paths.as_slice())?;
    let firsts = finer.firsts();
    let own = nodes_at(alloc, nodes, firsts)?;
    let lists = rows.key_lists_at(alloc, store, plain, firsts)?;
    let own = own.as_slice();
    let lists = lists.as_slice();
    let rolled = context.roll(alloc, found.index, own, shown, lists)?;
    let rolled = rolled.as_slice();
    let (set, index) = (found.set, found.index);
    Ok(rows_of_rolled(
        alloc, context, root, keyed, plain, path, set, index, nodes, firsts, rolled, rows, steps,
    )?)
}
