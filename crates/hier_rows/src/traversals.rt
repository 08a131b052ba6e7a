//! The rows that a traversal lists.
ghost use Rattle.std.specs.Prelude.{◌≡◌, ◌<◌, ◌≤◌, ◌+◌, IfOk, IsTrue, length, nat_lt, if◌then◌else◌, map};
ghost use Rattle.std.specs.List.{list_all};
ghost use Rattle.edm_values.specs.Lists.{is_nonempty};
ghost use Rattle.edm_model.specs.LookUps.{HierarchyPlace, IsSet};
ghost use Rattle.edm_data.specs.References.{count};
ghost use Rattle.apply_ast.specs.Views.{item_of, traverse_of};
ghost use Rattle.apply_meaning.specs.Instances.{rows as rows_in};
ghost use Rattle.apply_meaning.specs.Meaning.{order_values, refused_at_beyond};
ghost use Rattle.apply_meaning.specs.Running.{all_of};
ghost use Rattle.hier_index.specs.Walks.{is_postorder};
ghost use Rattle.row_orders.specs.Ranks.{GivesNumbers, ranks};
ghost use Rattle.hier_rows.specs.HierRows.{IsNodesOf, traverse_outcome};

use crate::nodes::nodes_of;
use apply_ast::{OrderList, TraverseStep};
use apply_meaning::{RunRefused, Steps, set_rows};
use edm_data::Data;
use edm_model::SetId;
use hier_index::WalkOrder;
use hier_states::Nodes;
use hier_traverse::traverse;
use row_orders::row_ranks;
use row_values::RowList;
use std::alloc::Global;
use std::sync::ledger::Ledger;
use std::thread::Threads;

/// The order of a walk.
fn walk_order(post: bool) -> WalkOrder
    ensures { is_postorder result ≡ post }
{
    if post {
        WalkOrder::Post
    } else {
        WalkOrder::Pre
    }
}

/// The rank of each node by the items: how many nodes stand before it. Without items no row is made.
fn node_ranks<L: Ledger>(
    alloc: Global,
    store: &Data,
    set: SetId,
    items: &OrderList,
    steps: &mut Steps<L>,
) -> Result<Vec<u32>, RunRefused>
    requires { IsSet store.now.model set }
    ensures ranks { let xs = map item_of items.now in let l = rows_in store.now set in GivesNumbers result (refused_at_beyond (order_values store.now xs l) (ranks store.now xs l)) }
    ensures steps { steps.new ≤ steps.old + (if is_nonempty items.now then count store.now set else 0) }
    ensures grown { steps.old ≤ steps.new }
{
    let size = store.count(set);
    if items.as_slice().is_empty() {
        return Ok(vec![in alloc; 0; size as usize]?);
    }
    let nodes = set_rows(alloc, store, set, steps)?;
    row_ranks(alloc, store, items, &nodes)
}

/// The places of the rows that have a node, node by node in the order of a walk, siblings by the items and then in data order.
/// The items are evaluated on every node, one step a node. Rows of one node keep their order. The values of the path may be worked
/// out in so many parts, each by a thread of its own.
pub fn traverse_places<R: Threads + Sync, L: Ledger>(
    rt: &R,
    alloc: Global,
    store: &Data,
    nodes: Nodes<'_>,
    walk: &TraverseStep,
    rows: &RowList<'_>,
    workers: u32,
    steps: &mut Steps<L>,
) -> Result<Vec<usize>, RunRefused>
    requires some { 0 < workers }
    requires nodes { (f : HierarchyPlace) × IsNodesOf store.now f nodes.set nodes.index.now }
    requires set { IsSet store.now.model nodes.set }
    requires of { IsTrue (all_of store.now rows.now) }
    ensures value { (f : HierarchyPlace) → IsNodesOf store.now f nodes.entry.set nodes.entry.index.now → GivesNumbers result (traverse_outcome store.now f (traverse_of walk.now) rows.now) }
    ensures within { IfOk result (λ v. IsTrue (list_all (λ k. nat_lt k (length rows.now)) v.items)) }
    ensures steps { steps.new ≤ steps.old + (if is_nonempty (traverse_of walk.now).items then count store.now nodes.entry.set else 0) }
    ensures grown { steps.old ≤ steps.new }
{
    let own = nodes_of(rt, alloc, store, nodes.set, &walk.path, rows, workers)?;
    let rank = node_ranks(alloc, store, nodes.set, &walk.items, steps)?;
    Ok(traverse(alloc, nodes.index, &own, walk_order(walk.post), &rank)?)
}
