//! The nodes that rows stand at.
ghost use Rattle.std.specs.Prelude.{◌≡◌, IfOk, filter_map, nat_eq, option_map};
ghost use Rattle.edm_values.specs.Lists.{distinct, places};
ghost use Rattle.edm_data.specs.References.{count as count_in};
ghost use Rattle.apply_meaning.specs.Instances.{root_of, rows as rows_in};
ghost use Rattle.apply_meaning.specs.Meaning.{shown_of};
ghost use Rattle.hier_rows.specs.HierRows.{AreNodesBelow, AreRootsBelow};

use apply_meaning::Row;
use edm_data::Data;
use edm_model::SetId;
use std::alloc::{AllocError, Global};

/// The places of the entities that rows stand at.
fn root_places(alloc: Global, rows: &[Row]) -> Result<Vec<u32>, AllocError>
    ensures { IfOk result (λ v. v.items ≡ filter_map (λ i. option_map (λ e. e.at) (root_of i)) rows.now) }
{
    let mut places = Vec::new(alloc);
    for row in rows {
        if let Some(node) = row.root() {
            places.push(node.at)?;
        }
    }
    Ok(places)
}

/// Each node once, in order of first appearance. There is a mark for each node, so that it takes one pass.
fn each_once(alloc: Global, count: u32, nodes: &[u32]) -> Result<Vec<u32>, AllocError>
    requires { AreNodesBelow count nodes.now }
    ensures { IfOk result (λ v. v.items ≡ distinct nat_eq nodes.now) }
{
    let mut marks = vec![in alloc; false; count as usize]?;
    let mut found = Vec::new(alloc);
    for node in nodes {
        let place = *node as usize;
        if marks[place] {
            continue;
        }
        marks[place] = true;
        found.push(*node)?;
    }
    Ok(found)
}

/// The nodes that rows stand at by their entities, each once, in order of first appearance. It takes one pass over the rows and
/// one over the nodes.
pub fn shown_nodes(alloc: Global, count: u32, rows: &[Row]) -> Result<Vec<u32>, AllocError>
    requires { AreRootsBelow count rows.now }
    ensures value { IfOk result (λ v. v.items ≡ shown_of rows.now) }
    ensures within { IfOk result (λ v. AreNodesBelow count v.items) }
{
    let places = root_places(alloc, rows)?;
    each_once(alloc, count, &places)
}

/// The first nodes, in their order.
fn first_nodes(alloc: Global, count: u32) -> Result<Vec<u32>, AllocError>
    ensures { IfOk result (λ v. v.items ≡ places count) }
{
    let mut nodes = Vec::new(alloc);
    for node in 0..count {
        nodes.push(node)?;
    }
    Ok(nodes)
}

/// All nodes in data order: those that the rows of the set stand at.
pub fn all_nodes(alloc: Global, store: &Data, set: SetId) -> Result<Vec<u32>, AllocError>
    ensures value { IfOk result (λ v. v.items ≡ shown_of (rows_in store.now set)) }
    ensures within { IfOk result (λ v. AreNodesBelow (count_in store.now set) v.items) }
{
    first_nodes(alloc, store.count(set))
}
