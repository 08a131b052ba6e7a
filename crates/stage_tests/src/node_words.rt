//! Hierarchies of organisations that are written as words: the name of each node in data order, and behind it the name of its
//! parent where it has one. Rows and start nodes are written as the names of their nodes, ranks and distances as numbers.
ghost use Rattle.std.specs.Prelude.{◌<◌, IfOk, IfSome};
ghost use Rattle.hier_traverse.specs.Rows.{AreNodesOf, AreRowsOf};

use crate::rows::world;
use edm_data::Data;
use std::alloc::Global;
use std::test::Fail;

/// The organisations of the sample.
pub(crate) const ORGS: &[&str] = &["Corp", "EMEA Corp", "US Corp", "West US", "East US", "Lab"];

/// The same with another below the second root, and children before their parents.
pub(crate) const MIXED: &[&str] = &[
    "West US",
    "US Corp",
    "Lab",
    "Corp",
    "East US",
    "EMEA Corp",
    "Annex Lab",
];

/// Three levels below one root.
pub(crate) const TREE: &[&str] = &["A", "B A", "C B", "D C", "E A", "F E", "G E"];

/// A chain whose lowest node comes first.
pub(crate) const CHAIN: &[&str] = &["D C", "C B", "B A", "A"];

/// Adds a node's entity, as a data file has it.
fn push_node(text: &mut String, alloc: Global, node: &str) -> Result<(), Fail> {
    let entity = match node.split_once(' ') {
        Some((name, parent)) => {
            format!(in alloc; "{{\"ID\":\"{name}\",\"ParentID\":\"{parent}\"}}")?
        }
        None => format!(in alloc; "{{\"ID\":\"{node}\"}}")?,
    };
    text.push_str(entity.as_str())?;
    Ok(())
}

/// The data of the nodes, over the sample's model.
pub(crate) fn node_world(alloc: Global, nodes: &[&str]) -> Result<Data, Fail> {
    let mut text = String::new(alloc);
    text.push_str("{\"Orgs\":[")?;
    for (k, node) in nodes.iter().enumerate() {
        if k > 0 {
            text.push_str(",")?;
        }
        push_node(&mut text, alloc, node)?;
    }
    text.push_str("]}")?;
    world(alloc, text.as_str())
}

/// The names of these nodes.
pub(crate) fn names(alloc: Global, nodes: &[&str], places: &[u32]) -> Result<String, Fail> {
    let mut text = String::new(alloc);
    for (k, place) in places.iter().enumerate() {
        if k > 0 {
            text.push_str(" ")?;
        }
        let Some(node) = nodes.get(*place as usize) else {
            return Err(Fail::new("no such node"));
        };
        match node.split_once(' ') {
            Some((name, _)) => text.push_str(name)?,
            None => text.push_str(node)?,
        }
    }
    Ok(text)
}

/// Whether this is the name of the node, which stands before its parent's.
fn is_named(node: &str, name: &str) -> bool {
    match node.split_once(' ') {
        Some((own, _)) => own == name,
        None => node == name,
    }
}

/// The node with this name, of the first nodes.
pub(crate) fn node_named(nodes: &[&str], count: u32, name: &str) -> Option<u32>
    ensures { IfSome result (λ x. x < count) }
{
    (0..count).find(|x| {
        nodes
            .get(*x as usize)
            .is_some_and(|node| is_named(node, name))
    })
}

/// The nodes of rows that are written as words.
pub(crate) fn rows_of(
    alloc: Global,
    nodes: &[&str],
    count: u32,
    words: &str,
) -> Result<Vec<Option<u32>>, Fail>
    ensures { IfOk result (λ rows. AreRowsOf count rows.items) }
{
    let mut rows = Vec::new(alloc);
    for name in words.split(' ') {
        rows.push(node_named(nodes, count, name))?;
    }
    Ok(rows)
}

/// The nodes with these names.
pub(crate) fn nodes_of(
    alloc: Global,
    nodes: &[&str],
    count: u32,
    words: &str,
) -> Result<Vec<u32>, Fail>
    ensures { IfOk result (λ starts. AreNodesOf count starts.items) }
{
    let mut starts = Vec::new(alloc);
    for name in words.split(' ') {
        if let Some(x) = node_named(nodes, count, name) {
            starts.push(x)?;
        }
    }
    Ok(starts)
}

/// The numbers of a text.
pub(crate) fn numbers(alloc: Global, text: &str) -> Result<Vec<u32>, Fail> {
    let mut numbers = Vec::new(alloc);
    for word in text.split_whitespace() {
        let Ok(number) = word.parse::<u32>() else {
            return Err(Fail::new("no number"));
        };
        numbers.push(number)?;
    }
    Ok(numbers)
}

/// A distance, or none for `all`.
pub(crate) fn limit_of(word: &str) -> Result<Option<u64>, Fail> {
    if word == "all" {
        return Ok(None);
    }
    match word.parse::<u64>() {
        Ok(d) => Ok(Some(d)),
        Err(_) => Err(Fail::new("no distance")),
    }
}
