//! Nodes that are kept for the entities of a frame, and the instances whose node is marked.
ghost use Rattle.std.specs.Prelude.{◌≡◌, ◌<◌, false, IfOk, IfSome, Some, map, option_map, slice_index_or, unwrap_or};
ghost use Rattle.edm_data.specs.Hierarchies.{rows_whose};
ghost use Rattle.edm_data.specs.LinkLists.{link_in};
ghost use Rattle.apply_meaning.specs.Instances.{root_of};
ghost use Rattle.hier_rows.specs.Sources.{node_at, own_at};

use crate::sources::{Source, own_node};
use edm_data::LinkedPlaces;
use row_frames::RootPlaces;
use row_values::RowList;
use std::alloc::{AllocError, Global};

/// The places of the entities that the instances of a list stand at, where it is a frame that has them.
pub(crate) fn places_in<'a>(list: &RowList<'a>) -> Option<RootPlaces<'a>>
    ensures { IfSome result (λ r. map (λ i. option_map (λ e. e.at) (root_of i)) list.now ≡ map (λ k. Some k) r) }
{
    let frame = list.frame()?;
    frame.root_places()
}

/// The nodes of entities that are nodes themselves, of which there are this many.
fn own_nodes(
    alloc: Global,
    count: u32,
    places: &RootPlaces<'_>,
) -> Result<Vec<Option<u32>>, AllocError>
    ensures { IfOk result (λ v. v.items ≡ map (own_at count) places.now) }
{
    let mut nodes = Vec::with_capacity(alloc, places.len())?;
    for k in 0..places.len() {
        nodes.push(own_node(count, places.at(k)))?;
    }
    Ok(nodes)
}

/// The nodes that entities refer to.
fn linked_nodes(
    alloc: Global,
    links: &LinkedPlaces<'_>,
    places: &RootPlaces<'_>,
) -> Result<Vec<Option<u32>>, AllocError>
    ensures { IfOk result (λ v. v.items ≡ map (link_in links.now) places.now) }
{
    let mut nodes = Vec::with_capacity(alloc, places.len())?;
    for k in 0..places.len() {
        nodes.push(links.at(places.at(k)))?;
    }
    Ok(nodes)
}

/// The nodes of the entities at these places.
pub(crate) fn nodes_at(
    alloc: Global,
    source: &Source<'_>,
    places: &RootPlaces<'_>,
) -> Result<Vec<Option<u32>>, AllocError>
    ensures { IfOk result (λ v. v.items ≡ map (node_at source.now) places.now) }
{
    match source {
        Source::Own(count) => own_nodes(alloc, *count, places),
        Source::Linked(links) => linked_nodes(alloc, links, places),
    }
}

/// Whether there is a node, and it is marked.
#[inline(always)]
pub(crate) fn is_marked(node: Option<u32>, marks: &[bool]) -> bool
    ensures { result ≡ unwrap_or (option_map (λ x. slice_index_or marks.now x false) node) false }
{
    match node {
        Some(x) => match marks.get(x as usize) {
            Some(mark) => *mark,
            None => false,
        },
        None => false,
    }
}

/// The instances whose entity is a marked node, of which there are this many.
fn own_marked(
    alloc: Global,
    count: u32,
    places: &RootPlaces<'_>,
    marks: &[bool],
) -> Result<Vec<usize>, AllocError>
    ensures { IfOk result (λ v. v.items ≡ rows_whose (λ x. slice_index_or marks.now x false) (map (own_at count) places.now)) }
{
    let mut rows = Vec::new(alloc);
    for k in 0..places.len() {
        if is_marked(own_node(count, places.at(k)), marks) {
            rows.push(k)?;
        }
    }
    Ok(rows)
}

/// The instances whose entity refers to a marked node.
fn linked_marked(
    alloc: Global,
    links: &LinkedPlaces<'_>,
    places: &RootPlaces<'_>,
    marks: &[bool],
) -> Result<Vec<usize>, AllocError>
    ensures { IfOk result (λ v. v.items ≡ rows_whose (λ x. slice_index_or marks.now x false) (map (link_in links.now) places.now)) }
{
    let mut rows = Vec::new(alloc);
    for k in 0..places.len() {
        if is_marked(links.at(places.at(k)), marks) {
            rows.push(k)?;
        }
    }
    Ok(rows)
}

/// The places of the instances whose node is marked, of a frame whose entities stand at these places.
pub(crate) fn marked_at(
    alloc: Global,
    source: &Source<'_>,
    places: &RootPlaces<'_>,
    marks: &[bool],
) -> Result<Vec<usize>, AllocError>
    ensures { IfOk result (λ v. v.items ≡ rows_whose (λ x. slice_index_or marks.now x false) (map (node_at source.now) places.now)) }
{
    match source {
        Source::Own(count) => own_marked(alloc, *count, places, marks),
        Source::Linked(links) => linked_marked(alloc, links, places, marks),
    }
}
