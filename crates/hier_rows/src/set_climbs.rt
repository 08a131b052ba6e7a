//! The entities of a set that a climb keeps, where the data keeps their nodes: no list of the set's entities is made.
ghost use Rattle.std.specs.Prelude.{◌≡◌, ◌<◌, ℕ, [], Bool, false, IfOk, IfSome, IsTrue, Some, filter, flat_map, get_or, if◌then◌else◌, length, map, nat_eq, option_map, slice_index_or, unwrap_or};
ghost use Rattle.std.specs.List.{All, list_any};
ghost use Rattle.edm_values.specs.Lists.{places};
ghost use Rattle.edm_values.specs.Values.{is_beyond};
ghost use Rattle.edm_model.specs.LookUps.{HierarchyPlace, IsSet};
ghost use Rattle.edm_data.specs.Hierarchies.{rows_whose};
ghost use Rattle.edm_data.specs.LinkLists.{link_in, linking_to};
ghost use Rattle.apply_meaning.specs.Instances.{lookup};
ghost use Rattle.apply_meaning.specs.Running.{all_of};
ghost use Rattle.row_frames.specs.Related.{placed};
ghost use Rattle.hier_rows.specs.HierRows.{GivesPlaces, IsNodesOf, climb_outcome, node_in};
ghost use Rattle.hier_rows.specs.Sources.{node_at, own_at};

use crate::climbs::present;
use crate::kept_places::is_marked;
use crate::nodes::nodes_of;
use crate::sources::{Source, own_node, source_of};
use apply_ast::Path;
use apply_meaning::{RunRefused, data_is_loaded};
use edm_data::{Data, LinkedPlaces};
use edm_model::SetId;
use hier_states::Nodes;
use hier_traverse::node_marks;
use row_frames::property_in_set;
use row_values::RowList;
use std::alloc::{AllocError, Global};
use std::thread::Threads;

/// Where the nodes of the entities of a set are kept, as the path is a property of theirs; none where they are not.
fn source_in_set<'s>(
    alloc: Global,
    store: &'s Data,
    set: SetId,
    path: &Path,
    of: SetId,
) -> Option<Source<'s>>
    requires { IsSet store.now.model set }
    ensures nodes { IfSome result (λ x. (k : ℕ) → node_at x k ≡ node_in store.now set path.now (placed of k)) }
    ensures quiet { IfSome result (λ x. (k : ℕ) → is_beyond (lookup store.now (placed of k) path.now) ≡ false) }
{
    data_is_loaded(store);
    let Some((own, by)) = property_in_set(alloc, store, of, path) else {
        return None;
    };
    match source_of(store, own, by, set) {
        Some(source) => Some(source),
        None => None,
    }
}

/// The first entities of a set, so many, that are marked nodes themselves.
fn own_in_set(alloc: Global, nodes: u32, count: u32, marks: &[bool]) -> Result<Vec<u32>, AllocError>
    ensures { IfOk result (λ v. v.items ≡ filter (λ k. unwrap_or (option_map (λ x. slice_index_or marks.now x false) (own_at nodes k)) false) (places count)) }
{
    let mut found = Vec::new(alloc);
    for k in 0..count {
        if is_marked(own_node(nodes, k), marks) {
            found.push(k)?;
        }
    }
    Ok(found)
}

/// The first entities of a set, so many, that refer to a marked node: what each refers to is read.
fn linked_in_set(
    alloc: Global,
    links: &LinkedPlaces<'_>,
    count: u32,
    marks: &[bool],
) -> Result<Vec<u32>, AllocError>
    ensures { IfOk result (λ v. v.items ≡ filter (λ k. unwrap_or (option_map (λ x. slice_index_or marks.now x false) (link_in links.now k)) false) (places count)) }
{
    let mut found = Vec::new(alloc);
    for k in 0..count {
        if is_marked(links.at(k), marks) {
            found.push(k)?;
        }
    }
    Ok(found)
}

/// The entities that refer to marked nodes, of which there are so many, node by node; none where these are many beside the first
/// `count` entities of the set, so that to read what each of them refers to takes less time.
fn linking_few(
    alloc: Global,
    links: &LinkedPlaces<'_>,
    count: u32,
    nodes: u32,
    marks: &[bool],
) -> Result<Option<Vec<u32>>, AllocError>
    ensures { IfOk result (λ o. IfSome o (λ v. v.items ≡ flat_map (λ x. if slice_index_or marks.now x false then linking_to x links.now else []) (places nodes))) }
{
    let mut left = count as usize / ENTITIES_A_PLACE;
    let mut found = Vec::new(alloc);
    for x in 0..nodes {
        if is_marked(Some(x), marks) {
            let group = links.linking(x);
            match left.checked_sub(group.len()) {
                Some(rest) => left = rest,
                None => return Ok(None),
            }
            match left.checked_sub(PLACES_A_NODE) {
                Some(rest) => left = rest,
                None => return Ok(None),
            }
            found.extend_from_slice(group)?;
        }
    }
    Ok(Some(found))
}

/// How many entities are read in the time in which one place is put in order.
const ENTITIES_A_PLACE: usize = 8;

/// How many places are put in order in the time in which those of a node are found.
const PLACES_A_NODE: usize = 8;

/// A mark for each of the first entities of a set, so many: true for those at these places.
fn marks_at(alloc: Global, count: u32, found: &[u32]) -> Result<Vec<bool>, AllocError>
    ensures size { IfOk result (λ v. length v.items ≡ count) }
    ensures marks { IfOk result (λ v. (k : ℕ) → k < count → get_or v.items k false ≡ list_any (nat_eq k) found.now) }
{
    let mut marks = vec![in alloc; false; count as usize]?;
    for at in found {
        if *at < count {
            marks[*at as usize] = true;
        }
    }
    Ok(marks)
}

/// The places of the marks that are true, ascending.
fn marked_places(alloc: Global, count: u32, marks: &[bool]) -> Result<Vec<u32>, AllocError>
    ensures { IfOk result (λ v. v.items ≡ filter (λ k. slice_index_or marks.now k false) (places count)) }
{
    let mut found = Vec::new(alloc);
    for k in 0..count {
        if is_marked(Some(k), marks) {
            found.push(k)?;
        }
    }
    Ok(found)
}

/// The first entities of a set, so many, that are at these places.
fn in_order(alloc: Global, count: u32, found: &[u32]) -> Result<Vec<u32>, AllocError>
    ensures { IfOk result (λ v. v.items ≡ filter (λ k. list_any (nat_eq k) found.now) (places count)) }
{
    let marks = marks_at(alloc, count, found)?;
    marked_places(alloc, count, marks.as_slice())
}

/// The first entities of a set, so many, that refer to a marked node, one of so many.
fn linking_in_set(
    alloc: Global,
    links: &LinkedPlaces<'_>,
    count: u32,
    nodes: u32,
    marks: &[bool],
) -> Result<Vec<u32>, AllocError>
    requires { (k : ℕ) → IfSome (link_in links.now k) (λ x. x < nodes) }
    ensures { IfOk result (λ v. v.items ≡ filter (λ k. unwrap_or (option_map (λ x. slice_index_or marks.now x false) (link_in links.now k)) false) (places count)) }
{
    match linking_few(alloc, links, count, nodes, marks)? {
        Some(found) => in_order(alloc, count, found.as_slice()),
        None => linked_in_set(alloc, links, count, marks),
    }
}

/// The first entities of a set, so many, whose node, one of so many, is marked.
fn marked_in_set(
    alloc: Global,
    source: &Source<'_>,
    count: u32,
    nodes: u32,
    marks: &[bool],
) -> Result<Vec<u32>, AllocError>
    requires { (k : ℕ) → IfSome (node_at source.now k) (λ x. x < nodes) }
    ensures { IfOk result (λ v. v.items ≡ rows_whose (λ x. slice_index_or marks.now x false) (map (node_at source.now) (places count))) }
{
    match source {
        Source::Own(own) => own_in_set(alloc, *own, count, marks),
        Source::Linked(links) => linking_in_set(alloc, links, count, nodes, marks),
    }
}

/// The places of the entities, of the first `count` of the set `of`, whose node is an ancestor, or a descendant where `up` is false,
/// of the node of a start row, at most at the distance, or with `keep` is one, ascending; none where the data does not keep the nodes
/// of the set's entities. The values of the path on the start rows may be worked out in so many parts, each by a thread of its own.
pub fn climb_set<R: Threads + Sync>(
    rt: &R,
    alloc: Global,
    store: &Data,
    nodes: Nodes<'_>,
    up: bool,
    path: &Path,
    distance: Option<u64>,
    keep: bool,
    of: SetId,
    count: u32,
    starts: &RowList<'_>,
    workers: u32,
) -> Result<Option<Vec<u32>>, RunRefused>
    requires some { 0 < workers }
    requires nodes { (f : HierarchyPlace) × IsNodesOf store.now f nodes.set nodes.index.now }
    requires set { IsSet store.now.model nodes.set }
    requires starts { IsTrue (all_of store.now starts.now) }
    ensures value { (f : HierarchyPlace) → IsNodesOf store.now f nodes.entry.set nodes.entry.index.now → GivesPlaces result (climb_outcome store.now up f path.now distance keep starts.now (map (placed of) (places count))) }
    ensures within { IfOk result (λ o. IfSome o (λ v. All (λ k. k < count) v.items)) }
{
    let set = nodes.set;
    let index = nodes.index;
    let Some(source) = source_in_set(alloc, store, set, path, of) else {
        return Ok(None);
    };
    let starting = nodes_of(rt, alloc, store, set, path, starts, workers)?;
    let found = present(alloc, starting.as_slice())?;
    let marks = node_marks(alloc, index, up, found.as_slice(), distance, keep)?;
    let places = marked_in_set(alloc, &source, count, index.count(), marks.as_slice())?;
    Ok(Some(places))
}
