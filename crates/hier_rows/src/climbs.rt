//! The rows that a climb keeps.
ghost use Rattle.std.specs.Prelude.{◌≡◌, ◌<◌, ℕ, Bool, false, IfOk, IfSome, IsTrue, filter, filter_map, if◌then◌else◌, length, map};
ghost use Rattle.std.specs.List.{list_any};
ghost use Rattle.edm_values.specs.Lists.{places};
ghost use Rattle.edm_values.specs.Values.{is_beyond};
ghost use Rattle.edm_model.specs.LookUps.{HierarchyPlace, IsSet};
ghost use Rattle.edm_data.specs.Hierarchies.{ancestor_rows, descendant_rows};
ghost use Rattle.apply_meaning.specs.Running.{all_of};
ghost use Rattle.hier_rows.specs.HierRows.{AreNodesBelow, GivesFor, IsNodesOf, climb_outcome, node_in, path_values};
ghost use Rattle.row_orders.specs.Ranks.{GivesNumbers};

use crate::kept_places::{marked_at, places_in};
use crate::nodes::{nodes_of, own_source};
use apply_ast::Path;
use apply_meaning::RunRefused;
use edm_data::Data;
use edm_model::SetId;
use hier_index::Index;
use hier_states::Nodes;
use hier_traverse::{ancestors, descendants, node_marks};
use row_values::RowList;
use std::alloc::{AllocError, Global};
use std::thread::Threads;

/// The nodes that there are.
pub(crate) fn present(alloc: Global, nodes: &[Option<u32>]) -> Result<Vec<u32>, AllocError>
    ensures { IfOk result (λ v. v.items ≡ filter_map (λ n. n) nodes.now) }
{
    let mut found = Vec::new(alloc);
    for node in nodes {
        if let Some(x) = node {
            found.push(*x)?;
        }
    }
    Ok(found)
}

/// The places of the rows whose node is an ancestor of one of these, or a descendant where `up` is false, at most at the distance, or
/// with `keep` is one: of a frame whose nodes the data keeps, without a list of these.
fn climbed_kept(
    alloc: Global,
    store: &Data,
    set: SetId,
    index: &Index,
    up: bool,
    path: &Path,
    distance: Option<u64>,
    keep: bool,
    rows: &RowList<'_>,
    from: &[u32],
) -> Result<Option<Vec<usize>>, AllocError>
    requires nodes { (f : HierarchyPlace) × IsNodesOf store.now f set index.now }
    requires set { IsSet store.now.model set }
    requires from { AreNodesBelow (length index.now) from.now }
    ensures rows { IfOk result (λ o. IfSome o (λ v. v.items ≡ (if up then ancestor_rows else descendant_rows) index.now distance keep from.now (map (node_in store.now set path.now) rows.now))) }
    ensures quiet { IfOk result (λ o. IfSome o (λ v. list_any is_beyond (path_values store.now path.now rows.now) ≡ false)) }
{
    let Some(source) = own_source(store, set, path, rows) else {
        return Ok(None);
    };
    let Some(places) = places_in(rows) else {
        return Ok(None);
    };
    let marks = node_marks(alloc, index, up, from, distance, keep)?;
    Ok(Some(marked_at(alloc, &source, &places, marks.as_slice())?))
}

/// The same of any rows, by the list of their nodes.
fn climbed_rows<R: Threads + Sync>(
    rt: &R,
    alloc: Global,
    store: &Data,
    set: SetId,
    index: &Index,
    up: bool,
    path: &Path,
    distance: Option<u64>,
    keep: bool,
    rows: &RowList<'_>,
    from: &[u32],
    workers: u32,
) -> Result<Vec<usize>, RunRefused>
    requires some { 0 < workers }
    requires nodes { (f : HierarchyPlace) × IsNodesOf store.now f set index.now }
    requires set { IsSet store.now.model set }
    requires of { IsTrue (all_of store.now rows.now) }
    requires from { AreNodesBelow (length index.now) from.now }
    ensures { GivesFor (λ v. v.items ≡ (if up then ancestor_rows else descendant_rows) index.now distance keep from.now (map (node_in store.now set path.now) rows.now)) (path_values store.now path.now rows.now) result }
{
    let found = nodes_of(rt, alloc, store, set, path, rows, workers)?;
    let own = found.as_slice();
    if up {
        Ok(ancestors(alloc, index, own, from, distance, keep)?)
    } else {
        Ok(descendants(alloc, index, own, from, distance, keep)?)
    }
}

/// The places of the rows whose node is an ancestor, or a descendant where `up` is false, of the node of a start row, at most at
/// the distance, or with `keep` is one. Rows keep their order. The values of the path may be worked out in so many parts, each by a
/// thread of its own.
pub fn climb_places<R: Threads + Sync>(
    rt: &R,
    alloc: Global,
    store: &Data,
    nodes: Nodes<'_>,
    up: bool,
    path: &Path,
    distance: Option<u64>,
    keep: bool,
    rows: &RowList<'_>,
    starts: &RowList<'_>,
    workers: u32,
) -> Result<Vec<usize>, RunRefused>
    requires some { 0 < workers }
    requires nodes { (f : HierarchyPlace) × IsNodesOf store.now f nodes.set nodes.index.now }
    requires set { IsSet store.now.model nodes.set }
    requires of { IsTrue (all_of store.now rows.now) }
    requires starts { IsTrue (all_of store.now starts.now) }
    ensures value { (f : HierarchyPlace) → IsNodesOf store.now f nodes.entry.set nodes.entry.index.now → GivesNumbers result (climb_outcome store.now up f path.now distance keep starts.now rows.now) }
    ensures ascending { IfOk result (λ v. (q : ℕ → Bool) × (v.items ≡ filter q (places (length rows.now)))) }
{
    let starting = nodes_of(rt, alloc, store, nodes.set, path, starts, workers)?;
    let found = present(alloc, starting.as_slice())?;
    let from = found.as_slice();
    let set = nodes.set;
    let index = nodes.index;
    let kept = climbed_kept(
        alloc, store, set, index, up, path, distance, keep, rows, from,
    )?;
    match kept {
        Some(places) => Ok(places),
        None => Ok(climbed_rows(
            rt, alloc, store, set, index, up, path, distance, keep, rows, from, workers,
        )?),
    }
}
