//! The nodes of rows, and their identifiers.
ghost use Rattle.std.specs.Prelude.{◌≡◌, ◌<◌, false, IfOk, IfSome, IsTrue, map, option_and_then};
ghost use Rattle.std.specs.List.{list_any};
ghost use Rattle.edm_model.specs.LookUps.{HierarchyPlace, IsSet};
ghost use Rattle.edm_values.specs.Values.{is_beyond, seen_value};
ghost use Rattle.edm_data.specs.Nodes as spec;
ghost use Rattle.edm_data.specs.References.{count};
ghost use Rattle.apply_meaning.specs.Instances.{root_of};
ghost use Rattle.apply_meaning.specs.Running.{all_of};
ghost use Rattle.hier_rows.specs.HierRows.{AreOptionsBelow, GivesFor, GivesNodeBy, node_in, path_values};
ghost use Rattle.hier_rows.specs.Sources.{node_at};

use crate::kept_places::{nodes_at, places_in};
use crate::sources::{Source, node_of, source_of};
use crate::tried_nodes::{Tried, node_with, tried_in};
use apply_ast::{Expr, Path};
use apply_meaning::{RunRefused, data_is_loaded};
use edm_data::{Data, EntityRef};
use edm_model::SetId;
use edm_values::{Seen, Value};
use row_values::RowList;
use std::alloc::{AllocError, Global};
use std::thread::Threads;

/// The node that has this key, which is that of an instance at this entity.
fn node_by(
    store: &Data,
    set: SetId,
    key: Seen<'_>,
    tried: Tried,
    root: Option<EntityRef>,
) -> Result<Option<u32>, RunRefused>
    requires set { IsSet store.now.model set }
    ensures { GivesNodeBy store.now set (seen_value key.entry) result }
{
    match key {
        Seen::Beyond => Err(RunRefused::Range),
        value => Ok(node_with(store, set, value, tried, root)),
    }
}

/// The node of each instance, where the values of the path on them are known.
fn nodes_by_keys(
    alloc: Global,
    store: &Data,
    set: SetId,
    path: &Path,
    list: &RowList<'_>,
    keys: &[Seen<'_>],
) -> Result<Vec<Option<u32>>, RunRefused>
    requires set { IsSet store.now.model set }
    requires of { IsTrue (all_of store.now list.now) }
    requires keys { map (λ v. seen_value v) keys.now ≡ path_values store.now path.now list.now }
    ensures nodes { GivesFor (λ v. v.items ≡ map (node_in store.now set path.now) list.now) (path_values store.now path.now list.now) result }
    ensures within { IfOk result (λ v. AreOptionsBelow (count store.now set) v.items) }
{
    let tried = tried_in(store, set, path, list);
    let mut nodes = Vec::with_capacity(alloc, keys.len())?;
    for (k, key) in keys.iter().enumerate() {
        nodes.push(node_by(store, set, *key, tried, list.root(k))?)?;
    }
    Ok(nodes)
}

/// The node of each instance, as it is kept for the instances' entities.
fn kept_nodes(
    alloc: Global,
    source: &Source<'_>,
    list: &RowList<'_>,
) -> Result<Vec<Option<u32>>, AllocError>
    ensures { IfOk result (λ v. v.items ≡ map (λ i. option_and_then (λ e. node_at source.now e.at) (root_of i)) list.now) }
{
    if let Some(places) = places_in(list) {
        return nodes_at(alloc, source, &places);
    }
    let mut nodes = Vec::with_capacity(alloc, list.len())?;
    for k in 0..list.len() {
        nodes.push(node_of(source, list.root(k)))?;
    }
    Ok(nodes)
}

/// Where the nodes of instances are kept, as the path is a property of their entities; none where they are not.
pub(crate) fn own_source<'s>(
    store: &'s Data,
    set: SetId,
    path: &Path,
    list: &RowList<'_>,
) -> Option<Source<'s>>
    requires set { IsSet store.now.model set }
    ensures nodes { IfSome result (λ x. map (λ i. option_and_then (λ e. node_at x e.at) (root_of i)) list.now ≡ map (node_in store.now set path.now) list.now) }
    ensures quiet { IfSome result (λ x. list_any is_beyond (path_values store.now path.now list.now) ≡ false) }
{
    data_is_loaded(store);
    let Some((of, by)) = list.own_property(store, path) else {
        return None;
    };
    match source_of(store, of, by, set) {
        Some(source) => Some(source),
        None => None,
    }
}

/// The node of each instance where the data keeps it, none where it does not.
fn property_nodes(
    alloc: Global,
    store: &Data,
    set: SetId,
    path: &Path,
    list: &RowList<'_>,
) -> Result<Option<Vec<Option<u32>>>, AllocError>
    requires set { IsSet store.now.model set }
    ensures nodes { IfOk result (λ o. IfSome o (λ v. v.items ≡ map (node_in store.now set path.now) list.now)) }
    ensures quiet { IfOk result (λ o. IfSome o (λ v. list_any is_beyond (path_values store.now path.now list.now) ≡ false)) }
{
    match own_source(store, set, path, list) {
        Some(source) => Ok(Some(kept_nodes(alloc, &source, list)?)),
        None => Ok(None),
    }
}

/// The node of each instance: the entity of the set whose key is the value of the path, none where there is none. The values may be
/// worked out in so many parts, each by a thread of its own.
pub fn nodes_of<R: Threads + Sync>(
    rt: &R,
    alloc: Global,
    store: &Data,
    set: SetId,
    path: &Path,
    rows: &RowList<'_>,
    workers: u32,
) -> Result<Vec<Option<u32>>, RunRefused>
    requires some { 0 < workers }
    requires set { IsSet store.now.model set }
    requires of { IsTrue (all_of store.now rows.now) }
    ensures nodes { GivesFor (λ v. v.items ≡ map (node_in store.now set path.now) rows.now) (path_values store.now path.now rows.now) result }
    ensures within { IfOk result (λ v. AreOptionsBelow (count store.now set) v.items) }
{
    if let Some(nodes) = property_nodes(alloc, store, set, path, rows)? {
        return Ok(nodes);
    }
    let e = Expr::Path(path.copy(alloc)?);
    let keys = rows.seen_values(rt, alloc, store, &e, workers)?;
    nodes_by_keys(alloc, store, set, path, rows, keys.as_slice())
}

/// The identifier of a node.
pub fn identifier(alloc: Global, store: &Data, set: SetId, node: u32) -> Result<Value, AllocError>
    requires set { IsSet store.now.model set }
    ensures value { IfOk result (λ v. (f : HierarchyPlace) → f.set ≡ set → v ≡ spec.identifier store.now f node) }
{
    let model = store.model();
    let key = model.key_of(model.set_type(set));
    store.property(EntityRef { set, at: node }, key).own(alloc)
}
