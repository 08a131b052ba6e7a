//! Nodes that are tried for rows before all keys are searched.
//!
//! Where a path is the key of the nodes, a row's node is the row's own entity; where it is the property by which rows refer to
//! nodes, it is what the row's entity refers to, which the data keeps. A node that is tried is taken only where it has the key.
ghost use Rattle.std.specs.Prelude.{◌≡◌, Some, true, IfSome, IsTrue, option_map};
ghost use Rattle.edm_model.specs.LookUps.{IsSet};
ghost use Rattle.edm_values.specs.Values.{seen_value};
ghost use Rattle.edm_data.specs.References.{by_key};
ghost use Rattle.edm_data.specs.Worlds.{entity_at};
ghost use Rattle.apply_meaning.specs.Running.{all_of};

use crate::sources::reference;
use apply_ast::{Name, Path};
use edm_data::{Data, EntityRef};
use edm_model::{NavId, SetId};
use edm_values::{Seen, order};
use row_values::RowList;

/// Which node is tried for each row.
#[derive(Clone, Copy, Drop)]
pub(crate) enum Tried {
    /// None.
    Nothing,
    /// The row's own entity.
    Own,
    /// What the row's entity refers to by this navigation property.
    Reference(NavId),
}

/// Which node is tried for rows that stand at entities of a set and whose path is this name.
fn tried_at(store: &Data, of: SetId, name: &Name, set: SetId) -> Tried
    requires { IsSet store.now.model of }
{
    let model = store.model();
    let kind = model.set_type(of);
    let Some(by) = model.prop_named(kind, name.text()) else {
        return Tried::Nothing;
    };
    if of == set && model.key_of(kind) == by {
        return Tried::Own;
    }
    match reference(store, of, by, set) {
        Some(nav) => Tried::Reference(nav),
        None => Tried::Nothing,
    }
}

/// Which node is tried for each of some instances, the first of which stands at this entity.
fn tried_from(store: &Data, set: SetId, path: &Path, root: Option<EntityRef>) -> Tried
    requires { IfSome root (λ e. IsSet store.now.model e.set) }
{
    let [name] = path.names() else {
        return Tried::Nothing;
    };
    match root {
        Some(e) => tried_at(store, e.set, name, set),
        None => Tried::Nothing,
    }
}

/// Which node is tried for each instance of a list, by the entity that the first of them stands at.
pub(crate) fn tried_in(store: &Data, set: SetId, path: &Path, list: &RowList<'_>) -> Tried
    requires { IsTrue (all_of store.now list.now) }
{
    if list.len() == 0 {
        return Tried::Nothing;
    }
    tried_from(store, set, path, list.root(0))
}

/// Whether this node is the one that has this key.
fn has_key(store: &Data, set: SetId, node: u32, key: Seen<'_>) -> bool
    requires { IsSet store.now.model set }
    ensures { result ≡ true → by_key store.now set (seen_value key.entry) ≡ Some (entity_at set node) }
{
    if node >= store.count(set) {
        return false;
    }
    let model = store.model();
    let place = model.key_of(model.set_type(set));
    order(key, store.property(EntityRef { set, at: node }, place)).is_eq()
}

/// The node that is tried for an instance that stands at this entity.
fn node_tried(store: &Data, tried: Tried, root: Option<EntityRef>) -> Option<u32> {
    let e = root?;
    match tried {
        Tried::Nothing => None,
        Tried::Own => Some(e.at),
        Tried::Reference(nav) => store.follow(e, nav).map(|to| to.at),
    }
}

/// The node that has this key, which is that of an instance at this entity.
pub(crate) fn node_with(
    store: &Data,
    set: SetId,
    key: Seen<'_>,
    tried: Tried,
    root: Option<EntityRef>,
) -> Option<u32>
    requires { IsSet store.now.model set }
    ensures { result ≡ option_map (λ e. e.at) (by_key store.now set (seen_value key.entry)) }
{
    if let Some(node) = node_tried(store, tried, root) {
        if has_key(store, set, node, key) {
            return Some(node);
        }
    }
    store.by_key(set, key).map(|node| node.at)
}
