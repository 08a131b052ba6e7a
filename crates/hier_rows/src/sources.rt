//! Nodes that the data keeps: of an entity itself, or of what it refers to.
ghost use Rattle.std.specs.Prelude.{◌≡◌, ℕ, true, IfSome, option_and_then};
ghost use Rattle.edm_model.specs.LookUps.{IsNavigation, IsSet};
ghost use Rattle.edm_data.specs.References.{follow, property};
ghost use Rattle.edm_data.specs.Worlds.{entity_at};
ghost use Rattle.hier_rows.specs.HierRows.{IsReferenceBy, node_by};
ghost use Rattle.hier_rows.specs.Sources as spec;

use apply_meaning::data_is_loaded;
use edm_data::{Data, EntityRef, LinkedPlaces};
use edm_model::{Model, NavId, PropId, SetId};

/// Where the nodes of the entities of a set are kept.
#[derive(Drop)]
pub(crate) enum Source<'a> {
    /// Each of this many entities is its own node.
    Own(u32),
    /// The node of each entity is what it refers to.
    Linked(LinkedPlaces<'a>),
}

/// Whether entities refer to those of a set by this property and this navigation.
fn refers(model: &Model, nav: NavId, by: PropId, set: SetId) -> bool
    requires { IsNavigation model.now nav }
    ensures { result ≡ true → IsReferenceBy model.now nav by.at set }
{
    if model.nav_many(nav) {
        return false;
    }
    model.nav_dependent(nav).place() == by.place()
        && model.type_set(model.nav_target(nav)).place() == set.place()
}

/// The navigation by which the entities of a set refer to those of another through this property.
pub(crate) fn reference(store: &Data, of: SetId, by: PropId, set: SetId) -> Option<NavId>
    requires { IsSet store.now.model of }
    ensures { IfSome result (λ n. (k : ℕ) → follow store.now (entity_at of k) n.at ≡ spec.referred_by store.now set (property store.now (entity_at of k) by.at)) }
{
    let model = store.model();
    for nav in model.navs(model.set_type(of)) {
        if refers(model, *nav, by, set) {
            return Some(*nav);
        }
    }
    None
}

/// Where the nodes are kept of entities of a set whose values of a property are the keys of nodes.
pub(crate) fn source_of(store: &Data, of: SetId, by: PropId, set: SetId) -> Option<Source<'_>>
    requires of { IsSet store.now.model of }
    requires set { IsSet store.now.model set }
    ensures { IfSome result (λ x. (k : ℕ) → spec.node_at x k ≡ node_by store.now set (property store.now (entity_at of k) by.at)) }
{
    data_is_loaded(store);
    let model = store.model();
    if of.place() == set.place() && by.place() == model.key_of(model.set_type(set)).place() {
        return Some(Source::Own(store.count(set)));
    }
    match reference(store, of, by, set) {
        Some(nav) => Some(Source::Linked(store.linked_places(of, nav))),
        None => None,
    }
}

/// The node of the entity at a place, where each of this many is its own.
#[inline(always)]
pub(crate) fn own_node(count: u32, at: u32) -> Option<u32>
    ensures { result ≡ spec.own_at count at }
{
    if at < count { Some(at) } else { None }
}

/// The node of an instance that stands at this entity.
#[inline(always)]
pub(crate) fn node_of(source: &Source<'_>, root: Option<EntityRef>) -> Option<u32>
    ensures { result ≡ option_and_then (λ e. spec.node_at source.now e.at) root }
{
    let e = root?;
    match source {
        Source::Own(count) => own_node(*count, e.at),
        Source::Linked(links) => links.at(e.at),
    }
}
