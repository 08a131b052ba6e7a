//! Paths over navigation properties, whose names are looked up once for a set.
ghost use Rattle.std.specs.Prelude.{◌≡◌, IfOk, IfSome, Some, []};
ghost use Rattle.std.specs.Bool.{OnTrue};
ghost use Rattle.edm_values.specs.Values.{seen_value};
ghost use Rattle.edm_model.specs.LookUps.{IsSet};
ghost use Rattle.edm_data.specs.References.{property};
ghost use Rattle.edm_data.specs.Worlds.{Entity};
ghost use Rattle.apply_meaning.specs.Instances as meaning;
ghost use Rattle.row_frames.specs.Hops as spec;

use apply_ast::Name;
use edm_data::{Data, EntityRef};
use edm_model::{NavId, PropId, SetId};
use edm_values::Seen;
use std::alloc::{AllocError, Global};

/// A property behind navigation properties, one after the other: these, the set that they lead to, and the property of its entities.
#[derive(Drop)]
pub(crate) struct Behind {
    pub(crate) hops: Vec<NavId>,
    pub(crate) target: SetId,
    pub(crate) property: PropId,
}

/// Whether the model has this set.
pub(crate) fn has_set(store: &Data, set: SetId) -> bool
    ensures { OnTrue result (IsSet store.now.model set) }
{
    let sets = store.model().sets();
    if set.place() < sets.len() {
        return true;
    }
    false
}

/// The property of this name of the entities of a set.
pub(crate) fn set_property(store: &Data, set: SetId, name: &Name) -> Option<PropId>
    requires { IsSet store.now.model set }
    ensures { IfSome result (λ p. (e : Entity) → e.set ≡ set → meaning.named_value store.now name.now e ≡ Some (property store.now e p.at)) }
{
    let model = store.model();
    model.prop_named(model.set_type(set), name.text())
}

/// The single-valued navigation property of this name of a set's entities, and the set that it leads to.
fn hop(store: &Data, set: SetId, name: &Name) -> Option<(NavId, SetId)>
    requires { IsSet store.now.model set }
    ensures hop { IfSome result (λ h. spec.IsHop store.now set name.now h.0 h.1) }
    ensures there { IfSome result (λ h. IsSet store.now.model h.1) }
{
    let model = store.model();
    let navigation = model.nav_named(model.set_type(set), name.text())?;
    let target = model.type_set(model.nav_target(navigation));
    Some((navigation, target))
}

/// The navigation properties of these names, one after the other from a set's entities, and the set that they lead to.
pub(crate) fn hops_over(
    alloc: Global,
    store: &Data,
    set: SetId,
    names: &[Name],
) -> Result<Option<(Vec<NavId>, SetId)>, AllocError>
    requires { IsSet store.now.model set }
    ensures hops { IfOk result (λ o. IfSome o (λ h. spec.Lead store.now set names.now [] h.0.items h.1)) }
    ensures there { IfOk result (λ o. IfSome o (λ h. IsSet store.now.model h.1)) }
{
    let mut hops = Vec::with_capacity(alloc, names.len())?;
    let mut at = set;
    for name in names {
        let Some((navigation, target)) = hop(store, at, name) else {
            return Ok(None);
        };
        hops.push(navigation)?;
        at = target;
    }
    Ok(Some((hops, at)))
}

/// The property that names lead to from a set's entities, over navigation properties.
pub(crate) fn property_behind(
    alloc: Global,
    store: &Data,
    set: SetId,
    names: &[Name],
) -> Result<Option<Behind>, AllocError>
    requires { IsSet store.now.model set }
    ensures { IfOk result (λ o. IfSome o (spec.IsBehind store.now set names.now)) }
{
    let Some((last, front)) = names.split_last() else {
        return Ok(None);
    };
    let Some((hops, target)) = hops_over(alloc, store, set, front)? else {
        return Ok(None);
    };
    match set_property(store, target, last) {
        Some(property) => Ok(Some(Behind {
            hops,
            target,
            property,
        })),
        None => Ok(None),
    }
}

/// What an entity refers to by a navigation property, where there is one.
fn followed(store: &Data, at: Option<EntityRef>, n: NavId) -> Option<EntityRef>
    ensures { result ≡ spec.one_hop store.now n at }
{
    match at {
        Some(e) => store.follow(e, n),
        None => None,
    }
}

/// The value of a property of the entity that navigation properties lead to, one after the other; null where there is none.
pub(crate) fn property_over<'a>(
    store: &'a Data,
    root: Option<EntityRef>,
    hops: &[NavId],
    p: PropId,
) -> Seen<'a>
    ensures { seen_value result ≡ spec.property_in store.now (spec.reached store.now root hops.now) p.at }
{
    let mut at = root;
    for hop in hops {
        at = followed(store, at, *hop);
    }
    match at {
        Some(e) => store.property(e, p),
        None => Seen::Null,
    }
}
