//! The member by which an item is no entity of its type.
ghost use Rattle.std.specs.Prelude.{◌≡◌, true, not, map, find, option_map, IfOk, IfSome, IfNone, Some, None, is_some, is_none};
ghost use Rattle.serde_json.specs.View.{view, members_view};
ghost use Rattle.edm_values.specs.Lists.{all_some};
ghost use Rattle.edm_model.specs.JsonTrees.{is_object, member_list};
ghost use Rattle.edm_model.specs.LookUps.{IsSet, IsType, IsProperty, properties_of, property_at, set_type};
ghost use Rattle.edm_model.specs.Soundness.{IsSound};
ghost use Rattle.edm_data.specs.DataFile.{entity_of};
ghost use Rattle.edm_data.specs.DataFile as file;
ghost use Rattle.data_diagnosis.specs.EntityFaults.{NamesProperty, is_shape_fault};
ghost use Rattle.data_diagnosis.specs.EntityFaults as faults;

use edm_data::{is_known_member, property_value};
use edm_model::{Model, PropId, SetId, TypeId};
use serde_json::{Map, Value as Json};
use std::alloc::{AllocError, Global};

/// By what an item is no entity of its type.
#[derive(Clone, Copy, Debug, Drop)]
pub enum ShapeFault<'v> {
    /// It is no object.
    Object,
    /// The member of this name is no property of the type.
    Member(&'v str),
    /// The property may not be null, and has no member or null.
    Null(PropId),
    /// The member of the property holds no value of its type.
    Value(PropId),
}

/// The first member that names no property of the type and is no annotation.
fn unknown_member<'v>(model: &Model, t: TypeId, members: &'v Map<String, Json>) -> Option<&'v str>
    requires { IsType model.now t }
    ensures { option_map (λ n. n.now) result ≡ option_map (λ e. e.0) (find (λ e. not (file.is_known_member (properties_of model.now t) e)) (member_list (members_view members.now.entries))) }
{
    for (name, value) in members {
        if !is_known_member(model, t, name, value) {
            return Some(name.as_str());
        }
    }
    None
}

/// Whether an item has no member for the property, or null.
fn is_absent(model: &Model, p: PropId, item: &Json) -> bool
    requires { IsProperty model.now p }
    ensures { option_map (λ q. faults.is_absent q (view item.now)) (property_at model.now p) ≡ Some result }
{
    match item.get(model.prop_name(p)) {
        Some(value) => value.is_null(),
        None => true,
    }
}

/// What is at fault in a property that has no value.
fn property_fault<'v>(model: &Model, p: PropId, item: &'v Json) -> ShapeFault<'v>
    requires there { IsProperty model.now p }
    requires absent { option_map (λ q. is_none (file.property_value (view item.now) q)) (property_at model.now p) ≡ Some true }
    ensures there { NamesProperty model.now result }
    ensures found { is_shape_fault model.now p.of (view item.now) result ≡ is_object (view item.now) }
{
    if is_absent(model, p, item) {
        ShapeFault::Null(p)
    } else {
        ShapeFault::Value(p)
    }
}

/// What is at fault in the first property that has no value.
fn value_fault<'v>(
    alloc: Global,
    model: &Model,
    t: TypeId,
    item: &'v Json,
) -> Result<Option<ShapeFault<'v>>, AllocError>
    requires sound { IsSound model.now }
    requires there { IsType model.now t }
    ensures there { IfOk result (λ o. IfSome o (NamesProperty model.now)) }
    ensures found { IfOk result (λ o. IfSome o (λ f. is_shape_fault model.now t (view item.now) f ≡ is_object (view item.now))) }
    ensures refused { IfOk result (λ o. IfSome o (λ _. all_some (map (file.property_value (view item.now)) (properties_of model.now t)) ≡ None)) }
    ensures none { IfOk result (λ o. IfNone o (is_some (all_some (map (file.property_value (view item.now)) (properties_of model.now t))) ≡ true)) }
{
    let props = model.props(t);
    for p in props {
        if property_value(alloc, model, *p, item)?.is_none() {
            return Ok(Some(property_fault(model, *p, item)));
        }
    }
    Ok(None)
}

/// By what an item of a set is no entity of the set's type; nothing where it is one.
pub fn shape_fault<'v>(
    alloc: Global,
    model: &Model,
    s: SetId,
    item: &'v Json,
) -> Result<Option<ShapeFault<'v>>, AllocError>
    requires sound { IsSound model.now }
    requires there { IsSet model.now s }
    ensures there { IfOk result (λ o. IfSome o (NamesProperty model.now)) }
    ensures found { IfOk result (λ o. IfSome o (λ f. is_shape_fault model.now (set_type model.now s) (view item.now) f ≡ true)) }
    ensures refused { IfOk result (λ o. IfSome o (λ _. entity_of (properties_of model.now (set_type model.now s)) (view item.now) ≡ None)) }
    ensures none { IfOk result (λ o. IfNone o (is_some (entity_of (properties_of model.now (set_type model.now s)) (view item.now)) ≡ true)) }
{
    let t = model.set_type(s);
    let Some(members) = item.as_object() else {
        return Ok(Some(ShapeFault::Object));
    };
    if let Some(name) = unknown_member(model, t, members) {
        return Ok(Some(ShapeFault::Member(name)));
    }
    value_fault(alloc, model, t, item)
}
