//! Navigation properties, hierarchies and entity sets: the entity types that they lead to.
ghost use Rattle.std.specs.Prelude.{ℕ, ◌≡◌, ◌<◌, ◌&&◌, map, length, position, unwrap_or, option_map, slice_get, IfSome};
ghost use Rattle.std.specs.List.{list_all};
ghost use Rattle.serde_json.specs.View.{view};
ghost use Rattle.edm_values.specs.Lists.{same_text};
ghost use Rattle.edm_schema.specs.JsonTrees as tree;
ghost use Rattle.edm_schema.specs.ModelTrees as spec;
ghost use Rattle.edm_schema.specs.MemberLists.{member_seen, type_seen, root_of, tree_of, IsTypeTree, IsSchema};

use crate::kinds::kind_of;
use crate::members::{Member, constraint, named};
use crate::named::find_named;
use crate::names::after;
use crate::schema::{Schema, TypeTree};
use crate::tree::{
    is_object_at, is_object_of, is_string_at, is_text, is_text_at, is_true_at, lacks, text_at,
};
use edm_values::EdmType;
use serde_json::Value;

/// The place of the entity type whose qualified name a navigation property or an entity set gives.
pub fn type_place(schema: &Schema<'_>, value: &Value) -> Option<usize>
    requires { IsSchema schema.now }
    ensures value { result ≡ spec.type_place (root_of schema.now) (view value.now) }
    ensures there { IfSome result (λ k. k < length (spec.type_members (root_of schema.now))) }
{
    let local = after(schema.namespace, text_at("$Type", value))?;
    let name = after(".", local)?;
    find_named(schema.types.as_slice(), name)
}

/// Whether a navigation property leads to the entity type at this place.
fn leads_to(schema: &Schema<'_>, k: usize, value: &Value) -> bool
    requires { IsSchema schema.now }
    ensures { result ≡ spec.leads_to (root_of schema.now) k (view value.now) }
{
    match type_place(schema, value) {
        Some(place) => k == place,
        None => false,
    }
}

/// The type of the property of this name.
pub fn property_kind(entity_type: &TypeTree<'_>, name: &str) -> Option<EdmType>
    requires { IsTypeTree entity_type.now }
    ensures value { result ≡ spec.property_kind (tree_of entity_type.now) name.now }
{
    match named(entity_type.properties.as_slice(), name) {
        Some(property) => kind_of(property),
        None => None,
    }
}

/// Whether a single-valued navigation property of the type has this name and leads to the type at this place.
pub fn is_reference_to(
    schema: &Schema<'_>,
    k: usize,
    entity_type: &TypeTree<'_>,
    name: &str,
) -> bool
    requires schema { IsSchema schema.now }
    requires entity_type { IsTypeTree entity_type.now }
    ensures value { result ≡ spec.is_reference_to (root_of schema.now) k (tree_of entity_type.now) name.now }
{
    match named(entity_type.navigations.as_slice(), name) {
        Some(navigation) => lacks("$Collection", navigation) && leads_to(schema, k, navigation),
        None => false,
    }
}

/// Whether both are types, and of one kind.
pub fn are_of_one_kind(a: Option<EdmType>, b: Option<EdmType>) -> bool
    ensures value { result ≡ spec.are_of_one_kind a b }
{
    match (a, b) {
        (Some(a), Some(b)) => a.same_kind(b),
        _ => false,
    }
}

/// Whether a referential constraint goes from a property of the type to the target's key, of one kind.
fn is_constraint(entity_type: &TypeTree<'_>, target: &TypeTree<'_>, constraint: Member<'_>) -> bool
    requires entity_type { IsTypeTree entity_type.now }
    requires target { IsTypeTree target.now }
    ensures { let c = member_seen constraint.entry in let d = tree_of target.now in result ≡ (tree.is_text (spec.key_name d) c.1 && spec.are_of_one_kind (spec.property_kind (tree_of entity_type.now) c.0) (spec.property_kind d (spec.key_name d))) }
{
    let from = property_kind(entity_type, constraint.name);
    let to = property_kind(target, target.key);
    is_text(target.key, constraint.value) && are_of_one_kind(from, to)
}

/// Whether a single-valued navigation property has one referential constraint.
fn is_constrained(entity_type: &TypeTree<'_>, target: &TypeTree<'_>, navigation: &Value) -> bool
    requires entity_type { IsTypeTree entity_type.now }
    requires target { IsTypeTree target.now }
    ensures { result ≡ spec.is_constrained (tree_of entity_type.now) (tree_of target.now) (view navigation.now) }
{
    is_object_of(
        &[
            "$Kind",
            "$Type",
            "$Nullable",
            "$Partner",
            "$ReferentialConstraint",
        ],
        navigation,
    ) && is_object_at("$ReferentialConstraint", navigation)
        && match constraint(navigation) {
            Some(constraint) => is_constraint(entity_type, target, constraint),
            None => false,
        }
}

/// Whether a collection-valued navigation property has a partner.
fn has_partner(schema: &Schema<'_>, k: usize, target: &TypeTree<'_>, navigation: &Value) -> bool
    requires schema { IsSchema schema.now }
    requires target { IsTypeTree target.now }
    ensures { result ≡ spec.has_partner (root_of schema.now) k (tree_of target.now) (view navigation.now) }
{
    is_object_of(
        &["$Kind", "$Type", "$Nullable", "$Collection", "$Partner"],
        navigation,
    ) && is_true_at("$Collection", navigation)
        && is_string_at("$Partner", navigation)
        && is_reference_to(schema, k, target, text_at("$Partner", navigation))
}

/// Whether a navigation property leads to an entity type and is of one of the two forms.
pub(crate) fn is_navigable(
    schema: &Schema<'_>,
    k: usize,
    entity_type: &TypeTree<'_>,
    navigation: &Value,
) -> bool
    requires schema { IsSchema schema.now }
    requires entity_type { IsTypeTree entity_type.now }
    ensures { result ≡ spec.is_navigable (root_of schema.now) k (tree_of entity_type.now) (view navigation.now) }
{
    match type_place(schema, navigation) {
        Some(place) => {
            let target = &schema.types[place];
            if lacks("$Collection", navigation) {
                is_constrained(entity_type, target, navigation)
            } else {
                has_partner(schema, k, target, navigation)
            }
        }
        None => false,
    }
}

/// Whether a recursive hierarchy names the key and a single-valued navigation property to the same type.
pub(crate) fn is_hierarchy(
    schema: &Schema<'_>,
    k: usize,
    entity_type: &TypeTree<'_>,
    hierarchy: &Value,
) -> bool
    requires schema { IsSchema schema.now }
    requires entity_type { IsTypeTree entity_type.now }
    ensures { result ≡ spec.is_hierarchy (root_of schema.now) k (tree_of entity_type.now) (view hierarchy.now) }
{
    let parent = text_at("ParentNavigationProperty", hierarchy);
    is_object_of(&["NodeProperty", "ParentNavigationProperty"], hierarchy)
        && is_text_at("NodeProperty", entity_type.key, hierarchy)
        && is_string_at("ParentNavigationProperty", hierarchy)
        && is_reference_to(schema, k, entity_type, parent)
}

/// Whether an entity set is a collection of an entity type of the schema.
pub(crate) fn is_entity_set(schema: &Schema<'_>, set: &Value) -> bool
    requires { IsSchema schema.now }
    ensures { result ≡ spec.is_entity_set (root_of schema.now) (view set.now) }
{
    is_object_of(&["$Collection", "$Type"], set)
        && is_true_at("$Collection", set)
        && type_place(schema, set).is_some()
}
