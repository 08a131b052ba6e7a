//! The rules of an accepted model file, each a test.
ghost use Rattle.std.specs.Prelude.{ℕ, ◌≡◌, ◌||◌, ◌&&◌, ◌==◌, ◌<◌, not, is_some, codes, map, length, count_by, IfOk};
ghost use Rattle.std.specs.List.{list_all, list_any, slice_split};
ghost use Rattle.serde_json.specs.View.{view};
ghost use Rattle.edm_values.specs.Literals.{is_point};
ghost use Rattle.edm_values.specs.Lists.{is_some_and, places};
ghost use Rattle.edm_values.specs.Names as names;
ghost use Rattle.edm_schema.specs.JsonTrees.{members_in, passes_at, only_string, is_string};
ghost use Rattle.edm_schema.specs.ModelTrees as spec;
ghost use Rattle.edm_schema.specs.MemberLists.{member_seen, type_seen, root_of, tree_of, IsTypeTree, IsSchema};

use crate::kinds::{has_property_type, has_scale_in_place, is_key_kind, is_nullable, kind_of};
use crate::links::{is_entity_set, is_hierarchy, is_navigable, type_place};
use crate::members::{Member, is_navigation, is_object_of_kind, is_property, named, only};
use crate::named::find_named;
use crate::names::{AGGREGATE_TERM, DEFINITION_TERM, HIERARCHY_TERM, is_own, is_unread, qualifier};
use crate::schema::{Schema, TypeTree, container_name, namespace};
use crate::tree::{
    is_list_of_strings, is_object_at, is_object_of, is_string_at, lacks, only_string,
};
use edm_values::{Method, is_name};
use serde_json::Value;
use std::alloc::{AllocError, Global};

/// Whether the parts of a text between its points are simple identifiers.
pub fn are_names(text: &str) -> bool
    ensures value { result ≡ list_all names.is_name (slice_split is_point text.now) }
{
    text.split('.').all(|part| is_name(part))
}

/// Whether the root has a version, a container's path, and one schema under the path's namespace.
fn has_one_schema(root: &Value) -> bool
    ensures { result ≡ spec.has_one_schema (view root.now) }
{
    let namespace = namespace(root);
    is_object_of(&["$Version", "$EntityContainer", namespace], root)
        && is_string_at("$Version", root)
        && is_string_at("$EntityContainer", root)
        && are_names(namespace)
        && is_object_at(namespace, root)
}

/// Whether a member of the schema is not read, or an entity type or a container.
pub fn is_schema_member(member: Member<'_>) -> bool
    ensures value { let m = member_seen member.entry in result ≡ (spec.is_unread m.0 || spec.is_object_of_kind (codes "EntityType") m.1 || spec.is_object_of_kind (codes "EntityContainer") m.1) }
{
    is_unread(member.name)
        || is_object_of_kind("EntityType", member.value)
        || is_object_of_kind("EntityContainer", member.value)
}

/// Whether each member of the schema is an entity type or a container.
fn has_types_and_containers(schema: &Schema<'_>) -> bool
    requires { IsSchema schema.now }
    ensures { result ≡ list_all (λ m. spec.is_unread m.0 || spec.is_object_of_kind (codes "EntityType") m.1 || spec.is_object_of_kind (codes "EntityContainer") m.1) (members_in (spec.schema (root_of schema.now))) }
{
    schema.members.iter().all(|m| is_schema_member(*m))
}

/// Whether each member of the schema is an entity type or a container, and there is one container, of the name in the
/// path.
fn has_one_container(schema: &Schema<'_>) -> bool
    requires { IsSchema schema.now }
    ensures { result ≡ spec.has_one_container (root_of schema.now) }
{
    has_types_and_containers(schema)
        && match only(schema.containers.as_slice()) {
            Some(container) => container.name == container_name(schema.root),
            None => false,
        }
}

/// Whether `$Key` is an array of one string.
pub fn has_key_name(entity_type: &Value) -> bool
    ensures value { result ≡ passes_at (codes "$Key") (λ k. is_some (only_string k)) (view entity_type.now) }
{
    match entity_type.get("$Key") {
        Some(key) => only_string(key).is_some(),
        None => false,
    }
}

/// Whether a property may be the key: it is never null, and an integer, a text or a day.
fn is_key_property(property: &Value) -> bool
    ensures { let p = view property.now in result ≡ (not (spec.is_nullable p) && is_some_and spec.is_key_kind (spec.kind_of p)) }
{
    !is_nullable(property)
        && match kind_of(property) {
            Some(kind) => is_key_kind(kind),
            None => false,
        }
}

/// Whether the key is one property of the type that is not nullable, an integer, a text or a day.
fn has_one_key(t: &TypeTree<'_>) -> bool
    requires { IsTypeTree t.now }
    ensures { result ≡ spec.has_one_key (tree_of t.now) }
{
    has_key_name(t.value)
        && match named(t.properties.as_slice(), t.key) {
            Some(property) => is_key_property(property),
            None => false,
        }
}

/// Whether a member of a type is its key or a term, or a property or a navigation property.
pub fn is_type_member(member: Member<'_>) -> bool
    ensures value { let m = member_seen member.entry in result ≡ (not (spec.is_own m.0) || spec.is_property m.1 || spec.is_navigation m.1) }
{
    !is_own(member.name) || is_property(member.value) || is_navigation(member.value)
}

/// Whether each member of the type besides its key and terms is a property or a navigation property.
fn has_known_members(t: &TypeTree<'_>) -> bool
    requires { IsTypeTree t.now }
    ensures { result ≡ spec.has_known_members (tree_of t.now) }
{
    t.members.iter().all(|m| is_type_member(*m))
}

/// Whether each property has one of the five types.
fn has_property_types(t: &TypeTree<'_>) -> bool
    requires { IsTypeTree t.now }
    ensures { result ≡ list_all (λ m. spec.has_property_type m.1) (spec.property_members (tree_of t.now)) }
{
    t.properties.iter().all(|m| has_property_type(m.value))
}

/// Whether only decimals have a scale or a precision.
fn has_scales_in_place(t: &TypeTree<'_>) -> bool
    requires { IsTypeTree t.now }
    ensures { result ≡ list_all (λ m. spec.has_scale_in_place m.1) (spec.property_members (tree_of t.now)) }
{
    t.properties.iter().all(|m| has_scale_in_place(m.value))
}

/// Whether each navigation property is accepted.
fn has_navigations(schema: &Schema<'_>, k: usize, t: &TypeTree<'_>) -> bool
    requires schema { IsSchema schema.now }
    requires t { IsTypeTree t.now }
    ensures { let d = tree_of t.now in result ≡ list_all (λ m. spec.is_navigable (root_of schema.now) k d m.1) (spec.navigation_members d) }
{
    t.navigations
        .iter()
        .all(|m| is_navigable(schema, k, t, m.value))
}

/// Whether each recursive hierarchy is accepted.
fn has_hierarchies(schema: &Schema<'_>, k: usize, t: &TypeTree<'_>) -> bool
    requires schema { IsSchema schema.now }
    requires t { IsTypeTree t.now }
    ensures { let d = tree_of t.now in result ≡ list_all (λ m. spec.is_hierarchy (root_of schema.now) k d m.1) (spec.term_members spec.hierarchy_term d) }
{
    t.hierarchies
        .iter()
        .all(|m| is_hierarchy(schema, k, t, m.value))
}

/// Whether each custom aggregate's term is a string.
fn has_aggregate_strings(t: &TypeTree<'_>) -> bool
    requires { IsTypeTree t.now }
    ensures { result ≡ list_all (λ m. is_string m.1) (spec.term_members spec.aggregate_term (tree_of t.now)) }
{
    t.aggregates.iter().all(|m| m.value.is_string())
}

/// The aggregation method of this name.
fn method_named(name: &str) -> Option<Method>
    ensures { result ≡ spec.method_named name.now }
{
    match name {
        "sum" => Some(Method::Sum),
        "min" => Some(Method::Min),
        "max" => Some(Method::Max),
        "countdistinct" => Some(Method::CountDistinct),
        _ => None,
    }
}

/// The method that a member names.
pub fn method_at(name: &str, value: &Value) -> Option<Method>
    ensures value { result ≡ spec.method_at name.now (view value.now) }
{
    match value.get(name) {
        Some(found) => match found.as_str() {
            Some(text) => method_named(text),
            None => None,
        },
        None => None,
    }
}

/// Whether the member stands and is an array of at least one string.
pub(crate) fn is_list_of_strings_at(name: &str, value: &Value) -> bool
    ensures { result ≡ passes_at name.now spec.is_list_of_strings (view value.now) }
{
    match value.get(name) {
        Some(found) => is_list_of_strings(found),
        None => false,
    }
}

/// Whether there are paths of groups with an outer method, or neither.
pub fn has_groups_or_none(definition: &Value) -> bool
    ensures value { result ≡ spec.has_groups_or_none (view definition.now) }
{
    (lacks("Per", definition) && lacks("Then", definition))
        || (is_list_of_strings_at("Per", definition) && method_at("Then", definition).is_some())
}

/// Whether there is an expression and a method, and possibly paths of groups with an outer method.
fn is_definition(definition: &Value) -> bool
    ensures { result ≡ spec.is_definition (view definition.now) }
{
    is_object_of(&["Of", "With", "Per", "Then"], definition)
        && is_string_at("Of", definition)
        && method_at("With", definition).is_some()
        && has_groups_or_none(definition)
}

/// Whether the custom aggregate of this name stands in the type, and no property or navigation property has the name.
pub(crate) fn is_custom_name(t: &TypeTree<'_>, name: &str) -> bool
    requires { IsTypeTree t.now }
    ensures { result ≡ spec.is_custom_name (tree_of t.now) name.now }
{
    find_named(t.aggregates.as_slice(), name).is_some()
        && find_named(t.own.as_slice(), name).is_none()
}

/// Whether the definition of a custom aggregate of this name is accepted.
fn is_accepted_definition(t: &TypeTree<'_>, member: Member<'_>) -> bool
    requires { IsTypeTree t.now }
    ensures { let m = member_seen member.entry in result ≡ (spec.is_definition m.1 && spec.is_custom_name (tree_of t.now) m.0) }
{
    is_definition(member.value) && is_custom_name(t, member.name)
}

/// Whether each definition of a custom aggregate is accepted.
fn has_definitions(t: &TypeTree<'_>) -> bool
    requires { IsTypeTree t.now }
    ensures { let d = tree_of t.now in result ≡ list_all (λ m. spec.is_definition m.1 && spec.is_custom_name d (spec.qualifier spec.definition_term m.0)) (spec.term_members spec.definition_term d) }
{
    t.definitions.iter().all(|m| is_accepted_definition(t, *m))
}

/// Whether the entity type at this place is accepted.
fn is_type(schema: &Schema<'_>, k: usize, t: &TypeTree<'_>) -> bool
    requires schema { IsSchema schema.now }
    requires t { IsTypeTree t.now }
    ensures { result ≡ spec.is_type (root_of schema.now) k (tree_of t.now) }
{
    has_one_key(t)
        && has_known_members(t)
        && has_property_types(t)
        && has_scales_in_place(t)
        && has_navigations(schema, k, t)
        && has_hierarchies(schema, k, t)
        && has_aggregate_strings(t)
        && has_definitions(t)
}

/// Whether every entity type is accepted.
#[tactic(auto, using(crate::proofs::Counted::counted))]
fn has_types(schema: &Schema<'_>) -> bool
    requires { IsSchema schema.now }
    ensures { let d = root_of schema.now in result ≡ list_all (λ k. spec.is_type d k (spec.type_tree d k)) (places (length (spec.type_members d))) }
{
    for k in 0..schema.types.len() {
        if !is_type(schema, k, &schema.types[k]) {
            return false;
        }
    }
    true
}

/// Whether the name is of the term only with a simple identifier as its qualifier.
pub(crate) fn is_simply_qualified(term: &str, name: &str) -> bool
    ensures { result ≡ spec.is_simply_qualified term.now name.now }
{
    match qualifier(term, name) {
        Some(after) => is_name(after),
        None => true,
    }
}

/// Whether the name of a member of a type is a simple identifier or has one as its qualifier.
pub fn has_simple_name(name: &str) -> bool
    ensures value { result ≡ ((not (spec.is_own name.now) || names.is_name name.now) && spec.is_simply_qualified spec.hierarchy_term name.now && spec.is_simply_qualified spec.aggregate_term name.now && spec.is_simply_qualified spec.definition_term name.now) }
{
    (!is_own(name) || is_name(name))
        && is_simply_qualified(HIERARCHY_TERM, name)
        && is_simply_qualified(AGGREGATE_TERM, name)
        && is_simply_qualified(DEFINITION_TERM, name)
}

/// Whether the members of a type are simple identifiers or have them as qualifiers.
fn has_simple_parts(t: &TypeTree<'_>) -> bool
    requires { IsTypeTree t.now }
    ensures { result ≡ spec.has_simple_parts (tree_of t.now) }
{
    t.members.iter().all(|m| has_simple_name(m.name))
}

/// Whether the parts of each entity type have simple identifiers.
fn have_simple_parts(schema: &Schema<'_>) -> bool
    requires { IsSchema schema.now }
    ensures { result ≡ list_all (λ m. spec.has_simple_parts m.1) (spec.type_members (root_of schema.now)) }
{
    for t in &schema.types {
        if !has_simple_parts(t) {
            return false;
        }
    }
    true
}

/// Whether the types have simple identifiers.
fn are_types_named(schema: &Schema<'_>) -> bool
    requires { IsSchema schema.now }
    ensures { result ≡ list_all (λ m. names.is_name m.0) (spec.type_members (root_of schema.now)) }
{
    schema.types.iter().all(|t| is_name(t.name))
}

/// Whether the sets have simple identifiers.
fn are_sets_named(schema: &Schema<'_>) -> bool
    requires { IsSchema schema.now }
    ensures { result ≡ list_all (λ m. names.is_name m.0) (spec.set_members (root_of schema.now)) }
{
    schema.sets.iter().all(|m| is_name(m.name))
}

/// Whether types, sets and parts have simple identifiers.
fn has_names(schema: &Schema<'_>) -> bool
    requires { IsSchema schema.now }
    ensures { result ≡ spec.has_names (root_of schema.now) }
{
    are_types_named(schema) && are_sets_named(schema) && have_simple_parts(schema)
}

/// How many sets lead to each entity type.
pub fn set_counts(alloc: Global, schema: &Schema<'_>) -> Result<Vec<usize>, AllocError>
    requires { IsSchema schema.now }
    ensures value { let d = root_of schema.now in IfOk result (λ v. v.items ≡ map (λ k. count_by (λ m. spec.leads_to d k m.1) (spec.set_members d)) (places (length (spec.type_members d)))) }
{
    let mut counts = Vec::from_elem(alloc, 0, schema.types.len())?;
    for member in &schema.sets {
        let Some(place) = type_place(schema, member.value) else {
            continue;
        };
        counts[place] += 1;
    }
    Ok(counts)
}

/// Whether each is an entity set of an entity type of the schema.
fn are_entity_sets(schema: &Schema<'_>) -> bool
    requires { IsSchema schema.now }
    ensures { let d = root_of schema.now in result ≡ list_all (λ m. spec.is_entity_set d m.1) (spec.set_members d) }
{
    schema.sets.iter().all(|m| is_entity_set(schema, m.value))
}

/// Whether each is one.
fn are_ones(counts: &[usize]) -> bool
    ensures { result ≡ list_all (λ count. count == 1) counts.now }
{
    counts.iter().all(|count| *count == 1)
}

/// Whether each member of the container is an entity set, and each entity type has one.
fn has_one_set_each(alloc: Global, schema: &Schema<'_>) -> Result<bool, AllocError>
    requires { IsSchema schema.now }
    ensures { IfOk result (λ b. b ≡ spec.has_one_set_each (root_of schema.now)) }
{
    if !are_entity_sets(schema) {
        return Ok(false);
    }
    let counts = set_counts(alloc, schema)?;
    Ok(are_ones(&counts))
}

/// Whether every rule of model files holds.
pub fn is_model(alloc: Global, schema: &Schema<'_>) -> Result<bool, AllocError>
    requires { IsSchema schema.now }
    ensures value { IfOk result (λ b. b ≡ spec.is_model (root_of schema.now)) }
{
    let one_set_each = has_one_set_each(alloc, schema)?;
    Ok(
        has_one_schema(schema.root)
            && has_one_container(schema)
            && has_types(schema)
            && one_set_each
            && has_names(schema),
    )
}
