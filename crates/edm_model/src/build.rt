//! The parts of the model that an accepted tree states.
ghost use Rattle.std.specs.Prelude.{ℕ, ◌≡◌, ◌++◌, map, filter_map, codes, option_and_then, unwrap_or, IfOk, OnOk};
ghost use Rattle.std.specs.Option.{option_to_list};
ghost use Rattle.serde_json.specs.Data.{null};
ghost use Rattle.serde_json.specs.Find.{as_str, get};
ghost use Rattle.serde_json.specs.View.{view};
ghost use Rattle.edm_schema.specs.JsonTrees.{items_in};
ghost use Rattle.edm_schema.specs.ModelTrees as tree;
ghost use Rattle.edm_model.specs.ModelFile as spec;
ghost use Rattle.edm_schema.specs.MemberLists.{member_seen, type_seen, root_of, tree_of, IsTypeTree, IsSchema};

use crate::Method;
use crate::parts::{Definition, EntitySet, EntityType, Hierarchy, Navigation, Property, Texts};
use edm_schema::{
    Member, Schema, TypeTree, constraint, find_named, is_nullable, is_true_at, kind_of, method_at,
    text_at, type_place,
};
use edm_values::{EdmType, Text};
use serde_json::Value;
use std::alloc::{AllocError, Global};

/// The properties of an entity type.
fn properties_of(alloc: Global, t: &TypeTree<'_>) -> Result<Vec<Property>, AllocError>
    requires { IsTypeTree t.now }
    ensures { IfOk result (λ v. v.items ≡ map spec.property_of (tree.property_members (tree_of t.now))) }
{
    let mut properties = Vec::new(alloc);
    for member in &t.properties {
        let name = Text::of(alloc, member.name)?;
        properties.push(Property {
            name,
            kind: kind_of(member.value).unwrap_or(EdmType::Text),
            nullable: is_nullable(member.value),
        })?;
    }
    Ok(properties)
}

/// The place of the property of this name, or 0.
fn property_place(t: &TypeTree<'_>, name: &str) -> usize
    requires { IsTypeTree t.now }
    ensures { result ≡ unwrap_or (tree.member_place (tree.property_members (tree_of t.now)) name.now) 0 }
{
    find_named(t.properties.as_slice(), name).unwrap_or(0)
}

/// The place of the navigation property of this name, or 0.
fn navigation_place(t: &TypeTree<'_>, name: &str) -> usize
    requires { IsTypeTree t.now }
    ensures { result ≡ unwrap_or (tree.member_place (tree.navigation_members (tree_of t.now)) name.now) 0 }
{
    find_named(t.navigations.as_slice(), name).unwrap_or(0)
}

/// The place of the property that refers to the target's key.
fn dependent_place(t: &TypeTree<'_>, navigation: &Value) -> usize
    requires { IsTypeTree t.now }
    ensures { result ≡ unwrap_or (option_and_then (λ c. tree.member_place (tree.property_members (tree_of t.now)) c.0) (tree.constraint (view navigation.now))) 0 }
{
    match constraint(navigation) {
        Some(constraint) => property_place(t, constraint.name),
        None => 0,
    }
}

/// The place of the navigation property of the target that leads back, of a collection-valued one; 0 of the others.
fn partner_place(schema: &Schema<'_>, navigation: &Value) -> usize
    requires { IsSchema schema.now }
    ensures { result ≡ spec.partner_place (root_of schema.now) (view navigation.now) }
{
    if !is_true_at("$Collection", navigation) {
        return 0;
    }
    match type_place(schema, navigation) {
        Some(place) => navigation_place(&schema.types[place], text_at("$Partner", navigation)),
        None => 0,
    }
}

/// A navigation property of the model.
fn navigation_of(
    alloc: Global,
    schema: &Schema<'_>,
    t: &TypeTree<'_>,
    member: Member<'_>,
) -> Result<Navigation, AllocError>
    requires schema { IsSchema schema.now }
    requires t { IsTypeTree t.now }
    ensures { IfOk result (λ n. n ≡ spec.navigation_of (root_of schema.now) (tree_of t.now) (member_seen member.entry)) }
{
    let name = Text::of(alloc, member.name)?;
    Ok(Navigation {
        name,
        target: type_place(schema, member.value).unwrap_or(0),
        many: is_true_at("$Collection", member.value),
        dependent: dependent_place(t, member.value),
        partner: partner_place(schema, member.value),
    })
}

/// The navigation properties of an entity type.
fn navigations_of(
    alloc: Global,
    schema: &Schema<'_>,
    t: &TypeTree<'_>,
) -> Result<Vec<Navigation>, AllocError>
    requires schema { IsSchema schema.now }
    requires t { IsTypeTree t.now }
    ensures { let d = tree_of t.now in IfOk result (λ v. v.items ≡ map (spec.navigation_of (root_of schema.now) d) (tree.navigation_members d)) }
{
    let mut navigations = Vec::new(alloc);
    for member in &t.navigations {
        navigations.push(navigation_of(alloc, schema, t, *member)?)?;
    }
    Ok(navigations)
}

/// A recursive hierarchy of the model.
fn hierarchy_of(
    alloc: Global,
    t: &TypeTree<'_>,
    qualifier: &str,
    value: &Value,
) -> Result<Hierarchy, AllocError>
    requires { IsTypeTree t.now }
    ensures { IfOk result (λ h. h ≡ spec.hierarchy_from (tree_of t.now) qualifier.now (view value.now)) }
{
    let qualifier = Text::of(alloc, qualifier)?;
    let parent = navigation_place(t, text_at("ParentNavigationProperty", value));
    Ok(Hierarchy { qualifier, parent })
}

/// The recursive hierarchies of an entity type.
fn hierarchies_of(alloc: Global, t: &TypeTree<'_>) -> Result<Vec<Hierarchy>, AllocError>
    requires { IsTypeTree t.now }
    ensures { let d = tree_of t.now in IfOk result (λ v. v.items ≡ map (spec.hierarchy_of d) (tree.term_members tree.hierarchy_term d)) }
{
    let mut hierarchies = Vec::new(alloc);
    for member in &t.hierarchies {
        hierarchies.push(hierarchy_of(alloc, t, member.name, member.value)?)?;
    }
    Ok(hierarchies)
}

/// Adds the text of a string.
fn push_string(alloc: Global, texts: &mut Vec<Text>, item: &Value) -> Result<(), AllocError>
    ensures { OnOk result (texts.new.items ≡ texts.old.items ++ option_to_list (as_str (view item.now))) }
{
    if let Some(text) = item.as_str() {
        texts.push(Text::of(alloc, text)?)?;
    }
    Ok(())
}

/// The texts of the strings of an array.
fn strings_of(alloc: Global, items: &[Value]) -> Result<Vec<Text>, AllocError>
    ensures { IfOk result (λ v. v.items ≡ filter_map (λ x. as_str (view x)) items.now) }
{
    let mut texts = Vec::new(alloc);
    for item in items {
        push_string(alloc, &mut texts, item)?;
    }
    Ok(texts)
}

/// The paths of the groups of a custom aggregate.
#[tactic(auto, using(edm_schema::proofs::Items::strings_seen))]
fn paths_of(alloc: Global, value: &Value) -> Result<Vec<Text>, AllocError>
    ensures { IfOk result (λ v. v.items ≡ filter_map as_str (items_in (unwrap_or (get (codes "Per") (view value.now)) null))) }
{
    match value.get("Per").and_then(Value::as_array) {
        Some(items) => strings_of(alloc, items),
        None => Ok(Vec::new(alloc)),
    }
}

/// A custom aggregate of the model, with its definition.
fn custom_of(alloc: Global, name: &str, value: &Value) -> Result<Definition, AllocError>
    ensures { IfOk result (λ c. c ≡ spec.custom_from name.now (view value.now)) }
{
    let name = Text::of(alloc, name)?;
    let of = Text::of(alloc, text_at("Of", value))?;
    let per = paths_of(alloc, value)?;
    Ok(Definition {
        name,
        of,
        method: method_at("With", value).unwrap_or(Method::Sum),
        per: Texts::new(per),
        outer: method_at("Then", value),
    })
}

/// The custom aggregates of an entity type.
fn customs_of(alloc: Global, t: &TypeTree<'_>) -> Result<Vec<Definition>, AllocError>
    requires { IsTypeTree t.now }
    ensures { IfOk result (λ v. v.items ≡ map spec.custom_of (tree.term_members tree.definition_term (tree_of t.now))) }
{
    let mut customs = Vec::new(alloc);
    for member in &t.definitions {
        customs.push(custom_of(alloc, member.name, member.value)?)?;
    }
    Ok(customs)
}

/// An entity type of the model.
fn type_of(alloc: Global, schema: &Schema<'_>, t: &TypeTree<'_>) -> Result<EntityType, AllocError>
    requires schema { IsSchema schema.now }
    requires t { IsTypeTree t.now }
    ensures { IfOk result (λ e. e ≡ spec.type_of (root_of schema.now) (type_seen t.now)) }
{
    let name = Text::of(alloc, t.name)?;
    let properties = properties_of(alloc, t)?;
    let navigations = navigations_of(alloc, schema, t)?;
    let hierarchies = hierarchies_of(alloc, t)?;
    let customs = customs_of(alloc, t)?;
    Ok(EntityType {
        name,
        properties,
        key: property_place(t, t.key),
        navigations,
        hierarchies,
        customs,
    })
}

/// The entity types of the model.
pub(crate) fn types_of(alloc: Global, schema: &Schema<'_>) -> Result<Vec<EntityType>, AllocError>
    requires { IsSchema schema.now }
    ensures { let d = root_of schema.now in IfOk result (λ v. v.items ≡ map (spec.type_of d) (tree.type_members d)) }
{
    let mut types = Vec::new(alloc);
    for t in &schema.types {
        types.push(type_of(alloc, schema, t)?)?;
    }
    Ok(types)
}

/// The entity sets of the model.
pub(crate) fn sets_of(alloc: Global, schema: &Schema<'_>) -> Result<Vec<EntitySet>, AllocError>
    requires { IsSchema schema.now }
    ensures { let d = root_of schema.now in IfOk result (λ v. v.items ≡ map (spec.set_of d) (tree.set_members d)) }
{
    let mut sets = Vec::new(alloc);
    for member in &schema.sets {
        let name = Text::of(alloc, member.name)?;
        let of = type_place(schema, member.value).unwrap_or(0);
        sets.push(EntitySet { name, of })?;
    }
    Ok(sets)
}
