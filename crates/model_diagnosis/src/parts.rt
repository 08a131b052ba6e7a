//! What an entity type has of its own: members, properties and its key.
ghost use Rattle.std.specs.Prelude.{ℕ, ◌≡◌, true, false, is_some, IfSome, IfNone, Some};
ghost use Rattle.std.specs.List.{list_all};
ghost use Rattle.serde_json.specs.Data.{Data};
ghost use Rattle.serde_json.specs.View.{view};
ghost use Rattle.edm_values.specs.declared.EdmType as kinds;
ghost use Rattle.edm_schema.specs.ModelTrees as rules;
ghost use Rattle.edm_schema.specs.MemberLists.{tree_of, IsTypeTree};
ghost use Rattle.model_diagnosis.specs.Faults.{failed_property, failed_key, IsTypeFault};
ghost use Rattle.model_diagnosis.specs.Searched.{passes_property_tests, is_sound_property, has_sound_parts};

use crate::faults::{KeyTest, PropertyTest, TypeFault};
use crate::others::other_member;
use edm_schema::TypeTree;
use edm_schema::kinds::{
    has_scale_in_place, is_decimal_property, is_key_kind, is_nullable, kind_name, kind_of,
    precision_of, scale_of,
};
use edm_schema::members::named;
use edm_schema::rules::{has_key_name, is_type_member};
use edm_schema::tree::{is_boolean_if_there, is_string_if_there};
use serde_json::Value;

/// Whether it is the name of one of the five types.
fn is_type_name(name: &str) -> bool
    ensures { result ≡ is_some (rules.kind_named name.now (Some (kinds.EdmType.Dec 0 18))) }
{
    matches!(
        name,
        "Edm.Int64" | "Edm.Decimal" | "Edm.String" | "Edm.Date" | "Edm.Boolean"
    )
}

/// The first test that a property fails.
fn failed_property_test(property: &Value) -> Option<PropertyTest>
    ensures first { result ≡ failed_property (view property.now) }
    ensures none { IfNone result (passes_property_tests (view property.now) ≡ true) }
{
    if !is_string_if_there("$Type", property) {
        return Some(PropertyTest::TypeText);
    }
    if !is_boolean_if_there("$Nullable", property) {
        return Some(PropertyTest::NullableFlag);
    }
    if !is_type_name(kind_name(property)) {
        return Some(PropertyTest::TypeName);
    }
    let is_decimal = is_decimal_property(property);
    if is_decimal && scale_of(property).is_none() {
        return Some(PropertyTest::Scale);
    }
    if is_decimal && precision_of(property).is_none() {
        return Some(PropertyTest::Precision);
    }
    if kind_of(property).is_none() {
        return Some(PropertyTest::ScaleInPrecision);
    }
    if !has_scale_in_place(property) {
        return Some(PropertyTest::ScaleInPlace);
    }
    None
}

/// What is at fault in one of the properties of a type.
fn properties_fault<'v>(t: &TypeTree<'v>) -> Option<TypeFault<'v>>
    requires { IsTypeTree t.now }
    ensures found { IfSome result (λ f. (d : Data) (k : ℕ) → IsTypeFault d k (tree_of t.now) f) }
    ensures none { IfNone result (list_all (λ m. is_sound_property m.1) (rules.property_members (tree_of t.now)) ≡ true) }
{
    for member in &t.properties {
        if let Some(other) = other_member(
            &["$Kind", "$Type", "$Nullable", "$Scale", "$Precision"],
            member.value,
        ) {
            return Some(TypeFault::PropertyMember(member.name, other));
        }
        if let Some(test) = failed_property_test(member.value) {
            return Some(TypeFault::Property(member.name, test));
        }
    }
    None
}

/// A member of a type that is neither a property nor a navigation property.
fn members_fault<'v>(t: &TypeTree<'v>) -> Option<TypeFault<'v>>
    requires { IsTypeTree t.now }
    ensures found { IfSome result (λ f. (d : Data) (k : ℕ) → IsTypeFault d k (tree_of t.now) f) }
    ensures none { IfNone result (rules.has_known_members (tree_of t.now) ≡ true) }
{
    for member in &t.own {
        if !is_type_member(*member) {
            return Some(TypeFault::Member(member.name));
        }
    }
    None
}

/// The first test that the key of a type fails.
fn failed_key_test(t: &TypeTree<'_>) -> Option<KeyTest>
    requires { IsTypeTree t.now }
    ensures first { result ≡ failed_key (tree_of t.now) }
    ensures none { IfNone result (rules.has_one_key (tree_of t.now) ≡ true) }
{
    if !has_key_name(t.value) {
        return Some(KeyTest::Text);
    }
    let Some(property) = named(t.properties.as_slice(), t.key) else {
        return Some(KeyTest::Property);
    };
    if is_nullable(property) {
        return Some(KeyTest::Null);
    }
    match kind_of(property) {
        Some(kind) if is_key_kind(kind) => None,
        _ => Some(KeyTest::Type),
    }
}

/// What is at fault in what a type has of its own.
pub(crate) fn part_fault<'v>(t: &TypeTree<'v>) -> Option<TypeFault<'v>>
    requires { IsTypeTree t.now }
    ensures found { IfSome result (λ f. (d : Data) (k : ℕ) → IsTypeFault d k (tree_of t.now) f) }
    ensures none { IfNone result (has_sound_parts (tree_of t.now) ≡ true) }
{
    if let Some(fault) = members_fault(t) {
        return Some(fault);
    }
    if let Some(fault) = properties_fault(t) {
        return Some(fault);
    }
    let test = failed_key_test(t)?;
    Some(TypeFault::Key(test))
}
