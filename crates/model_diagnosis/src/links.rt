//! The navigation properties of an entity type.
ghost use Rattle.std.specs.Prelude.{ℕ, ◌≡◌, true, false, IfSome, IfNone};
ghost use Rattle.std.specs.List.{list_all, Contains};
ghost use Rattle.serde_json.specs.Data.{Data};
ghost use Rattle.serde_json.specs.View.{view};
ghost use Rattle.edm_schema.specs.ModelTrees as rules;
ghost use Rattle.edm_schema.specs.MemberLists.{member_seen, root_of, tree_of, IsTypeTree, IsSchema};
ghost use Rattle.model_diagnosis.specs.Faults.{failed_reference, failed_collection, has_other, reference_names, collection_names, navigation_names, IsTypeFault};
ghost use Rattle.model_diagnosis.specs.Searched.{has_only, passes_reference_tests, passes_collection_tests};

use crate::faults::{CollectionTest, ReferenceTest, TypeFault};
use crate::others::other_member;
use edm_schema::links::{are_of_one_kind, is_reference_to, property_kind, type_place};
use edm_schema::members::{Member, constraint, named};
use edm_schema::tree::{is_object_at, is_string_at, is_text, is_true_at, lacks, text_at};
use edm_schema::{Schema, TypeTree};
use serde_json::Value;

/// The first test that a single-valued navigation property fails.
fn failed_reference_test(
    t: &TypeTree<'_>,
    target: &TypeTree<'_>,
    navigation: &Value,
) -> Option<ReferenceTest>
    requires t { IsTypeTree t.now }
    requires target { IsTypeTree target.now }
    ensures first { result ≡ failed_reference (tree_of t.now) (tree_of target.now) (view navigation.now) }
    ensures none { IfNone result (passes_reference_tests (tree_of t.now) (tree_of target.now) (view navigation.now) ≡ true) }
{
    if !is_object_at("$ReferentialConstraint", navigation) {
        return Some(ReferenceTest::Constraint);
    }
    let Some(constraint) = constraint(navigation) else {
        return Some(ReferenceTest::One);
    };
    let from = property_kind(t, constraint.name);
    if from.is_none() {
        return Some(ReferenceTest::Property);
    }
    if !is_text(target.key, constraint.value) {
        return Some(ReferenceTest::Key);
    }
    let to = property_kind(target, target.key);
    if !are_of_one_kind(from, to) {
        return Some(ReferenceTest::Kind);
    }
    None
}

/// The first test that a collection-valued navigation property fails.
fn failed_collection_test(
    schema: &Schema<'_>,
    k: usize,
    target: &TypeTree<'_>,
    navigation: &Value,
) -> Option<CollectionTest>
    requires schema { IsSchema schema.now }
    requires target { IsTypeTree target.now }
    ensures first { result ≡ failed_collection (root_of schema.now) k (tree_of target.now) (view navigation.now) }
    ensures none { IfNone result (passes_collection_tests (root_of schema.now) k (tree_of target.now) (view navigation.now) ≡ true) }
{
    if !is_true_at("$Collection", navigation) {
        return Some(CollectionTest::Flag);
    }
    if !is_string_at("$Partner", navigation) {
        return Some(CollectionTest::PartnerText);
    }
    let name = text_at("$Partner", navigation);
    match named(target.navigations.as_slice(), name) {
        Some(partner) if lacks("$Collection", partner) => {}
        _ => return Some(CollectionTest::Partner),
    }
    if !is_reference_to(schema, k, target, name) {
        return Some(CollectionTest::Back);
    }
    None
}

/// A member of a single-valued navigation property that no rule names.
fn other_in_reference(navigation: &Value) -> Option<&str>
    ensures found { IfSome result (λ n. has_other reference_names (view navigation.now) n.now ≡ true) }
    ensures none { IfNone result (has_only reference_names (view navigation.now) ≡ true) }
{
    other_member(
        &[
            "$Kind",
            "$Type",
            "$Nullable",
            "$Partner",
            "$ReferentialConstraint",
        ],
        navigation,
    )
}

/// A member of a collection-valued navigation property that no rule names.
fn other_in_collection(navigation: &Value) -> Option<&str>
    ensures found { IfSome result (λ n. has_other collection_names (view navigation.now) n.now ≡ true) }
    ensures none { IfNone result (has_only collection_names (view navigation.now) ≡ true) }
{
    other_member(
        &["$Kind", "$Type", "$Nullable", "$Collection", "$Partner"],
        navigation,
    )
}

/// A member of a navigation property that no rule names.
fn other_fault<'v>(t: &TypeTree<'v>, member: Member<'v>) -> Option<TypeFault<'v>>
    requires t { IsTypeTree t.now }
    requires among { Contains (rules.navigation_members (tree_of t.now)) (member_seen member) }
    ensures found { IfSome result (λ f. (d : Data) (k : ℕ) → IsTypeFault d k (tree_of t.now) f) }
    ensures none { IfNone result (has_only (navigation_names (view member.entry.value.now)) (view member.entry.value.now) ≡ true) }
{
    if lacks("$Collection", member.value) {
        if let Some(other) = other_in_reference(member.value) {
            return Some(TypeFault::ReferenceMember(member.name, other));
        }
        return None;
    }
    if let Some(other) = other_in_collection(member.value) {
        return Some(TypeFault::CollectionMember(member.name, other));
    }
    None
}

/// What is at fault in a navigation property.
fn navigation_fault<'v>(
    schema: &Schema<'v>,
    k: usize,
    t: &TypeTree<'v>,
    member: Member<'v>,
) -> Option<TypeFault<'v>>
    requires schema { IsSchema schema.now }
    requires t { IsTypeTree t.now }
    requires among { Contains (rules.navigation_members (tree_of t.now)) (member_seen member) }
    ensures found { IfSome result (λ f. IsTypeFault (root_of schema.now) k (tree_of t.now) f) }
    ensures none { IfNone result (rules.is_navigable (root_of schema.now) k (tree_of t.now) (view member.entry.value.now) ≡ true) }
{
    if let Some(fault) = other_fault(t, member) {
        return Some(fault);
    }
    let Some(place) = type_place(schema, member.value) else {
        return Some(TypeFault::Target(member.name));
    };
    let target = &schema.types[place];
    if lacks("$Collection", member.value) {
        let test = failed_reference_test(t, target, member.value)?;
        return Some(TypeFault::Reference(member.name, test));
    }
    let test = failed_collection_test(schema, k, target, member.value)?;
    Some(TypeFault::Collection(member.name, test))
}

/// A navigation property of a type with a member that no rule names, or that leads to no entity type of the schema.
pub(crate) fn target_fault<'v>(schema: &Schema<'v>, t: &TypeTree<'v>) -> Option<TypeFault<'v>>
    requires schema { IsSchema schema.now }
    requires t { IsTypeTree t.now }
    ensures { IfSome result (λ f. (k : ℕ) → IsTypeFault (root_of schema.now) k (tree_of t.now) f) }
{
    for member in &t.navigations {
        if let Some(fault) = other_fault(t, *member) {
            return Some(fault);
        }
        if type_place(schema, member.value).is_none() {
            return Some(TypeFault::Target(member.name));
        }
    }
    None
}

/// What is at fault in one of the navigation properties of a type.
pub(crate) fn navigations_fault<'v>(
    schema: &Schema<'v>,
    k: usize,
    t: &TypeTree<'v>,
) -> Option<TypeFault<'v>>
    requires schema { IsSchema schema.now }
    requires t { IsTypeTree t.now }
    ensures found { IfSome result (λ f. IsTypeFault (root_of schema.now) k (tree_of t.now) f) }
    ensures none { let d = tree_of t.now in IfNone result (list_all (λ m. rules.is_navigable (root_of schema.now) k d m.1) (rules.navigation_members d) ≡ true) }
{
    for member in &t.navigations {
        if let Some(fault) = navigation_fault(schema, k, t, *member) {
            return Some(fault);
        }
    }
    None
}
