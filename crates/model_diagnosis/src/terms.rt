//! The hierarchies and custom aggregates of an entity type.
ghost use Rattle.std.specs.Prelude.{ℕ, ◌≡◌, ◌&&◌, true, false, IfSome, IfNone};
ghost use Rattle.std.specs.List.{list_all};
ghost use Rattle.serde_json.specs.Data.{Data};
ghost use Rattle.serde_json.specs.View.{view};
ghost use Rattle.edm_schema.specs.JsonTrees.{is_string};
ghost use Rattle.edm_schema.specs.ModelTrees as rules;
ghost use Rattle.edm_schema.specs.MemberLists.{root_of, tree_of, IsTypeTree, IsSchema};
ghost use Rattle.model_diagnosis.specs.Faults.{failed_hierarchy, failed_definition, IsTypeFault};
ghost use Rattle.model_diagnosis.specs.Searched.{passes_hierarchy_tests, passes_definition_tests, has_sound_terms};

use crate::faults::{DefinitionTest, HierarchyTest, TypeFault};
use crate::others::other_member;
use edm_schema::links::is_reference_to;
use edm_schema::rules::{has_groups_or_none, method_at};
use edm_schema::tree::{is_string_at, is_text_at, text_at};
use edm_schema::{Schema, TypeTree, find_named};
use serde_json::Value;

/// The first test that a hierarchy fails.
fn failed_hierarchy_test(
    schema: &Schema<'_>,
    k: usize,
    t: &TypeTree<'_>,
    hierarchy: &Value,
) -> Option<HierarchyTest>
    requires schema { IsSchema schema.now }
    requires t { IsTypeTree t.now }
    ensures first { result ≡ failed_hierarchy (root_of schema.now) k (tree_of t.now) (view hierarchy.now) }
    ensures none { IfNone result (passes_hierarchy_tests (root_of schema.now) k (tree_of t.now) (view hierarchy.now) ≡ true) }
{
    if !hierarchy.is_object() {
        return Some(HierarchyTest::Object);
    }
    if !is_text_at("NodeProperty", t.key, hierarchy) {
        return Some(HierarchyTest::Node);
    }
    if !is_string_at("ParentNavigationProperty", hierarchy) {
        return Some(HierarchyTest::ParentText);
    }
    let parent = text_at("ParentNavigationProperty", hierarchy);
    if !is_reference_to(schema, k, t, parent) {
        return Some(HierarchyTest::Parent);
    }
    None
}

/// What is at fault in one of the hierarchies of a type.
fn hierarchies_fault<'v>(schema: &Schema<'v>, k: usize, t: &TypeTree<'v>) -> Option<TypeFault<'v>>
    requires schema { IsSchema schema.now }
    requires t { IsTypeTree t.now }
    ensures found { IfSome result (λ f. IsTypeFault (root_of schema.now) k (tree_of t.now) f) }
    ensures none { let d = tree_of t.now in IfNone result (list_all (λ m. rules.is_hierarchy (root_of schema.now) k d m.1) (rules.term_members rules.hierarchy_term d) ≡ true) }
{
    for member in &t.hierarchies {
        if let Some(other) = other_member(
            &["NodeProperty", "ParentNavigationProperty"],
            member.value,
        ) {
            return Some(TypeFault::HierarchyMember(member.name, other));
        }
        if let Some(test) = failed_hierarchy_test(schema, k, t, member.value) {
            return Some(TypeFault::Hierarchy(member.name, test));
        }
    }
    None
}

/// A custom aggregate of a type that is no string.
fn aggregates_fault<'v>(t: &TypeTree<'v>) -> Option<TypeFault<'v>>
    requires { IsTypeTree t.now }
    ensures found { IfSome result (λ f. (d : Data) (k : ℕ) → IsTypeFault d k (tree_of t.now) f) }
    ensures none { let d = tree_of t.now in IfNone result (list_all (λ m. is_string m.1) (rules.term_members rules.aggregate_term d) ≡ true) }
{
    for member in &t.aggregates {
        if !member.value.is_string() {
            return Some(TypeFault::Aggregate(member.name));
        }
    }
    None
}

/// The first test that the definition of a custom aggregate of this name fails.
fn failed_definition_test(
    t: &TypeTree<'_>,
    name: &str,
    definition: &Value,
) -> Option<DefinitionTest>
    requires { IsTypeTree t.now }
    ensures first { result ≡ failed_definition (tree_of t.now) name.now (view definition.now) }
    ensures none { IfNone result (passes_definition_tests (tree_of t.now) name.now (view definition.now) ≡ true) }
{
    if !definition.is_object() {
        return Some(DefinitionTest::Object);
    }
    if !is_string_at("Of", definition) {
        return Some(DefinitionTest::Expression);
    }
    if method_at("With", definition).is_none() {
        return Some(DefinitionTest::Method);
    }
    if !has_groups_or_none(definition) {
        return Some(DefinitionTest::Groups);
    }
    if find_named(t.aggregates.as_slice(), name).is_none() {
        return Some(DefinitionTest::Aggregate);
    }
    if find_named(t.own.as_slice(), name).is_some() {
        return Some(DefinitionTest::Free);
    }
    None
}

/// What is at fault in one of the definitions of the custom aggregates of a type.
fn definitions_fault<'v>(t: &TypeTree<'v>) -> Option<TypeFault<'v>>
    requires { IsTypeTree t.now }
    ensures found { IfSome result (λ f. (d : Data) (k : ℕ) → IsTypeFault d k (tree_of t.now) f) }
    ensures none { let d = tree_of t.now in IfNone result (list_all (λ m. rules.is_definition m.1 && rules.is_custom_name d (rules.qualifier rules.definition_term m.0)) (rules.term_members rules.definition_term d) ≡ true) }
{
    for member in &t.definitions {
        if let Some(other) = other_member(&["Of", "With", "Per", "Then"], member.value) {
            return Some(TypeFault::DefinitionMember(member.name, other));
        }
        if let Some(test) = failed_definition_test(t, member.name, member.value) {
            return Some(TypeFault::Definition(member.name, test));
        }
    }
    None
}

/// What is at fault in one of the hierarchies, custom aggregates or definitions of a type.
pub(crate) fn terms_fault<'v>(
    schema: &Schema<'v>,
    k: usize,
    t: &TypeTree<'v>,
) -> Option<TypeFault<'v>>
    requires schema { IsSchema schema.now }
    requires t { IsTypeTree t.now }
    ensures found { IfSome result (λ f. IsTypeFault (root_of schema.now) k (tree_of t.now) f) }
    ensures none { IfNone result (has_sound_terms (root_of schema.now) k (tree_of t.now) ≡ true) }
{
    if let Some(fault) = hierarchies_fault(schema, k, t) {
        return Some(fault);
    }
    if let Some(fault) = aggregates_fault(t) {
        return Some(fault);
    }
    definitions_fault(t)
}
