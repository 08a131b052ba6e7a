//! The entity sets of a schema.
ghost use Rattle.std.specs.Prelude.{ℕ, ◌≡◌, true, false, length, IfOk, IfSome, IfNone};
ghost use Rattle.std.specs.List.{list_all};
ghost use Rattle.serde_json.specs.View.{view};
ghost use Rattle.edm_values.specs.Lists.{exactly_one, places};
ghost use Rattle.edm_schema.specs.ModelTrees as rules;
ghost use Rattle.edm_schema.specs.MemberLists.{root_of, IsSchema};
ghost use Rattle.model_diagnosis.specs.Faults.{failed_set, IsFault};
ghost use Rattle.model_diagnosis.specs.Searched.{passes_set_tests};

use crate::faults::{Fault, SetTest};
use crate::others::other_member;
use edm_schema::Schema;
use edm_schema::links::type_place;
use edm_schema::rules::set_counts;
use edm_schema::tree::is_true_at;
use serde_json::Value;
use std::alloc::{AllocError, Global};

/// The first test that an entity set fails.
fn failed_set_test(schema: &Schema<'_>, set: &Value) -> Option<SetTest>
    requires { IsSchema schema.now }
    ensures first { result ≡ failed_set (root_of schema.now) (view set.now) }
    ensures none { IfNone result (passes_set_tests (root_of schema.now) (view set.now) ≡ true) }
{
    if !set.is_object() {
        return Some(SetTest::Object);
    }
    if !is_true_at("$Collection", set) {
        return Some(SetTest::Flag);
    }
    if type_place(schema, set).is_none() {
        return Some(SetTest::Type);
    }
    None
}

/// What is at fault in one of the entity sets.
fn members_fault<'v>(schema: &Schema<'v>) -> Option<Fault<'v>>
    requires { IsSchema schema.now }
    ensures found { IfSome result (λ f. IsFault (root_of schema.now) f) }
    ensures none { let d = root_of schema.now in IfNone result (list_all (λ m. rules.is_entity_set d m.1) (rules.set_members d) ≡ true) }
{
    for member in &schema.sets {
        if let Some(other) = other_member(&["$Collection", "$Type"], member.value) {
            return Some(Fault::SetMember(member.name, other));
        }
        if let Some(test) = failed_set_test(schema, member.value) {
            return Some(Fault::Set(member.name, test));
        }
    }
    None
}

/// An entity type that has no set, or several.
fn count_fault<'v>(alloc: Global, schema: &Schema<'v>) -> Result<Option<Fault<'v>>, AllocError>
    requires { IsSchema schema.now }
    ensures found { IfOk result (λ o. IfSome o (λ f. IsFault (root_of schema.now) f)) }
    ensures none { let d = root_of schema.now in IfOk result (λ o. IfNone o (list_all (λ k. exactly_one (λ m. rules.leads_to d k m.1) (rules.set_members d)) (places (length (rules.type_members d))) ≡ true)) }
{
    let counts = set_counts(alloc, schema)?;
    for k in 0..counts.len() {
        if counts[k] != 1 {
            return Ok(Some(Fault::SetCount(schema.types[k].name)));
        }
    }
    Ok(None)
}

/// What is at fault in the entity sets.
pub(crate) fn sets_fault<'v>(
    alloc: Global,
    schema: &Schema<'v>,
) -> Result<Option<Fault<'v>>, AllocError>
    requires { IsSchema schema.now }
    ensures found { IfOk result (λ o. IfSome o (λ f. IsFault (root_of schema.now) f)) }
    ensures none { IfOk result (λ o. IfNone o (rules.has_one_set_each (root_of schema.now) ≡ true)) }
{
    if let Some(fault) = members_fault(schema) {
        return Ok(Some(fault));
    }
    count_fault(alloc, schema)
}
