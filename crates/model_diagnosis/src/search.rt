//! The search for a fault, part by part.
ghost use Rattle.std.specs.Prelude.{ℕ, ◌≡◌, false, true, length, IfOk, IfSome, IfNone};
ghost use Rattle.std.specs.List.{list_all};
ghost use Rattle.edm_values.specs.Lists.{places};
ghost use Rattle.edm_schema.specs.MemberLists.{root_of, tree_of, IsTypeTree, IsSchema};
ghost use Rattle.edm_schema.specs.ModelTrees.{is_model, is_type, type_members, type_tree};
ghost use Rattle.model_diagnosis.specs.Faults.{IsTypeFault, IsFault};
ghost use Rattle.model_diagnosis.specs.Searched.{has_sound_parts, has_sound_links};

use crate::faults::{Fault, TypeFault};
use crate::links::{navigations_fault, target_fault};
use crate::names::names_fault;
use crate::parts::part_fault;
use crate::roots::outer_fault;
use crate::sets::sets_fault;
use crate::terms::terms_fault;
use edm_schema::{Schema, TypeTree};
use std::alloc::{AllocError, Global};

/// What is at fault in what a type has of its own.
fn parts_fault<'v>(schema: &Schema<'v>) -> Option<Fault<'v>>
    requires { IsSchema schema.now }
    ensures found { IfSome result (λ f. IsFault (root_of schema.now) f) }
    ensures none { let d = root_of schema.now in IfNone result (list_all (λ m. has_sound_parts m.1) (type_members d) ≡ true) }
{
    for t in &schema.types {
        if let Some(fault) = part_fault(t) {
            return Some(Fault::Type(t.name, fault));
        }
    }
    None
}

/// A navigation property of some type that leads to no entity type of the schema.
fn targets_fault<'v>(schema: &Schema<'v>) -> Option<Fault<'v>>
    requires { IsSchema schema.now }
    ensures { IfSome result (λ f. IsFault (root_of schema.now) f) }
{
    for t in &schema.types {
        if let Some(fault) = target_fault(schema, t) {
            return Some(Fault::Type(t.name, fault));
        }
    }
    None
}

/// What is at fault in the navigation properties, hierarchies and custom aggregates of a type.
fn link_fault<'v>(schema: &Schema<'v>, k: usize, t: &TypeTree<'v>) -> Option<TypeFault<'v>>
    requires schema { IsSchema schema.now }
    requires t { IsTypeTree t.now }
    ensures found { IfSome result (λ f. IsTypeFault (root_of schema.now) k (tree_of t.now) f) }
    ensures none { IfNone result (has_sound_links (root_of schema.now) k (tree_of t.now) ≡ true) }
{
    match navigations_fault(schema, k, t) {
        Some(fault) => Some(fault),
        None => terms_fault(schema, k, t),
    }
}

/// What is at fault in the navigation properties, hierarchies and custom aggregates of the types.
fn links_fault<'v>(schema: &Schema<'v>) -> Option<Fault<'v>>
    requires { IsSchema schema.now }
    ensures found { IfSome result (λ f. IsFault (root_of schema.now) f) }
    ensures none { let d = root_of schema.now in IfNone result (list_all (λ k. has_sound_links d k (type_tree d k)) (places (length (type_members d))) ≡ true) }
{
    for k in 0..schema.types.len() {
        let t = &schema.types[k];
        if let Some(fault) = link_fault(schema, k, t) {
            return Some(Fault::Type(t.name, fault));
        }
    }
    None
}

/// What is at fault in the types.
fn types_fault<'v>(schema: &Schema<'v>) -> Option<Fault<'v>>
    requires { IsSchema schema.now }
    ensures found { IfSome result (λ f. IsFault (root_of schema.now) f) }
    ensures none { let d = root_of schema.now in IfNone result (list_all (λ k. is_type d k (type_tree d k)) (places (length (type_members d))) ≡ true) }
{
    if let Some(fault) = parts_fault(schema) {
        return Some(fault);
    }
    if let Some(fault) = targets_fault(schema) {
        return Some(fault);
    }
    links_fault(schema)
}

/// A part of a model file that breaks a rule, and the test that it fails; none where every rule holds.
pub fn first_fault<'v>(alloc: Global, schema: &Schema<'v>) -> Result<Option<Fault<'v>>, AllocError>
    requires { IsSchema schema.now }
    ensures found { IfOk result (λ o. IfSome o (λ f. IsFault (root_of schema.now) f)) }
    ensures refused { IfOk result (λ o. IfSome o (λ _. is_model (root_of schema.now) ≡ false)) }
    ensures none { IfOk result (λ o. IfNone o (is_model (root_of schema.now) ≡ true)) }
{
    if let Some(fault) = outer_fault(schema) {
        return Ok(Some(fault));
    }
    if let Some(fault) = types_fault(schema) {
        return Ok(Some(fault));
    }
    if let Some(fault) = sets_fault(alloc, schema)? {
        return Ok(Some(fault));
    }
    Ok(names_fault(schema))
}
