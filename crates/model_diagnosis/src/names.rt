//! The names of types, sets and the parts of types.
ghost use Rattle.std.specs.Prelude.{ℕ, ◌≡◌, true, IfSome, IfNone};
ghost use Rattle.std.specs.List.{list_all};
ghost use Rattle.serde_json.specs.Data.{Data};
ghost use Rattle.edm_values.specs.Names as names;
ghost use Rattle.edm_schema.specs.ModelTrees as rules;
ghost use Rattle.edm_schema.specs.MemberLists.{root_of, tree_of, IsTypeTree, IsSchema};
ghost use Rattle.model_diagnosis.specs.Faults.{IsTypeFault, IsFault};

use crate::faults::{Fault, TypeFault};
use edm_schema::rules::has_simple_name;
use edm_schema::{Schema, TypeTree};
use edm_values::is_name;

/// A member of a type whose name is no simple identifier, nor has one behind its term.
fn part_name_fault<'v>(t: &TypeTree<'v>) -> Option<TypeFault<'v>>
    requires { IsTypeTree t.now }
    ensures found { IfSome result (λ f. (d : Data) (k : ℕ) → IsTypeFault d k (tree_of t.now) f) }
    ensures none { IfNone result (rules.has_simple_parts (tree_of t.now) ≡ true) }
{
    for member in &t.members {
        if !has_simple_name(member.name) {
            return Some(TypeFault::Name(member.name));
        }
    }
    None
}

/// What is at fault in the names of the members of types.
fn part_names_fault<'v>(schema: &Schema<'v>) -> Option<Fault<'v>>
    requires { IsSchema schema.now }
    ensures found { IfSome result (λ f. IsFault (root_of schema.now) f) }
    ensures none { let d = root_of schema.now in IfNone result (list_all (λ m. rules.has_simple_parts m.1) (rules.type_members d) ≡ true) }
{
    for t in &schema.types {
        if let Some(fault) = part_name_fault(t) {
            return Some(Fault::Type(t.name, fault));
        }
    }
    None
}

/// An entity type whose name is no simple identifier.
fn type_names_fault<'v>(schema: &Schema<'v>) -> Option<Fault<'v>>
    requires { IsSchema schema.now }
    ensures found { IfSome result (λ f. IsFault (root_of schema.now) f) }
    ensures none { let d = root_of schema.now in IfNone result (list_all (λ m. names.is_name m.0) (rules.type_members d) ≡ true) }
{
    for t in &schema.types {
        if !is_name(t.name) {
            return Some(Fault::TypeName(t.name));
        }
    }
    None
}

/// An entity set whose name is no simple identifier.
fn set_names_fault<'v>(schema: &Schema<'v>) -> Option<Fault<'v>>
    requires { IsSchema schema.now }
    ensures found { IfSome result (λ f. IsFault (root_of schema.now) f) }
    ensures none { let d = root_of schema.now in IfNone result (list_all (λ m. names.is_name m.0) (rules.set_members d) ≡ true) }
{
    for member in &schema.sets {
        if !is_name(member.name) {
            return Some(Fault::SetName(member.name));
        }
    }
    None
}

/// What is at fault in a name.
pub(crate) fn names_fault<'v>(schema: &Schema<'v>) -> Option<Fault<'v>>
    requires { IsSchema schema.now }
    ensures found { IfSome result (λ f. IsFault (root_of schema.now) f) }
    ensures none { IfNone result (rules.has_names (root_of schema.now) ≡ true) }
{
    if let Some(fault) = type_names_fault(schema) {
        return Some(fault);
    }
    if let Some(fault) = set_names_fault(schema) {
        return Some(fault);
    }
    part_names_fault(schema)
}
