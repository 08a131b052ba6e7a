//! The root of a file and its schema.
ghost use Rattle.std.specs.Prelude.{◌≡◌, ◌&&◌, true, false, IfSome, IfNone};
ghost use Rattle.std.specs.List.{list_all, after_last};
ghost use Rattle.serde_json.specs.View.{view};
ghost use Rattle.edm_values.specs.Lists.{same_text, is_some_and};
ghost use Rattle.edm_values.specs.Literals.{is_point};
ghost use Rattle.edm_schema.specs.JsonTrees as tree;
ghost use Rattle.edm_schema.specs.JsonTrees.{members_in};
ghost use Rattle.edm_schema.specs.ModelTrees as rules;
ghost use Rattle.edm_schema.specs.MemberLists.{root_of, IsSchema};
ghost use Rattle.model_diagnosis.specs.Faults.{failed_root, failed_containers, IsFault};
ghost use Rattle.model_diagnosis.specs.Faults as parts;
ghost use Rattle.model_diagnosis.specs.Searched.{passes_root_tests};

use crate::faults::{ContainerTest, Fault, RootTest};
use crate::others::other_member;
use edm_schema::Schema;
use edm_schema::members::only;
use edm_schema::rules::{are_names, is_schema_member};
use edm_schema::schema::{container_name, namespace};
use edm_schema::tree::{is_object_at, is_string_at};
use serde_json::Value;

/// The first test that the root fails.
fn failed_root_test(root: &Value) -> Option<RootTest>
    ensures first { result ≡ failed_root (view root.now) }
    ensures none { IfNone result (passes_root_tests (view root.now) ≡ true) }
{
    if !root.is_object() {
        return Some(RootTest::Object);
    }
    if !is_string_at("$Version", root) {
        return Some(RootTest::Version);
    }
    if !is_string_at("$EntityContainer", root) {
        return Some(RootTest::ContainerPath);
    }
    let namespace = namespace(root);
    if !are_names(namespace) {
        return Some(RootTest::Namespace);
    }
    if !is_object_at(namespace, root) {
        return Some(RootTest::Schema);
    }
    None
}

/// What is at fault in the root.
fn root_fault(root: &Value) -> Option<Fault<'_>>
    ensures found { IfSome result (λ f. IsFault (view root.now) f) }
    ensures none { IfNone result (rules.has_one_schema (view root.now) ≡ true) }
{
    if let Some(test) = failed_root_test(root) {
        return Some(Fault::Root(test));
    }
    let name = other_member(&["$Version", "$EntityContainer", namespace(root)], root)?;
    Some(Fault::RootMember(name))
}

/// A member of a schema that is neither an entity type nor a container.
fn members_fault<'v>(schema: &Schema<'v>) -> Option<Fault<'v>>
    requires { IsSchema schema.now }
    ensures found { IfSome result (λ f. IsFault (root_of schema.now) f) }
    ensures none { IfNone result (list_all parts.is_schema_member (members_in (rules.schema (root_of schema.now))) ≡ true) }
{
    for member in &schema.members {
        if !is_schema_member(*member) {
            return Some(Fault::SchemaMember(member.name));
        }
    }
    None
}

/// The first test that the containers of a schema fail.
fn failed_container_test(schema: &Schema<'_>) -> Option<ContainerTest>
    requires { IsSchema schema.now }
    ensures first { result ≡ failed_containers (root_of schema.now) }
    ensures none { let d = root_of schema.now in IfNone result (is_some_and (λ m. same_text m.0 (after_last is_point (rules.container_path d))) (tree.only (rules.container_members d)) ≡ true) }
{
    let Some(container) = only(schema.containers.as_slice()) else {
        return Some(ContainerTest::One);
    };
    if container.name != container_name(schema.root) {
        return Some(ContainerTest::Name);
    }
    None
}

/// What is at fault in the root or in the members of the schema.
pub(crate) fn outer_fault<'v>(schema: &Schema<'v>) -> Option<Fault<'v>>
    requires { IsSchema schema.now }
    ensures found { IfSome result (λ f. IsFault (root_of schema.now) f) }
    ensures none { let d = root_of schema.now in IfNone result ((rules.has_one_schema d && rules.has_one_container d) ≡ true) }
{
    if let Some(fault) = root_fault(schema.root) {
        return Some(fault);
    }
    if let Some(fault) = members_fault(schema) {
        return Some(fault);
    }
    let test = failed_container_test(schema)?;
    Some(Fault::Containers(test))
}
