//! The schema of a model file and its entity types, each list of members made once.
ghost use Rattle.std.specs.Prelude.{ℕ, ◌≡◌, ◌<◌, map, option_map, unwrap_or, length, IfOk};
ghost use Rattle.std.specs.List.{All, before_last, after_last};
ghost use Rattle.serde_json.specs.Data.{null};
ghost use Rattle.serde_json.specs.Find.{get};
ghost use Rattle.serde_json.specs.View.{view};
ghost use Rattle.edm_values.specs.Literals.{is_point};
ghost use Rattle.edm_schema.specs.JsonTrees as tree;
ghost use Rattle.edm_schema.specs.JsonTrees.{members_in};
ghost use Rattle.edm_schema.specs.ModelTrees as spec;
ghost use Rattle.edm_schema.specs.MemberLists.{member_seen, type_seen, root_of, IsTypeTree, IsSchema};
ghost use Rattle.edm_schema.specs.NameOrders.{AreOrdered};

use crate::members::{
    Member, besides_kind, members_of, navigations_among, objects_among, only, own_members,
    properties_among, qualified_members, read_members, stand_in_order,
};
use crate::named::Named;
use crate::names::{AGGREGATE_TERM, DEFINITION_TERM, HIERARCHY_TERM};
use crate::tree::{only_string, text_at};
use serde_json::Value;
use std::alloc::{AllocError, Global};

/// An entity type, its members by what they are; those of a term by their qualifiers.
#[derive(Drop)]
pub struct TypeTree<'v> {
    pub name: &'v str,
    pub value: &'v Value,
    pub key: &'v str,
    pub members: Vec<Member<'v>>,
    pub own: Vec<Member<'v>>,
    pub properties: Vec<Member<'v>>,
    pub navigations: Vec<Member<'v>>,
    pub hierarchies: Vec<Member<'v>>,
    pub aggregates: Vec<Member<'v>>,
    pub definitions: Vec<Member<'v>>,
}

impl Named for TypeTree<'_> {
    ghost name_of = { λ t. t.name.now };

    fn name(&self) -> &str {
        self.name
    }
}

/// The schema of a file and its parts.
#[derive(Drop)]
pub struct Schema<'v> {
    pub root: &'v Value,
    pub namespace: &'v str,
    pub members: Vec<Member<'v>>,
    pub containers: Vec<Member<'v>>,
    pub types: Vec<TypeTree<'v>>,
    pub sets: Vec<Member<'v>>,
}

/// The parts of a text before and after its last point. Without one, all of it is after.
fn cut_at_last_point(text: &str) -> (&str, &str)
    ensures before { result.0.now ≡ before_last is_point text.now }
    ensures after { result.1.now ≡ after_last is_point text.now }
{
    match text.rsplit_once('.') {
        Some((before, after)) => (before, after),
        None => ("", text),
    }
}

/// The namespace of the schema.
pub fn namespace(root: &Value) -> &str
    ensures value { result.now ≡ spec.namespace (view root.now) }
{
    let (before, _) = cut_at_last_point(text_at("$EntityContainer", root));
    before
}

/// The name of the entity container.
pub fn container_name(root: &Value) -> &str
    ensures value { result.now ≡ after_last is_point (spec.container_path (view root.now)) }
{
    let (_, after) = cut_at_last_point(text_at("$EntityContainer", root));
    after
}

/// The one name in `$Key`.
fn key_name(entity_type: &Value) -> &str
    ensures { result.now ≡ spec.key_name (view entity_type.now) }
{
    match entity_type.get("$Key") {
        Some(key) => only_string(key).unwrap_or(""),
        None => "",
    }
}

/// The entity type of a member.
fn type_tree<'v>(alloc: Global, member: Member<'v>) -> Result<TypeTree<'v>, AllocError>
    ensures seen { IfOk result (λ t. type_seen t ≡ member_seen member.entry) }
    ensures parts { IfOk result IsTypeTree }
    ensures ordered { IfOk result (λ _. AreOrdered (map (λ m. m.0) (members_in (view member.entry.value.now)))) }
{
    let Member { name, value } = member;
    stand_in_order(value);
    let members = members_of(alloc, value)?;
    let own = own_members(alloc, &members)?;
    let properties = properties_among(alloc, &own)?;
    let navigations = navigations_among(alloc, &own)?;
    let hierarchies = qualified_members(alloc, HIERARCHY_TERM, &members)?;
    let aggregates = qualified_members(alloc, AGGREGATE_TERM, &members)?;
    let definitions = qualified_members(alloc, DEFINITION_TERM, &members)?;
    Ok(TypeTree {
        name,
        value,
        key: key_name(value),
        members,
        own,
        properties,
        navigations,
        hierarchies,
        aggregates,
        definitions,
    })
}

/// The entity types of these members.
fn type_trees<'v>(alloc: Global, members: &[Member<'v>]) -> Result<Vec<TypeTree<'v>>, AllocError>
    ensures seen { IfOk result (λ v. map type_seen v.items ≡ map member_seen members.now) }
    ensures parts { IfOk result (λ v. All IsTypeTree v.items) }
    ensures ordered { IfOk result (λ _. All (λ m. AreOrdered (map (λ n. n.0) (members_in (view m.value.now)))) members.now) }
{
    let mut types = Vec::new(alloc);
    for member in members {
        let entity_type = type_tree(alloc, *member)?;
        types.push(entity_type)?;
    }
    Ok(types)
}

/// The members of the schema.
fn schema_members<'v>(
    alloc: Global,
    root: &'v Value,
    namespace: &str,
) -> Result<Vec<Member<'v>>, AllocError>
    ensures members { IfOk result (λ v. map member_seen v.items ≡ members_in (unwrap_or (get namespace.now (view root.now)) null)) }
    ensures ordered { IfOk result (λ v. AreOrdered (map (λ m. m.0) (map member_seen v.items))) }
{
    match root.get(namespace) {
        Some(schema) => {
            stand_in_order(schema);
            members_of(alloc, schema)
        }
        None => Ok(Vec::new(alloc)),
    }
}

/// The entity sets of the one container among these.
fn set_members<'v>(alloc: Global, containers: &[Member<'v>]) -> Result<Vec<Member<'v>>, AllocError>
    ensures members { IfOk result (λ v. map member_seen v.items ≡ spec.members_besides_kind (unwrap_or (option_map (λ m. m.1) (tree.only (map member_seen containers.now))) null)) }
    ensures ordered { IfOk result (λ _. AreOrdered (map (λ m. m.0) (members_in (unwrap_or (option_map (λ m. m.1) (tree.only (map member_seen containers.now))) null)))) }
{
    match only(containers) {
        Some(container) => {
            stand_in_order(container.value);
            let members = members_of(alloc, container.value)?;
            let read = read_members(alloc, &members)?;
            besides_kind(alloc, &read)
        }
        None => Ok(Vec::new(alloc)),
    }
}

/// The schema of a file.
pub fn read_schema<'v>(alloc: Global, root: &'v Value) -> Result<Schema<'v>, AllocError>
    ensures root { IfOk result (λ s. root_of s ≡ view root.now) }
    ensures parts { IfOk result IsSchema }
{
    let namespace = namespace(root);
    let members = schema_members(alloc, root, namespace)?;
    let read = read_members(alloc, &members)?;
    let containers = objects_among(alloc, "EntityContainer", &read)?;
    let typed = objects_among(alloc, "EntityType", &read)?;
    let types = type_trees(alloc, &typed)?;
    let sets = set_members(alloc, &containers)?;
    Ok(Schema {
        root,
        namespace,
        members,
        containers,
        types,
        sets,
    })
}
