//! The members of objects, in lists.
ghost use Rattle.std.specs.Prelude.{ℕ, ◌≡◌, not, List, map, filter, option_map, IfOk, codes};
ghost use Rattle.serde_json.specs.View.{view};
ghost use Rattle.edm_values.specs.Lists.{same_text};
ghost use Rattle.edm_schema.specs.JsonTrees as tree;
ghost use Rattle.edm_schema.specs.JsonTrees.{members_in};
ghost use Rattle.edm_schema.specs.ModelTrees as spec;
ghost use Rattle.edm_schema.specs.MemberLists.{member_seen};
ghost use Rattle.edm_schema.specs.NameOrders.{AreOrdered};

use crate::named::{Named, find_named};
use crate::names::{is_annotation, is_own, is_unread, qualifier};
use crate::tree::is_text_at;
use serde_json::Value;
use std::alloc::{AllocError, Global};

/// A member of an object, or of one term its qualifier and its value.
#[derive(Clone, Copy, Drop)]
pub struct Member<'v> {
    pub name: &'v str,
    pub value: &'v Value,
}

impl Named for Member<'_> {
    ghost name_of = { λ m. m.name.now };

    fn name(&self) -> &str {
        self.name
    }
}

/// The members of an object stand in byte order of their names.
pub(crate) fn stand_in_order(value: &Value)
    ensures { AreOrdered (map (λ m. m.0) (members_in (view value.now))) }
{
    match value.as_object() {
        Some(members) => {
            let _ = members.iter();
        }
        None => {}
    }
}

/// The members of an object; of anything else, none.
pub(crate) fn members_of<'v>(alloc: Global, value: &'v Value) -> Result<Vec<Member<'v>>, AllocError>
    ensures { IfOk result (λ v. map member_seen v.items ≡ members_in (view value.now)) }
{
    let mut found = Vec::new(alloc);
    let Some(members) = value.as_object() else {
        return Ok(found);
    };
    for (name, value) in members {
        found.push(Member { name, value })?;
    }
    Ok(found)
}

/// Whether it is an object of this kind.
pub(crate) fn is_object_of_kind(kind: &str, value: &Value) -> bool
    ensures { result ≡ spec.is_object_of_kind kind.now (view value.now) }
{
    value.is_object() && is_text_at("$Kind", kind, value)
}

/// Whether it is a property.
pub(crate) fn is_property(value: &Value) -> bool
    ensures { result ≡ spec.is_property (view value.now) }
{
    value.is_object()
        && match value.get("$Kind") {
            Some(_) => is_text_at("$Kind", "Property", value),
            None => true,
        }
}

/// Whether it is a navigation property.
pub(crate) fn is_navigation(value: &Value) -> bool
    ensures { result ≡ spec.is_navigation (view value.now) }
{
    is_object_of_kind("NavigationProperty", value)
}

/// The properties and navigation properties among the members of an entity type.
#[tactic(auto, using(crate::proofs::Mapped::filter_mapped))]
pub(crate) fn own_members<'v>(
    alloc: Global,
    members: &[Member<'v>],
) -> Result<Vec<Member<'v>>, AllocError>
    ensures { IfOk result (λ v. map member_seen v.items ≡ filter (λ m. spec.is_own m.0) (map member_seen members.now)) }
{
    members
        .iter()
        .copied()
        .filter(|m| is_own(m.name))
        .collect(alloc)
}

/// The properties among these.
#[tactic(auto, using(crate::proofs::Mapped::filter_mapped))]
pub(crate) fn properties_among<'v>(
    alloc: Global,
    own: &[Member<'v>],
) -> Result<Vec<Member<'v>>, AllocError>
    ensures { IfOk result (λ v. map member_seen v.items ≡ filter (λ m. spec.is_property m.1) (map member_seen own.now)) }
{
    own.iter()
        .copied()
        .filter(|m| is_property(m.value))
        .collect(alloc)
}

/// The navigation properties among these.
#[tactic(auto, using(crate::proofs::Mapped::filter_mapped))]
pub(crate) fn navigations_among<'v>(
    alloc: Global,
    own: &[Member<'v>],
) -> Result<Vec<Member<'v>>, AllocError>
    ensures { IfOk result (λ v. map member_seen v.items ≡ filter (λ m. spec.is_navigation m.1) (map member_seen own.now)) }
{
    own.iter()
        .copied()
        .filter(|m| is_navigation(m.value))
        .collect(alloc)
}

/// The members that are of the term, by their qualifiers.
pub(crate) fn qualified_members<'v>(
    alloc: Global,
    term: &str,
    members: &[Member<'v>],
) -> Result<Vec<Member<'v>>, AllocError>
    ensures { IfOk result (λ v. map member_seen v.items ≡ map (λ m. (spec.qualifier term.now m.0, m.1)) (filter (λ m. spec.is_of_term term.now m.0) (map member_seen members.now))) }
{
    let mut found = Vec::new(alloc);
    for member in members {
        let Some(name) = qualifier(term, member.name) else {
            continue;
        };
        let value = member.value;
        found.push(Member { name, value })?;
    }
    Ok(found)
}

/// The members that are read.
#[tactic(auto, using(crate::proofs::Mapped::filter_mapped))]
pub(crate) fn read_members<'v>(
    alloc: Global,
    members: &[Member<'v>],
) -> Result<Vec<Member<'v>>, AllocError>
    ensures { IfOk result (λ v. map member_seen v.items ≡ filter (λ m. not (spec.is_unread m.0)) (map member_seen members.now)) }
{
    members
        .iter()
        .copied()
        .filter(|m| !is_unread(m.name))
        .collect(alloc)
}

/// The objects of this kind among these.
#[tactic(auto, using(crate::proofs::Mapped::filter_mapped))]
pub(crate) fn objects_among<'v>(
    alloc: Global,
    kind: &str,
    read: &[Member<'v>],
) -> Result<Vec<Member<'v>>, AllocError>
    ensures { IfOk result (λ v. map member_seen v.items ≡ filter (λ m. spec.is_object_of_kind kind.now m.1) (map member_seen read.now)) }
{
    read.iter()
        .copied()
        .filter(|m| is_object_of_kind(kind, m.value))
        .collect(alloc)
}

/// All of these but the kind.
#[tactic(auto, using(crate::proofs::Mapped::filter_mapped))]
pub(crate) fn besides_kind<'v>(
    alloc: Global,
    read: &[Member<'v>],
) -> Result<Vec<Member<'v>>, AllocError>
    ensures { IfOk result (λ v. map member_seen v.items ≡ filter (λ m. not (same_text m.0 (codes "$Kind"))) (map member_seen read.now)) }
{
    read.iter()
        .copied()
        .filter(|m| m.name != "$Kind")
        .collect(alloc)
}

/// The one member of a list of exactly one.
pub fn only<'v>(members: &[Member<'v>]) -> Option<Member<'v>>
    ensures value { option_map member_seen result ≡ tree.only (map member_seen members.now) }
{
    match members {
        [member] => Some(*member),
        _ => None,
    }
}

/// The one referential constraint of a navigation property.
pub fn constraint(navigation: &Value) -> Option<Member<'_>>
    ensures value { option_map member_seen result ≡ spec.constraint (view navigation.now) }
{
    let Some(members) = navigation
        .get("$ReferentialConstraint")
        .and_then(Value::as_object)
    else {
        return None;
    };
    let mut found: Option<Member<'_>> = None;
    for (name, value) in members {
        if !is_annotation(name) {
            if found.is_some() {
                return None;
            }
            found = Some(Member { name, value });
        }
    }
    found
}

/// The value of the member of this name.
pub fn named<'v>(members: &[Member<'v>], name: &str) -> Option<&'v Value>
    requires { AreOrdered (map (λ m. m.name.now) members.now) }
    ensures value { option_map (λ v. view v.now) result ≡ spec.named (map member_seen members.now) name.now }
{
    match find_named(members, name) {
        Some(place) => {
            let member = &members[place];
            Some(member.value)
        }
        None => None,
    }
}
