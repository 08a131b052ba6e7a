//! What is wrong with a model file.
ghost use Rattle.std.specs.Prelude.{◌≡◌, ◌≢◌, IfOk, IsErr, IsNone, IsSome};
ghost use Rattle.edm_model.specs.ModelFile.{ModelReading, model_reading};
ghost use Rattle.run_messages.specs.Refusals.{IsModelFile};

use crate::customs::custom_reason;
use crate::json_text::object_reason;
use crate::rules::{
    Demand, collection_demand, container_demand, definition_demand, hierarchy_demand, is_reserved,
    key_demand, property_demand, reference_demand, root_demand, schema_member_demand, set_demand,
    type_member_demand,
};
use crate::values::{shown_text, shown_value};
use edm_model::{MODEL_LIMIT, ModelRefused, read_model};
use edm_schema::{Member, Schema, read_schema};
use model_diagnosis::{Fault, PropertyTest, SetTest, TypeFault, first_fault};
use serde_json::Value;
use std::alloc::{AllocError, Global};

/// What a part has to be, and by which rule.
fn demand_text(alloc: Global, demand: Demand) -> Result<String, AllocError> {
    let Demand { rule, words } = demand;
    format!(in alloc; "{words} (rule {rule})")
}

/// A part that is at fault by its kind and its name, and what it has to be.
fn demanded(alloc: Global, kind: &str, name: &str, demand: Demand) -> Result<String, AllocError> {
    let name = shown_text(alloc, name)?;
    let demand = demand_text(alloc, demand)?;
    format!(in alloc; "{kind} {name}: {demand}")
}

/// A part that has a member which no rule names.
fn unknown_member(
    alloc: Global,
    kind: &str,
    name: &str,
    other: &str,
    rule: u8,
) -> Result<String, AllocError> {
    let name = shown_text(alloc, name)?;
    let other = shown_text(alloc, other)?;
    format!(in alloc; "{kind} {name} may not have a member {other} (rule {rule})")
}

/// A name that is no simple identifier.
fn unnamed(alloc: Global, kind: &str, name: &str) -> Result<String, AllocError> {
    demanded(
        alloc,
        kind,
        name,
        Demand {
            rule: 10,
            words: "its name must be a simple identifier: at most 128 letters A to Z and a to z, digits and _, not beginning with a digit, and no reserved word (docs/grammar.md)",
        },
    )
}

/// What is at fault in the navigation properties of an entity type.
fn navigation_text(alloc: Global, fault: &TypeFault<'_>) -> Result<Option<String>, AllocError> {
    let kind = "navigation property";
    Ok(Some(match fault {
        TypeFault::Target(name) => demanded(
            alloc,
            kind,
            name,
            Demand {
                rule: 6,
                words: "\"$Type\" must be the namespace, a point and the name of an entity type of the schema",
            },
        )?,
        TypeFault::Reference(name, test) => {
            demanded(alloc, kind, name, reference_demand(*test))?
        }
        TypeFault::ReferenceMember(name, other) => unknown_member(alloc, kind, name, other, 7)?,
        TypeFault::Collection(name, test) => demanded(alloc, kind, name, collection_demand(*test))?,
        TypeFault::CollectionMember(name, other) => unknown_member(alloc, kind, name, other, 8)?,
        _ => return Ok(None),
    }))
}

/// What is at fault in the hierarchies and custom aggregates of an entity type.
fn term_text(alloc: Global, fault: &TypeFault<'_>) -> Result<Option<String>, AllocError> {
    Ok(Some(match fault {
        TypeFault::Hierarchy(name, test) => {
            demanded(alloc, "recursive hierarchy", name, hierarchy_demand(*test))?
        }
        TypeFault::HierarchyMember(name, other) => {
            unknown_member(alloc, "recursive hierarchy", name, other, 11)?
        }
        TypeFault::Aggregate(name) => demanded(
            alloc,
            "custom aggregate",
            name,
            Demand {
                rule: 12,
                words: "its value must be a string",
            },
        )?,
        TypeFault::Definition(name, test) => {
            demanded(alloc, "custom aggregate", name, definition_demand(*test))?
        }
        TypeFault::DefinitionMember(name, other) => {
            unknown_member(alloc, "definition of custom aggregate", name, other, 13)?
        }
        _ => return Ok(None),
    }))
}

/// What is at fault in what an entity type has of its own.
fn own_text(alloc: Global, fault: &TypeFault<'_>) -> Result<String, AllocError> {
    match fault {
        TypeFault::Member(name) => demanded(alloc, "member", name, type_member_demand(name)),
        TypeFault::Property(name, test) => {
            demanded(alloc, "property", name, property_demand(*test))
        }
        TypeFault::PropertyMember(name, other) => {
            unknown_member(alloc, "property", name, other, 4)
        }
        TypeFault::Key(test) => demand_text(alloc, key_demand(*test)),
        TypeFault::Name(name) => unnamed(alloc, "member", name),
        // The functions before have told these.
        TypeFault::Target(_)
        | TypeFault::Reference(_, _)
        | TypeFault::ReferenceMember(_, _)
        | TypeFault::Collection(_, _)
        | TypeFault::CollectionMember(_, _)
        | TypeFault::Hierarchy(_, _)
        | TypeFault::HierarchyMember(_, _)
        | TypeFault::Aggregate(_)
        | TypeFault::Definition(_, _)
        | TypeFault::DefinitionMember(_, _) => Ok(String::new(alloc)),
    }
}

/// What is at fault in an entity type.
fn type_text(alloc: Global, name: &str, fault: &TypeFault<'_>) -> Result<String, AllocError> {
    let name = shown_text(alloc, name)?;
    let text = match navigation_text(alloc, fault)? {
        Some(text) => text,
        None => match term_text(alloc, fault)? {
            Some(text) => text,
            None => own_text(alloc, fault)?,
        },
    };
    format!(in alloc; "entity type {name}: {text}")
}

/// What is at fault in the root and the members of the schema.
fn outer_text(alloc: Global, fault: &Fault<'_>) -> Result<String, AllocError> {
    match fault {
        Fault::Root(test) => demand_text(alloc, root_demand(*test)),
        Fault::RootMember(name) => demanded(
            alloc,
            "member",
            name,
            Demand {
                rule: 1,
                words: "the root may have \"$Version\", \"$EntityContainer\" and one schema",
            },
        ),
        Fault::SchemaMember(name) => demanded(alloc, "member", name, schema_member_demand(name)),
        Fault::Containers(test) => demand_text(alloc, container_demand(*test)),
        // `fault_text` has told these.
        Fault::Type(_, _)
        | Fault::Set(_, _)
        | Fault::SetMember(_, _)
        | Fault::SetCount(_)
        | Fault::TypeName(_)
        | Fault::SetName(_) => Ok(String::new(alloc)),
    }
}

/// What is at fault in a member of the container besides its kind.
fn set_text(alloc: Global, name: &str, test: SetTest) -> Result<String, AllocError> {
    if is_reserved(name) {
        let demand = Demand {
            rule: 9,
            words: "no rule names it; beside its kind the container has entity sets",
        };
        return demanded(alloc, "member", name, demand);
    }
    demanded(alloc, "entity set", name, set_demand(test))
}

/// What is at fault, as a text.
fn fault_text(alloc: Global, fault: &Fault<'_>) -> Result<String, AllocError> {
    match fault {
        Fault::Type(name, fault) => type_text(alloc, name, fault),
        Fault::Set(name, test) => set_text(alloc, name, *test),
        Fault::SetMember(name, other) => unknown_member(alloc, "entity set", name, other, 9),
        Fault::SetCount(name) => demanded(
            alloc,
            "entity type",
            name,
            Demand {
                rule: 9,
                words: "the container must have exactly one entity set of it",
            },
        ),
        Fault::TypeName(name) => unnamed(alloc, "entity type", name),
        Fault::SetName(name) => unnamed(alloc, "entity set", name),
        _ => outer_text(alloc, fault),
    }
}

/// The `$Type` of the member of this name, where it stands.
fn type_in<'v>(members: &[Member<'v>], name: &str) -> Option<&'v Value> {
    let member = members.iter().find(|m| m.name == name)?;
    member.value.get("$Type")
}

/// The `$Type` that is at fault, if one is and it stands there.
fn told_type<'v>(schema: &Schema<'v>, fault: &Fault<'_>) -> Option<&'v Value> {
    match fault {
        Fault::Type(
            owner,
            TypeFault::Target(name) | TypeFault::Property(name, PropertyTest::TypeName),
        ) => {
            let entity_type = schema.types.iter().find(|t| t.name == *owner)?;
            type_in(entity_type.members.as_slice(), name)
        }
        Fault::Set(name, SetTest::Type) => type_in(schema.sets.as_slice(), name),
        _ => None,
    }
}

/// What is at fault, with the `$Type` that stands there where that is at fault: a set's name in place of its type's is a common
/// slip.
fn shown_fault(
    alloc: Global,
    schema: &Schema<'_>,
    fault: &Fault<'_>,
) -> Result<String, AllocError> {
    let text = fault_text(alloc, fault)?;
    match told_type(schema, fault) {
        Some(value) => {
            let value = shown_value(alloc, value)?;
            format!(in alloc; "{text}, and is {value}")
        }
        None => Ok(text),
    }
}

/// Which rule a model file breaks, and where; nothing where that is not found.
fn rule_reason(alloc: Global, bytes: &[u8]) -> Result<Option<String>, AllocError>
    ensures { IfOk result (λ o. IsNone o → model_reading bytes.now ≢ ModelReading.NoModel) }
{
    let Ok(root) = Value::from_slice(alloc, bytes) else {
        return Err(AllocError);
    };
    let schema = read_schema(alloc, &root)?;
    match first_fault(alloc, &schema)? {
        Some(fault) => Ok(Some(shown_fault(alloc, &schema, &fault)?)),
        None => Ok(None),
    }
}

/// What is wrong with a model file, by its refusal.
fn refusal_reason(
    alloc: Global,
    bytes: &[u8],
    refused: ModelRefused,
) -> Result<Option<String>, AllocError>
    ensures memory { refused ≡ ModelRefused.Memory → IsErr result }
    ensures told { refused ≢ ModelRefused.Model → IfOk result IsSome }
    ensures rule { refused ≡ ModelRefused.Model → IfOk result (λ o. IsNone o → model_reading bytes.now ≢ ModelReading.NoModel) }
{
    match refused {
        ModelRefused::TooLong => Ok(Some(format!(in alloc;
            "the file has more than {MODEL_LIMIT} bytes"
        )?)),
        ModelRefused::Json => Ok(Some(object_reason(alloc, bytes)?)),
        ModelRefused::Model => rule_reason(alloc, bytes),
        ModelRefused::Memory => Err(AllocError),
    }
}

/// What is wrong with the bytes of a model file, in one line without an end; nothing of a file that is taken.
pub(crate) fn model_reason(alloc: Global, bytes: &[u8]) -> Result<Option<String>, AllocError>
    ensures refused { IfOk result (λ o. IsSome o → ¬ IsModelFile bytes.now) }
    ensures taken { IfOk result (λ o. IsNone o → IsModelFile bytes.now) }
{
    let model = match read_model(alloc, bytes) {
        Ok(model) => model,
        Err(refused) => return refusal_reason(alloc, bytes, refused),
    };
    custom_reason(alloc, &model)
}
