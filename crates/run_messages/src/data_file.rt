//! What is wrong with a data file.
ghost use Rattle.std.specs.Prelude.{◌≡◌, ◌<◌, false, length, option_map, IfOk, IfSome, IsErr, IsSome, Some};
ghost use Rattle.edm_model.specs.LookUps.{IsNavigation, IsProperty, IsSet, navigation_on};
ghost use Rattle.edm_model.specs.Soundness.{IsSound};
ghost use Rattle.data_diagnosis.specs.EntityFaults.{NamesProperty};
ghost use Rattle.run_messages.specs.Refusals.{IsDataFile};

use crate::json_text::object_reason;
use crate::values::{kind_words, shown_member, shown_text, wanted};
use data_diagnosis::{ShapeFault, earlier_with_key, missing_reference, shape_fault};
use edm_data::{DATA_LIMIT, DataRefused, read_data, set_items};
use edm_model::{Model, NavId, PropId, SetId, read_model};
use serde_json::Value;
use std::alloc::{AllocError, Global};

/// How many entity sets are named at most.
const SETS_SHOWN: usize = 10;

/// The names of the model's entity sets, with commas between them; of a model with more than ten, of the first ten.
fn set_list(alloc: Global, model: &Model) -> Result<String, AllocError> {
    let mut list = String::new(alloc);
    for set in model.sets().iter().take(SETS_SHOWN) {
        if !list.is_empty() {
            list.push_str(", ")?;
        }
        let name = shown_text(alloc, model.set_name(*set))?;
        list.push_str(name.as_str())?;
    }
    if model.sets().len() > SETS_SHOWN {
        list.push_str(", ...")?;
    }
    Ok(list)
}

/// A member that is no array of an entity set.
fn member_text(alloc: Global, model: &Model, name: &str) -> Result<String, AllocError> {
    let shown = shown_text(alloc, name)?;
    match model.set_named(name) {
        Some(_) => format!(in alloc;
            "member {shown}: the entities of a set must stand in an array"
        ),
        None => {
            let sets = set_list(alloc, model)?;
            format!(in alloc; "member {shown}: the model has no such entity set; it has {sets}")
        }
    }
}

/// A property that holds no value of its type.
fn value_text(alloc: Global, model: &Model, p: PropId, item: &Value) -> Result<String, AllocError>
    requires { IsProperty model.now p }
{
    let name = shown_text(alloc, model.prop_name(p))?;
    let wanted = wanted(alloc, model.prop_type(p))?;
    let value = shown_member(alloc, item, model.prop_name(p))?;
    format!(in alloc; "property {name} must be {wanted}, and is {value}")
}

/// A member that is no property of the set's type. Of a navigation property only the property that refers is written.
fn unknown_text(alloc: Global, model: &Model, s: SetId, name: &str) -> Result<String, AllocError>
    requires { IsSet model.now s }
{
    let t = model.set_type(s);
    let shown = shown_text(alloc, name)?;
    let of = shown_text(alloc, model.type_name(t))?;
    match model.nav_named(t, name) {
        Some(_) => format!(in alloc;
            "member {shown}: of entity type {of} it is a navigation property, and an entity has properties alone"
        ),
        None => format!(in alloc; "member {shown}: entity type {of} has no such property"),
    }
}

/// By what an item of a set is no entity.
fn shape_text(
    alloc: Global,
    model: &Model,
    s: SetId,
    item: &Value,
    fault: &ShapeFault<'_>,
) -> Result<String, AllocError>
    requires there { IsSet model.now s }
    requires named { NamesProperty model.now fault.now }
{
    match fault {
        ShapeFault::Object => {
            let kind = kind_words(item);
            format!(in alloc; "an entity must be an object, and this is {kind}")
        }
        ShapeFault::Member(name) => unknown_text(alloc, model, s, name),
        ShapeFault::Null(p) => {
            let name = shown_text(alloc, model.prop_name(*p))?;
            format!(in alloc; "property {name} must have a value, since it is not nullable")
        }
        ShapeFault::Value(p) => value_text(alloc, model, *p, item),
    }
}

/// The value of an item's key.
fn key_text(alloc: Global, model: &Model, s: SetId, item: &Value) -> Result<String, AllocError>
    requires { IsSet model.now s }
{
    shown_member(
        alloc,
        item,
        model.prop_name(model.key_of(model.set_type(s))),
    )
}

/// An entity whose key stands earlier in its set.
fn twice_text(
    alloc: Global,
    model: &Model,
    s: SetId,
    items: &[Value],
    at: usize,
) -> Result<Option<String>, AllocError>
    requires sound { IsSound model.now }
    requires there { IsSet model.now s }
    requires within { at < length items.now }
{
    let Some(earlier) = earlier_with_key(alloc, model, s, items, at)? else {
        return Ok(None);
    };
    let key = key_text(alloc, model, s, &items[at])?;
    Ok(Some(format!(in alloc; "its key {key} is that of entity {earlier} too")?))
}

/// A navigation property by which an entity refers to a key that is not there.
fn reference_text(
    alloc: Global,
    model: &Model,
    n: NavId,
    item: &Value,
) -> Result<String, AllocError>
    requires there { IsNavigation model.now n }
    requires single { option_map (λ v. v.many) (navigation_on model.now n) ≡ Some false }
{
    let name = shown_text(alloc, model.nav_name(n))?;
    let from = model.prop_name(model.nav_dependent(n));
    let value = shown_member(alloc, item, from)?;
    let from = shown_text(alloc, from)?;
    let target = shown_text(alloc, model.set_name(model.type_set(model.nav_target(n))))?;
    format!(in alloc;
        "navigation property {name}: {from} is {value}, and no entity of set {target} has this key"
    )
}

/// An entity at fault, and what is wrong with it.
fn entity_text(
    alloc: Global,
    model: &Model,
    s: SetId,
    at: usize,
    text: &str,
) -> Result<String, AllocError>
    requires { IsSet model.now s }
{
    let name = shown_text(alloc, model.set_name(s))?;
    format!(in alloc; "set {name}, entity {at} counted from 0: {text}")
}

/// The entity set of this id, if the model has it.
fn set_in(model: &Model, s: SetId) -> Option<SetId>
    ensures there { IfSome result (IsSet model.now) }
    ensures sound { IsSound model.now }
{
    model.sets().get(s.place()).copied()
}

/// What is wrong with the entity at this place of a set's items, by the class of its refusal.
fn item_reason(
    alloc: Global,
    model: &Model,
    root: &Value,
    s: SetId,
    at: usize,
    refused: &DataRefused,
) -> Result<Option<String>, AllocError>
    requires sound { IsSound model.now }
    requires there { IsSet model.now s }
{
    let items = set_items(model, s, root);
    let Some(item) = items.get(at) else {
        return Ok(None);
    };
    match refused {
        DataRefused::Shape(_, _) => match shape_fault(alloc, model, s, item) {
            Ok(Some(fault)) => Ok(Some(shape_text(alloc, model, s, item, &fault)?)),
            Ok(None) => Ok(None),
            Err(e) => Err(e),
        },
        DataRefused::TwiceKey(_, _) => twice_text(alloc, model, s, items, at),
        _ => match missing_reference(alloc, model, root, s, item)? {
            Some(n) => Ok(Some(reference_text(alloc, model, n, item)?)),
            None => Ok(None),
        },
    }
}

/// What is wrong with an entity, behind its set and its place.
fn entity_reason(
    alloc: Global,
    model: &Model,
    bytes: &[u8],
    s: SetId,
    at: u32,
    refused: &DataRefused,
) -> Result<Option<String>, AllocError> {
    let Ok(root) = Value::from_slice(alloc, bytes) else {
        return Err(AllocError);
    };
    let Some(s) = set_in(model, s) else {
        return Ok(None);
    };
    match item_reason(alloc, model, &root, s, at as usize, refused)? {
        Some(text) => Ok(Some(entity_text(alloc, model, s, at as usize, text.as_str())?)),
        None => Ok(None),
    }
}

/// What is wrong with the bytes of a data file, by its refusal.
fn refusal_reason(
    alloc: Global,
    model: &Model,
    bytes: &[u8],
    refused: &DataRefused,
) -> Result<Option<String>, AllocError>
    ensures { refused.now ≡ DataRefused.Memory → IsErr result }
{
    match refused {
        DataRefused::TooLong => Ok(Some(format!(in alloc;
            "the file has more than {DATA_LIMIT} bytes"
        )?)),
        DataRefused::Json => Ok(Some(object_reason(alloc, bytes)?)),
        DataRefused::Set(name) => Ok(Some(member_text(alloc, model, name.as_str())?)),
        DataRefused::Shape(s, at) | DataRefused::TwiceKey(s, at) | DataRefused::Dangling(s, at) => {
            entity_reason(alloc, model, bytes, *s, *at, refused)
        }
        DataRefused::Memory => Err(AllocError),
    }
}

/// What is wrong with the bytes of a data file over those of its model file, in one line without an end; nothing where
/// nothing is found. The model file is read twice, since a refused data file gives the model up.
pub(crate) fn data_reason(
    alloc: Global,
    model_bytes: &[u8],
    bytes: &[u8],
) -> Result<Option<String>, AllocError>
    ensures value { IfOk result (λ o. IsSome o → ¬ IsDataFile model_bytes.now bytes.now) }
{
    let (Ok(given), Ok(model)) = (
        read_model(alloc, model_bytes),
        read_model(alloc, model_bytes),
    ) else {
        return Err(AllocError);
    };
    let Err(refused) = read_data(alloc, given, bytes) else {
        return Ok(None);
    };
    refusal_reason(alloc, &model, bytes, &refused)
}
