//! The entities of a data file, read from its JSON.
ghost use Rattle.std.specs.Prelude.{◌≡◌, ℕ, ◌<◌, ◌^◌, List, map, find, not, length, string_bytes, slice_get, option_map, Some, Err, IfOk, []};
ghost use Rattle.std.specs.List.{list_all};
ghost use Rattle.serde_json.specs.View.{view, members_view};
ghost use Rattle.edm_values.specs.Lists.{all_some};
ghost use Rattle.edm_values.specs.Values.{seen_value};
ghost use Rattle.edm_model.specs.JsonTrees.{member_list};
ghost use Rattle.edm_model.specs.LookUps.{IsSet, IsType, IsProperty, property_at, properties_of};
ghost use Rattle.edm_model.specs.Soundness.{IsSound};
ghost use Rattle.edm_data.specs.DataFile as file;
ghost use Rattle.edm_data.specs.FirstItems.{IsFirstNone, rows_read};

use crate::columns::Column;
use crate::json_values::json_value;
use crate::table::Table;
use edm_model::{Model, PropId, SetId, TypeId, is_annotation};
use edm_values::Seen;
use serde_json::{Map, Value as Json};
use std::alloc::{AllocError, Global};

/// Why the items of a set are no entities: the item at this place is none.
#[derive(Clone, Copy, Debug, Drop)]
pub(crate) enum RowsRefused {
    Shape(u32),
    Memory,
}

impl From<AllocError> for RowsRefused {
    ghost use Rattle.edm_data.specs.declared.entities.RowsRefused.TheVariants.{Memory};

    ghost from_gives = { λ _ e. e ≡ Memory };

    fn from(_: AllocError) -> RowsRefused {
        RowsRefused::Memory
    }
}

/// The value that an entity gives a property, where it is one of the property; an absent member counts as null.
pub fn property_value<'a>(
    alloc: Global,
    model: &Model,
    p: PropId,
    entity: &'a Json,
) -> Result<Option<Seen<'a>>, AllocError>
    requires sound { IsSound model.now }
    requires there { IsProperty model.now p }
    ensures value { IfOk result (λ v. option_map (file.property_value (view entity.now)) (property_at model.now p) ≡ Some (option_map seen_value v)) }
{
    if let Some(value) = entity.get(model.prop_name(p)) {
        if !value.is_null() {
            return json_value(alloc, model.prop_type(p), value);
        }
    }
    if model.prop_nullable(p) {
        return Ok(Some(Seen::Null));
    }
    Ok(None)
}

/// Whether a member of an entity names a property, or is an annotation.
pub fn is_known_member(model: &Model, t: TypeId, name: &String, value: &Json) -> bool
    requires { IsType model.now t }
    ensures value { result ≡ file.is_known_member (properties_of model.now t) (string_bytes name.now, view value.now) }
{
    model.prop_named(t, name.as_str()).is_some() || is_annotation(name.as_str())
}

/// An entity's values in the order of the type's properties, where the JSON is an entity of the type.
fn entity<'a>(
    alloc: Global,
    model: &Model,
    t: TypeId,
    item: &'a Json,
) -> Result<Option<Vec<Seen<'a>>>, AllocError>
    requires sound { IsSound model.now }
    requires there { IsType model.now t }
    ensures { IfOk result (λ v. option_map (λ values. map seen_value values.items) v ≡ file.entity_of (properties_of model.now t) (view item.now)) }
{
    let Some(members) = item.as_object() else {
        return Ok(None);
    };
    if !has_known_members(model, t, members) {
        return Ok(None);
    }
    entity_values(alloc, model, t, item)
}

/// Whether each member of an entity names a property or is an annotation.
fn has_known_members(model: &Model, t: TypeId, members: &Map<String, Json>) -> bool
    requires { IsType model.now t }
    ensures { result ≡ list_all (file.is_known_member (properties_of model.now t)) (member_list (members_view members.now.entries)) }
{
    for (name, value) in members {
        if !is_known_member(model, t, name, value) {
            return false;
        }
    }
    true
}

/// The values of the type's properties in their order, where each is one of its property.
fn entity_values<'a>(
    alloc: Global,
    model: &Model,
    t: TypeId,
    item: &'a Json,
) -> Result<Option<Vec<Seen<'a>>>, AllocError>
    requires sound { IsSound model.now }
    requires there { IsType model.now t }
    ensures { IfOk result (λ v. option_map (λ values. map seen_value values.items) v ≡ all_some (map (file.property_value (view item.now)) (properties_of model.now t))) }
{
    let props = model.props(t);
    let mut values = Vec::with_capacity(alloc, props.len())?;
    for p in props {
        match property_value(alloc, model, *p, item)? {
            Some(value) => values.push(value)?,
            None => return Ok(None),
        }
    }
    Ok(Some(values))
}

/// A table with no entities of a type.
fn empty_table(alloc: Global, model: &Model, t: TypeId) -> Result<Table, AllocError>
    requires { IsType model.now t }
    ensures width { IfOk result (λ table. table.width ≡ length (properties_of model.now t)) }
    ensures rows { IfOk result (λ table. table.rows ≡ []) }
{
    let props = model.props(t);
    let mut columns = Vec::with_capacity(alloc, props.len())?;
    for p in props {
        columns.push(Column::new(alloc, model.prop_type(*p)))?;
    }
    Ok(Table::new(columns))
}

/// The entities of a set's items, or the first item that is none.
pub(crate) fn set_rows(
    alloc: Global,
    model: &Model,
    t: TypeId,
    items: &[Json],
) -> Result<Table, RowsRefused>
    requires sound { IsSound model.now }
    requires there { IsType model.now t }
    requires few { length items.now < 2 ^ 32 }
    ensures ok { IfOk result (λ rows. rows_read rows ≡ map (λ x. file.entity_of (properties_of model.now t) (view x)) items.now) }
    ensures shape { (k : ℕ) → result ≡ Err (RowsRefused.Shape k) → IsFirstNone (map (λ x. file.entity_of (properties_of model.now t) (view x)) items.now) k }
{
    let mut rows = empty_table(alloc, model, t)?;
    for (k, item) in items.iter().enumerate() {
        let Some(values) = entity(alloc, model, t, item)? else {
            return Err(RowsRefused::Shape(k as u32));
        };
        rows = rows.push(alloc, values.as_slice())?;
    }
    Ok(rows)
}

/// The items of a set's array; a set that the file does not name has none.
pub fn set_items<'a>(model: &Model, s: SetId, root: &'a Json) -> &'a [Json]
    requires { IsSet model.now s }
    ensures value { option_map (file.array_in (view root.now)) (slice_get model.now.sets s) ≡ Some (map view result.now) }
{
    let Some(value) = root.get(model.set_name(s)) else {
        return &[];
    };
    match value.as_array() {
        Some(items) => items.as_slice(),
        None => &[],
    }
}

/// Whether a member of a data file names a set and is an array.
fn is_set_member(model: &Model, name: &String, value: &Json) -> bool
    ensures { result ≡ file.is_set_member model.now (string_bytes name.now, view value.now) }
{
    model.set_named(name.as_str()).is_some() && value.is_array()
}

/// The name of the first member that is no array of a set.
pub(crate) fn first_other_member<'a>(
    model: &Model,
    members: &'a Map<String, Json>,
) -> Option<&'a String>
    ensures { option_map (λ n. string_bytes n.now) result ≡ option_map (λ e. e.0) (find (λ e. not (file.is_set_member model.now e)) (member_list (members_view members.now.entries))) }
{
    for (name, value) in members {
        if !is_set_member(model, name, value) {
            return Some(name);
        }
    }
    None
}
