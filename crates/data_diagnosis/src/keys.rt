//! Entities of one key.
ghost use Rattle.std.specs.Prelude.{◌≡◌, ◌<◌, length, map, option_map, IfOk};
ghost use Rattle.serde_json.specs.View.{view};
ghost use Rattle.edm_values.specs.Values.{seen_value};
ghost use Rattle.edm_model.specs.LookUps.{IsSet};
ghost use Rattle.edm_model.specs.Soundness.{IsSound};
ghost use Rattle.data_diagnosis.specs.EntityFaults.{earlier_place, key_in, same_key};

use edm_data::property_value;
use edm_model::{Model, SetId};
use edm_values::{Seen, order};
use serde_json::Value as Json;
use std::alloc::{AllocError, Global};

/// The key of an item of a set, if it has one.
pub(crate) fn key_of<'a>(
    alloc: Global,
    model: &Model,
    s: SetId,
    item: &'a Json,
) -> Result<Option<Seen<'a>>, AllocError>
    requires sound { IsSound model.now }
    requires there { IsSet model.now s }
    ensures { IfOk result (λ v. option_map seen_value v ≡ key_in model.now s (view item.now)) }
{
    property_value(alloc, model, model.key_of(model.set_type(s)), item)
}

/// Whether both are values, and they are one.
pub(crate) fn are_same(a: Option<Seen<'_>>, b: Option<Seen<'_>>) -> bool
    ensures { result ≡ same_key (option_map seen_value a.entry) (option_map seen_value b.entry) }
{
    match (a, b) {
        (Some(a), Some(b)) => order(a, b).is_eq(),
        _ => false,
    }
}

/// The place of the first of a set's items before this one that has its key.
pub fn earlier_with_key(
    alloc: Global,
    model: &Model,
    s: SetId,
    items: &[Json],
    at: usize,
) -> Result<Option<usize>, AllocError>
    requires sound { IsSound model.now }
    requires there { IsSet model.now s }
    requires within { at < length items.now }
    ensures value { IfOk result (λ o. o ≡ earlier_place model.now s (map view items.now) at) }
{
    let key = key_of(alloc, model, s, &items[at])?;
    for k in 0..at {
        if are_same(key, key_of(alloc, model, s, &items[k])?) {
            return Ok(Some(k));
        }
    }
    Ok(None)
}
