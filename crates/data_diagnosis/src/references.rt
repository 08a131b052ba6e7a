//! References to keys that are not there.
ghost use Rattle.std.specs.Prelude.{◌≡◌, true, false, IfOk, IfSome, IfNone, Some, option_map};
ghost use Rattle.serde_json.specs.View.{view};
ghost use Rattle.edm_values.specs.Values.{seen_value};
ghost use Rattle.edm_model.specs.LookUps.{IsSet, IsNavigation, navigation_on, set_type};
ghost use Rattle.edm_model.specs.Soundness.{IsSound};
ghost use Rattle.data_diagnosis.specs.EntityFaults.{has_key, misses, misses_one};

use crate::keys::{are_same, key_of};
use edm_data::{property_value, set_items};
use edm_model::{Model, NavId, SetId};
use edm_values::Seen;
use serde_json::Value as Json;
use std::alloc::{AllocError, Global};

/// Whether an item of the set has this key.
fn has_item(
    alloc: Global,
    model: &Model,
    root: &Json,
    s: SetId,
    key: Seen<'_>,
) -> Result<bool, AllocError>
    requires sound { IsSound model.now }
    requires there { IsSet model.now s }
    ensures { IfOk result (λ b. b ≡ has_key model.now (view root.now) s (Some (seen_value key.entry))) }
{
    let items = set_items(model, s, root);
    for item in items {
        if are_same(Some(key), key_of(alloc, model, s, item)?) {
            return Ok(true);
        }
    }
    Ok(false)
}

/// Whether by this navigation property an item refers to a key that is not there.
fn is_missing(
    alloc: Global,
    model: &Model,
    root: &Json,
    n: NavId,
    item: &Json,
) -> Result<bool, AllocError>
    requires sound { IsSound model.now }
    requires there { IsNavigation model.now n }
    ensures { IfOk result (λ b. b ≡ misses model.now (view root.now) (view item.now) n) }
{
    if model.nav_many(n) {
        return Ok(false);
    }
    let target = model.type_set(model.nav_target(n));
    let Some(key) = property_value(alloc, model, model.nav_dependent(n), item)? else {
        return Ok(false);
    };
    if key.is_null() {
        return Ok(false);
    }
    let is_there = has_item(alloc, model, root, target, key)?;
    Ok(!is_there)
}

/// A single-valued navigation property by which an item of a set refers to a key that no item of the target's set
/// has. The root is that of the whole file.
pub fn missing_reference(
    alloc: Global,
    model: &Model,
    root: &Json,
    s: SetId,
    item: &Json,
) -> Result<Option<NavId>, AllocError>
    requires sound { IsSound model.now }
    requires there { IsSet model.now s }
    ensures there { IfOk result (λ o. IfSome o (IsNavigation model.now)) }
    ensures of { IfOk result (λ o. IfSome o (λ n. n.of ≡ set_type model.now s)) }
    ensures single { IfOk result (λ o. IfSome o (λ n. option_map (λ v. v.many) (navigation_on model.now n) ≡ Some false)) }
    ensures found { IfOk result (λ o. IfSome o (λ n. misses model.now (view root.now) (view item.now) n ≡ true)) }
    ensures none { IfOk result (λ o. IfNone o (misses_one model.now (view root.now) s (view item.now) ≡ false)) }
{
    let navs = model.navs(model.set_type(s));
    for n in navs {
        if is_missing(alloc, model, root, *n, item)? {
            return Ok(Some(*n));
        }
    }
    Ok(None)
}
