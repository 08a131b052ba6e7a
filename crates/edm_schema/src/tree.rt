//! Reading in a JSON tree.
ghost use Rattle.std.specs.Prelude.{◌≡◌, map, option_map};
ghost use Rattle.std.specs.List.{list_all};
ghost use Rattle.serde_json.specs.View.{view};
ghost use Rattle.edm_schema.specs.JsonTrees as spec;
ghost use Rattle.edm_schema.specs.ModelTrees as file;

use crate::names::{is_one_of, is_unread};
use serde_json::Value;

/// Whether it is this string.
pub fn is_text(text: &str, value: &Value) -> bool
    ensures value { result ≡ spec.is_text text.now (view value.now) }
{
    match value.as_str() {
        Some(found) => text == found,
        None => false,
    }
}

/// Whether it is true.
pub(crate) fn is_true(value: &Value) -> bool
    ensures { result ≡ spec.is_true (view value.now) }
{
    value.as_bool().unwrap_or(false)
}

/// The text of a string member, or the one that stands in its place.
pub(crate) fn text_at_or<'v>(other: &'v str, name: &str, value: &'v Value) -> &'v str
    ensures { result.now ≡ spec.text_at_or other.now name.now (view value.now) }
{
    match value.get(name) {
        Some(found) => match found.as_str() {
            Some(text) => text,
            None => other,
        },
        None => other,
    }
}

/// The text of a string member, or nothing.
pub fn text_at<'v>(name: &str, value: &'v Value) -> &'v str
    ensures value { result.now ≡ spec.text_at name.now (view value.now) }
{
    text_at_or("", name, value)
}

/// Whether there is no such member.
pub fn lacks(name: &str, value: &Value) -> bool
    ensures value { result ≡ spec.lacks name.now (view value.now) }
{
    value.get(name).is_none()
}

/// Whether it is an object in which every member that is read has one of these names.
pub(crate) fn is_object_of(names: &[&str], value: &Value) -> bool
    ensures { result ≡ file.is_object_of (map (λ n. n.now) names.now) (view value.now) }
{
    let Some(members) = value.as_object() else {
        return false;
    };
    for (name, _) in members {
        if !is_unread(name) && !is_one_of(names, name) {
            return false;
        }
    }
    true
}

/// Whether the member is a string where it stands.
pub fn is_string_if_there(name: &str, value: &Value) -> bool
    ensures value { result ≡ spec.passes_if_at name.now spec.is_string (view value.now) }
{
    match value.get(name) {
        Some(found) => found.is_string(),
        None => true,
    }
}

/// Whether the member is true or false where it stands.
pub fn is_boolean_if_there(name: &str, value: &Value) -> bool
    ensures value { result ≡ spec.passes_if_at name.now spec.is_boolean (view value.now) }
{
    match value.get(name) {
        Some(found) => found.is_boolean(),
        None => true,
    }
}

/// Whether the member stands and is a string.
pub fn is_string_at(name: &str, value: &Value) -> bool
    ensures value { result ≡ spec.passes_at name.now spec.is_string (view value.now) }
{
    match value.get(name) {
        Some(found) => found.is_string(),
        None => false,
    }
}

/// Whether the member stands and is an object.
pub fn is_object_at(name: &str, value: &Value) -> bool
    ensures value { result ≡ spec.passes_at name.now spec.is_object (view value.now) }
{
    match value.get(name) {
        Some(found) => found.is_object(),
        None => false,
    }
}

/// Whether the member stands and is this string.
pub fn is_text_at(name: &str, text: &str, value: &Value) -> bool
    ensures value { result ≡ spec.passes_at name.now (spec.is_text text.now) (view value.now) }
{
    match value.get(name) {
        Some(found) => is_text(text, found),
        None => false,
    }
}

/// Whether the member stands and is true.
pub fn is_true_at(name: &str, value: &Value) -> bool
    ensures value { result ≡ spec.passes_at name.now spec.is_true (view value.now) }
{
    match value.get(name) {
        Some(found) => is_true(found),
        None => false,
    }
}

/// The one string of an array of exactly one.
#[tactic(auto, using(crate::proofs::Items::items))]
pub(crate) fn only_string(value: &Value) -> Option<&str>
    ensures { option_map (λ s. s.now) result ≡ spec.only_string (view value.now) }
{
    match value.as_array() {
        Some(items) => match items.as_slice() {
            [item] => item.as_str(),
            _ => None,
        },
        None => None,
    }
}

/// Whether it is an array of at least one string.
#[tactic(auto, using(crate::proofs::Items::items))]
pub(crate) fn is_list_of_strings(value: &Value) -> bool
    ensures { result ≡ file.is_list_of_strings (view value.now) }
{
    match value.as_array() {
        Some(items) => !items.is_empty() && are_strings(items.as_slice()),
        None => false,
    }
}

/// Whether each is a string.
fn are_strings(items: &[Value]) -> bool
    ensures { result ≡ list_all (λ v. spec.is_string (view v)) items.now }
{
    items.iter().all(|item| item.is_string())
}
